//! A COSE_Mac0 that is being made, in the caller's memory.

ghost use Rattle.std.specs.Prelude.{◌≡◌, None};
ghost use Rattle.std.specs.Borrow.{full_share, sem};
ghost use Rattle.std.specs.Ptr.{lies_at};
ghost use prog.Memory.{align, capped, size};
ghost use denote.Param.{layout};
ghost use denote.RawPtr.{room_at};
ghost use Rattle.cose_c.specs.declared.held.maker.HeldMaker.{HeldMaker};
ghost use Rattle.cose_c.specs.contracts.held.maker.HeldMaker.{the_row};

use cose_msg::Maker;
use std::marker::Model;
use std::ptr;

/// The value in a block: a maker, once a message is begun.
#[derive(Drop)]
pub struct HeldMaker {
    pub(crate) content: Option<Maker>,
}

/// The handle of a maker: where its block is.
#[repr(C)]
pub struct CoseMaker {
    at: *mut u8,
    pub ghost value: { HeldMaker },
}

impl Model for CoseMaker {
    ghost also_owns = { λ handle. lies_at the_row full_share handle.at handle.value };
}

impl CoseMaker {
    ghost use Rattle.cose_c.specs.Held.{LendsMaker};

    /// The value in the block.
    pub(crate) fn lend(&mut self) -> &mut HeldMaker
        ensures* writes_back { sem 𝓛 (LendsMaker self.entry result) }
        ensures value { result.now ≡ self.old.value }
    {
        unsafe { &mut *(self.at as *mut HeldMaker) }
    }
}

/// A value without a maker.
fn closed() -> HeldMaker
    ensures { result.content ≡ None }
{
    HeldMaker { content: None }
}

/// The number of bytes of a maker's block.
#[unsafe(no_mangle)]
pub extern "C" fn cose_maker_size() -> usize
    ensures { result ≡ capped (size (layout the_row)) }
{
    size_of::<HeldMaker>()
}

/// The alignment of its address.
#[unsafe(no_mangle)]
pub extern "C" fn cose_maker_align() -> usize
    ensures { result ≡ capped (align (layout the_row)) }
{
    align_of::<HeldMaker>()
}

/// Makes the bytes at this address the block of a maker without a message.
#[unsafe(no_mangle)]
pub unsafe extern "C" fn cose_maker_begin(at: *mut u8)
    requires* { sem 𝓛 (room_at the_row at) }
    ensures* { ∃ₛ λ (begun : HeldMaker). sem 𝓛 (lies_at the_row full_share at begun)
        ∗ ⌜ begun.content ≡ None ⌝ }
{
    ptr::write(at as *mut HeldMaker, closed())
}
