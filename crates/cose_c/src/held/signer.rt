//! A COSE_Sign1 that is being made, in the caller's memory.

ghost use Rattle.std.specs.Prelude.{◌≡◌, None};
ghost use Rattle.std.specs.Borrow.{full_share, sem};
ghost use Rattle.std.specs.Ptr.{lies_at};
ghost use prog.Memory.{align, capped, size};
ghost use denote.Param.{layout};
ghost use denote.RawPtr.{room_at};
ghost use Rattle.cose_c.specs.declared.held.signer.HeldSigner.{HeldSigner};
ghost use Rattle.cose_c.specs.contracts.held.signer.HeldSigner.{the_row};

use cose_msg::{Sign1Maker, Unsigned};
use std::marker::Model;
use std::ptr;

/// A message that was begun.
#[derive(Drop)]
pub(crate) enum Signing {
    /// Its payload is taken.
    Payload(Sign1Maker),
    /// It lacks its signature alone.
    Signature(Unsigned),
}

/// The value in a block: a message, once one is begun.
#[derive(Drop)]
pub struct HeldSigner {
    pub(crate) content: Option<Signing>,
}

/// The handle of a signer: where its block is.
#[repr(C)]
pub struct CoseSigner {
    at: *mut u8,
    pub ghost value: { HeldSigner },
}

impl Model for CoseSigner {
    ghost also_owns = { λ handle. lies_at the_row full_share handle.at handle.value };
}

impl CoseSigner {
    ghost use Rattle.cose_c.specs.Held.{LendsSigner};

    /// The value in the block.
    pub(crate) fn lend(&mut self) -> &mut HeldSigner
        ensures* writes_back { sem 𝓛 (LendsSigner self.entry result) }
        ensures value { result.now ≡ self.old.value }
    {
        unsafe { &mut *(self.at as *mut HeldSigner) }
    }
}

/// A value without a message.
fn closed() -> HeldSigner
    ensures { result.content ≡ None }
{
    HeldSigner { content: None }
}

/// The number of bytes of a signer's block.
#[unsafe(no_mangle)]
pub extern "C" fn cose_signer_size() -> usize
    ensures { result ≡ capped (size (layout the_row)) }
{
    size_of::<HeldSigner>()
}

/// The alignment of its address.
#[unsafe(no_mangle)]
pub extern "C" fn cose_signer_align() -> usize
    ensures { result ≡ capped (align (layout the_row)) }
{
    align_of::<HeldSigner>()
}

/// Makes the bytes at this address the block of a signer without a message.
#[unsafe(no_mangle)]
pub unsafe extern "C" fn cose_signer_begin(at: *mut u8)
    requires* { sem 𝓛 (room_at the_row at) }
    ensures* { ∃ₛ λ (begun : HeldSigner). sem 𝓛 (lies_at the_row full_share at begun)
        ∗ ⌜ begun.content ≡ None ⌝ }
{
    ptr::write(at as *mut HeldSigner, closed())
}
