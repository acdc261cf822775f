//! A verifier in the caller's memory, of header buckets of at most 65,535 bytes.

ghost use Rattle.std.specs.Prelude.{◌≡◌, None};
ghost use Rattle.std.specs.Borrow.{full_share, sem};
ghost use Rattle.std.specs.Ptr.{lies_at};
ghost use prog.Memory.{align, capped, size};
ghost use denote.Param.{layout};
ghost use denote.RawPtr.{room_at};
ghost use Rattle.cose_c.specs.declared.held.large_verifier.HeldLargeVerifier.{HeldLargeVerifier};
ghost use Rattle.cose_c.specs.contracts.held.large_verifier.HeldLargeVerifier.{the_row};

use crate::fed_keys::FedKeys;
use crate::terms::{LARGE_HEADER, LARGE_NESTING};
use cose_msg::Verifier;
use std::marker::Model;
use std::ptr;

/// The value in a block: a verifier, once it is opened, and the number of its message.
#[derive(Drop)]
pub struct HeldLargeVerifier {
    pub(crate) message: u64,
    pub(crate) content: Option<Verifier<'static, LARGE_HEADER, LARGE_NESTING, FedKeys<'static>>>,
}

/// The handle of a verifier: where its block is.
#[repr(C)]
pub struct CoseLargeVerifier {
    at: *mut u8,
    pub ghost value: { HeldLargeVerifier },
}

impl Model for CoseLargeVerifier {
    ghost also_owns = { λ handle. lies_at the_row full_share handle.at handle.value };
}

impl CoseLargeVerifier {
    ghost use Rattle.cose_c.specs.Held.{LendsLargeVerifier};

    /// The value in the block.
    pub(crate) fn lend(&mut self) -> &mut HeldLargeVerifier
        ensures* writes_back { sem 𝓛 (LendsLargeVerifier self.entry result) }
        ensures value { result.now ≡ self.old.value }
    {
        unsafe { &mut *(self.at as *mut HeldLargeVerifier) }
    }
}

/// A value without a verifier.
fn closed() -> HeldLargeVerifier
    ensures { result.content ≡ None }
{
    HeldLargeVerifier {
        message: 0,
        content: None,
    }
}

/// The number of bytes of a verifier's block.
#[unsafe(no_mangle)]
pub extern "C" fn cose_large_verifier_size() -> usize
    ensures { result ≡ capped (size (layout the_row)) }
{
    size_of::<HeldLargeVerifier>()
}

/// The alignment of its address.
#[unsafe(no_mangle)]
pub extern "C" fn cose_large_verifier_align() -> usize
    ensures { result ≡ capped (align (layout the_row)) }
{
    align_of::<HeldLargeVerifier>()
}

/// Makes the bytes at this address the block of a verifier that isn't opened.
#[unsafe(no_mangle)]
pub unsafe extern "C" fn cose_large_begin(at: *mut u8)
    requires* { sem 𝓛 (room_at the_row at) }
    ensures* { ∃ₛ λ (begun : HeldLargeVerifier). sem 𝓛 (lies_at the_row full_share at begun)
        ∗ ⌜ begun.content ≡ None ⌝ }
{
    ptr::write(at as *mut HeldLargeVerifier, closed())
}
