//! The structures that are authenticated (RFC 9052 sections 4.4 and 6.3).

ghost use Rattle.std.specs.Prelude.{◌≡◌, ◌≤◌, ℕ, List, ◌++◌, length};
ghost use Rattle.cose_head.specs.Head.{shortest_head};
ghost use Rattle.cose_mac.specs.Running.{Appends};
ghost use Rattle.cose_mac.specs.Structure as spec;

use crate::running::Running;
use cose_head::{Kind, write_head};

const BYTE_STRING: u8 = 2;

const TEXT_STRING: u8 = 3;

const ARRAY: u8 = 4;

/// The context string of a kind of message (RFC 9052 sections 4.4 and 6.3).
fn context(kind: Kind) -> &'static [u8]
    ensures { result.now ≡ spec.context_of kind }
{
    match kind {
        Kind::Mac0 => b"MAC0",
        Kind::Sign1 => b"Signature1",
    }
}

/// Appends the shortest head of this major type and argument.
fn update_head(into: &mut Running, major: u8, argument: u64)
    requires { major ≤ 6 }
    ensures { Appends into.old into.new (shortest_head major argument) }
{
    into.update(&write_head(major, argument));
}

/// Appends a string with its shortest head.
#[tactic(auto, using(crate::proofs::RunningLemmas::append_both))]
fn update_string(into: &mut Running, major: u8, content: &[u8])
    requires { major ≤ 6 }
    ensures { Appends into.old into.new (spec.encoded_string major content.now) }
{
    update_head(into, major, content.len() as u64);
    into.update(content);
}

/// Appends all bytes of the MAC_structure or Sig_structure before the payload's content (RFC 9052 sections 6.3 and
/// 4.4), including the payload's head. All heads are the shortest.
///
/// `protected` is the content of the protected bucket as received, or empty where the bucket has no parameters; `aad`
/// is the externally supplied data; `payload_length` is the number of bytes of the payload.
#[tactic(auto, using(crate::proofs::StructureLemmas::front_with_payload))]
pub fn structure_front(
    kind: Kind,
    protected: &[u8],
    aad: &[u8],
    payload_length: u64,
    into: &mut Running,
)
    ensures appended { Appends into.old into.new
        (spec.structure_front kind protected.now aad.now payload_length) }

    // With any payload of that length after it, this is the structure.
    ensures front { (payload : List ℕ) → length payload ≡ payload_length
        → spec.structure_front kind protected.now aad.now payload_length ++ payload
        ≡ spec.structure_of kind protected.now aad.now payload }
{
    update_head(into, ARRAY, 4);
    update_string(into, TEXT_STRING, context(kind));
    update_string(into, BYTE_STRING, protected);
    update_string(into, BYTE_STRING, aad);
    update_head(into, BYTE_STRING, payload_length);
}
