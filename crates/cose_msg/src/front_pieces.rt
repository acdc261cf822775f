//! What precedes the payload's content in the structure that is authenticated (RFC 9052 sections 6.3 and 4.4), in pieces,
//! for a caller that hashes it.

ghost use Rattle.std.specs.Prelude.{◌≡◌, ◌++◌, ℕ, List, length};
ghost use Rattle.std.specs.List.{concat};
ghost use Rattle.cose_mac.specs.Structure.{structure_front, structure_of};
ghost use Rattle.cose_msg.specs.FrontPieces.{context_front, piece_at, pieces_of};

use arrayvec::ArrayVec;
use cose_head::{Kind, write_head};

/// All bytes of the MAC_structure or Sig_structure (RFC 9052 sections 6.3 and 4.4) before the payload's content, in pieces: for a
/// caller that has the hash or the key elsewhere. The heads are made, of at most 9 bytes each; the other pieces are where they were.
#[derive(Clone, Debug, Drop)]
pub struct FrontPieces<'v> {
    context: &'v [u8],
    protected_head: ArrayVec<u8, 9>,
    protected: &'v [u8],
    aad_head: ArrayVec<u8, 9>,
    aad: &'v [u8],
    payload_head: ArrayVec<u8, 9>,
}

/// The head of the array of four, and the context of a kind of message.
fn context(kind: Kind) -> &'static [u8]
    ensures { result.now ≡ context_front kind }
{
    match kind {
        Kind::Mac0 => b"\x84\x64MAC0",
        Kind::Sign1 => b"\x84\x6aSignature1",
    }
}

impl<'v> FrontPieces<'v> {
    /// How many pieces there are.
    pub const COUNT: usize = 6;

    /// The pieces of the structure of a message of this kind.
    ///
    /// `protected` is the content of the protected bucket as received, or empty where the bucket has no parameters; `aad`
    /// is the externally supplied data; `payload_length` is the number of bytes of the payload.
    pub fn new(kind: Kind, protected: &'v [u8], aad: &'v [u8], payload_length: u64) -> Self
        ensures joined { concat (pieces_of result)
            ≡ structure_front kind protected.now aad.now payload_length }
        ensures context { piece_at 0 (pieces_of result) ≡ context_front kind }
        ensures external { piece_at 4 (pieces_of result) ≡ aad.now }
        // With any payload of that length after them, they are the structure.
        ensures completes { (payload : List ℕ) → length payload ≡ payload_length
            → concat (pieces_of result) ++ payload
            ≡ structure_of kind protected.now aad.now payload }
    {
        FrontPieces {
            context: context(kind),
            protected_head: write_head(2, protected.len() as u64),
            protected,
            aad_head: write_head(2, aad.len() as u64),
            aad,
            payload_head: write_head(2, payload_length),
        }
    }

    /// The second piece: the protected header's head.
    pub fn protected_head(&self) -> &ArrayVec<u8, 9>
        ensures { result.now.items ≡ piece_at 1 (pieces_of self.now) }
    {
        &self.protected_head
    }

    /// The third piece: the content of the protected header, as it was received.
    pub fn protected(&self) -> &'v [u8]
        ensures { result.now ≡ piece_at 2 (pieces_of self.now) }
    {
        self.protected
    }

    /// The fourth piece: the external data's head.
    pub fn aad_head(&self) -> &ArrayVec<u8, 9>
        ensures { result.now.items ≡ piece_at 3 (pieces_of self.now) }
    {
        &self.aad_head
    }

    /// The last piece: the payload's head.
    pub fn payload_head(&self) -> &ArrayVec<u8, 9>
        ensures { result.now.items ≡ piece_at 5 (pieces_of self.now) }
    {
        &self.payload_head
    }

    /// The piece of this number, from 0 on. It may have no bytes, as each after the last has none.
    pub fn piece(&self, index: usize) -> &[u8]
        ensures { result.now ≡ piece_at index (pieces_of self.now) }
    {
        match index {
            0 => self.context,
            1 => self.protected_head.as_slice(),
            2 => self.protected,
            3 => self.aad_head.as_slice(),
            4 => self.aad,
            5 => self.payload_head.as_slice(),
            _ => &[],
        }
    }
}
