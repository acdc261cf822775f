//! Heads that are read a byte at a time.

ghost use Rattle.std.specs.Prelude.{◌≡◌, ◌≤◌, ℕ, length, List, [], ◌∷◌, ◌++◌, true};
ghost use Rattle.cose_head.specs.HalfHead.{is_half, HeadSoFar, kept_of};

use crate::head::{Head, HeadStep, parse_head};
use crate::reason::Reason;
use arrayvec::ArrayVec;

/// The head that these first bytes of an item are, or `None` where it is incomplete.
fn head_so_far(first: &[u8], room: usize) -> Result<Option<Head>, Reason>
    requires { (half : List ℕ) × (byte : ℕ) × (first.now ≡ half ++ byte ∷ [])
        × (is_half half ≡ true) × (length half ≤ room) }
    ensures { HeadSoFar first.now room result }
{
    if room < first.len() {
        return Err(Reason::PastRoom);
    }
    match parse_head(first) {
        HeadStep::Got(head, _) => Ok(Some(head)),
        HeadStep::More(wanted) => {
            if room - first.len() < wanted {
                return Err(Reason::PastRoom);
            }
            Ok(None)
        }
        HeadStep::Fault(reason) => Err(reason),
    }
}

/// Takes the next byte of an item's head, and returns the head if it is complete.
#[tactic(auto, using(crate::proofs::lemmas::Head::HalfHead::half_is_short))]
pub(crate) fn take_head_byte(
    half: &mut ArrayVec<u8, 9>,
    byte: u8,
    room: usize,
) -> Result<Option<Head>, Reason>
    requires begun { is_half half.old.items ≡ true }
    requires fits { length half.old.items ≤ room }
    ensures head { HeadSoFar (half.old.items ++ byte ∷ []) room result }
    ensures kept { half.new.items ≡ kept_of result (half.old.items ++ byte ∷ []) }
    ensures begun { is_half half.new.items ≡ true }
    ensures fits { length half.new.items ≤ room }
{
    half.push(byte);
    let head = head_so_far(half, room);
    match head {
        Ok(None) => {}
        Ok(Some(_)) | Err(_) => half.clear(),
    }
    head
}
