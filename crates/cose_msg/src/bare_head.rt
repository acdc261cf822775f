//! Bare heads whose bytes come one by one.

ghost use Rattle.std.specs.Prelude.{◌≡◌, ◌<◌, ◌≤◌, ◌+◌, ℕ, List, [], ◌∷◌, ◌++◌, length};
ghost use Rattle.arrayvec.specs.ArrayVec.{array_vec_len};
ghost use Rattle.cose_head.specs.Head.{bare_head, IsMore, IsWhole, IfGot};
ghost use Rattle.cose_msg.specs.BareHead.{kept_of};

use arrayvec::ArrayVec;
use cose_head::{HeadStep, parse_head};

/// Takes the next byte of a head, and returns the result for the bytes so far. They are kept until the head is whole.
#[inline(always)]
pub(crate) fn take_bare_head_byte(head: &mut ArrayVec<u8, 9>, byte: u8) -> HeadStep
    requires short { array_vec_len head.old < 9 }
    ensures short { array_vec_len head.new < 9 }
    ensures answer { result ≡ bare_head (head.old.items ++ byte ∷ []) }
    ensures kept { head.new.items ≡ kept_of result (head.old.items ++ byte ∷ []) }
    ensures stays { IsWhole result → (more : List ℕ)
        → bare_head ((head.old.items ++ byte ∷ []) ++ more) ≡ result }
    ensures last { IsMore (bare_head head.old.items)
        → IfGot result (λ h used. used ≡ length (head.old.items ++ byte ∷ [])) }
    ensures used { IfGot result (λ h used. used ≤ 9) }
{
    head.push(byte);
    let step = parse_head(head.as_slice());
    match step {
        HeadStep::More(_) => {}
        HeadStep::Got(_, _) | HeadStep::Fault(_) => head.clear(),
    }
    step
}
