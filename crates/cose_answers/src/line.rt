//! The line that is printed of a verdict.

ghost use Rattle.std.specs.Prelude.{◌≡◌, Some};
ghost use Rattle.cose_answers.specs.Printed.{verdict_line, word_of_kind};

use cose_msg::{Kind, Verdict};
use std::fmt;

/// The line of a verdict, without its end.
#[derive(Clone, Copy)]
pub struct Line {
    /// The verdict.
    pub verdict: Verdict,
}

/// The word that is printed for a kind.
pub fn word_of(kind: Kind) -> &'static str
    ensures { result.now ≡ word_of_kind kind }
{
    match kind {
        Kind::Mac0 => "mac0",
        Kind::Sign1 => "sign1",
    }
}

impl fmt::Display for Line {
    ghost output = { λ line. Some (verdict_line line.verdict) };

    fn fmt<W: fmt::Write>(&self, f: &mut fmt::Formatter<W>) -> fmt::Result {
        match self.verdict {
            Verdict::Authentic {
                kind,
                alg,
                payload,
                taken,
            } => {
                let kind = word_of(kind);
                let alg = alg.number();
                write!(
                    f,
                    "authentic {kind} alg {alg} payload {payload} taken {taken}"
                )
            }
            Verdict::Refused(refusal) => write!(f, "refused {refusal}"),
        }
    }
}
