//! A message in memory.

ghost use Rattle.std.specs.Prelude.{IfOk};
ghost use Rattle.cose_examples.specs.Memory.{Carries};

use cose_msg::{Context, KeySet, Never, Refusal, Verified, Verifier, Wanted, verify_slice};

/// Why there is no payload.
#[derive(Clone, Copy, Debug, PartialEq, Eq)]
pub enum Problem {
    /// The key set is refused.
    Keys(Refusal),
    /// The message is refused.
    Message(Refusal),
}

/// The payload of a message in memory that is authentic under these keys.
pub fn payload_in<'m>(key_set: &[u8], message: &'m [u8]) -> Result<&'m [u8], Problem>
    ensures authentic { IfOk result (λ payload. Carries key_set.now message.now payload.now) }
{
    let keys = match KeySet::read(key_set) {
        Ok(keys) => keys,
        Err(refusal) => return Err(Problem::Keys(refusal)),
    };
    let mut verifier = Verifier::<1_024, 8>::new(Context {
        keys,
        aad: b"",
        wanted: Wanted::Tagged,
        cwt: false,
        understood: &[],
        payload_limit: 4_096,
    });
    match verify_slice(&mut verifier, message, &Never) {
        Verified::Authentic { payload, .. } => Ok(payload),
        Verified::Refused(refusal) => Err(Problem::Message(refusal)),
    }
}
