//! A message from any intake.

ghost use Rattle.std.specs.Prelude.{◌≡◌, false};
ghost use Rattle.cose_msg.specs.Kept.{is_inspecting};
ghost use Rattle.cose_msg.specs.Verifier.{is_detached};

use crate::context::context;
use cose_msg::{
    Intake, KeySet, Never, Reason, Refusal, SliceIntake, Stop, Store, Verdict, Verifier, verify,
};

/// Why there is no payload.
#[derive(Clone, Copy, Debug, PartialEq, Eq)]
pub enum Problem {
    /// The key set is refused.
    Keys(Refusal),
    /// The message is refused.
    Message(Refusal),
    /// There is no verdict.
    Stopped(Stop),
}

/// The payload of the message from the intake, where it is authentic.
pub fn payload_of<'p, I: Intake>(
    verifier: &mut Verifier<1_024, 8>,
    intake: &mut I,
    store: &'p mut Store<4_096>,
) -> Result<&'p [u8], Problem>
    requires verifies { is_inspecting verifier.old ≡ false }
    requires attached { is_detached verifier.old ≡ false }
    ensures verifies { is_inspecting verifier.new ≡ false }
    ensures attached { is_detached verifier.new ≡ false }
{
    verifier.reset();
    store.clear();
    match verify::<512, 1_024, 8, _, _, _, _>(verifier, intake, store, &Never) {
        Ok(Verdict::Authentic { .. }) => Ok(store.bytes()),
        Ok(Verdict::Refused(refusal)) => Err(Problem::Message(refusal)),
        Err(stop) => Err(Problem::Stopped(stop)),
    }
}

/// The number of bytes of the payload of a message in memory.
pub fn payload_length(key_set: &[u8], message: &[u8]) -> Result<usize, Problem> {
    let keys = match KeySet::read(key_set) {
        Ok(keys) => keys,
        Err(refusal) => return Err(Problem::Keys(refusal)),
    };
    let mut verifier = Verifier::new(context(keys));
    let mut intake = SliceIntake::new(message, 512);
    let mut store = Store::new();
    let length = payload_of(&mut verifier, &mut intake, &mut store)?.len();
    if intake.take(&mut [0]) != Ok(0) {
        return Err(Problem::Message(Refusal {
            reason: Reason::Trailing,
            place: verifier.taken(),
        }));
    }
    Ok(length)
}
