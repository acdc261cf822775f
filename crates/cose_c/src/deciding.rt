//! Who decides on signatures.

use cose_msg::{EcVerifier, Key};

/// Takes every signature for good. In one call over memory a signature is left to the caller: a message that is authentic then is
/// [`SIGNED`](crate::numbers::SIGNED).
pub(crate) struct Always;

impl EcVerifier for Always {
    ghost use Rattle.cose_c.specs.Deciding.{always};

    ghost decides = { λ _. always };

    fn holds(&self, _key: &Key<'_>, _digest: &[u8], _signature: &[u8]) -> bool {
        true
    }
}

/// What the caller found out of the signature of a message that was fed.
#[derive(Clone, Copy)]
pub(crate) struct Decided {
    /// Whether it is good.
    pub(crate) is_good: bool,
}

impl EcVerifier for Decided {
    ghost use Rattle.cose_c.specs.Deciding.{deciding};

    ghost decides = { λ found. deciding found.is_good };

    fn holds(&self, _key: &Key<'_>, _digest: &[u8], _signature: &[u8]) -> bool {
        self.is_good
    }
}
