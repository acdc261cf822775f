//! The verifier of signatures with elliptic curves (RFC 9053 section 2.1).

ghost use Rattle.std.specs.Prelude.{◌≡◌, ℕ, Bool, false, List};
ghost use Rattle.cose_map.specs.Key.Value.{KeyValue};
ghost use Rattle.cose_map.specs.Key.View.{key_value};

use cose_map::Key;

/// Verifies ECDSA signatures (RFC 9053 section 2.1). It is deterministic: its answer is a function of its value and of
/// what it is asked.
pub trait EcVerifier {
    ghost decides: { Self → KeyValue → List ℕ → List ℕ → Bool };

    /// Whether the signature, which is the two integers r and s in this order, was made over this digest with the key's
    /// private part.
    fn holds(&self, key: &Key<'_>, digest: &[u8], signature: &[u8]) -> bool
        ensures { result ≡ decides self.now (key_value key.now) digest.now signature.now };
}

/// Refuses every signature.
#[derive(Clone, Copy, Debug, PartialEq, Eq)]
pub struct Never;

impl EcVerifier for Never {
    ghost decides = { λ _ _ _ _. false };

    fn holds(&self, _key: &Key<'_>, _digest: &[u8], _signature: &[u8]) -> bool {
        false
    }
}
