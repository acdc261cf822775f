//! The caller's verifier of signatures by further algorithms (RFC 9053 section 2.2).

ghost use Rattle.std.specs.Prelude.{◌≡◌, ◌++◌};
ghost use Rattle.std.specs.List.{concat};
ghost use Rattle.cose_map.specs.Key.Okp.{okp_value};
ghost use Rattle.cose_msg.specs.Further.{FurtherDecides};
ghost use Rattle.cose_msg.specs.FrontPieces.{pieces_of};

use crate::front_pieces::FrontPieces;
use cose_head::FurtherAlg;
use cose_map::OkpKey;

/// Verifies EdDSA signatures (RFC 8032, RFC 9053 section 2.2). It is deterministic: its answer is a function of its value and
/// of what it is asked.
pub trait FurtherVerifier {
    ghost use Rattle.std.specs.Prelude.{ℕ, Bool, List};
    ghost use Rattle.cose_head.specs.declared.further.FurtherAlg.{FurtherAlg};
    ghost use Rattle.cose_map.specs.Key.Okp.{OkpValue};

    ghost decides: { Self → OkpValue → FurtherAlg → List ℕ → List ℕ → Bool };

    /// Whether the signature was made, by this algorithm and with the key's private part, over the structure: the pieces of its
    /// front, and then the payload.
    fn holds(
        &self,
        key: &OkpKey<'_>,
        alg: FurtherAlg,
        front: &FrontPieces<'_>,
        payload: &[u8],
        signature: &[u8],
    ) -> bool
        ensures { result ≡ decides self.now (okp_value key.now) alg
            (concat (pieces_of front.now) ++ payload.now) signature.now };
}
