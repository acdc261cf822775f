//! An `EcVerifier` over elliptic curves of the caller's.

ghost use Rattle.std.specs.Prelude.{◌≡◌, ℕ, Bool, List, IfSome, is_some, length, nat_le};
ghost use Rattle.cose_map.specs.Key.View.{y_value};
ghost use Rattle.cose_examples.specs.Signatures.{asks, encoded};

use arrayvec::ArrayVec;
use cose_map::{Material, Y};
use cose_msg::{EcVerifier, Key};

/// Elliptic curves of the caller's: a library's, or those of a secure element.
pub trait Curves {
    ghost accepts: { Self → ℕ → List ℕ → List ℕ → List ℕ → List ℕ → Bool };

    /// Whether r and s are an ECDSA signature of the digest under this point of the curve. The same question has the same answer.
    fn is_good(&self, curve: u8, point: &[u8], digest: &[u8], r: &[u8], s: &[u8]) -> bool
        ensures { result ≡ accepts self.now curve point.now digest.now r.now s.now };
}

/// Verifies signatures with these curves.
#[derive(Clone, Copy)]
pub struct Signatures<C> {
    /// The curves.
    pub curves: C,
}

/// A point in the encoding of SEC 1, section 2.3.3. On P-521 it has at most 133 bytes, and on the other curves fewer.
fn encode(x: &[u8], y: Y<'_>) -> Option<ArrayVec<u8, 133>>
    ensures point { IfSome result (λ point. point.items ≡ encoded x.now (y_value y.entry)) }
    ensures fits { is_some result ≡ nat_le (length (encoded x.now (y_value y.entry))) 133 }
{
    let mut point = ArrayVec::new();
    match y {
        Y::Bytes(y) => {
            point.push(4);
            point.try_extend_from_slice(x).ok()?;
            point.try_extend_from_slice(y).ok()?;
            Some(point)
        }
        Y::Sign(odd) => {
            point.push(if odd { 3 } else { 2 });
            point.try_extend_from_slice(x).ok()?;
            Some(point)
        }
    }
}

impl<C: Curves> EcVerifier for Signatures<C> {
    ghost decides = { λ signatures key digest signature.
        asks (C.accepts signatures.curves) key.material digest signature };

    fn holds(&self, key: &Key<'_>, digest: &[u8], signature: &[u8]) -> bool {
        let Material::Ec { crv, x, y } = key.material else {
            return false;
        };
        let Some(point) = encode(x, y) else {
            return false;
        };
        let (r, s) = signature.split_at(signature.len() / 2);
        self.curves.is_good(crv, point.as_slice(), digest, r, s)
    }
}
