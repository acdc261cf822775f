//! The prepared keys of a table.

ghost use Rattle.std.specs.Prelude.{IfSome, IsTrue};
ghost use Rattle.std.specs.Option.{ForSome};
ghost use Rattle.cose_mac.specs.Prepared.{IsPrepared, serves};

use crate::key::Key;
use crate::key::material::Material;
use crate::label::Label;
use cose_head::Alg;
use cose_mac::{Prepared, same_bytes};

/// A secret of a table, and the same prepared for MACs. A place that is empty has none.
#[derive(Drop)]
pub(crate) struct PreparedKey<'a> {
    secret: &'a [u8],
    prepared: Option<Prepared>,
    ghost ready: { ∥ ForSome prepared (λ prepared. IsPrepared prepared secret.now) ∥₁ },
}

impl Default for PreparedKey<'_> {
    fn default() -> Self {
        PreparedKey {
            secret: &[],
            prepared: None,
        }
    }
}

/// The algorithm for which a key is prepared: its own, and HMAC 256/256 where it names none.
fn algorithm_of(own: Option<Label<'_>>) -> Option<Alg> {
    match own {
        None => Some(Alg::Hmac256),
        Some(Label::Int(number)) => Alg::from_number(number),
        Some(Label::Text(_)) => None,
    }
}

impl<'a> PreparedKey<'a> {
    /// A key, prepared if it makes MACs.
    pub(crate) fn of(key: &Key<'a>) -> Option<PreparedKey<'a>> {
        let Material::Symmetric(secret) = key.material else {
            return None;
        };
        match algorithm_of(key.alg) {
            Some(alg) if alg.is_mac() => Some(PreparedKey {
                secret,
                prepared: Some(Prepared::hmac(alg, secret)),
            }),
            _ => None,
        }
    }

    /// What is prepared, if the secret is this one, and it is prepared for the algorithm.
    pub(crate) fn prepared_for(&self, alg: Alg, secret: &[u8]) -> Option<&Prepared>
        ensures { IfSome result (λ prepared.
            IsTrue (serves prepared.now alg) × IsPrepared prepared.now secret.now) }
    {
        let Some(prepared) = &self.prepared else {
            return None;
        };
        if prepared.serves(alg) && same_bytes(self.secret, secret) {
            return Some(prepared);
        }
        None
    }
}
