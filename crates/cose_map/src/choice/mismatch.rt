//! Why a key doesn't fit a message: the first condition of the choice that it fails (RFC 9052 section 7.1).

ghost use Rattle.std.specs.Prelude.{◌≡◌, false, Some, is_some};
ghost use Rattle.std.specs.Option.{is_none};
ghost use Rattle.cose_map.specs.Choice.{fitting as fitting_key, is_answerable as is_answerable_query};
ghost use Rattle.cose_map.specs.Choice.Mismatch as spec;
ghost use Rattle.cose_map.specs.Choice.View.{question};
ghost use Rattle.cose_map.specs.Key.View.{key_value, material_value};

use crate::choice::algorithm::algorithm_of;
use crate::choice::query::{Query, is_allowed_algorithm, is_allowed_kid, is_allowed_operation};
use crate::key::Key;
use crate::key::material::Material;
use cose_head::{Alg, KeyType};

/// A condition under which a key fits a message (RFC 9052 section 7.1), in the order in which [`Query::mismatch`] checks them.
#[derive(Clone, Copy, Debug, PartialEq, Eq)]
pub enum Mismatch {
    /// The algorithm that the key would be used with is one for messages of the kind, and the key's own, if it names one. That
    /// of the protected bucket is used, without it that of the unprotected one, where the key names the same, and without
    /// both the key's own.
    Algorithm,
    /// The key is of the type that the algorithm takes: a symmetric key, or a point.
    KeyType,
    /// The point is on the algorithm's curve.
    Curve,
    /// The operations that the key lists contain the one that verifies the message.
    Operation,
    /// The identifiers are equal, where both the message and the key have one.
    Identifier,
}

/// Whether the material is of this type, on whatever curve.
fn is_of_type(material: &Material, wanted: KeyType) -> bool
    ensures { result ≡ spec.is_of_type (material_value material.now) wanted }
{
    match (material, wanted) {
        (Material::Symmetric(_), KeyType::Symmetric) => true,
        (Material::Ec { .. }, KeyType::Elliptic(_)) => true,
        _ => false,
    }
}

/// Whether the material is on the curve that is wanted, where both have one.
fn is_on_curve(material: &Material, wanted: KeyType) -> bool
    ensures { result ≡ spec.is_on_curve (material_value material.now) wanted }
{
    match (material, wanted) {
        (Material::Ec { crv, .. }, KeyType::Elliptic(curve)) => *crv == curve,
        _ => true,
    }
}

impl<'q> Query<'q> {
    /// The algorithm that the key is used with, where it is one for messages of the kind, and the key's own, if that is named.
    fn algorithm_with(&self, key: &Key) -> Option<Alg>
        ensures { result ≡ spec.algorithm_with (question self.now) (key_value key.now) }
    {
        match self.algorithm_for(key) {
            Some(number) if is_allowed_algorithm(key.alg, number) => {
                algorithm_of(self.kind, number)
            }
            _ => None,
        }
    }

    /// The first condition that a key fails, in the order of [`Mismatch`]; `None` where it fits.
    ///
    /// A message that names no algorithm that is known here for its kind fits no key: each fails [`Mismatch::Algorithm`]. Where
    /// several keys fit, none is chosen ([`KeySet::find`](crate::KeySet::find)), although this says of each that it fits.
    pub fn mismatch(&self, key: &Key) -> Option<Mismatch>
        ensures first { result ≡ spec.mismatch (question self.now) (key_value key.now) }
        // There is none exactly where the key is among those of which one is chosen.
        ensures fits { is_none result
            ≡ is_some (fitting_key (question self.now) (key_value key.now)) }
        ensures unanswerable { let q = question self.now in
            is_answerable_query q.kind q.protected_alg q.unprotected_alg ≡ false
            → result ≡ Some Mismatch.Algorithm }
    {
        let Some(alg) = self.algorithm_with(key) else {
            return Some(Mismatch::Algorithm);
        };
        let wanted = alg.key_type();
        if !is_of_type(&key.material, wanted) {
            return Some(Mismatch::KeyType);
        }
        if !is_on_curve(&key.material, wanted) {
            return Some(Mismatch::Curve);
        }
        if !is_allowed_operation(key.ops, self.operation) {
            return Some(Mismatch::Operation);
        }
        if !is_allowed_kid(key.kid, self.kid) {
            return Some(Mismatch::Identifier);
        }
        None
    }
}
