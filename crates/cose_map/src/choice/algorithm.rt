//! The algorithms of one kind of message, and the keys that each takes.

ghost use Rattle.std.specs.Prelude.{◌≡◌};
ghost use Rattle.cose_map.specs.Choice.Algorithm as spec;
ghost use Rattle.cose_map.specs.Key.View.{material_value};

use crate::key::material::Material;
use cose_head::{Alg, KeyType, Kind};

/// Whether two kinds are equal.
fn is_same_kind(kind: Kind, other: Kind) -> bool
    ensures { result ≡ spec.same_kind kind other }
{
    kind == other
}

/// The algorithm of this number, if it is for messages of the kind.
pub(crate) fn algorithm_of(kind: Kind, number: i128) -> Option<Alg>
    ensures { result ≡ spec.algorithm_of kind number }
{
    match Alg::from_number(number) {
        Some(alg) if is_same_kind(alg.kind(), kind) => Some(alg),
        _ => None,
    }
}

/// Whether the material is of this type.
pub(crate) fn is_of_type(material: &Material, wanted: KeyType) -> bool
    ensures { result ≡ spec.has_type (material_value material.now) wanted }
{
    match (wanted, material) {
        (KeyType::Symmetric, Material::Symmetric(_)) => true,
        (KeyType::Elliptic(curve), Material::Ec { crv, .. }) => *crv == curve,
        _ => false,
    }
}
