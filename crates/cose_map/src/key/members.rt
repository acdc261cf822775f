//! The members of a key (RFC 9052 section 7.1, RFC 9053 section 7).

ghost use Rattle.std.specs.Prelude.{◌≡◌, option_map};
ghost use Rattle.cose_head.specs.ItemRef.{placed};
ghost use Rattle.cose_map.specs.Map.Pairs.{value_of};
ghost use Rattle.cose_map.specs.Key.{bytes_under, label_under, operations_under};
ghost use Rattle.cose_map.specs.Key.Material.{member, symmetric_key, elliptic_key, material_of};
ghost use Rattle.cose_map.specs.Key.View.{contents, material_value, operations_of};
ghost use Rattle.cose_map.specs.Map.View.{pairs_left, seen_by};
ghost use Rattle.cose_map.specs.Label.View.{label_value};

use crate::key::labels;
use crate::key::material::{Material, coordinate, curve_at, private_part, secret, y_at};
use crate::key::operations::Ops;
use crate::label::Label;
use crate::map::pairs::Pairs;
use crate::map::read::refused;
use cose_head::{ItemRef, Items, Reason, Refusal};

/// The type of keys on an elliptic curve with x and y coordinates (RFC 9053 section 7).
const EC2: i128 = 2;

/// The type of symmetric keys (RFC 9053 section 7).
const SYMMETRIC: i128 = 4;

/// A key's item, and the pairs that were read from it.
#[derive(Clone, Copy)]
pub(crate) struct Members<'a> {
    /// The key's item. The refusal of a missing member has the place of its head.
    pub(crate) key: ItemRef<'a>,
    /// Its pairs.
    pub(crate) pairs: Pairs<'a>,
}

impl<'a> Members<'a> {
    /// The value of a label, if the key has it.
    pub(crate) fn get(&self, label: &Label<'_>) -> Option<ItemRef<'a>>
        ensures { option_map placed result
            ≡ value_of (label_value label.now) (pairs_left self.now.pairs) }
    {
        self.pairs.get(label)
    }

    /// The value of a label that the key must have.
    pub(crate) fn wanted(&self, label: &Label<'_>) -> Result<ItemRef<'a>, Refusal>
        ensures { seen_by placed result ≡ member (placed self.now.key) (pairs_left self.now.pairs)
            (label_value label.now) }
    {
        self.get(label).ok_or(refused(Reason::BadValue, &self.key))
    }

    /// The content of a byte string.
    pub(crate) fn bytes(&self, label: &Label<'_>) -> Option<&'a [u8]>
        ensures { option_map contents result
            ≡ bytes_under (label_value label.now) (pairs_left self.now.pairs) }
    {
        self.get(label)?.as_bytes()
    }

    /// An integer, or a text string that is UTF-8.
    pub(crate) fn label(&self, label: &Label<'_>) -> Option<Label<'a>>
        ensures { option_map label_value result
            ≡ label_under (label_value label.now) (pairs_left self.now.pairs) }
    {
        Label::of(&self.get(label)?)
    }

    /// The operations of an array.
    pub(crate) fn ops(&self, label: &Label<'_>) -> Option<Ops<'a>>
        ensures { option_map operations_of result
            ≡ operations_under (label_value label.now) (pairs_left self.now.pairs) }
    {
        let value = self.get(label)?;
        Some(Ops {
            elements: Items::of(&value),
        })
    }

    /// A secret: k.
    fn symmetric(&self) -> Result<Material<'a>, Refusal>
        ensures { seen_by material_value result
            ≡ symmetric_key (placed self.now.key) (pairs_left self.now.pairs) }
    {
        secret(&self.wanted(&labels::K)?)
    }

    /// A point: crv, x and y, and perhaps d.
    fn elliptic(&self) -> Result<Material<'a>, Refusal>
        ensures { seen_by material_value result
            ≡ elliptic_key (placed self.now.key) (pairs_left self.now.pairs) }
    {
        let curve = curve_at(&self.key, &self.wanted(&labels::CRV)?)?;
        let x = coordinate(&self.wanted(&labels::X)?, curve.coordinate_length)?;
        let y = y_at(&self.wanted(&labels::Y)?, curve.coordinate_length)?;
        private_part(self.get(&labels::D))?;
        Ok(Material::Ec {
            crv: curve.number,
            x,
            y,
        })
    }

    /// The material of the key, by its type.
    #[tactic(auto, unfolding(crate::specs::Key::Material::material_of))]
    pub(crate) fn material(&self) -> Result<Material<'a>, Refusal>
        ensures { seen_by material_value result
            ≡ material_of (placed self.now.key) (pairs_left self.now.pairs) }
    {
        match self.wanted(&labels::KTY)?.as_int() {
            Some(SYMMETRIC) => self.symmetric(),
            Some(EC2) => self.elliptic(),
            _ => Err(refused(Reason::UnknownKey, &self.key)),
        }
    }
}
