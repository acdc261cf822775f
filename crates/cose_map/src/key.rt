//! One key (RFC 9052 section 7).

mod curve;
mod form;
mod labels;
pub mod material;
pub(crate) mod members;
pub mod okp;
pub mod operations;

use crate::key::form::KeyForm;
use crate::key::material::Material;
use crate::key::members::Members;
use crate::key::operations::Ops;
use crate::label::Label;
use crate::laws::refusals_stand_inside;
use crate::map::read::check_map;
use cose_head::{ItemRef, Refusal};

/// The nesting of a key or a key set.
pub(crate) const NESTING: usize = 8;

/// A key, as far as it is used: the restrictions that it names, and its material.
///
/// `Debug` prints how many bytes its material has, and none of them.
#[derive(Clone, Copy, Debug)]
pub struct Key<'a> {
    /// The identifier.
    pub kid: Option<&'a [u8]>,
    /// The only algorithm that it is for.
    pub alg: Option<Label<'a>>,
    /// The only operations that it is for.
    pub ops: Option<Ops<'a>>,
    /// The key material.
    pub material: Material<'a>,
}

impl<'a> Key<'a> {
    ghost use Rattle.std.specs.Prelude.{◌≡◌, ◌+◌, ◌<◌, ◌≤◌, ◌^◌, length, Ok, IfErr, IfOk};
    ghost use Rattle.cose_head.specs.ItemRef.{placed};
    ghost use Rattle.cose_map.specs.Key.{key_by, key_of};
    ghost use Rattle.cose_map.specs.Key.Form.{key_table};
    ghost use Rattle.cose_map.specs.Key.View.{key_value};
    ghost use Rattle.cose_map.specs.Map.Read.{read_map};
    ghost use Rattle.cose_map.specs.Map.View.{pairs_left, seen_by};

    /// The members of the key that a map is, each of its form. Not inlined, so that no key is on the stack while they are
    /// checked.
    #[inline(never)]
    pub(crate) fn checked(bytes: &'a [u8], at: u64) -> Result<Members<'a>, Refusal>
        requires { at + length bytes.now < 2 ^ 64 }
        ensures pairs { seen_by (λ members. pairs_left members.pairs) result
            ≡ read_map key_table 8 (record { bytes = bytes.now; place = at }) }
        ensures item { IfOk result (λ members. placed members.key
            ≡ record { bytes = bytes.now; place = at }) }
    {
        let key = ItemRef::read(bytes, at, NESTING)?;
        let pairs = check_map(&KeyForm, &key)?;
        Ok(Members { key, pairs })
    }

    /// The key that a map is.
    #[tactic(auto, unfolding(crate::specs::Key::key_of))]
    fn of_map(bytes: &'a [u8], at: u64) -> Result<Key<'a>, Refusal>
        requires { at + length bytes.now < 2 ^ 64 }
        ensures { seen_by key_value result ≡ key_of (record { bytes = bytes.now; place = at }) }
    {
        let members = Key::checked(bytes, at)?;
        Key::of_members(&members)
    }

    /// The key that has these members. Not inlined, so that its values aren't on the stack while the members are checked.
    #[inline(never)]
    pub(crate) fn of_members(members: &Members<'a>) -> Result<Key<'a>, Refusal>
        ensures { seen_by key_value result
            ≡ key_by (placed members.now.key) (pairs_left members.now.pairs) }
    {
        let material = members.material()?;
        Ok(Key {
            kid: members.bytes(&labels::KID),
            alg: members.label(&labels::ALG),
            ops: members.ops(&labels::KEY_OPS),
            material,
        })
    }

    /// Reads one key, whose first byte is at place `at`.
    ///
    /// The refusal is the first fault of the item, then of the map's pairs in their order, then of the members that the
    /// key's type requires.
    #[tactic(auto, using(crate::proofs::lemmas::Laws::Inside::seen_inside))]
    pub fn read(bytes: &'a [u8], at: u64) -> Result<Key<'a>, Refusal>
        requires { at + length bytes.now < 2 ^ 64 }
        ensures exact { seen_by key_value result
            ≡ key_of (record { bytes = bytes.now; place = at }) }
        ensures within { IfErr result (λ refusal. refusal.place ≤ at + length bytes.now) }
    {
        // The law that the proof of `within` cites.
        refusals_stand_inside();
        Key::of_map(bytes, at)
    }
}
