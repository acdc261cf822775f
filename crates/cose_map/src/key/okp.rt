//! Public keys of the type OKP, octet key pairs (RFC 9053 section 7.2).

ghost use Rattle.std.specs.Prelude.{◌≡◌, option_map};
ghost use Rattle.cose_head.specs.ItemRef.{placed};
ghost use Rattle.cose_head.specs.Placed.{look, integer_in};
ghost use Rattle.cose_map.specs.Key.Okp.{octet_key_pair, okp_by, okp_curve_in, okp_value};
ghost use Rattle.cose_map.specs.KeySet.Okp.{usable_okp};
ghost use Rattle.cose_map.specs.Map.View.{pairs_left, seen_by};

use crate::key::form::KeyForm;
use crate::key::material::{coordinate, private_part};
use crate::key::members::Members;
use crate::key::operations::Ops;
use crate::key::{NESTING, labels};
use crate::label::Label;
use crate::laws::refusals_stand_inside;
use crate::map::read::{check_map, refused};
use cose_head::{Hidden, ItemRef, OkpCurve, Reason, Refusal};
use std::fmt;

/// The type of keys that are octet key pairs (RFC 9053 section 7).
const OKP: i128 = 1;

/// A public key of the type OKP on a curve of EdDSA, for a signature that the caller verifies.
///
/// `Debug` prints the curve and how many bytes the key has.
#[derive(Clone, Copy)]
pub struct OkpKey<'a> {
    /// The identifier.
    pub kid: Option<&'a [u8]>,
    /// The only algorithm that it is for.
    pub alg: Option<Label<'a>>,
    /// The only operations that it is for.
    pub ops: Option<Ops<'a>>,
    /// The curve.
    pub curve: OkpCurve,
    /// The public key, as long as the curve says (RFC 8032 sections 5.1.5 and 5.2.5).
    pub x: &'a [u8],
}

/// The curve that a member of the key names.
fn curve_at(key: &ItemRef, value: &ItemRef) -> Result<OkpCurve, Refusal>
    ensures { let v = placed value.now in
        result ≡ okp_curve_in (placed key.now) v (integer_in (look v)) }
{
    match value.as_int() {
        Some(number) => OkpCurve::from_number(number).ok_or(refused(Reason::UnknownKey, key)),
        None if value.is_text() => Err(refused(Reason::UnknownKey, key)),
        None => Err(refused(Reason::BadValue, value)),
    }
}

impl<'a> Members<'a> {
    /// A public key: crv and x, and perhaps d.
    fn octet_key_pair(&self) -> Result<OkpKey<'a>, Refusal>
        ensures { seen_by okp_value result
            ≡ octet_key_pair (placed self.now.key) (pairs_left self.now.pairs) }
    {
        let curve = curve_at(&self.key, &self.wanted(&labels::CRV)?)?;
        let x = coordinate(&self.wanted(&labels::X)?, curve.public_key_length())?;
        private_part(self.get(&labels::D))?;
        Ok(OkpKey {
            kid: self.bytes(&labels::KID),
            alg: self.label(&labels::ALG),
            ops: self.ops(&labels::KEY_OPS),
            curve,
            x,
        })
    }

    /// The key, which is of the type OKP.
    #[tactic(auto, unfolding(crate::specs::Key::Okp::okp_by))]
    fn okp(&self) -> Result<OkpKey<'a>, Refusal>
        ensures { seen_by okp_value result
            ≡ okp_by (placed self.now.key) (pairs_left self.now.pairs) }
    {
        match self.wanted(&labels::KTY)?.as_int() {
            Some(OKP) => self.octet_key_pair(),
            _ => Err(refused(Reason::UnknownKey, &self.key)),
        }
    }
}

/// The key that an item is, if it is a usable one.
pub(crate) fn usable_okp_key<'a>(item: &ItemRef<'a>) -> Option<OkpKey<'a>>
    ensures { option_map okp_value result ≡ usable_okp (placed item.now) }
{
    OkpKey::read(item.bytes, item.place).ok()
}

impl<'a> OkpKey<'a> {
    ghost use Rattle.std.specs.Prelude.{◌+◌, ◌<◌, ◌≤◌, ◌^◌, length, IfErr};
    ghost use Rattle.cose_map.specs.Key.Okp.{okp_of};

    /// The key that a map is.
    #[tactic(auto, unfolding(crate::specs::Key::Okp::okp_of))]
    fn of_map(bytes: &'a [u8], at: u64) -> Result<OkpKey<'a>, Refusal>
        requires { at + length bytes.now < 2 ^ 64 }
        ensures { seen_by okp_value result ≡ okp_of (record { bytes = bytes.now; place = at }) }
    {
        let key = ItemRef::read(bytes, at, NESTING)?;
        let pairs = check_map(&KeyForm, &key)?;
        Members { key, pairs }.okp()
    }

    /// Reads one key, whose first byte is at place `at`.
    ///
    /// The refusal is the first fault of the item, then of the map's pairs in their order, then of the members that the
    /// key's type requires. A key of another type, or on another curve than those of EdDSA, is refused as
    /// [`Reason::UnknownKey`].
    #[tactic(auto, using(crate::proofs::lemmas::Laws::Inside::seen_inside))]
    pub fn read(bytes: &'a [u8], at: u64) -> Result<OkpKey<'a>, Refusal>
        requires { at + length bytes.now < 2 ^ 64 }
        ensures exact { seen_by okp_value result
            ≡ okp_of (record { bytes = bytes.now; place = at }) }
        ensures within { IfErr result (λ refusal. refusal.place ≤ at + length bytes.now) }
    {
        // The law that the proof of `within` cites.
        refusals_stand_inside();
        OkpKey::of_map(bytes, at)
    }
}

impl fmt::Debug for OkpKey<'_> {
    fn fmt<W: fmt::Write>(&self, f: &mut fmt::Formatter<W>) -> fmt::Result {
        let x = Hidden(self.x);
        write!(f, "OkpKey {{ crv: {}, x: {x:?} }}", self.curve.number())
    }
}
