//! The confirmation of a token: the claim cnf (RFC 8747 section 3).

ghost use Rattle.std.specs.Prelude.{◌≡◌, Option, option_map, option_and_then};
ghost use Rattle.cose_head.specs.ItemRef.{placed};
ghost use Rattle.cose_map.specs.Key.{key_of};
ghost use Rattle.cose_map.specs.Key.View.{contents, key_value};
ghost use Rattle.cose_map.specs.KeySet.{usable as usable_key};
ghost use Rattle.cose_map.specs.KeySet.View.{keys};
ghost use Rattle.cose_map.specs.Map.View.{pair_value, seen_by};
ghost use Rattle.cose_cwt.specs.Confirmation as spec;
ghost use Rattle.cose_cwt.specs.Confirmation.View.{cnf_items_value, cnf_value, key_in};

use cose_map::{Form, ItemRef, Key, KeySet, Label, Material, Reason, Refusal, check_map, refused};

/// The key.
const COSE_KEY: Label<'static> = Label::Int(1);

/// A key that is encrypted.
const ENCRYPTED_COSE_KEY: Label<'static> = Label::Int(2);

/// The identifier of the key.
const KID: Label<'static> = Label::Int(3);

/// What the token says of the key that its presenter holds: the key itself, its identifier, both or neither.
#[derive(Clone, Copy, Debug)]
pub struct Cnf<'a> {
    /// The public key (RFC 8747 section 3.2).
    pub key: Option<Key<'a>>,
    /// The identifier (RFC 8747 section 3.4).
    pub kid: Option<&'a [u8]>,
}

/// A confirmation that was read: the item of its key, and the identifier.
#[derive(Clone, Copy, Debug)]
pub(crate) struct CnfItems<'a> {
    /// The item of the key.
    pub(crate) key: Option<ItemRef<'a>>,
    /// The identifier.
    pub(crate) kid: Option<&'a [u8]>,
}

/// The table of the members of a confirmation accepts any value. The members are checked after all labels are read.
struct MembersForm;

impl Form for MembersForm {
    ghost table = { λ form. spec.members_table };

    #[tactic(auto, unfolding(crate::specs::Confirmation::members_table))]
    fn fault(&self, _label: &Label<'_>, _value: &ItemRef<'_>) -> Option<Reason> {
        None
    }
}

/// The public key that an item is.
fn public_key<'a>(item: &ItemRef<'a>) -> Result<Key<'a>, Refusal>
    ensures { seen_by key_value result
        ≡ spec.public_key (placed item.now) (key_of (placed item.now)) }
{
    match Key::read(item.bytes, item.place) {
        Ok(key) => match key.material {
            Material::Symmetric(_) => Err(refused(Reason::PlainKey, item)),
            Material::Ec { .. } => Ok(key),
        },
        Err(_) => Err(refused(Reason::BadConfirmation, item)),
    }
}

/// The item of the key, if present. It must be public, and must not be encrypted.
fn confirmed_key<'a>(
    cnf: &ItemRef<'a>,
    encrypted: Option<(Label<'a>, ItemRef<'a>, ItemRef<'a>)>,
    key: Option<ItemRef<'a>>,
) -> Result<Option<ItemRef<'a>>, Refusal>
    ensures { seen_by key_in result
        ≡ spec.confirmed_key (placed cnf.now) (option_map pair_value encrypted.entry)
        (option_map placed key.entry) }
{
    match (encrypted, key) {
        (Some(_), Some(_)) => Err(refused(Reason::BadConfirmation, cnf)),
        (Some((_, label, _)), None) => Err(refused(Reason::EncryptedKey, &label)),
        (None, Some(item)) => {
            public_key(&item)?;
            Ok(Some(item))
        }
        (None, None) => Ok(None),
    }
}

/// The identifier of the key, if present.
fn confirmed_kid<'a>(value: Option<ItemRef<'a>>) -> Result<Option<&'a [u8]>, Refusal>
    ensures { seen_by (option_map contents) result
        ≡ spec.confirmed_kid (option_map placed value.entry) }
{
    match value {
        Some(value) => match value.as_bytes() {
            Some(kid) => Ok(Some(kid)),
            None => Err(refused(Reason::BadValue, &value)),
        },
        None => Ok(None),
    }
}

impl<'a> CnfItems<'a> {
    /// Reads the confirmation from its item.
    #[tactic(auto, unfolding(crate::specs::Confirmation::confirmation_of))]
    pub(crate) fn read(cnf: &ItemRef<'a>) -> Result<CnfItems<'a>, Refusal>
        ensures { seen_by cnf_items_value result ≡ spec.confirmation_of (placed cnf.now) }
    {
        let members = check_map(&MembersForm, cnf)?;
        let encrypted = members.pair(&ENCRYPTED_COSE_KEY);
        let key = confirmed_key(cnf, encrypted, members.get(&COSE_KEY))?;
        let kid = confirmed_kid(members.get(&KID))?;
        Ok(CnfItems { key, kid })
    }

    /// The key and its identifier.
    pub(crate) fn cnf(&self) -> Cnf<'a>
        ensures { cnf_value result ≡ cnf_items_value self.now }
    {
        let key = match self.key {
            Some(item) => Key::read(item.bytes, item.place).ok(),
            None => None,
        };
        Cnf { key, kid: self.kid }
    }
}
