//! The claims of a token (RFC 8392 section 3).

ghost use Rattle.std.specs.Prelude.{◌≡◌, option_map};
ghost use Rattle.cose_head.specs.ItemRef.{placed};
ghost use Rattle.cose_map.specs.Map.Pairs.{value_of};
ghost use Rattle.cose_map.specs.Map.View.{pairs_left, seen_by};
ghost use Rattle.cose_cwt.specs.Claims as spec;
ghost use Rattle.cose_cwt.specs.Claims.Known.{first_values};
ghost use Rattle.cose_cwt.specs.Claims.Known.View.{known_value};
ghost use Rattle.cose_cwt.specs.Confirmation.View.{cnf_items_value};

pub mod audience;
mod form;
pub mod known;
pub(crate) mod labels;

use crate::claims::audience::Auds;
use crate::claims::form::ClaimsForm;
use crate::claims::known::Known;
use crate::confirmation::{Cnf, CnfItems};
use crate::laws::claims_refusals_stand_inside;
use cose_map::{ItemRef, KeySet, Label, Pairs, Reason, Refusal, check_map, refused};

/// The claims of a token, each known one in its form. They borrow the bytes that they were read from.
///
/// `Debug` prints how many bytes there are, and none of the claims, which may contain a key.
#[derive(Clone, Copy, Debug)]
pub struct Claims<'a> {
    pub(crate) pairs: Pairs<'a>,
    confirmation: Option<CnfItems<'a>>,
    pub(crate) known: Known<'a>,
    /// The known claims are those of the pairs.
    pub ghost found: { known_value known ≡ first_values (pairs_left pairs) },
}

/// Whether the tag is one of COSE (RFC 9052 section 2) or that of CWT (RFC 8392 section 6).
fn is_token_tag(number: u64) -> bool
    ensures { result ≡ spec.is_token_tag number }
{
    matches!(number, 16 | 17 | 18 | 61 | 96 | 97 | 98)
}

/// The item, if it isn't itself a token.
fn not_nested<'a>(item: ItemRef<'a>) -> Result<ItemRef<'a>, Refusal>
    ensures { seen_by placed result ≡ spec.not_nested (placed item.entry) }
{
    match item.as_tag() {
        Some((number, _)) if is_token_tag(number) => Err(refused(Reason::NestedCwt, &item)),
        _ => Ok(item),
    }
}

/// The confirmation, if present.
fn confirmation_at<'a>(value: Option<ItemRef<'a>>) -> Result<Option<CnfItems<'a>>, Refusal>
    ensures { seen_by (option_map cnf_items_value) result
        ≡ spec.confirmation_at (option_map placed value.entry) }
{
    match value {
        Some(value) => Ok(Some(CnfItems::read(&value)?)),
        None => Ok(None),
    }
}

impl<'a> Claims<'a> {
    ghost use Rattle.std.specs.Prelude.{ℕ, ◌≤◌, [], ◌∷◌, length, IfErr, option_and_then, bytes_eq};
    ghost use Rattle.std.specs.List.{list_any};
    ghost use Rattle.cose_map.specs.Key.View.{contents};
    ghost use Rattle.cose_map.specs.KeySet.View.{keys};
    ghost use Rattle.cose_map.specs.Label.View.{label_value};
    ghost use Rattle.cose_cwt.specs.Claims.Audience.{text_value, texts_left};
    ghost use Rattle.cose_cwt.specs.Claims.View.{claims_value};
    ghost use Rattle.cose_cwt.specs.Confirmation.View.{cnf_value};

    /// The claims of a payload.
    #[tactic(auto, unfolding(crate::specs::Claims::claims_of))]
    fn of_payload(bytes: &'a [u8], depth: usize) -> Result<Claims<'a>, Refusal>
        requires { depth ≤ 32 }
        ensures { seen_by claims_value result
            ≡ spec.claims_of depth (record { bytes = bytes.now; place = 0 }) }
    {
        let item = not_nested(ItemRef::read(bytes, 0, depth)?)?;
        let pairs = check_map(&ClaimsForm, &item)?;
        let known = Known::of(pairs);
        let confirmation = confirmation_at(known.cnf)?;
        Ok(Claims {
            pairs,
            confirmation,
            known,
        })
    }

    /// Reads the claims of a payload, of a nesting of at most `depth`. They are not authenticated:
    /// [`verify_cwt`](crate::verify_cwt) reads those of an authentic message, and admits them.
    ///
    /// The refusal is the first fault of the item, with [`Reason::PastRoom`] where the bytes end early; then
    /// [`Reason::Trailing`], [`Reason::NestedCwt`] and [`Reason::NotMap`]; then of the claims in their order
    /// [`Reason::BadLabel`], [`Reason::DuplicateLabel`], [`Reason::BadValue`], [`Reason::FloatDate`] and
    /// [`Reason::TaggedDate`]; and last those of the confirmation: the faults of its labels, then
    /// [`Reason::BadConfirmation`], [`Reason::EncryptedKey`], [`Reason::PlainKey`] and [`Reason::BadValue`].
    #[tactic(auto, using(crate::proofs::Inside::seen_inside))]
    pub fn read(bytes: &'a [u8], depth: usize) -> Result<Claims<'a>, Refusal>
        requires { depth ≤ 32 }
        ensures exact { seen_by claims_value result
            ≡ spec.claims_of depth (record { bytes = bytes.now; place = 0 }) }
        ensures within { IfErr result (λ refusal. refusal.place ≤ length bytes.now) }
    {
        // The law that the proof of `within` cites.
        claims_refusals_stand_inside();
        Claims::of_payload(bytes, depth)
    }

    /// The value of a claim, by its label: an item of the payload, at its place in it (RFC 8392 section 3).
    pub fn value(&self, label: &Label<'_>) -> Option<ItemRef<'a>>
        ensures { option_map placed result
            ≡ value_of (label_value label.now) (claims_value self.now).pairs }
    {
        self.pairs.get(label)
    }

    /// All claims, in the order of the payload: the label, its item, and the value (RFC 8392
    /// section 3).
    pub fn pairs(&self) -> Pairs<'a>
        ensures { pairs_left result ≡ (claims_value self.now).pairs }
    {
        self.pairs
    }

    /// The known claims, each as its item (RFC 8392 section 3.1, RFC 8747 section 3.1).
    pub fn known(&self) -> &Known<'a>
        ensures { known_value result.now ≡ first_values (claims_value self.now).pairs }
    {
        &self.known
    }

    /// The issuer of the token (iss, RFC 8392 section 3.1.1).
    pub fn iss(&self) -> Option<&'a str>
        ensures { option_map text_value result ≡ spec.iss_of (claims_value self.now) }
    {
        self.known.iss?.as_text()
    }

    /// The subject of the token (sub, RFC 8392 section 3.1.2).
    pub fn sub(&self) -> Option<&'a str>
        ensures { option_map text_value result ≡ spec.sub_of (claims_value self.now) }
    {
        self.known.sub?.as_text()
    }

    /// The audience of the token (aud, RFC 8392 section 3.1.3): one text string or several, none where aud is absent.
    pub fn auds(&self) -> Auds<'a>
        ensures { texts_left result ≡ spec.auds_of (claims_value self.now) }
    {
        match self.known.aud {
            Some(value) => Auds::of(&value),
            None => Auds::none(),
        }
    }

    /// Whether `name` is one of the text strings of the audience.
    pub fn aud_has(&self, name: &str) -> bool
        ensures { result ≡ list_any (bytes_eq name.now) (spec.auds_of (claims_value self.now)) }
    {
        'texts: for text in self.auds() {
            if name == text {
                return true;
            }
        }
        false
    }

    /// The expiration time, in seconds since 1970: from then on the token isn't valid (exp, RFC 8392 section 3.1.4).
    pub fn exp(&self) -> Option<i128>
        ensures { result ≡ spec.exp_of (claims_value self.now) }
    {
        self.known.exp?.as_int()
    }

    /// The time, in seconds since 1970, from which on the token is valid (nbf, RFC 8392 section 3.1.5).
    pub fn nbf(&self) -> Option<i128>
        ensures { result ≡ spec.nbf_of (claims_value self.now) }
    {
        self.known.nbf?.as_int()
    }

    /// The time, in seconds since 1970, at which the token was issued (iat, RFC 8392 section 3.1.6).
    pub fn iat(&self) -> Option<i128>
        ensures { result ≡ spec.iat_of (claims_value self.now) }
    {
        self.known.iat?.as_int()
    }

    /// The identifier of the token (cti, RFC 8392 section 3.1.7).
    pub fn cti(&self) -> Option<&'a [u8]>
        ensures { option_map contents result ≡ spec.cti_of (claims_value self.now) }
    {
        self.known.cti?.as_bytes()
    }

    /// The confirmation: the key that the presenter of the token holds (cnf, RFC 8747 section 3.1).
    pub fn cnf(&self) -> Option<Cnf<'a>>
        ensures { option_map cnf_value result ≡ (claims_value self.now).confirmation }
    {
        Some(self.confirmation?.cnf())
    }

    /// The key that the presenter of the token holds, as a set of this one key. A context takes it as the keys for
    /// messages that the presenter authenticates. `None` where the token has no such key.
    pub fn cnf_set(&self) -> Option<KeySet<'a>>
        ensures { option_map keys result
            ≡ option_map (λ key. key ∷ []) (spec.confirmed_key_of (claims_value self.now)) }
    {
        KeySet::of_key(self.confirmation?.key?)
    }
}
