//! The claims of a token, in the form of the C interface.

ghost use Rattle.std.specs.Prelude.{◌≡◌, ◌≤◌, option_map};
ghost use Rattle.cose_head.specs.ItemRef.{placed};
ghost use Rattle.cose_head.specs.Placed.{integer_in, look};
ghost use Rattle.cose_head.specs.PlacedLaws.{end_of};
ghost use Rattle.cose_c.specs.CoseClaims.{StartsInside, bytes_range, date_numbers, date_value, no_claims, no_date, no_range, range_of, text_range};

use crate::numbers::CoseStatus;
use cose_map::ItemRef;

/// A range of bytes, relative to the payload.
#[repr(C)]
#[derive(Clone, Copy)]
pub struct CoseRange {
    /// Where it begins.
    pub at: u64,
    /// How many bytes it has.
    pub length: u64,
    /// 1 where it is there, and otherwise 0, with zeros.
    pub present: u8,
}

/// A date, in seconds since 1970.
#[repr(C)]
#[derive(Clone, Copy)]
pub struct CoseDate {
    /// Its number.
    pub number: u64,
    /// 1 where it is there, and otherwise 0, with zeros.
    pub present: u8,
    /// 1 where the date is -1 less the number, and otherwise 0.
    pub negative: u8,
}

/// The claims of a token (RFC 8392 section 3.1).
#[repr(C)]
#[derive(Clone, Copy)]
pub struct CoseClaims {
    /// The number of the status.
    pub status: u8,
    /// The number of a refusal's reason.
    pub reason: u8,
    /// The place of a refusal: in the token, or of claims in the payload.
    pub place: u64,
    /// Where the payload begins in the token.
    pub payload_at: u64,
    /// How many bytes the payload has.
    pub payload_length: u64,
    /// The issuer.
    pub iss: CoseRange,
    /// The subject.
    pub sub: CoseRange,
    /// The first text string of the audience.
    pub aud: CoseRange,
    /// The token's identifier.
    pub cti: CoseRange,
    /// How many text strings the audience has.
    pub aud_count: u64,
    /// The expiration time.
    pub exp: CoseDate,
    /// The time from which on the token is valid.
    pub nbf: CoseDate,
    /// When the token was issued.
    pub iat: CoseDate,
    /// The identifier of the key that is confirmed (RFC 8747 section 3.4).
    pub cnf_kid: CoseRange,
    /// Its coordinate x (RFC 8747 section 3.2).
    pub cnf_x: CoseRange,
    /// Its coordinate y, where the key has its bytes.
    pub cnf_y: CoseRange,
    /// The number of its curve, 0 where there is no key.
    pub cnf_crv: u8,
    /// The sign of y, where the key has that alone: 1 even, 2 odd. Otherwise 0.
    pub cnf_y_sign: u8,
}

/// No range.
pub(crate) fn no_range() -> CoseRange
    ensures { result ≡ no_range }
{
    CoseRange {
        at: 0,
        length: 0,
        present: 0,
    }
}

/// No date.
fn no_date() -> CoseDate
    ensures { result ≡ no_date }
{
    CoseDate {
        number: 0,
        present: 0,
        negative: 0,
    }
}

/// The range of so many bytes after an item's head.
fn content_range(item: &ItemRef<'_>, length: usize) -> CoseRange
    ensures value { result ≡ range_of (placed item.now) length }
    ensures inside { result.at ≤ end_of (placed item.now) }
{
    CoseRange {
        at: item.place + u64::from(item.head().width),
        length: length as u64,
        present: 1,
    }
}

/// The range of the content of a text string, if the item is one.
pub(crate) fn text_range(item: Option<ItemRef<'_>>) -> CoseRange
    ensures value { result ≡ text_range (option_map placed item.entry) }
    ensures inside { StartsInside (option_map placed item.entry) result }
{
    let Some(item) = item else {
        return no_range();
    };
    match item.as_text() {
        Some(text) => content_range(&item, text.len()),
        None => no_range(),
    }
}

/// The range of the content of a byte string, if the item is one.
pub(crate) fn bytes_range(item: Option<ItemRef<'_>>) -> CoseRange
    ensures value { result ≡ bytes_range (option_map placed item.entry) }
    ensures inside { StartsInside (option_map placed item.entry) result }
{
    let Some(item) = item else {
        return no_range();
    };
    match item.as_bytes() {
        Some(bytes) => content_range(&item, bytes.len()),
        None => no_range(),
    }
}

/// The date that an item is, if it is an integer: those of major type 0, and of 1 the negative ones (RFC 8949 section 3.1).
#[tactic(auto, using(crate::proofs::Dates::date_found, crate::proofs::Dates::no_date_found))]
fn date_of(item: &ItemRef<'_>) -> CoseDate
    ensures { result ≡ date_numbers (integer_in (look (placed item.now))) }
{
    let head = item.head();
    if head.major > 1 {
        return no_date();
    }
    CoseDate {
        number: head.arg,
        present: 1,
        negative: head.major,
    }
}

/// The date that is the value of a claim, if it is there.
pub(crate) fn date_in(item: Option<ItemRef<'_>>) -> CoseDate
    ensures { result ≡ date_numbers (date_value (option_map placed item.entry)) }
{
    match item {
        Some(item) => date_of(&item),
        None => no_date(),
    }
}

/// No claims.
pub(crate) fn no_claims(status: CoseStatus) -> CoseClaims
    ensures { result ≡ no_claims status }
{
    CoseClaims {
        status: status.status,
        reason: status.reason,
        place: status.place,
        payload_at: 0,
        payload_length: 0,
        iss: no_range(),
        sub: no_range(),
        aud: no_range(),
        cti: no_range(),
        aud_count: 0,
        exp: no_date(),
        nbf: no_date(),
        iat: no_date(),
        cnf_kid: no_range(),
        cnf_x: no_range(),
        cnf_y: no_range(),
        cnf_crv: 0,
        cnf_y_sign: 0,
    }
}
