//! A token in memory, by one call, and the claims of a payload.

ghost use Rattle.std.specs.Prelude.{◌≡◌, ◌≢◌, true, ◌≤◌, ◌<◌, ◌+◌, ◌-◌, ◌^◌, min, length, ℕ, false, [], drop, take, Ok, Some, option_map};
ghost use Rattle.cose_head.specs.ItemRef.{placed};
ghost use Rattle.cose_head.specs.Placed.{Placed, children_of, if_utf8};
ghost use Rattle.cose_map.specs.Key.View.{key_value};
ghost use Rattle.cose_map.specs.KeySet.{keys_of};
ghost use Rattle.cose_map.specs.Map.Pairs.{value_of};
ghost use Rattle.cose_map.specs.Map.Read.{check_map};
ghost use Rattle.cose_map.specs.Map.View.{pairs_left, seen_by};
ghost use Rattle.cose_cwt.specs.Admission.{admitted_claims};
ghost use Rattle.cose_cwt.specs.Admission.View.{policy_value};
ghost use Rattle.cose_cwt.specs.Claims.{auds_of, claims_of, texts_at, texts_from};
ghost use Rattle.cose_cwt.specs.Claims.Labels as names;
ghost use Rattle.cose_cwt.specs.Claims.Audience.{text_value};
ghost use Rattle.cose_cwt.specs.Claims.View.{claims_value};
ghost use Rattle.cose_c.specs.Claims.{Gives, GivesAlone, GivesAudience, GivesClaims, GivesToken, claims_given, name_given, name_seen, policy_for, policy_given, status_in, unless_refused};
ghost use Rattle.cose_c.specs.Message.{Covers, is_accepted, payload_given, verdict_given};
ghost use Rattle.cose_c.specs.Terms.{setting_given};
ghost use Rattle.cose_c.specs.CoseClaims.{EndsIn, LiesIn, Ranges, StartsInside, any_value, audience_item, confirmed_curve, confirmed_sign, curve_number, element_numbered, first_in, no_claims, sign_number, no_range, text_at, text_numbered, text_range};

use crate::cose_claims::{
    CoseClaims, CoseRange, bytes_range, date_in, no_claims, no_range, text_range,
};
use crate::input::blank_input;
use crate::message::{cose_edge_large_verify, take_whole};
use crate::numbers::{
    AUTHENTIC, BAD_AUDIENCE, CLAIMS_REFUSED, CoseStatus, CoseVerdict, MORE, no_message,
    plain_status, refused_status,
};
use crate::terms::{HEADER, LARGE_NESTING, NESTING, context};
use cose_cwt::laws::claims_are_of_a_tree;
use cose_cwt::{Audience, Claims, Policy};
use cose_head::laws::children_are_of_tree;
use cose_head::read_item;
use cose_map::laws::refusals_stand_inside;
use cose_map::{Form, ItemRef, Items, Key, Label, Material, Pairs, Reason, Y, check_map};
use cose_msg::{Refusal, Verifier};
use std::slice;

/// The labels of the members of a confirmation (RFC 8747 section 7.2).
const COSE_KEY: Label<'static> = Label::Int(1);

const KID: Label<'static> = Label::Int(3);

/// The labels of the coordinates of a key (RFC 9053 section 7.1.1).
const X: Label<'static> = Label::Int(-2);

const Y_COORDINATE: Label<'static> = Label::Int(-3);

/// The conditions under which a token is admitted.
#[repr(C)]
#[derive(Clone, Copy)]
pub struct CosePolicy<'p> {
    /// The current time, in seconds since 1970.
    pub now: i64,
    /// The number of seconds by which the clocks of issuer and caller may differ.
    pub leeway: u32,
    /// 0 where any audience will do; with any other number a token that names an audience has to name this one.
    pub has_audience: u8,
    /// The name of the caller in an audience, in UTF-8.
    pub audience: &'p [u8],
}

/// The bytes as a text string, if they are UTF-8.
pub(crate) fn utf8(bytes: &[u8]) -> Option<&str>
    ensures { option_map text_value result ≡ if_utf8 bytes.now }
{
    std::str::from_utf8(bytes).ok()
}

/// The name that an audience has to have, if any.
fn name_of<'p>(policy: &CosePolicy<'p>) -> Result<Option<&'p str>, CoseStatus>
    ensures { name_seen result
        ≡ name_given policy.entry.now.has_audience policy.entry.now.audience.now }
{
    if policy.has_audience == 0 {
        return Ok(None);
    }
    match utf8(policy.audience) {
        Some(name) => Ok(Some(name)),
        None => Err(plain_status(BAD_AUDIENCE)),
    }
}

/// A policy: where there is a name and the token names an audience, one of its text strings is this name.
fn policy_of<'p>(policy: &CosePolicy<'_>, name: &'p Option<&'p str>) -> Policy<'p>
    ensures { policy_value result
        ≡ policy_for policy.entry.now.now policy.entry.now.leeway
        (option_map text_value name.entry.now) }
{
    let audience = match name {
        Some(name) => Audience::Mine(slice::from_ref(name)),
        None => Audience::LeftToCaller,
    };
    Policy {
        now: policy.now,
        leeway: policy.leeway,
        audience,
    }
}

/// The claims of a payload, if they are admitted.
pub(crate) fn admitted<'t>(
    payload: &'t [u8],
    depth: usize,
    policy: &Policy<'_>,
) -> Result<Claims<'t>, Refusal>
    requires { depth ≤ 32 }
    ensures { seen_by claims_value result
        ≡ admitted_claims depth (policy_value policy.entry.now) payload.entry.now }
{
    let claims = Claims::read(payload, depth)?;
    claims.admit(policy)?;
    Ok(claims)
}

/// The element of this number of an array, where it and those before it are text strings.
fn element<'t>(array: &ItemRef<'t>, index: u64) -> Option<ItemRef<'t>>
    ensures { option_map placed result ≡ element_numbered index (children_of (placed array.now)) }
{
    let mut left = index;
    'elements: for element in Items::of(array) {
        if left == 0 {
            return Some(element);
        }
        if element.as_text().is_none() {
            return None;
        }
        left -= 1;
    }
    None
}

/// The item of the text string of this number of an audience.
fn audience_item<'t>(value: Option<ItemRef<'t>>, index: u64) -> Option<ItemRef<'t>>
    ensures { option_map placed result ≡ audience_item index (option_map placed value.entry) }
{
    let value = value?;
    if value.is_array() {
        return element(&value, index);
    }
    if index == 0 {
        return Some(value);
    }
    None
}

/// The text string of this number of the audience.
fn audience_at(claims: &Claims<'_>, index: u64) -> CoseRange
    ensures value { result
        ≡ text_range (audience_item index (value_of names.aud (claims_value claims.now).pairs)) }
    ensures inside { StartsInside
        (audience_item index (value_of names.aud (claims_value claims.now).pairs)) result }
{
    text_range(audience_item(claims.known().aud, index))
}

/// How many text strings an array has before an element that isn't one.
fn texts_in(array: &ItemRef<'_>) -> u64
    ensures { result
        ≡ min (length (texts_from (children_of (placed array.now)))) (2 ^ 64 - 1) }
{
    let mut count = 0u64;
    'elements: for element in Items::of(array) {
        if element.as_text().is_none() {
            return count;
        }
        count = count.saturating_add(1);
    }
    count
}

/// The text strings of an audience.
#[derive(Clone, Copy)]
struct Texts {
    /// The first one.
    first: CoseRange,
    /// How many there are.
    count: u64,
}

/// The text strings of an audience, whose item this is.
#[tactic(auto, using(crate::proofs::Strings::several_counted, crate::proofs::Strings::one_counted))]
fn texts_of(value: Option<ItemRef<'_>>) -> Texts
    ensures first { result.first
        ≡ text_range (audience_item 0 (option_map placed value.entry)) }
    ensures inside { StartsInside (audience_item 0 (option_map placed value.entry)) result.first }
    ensures count { result.count
        ≡ min (length (texts_at (option_map placed value.entry))) (2 ^ 64 - 1) }
{
    let Some(value) = value else {
        return Texts {
            first: no_range(),
            count: 0,
        };
    };
    if value.is_array() {
        return Texts {
            first: text_range(element(&value, 0)),
            count: texts_in(&value),
        };
    }
    let first = text_range(Some(value));
    Texts {
        first,
        count: u64::from(first.present),
    }
}

/// The table of a map any of whose values will do: it was read before.
struct AnyForm;

impl Form for AnyForm {
    ghost use Rattle.cose_c.specs.CoseClaims.{any_value};

    ghost table = { λ form. any_value };

    fn fault(&self, _label: &Label<'_>, _value: &ItemRef<'_>) -> Option<Reason> {
        None
    }
}

/// The point of a key, without its coordinates.
#[derive(Clone, Copy)]
struct Point {
    /// The number of its curve, 0 where there is no key.
    crv: u8,
    /// The sign of y, where the key has that alone: 1 even, 2 odd. Otherwise 0.
    y_sign: u8,
}

/// The point of a key that is confirmed, if there is one (RFC 8747 section 3.2).
fn point_of(key: Option<Key<'_>>) -> Point
    ensures crv { result.crv ≡ curve_number (option_map key_value key.entry) }
    ensures y_sign { result.y_sign ≡ sign_number (option_map key_value key.entry) }
{
    let Some(key) = key else {
        return Point { crv: 0, y_sign: 0 };
    };
    match key.material {
        Material::Ec {
            crv,
            y: Y::Sign(odd),
            ..
        } => Point {
            crv,
            y_sign: if odd { 2 } else { 1 },
        },
        Material::Ec {
            crv,
            y: Y::Bytes(_),
            ..
        } => Point { crv, y_sign: 0 },
        Material::Symmetric(_) => Point { crv: 0, y_sign: 0 },
    }
}

/// A member of a map, if the map has it.
fn member<'a>(members: &Pairs<'a>, label: &Label<'_>) -> Option<ItemRef<'a>>
    ensures { (item : Placed) → check_map any_value item ≡ Ok (pairs_left members.now)
        → EndsIn item (option_map placed result) }
{
    // The law that the proof cites.
    refusals_stand_inside();
    members.get(label)
}

/// The range of the byte string that a member of a map is, if the map has the member.
fn member_range(members: &Pairs<'_>, label: &Label<'_>) -> CoseRange
    ensures { (item : Placed) → check_map any_value item ≡ Ok (pairs_left members.now)
        → LiesIn (Some item) result }
{
    bytes_range(member(members, label))
}

/// Where the coordinates of the key of a confirmation are.
#[derive(Clone, Copy)]
struct Coordinates {
    x: CoseRange,
    y: CoseRange,
}

/// No coordinates.
fn no_coordinates() -> Coordinates
    ensures x { result.x ≡ no_range }
    ensures y { result.y ≡ no_range }
{
    Coordinates {
        x: no_range(),
        y: no_range(),
    }
}

/// The coordinate y among the members of a key, where it has its bytes.
fn y_range(members: &Pairs<'_>, point: Point) -> CoseRange
    ensures { (item : Placed) → check_map any_value item ≡ Ok (pairs_left members.now)
        → LiesIn (Some item) result }
{
    if point.y_sign == 0 {
        return member_range(members, &Y_COORDINATE);
    }
    no_range()
}

/// The coordinates of the key that is confirmed, whose item this is (RFC 8747 section 3.2).
fn coordinates_in(key: &ItemRef<'_>, point: Point) -> Coordinates
    ensures x { LiesIn (Some (placed key.now)) result.x }
    ensures y { LiesIn (Some (placed key.now)) result.y }
{
    match check_map(&AnyForm, key) {
        Ok(members) => Coordinates {
            x: member_range(&members, &X),
            y: y_range(&members, point),
        },
        Err(_) => no_coordinates(),
    }
}

/// The coordinates of the key among the members of a confirmation, if it has a point.
fn coordinates_of(members: &Pairs<'_>, point: Point) -> Coordinates
    ensures x { (item : Placed) → check_map any_value item ≡ Ok (pairs_left members.now)
        → LiesIn (Some item) result.x }
    ensures y { (item : Placed) → check_map any_value item ≡ Ok (pairs_left members.now)
        → LiesIn (Some item) result.y }
{
    if point.crv == 0 {
        return no_coordinates();
    }
    match member(members, &COSE_KEY) {
        Some(key) => coordinates_in(&key, point),
        None => no_coordinates(),
    }
}

/// Where the strings of a confirmation are.
#[derive(Clone, Copy)]
struct Strings {
    kid: CoseRange,
    key: Coordinates,
}

/// The strings of a confirmation, whose item this is (RFC 8747 section 3).
fn strings_in(cnf: &ItemRef<'_>, point: Point) -> Strings
    ensures kid { LiesIn (Some (placed cnf.now)) result.kid }
    ensures x { LiesIn (Some (placed cnf.now)) result.key.x }
    ensures y { LiesIn (Some (placed cnf.now)) result.key.y }
{
    match check_map(&AnyForm, cnf) {
        Ok(members) => Strings {
            kid: member_range(&members, &KID),
            key: coordinates_of(&members, point),
        },
        Err(_) => Strings {
            kid: no_range(),
            key: no_coordinates(),
        },
    }
}

/// The strings of a confirmation, if there is one.
fn strings_of(cnf: Option<ItemRef<'_>>, point: Point) -> Strings
    ensures kid { LiesIn (option_map placed cnf.entry) result.kid }
    ensures x { LiesIn (option_map placed cnf.entry) result.key.x }
    ensures y { LiesIn (option_map placed cnf.entry) result.key.y }
{
    match cnf {
        Some(cnf) => strings_in(&cnf, point),
        None => Strings {
            kid: no_range(),
            key: no_coordinates(),
        },
    }
}

/// The point of the key that a token confirms, if it does.
fn point_confirmed(claims: &Claims<'_>) -> Point
    ensures crv { result.crv ≡ confirmed_curve (claims_value claims.now).confirmation }
    ensures y_sign { result.y_sign ≡ confirmed_sign (claims_value claims.now).confirmation }
{
    match claims.cnf() {
        Some(cnf) => point_of(cnf.key),
        None => Point { crv: 0, y_sign: 0 },
    }
}

/// The claims that are admitted.
pub(crate) fn claims_for_c(claims: &Claims<'_>, payload: &[u8]) -> CoseClaims
    ensures { (depth : ℕ) → depth ≤ 32
        → claims_of depth (record { bytes = payload.now; place = 0 }) ≡ Ok (claims_value claims.now)
        → GivesClaims payload.now (claims_value claims.now) result }
{
    // Laws that the proof cites.
    claims_are_of_a_tree();
    children_are_of_tree();
    let known = claims.known();
    let iss = text_range(known.iss);
    let sub = text_range(known.sub);
    let texts = texts_of(known.aud);
    let cti = bytes_range(known.cti);
    let exp = date_in(known.exp);
    let nbf = date_in(known.nbf);
    let iat = date_in(known.iat);
    let point = point_confirmed(claims);
    let strings = strings_of(known.cnf, point);
    CoseClaims {
        status: AUTHENTIC,
        reason: 0,
        place: 0,
        payload_at: 0,
        payload_length: payload.len() as u64,
        iss,
        sub,
        aud: texts.first,
        cti,
        aud_count: texts.count,
        exp,
        nbf,
        iat,
        cnf_kid: strings.kid,
        cnf_x: strings.key.x,
        cnf_y: strings.key.y,
        cnf_crv: point.crv,
        cnf_y_sign: point.y_sign,
    }
}

/// The claims of a payload, admitted under a policy or refused.
fn claims_named(payload: &[u8], depth: usize, policy: &Policy<'_>) -> CoseClaims
    requires { depth ≤ 32 }
    ensures gives { Gives payload.now
        (unless_refused (admitted_claims depth (policy_value policy.entry.now) payload.now))
        result }
    ensures alone { GivesAlone payload.now
        (unless_refused (admitted_claims depth (policy_value policy.entry.now) payload.now))
        result }
{
    match admitted(payload, depth, policy) {
        Ok(claims) => placed_claims(claims_for_c(&claims, payload), 0, payload.len() as u64),
        Err(refusal) => no_claims(refused_status(CLAIMS_REFUSED, refusal)),
    }
}

/// The claims of a payload under a policy.
fn claims_under(payload: &[u8], depth: usize, policy: &CosePolicy<'_>) -> CoseClaims
    requires { depth ≤ 32 }
    ensures gives { Gives payload.now
        (claims_given depth (policy_given policy.entry.now) payload.now) result }
    ensures alone { GivesAlone payload.now
        (claims_given depth (policy_given policy.entry.now) payload.now) result }
{
    match name_of(policy) {
        Ok(name) => claims_named(payload, depth, &policy_of(policy, &name)),
        Err(status) => no_claims(status),
    }
}

/// The bytes from a place on, and the first bytes: as many as there are.
pub(crate) fn bytes_from(bytes: &[u8], at: u64) -> &[u8]
    ensures { result.now ≡ drop at bytes.now }
{
    let at = (at as usize).min(bytes.len());
    &bytes[at..]
}

pub(crate) fn bytes_before(bytes: &[u8], count: u64) -> &[u8]
    ensures { result.now ≡ take count bytes.now }
{
    if count < bytes.len() as u64 {
        return &bytes[..count as usize];
    }
    bytes
}

/// The status of a message that isn't authentic.
pub(crate) fn status_of(verdict: CoseVerdict) -> CoseStatus
    ensures { result ≡ status_in verdict }
{
    CoseStatus {
        status: verdict.status,
        reason: verdict.reason,
        place: verdict.place,
    }
}

/// The same claims of a payload that is at this place.
pub(crate) fn placed_claims(claims: CoseClaims, at: u64, length: u64) -> CoseClaims
    ensures { result ≡ record claims { payload_at = at; payload_length = length } }
{
    let mut placed = claims;
    placed.payload_at = at;
    placed.payload_length = length;
    placed
}

/// The claims of a token whose verdict is known. It is never inlined: what it takes of the stack is free while the message is read.
#[inline(never)]
#[tactic(auto, using(crate::proofs::ClaimsForC::gives_at_any_place))]
pub(crate) fn claims_after(
    verdict: CoseVerdict,
    token: &[u8],
    depth: usize,
    policy: &CosePolicy<'_>,
) -> CoseClaims
    requires { depth ≤ 32 }
    ensures other { verdict.status ≢ 1 → result ≡ no_claims (status_in verdict) }
    ensures admitted { verdict.status ≡ 1
        → Gives (take verdict.payload_length (drop verdict.payload_at token.now))
        (claims_given depth (policy_given policy.entry.now)
        (take verdict.payload_length (drop verdict.payload_at token.now)))
        result }
    ensures place { verdict.status ≡ 1 → result.payload_at ≡ verdict.payload_at }
    ensures count { verdict.status ≡ 1 → result.payload_length ≡ verdict.payload_length }
{
    if verdict.status != AUTHENTIC {
        return no_claims(status_of(verdict));
    }
    let payload = bytes_before(
        bytes_from(token, verdict.payload_at),
        verdict.payload_length,
    );
    let claims = claims_under(payload, depth, policy);
    placed_claims(claims, verdict.payload_at, verdict.payload_length)
}

/// The verdict on a token in memory, whose signature nobody verifies. It is never inlined: the verifier is off the stack while the claims
/// are read.
#[inline(never)]
fn verdict_on(keys: &[u8], aad: &[u8], token: &[u8]) -> CoseVerdict
    ensures verdict { result
        ≡ verdict_given 1024 8 (setting_given (keys_of keys.now) aad.now 0)
        result.payload_at token.now }
    ensures payload { is_accepted result ≡ true → Covers token.now
        (payload_given 1024 8 (setting_given (keys_of keys.now) aad.now 0) token.now)
        result.payload_at result.payload_length }
{
    match context(keys, aad, 0) {
        Ok(context) => {
            let mut verifier = Verifier::<HEADER, NESTING>::new(context);
            take_whole(&mut verifier, token)
        }
        Err(status) => no_message(status),
    }
}

/// Verifies a token in memory and reads its claims (RFC 8392 section 7.2): the bytes are the token, and nothing follows it.
///
/// Where the token is a COSE_Sign1 the status is [`SIGNED`](crate::numbers::SIGNED), and no claims are returned: verify it with
/// [`cose_edge_verify`](crate::message::cose_edge_verify), and pass its payload to [`cose_edge_claims`].
#[unsafe(no_mangle)]
pub extern "C" fn cose_edge_verify_cwt(
    keys: &[u8],
    aad: &[u8],
    policy: &CosePolicy<'_>,
    token: &[u8],
    claims: &mut CoseClaims,
)
    ensures { GivesToken 1024 8 (setting_given (keys_of keys.now) aad.now 0)
        (policy_given policy.entry.now) token.now claims.new }
{
    let verdict = verdict_on(keys, aad, token);
    *claims = claims_after(verdict, token, NESTING, policy);
}

/// The same for headers of 65,535 bytes, where headers and claims nest 16 deep.
#[unsafe(no_mangle)]
pub extern "C" fn cose_edge_large_verify_cwt(
    keys: &[u8],
    aad: &[u8],
    policy: &CosePolicy<'_>,
    token: &[u8],
    claims: &mut CoseClaims,
)
    ensures { GivesToken 65535 16 (setting_given (keys_of keys.now) aad.now 0)
        (policy_given policy.entry.now) token.now claims.new }
{
    let (mut verdict, mut input) = (no_message(plain_status(MORE)), blank_input());
    cose_edge_large_verify(keys, aad, 0, token, &mut verdict, &mut input);
    *claims = claims_after(verdict, token, LARGE_NESTING, policy);
}

/// Reads the claims of a payload that is known to be authentic, such as that of a COSE_Sign1 whose signature is good.
#[unsafe(no_mangle)]
pub extern "C" fn cose_edge_claims(payload: &[u8], policy: &CosePolicy<'_>, claims: &mut CoseClaims)
    ensures claims { Gives payload.now
        (claims_given 8 (policy_given policy.entry.now) payload.now) claims.new }
    ensures payload { GivesAlone payload.now
        (claims_given 8 (policy_given policy.entry.now) payload.now) claims.new }
{
    *claims = claims_under(payload, NESTING, policy);
}

/// The same for claims that nest 16 deep.
#[unsafe(no_mangle)]
pub extern "C" fn cose_edge_large_claims(
    payload: &[u8],
    policy: &CosePolicy<'_>,
    claims: &mut CoseClaims,
)
    ensures claims { Gives payload.now
        (claims_given 16 (policy_given policy.entry.now) payload.now) claims.new }
    ensures payload { GivesAlone payload.now
        (claims_given 16 (policy_given policy.entry.now) payload.now) claims.new }
{
    *claims = claims_under(payload, LARGE_NESTING, policy);
}

/// The text string of this number of the audience of claims that were read.
fn audience_for_c(claims: &Claims<'_>, payload: &[u8], index: u64) -> CoseRange
    ensures { (depth : ℕ) → depth ≤ 32
        → claims_of depth (record { bytes = payload.now; place = 0 }) ≡ Ok (claims_value claims.now)
        → Ranges payload.now (text_numbered index (auds_of (claims_value claims.now))) result }
{
    // Laws that the proof cites.
    claims_are_of_a_tree();
    children_are_of_tree();
    // The clause is about the payload.
    let _payload = payload;
    audience_at(claims, index)
}

/// The text string of this number, from 0, of the audience that a payload names, if it has as many.
#[unsafe(no_mangle)]
pub extern "C" fn cose_edge_audience(payload: &[u8], index: u64, audience: &mut CoseRange)
    ensures { GivesAudience payload.now index
        (claims_of 16 (record { bytes = payload.now; place = 0 })) audience.new }
{
    *audience = match Claims::read(payload, LARGE_NESTING) {
        Ok(claims) => audience_for_c(&claims, payload, index),
        Err(_) => no_range(),
    };
}

/// The item that bytes begin with, of a nesting of at most 32. The first byte is at place `at`.
#[tactic(auto, using(cose_head::proofs::lemmas::Placed::Whole::spelled_is_one_item))]
pub(crate) fn first_item(bytes: &[u8], at: u64) -> Option<ItemRef<'_>>
    requires { at + length bytes.now < 2 ^ 64 }
    ensures item { option_map placed result ≡ first_in (record { bytes = bytes.now; place = at }) }
{
    let span = read_item(bytes, bytes.len(), 32).ok()?;
    let (bytes, _) = bytes.split_at(span.length);
    Some(ItemRef { bytes, place: at })
}

/// The text string of an audience that follows another one: the item at this place of the payload, where that is a text string in UTF-8.
/// The place is the one after the bytes of the other text string (RFC 8949 section 3.1: the elements of an array follow one another). So
/// one pass gives a whole audience.
#[unsafe(no_mangle)]
pub extern "C" fn cose_edge_next_audience(payload: &[u8], place: u64, audience: &mut CoseRange)
    ensures { Ranges payload.now (text_at payload.now place) audience.new }
{
    let bytes = bytes_from(payload, place);
    if bytes.is_empty() {
        *audience = no_range();
        return;
    }
    *audience = text_range(first_item(bytes, place));
}
