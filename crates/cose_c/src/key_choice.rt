//! Which key of a set a message is verified with, and why a key isn't (RFC 9052 section 7.1).

ghost use Rattle.std.specs.Prelude.{◌≡◌, ℤ, List, [], true, Ok, Some, option_and_then, option_map};
ghost use Rattle.cose_head.specs.ItemRef.{placed};
ghost use Rattle.cose_head.specs.Placed.{children_of};
ghost use Rattle.cose_head.specs.Whole.{whole};
ghost use Rattle.cose_map.specs.Bucket.{alg_of as alg_in, kid_of as kid_in};
ghost use Rattle.cose_map.specs.Bucket.View.{bucket_pairs};
ghost use Rattle.cose_map.specs.Choice.{Question, chosen};
ghost use Rattle.cose_map.specs.Choice.View.{question};
ghost use Rattle.cose_map.specs.Key.Value.{KeyValue};
ghost use Rattle.cose_map.specs.Key.View.{contents, key_value};
ghost use Rattle.cose_map.specs.KeySet.{keys_of, usable};
ghost use Rattle.cose_map.specs.Label.View.{label_value};
ghost use Rattle.cose_msg.specs.Kept.{HasTaken, is_inspecting};
ghost use Rattle.cose_msg.specs.Message.{operation_of as operation_value};
ghost use Rattle.cose_msg.specs.Shown.{protected_of, unprotected_of};
ghost use Rattle.cose_msg.specs.Status.{status_of_reading};
ghost use Rattle.cose_msg.specs.Message.{message as message_read};
ghost use Rattle.cose_msg.specs.Task.{rules_of, to_inspect};
ghost use Rattle.cose_msg.specs.Verifier.{setting_in};
ghost use Rattle.cose_c.specs.Item.{item_at, item_numbers};
ghost use Rattle.cose_c.specs.KeyChoice as spec;
ghost use Rattle.cose_c.specs.Permitted.{permitted_in};
ghost use Rattle.cose_c.specs.PermittedView.{permission_value};
ghost use Rattle.cose_c.specs.Stated.{permission_stated, setting_stated};
ghost use Rattle.cose_c.specs.Stream.{status_numbers};

mod fed;
mod large;

use crate::claims::{bytes_from, first_item};
use crate::item::{CoseItem, no_item, numbers_of};
use crate::numbers::{
    BAD_ARGUMENT, COMPLETE, CoseStatus, KEYS_REFUSED, plain_status, refused_status,
};
use crate::permitted::{Permission, PermittedKeys, is_fitting};
use crate::stated::{CoseTerms, context, labels_of, permission};
use crate::stream::status_numbers;
use crate::terms::{HEADER, NESTING};
use cose_head::{ItemRef, Items};
use cose_map::{Bucket, Key, Kind, Label, Mismatch, Query};
use cose_msg::laws::settled_stays;
use cose_msg::{Keys, Status, Verifier};

/// The condition of a key that the caller doesn't permit.
const NOT_PERMITTED: u8 = 6;

/// How deep a key set nests.
const SET_NESTING: usize = 8;

/// Whether a key fits a message.
#[repr(C)]
#[derive(Clone, Copy)]
pub struct CoseKeyFit {
    /// The number of the status.
    pub status: u8,
    /// The number of a refusal's reason.
    pub reason: u8,
    /// The number of the first condition that the key fails, and 0 where it fits.
    pub condition: u8,
    /// The place of a refusal.
    pub place: u64,
}

/// No key, or no message.
fn no_fit(status: CoseStatus) -> CoseKeyFit
    ensures { result ≡ spec.no_fit status }
{
    CoseKeyFit {
        status: status.status,
        reason: status.reason,
        condition: 0,
        place: status.place,
    }
}

/// The number of a condition.
fn condition_number(mismatch: Option<Mismatch>) -> u8
    ensures { result ≡ spec.condition_number mismatch }
{
    match mismatch {
        None => 0,
        Some(Mismatch::Algorithm) => 1,
        Some(Mismatch::KeyType) => 2,
        Some(Mismatch::Curve) => 3,
        Some(Mismatch::Operation) => 4,
        Some(Mismatch::Identifier) => 5,
    }
}

/// The kind that a number names.
fn kind_numbered(number: u8) -> Option<Kind>
    ensures { result ≡ spec.kind_numbered number }
{
    match number {
        17 => Some(Kind::Mac0),
        18 => Some(Kind::Sign1),
        _ => None,
    }
}

/// The operation that verifies messages of a kind (RFC 9052 section 7.1, table 5).
fn operation_of(kind: Kind) -> i128
    ensures { result ≡ operation_value kind }
{
    match kind {
        Kind::Mac0 => 10,
        Kind::Sign1 => 2,
    }
}

/// The algorithm that a bucket names, if it is there.
fn alg_of<'q>(bucket: &Option<Bucket<'q>>) -> Option<Label<'q>>
    ensures { option_map label_value result
        ≡ option_and_then alg_in (option_map bucket_pairs bucket.now) }
{
    match bucket {
        Some(bucket) => bucket.alg(),
        None => None,
    }
}

/// The key identifier that a bucket has, if it is there.
fn kid_of<'q>(bucket: &Option<Bucket<'q>>) -> Option<&'q [u8]>
    ensures { option_map contents result
        ≡ option_and_then kid_in (option_map bucket_pairs bucket.now) }
{
    match bucket {
        Some(bucket) => bucket.kid(),
        None => None,
    }
}

/// What a message of this kind with these buckets asks of its key.
fn query_of<'q>(
    kind: Kind,
    protected: Option<Bucket<'q>>,
    unprotected: Option<Bucket<'q>>,
) -> Query<'q>
    ensures { question result ≡ spec.question_in kind (option_map bucket_pairs protected.entry)
        (option_map bucket_pairs unprotected.entry) }
{
    Query {
        kind,
        operation: operation_of(kind),
        protected_alg: alg_of(&protected),
        unprotected_alg: alg_of(&unprotected),
        kid: kid_of(&protected).or(kid_of(&unprotected)),
    }
}

/// Takes a message, by a verifier that has taken none of it, and gives its status.
fn take<'k, const H: usize, const D: usize, K: Keys<'k>>(
    verifier: &mut Verifier<'k, H, D, K>,
    message: &[u8],
) -> Status
    requires inspects { is_inspecting verifier.old ≡ true }
    requires fresh { HasTaken (to_inspect (setting_in verifier.old)) [] [] verifier.old }
    ensures status { result
        ≡ status_of_reading
        (message_read (rules_of H D (to_inspect (setting_in verifier.old))) message.now) }
    ensures protected { protected_of verifier.new
        ≡ (message_read (rules_of H D (to_inspect (setting_in verifier.old)))
        message.now).so_far.protected }
    ensures unprotected { unprotected_of verifier.new
        ≡ (message_read (rules_of H D (to_inspect (setting_in verifier.old)))
        message.now).so_far.unprotected }
{
    // The law that the proof cites.
    settled_stays();
    verifier.feed(message).status
}

/// The condition that a key fails, in numbers.
fn condition_of(key: &Key<'_>, query: &Query<'_>, permission: &Permission) -> u8
    ensures { result
        ≡ spec.condition_of (question query.now) (permission_value permission.now)
        (key_value key.now) }
{
    if permission.permits(key) {
        return condition_number(query.mismatch(key));
    }
    NOT_PERMITTED
}

/// Whether the key that an item is fits.
fn fit_of(item: &ItemRef<'_>, query: &Query<'_>, permission: &Permission) -> CoseKeyFit
    ensures { result
        ≡ spec.fit_at (question query.now) (permission_value permission.now)
        (Some (placed item.now)) }
{
    match Key::read(item.bytes, item.place) {
        Ok(key) => CoseKeyFit {
            status: COMPLETE,
            reason: 0,
            condition: condition_of(&key, query, permission),
            place: 0,
        },
        Err(refusal) => no_fit(refused_status(KEYS_REFUSED, refusal)),
    }
}

/// The first of the elements of an array whose key is permitted and fits.
fn first_among<'k>(
    array: &ItemRef<'k>,
    query: &Query<'_>,
    permission: &Permission,
) -> Option<ItemRef<'k>>
    ensures { option_map placed result
        ≡ spec.first_fitting (question query.now) (permission_value permission.now)
        (children_of (placed array.entry.now)) }
{
    'elements: for element in Items::of(array) {
        if is_fitting(&element, query, permission) {
            return Some(element);
        }
    }
    None
}

/// The first item of a key set whose key is permitted and fits.
fn first_in<'k>(keys: &'k [u8], query: &Query<'_>, permission: &Permission) -> Option<ItemRef<'k>>
    ensures { option_map placed result
        ≡ spec.fitting_in (question query.now) (permission_value permission.now)
        (whole 8 (record { bytes = keys.entry.now; place = 0 })) }
{
    let Ok(set) = ItemRef::read(keys, 0, SET_NESTING) else {
        return None;
    };
    if set.is_array() {
        return first_among(&set, query, permission);
    }
    if set.is_map() && is_fitting(&set, query, permission) {
        return Some(set);
    }
    None
}

/// The item of the terms' keys that a message of this kind, which a verifier has taken, is verified with. It is never inlined: what is asked of
/// the key isn't on the stack while the message is taken.
#[inline(never)]
fn key_asked<'k, const H: usize, const D: usize, K: Keys<'k>>(
    verifier: &Verifier<'k, H, D, K>,
    kind: Kind,
    terms: &CoseTerms<'_>,
) -> CoseItem
    ensures { result
        ≡ item_numbers
        (spec.key_chosen
        (Ok (spec.question_in kind (protected_of verifier.now) (unprotected_of verifier.now)))
        (permission_stated terms.entry.now) terms.entry.now.keys.now) }
{
    let query = query_of(kind, verifier.protected(), verifier.unprotected());
    numbers_of(first_in(terms.keys, &query, &permission(terms)))
}

/// The item of the terms' keys that a message of this kind is verified with, by a verifier that has taken none of it.
fn key_chosen<'k, const H: usize, const D: usize, K: Keys<'k>>(
    verifier: &mut Verifier<'k, H, D, K>,
    kind: Kind,
    message: &[u8],
    terms: &CoseTerms<'_>,
) -> CoseItem
    requires inspects { is_inspecting verifier.old ≡ true }
    requires fresh { HasTaken (to_inspect (setting_in verifier.old)) [] [] verifier.old }
    ensures { result
        ≡ item_numbers
        (spec.key_chosen (spec.asked_read H D (setting_in verifier.old) kind message.now)
        (permission_stated terms.entry.now) terms.entry.now.keys.now) }
{
    match take(verifier, message) {
        Status::Complete => key_asked(verifier, kind, terms),
        _ => no_item(),
    }
}

/// The item at a place of a key set, where that has one.
fn item_in(keys: &[u8], place: u64) -> Option<ItemRef<'_>>
    ensures { option_map placed result ≡ item_at keys.now place }
{
    let bytes = bytes_from(keys, place);
    if bytes.is_empty() {
        return None;
    }
    first_item(bytes, place)
}

/// Whether the key that the item at a place of a key set is fits.
fn fit_in(keys: &[u8], place: u64, query: &Query<'_>, permission: &Permission) -> CoseKeyFit
    ensures { result
        ≡ spec.fit_at (question query.now) (permission_value permission.now)
        (item_at keys.now place) }
{
    match item_in(keys, place) {
        Some(item) => fit_of(&item, query, permission),
        None => no_fit(plain_status(BAD_ARGUMENT)),
    }
}

/// Whether the key at a place of the terms' key set fits a message of this kind, which a verifier has taken. It is never inlined, as
/// [`key_asked`] isn't.
#[inline(never)]
fn fit_asked<'k, const H: usize, const D: usize, K: Keys<'k>>(
    verifier: &Verifier<'k, H, D, K>,
    kind: Kind,
    terms: &CoseTerms<'_>,
    place: u64,
) -> CoseKeyFit
    ensures { result
        ≡ spec.fit_at
        (spec.question_in kind (protected_of verifier.now) (unprotected_of verifier.now))
        (permission_stated terms.entry.now) (item_at terms.entry.now.keys.now place) }
{
    let query = query_of(kind, verifier.protected(), verifier.unprotected());
    fit_in(terms.keys, place, &query, &permission(terms))
}

/// Whether the key at a place of the terms' key set fits a message of this kind, by a verifier that has taken none of it.
fn fit_at<'k, const H: usize, const D: usize, K: Keys<'k>>(
    verifier: &mut Verifier<'k, H, D, K>,
    kind: Kind,
    message: &[u8],
    terms: &CoseTerms<'_>,
    place: u64,
) -> CoseKeyFit
    requires inspects { is_inspecting verifier.old ≡ true }
    requires fresh { HasTaken (to_inspect (setting_in verifier.old)) [] [] verifier.old }
    ensures { result
        ≡ spec.fit_asked (spec.asked_read H D (setting_in verifier.old) kind message.now)
        (permission_stated terms.entry.now) (item_at terms.entry.now.keys.now place) }
{
    match take(verifier, message) {
        Status::Complete => fit_asked(verifier, kind, terms, place),
        status => no_fit(status_numbers(status)),
    }
}

/// Which key of the terms' key set a message is verified with: the item of the set that the key is, where one is chosen. The kind of the
/// terms is that of the message, 17 or 18, as its verdict has it. No item where the message isn't whole, is refused, or no key fits it;
/// where several do, no message is verified with them, and this is the first.
#[unsafe(no_mangle)]
pub extern "C" fn cose_edge_key_of(terms: &CoseTerms<'_>, message: &[u8], key: &mut CoseItem)
    ensures value { key.new
        ≡ item_numbers
        (spec.key_chosen
        (spec.asked_given 1024 8 (setting_stated terms.entry.now)
        (spec.kind_numbered terms.entry.now.kind) message.now)
        (permission_stated terms.entry.now) terms.entry.now.keys.now) }
    // Where a key is chosen, it is that of this item.
    ensures chosen { (q : Question) (keys : List KeyValue) (found : KeyValue × ℤ)
        → spec.asked_given 1024 8 (setting_stated terms.entry.now)
        (spec.kind_numbered terms.entry.now.kind) message.now ≡ Ok q
        → permitted_in (permission_stated terms.entry.now) (keys_of terms.entry.now.keys.now)
        ≡ Ok keys
        → chosen q keys ≡ Ok found
        → option_and_then usable
        (spec.key_chosen
        (spec.asked_given 1024 8 (setting_stated terms.entry.now)
        (spec.kind_numbered terms.entry.now.kind) message.now)
        (permission_stated terms.entry.now) terms.entry.now.keys.now)
        ≡ Some found.0 }
{
    let labels = labels_of(&terms.understood);
    *key = match context(terms, &labels) {
        Ok(context) => match kind_numbered(terms.kind) {
            Some(kind) => {
                let mut verifier = Verifier::<HEADER, NESTING, PermittedKeys<'_>>::inspecting(
                    context,
                );
                key_chosen(&mut verifier, kind, message, terms)
            }
            None => no_item(),
        },
        Err(_) => no_item(),
    };
}

/// Why the key of the terms' key set that is the item at this place isn't the one that a message is verified with: the first condition
/// that it fails. The kind of the terms is that of the message, 17 or 18.
#[unsafe(no_mangle)]
pub extern "C" fn cose_edge_mismatch(
    terms: &CoseTerms<'_>,
    message: &[u8],
    place: u64,
    fit: &mut CoseKeyFit,
)
    ensures { fit.new
        ≡ spec.fit_asked
        (spec.asked_given 1024 8 (setting_stated terms.entry.now)
        (spec.kind_numbered terms.entry.now.kind) message.now)
        (permission_stated terms.entry.now) (item_at terms.entry.now.keys.now place) }
{
    let labels = labels_of(&terms.understood);
    *fit = match context(terms, &labels) {
        Ok(context) => match kind_numbered(terms.kind) {
            Some(kind) => {
                let mut verifier = Verifier::<HEADER, NESTING, PermittedKeys<'_>>::inspecting(
                    context,
                );
                fit_at(&mut verifier, kind, message, terms, place)
            }
            None => no_fit(plain_status(BAD_ARGUMENT)),
        },
        Err(status) => no_fit(status),
    };
}
