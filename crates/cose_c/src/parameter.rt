//! Header parameters of a message that is known to be authentic (RFC 9052 section 3).

ghost use Rattle.std.specs.Prelude.{◌≡◌, false, true, [], length, ◌==◌, if◌then◌else◌, not, option_map};
ghost use Rattle.cose_head.specs.ItemRef.{placed};
ghost use Rattle.cose_map.specs.Bucket.View.{bucket_pairs};
ghost use Rattle.cose_map.specs.KeySet.{keys_of};
ghost use Rattle.cose_map.specs.Label.{LabelValue, number, words_of};
ghost use Rattle.cose_map.specs.Label.View.{label_value};
ghost use Rattle.cose_msg.specs.Kept.{HasTaken, is_inspecting};
ghost use Rattle.cose_msg.specs.Shown.{protected_of, unprotected_of};
ghost use Rattle.cose_msg.specs.Task.{to_inspect};
ghost use Rattle.cose_msg.specs.Verifier.{setting_in};
ghost use Rattle.cose_c.specs.Item.{item_numbers};
ghost use Rattle.cose_c.specs.Parameter.{GivesItem, parameter_by, parameter_given, parameter_in, parameter_named, parameter_read};
ghost use Rattle.cose_c.specs.Shape.{no_keys};
ghost use Rattle.cose_c.specs.Terms.{setting_given};

use crate::claims::utf8;
use crate::fed_keys::FedKeys;
use crate::input::copy;
use crate::item::{CoseItem, no_item, numbers_of};
use crate::shape::NO_KEYS;
use crate::terms::{HEADER, LARGE_HEADER, LARGE_NESTING, NESTING, context};
use cose_map::{Bucket, ItemRef, Label};
use cose_msg::laws::settled_stays;
use cose_msg::{Keys, Verifier};

/// The parameter of a bucket, if it has one of this label.
fn parameter(bucket: Option<Bucket<'_>>, label: &Label<'_>) -> CoseItem
    ensures { result
        ≡ item_numbers
        (parameter_in (label_value label.now) (option_map bucket_pairs bucket.entry)) }
{
    match bucket {
        Some(bucket) => numbers_of(bucket.get(label)),
        None => no_item(),
    }
}

/// The parameter of this label of one bucket of the message that a verifier has taken. It is never inlined: what it takes of the stack is
/// free while the message is read.
#[inline(never)]
fn parameter_held<'k, const H: usize, const D: usize, K: Keys<'k>>(
    verifier: &Verifier<'k, H, D, K>,
    is_protected: bool,
    label: &Label<'_>,
) -> CoseItem
    ensures { result
        ≡ item_numbers
        (parameter_in (label_value label.now)
        (if is_protected then protected_of verifier.now else unprotected_of verifier.now)) }
{
    if is_protected {
        return parameter(verifier.protected(), label);
    }
    parameter(verifier.unprotected(), label)
}

/// The parameter of this label of one bucket of a message, by a verifier that has taken none of it.
fn parameter_of<'k, const H: usize, const D: usize, K: Keys<'k>>(
    verifier: &mut Verifier<'k, H, D, K>,
    message: &[u8],
    is_protected: bool,
    label: &Label<'_>,
) -> CoseItem
    requires inspects { is_inspecting verifier.old ≡ true }
    requires fresh { HasTaken (to_inspect (setting_in verifier.old)) [] [] verifier.old }
    ensures { result
        ≡ item_numbers
        (parameter_read H D (setting_in verifier.old) is_protected (label_value label.now)
        message.now) }
{
    // The law that the proof cites.
    settled_stays();
    verifier.feed(message);
    parameter_held(verifier, is_protected, label)
}

/// The numbers of an item, of which as many bytes are copied as there is room for.
fn copied(item: Option<ItemRef<'_>>, into: &mut [u8]) -> CoseItem
    ensures value { result ≡ item_numbers (option_map placed item.entry) }
    ensures copied { GivesItem (option_map placed item.entry) into.new (length into.old) }
{
    if let Some(item) = item {
        copy(item.bytes, into);
    }
    numbers_of(item)
}

/// The parameter of a bucket, if it has one of this label, of which as many bytes are copied as there is room for.
fn parameter_copied(bucket: Option<Bucket<'_>>, label: &Label<'_>, into: &mut [u8]) -> CoseItem
    ensures value { result
        ≡ item_numbers
        (parameter_in (label_value label.now) (option_map bucket_pairs bucket.entry)) }
    ensures copied { GivesItem
        (parameter_in (label_value label.now) (option_map bucket_pairs bucket.entry)) into.new
        (length into.old) }
{
    match bucket {
        Some(bucket) => copied(bucket.get(label), into),
        None => no_item(),
    }
}

/// The parameter of this label of one bucket of the message that a verifier has taken so far.
pub(crate) fn parameter_taken<'k, const H: usize, const D: usize>(
    content: &Option<Verifier<'k, H, D, FedKeys<'k>>>,
    is_protected: bool,
    label: &Label<'_>,
    into: &mut [u8],
) -> CoseItem
    ensures value { result
        ≡ item_numbers (parameter_by is_protected (label_value label.now) content.now) }
    ensures copied { GivesItem (parameter_by is_protected (label_value label.now) content.now)
        into.new (length into.old) }
{
    let Some(verifier) = content else {
        return no_item();
    };
    if is_protected {
        return parameter_copied(verifier.protected(), label, into);
    }
    parameter_copied(verifier.unprotected(), label, into)
}

/// The parameter of a label that is an integer, of the protected bucket, or where `is_protected` is 0 of the unprotected one, if it has one: an
/// item at its place in the message.
#[unsafe(no_mangle)]
pub extern "C" fn cose_edge_parameter(
    wanted: u8,
    message: &[u8],
    is_protected: u32,
    label: i64,
    item: &mut CoseItem,
)
    ensures { item.new
        ≡ item_numbers
        (parameter_given 1024 8 (setting_given (keys_of no_keys) [] wanted)
        (not (is_protected == 0)) (number label) message.now) }
{
    *item = match context(NO_KEYS, b"", wanted) {
        Ok(context) => {
            let mut verifier = Verifier::<HEADER, NESTING>::inspecting(context);
            let label = Label::Int(i128::from(label));
            parameter_of(&mut verifier, message, is_protected != 0, &label)
        }
        Err(_) => no_item(),
    };
}

/// The same for headers of 65,535 bytes that nest 16 deep.
#[unsafe(no_mangle)]
pub extern "C" fn cose_edge_large_parameter(
    wanted: u8,
    message: &[u8],
    is_protected: u32,
    label: i64,
    item: &mut CoseItem,
)
    ensures { item.new
        ≡ item_numbers
        (parameter_given 65535 16 (setting_given (keys_of no_keys) [] wanted)
        (not (is_protected == 0)) (number label) message.now) }
{
    *item = match context(NO_KEYS, b"", wanted) {
        Ok(context) => {
            let mut verifier = Verifier::<LARGE_HEADER, LARGE_NESTING>::inspecting(context);
            let label = Label::Int(i128::from(label));
            parameter_of(&mut verifier, message, is_protected != 0, &label)
        }
        Err(_) => no_item(),
    };
}

/// The parameter of a label that is a text string, in UTF-8, of either bucket.
#[unsafe(no_mangle)]
pub extern "C" fn cose_edge_parameter_named(
    wanted: u8,
    message: &[u8],
    is_protected: u32,
    name: &[u8],
    item: &mut CoseItem,
)
    ensures { item.new
        ≡ item_numbers
        (parameter_named 1024 8 (setting_given (keys_of no_keys) [] wanted)
        (not (is_protected == 0)) name.now message.now) }
{
    let Some(name) = utf8(name) else {
        *item = no_item();
        return;
    };
    *item = match context(NO_KEYS, b"", wanted) {
        Ok(context) => {
            let mut verifier = Verifier::<HEADER, NESTING>::inspecting(context);
            parameter_of(
                &mut verifier,
                message,
                is_protected != 0,
                &Label::Text(name),
            )
        }
        Err(_) => no_item(),
    };
}

/// The same for headers of 65,535 bytes that nest 16 deep.
#[unsafe(no_mangle)]
pub extern "C" fn cose_edge_large_parameter_named(
    wanted: u8,
    message: &[u8],
    is_protected: u32,
    name: &[u8],
    item: &mut CoseItem,
)
    ensures { item.new
        ≡ item_numbers
        (parameter_named 65535 16 (setting_given (keys_of no_keys) [] wanted)
        (not (is_protected == 0)) name.now message.now) }
{
    let Some(name) = utf8(name) else {
        *item = no_item();
        return;
    };
    *item = match context(NO_KEYS, b"", wanted) {
        Ok(context) => {
            let mut verifier = Verifier::<LARGE_HEADER, LARGE_NESTING>::inspecting(context);
            parameter_of(
                &mut verifier,
                message,
                is_protected != 0,
                &Label::Text(name),
            )
        }
        Err(_) => no_item(),
    };
}
