//! The lines of the command that lists keys: what each item of a key set is, and which of them are usable keys. For a message also
//! whether a usable key fits it. No byte of a secret.

ghost use Rattle.std.specs.Prelude.{◌≡◌, ◌↔◌, ◌++◌, ℕ, List, ◌∷◌, Some, Err, None, true, IfErr, IfOk, filter, length, map, option_map, string_bytes};
ghost use Rattle.std.specs.List.{concat};
ghost use Rattle.cose_head.specs.declared.refusal.Refusal.{Refusal};
ghost use Rattle.cose_head.specs.ItemRef.{placed};
ghost use Rattle.cose_head.specs.Items.{items_left};
ghost use Rattle.cose_map.specs.Key.View.{contents, key_value, material_value, operations_of};
ghost use Rattle.cose_map.specs.KeySet.{items_in, keys_of};
ghost use Rattle.cose_map.specs.Label.View.{label_value};
ghost use Rattle.cose_map.specs.Map.View.{seen_by};
ghost use Rattle.cose_answers.specs.Admitted.{where_present};
ghost use Rattle.cose_answers.specs.AskedKeys.{question_at};
ghost use Rattle.cose_answers.specs.KeysListed as spec;
ghost use Rattle.cose_answers.specs.Printed.{Says, keys_listed, keys_listed_for, keys_said};
ghost use Rattle.cose_answers.specs.Replies.{RepliesTo};

mod asked;

use crate::answers::words::push_named_hex;
use crate::fault::Fault;
use crate::limits::{SMALL_KEYS, SMALL_NESTING};
use crate::reply::{Reply, Status};
use crate::request::Keys;
use asked::asked_reply;
use cose_head::{ItemRef, Items, Refusal};
use cose_map::{Key, KeySet, Label, Material, Mismatch, Ops, Query};
use cose_msg::Wanted;
use cose_text::push_quoted;
use std::alloc::Global;
use std::io::Read;

/// The operations of RFC 9052 section 7.1.
const OPERATIONS: &[u8] = &[1, 2, 3, 4, 5, 6, 7, 8, 9, 10];

/// Appends the type of a key, and its curve.
fn push_type(alloc: Global, line: &mut String, material: &Material) -> Result<(), Fault>
    ensures words { IfOk result (λ _. string_bytes line.new
        ≡ string_bytes line.old ++ spec.type_words (material_value material.now)) }
    ensures fault { IfErr result (λ fault. fault ≡ Fault.Memory) }
{
    match material {
        Material::Symmetric(_) => line.push_str(" kty 4")?,
        Material::Ec { crv, .. } => {
            let words = format!(in alloc; " kty 2 crv {crv}")?;
            line.push_str(words.as_str())?;
        }
    }
    Ok(())
}

/// Appends the identifier of a key, where it has one.
fn push_kid(alloc: Global, line: &mut String, kid: Option<&[u8]>) -> Result<(), Fault>
    ensures words { IfOk result (λ _. string_bytes line.new ≡ string_bytes line.old
        ++ where_present spec.kid_words (option_map contents kid.entry)) }
    ensures fault { IfErr result (λ fault. fault ≡ Fault.Memory) }
{
    let Some(kid) = kid else {
        return Ok(());
    };
    push_named_hex(alloc, line, " kid", kid)
}

/// Appends an algorithm: its number, or its text in quotes.
fn push_algorithm(alloc: Global, line: &mut String, alg: Label) -> Result<(), Fault>
    ensures words { IfOk result (λ _. string_bytes line.new
        ≡ string_bytes line.old ++ spec.alg_words (label_value alg.entry)) }
    ensures fault { IfErr result (λ fault. fault ≡ Fault.Memory) }
{
    match alg {
        Label::Int(number) => {
            let words = format!(in alloc; " alg {number}")?;
            line.push_str(words.as_str())?;
        }
        Label::Text(text) => {
            line.push_str(" alg ")?;
            push_quoted(alloc, line, text)?;
        }
    }
    Ok(())
}

/// Appends the only algorithm that a key is for, where it names one.
fn push_alg(alloc: Global, line: &mut String, alg: Option<Label>) -> Result<(), Fault>
    ensures words { IfOk result (λ _. string_bytes line.new ≡ string_bytes line.old
        ++ where_present spec.alg_words (option_map label_value alg.entry)) }
    ensures fault { IfErr result (λ fault. fault ≡ Fault.Memory) }
{
    match alg {
        Some(alg) => push_algorithm(alloc, line, alg),
        None => Ok(()),
    }
}

/// What comes before the first number of a list, and before another one.
fn separator(is_first: bool) -> &'static str
    ensures { result.now ≡ spec.separator_of is_first }
{
    match is_first {
        true => " ",
        false => ",",
    }
}

/// Appends the number of an operation, where a key lists it, and returns whether the next one is still the first.
fn push_operation(
    alloc: Global,
    line: &mut String,
    ops: &Ops,
    is_first: bool,
    operation: u8,
) -> Result<bool, Fault>
    // With these numbers after it, all is as with this one before them.
    ensures words { (left : List ℕ) → IfOk result (λ next. string_bytes line.new
        ++ spec.numbers next (filter (spec.lists (operations_of ops.now)) left)
        ≡ string_bytes line.old ++ spec.numbers is_first
        (filter (spec.lists (operations_of ops.now)) (operation ∷ left))) }
    ensures fault { IfErr result (λ fault. fault ≡ Fault.Memory) }
{
    if !ops.holds(i128::from(operation)) {
        return Ok(is_first);
    }
    let separator = separator(is_first);
    let words = format!(in alloc; "{separator}{operation}")?;
    line.push_str(words.as_str())?;
    Ok(false)
}

/// Appends the numbers of those of these operations that a key lists.
fn push_operations(
    alloc: Global,
    line: &mut String,
    ops: &Ops,
    operations: &[u8],
) -> Result<(), Fault>
    ensures words { IfOk result (λ _. string_bytes line.new ≡ string_bytes line.old
        ++ spec.numbers true (filter (spec.lists (operations_of ops.now)) operations.now)) }
    ensures fault { IfErr result (λ fault. fault ≡ Fault.Memory) }
{
    let mut is_first = true;
    'operations: for operation in operations {
        is_first = push_operation(alloc, line, ops, is_first, *operation)?;
    }
    Ok(())
}

/// Appends the operations that a key lists.
fn push_listed(alloc: Global, line: &mut String, ops: &Ops) -> Result<(), Fault>
    ensures words { IfOk result (λ _. string_bytes line.new
        ≡ string_bytes line.old ++ spec.ops_words (operations_of ops.now)) }
    ensures fault { IfErr result (λ fault. fault ≡ Fault.Memory) }
{
    line.push_str(" ops")?;
    push_operations(alloc, line, ops, OPERATIONS)
}

/// Appends the only operations that a key is for, where it lists any.
fn push_ops(alloc: Global, line: &mut String, ops: Option<Ops>) -> Result<(), Fault>
    ensures words { IfOk result (λ _. string_bytes line.new ≡ string_bytes line.old
        ++ where_present spec.ops_words (option_map operations_of ops.entry)) }
    ensures fault { IfErr result (λ fault. fault ≡ Fault.Memory) }
{
    match ops {
        Some(ops) => push_listed(alloc, line, &ops),
        None => Ok(()),
    }
}

/// Appends what a key names.
fn push_key(alloc: Global, line: &mut String, key: &Key) -> Result<(), Fault>
    ensures words { IfOk result (λ _. string_bytes line.new
        ≡ string_bytes line.old ++ spec.key_words (key_value key.now)) }
    ensures fault { IfErr result (λ fault. fault ≡ Fault.Memory) }
{
    push_type(alloc, line, &key.material)?;
    push_kid(alloc, line, key.kid)?;
    push_alg(alloc, line, key.alg)?;
    push_ops(alloc, line, key.ops)
}

/// The word of a condition under which a key fits a message.
fn condition_word(condition: Mismatch) -> &'static str
    ensures { result.now ≡ spec.condition_word condition }
{
    match condition {
        Mismatch::Algorithm => "algorithm",
        Mismatch::KeyType => "type",
        Mismatch::Curve => "curve",
        Mismatch::Operation => "key_ops",
        Mismatch::Identifier => "kid",
    }
}

/// Appends that a key is usable, and the condition that it fails.
fn push_condition(line: &mut String, condition: Mismatch) -> Result<(), Fault>
    ensures words { IfOk result (λ _. string_bytes line.new
        ≡ string_bytes line.old ++ spec.fit_words (Some condition)) }
    ensures fault { IfErr result (λ fault. fault ≡ Fault.Memory) }
{
    line.push_str(" usable fails ")?;
    line.push_str(condition_word(condition))?;
    Ok(())
}

/// Appends that a key is usable, and the first condition that it fails to fit a message, if there is one.
fn push_fit(line: &mut String, mismatch: Option<Mismatch>) -> Result<(), Fault>
    ensures words { IfOk result (λ _. string_bytes line.new
        ≡ string_bytes line.old ++ spec.fit_words mismatch) }
    ensures fault { IfErr result (λ fault. fault ≡ Fault.Memory) }
{
    match mismatch {
        Some(condition) => push_condition(line, condition),
        None => {
            line.push_str(" usable fits")?;
            Ok(())
        }
    }
}

/// Appends that a key is usable, and whether it fits what a message asks for, if there is one.
fn push_usable(line: &mut String, key: &Key, query: Option<&Query>) -> Result<(), Fault>
    ensures words { IfOk result (λ _. string_bytes line.new ≡ string_bytes line.old
        ++ spec.usable_words (option_map question_at query.entry) (key_value key.now)) }
    ensures fault { IfErr result (λ fault. fault ≡ Fault.Memory) }
{
    match query {
        Some(query) => push_fit(line, query.mismatch(key)),
        None => {
            line.push_str(" usable")?;
            Ok(())
        }
    }
}

/// Appends what an item is: a usable key, or refused.
fn push_outcome(
    alloc: Global,
    line: &mut String,
    outcome: Result<Key, Refusal>,
    query: Option<&Query>,
) -> Result<(), Fault>
    ensures words { IfOk result (λ _. string_bytes line.new ≡ string_bytes line.old
        ++ spec.outcome_words (option_map question_at query.entry)
        (seen_by key_value outcome.entry)) }
    ensures fault { IfErr result (λ fault. fault ≡ Fault.Memory) }
{
    match outcome {
        Ok(key) => {
            push_key(alloc, line, &key)?;
            push_usable(line, &key, query)?;
        }
        Err(refusal) => {
            let words = format!(in alloc; " refused {refusal}")?;
            line.push_str(words.as_str())?;
        }
    }
    Ok(())
}

/// Appends the line of an item that should be a key.
fn push_item(
    alloc: Global,
    text: &mut String,
    item: &ItemRef,
    query: Option<&Query>,
) -> Result<(), Fault>
    ensures line { IfOk result (λ _. string_bytes text.new ≡ string_bytes text.old
        ++ spec.item_line (option_map question_at query.entry) (placed item.now)) }
    ensures fault { IfErr result (λ fault. fault ≡ Fault.Memory) }
{
    let place = item.place;
    let words = format!(in alloc; "key at {place}")?;
    text.push_str(words.as_str())?;
    push_outcome(alloc, text, Key::read(item.bytes, place), query)?;
    text.push_str("\n")?;
    Ok(())
}

/// Appends a line for each of these items, and returns how many there are.
fn push_items(
    alloc: Global,
    text: &mut String,
    items: Items,
    query: Option<&Query>,
) -> Result<u128, Fault>
    ensures lines { IfOk result (λ _. string_bytes text.new ≡ string_bytes text.old
        ++ concat (map (spec.item_line (option_map question_at query.entry))
        (items_left items.entry))) }
    ensures count { IfOk result (λ count. count ≡ length (items_left items.entry)) }
    ensures fault { IfErr result (λ fault. fault ≡ Fault.Memory) }
{
    let mut count = 0;
    'items: for item in items {
        push_item(alloc, text, &item, query)?;
        count += 1;
    }
    Ok(count)
}

/// Appends the line of the only item of a set, and returns how many there are.
fn push_only(
    alloc: Global,
    text: &mut String,
    item: &ItemRef,
    query: Option<&Query>,
) -> Result<u128, Fault>
    ensures line { IfOk result (λ _. string_bytes text.new ≡ string_bytes text.old
        ++ spec.item_line (option_map question_at query.entry) (placed item.now)) }
    ensures count { IfOk result (λ count. count ≡ 1) }
    ensures fault { IfErr result (λ fault. fault ≡ Fault.Memory) }
{
    push_item(alloc, text, item, query)?;
    Ok(1)
}

/// Appends a line for each item of a set that should be a key, and returns how many there are.
fn push_set(
    alloc: Global,
    text: &mut String,
    set: &ItemRef,
    query: Option<&Query>,
) -> Result<u128, Fault>
    ensures lines { IfOk result (λ _. string_bytes text.new ≡ string_bytes text.old
        ++ concat (map (spec.item_line (option_map question_at query.entry))
        (items_in (placed set.now)))) }
    ensures count { IfOk result (λ count. count ≡ length (items_in (placed set.now))) }
    ensures fault { IfErr result (λ fault. fault ≡ Fault.Memory) }
{
    let major = set.head().major;
    if major == 4 {
        return push_items(alloc, text, Items::of(set), query);
    }
    if major == 5 {
        return push_only(alloc, text, set, query);
    }
    Ok(0)
}

/// Appends how many items are usable keys, and whether these are more than the other commands have room for.
fn push_count(alloc: Global, text: &mut String, usable: usize, items: u128) -> Result<(), Fault>
    ensures line { IfOk result (λ _. string_bytes text.new
        ≡ string_bytes text.old ++ spec.count_line usable items) }
    ensures fault { IfErr result (λ fault. fault ≡ Fault.Memory) }
{
    let words = format!(in alloc; "usable {usable} of {items}")?;
    text.push_str(words.as_str())?;
    if usable > SMALL_KEYS {
        text.push_str(" refused BadKeySet at 0")?;
    }
    text.push_str("\n")?;
    Ok(())
}

/// How a run ends that lists a set with so many usable keys.
fn status_of(usable: usize) -> Status
    ensures { result ≡ spec.set_status usable }
{
    if usable > SMALL_KEYS {
        return Status::Refused;
    }
    Status::Done
}

/// The lines of a set that is one item, with so many usable keys, for what a message asks for, if there is one.
fn set_reply(
    alloc: Global,
    set: &ItemRef,
    usable: usize,
    query: Option<&Query>,
) -> Result<Reply, Fault>
    ensures text { IfOk result (λ reply. string_bytes reply.text
        ≡ spec.set_text (option_map question_at query.entry) (items_in (placed set.now)) usable) }
    ensures status { IfOk result (λ reply. reply.status ≡ spec.set_status usable) }
    ensures fault { IfErr result (λ fault. fault ≡ Fault.Memory) }
{
    let mut text = String::new(alloc);
    let items = push_set(alloc, &mut text, set, query)?;
    push_count(alloc, &mut text, usable, items)?;
    let status = status_of(usable);
    Ok(Reply { status, text })
}

/// The reply that lists the items of a key set for no message.
fn keys_reply(alloc: Global, keys: &[u8]) -> Result<Reply, Fault>
    ensures says { IfOk result (Says (keys_listed keys.now)) }
    ensures keys { (refusal : Refusal)
        → keys_of keys.now ≡ Err refusal ↔ result ≡ Err (Fault.Keys refusal) }
{
    let set = match KeySet::read(keys) {
        Ok(set) => set,
        Err(refusal) => return Err(Fault::Keys(refusal)),
    };
    match ItemRef::read(keys, 0, SMALL_NESTING) {
        Ok(item) => set_reply(alloc, &item, set.count(), None),
        // It was read as a set.
        Err(refusal) => Err(Fault::Keys(refusal)),
    }
}

/// The reply that lists them for the message on the input. The key set is read before the input.
fn keys_reply_for<R: Read>(
    alloc: Global,
    keys: &[u8],
    wanted: Wanted,
    input: &mut R,
) -> Result<Reply, Fault>
    ensures says { (bytes : List ℕ) → R.remaining input.old ≡ Some bytes →
        IfOk result (Says (keys_listed_for wanted keys.now bytes)) }
    ensures keys { (refusal : Refusal)
        → keys_of keys.now ≡ Err refusal ↔ result ≡ Err (Fault.Keys refusal) }
{
    let set = match KeySet::read(keys) {
        Ok(set) => set,
        Err(refusal) => return Err(Fault::Keys(refusal)),
    };
    match ItemRef::read(keys, 0, SMALL_NESTING) {
        Ok(item) => asked_reply(alloc, &item, set.count(), wanted, input),
        // It was read as a set.
        Err(refusal) => Err(Fault::Keys(refusal)),
    }
}

/// The reply that lists the items of a key set, and says of each usable key whether it fits the message on the input, where that is
/// asked for.
pub fn listing_reply<R: Read>(alloc: Global, words: &Keys, input: &mut R) -> Result<Reply, Fault>
    ensures says { RepliesTo (R.remaining input.old)
        (keys_said words.now.message words.now.keys.items) result }
    ensures keys { (refusal : Refusal)
        → keys_of words.now.keys.items ≡ Err refusal ↔ result ≡ Err (Fault.Keys refusal) }
    // To list a key set for no message it reads nothing.
    ensures listing { words.now.message ≡ None → input.new ≡ input.old }
{
    let keys = words.keys.as_slice();
    match words.message {
        Some(wanted) => keys_reply_for(alloc, keys, wanted, input),
        None => keys_reply(alloc, keys),
    }
}
