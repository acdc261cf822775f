//! Items in diagnostic notation (RFC 8949 section 8).

ghost use Rattle.std.specs.Prelude.{◌≡◌, ◌++◌, [], IfOk, codes, map, string_bytes, take};
ghost use Rattle.std.specs.Fmt.{signed_decimal};
ghost use Rattle.cose_head.specs.ItemRef.{placed};
ghost use Rattle.cose_head.specs.Placed.{children_of, head_of_item, past_head};
ghost use Rattle.cose_text.specs.Diagnostic.{bytes_text, diagnostic_of, float_text, joined, simple_text, string_text, tag_text};
ghost use Rattle.cose_text.specs.Shown.{item_text, leaf_text, list_text};

use crate::quoted::push_quoted;
use cose_head::laws::{
    bare_head_is_spelling, children_are_of_tree, read_is_spelling, whole_is_one_item,
};
use cose_head::{ItemRef, Items};
use std::alloc::{AllocError, Global};

/// An item nests at most 32 deep, and one that doesn't nest is a level too.
const LEVELS: usize = 33;

/// What is written around the children of an array or a map, and after every first one of two.
#[derive(Clone, Copy)]
struct Marks {
    open: &'static str,
    after_first: &'static str,
    close: &'static str,
}

/// An array's.
const ARRAY: Marks = Marks {
    open: "[",
    after_first: ", ",
    close: "]",
};

/// A map's, whose children are label, value, label, value.
const MAP: Marks = Marks {
    open: "{",
    after_first: ": ",
    close: "}",
};

/// Appends bytes in hexadecimal, in single quotes after the word that says what they are.
fn push_bytes(alloc: Global, text: &mut String, word: &str, bytes: &[u8]) -> Result<(), AllocError>
    ensures { IfOk result (λ _. string_bytes text.new
        ≡ string_bytes text.old ++ bytes_text word.now bytes.now) }
{
    let digits = hex::encode(alloc, bytes)?;
    let quoted = format!(in alloc; "{word}'{digits}'")?;
    text.push_str(quoted.as_str())?;
    Ok(())
}

/// Appends an integer in decimal.
fn push_integer(alloc: Global, text: &mut String, number: i128) -> Result<(), AllocError>
    ensures { IfOk result (λ _. string_bytes text.new
        ≡ string_bytes text.old ++ signed_decimal number) }
{
    let digits = format!(in alloc; "{number}")?;
    text.push_str(digits.as_str())?;
    Ok(())
}

/// Appends the content of a text string in quotes, or as bytes where it isn't UTF-8.
fn push_string(alloc: Global, text: &mut String, content: &[u8]) -> Result<(), AllocError>
    ensures { IfOk result (λ _. string_bytes text.new
        ≡ string_bytes text.old ++ string_text content.now) }
{
    match std::str::from_utf8(content) {
        Ok(content) => push_quoted(alloc, text, content),
        Err(_) => push_bytes(alloc, text, "text", content),
    }
}

/// Appends a float as its bytes, the last `width` of these eight.
fn push_float(alloc: Global, text: &mut String, width: usize, bits: u64) -> Result<(), AllocError>
    ensures { IfOk result (λ _. string_bytes text.new
        ≡ string_bytes text.old ++ float_text width bits) }
{
    let bytes = bits.to_be_bytes();
    push_bytes(alloc, text, "float", &bytes[8 - width.min(8)..])
}

/// Appends a simple value (RFC 8949 section 3.3).
fn push_simple(alloc: Global, text: &mut String, value: u64) -> Result<(), AllocError>
    ensures { IfOk result (λ _. string_bytes text.new
        ≡ string_bytes text.old ++ simple_text value) }
{
    match value {
        20 => text.push_str("false"),
        21 => text.push_str("true"),
        22 => text.push_str("null"),
        23 => text.push_str("undefined"),
        _ => {
            let simple = format!(in alloc; "simple({value})")?;
            text.push_str(simple.as_str())
        }
    }
}

/// The content of a string.
fn content<'a>(item: &ItemRef<'a>) -> &'a [u8]
    ensures { let p = placed item.now in let h = head_of_item p in
        result.now ≡ take h.arg (past_head h p).bytes }
{
    let head = item.head();
    let rest = &item.bytes[usize::from(head.width)..];
    if head.arg < rest.len() as u64 {
        return &rest[..head.arg as usize];
    }
    rest
}

/// Appends an item that has no children and encloses none.
fn push_leaf(alloc: Global, text: &mut String, item: &ItemRef) -> Result<(), AllocError>
    ensures { IfOk result (λ _. string_bytes text.new
        ≡ string_bytes text.old ++ leaf_text (head_of_item (placed item.now)) (placed item.now)) }
{
    let head = item.head();
    match head.major {
        0 => push_integer(alloc, text, i128::from(head.arg)),
        1 => push_integer(alloc, text, -1 - i128::from(head.arg)),
        2 => push_bytes(alloc, text, "h", content(item)),
        3 => push_string(alloc, text, content(item)),
        _ => {
            if head.width > 2 {
                return push_float(alloc, text, usize::from(head.width) - 1, head.arg);
            }
            push_simple(alloc, text, head.arg)
        }
    }
}

/// Appends the children of an item, of at most `depth` levels.
#[cycle(diagnostic)]
fn push_children(
    alloc: Global,
    text: &mut String,
    item: &ItemRef,
    after_first: &str,
    depth: usize,
) -> Result<(), AllocError>
    ensures { IfOk result (λ _. string_bytes text.new
        ≡ string_bytes text.old ++ joined [] after_first.now (codes ", ")
        (map (item_text depth) (children_of (placed item.now)))) }
{
    let mut before = "";
    let mut next = after_first;
    let mut other = ", ";
    'children: for child in Items::of(item) {
        text.push_str(before)?;
        push_item(alloc, text, &child, depth)?;
        before = next;
        next = other;
        other = before;
    }
    Ok(())
}

/// Appends an array or a map.
#[cycle(diagnostic)]
fn push_list(
    alloc: Global,
    text: &mut String,
    item: &ItemRef,
    marks: &Marks,
    depth: usize,
) -> Result<(), AllocError>
    ensures { IfOk result (λ _. string_bytes text.new
        ≡ string_bytes text.old ++ list_text marks.now.open.now marks.now.after_first.now
        marks.now.close.now (map (item_text depth) (children_of (placed item.now)))) }
{
    text.push_str(marks.open)?;
    push_children(alloc, text, item, marks.after_first, depth)?;
    text.push_str(marks.close)?;
    Ok(())
}

/// Appends the number of a tag, and the item that it encloses.
#[cycle(diagnostic)]
fn push_tag(
    alloc: Global,
    text: &mut String,
    number: u64,
    enclosed: &ItemRef,
    depth: usize,
) -> Result<(), AllocError>
    ensures { IfOk result (λ _. string_bytes text.new
        ≡ string_bytes text.old ++ tag_text number (item_text depth (placed enclosed.now))) }
{
    let begin = format!(in alloc; "{number}(")?;
    text.push_str(begin.as_str())?;
    push_item(alloc, text, enclosed, depth)?;
    text.push_str(")")?;
    Ok(())
}

/// Appends an item of at most `depth` levels.
#[cycle(diagnostic)]
fn push_item(
    alloc: Global,
    text: &mut String,
    item: &ItemRef,
    depth: usize,
) -> Result<(), AllocError>
    ensures { IfOk result (λ _. string_bytes text.new
        ≡ string_bytes text.old ++ item_text depth (placed item.now)) }
{
    if depth == 0 {
        return Ok(());
    }
    let major = item.head().major;
    if major == 4 {
        return push_list(alloc, text, item, &ARRAY, depth - 1);
    }
    if major == 5 {
        return push_list(alloc, text, item, &MAP, depth - 1);
    }
    match item.as_tag() {
        Some((number, enclosed)) => push_tag(alloc, text, number, &enclosed, depth - 1),
        None => push_leaf(alloc, text, item),
    }
}

/// Appends an item in diagnostic notation, as in RFC 8949, Appendix A, with two forms that it has not: a float is `float'` and
/// its bytes in hexadecimal, which is exact, and a text string that is not UTF-8 is `text'` and its bytes.
pub fn push_diagnostic(alloc: Global, text: &mut String, item: &ItemRef) -> Result<(), AllocError>
    ensures { IfOk result (λ _. string_bytes text.new
        ≡ string_bytes text.old ++ diagnostic_of (placed item.now)) }
{
    // The laws that the proof cites: the item is one tree, and its head and its children are those of the tree.
    read_is_spelling();
    bare_head_is_spelling();
    whole_is_one_item();
    children_are_of_tree();
    push_item(alloc, text, item, LEVELS)
}
