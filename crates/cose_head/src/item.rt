//! Complete data items (RFC 8949 section 3).

ghost use Rattle.std.specs.Prelude.{◌≡◌, ℕ, ◌+◌, ◌<◌, ◌≤◌, ◌^◌, true, length, take, Ok, IfOk, IfErr};
ghost use Rattle.cose_head.specs.Item.{Item, Spells, depth_of};
ghost use Rattle.cose_head.specs.Reading.{after, read, read_all, head, string, span_of, is_string as head_of_string, is_parent as head_of_parent};
ghost use Rattle.cose_head.specs.Measured.{left_of, head_found, span_found, nesting, nesting_all, children_allowed, SpansItem};

use crate::head::{Head, HeadStep, parse_head};
use crate::reason::Reason;
use crate::refusal::Refusal;

/// The length of an item, and the depth of its nesting.
#[derive(Clone, Copy, Debug, PartialEq, Eq)]
pub struct Span {
    /// The number of bytes of the item, from its head to its end.
    pub length: usize,
    /// The nesting of the item: 0 for an item that isn't an array, map or CBOR tag; else 1 more than its deepest child,
    /// and 1 for an empty array or map.
    pub depth: usize,
}

/// The refusal of a head, or of what it announces, at its place.
fn refused(reason: Reason, place: u64) -> Refusal
    ensures { result ≡ record { reason = reason; place = place } }
{
    Refusal { reason, place }
}

/// The head that `bytes` begin with, within `room` bytes. The first of `bytes` is at `place`.
fn head_at(bytes: &[u8], room: usize, place: u64) -> Result<Head, Refusal>
    requires { place + length bytes.now < 2 ^ 64 }
    ensures exact { let l = left_of bytes.now room place in head_found l result ≡ head l }
    ensures some { IfOk result (λ found. 0 < found.width) }
    ensures there { IfOk result (λ found. found.width ≤ length bytes.now) }
    ensures fits { IfOk result (λ found. found.width ≤ room) }
{
    let seen = &bytes[..room.min(bytes.len())];
    match parse_head(seen) {
        HeadStep::Got(found, _) => Ok(found),
        HeadStep::More(wanted) if wanted > room - seen.len() => Err(refused(
            Reason::PastRoom,
            place,
        )),
        HeadStep::More(_) => Err(refused(Reason::Truncated, place + bytes.len() as u64)),
        HeadStep::Fault(reason) => Err(refused(reason, place)),
    }
}

/// Whether a string follows the head.
pub(crate) fn is_string(head: Head) -> bool
    ensures { result ≡ head_of_string head }
{
    head.major == 2 || head.major == 3
}

/// Whether children follow the head, possibly none.
pub(crate) fn is_parent(head: Head) -> bool
    ensures { result ≡ head_of_parent head }
{
    head.major == 4 || head.major == 5 || head.major == 6
}

/// The string that a head at `start` announces. Its content begins `bytes`.
fn string_at(
    announced: Head,
    start: u64,
    bytes: &[u8],
    room: usize,
    place: u64,
) -> Result<Span, Refusal>
    requires { place + length bytes.now < 2 ^ 64 }
    ensures exact { let l = left_of bytes.now room place in
        span_found l result ≡ nesting (string start announced l) }
    ensures there { IfOk result (λ span. span.length ≤ length bytes.now) }
    ensures fits { IfOk result (λ span. span.length ≤ room) }
    ensures flat { IfOk result (λ span. span.depth ≡ 0) }
{
    if announced.arg > room as u64 {
        return Err(refused(Reason::PastRoom, start));
    }
    if announced.arg > bytes.len() as u64 {
        return Err(refused(Reason::Truncated, place + bytes.len() as u64));
    }
    Ok(Span {
        length: announced.arg as usize,
        depth: 0,
    })
}

/// The number of children that a head at `start` announces, where the room and the nesting allow that many.
fn allowed_children(
    announced: Head,
    start: u64,
    room: usize,
    depth: usize,
) -> Result<usize, Refusal>
    ensures { result ≡ children_allowed announced room depth start }
{
    if depth == 0 {
        return Err(refused(Reason::TooDeep, start));
    }
    let count = announced.child_count();
    if count > room as u128 {
        return Err(refused(Reason::PastRoom, start));
    }
    Ok(count as usize)
}

/// `count` items, one after another: their length, and the nesting of the deepest.
#[cycle(item)]
fn items_at(
    count: usize,
    bytes: &[u8],
    room: usize,
    place: u64,
    depth: usize,
) -> Result<Span, Refusal>
    requires in_range { place + length bytes.now < 2 ^ 64 }
    requires shallow { depth < 32 }
    ensures exact { let l = left_of bytes.now room place in
        span_found l result ≡ nesting_all (read_all (read depth) count l) }
    ensures there { IfOk result (λ span. span.length ≤ length bytes.now) }
    ensures fits { IfOk result (λ span. span.length ≤ room) }
    ensures nested { IfOk result (λ span. span.depth ≤ depth) }
{
    let mut length = 0;
    let mut deepest = 0;
    'items: for _index in 0..count {
        let rest = &bytes[length..];
        let one = item_at(rest, room - length, place + length as u64, depth)?;
        length += one.length;
        deepest = deepest.max(one.depth);
    }
    Ok(Span {
        length,
        depth: deepest,
    })
}

/// How many bytes the short item has that `bytes` begin with, within `room` bytes: an integer from -24 to 23, which is one byte,
/// or a string of fewer than 24 bytes that are all there. 0 for any other.
#[inline(always)]
pub(crate) fn short_item(bytes: &[u8], room: usize) -> usize
    ensures there { result ≤ length bytes.now }
    ensures fits { result ≤ room }
    ensures exact { (depth place : ℕ) → 0 < result →
        let l = left_of bytes.now room place in Ok (0, after result l) ≡ nesting (read depth l) }
{
    if room == 0 {
        return 0;
    }
    match bytes {
        [initial, ..] if *initial % 32 < 24 => {
            if *initial < 64 {
                return 1;
            }
            let length = 1 + usize::from(*initial % 32);
            if *initial < 128 && length <= room && length <= bytes.len() {
                return length;
            }
            0
        }
        _ => 0,
    }
}

/// The item that `bytes` begin with. The first of `bytes` is at `place`. A short one, as most items of headers and claims are, takes
/// no further reading.
#[inline(always)]
#[cycle(item)]
pub(crate) fn item_at(bytes: &[u8], room: usize, place: u64, depth: usize) -> Result<Span, Refusal>
    requires in_range { place + length bytes.now < 2 ^ 64 }
    requires shallow { depth ≤ 32 }
    ensures exact { let l = left_of bytes.now room place in
        span_found l result ≡ nesting (read depth l) }
    ensures some { IfOk result (λ span. 0 < span.length) }
    ensures there { IfOk result (λ span. span.length ≤ length bytes.now) }
    ensures fits { IfOk result (λ span. span.length ≤ room) }
    ensures nested { IfOk result (λ span. span.depth ≤ depth) }
{
    let length = short_item(bytes, room);
    if length > 0 {
        return Ok(Span { length, depth: 0 });
    }
    any_item_at(bytes, room, place, depth)
}

/// The item that `bytes` begin with, whatever it is. The first of `bytes` is at `place`.
#[cycle(item)]
fn any_item_at(bytes: &[u8], room: usize, place: u64, depth: usize) -> Result<Span, Refusal>
    requires in_range { place + length bytes.now < 2 ^ 64 }
    requires shallow { depth ≤ 32 }
    ensures exact { let l = left_of bytes.now room place in
        span_found l result ≡ nesting (read depth l) }
    ensures some { IfOk result (λ span. 0 < span.length) }
    ensures there { IfOk result (λ span. span.length ≤ length bytes.now) }
    ensures fits { IfOk result (λ span. span.length ≤ room) }
    ensures nested { IfOk result (λ span. span.depth ≤ depth) }
{
    let found = head_at(bytes, room, place)?;
    let width = usize::from(found.width);
    let rest = &bytes[width..];
    let rest_place = place + width as u64;
    if is_string(found) {
        let string = string_at(found, place, rest, room - width, rest_place)?;
        return Ok(Span {
            length: width + string.length,
            depth: 0,
        });
    }
    if !is_parent(found) {
        return Ok(Span {
            length: width,
            depth: 0,
        });
    }
    let count = allowed_children(found, place, room - width, depth)?;
    let items = items_at(count, rest, room - width, rest_place, depth - 1)?;
    Ok(Span {
        length: width + items.length,
        depth: 1 + items.depth,
    })
}

/// Reads the item that `bytes` begin with, of at most `room` bytes and a nesting of at most `depth` (RFC 8949 section
/// 3). Bytes may follow it.
///
/// The refusal is the first fault from the left: [`Reason::PastRoom`], [`Reason::Truncated`], [`Reason::Reserved`],
/// [`Reason::Indefinite`], [`Reason::BadSimple`] or [`Reason::TooDeep`], with its place in `bytes`. No memory is allocated.
pub fn read_item(bytes: &[u8], room: usize, depth: usize) -> Result<Span, Refusal>
    requires { depth ≤ 32 }
    // An `Ok` spans exactly the bytes that spell an item.
    ensures spelled { IfOk result (SpansItem bytes.now) }
    ensures complete { (content : Item) (n : ℕ) → n ≤ length bytes.now
        → Spells (take n bytes.now) content → n ≤ room → depth_of content ≤ depth →
        result ≡ Ok (record { length = n; depth = depth_of content }) }

    // The length and the nesting of the item that `read` gives, or its refusal.
    ensures exact { result ≡ span_of (read depth (left_of bytes.now room 0)) }
    ensures some { IfOk result (λ span. 0 < span.length) }
    ensures there { IfOk result (λ span. span.length ≤ length bytes.now) }
    ensures fits { IfOk result (λ span. span.length ≤ room) }
    ensures nested { IfOk result (λ span. span.depth ≤ depth) }
    ensures placed { IfErr result (λ refusal. refusal.place ≤ length bytes.now) }
{
    item_at(bytes, room, 0, depth)
}
