//! One data item: its bytes and their place (RFC 8949 section 3).

ghost use Rattle.std.specs.Prelude.{◌≡◌, ℕ, ◌+◌, ◌<◌, ◌≤◌, ◌^◌, length, take, drop, true, option_map, IfOk, IfErr};
ghost use Rattle.cose_head.specs.Placed.{if_utf8};
ghost use Rattle.cose_head.specs.Whole.{is_one_item, whole};

use crate::head::{Head, HeadStep, parse_head};
use crate::hidden::Hidden;
use crate::item::item_at;
use crate::reason::Reason;
use crate::refusal::Refusal;
use std::fmt;

/// A data item: its bytes, and the place of the first.
///
/// The type guarantees that the bytes are exactly one item, of a nesting of at most 32. [`ItemRef::read`] makes one
/// from bytes, and [`Items`](crate::Items) gives those of children. What the methods return depends on the bytes alone.
///
/// `Debug` prints how many bytes there are, and none of them: the item may be a key.
#[derive(Clone, Copy)]
pub struct ItemRef<'a> {
    /// The bytes of the item.
    pub bytes: &'a [u8],
    /// The place of the first byte.
    pub place: u64,
    /// The bytes are exactly one item, of a nesting of at most 32.
    pub ghost is_item: { is_one_item bytes.now ≡ true },
    /// The place after the last byte fits in u64.
    pub ghost in_range: { place + length bytes.now < 2 ^ 64 },
}

/// The bytes after the first `width` bytes; none if there are fewer.
fn bytes_after(bytes: &[u8], width: u8) -> &[u8]
    ensures { result.now ≡ drop width bytes.now }
{
    let width = usize::from(width).min(bytes.len());
    &bytes[width..]
}

/// The first `count` bytes, or all if there are fewer.
fn bytes_before(bytes: &[u8], count: u64) -> &[u8]
    ensures { result.now ≡ take count bytes.now }
{
    if count < bytes.len() as u64 {
        return &bytes[..count as usize];
    }
    bytes
}

/// The bytes as a `str`, if they are UTF-8.
fn utf8(bytes: &[u8]) -> Option<&str>
    ensures { option_map (λ text. text.now) result ≡ if_utf8 bytes.now }
{
    std::str::from_utf8(bytes).ok()
}

impl<'a> ItemRef<'a> {
    ghost use Rattle.cose_head.specs.ItemRef.{placed, placed_read, placed_in_tag};
    ghost use Rattle.cose_head.specs.Placed.{head_of_item, look, tag_in, integer_in, bytes_in, text_in, truth_in, is_a_text, is_an_array, is_a_map, is_a_float};

    /// Reads bytes that are exactly one item, of a nesting of at most `depth`. The first byte is at place `at`.
    ///
    /// The refusal is the first fault, as of [`read_item`](crate::read_item), with [`Reason::PastRoom`] where the bytes
    /// end early; then [`Reason::Trailing`] at the first byte after the item.
    pub fn read(bytes: &'a [u8], at: u64, depth: usize) -> Result<ItemRef<'a>, Refusal>
        requires shallow { depth ≤ 32 }
        requires in_range { at + length bytes.now < 2 ^ 64 }
        ensures exact { placed_read result
            ≡ whole depth (record { bytes = bytes.now; place = at }) }
        ensures same { IfOk result (λ item. placed item
            ≡ record { bytes = bytes.now; place = at }) }
        ensures from { IfErr result (λ refusal. at ≤ refusal.place) }
        ensures within { IfErr result (λ refusal. refusal.place ≤ at + length bytes.now) }
    {
        let span = item_at(bytes, bytes.len(), at, depth)?;
        if span.length < bytes.len() {
            return Err(Refusal {
                reason: Reason::Trailing,
                place: at + span.length as u64,
            });
        }
        Ok(ItemRef { bytes, place: at })
    }

    /// The head of the item.
    #[tactic(auto, unfolding(crate::specs::Placed::head_of_item), using(crate::proofs::lemmas::Head::Heads::got_width, crate::proofs::lemmas::Placed::Whole::one_item_is_no_half, crate::proofs::lemmas::Placed::Whole::one_item_is_no_fault))]
    pub fn head(&self) -> Head
        ensures exact { result ≡ head_of_item (placed self.now) }
        ensures there { result.width ≤ length self.now.bytes.now }
    {
        match parse_head(self.bytes) {
            HeadStep::Got(head, _) => head,
            HeadStep::More(_) | HeadStep::Fault(_) => unreachable!(),
        }
    }

    /// The bytes after a head, as many as it announces.
    fn content(&self, head: Head) -> &'a [u8]
        ensures { result.now ≡ take head.arg (drop head.width self.now.bytes.now) }
    {
        bytes_before(bytes_after(self.bytes, head.width), head.arg)
    }

    /// The integer, if the item is one.
    #[tactic(auto, unfolding(crate::specs::Placed::look), using(crate::proofs::lemmas::Placed::Placed::unsigned_found, crate::proofs::lemmas::Placed::Placed::negative_found, crate::proofs::lemmas::Placed::Placed::no_integer))]
    pub fn as_int(&self) -> Option<i128>
        ensures { result ≡ integer_in (look (placed self.now)) }
    {
        let head = self.head();
        match head.major {
            0 => Some(i128::from(head.arg)),
            1 => Some(-1 - i128::from(head.arg)),
            _ => None,
        }
    }

    /// The content of the byte string, if the item is one.
    #[tactic(auto, unfolding(crate::specs::Placed::look), using(crate::proofs::lemmas::Placed::Placed::bytes_found, crate::proofs::lemmas::Placed::Placed::no_bytes))]
    pub fn as_bytes(&self) -> Option<&'a [u8]>
        ensures { option_map (λ bytes. bytes.now) result ≡ bytes_in (look (placed self.now)) }
    {
        let head = self.head();
        if head.major != 2 {
            return None;
        }
        Some(self.content(head))
    }

    /// The content of the text string, if the item is one and it is UTF-8.
    #[inline(always)]
    #[tactic(auto, unfolding(crate::specs::Placed::look), using(crate::proofs::lemmas::Placed::Placed::text_found, crate::proofs::lemmas::Placed::Placed::no_text))]
    pub fn as_text(&self) -> Option<&'a str>
        ensures { option_map (λ text. text.now) result ≡ text_in (look (placed self.now)) }
    {
        let head = self.head();
        if head.major != 3 {
            return None;
        }
        utf8(self.content(head))
    }

    /// The Boolean value, if the item is false or true.
    #[tactic(auto, unfolding(crate::specs::Placed::look), using(crate::proofs::lemmas::Placed::Placed::truth_found, crate::proofs::lemmas::Placed::Placed::no_truth))]
    pub fn as_bool(&self) -> Option<bool>
        ensures { result ≡ truth_in (look (placed self.now)) }
    {
        let head = self.head();
        if head.major < 7 || head.width > 2 {
            return None;
        }
        match head.arg {
            20 => Some(false),
            21 => Some(true),
            _ => None,
        }
    }

    /// The number of the CBOR tag, and the item that it encloses (RFC 8949 section 3.4), which follows the tag's head.
    pub fn as_tag(&self) -> Option<(u64, ItemRef<'a>)>
        ensures { option_map placed_in_tag result ≡ tag_in (placed self.now) }
    {
        let head = self.head();
        if head.major != 6 {
            return None;
        }
        let item = ItemRef {
            bytes: bytes_after(self.bytes, head.width),
            place: self.place + u64::from(head.width),
        };
        Some((head.arg, item))
    }

    /// Whether the item is a text string, UTF-8 or not.
    #[tactic(auto, unfolding(crate::specs::Placed::look), using(crate::proofs::lemmas::Placed::Placed::any_text_found))]
    pub fn is_text(&self) -> bool
        ensures { result ≡ is_a_text (look (placed self.now)) }
    {
        self.head().major == 3
    }

    /// Whether the item is a float.
    #[tactic(auto, unfolding(crate::specs::Placed::look), using(crate::proofs::lemmas::Placed::Placed::float_found, crate::proofs::lemmas::Placed::Placed::no_float))]
    pub fn is_float(&self) -> bool
        ensures { result ≡ is_a_float (look (placed self.now)) }
    {
        let head = self.head();
        head.major >= 7 && head.width > 2
    }

    /// Whether the item is an array.
    #[tactic(auto, unfolding(crate::specs::Placed::look), using(crate::proofs::lemmas::Placed::Placed::array_found))]
    pub fn is_array(&self) -> bool
        ensures { result ≡ is_an_array (look (placed self.now)) }
    {
        self.head().major == 4
    }

    /// Whether the item is a map.
    #[tactic(auto, unfolding(crate::specs::Placed::look), using(crate::proofs::lemmas::Placed::Placed::map_found))]
    pub fn is_map(&self) -> bool
        ensures { result ≡ is_a_map (look (placed self.now)) }
    {
        self.head().major == 5
    }
}

impl fmt::Debug for ItemRef<'_> {
    ghost use Rattle.std.specs.Prelude.{Some};
    ghost use Rattle.cose_head.specs.Hidden.{item_text};

    ghost debug_output = { λ item. Some (item_text (length item.bytes.now) item.place) };

    fn fmt<W: fmt::Write>(&self, f: &mut fmt::Formatter<W>) -> fmt::Result {
        let bytes = Hidden(self.bytes);
        let place = self.place;
        write!(f, "ItemRef {{ bytes: {bytes:?}, place: {place} }}")
    }
}
