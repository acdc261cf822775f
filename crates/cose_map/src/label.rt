//! Labels of maps (RFC 9052 section 1.5).

ghost use Rattle.std.specs.Prelude.{◌≡◌, ◌&&◌, option_map};
ghost use Rattle.std.specs.Cmp.Lexicographic.{slice_cmp};
ghost use Rattle.std.specs.Ordering.{nat_cmp, is_lt};
ghost use Rattle.cose_head.specs.ItemRef.{placed};
ghost use Rattle.cose_map.specs.Label.{label_of, same_label};
ghost use Rattle.cose_map.specs.Label.Order as order;
ghost use Rattle.cose_map.specs.Label.View.{label_value};

use cose_head::ItemRef;
use cose_mac::same_bytes;

/// Whether the first of two texts comes before the other by their bytes. They are compared one byte after the other: a label
/// is short, and comparing several bytes at once takes more code.
fn comes_before(text: &[u8], other: &[u8]) -> bool
    ensures { result ≡ is_lt (slice_cmp nat_cmp text.now other.now) }
{
    'bytes: for i in 0..text.len().min(other.len()) {
        if text[i] != other[i] {
            return text[i] < other[i];
        }
    }
    text.len() < other.len()
}

/// A label of a map: an integer or a text string. Labels are equal by value, however they are encoded.
#[derive(Clone, Copy, Debug, PartialEq, Eq)]
pub enum Label<'a> {
    /// An integer.
    Int(i128),
    /// A text string.
    Text(&'a str),
}

impl<'a> Label<'a> {
    /// The label that an item is, if it is an integer, or a text string that is UTF-8.
    #[inline(always)]
    #[tactic(auto, using(crate::proofs::lemmas::Label::integer_label, crate::proofs::lemmas::Label::text_label, crate::proofs::lemmas::Label::no_label))]
    pub fn of(item: &ItemRef<'a>) -> Option<Label<'a>>
        ensures { option_map label_value result ≡ label_of (placed item.now) }
    {
        if let Some(number) = item.as_int() {
            return Some(Label::Int(number));
        }
        item.as_text().map(Label::Text)
    }

    /// Whether two labels are equal by value.
    pub fn is_same(&self, other: &Label<'_>) -> bool
        ensures { result ≡ same_label (label_value self.now) (label_value other.now) }
    {
        match (self, other) {
            (Label::Int(number), Label::Int(other)) => number == other,
            (Label::Text(text), Label::Text(other)) => {
                same_bytes(text.as_bytes(), other.as_bytes())
            }
            (Label::Int(_), Label::Text(_)) | (Label::Text(_), Label::Int(_)) => false,
        }
    }

    /// The rank of the label among those of other lengths.
    fn rank(&self) -> u128
        ensures { result ≡ order.rank (label_value self.now) }
    {
        match self {
            Label::Int(number) => {
                if *number >= 0 {
                    return *number as u128;
                }
                (1 << 64) + (-1 - *number) as u128
            }
            Label::Text(text) => (1 << 65) + text.len() as u128,
        }
    }

    /// The text of the label, empty for an integer.
    fn text(&self) -> &str
        ensures { result.now ≡ order.text_of (label_value self.now) }
    {
        match self {
            Label::Int(_) => "",
            Label::Text(text) => text,
        }
    }

    /// Whether deterministic encoding has this label before the other (RFC 8949 section 4.2.1).
    #[inline(always)]
    pub(crate) fn precedes(&self, other: &Label<'_>) -> bool
        ensures { result ≡ order.precedes (label_value self.now) (label_value other.now) }
    {
        let rank = self.rank();
        let other_rank = other.rank();
        if rank != other_rank {
            return rank < other_rank;
        }
        comes_before(self.text().as_bytes(), other.text().as_bytes())
    }
}
