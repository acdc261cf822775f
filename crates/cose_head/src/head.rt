//! Heads of data items (RFC 8949 section 3): the major type, the argument, and the bytes that spell them.

ghost use Rattle.std.specs.Prelude.{◌≡◌, ◌<◌, ◌≤◌, ◌+◌, ℕ, List, [], ◌∷◌, ◌++◌, length};
ghost use Rattle.cose_head.specs.Head.{bare_head, shortest_head, low_fault, argument_length, argument_of, IsMore, IsWhole, IfMore, IfGot};
ghost use Rattle.cose_head.specs.Reading.{child_count};

use crate::reason::Reason;
use arrayvec::ArrayVec;

/// The head of a data item (RFC 8949 section 3).
#[derive(Clone, Copy, Debug, PartialEq, Eq)]
pub struct Head {
    /// The major type, 0 to 7.
    pub major: u8,
    /// The argument. For a float, its bits.
    pub arg: u64,
    /// The number of bytes of the head: 1, 2, 3, 5 or 9. With major 7, the widths 3, 5 and 9 are floats.
    pub width: u8,
}

impl Head {
    /// The number of children that follow the head of an array, a map or a tag. A map of n pairs has 2n.
    pub(crate) fn child_count(self) -> u128
        ensures { result ≡ child_count self }
    {
        match self.major {
            4 => u128::from(self.arg),
            5 => 2 * u128::from(self.arg),
            _ => 1,
        }
    }
}

/// The result of reading the head that some bytes begin with.
#[derive(Clone, Copy, Debug, PartialEq, Eq)]
pub enum HeadStep {
    /// A head, and the number of bytes that it has.
    Got(Head, usize),
    /// The bytes end inside the head; at least this many bytes are missing.
    More(usize),
    /// No head begins with these bytes: [`Reason::Reserved`], [`Reason::Indefinite`] or [`Reason::BadSimple`].
    Fault(Reason),
}

/// The fault of the low five bits of an initial byte, if they are reserved or an indefinite length.
fn fault_of_low_bits(major: u8, low: u8) -> Option<Reason>
    ensures { result ≡ low_fault major low }
{
    if low < 28 {
        return None;
    }
    if low < 31 || major < 2 || major == 6 {
        return Some(Reason::Reserved);
    }
    Some(Reason::Indefinite)
}

/// The number of argument bytes that the low five bits of an initial byte announce.
fn length_of_argument(low: u8) -> u8
    ensures value { result ≡ argument_length low }
    ensures small { result < 9 }
{
    match low {
        0..=23 => 0,
        24 => 1,
        25 => 2,
        26 => 4,
        _ => 8,
    }
}

/// The argument of a head: the low five bits of its initial byte, or the number that its argument bytes spell.
fn argument(low: u8, bytes: &[u8]) -> u64
    requires { length bytes.now ≡ argument_length low }
    ensures { result ≡ argument_of low bytes.now }
{
    match bytes {
        [a] => u64::from(*a),
        [a, b] => u64::from(u16::from_be_bytes([*a, *b])),
        [a, b, c, d] => u64::from(u32::from_be_bytes([*a, *b, *c, *d])),
        [a, b, c, d, e, f, g, h] => u64::from_be_bytes([*a, *b, *c, *d, *e, *f, *g, *h]),
        _ => u64::from(low),
    }
}

/// The head that `bytes` begin with, of any width (RFC 8949 section 3).
///
/// `More` is 1 where there are no bytes, and else the number of argument bytes that are missing.
#[inline(always)]
#[tactic(auto, unfolding(crate::specs::Head::bare_head))]
pub fn parse_head(bytes: &[u8]) -> HeadStep
    ensures answer { result ≡ bare_head bytes.now }

    // An answer other than `More` is the same when bytes follow.
    ensures stays { IsWhole result → (more : List ℕ) → bare_head (bytes.now ++ more) ≡ result }
    // `More` asks for at least one byte, and for no more than a head has.
    ensures some_wanted { IfMore result (λ n. 0 < n) }
    ensures wanted_fits { IfMore result (λ n. length bytes.now + n ≤ 9) }
    ensures some_used { IfGot result (λ head n. 0 < n) }
    ensures used_there { IfGot result (λ head n. n ≤ length bytes.now) }
    ensures used_fits { IfGot result (λ head n. n ≤ 9) }
    // The byte that completes a head is its last.
    ensures last { (front : List ℕ) (byte : ℕ) → bytes.now ≡ front ++ byte ∷ []
        → IsMore (bare_head front)
        → IfGot result (λ head n. n ≡ length bytes.now) }
{
    let [initial, rest @ ..] = bytes else {
        return HeadStep::More(1);
    };
    let major = *initial / 32;
    let low = *initial % 32;
    if low < 24 {
        // The argument is in the initial byte, as in most heads, and none of these has a fault.
        let arg = u64::from(low);
        return HeadStep::Got(
            Head {
                major,
                arg,
                width: 1,
            },
            1,
        );
    }
    if let Some(reason) = fault_of_low_bits(major, low) {
        return HeadStep::Fault(reason);
    }
    let wanted = length_of_argument(low);
    let length = usize::from(wanted);
    if rest.len() < length {
        return HeadStep::More(length - rest.len());
    }
    let arg = argument(low, &rest[..length]);
    let width = 1 + wanted;
    if major == 7 && width == 2 && arg < 32 {
        return HeadStep::Fault(Reason::BadSimple);
    }
    HeadStep::Got(Head { major, arg, width }, 1 + length)
}

/// The shortest head of this major type and argument (RFC 8949 section 4.2.1).
#[tactic(auto, unfolding(crate::specs::Head::shortest_head))]
pub fn write_head(major: u8, arg: u64) -> ArrayVec<u8, 9>
    requires { major ≤ 6 }
    ensures { result.items ≡ shortest_head major arg }
{
    let mut head = ArrayVec::new();
    let initial = 32 * major;
    if arg < 24 {
        head.push(initial + arg as u8);
    } else if arg < 1 << 8 {
        head.push(initial + 24);
        head.push(arg as u8);
    } else if arg < 1 << 16 {
        head.push(initial + 25);
        let _ = head.try_extend_from_slice(&(arg as u16).to_be_bytes());
    } else if arg < 1 << 32 {
        head.push(initial + 26);
        let _ = head.try_extend_from_slice(&(arg as u32).to_be_bytes());
    } else {
        head.push(initial + 27);
        let _ = head.try_extend_from_slice(&arg.to_be_bytes());
    }
    head
}
