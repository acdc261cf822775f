//! Items that bytes begin with: read, and walked a byte at a time and in pieces.

ghost use Rattle.std.specs.Prelude.{◌≤◌, length};

use crate::expected::Refused;
use crate::fields::{Difference, Way, bytes, holds, integer, is_verdict, object, optional_integer};
use cose_head::{Reason, Refusal, Span, Step, Walker, read_item};
use serde_json::Value;
use std::alloc::Global;

/// Bytes that begin with an item, and what reading them gives.
#[derive(Clone, Copy)]
pub struct Walk<'w> {
    /// The bytes.
    pub item: &'w [u8],
    /// How many bytes the item may have.
    pub room: usize,
    /// What reading gives.
    pub read: Result<Span, Refusal>,
    /// After how many of the bytes a walker is `Going`, where a test says it.
    pub going: Option<u64>,
}

/// What a walker answers to bytes that are read so.
fn step_of(read: Result<Span, Refusal>) -> Step {
    match read {
        Ok(_) => Step::Done,
        Err(refusal) => {
            if refusal.reason == Reason::Truncated {
                return Step::Going;
            }
            Step::Fault(refusal)
        }
    }
}

/// Puts the bytes one by one, and counts those after which the answer is `Going`.
fn put_all<const D: usize>(walker: &mut Walker<D>, item: &[u8]) -> u64 {
    let mut going: u64 = 0;
    for byte in item {
        if walker.put(*byte) == Step::Going {
            going = going.saturating_add(1);
        }
    }
    going
}

/// Passes bytes of an open string, or puts one byte, and returns how many were taken.
fn take_some<const D: usize>(walker: &mut Walker<D>, piece: &[u8]) -> usize
    ensures { result ≤ length piece.now }
{
    let used = walker.pass(piece);
    if used > 0 {
        return used;
    }
    match piece.first() {
        Some(byte) => {
            let _step = walker.put(*byte);
            1
        }
        None => 0,
    }
}

/// Takes the bytes, each string in one piece.
fn pass_all<const D: usize>(walker: &mut Walker<D>, item: &[u8]) {
    let mut rest = item;
    for _byte in item {
        let used = take_some(walker, rest);
        let (_taken, after) = rest.split_at(used);
        rest = after;
    }
}

impl Walk<'_> {
    /// Whether a walker of this nesting that gets the bytes one by one answers as reading does.
    fn is_put<const D: usize>(&self) -> bool
        requires { D ≤ 32 }
    {
        let mut walker: Walker<D> = Walker::new(self.room);
        let going = put_all(&mut walker, self.item);
        let is_going = self.going.unwrap_or(going) == going;
        is_going && walker.step() == step_of(self.read)
    }

    /// Whether a walker of this nesting that gets each string in one piece answers as reading does.
    fn is_passed<const D: usize>(&self) -> bool
        requires { D ≤ 32 }
    {
        let mut walker: Walker<D> = Walker::new(self.room);
        pass_all(&mut walker, self.item);
        walker.step() == step_of(self.read)
    }

    /// Whether walkers of this nesting answer as reading does.
    fn is_walked<const D: usize>(&self) -> Result<(), Difference>
        requires { D ≤ 32 }
    {
        holds(self.is_put::<D>() && self.is_passed::<D>(), Way::Feed)
    }

    /// Whether walkers of this nesting answer as reading does. No byte is put where there is none, and so no answer given.
    pub fn run(&self, nesting: usize) -> Result<(), Difference> {
        if self.item.is_empty() {
            return Ok(());
        }
        match nesting {
            0 => self.is_walked::<0>(),
            1 => self.is_walked::<1>(),
            2 => self.is_walked::<2>(),
            3 => self.is_walked::<3>(),
            32 => self.is_walked::<32>(),
            _ => Err(Difference::Setting),
        }
    }
}

/// How deep an item may nest, at most 32.
pub fn nesting_of(row: &Value) -> usize
    ensures { result ≤ 32 }
{
    integer(row, "nesting").min(32) as usize
}

/// Whether a refusal is the expected result.
pub fn is_refused(row: &Value, refusal: Refusal) -> bool {
    is_verdict(row, "refused") && Refused::read(row).is(refusal)
}

/// Whether the length and the depth of an item are the expected ones.
fn is_span(row: &Value, span: Span) -> bool {
    Some(span.length as u64) == optional_integer(row, "length")
        && Some(span.depth as u64) == optional_integer(row, "depth")
}

/// Whether the reading of an item is the expected one.
fn is_read(row: &Value, read: Result<Span, Refusal>) -> bool {
    match read {
        Ok(span) => is_verdict(row, "item") && is_span(row, span),
        Err(refusal) => is_refused(row, refusal),
    }
}

/// After how many of the bytes a walker is `Going`: of an item after all but the last.
fn going_of(row: &Value) -> Option<u64> {
    match optional_integer(row, "length") {
        Some(length) => length.checked_sub(1),
        None => optional_integer(row, "going"),
    }
}

/// Runs a test.
pub fn run_test(alloc: Global, test: &Value) -> Result<(), Difference> {
    let item = bytes(alloc, test, "item");
    let room = integer(test, "room") as usize;
    let nesting = nesting_of(test);
    let result = object(test, "result");
    let read = read_item(item.as_slice(), room, nesting);
    holds(is_read(result, read), Way::Slice)?;
    let walk = Walk {
        item: item.as_slice(),
        room,
        read,
        going: going_of(result),
    };
    walk.run(nesting)
}
