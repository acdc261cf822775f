//! One data item, read a byte at a time (RFC 8949 section 3). It holds a count for each open item, and the bytes of at
//! most one head.

ghost use Rattle.std.specs.Prelude.{◌≡◌, ◌<◌, ◌≤◌, ◌+◌, ◌-◌, ◌*◌, ◌^◌, ℕ, List, [], ◌∷◌, ◌++◌, length, take, true, if◌then◌else◌, min, max, OnOk};
ghost use Rattle.cose_head.specs.HalfHead.{is_half, IsHeadAt};
ghost use Rattle.cose_head.specs.Measured.{left_of};
ghost use Rattle.cose_head.specs.Open.{open_in};
ghost use Rattle.cose_head.specs.Reading.{Left, read};
ghost use Rattle.cose_head.specs.Walking.{ends, walk, walk_all, walk_content, finish, FollowsHead};

use crate::half_head::take_head_byte;
use crate::head::Head;
use crate::reason::Reason;
use crate::refusal::Refusal;
use arrayvec::ArrayVec;

/// The answer of a [`Walker`].
#[derive(Clone, Copy, Debug, PartialEq, Eq)]
pub enum Step {
    /// The item is incomplete, and has no fault so far.
    Going,
    /// The last byte was the item's last.
    Done,
    /// The item is refused.
    Fault(Refusal),
}

/// How far the item is after a byte without a fault.
#[derive(Clone, Copy)]
enum Progress {
    Open,
    Whole,
}

/// What follows a head: nothing, the bytes of a string, or children.
#[derive(Clone, Copy)]
enum Follows {
    Nothing,
    Content(u64),
    Children(u128),
}

/// What follows this head.
fn follows_head(head: Head) -> Follows
    ensures { FollowsHead head result }
{
    match head.major {
        2 | 3 => Follows::Content(head.arg),
        4 | 5 | 6 => Follows::Children(head.child_count()),
        _ => Follows::Nothing,
    }
}

/// Where an item has ended, continues with the next child of the innermost open item that has one, and closes the open
/// items that have none. Returns whether there is such a child.
fn next_child<const D: usize>(counts: &mut ArrayVec<usize, D>) -> bool
    ensures { (l : Left) → finish D counts.old.items (ends l) ≡
        (if result then finish D counts.new.items (walk (D - length counts.new.items) l)
        else ends l) }
{
    // The length is read for its bound: at most D.
    let _open = counts.len();
    'ended: while let Some(left) = counts.pop() {
        if left > 0 {
            counts.push(left - 1);
            return true;
        }
    }
    false
}

/// One data item, walked a byte at a time: at most `D` arrays, maps and tags are open at once.
///
/// The contracts of its methods rest on the relation `HasPut` (specs/Walker.antt), which says that the walker was put
/// these bytes and is `Going`. Only [`Walker::new`], [`Walker::put`] and [`Walker::pass`] ensure it.
#[derive(Drop)]
pub struct Walker<const D: usize> {
    /// The bytes so far of a head that is incomplete.
    half: ArrayVec<u8, 9>,
    /// The number of bytes of the open string that weren't put yet.
    string: usize,
    /// How many bytes may be used from `place` on.
    room: usize,
    /// The number of bytes before the head, or before the rest of the string.
    place: usize,
    /// The last answer.
    step: Step,
    /// For each open array, map and tag, the outermost first, how many of its children haven't begun.
    counts: ArrayVec<usize, D>,
    ghost begun: { is_half half.items ≡ true },
    ghost one_part: { 0 < string → length half.items ≡ 0 },
    ghost fits: { length half.items + string ≤ room },
    ghost room_fits: { place + room < 2 ^ 64 },
}

impl<const D: usize> Walker<D> {
    ghost use Rattle.cose_head.specs.Walker.{last_step, step_after, open_now, left_at, resume, go_on, HasPut, Answers, IsAmong, Leads, Passes, IsAt};

    /// A walker of an item that may use `room` bytes.
    pub fn new(room: usize) -> Self
        ensures put { HasPut room [] result }
        ensures step { last_step result ≡ Step.Going }
        ensures open { open_now result ≡ 0 }
    {
        Walker {
            half: ArrayVec::new(),
            string: 0,
            room,
            place: 0,
            step: Step::Going,
            counts: ArrayVec::new(),
        }
    }

    /// How many arrays, maps and tags are open: their head was put, and their end wasn't.
    pub fn open_items(&self) -> usize
        ensures value { result ≡ open_now self.now }
        ensures limit { result ≤ D }
        ensures open { (room : ℕ) (bytes : List ℕ) → HasPut room bytes self.now
            → result ≡ (open_in D (left_of bytes room 0)).items }
        ensures settled { (last_step self.now ≡ Step.Going → ⊥) → result ≡ 0 }
    {
        match self.step {
            Step::Going => self.counts.len(),
            Step::Done | Step::Fault(_) => 0,
        }
    }

    /// The number of bytes left of the open string, 1 where none is open, and 0 once the item is complete or refused.
    pub fn want(&self) -> usize
        ensures content { (room : ℕ) (bytes : List ℕ) → HasPut room bytes self.now
            → result ≡ max 1 (open_in D (left_of bytes room 0)).content }
        // Fewer bytes than that neither end the item nor refuse it.
        ensures early { (room : ℕ) (bytes more : List ℕ) → HasPut room bytes self.now
            → 0 < room → length more < result
            → Answers room (bytes ++ more) Step.Going (read D (left_of (bytes ++ more) room 0)) }
        ensures fits { (room : ℕ) (bytes : List ℕ) → HasPut room bytes self.now
            → 0 < room → length bytes + result ≤ room }
        ensures some { last_step self.now ≡ Step.Going → 0 < result }
        ensures settled { (last_step self.now ≡ Step.Going → ⊥) → result ≡ 0 }
    {
        match self.step {
            Step::Going => {
                if self.string > 0 {
                    return self.string;
                }
                1
            }
            Step::Done | Step::Fault(_) => 0,
        }
    }

    /// The last answer.
    pub fn step(&self) -> Step
        ensures { result ≡ last_step self.now }
    {
        self.step
    }

    /// Takes the next byte of the item.
    ///
    /// The answer is that of reading all bytes that were put. Once the item is complete or refused, the answer stays
    /// the same, and nothing changes.
    pub fn put(&mut self, byte: u8) -> Step
        ensures answer { (room : ℕ) (bytes : List ℕ) → HasPut room bytes self.old
            → Answers room (bytes ++ byte ∷ []) result
            (read D (left_of (bytes ++ byte ∷ []) room 0)) }
        ensures put { (room : ℕ) (bytes : List ℕ) → HasPut room bytes self.old
            → result ≡ Step.Going → HasPut room (bytes ++ byte ∷ []) self.new }
        ensures among { (room : ℕ) (bytes : List ℕ) → HasPut room bytes self.old
            → IsAmong room (bytes ++ byte ∷ []) result }
        ensures step { last_step self.new ≡ result }
        ensures kept { (last_step self.old ≡ Step.Going → ⊥) → self.new ≡ self.old }
    {
        match self.step {
            Step::Going => {
                let progress = self.advance(byte);
                self.step = self.step_after(progress);
                self.step
            }
            Step::Done | Step::Fault(_) => self.step,
        }
    }

    /// Takes the next bytes of the open string, and returns how many: as many as it has left, or the whole piece. Where
    /// no string is open it takes none.
    ///
    /// It has the same effect as [`put`](Walker::put) of each of them in turn. [`Walker::step`] is the answer to the
    /// last of them.
    pub fn pass(&mut self, piece: &[u8]) -> usize
        ensures used { (room : ℕ) (bytes : List ℕ) → HasPut room bytes self.old
            → result ≡ min (open_in D (left_of bytes room 0)).content (length piece.now) }
        ensures fits { result ≤ length piece.now }
        ensures answer { (room : ℕ) (bytes : List ℕ) → HasPut room bytes self.old → 0 < result
            → Answers room (bytes ++ take result piece.now) (last_step self.new)
            (read D (left_of (bytes ++ take result piece.now) room 0)) }
        ensures put { (room : ℕ) (bytes : List ℕ) → HasPut room bytes self.old
            → last_step self.new ≡ Step.Going
            → HasPut room (bytes ++ take result piece.now) self.new }
        ensures among { (room : ℕ) (bytes : List ℕ) → HasPut room bytes self.old → 0 < result
            → IsAmong room (bytes ++ take result piece.now) (last_step self.new) }
        ensures none { result ≡ 0 → self.new ≡ self.old }
        ensures kept { (last_step self.old ≡ Step.Going → ⊥) → result ≡ 0 }
    {
        match self.step {
            Step::Going => {
                let count = self.string.min(piece.len());
                if count > 0 {
                    let progress = self.advance_content(count);
                    self.step = self.step_after(progress);
                }
                count
            }
            Step::Done | Step::Fault(_) => 0,
        }
    }

    /// The answer to a byte with this progress.
    fn step_after(&self, progress: Result<Progress, Reason>) -> Step
        ensures { result ≡ step_after progress self.now.place }
    {
        match progress {
            Ok(Progress::Open) => Step::Going,
            Ok(Progress::Whole) => Step::Done,
            Err(reason) => Step::Fault(Refusal {
                reason,
                place: self.place as u64,
            }),
        }
    }

    /// Takes a byte of the open string or of the head.
    fn advance(&mut self, byte: u8) -> Result<Progress, Reason>
        ensures leads { Leads (λ bytes. resume self.old (byte ∷ bytes)) result self.new }
        ensures taken { OnOk result (self.new.place + length self.new.half.items
            ≡ self.old.place + length self.old.half.items + 1) }
        ensures left { OnOk result (self.new.place + self.new.room
            ≡ self.old.place + self.old.room) }
        ensures among { self.new.place ≤ self.old.place + length self.old.half.items + 1 }
    {
        if self.string > 0 {
            return self.advance_content(1);
        }
        match take_head_byte(&mut self.half, byte, self.room)? {
            Some(head) => self.begin(head),
            None => Ok(Progress::Open),
        }
    }

    /// Takes `count` bytes of the open string.
    fn advance_content(&mut self, count: usize) -> Result<Progress, Reason>
        requires some { 0 < count }
        requires fits { count ≤ self.old.string }
        ensures leads { (piece : List ℕ) → length piece ≡ count
            → Leads (λ bytes. resume self.old (piece ++ bytes)) result self.new }
        ensures is_at { IsAt (self.old.room - count) (self.old.place + count) self.new }
    {
        self.string -= count;
        self.pass_over(count);
        if self.string > 0 {
            return Ok(Progress::Open);
        }
        self.end_item()
    }

    /// Begins the item of a complete head.
    fn begin(&mut self, head: Head) -> Result<Progress, Reason>
        requires string { self.old.string ≡ 0 }
        requires half { length self.old.half.items ≡ 0 }
        requires fits { head.width ≤ self.old.room }
        ensures leads { (first : List ℕ) → IsHeadAt first self.old.room self.old.place head
            → Leads (λ bytes. go_on D self.old.counts.items first 0 (left_at self.old bytes)) result
            self.new }
        ensures is_at { OnOk result
            (IsAt (self.old.room - head.width) (self.old.place + head.width) self.new) }
        ensures among { self.new.place ≤ self.old.place + head.width }
    {
        let width = usize::from(head.width);
        let room = self.room - width;
        match follows_head(head) {
            Follows::Nothing => {
                self.pass_over(width);
                self.end_item()
            }
            Follows::Content(length) => {
                if length > room as u64 {
                    return Err(Reason::PastRoom);
                }
                self.pass_over(width);
                self.begin_content(length as usize)
            }
            Follows::Children(count) => {
                if self.counts.is_full() {
                    return Err(Reason::TooDeep);
                }
                if count > room as u128 {
                    return Err(Reason::PastRoom);
                }
                self.pass_over(width);
                self.begin_children(count as usize)
            }
        }
    }

    /// Begins a string.
    fn begin_content(&mut self, count: usize) -> Result<Progress, Reason>
        requires string { self.old.string ≡ 0 }
        requires half { length self.old.half.items ≡ 0 }
        requires fits { count ≤ self.old.room }
        ensures leads { Leads (λ bytes. finish D self.old.counts.items
            (walk_content count (left_at self.old bytes))) result self.new }
        ensures is_at { IsAt self.old.room self.old.place self.new }
    {
        if count == 0 {
            return self.end_item();
        }
        self.string = count;
        Ok(Progress::Open)
    }

    /// Begins the children of an array, a map or a tag.
    fn begin_children(&mut self, count: usize) -> Result<Progress, Reason>
        requires string { self.old.string ≡ 0 }
        requires half { length self.old.half.items ≡ 0 }
        requires nesting { length self.old.counts.items < D }
        ensures leads { let inner = D - length self.old.counts.items - 1 in
            Leads (λ bytes. finish D self.old.counts.items
            (walk_all inner count (left_at self.old bytes))) result self.new }
        ensures is_at { IsAt self.old.room self.old.place self.new }
    {
        self.counts.push(count);
        self.end_item()
    }

    /// Ends an item, or the head of an array, a map or a tag.
    fn end_item(&mut self) -> Result<Progress, Reason>
        requires string { self.old.string ≡ 0 }
        requires half { length self.old.half.items ≡ 0 }
        ensures leads { Leads (λ bytes. finish D self.old.counts.items
            (ends (left_at self.old bytes))) result self.new }
        ensures is_at { IsAt self.old.room self.old.place self.new }
    {
        if !next_child(&mut self.counts) {
            return Ok(Progress::Whole);
        }
        if self.room > 0 {
            return Ok(Progress::Open);
        }
        Err(Reason::PastRoom)
    }

    /// Counts bytes that were used.
    fn pass_over(&mut self, count: usize)
        requires { length self.old.half.items + self.old.string + count ≤ self.old.room }
        ensures { Passes self.old self.new count }
    {
        self.room -= count;
        self.place += count;
    }
}
