//! The bytes of a message in memory that are left to be read.

ghost use Rattle.std.specs.Prelude.{◌≡◌, ◌<◌, ◌≤◌, ◌+◌, ◌^◌, length};

use cose_head::{Head, HeadStep, Reason, Refusal, parse_head, read_item};

/// The bytes of a message that are left, and the place of the first.
#[derive(Clone, Copy)]
pub(crate) struct Rest<'m> {
    bytes: &'m [u8],
    place: u64,
    /// The place after the last byte fits in u64.
    pub ghost in_range: { place + length bytes.now < 2 ^ 64 },
}

impl<'m> Rest<'m> {
    ghost use Rattle.std.specs.Prelude.{ℕ, List, take, drop, IfOk};
    ghost use Rattle.cose_head.specs.declared.head.Head.{Head};
    ghost use Rattle.cose_msg.specs.InMemory.{answer_at, going_on, placed_from};
    ghost use Rattle.cose_msg.specs.Reading.{Findings, Next, with_head, with_item, with_string};

    /// All bytes of a message.
    pub(crate) fn of(message: &'m [u8]) -> Self
        ensures bytes { result.bytes.now ≡ message.now }
        ensures place { result.place ≡ 0 }
    {
        Rest {
            bytes: message,
            place: 0,
        }
    }

    /// The place of the next byte.
    pub(crate) fn place(&self) -> u64
        ensures { result ≡ self.now.place }
    {
        self.place
    }

    /// The place after the last byte.
    fn end(&self) -> u64
        ensures { result ≡ self.now.place + length self.now.bytes.now }
    {
        self.place + self.bytes.len() as u64
    }

    /// The next `count` bytes.
    fn take(&mut self, count: usize) -> &'m [u8]
        requires there { count ≤ length self.old.bytes.now }
        ensures taken { result.now ≡ take count self.old.bytes.now }
        ensures left { self.new.bytes.now ≡ drop count self.old.bytes.now }
        ensures counted { self.new.place ≡ self.old.place + count }
    {
        let (taken, left) = self.bytes.split_at(count);
        self.bytes = left;
        self.place += count as u64;
        taken
    }

    /// A refusal of the item that begins here, with its place in the message.
    fn placed(&self, refusal: Refusal) -> Refusal
        requires there { refusal.place ≤ length self.now.bytes.now }
        ensures { result ≡ placed_from self.now refusal }
    {
        let place = match refusal.reason {
            Reason::Truncated => self.end(),
            _ => self.place + refusal.place,
        };
        Refusal {
            reason: refusal.reason,
            place,
        }
    }

    /// The next head, outside an item.
    pub(crate) fn head(&mut self) -> Result<Head, Refusal>
        ensures { (so_far : Findings) (next : Next Head)
            → answer_at (with_head so_far next) self.old
            ≡ going_on result (λ head. answer_at (next self.old.place head) self.new) }
    {
        match parse_head(self.bytes) {
            HeadStep::Got(head, used) => {
                self.take(used);
                Ok(head)
            }
            HeadStep::More(_) => Err(Refusal {
                reason: Reason::Truncated,
                place: self.end(),
            }),
            HeadStep::Fault(reason) => Err(Refusal {
                reason,
                place: self.place,
            }),
        }
    }

    /// The next `count` bytes, the content of a string.
    pub(crate) fn string(&mut self, count: u64) -> Result<&'m [u8], Refusal>
        ensures reads { (so_far : List ℕ → Findings) (next : Next (List ℕ))
            → answer_at (with_string so_far count next) self.old
            ≡ going_on result (λ content. answer_at (next self.old.place content.now) self.new) }
        ensures in_range { IfOk result (λ content. self.old.place + length content.now < 2 ^ 64) }
    {
        if (self.bytes.len() as u64) < count {
            return Err(Refusal {
                reason: Reason::Truncated,
                place: self.end(),
            });
        }
        Ok(self.take(count as usize))
    }

    /// The next item, of at most `room` bytes and of a nesting of at most `depth`.
    pub(crate) fn item(&mut self, room: usize, depth: usize) -> Result<&'m [u8], Refusal>
        requires shallow { depth ≤ 32 }
        ensures reads { (so_far : ℕ → Findings) (next : Next (List ℕ))
            → answer_at (with_item so_far room depth next) self.old
            ≡ going_on result (λ content. answer_at (next self.old.place content.now) self.new) }
        ensures in_range { IfOk result (λ content. self.old.place + length content.now < 2 ^ 64) }
    {
        match read_item(self.bytes, room, depth) {
            Ok(span) => Ok(self.take(span.length)),
            Err(refusal) => Err(self.placed(refusal)),
        }
    }
}
