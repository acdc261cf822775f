//! A store of a payload.

ghost use Rattle.std.specs.Prelude.{◌≡◌, ◌≤◌, ◌<◌, ◌+◌, ℕ, Bool, true, false, List, [], Option, Some, IsErr, IsOk, OnErr, OnOk, length};
ghost use Rattle.cose_msg.specs.Intake.{marks};
ghost use Rattle.cose_msg.specs.Sink.{Puts};
ghost use Rattle.cose_msg.specs.Store.{room_left, unless_dropped};

use crate::sink::{Sink, SinkFault};
use arrayvec::ArrayVec;

/// Holds up to `L` bytes. A piece that doesn't fit fails, and so does each after it; neither is kept. After a refusal by
/// [`verify`](crate::verify), or a stop, it holds what came of a payload that isn't known to be authentic:
/// [`Store::clear`] drops it.
#[derive(Drop)]
pub struct Store<const L: usize> {
    failed: bool,
    /// Whether what is held was dropped, and isn't shown any more.
    dropped: bool,
    held: ArrayVec<u8, L>,
}

/// The lender of a store's bytes ([`Store::lend`]). The store keeps them, unless this is cleared.
#[derive(Drop)]
pub struct Lender<'s> {
    dropped: &'s mut bool,
}

impl Lender<'_> {
    /// Drops the bytes: the store holds nothing from then on.
    pub fn clear(self)
        ensures dropped { self.exit.0.now ≡ true }
    {
        *self.dropped = true;
    }
}

/// The bytes, or none if they are dropped.
fn shown(dropped: bool, bytes: &[u8]) -> &[u8]
    ensures { result.now ≡ unless_dropped dropped bytes.now }
{
    if dropped {
        return &[];
    }
    bytes
}

impl<const L: usize> Store<L> {
    ghost use Rattle.std.specs.Borrow.{sem};
    ghost use Rattle.cose_msg.specs.Lending.{LendsDropped};

    /// An empty store.
    pub fn new() -> Self
        ensures empty { ⟦<Store<L> as Sink>⟧.contents result ≡ Some [] }
        ensures not_failed { ⟦<Store<L> as Sink>⟧.has_failed result ≡ false }
        ensures sure { ⟦<Store<L> as Sink>⟧.sure result ≡ L }
    {
        Store {
            failed: false,
            dropped: false,
            held: ArrayVec::new(),
        }
    }

    /// Resets the store: it holds nothing and hasn't failed.
    pub fn clear(&mut self)
        ensures empty { ⟦<Store<L> as Sink>⟧.contents self.new ≡ Some [] }
        ensures not_failed { ⟦<Store<L> as Sink>⟧.has_failed self.new ≡ false }
        ensures sure { ⟦<Store<L> as Sink>⟧.sure self.new ≡ L }
    {
        self.held.clear();
        self.dropped = false;
        self.failed = false;
    }

    /// The bytes that it holds, at most `L`.
    pub fn bytes(&self) -> &[u8]
        ensures held { ⟦<Store<L> as Sink>⟧.contents self.now ≡ Some result.now }
        ensures limit { length result.now ≤ L }
        // This many bytes more are sure to fit.
        ensures sure { ⟦<Store<L> as Sink>⟧.sure self.now
            ≡ room_left L (⟦<Store<L> as Sink>⟧.has_failed self.now) (length result.now) }
    {
        shown(self.dropped, self.held.as_slice())
    }

    /// Lends the bytes that it holds, at most `L`, with their lender. A caller that refuses them clears the lender: unlike
    /// [`Store::clear`] that can be done while something borrows them.
    pub fn lend(&mut self) -> (&[u8], Lender<'_>)
        ensures* lends { sem 𝓛 (LendsDropped L.row self.entry result.1.dropped) }
        // What was dropped before stays so, whatever the lender does.
        ensures starts { result.1.dropped.now ≡ self.old.dropped }
        ensures held { ⟦<Store<L> as Sink>⟧.contents self.old ≡ Some result.0.now }
        ensures limit { length result.0.now ≤ L }
    {
        let bytes = shown(self.dropped, self.held.as_slice());
        let lender = Lender {
            dropped: &mut self.dropped,
        };
        (bytes, lender)
    }

    /// Clears what was dropped, so that all that is held is shown.
    fn forget_dropped(&mut self)
        ensures held { self.new.held.items ≡ unless_dropped self.old.dropped self.old.held.items }
        ensures kept { self.new.dropped ≡ false }
        ensures failed { self.new.failed ≡ self.old.failed }
    {
        if self.dropped {
            self.held.clear();
            self.dropped = false;
        }
    }
}

impl<const L: usize> Sink for Store<L> {
    ghost contents = { λ store. Some (unless_dropped store.dropped store.held.items) };

    ghost has_failed = { λ store. store.failed };

    ghost sure = { λ store. room_left L store.failed
        (length (unless_dropped store.dropped store.held.items)) };

    fn put(&mut self, piece: &[u8]) -> Result<(), SinkFault>
        requires { 0 < length piece.now }
        ensures bytes { Puts (⟦<Store<L> as Sink>⟧.contents self.old)
            (⟦<Store<L> as Sink>⟧.contents self.new) result piece.now }
        ensures failure { ⟦<Store<L> as Sink>⟧.has_failed self.new
            ≡ marks (⟦<Store<L> as Sink>⟧.has_failed self.old) result }
        ensures promised { length piece.now ≤ ⟦<Store<L> as Sink>⟧.sure self.old → IsOk result }
        ensures promise { OnOk result (⟦<Store<L> as Sink>⟧.sure self.old
            ≤ ⟦<Store<L> as Sink>⟧.sure self.new + length piece.now) }
        // A piece that fails isn't kept, and no later one ends the failure.
        ensures none_kept { OnErr result (⟦<Store<L> as Sink>⟧.contents self.new
            ≡ ⟦<Store<L> as Sink>⟧.contents self.old) }
        ensures stays_failed { ⟦<Store<L> as Sink>⟧.has_failed self.old ≡ true → IsErr result }
    {
        self.forget_dropped();
        if self.failed || self.held.try_extend_from_slice(piece).is_err() {
            self.failed = true;
            return Err(SinkFault);
        }
        Ok(())
    }
}
