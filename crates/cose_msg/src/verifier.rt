//! A verifier of one message, changed in place: a reader of the message, the keys, and what is counted and kept.
//!
//! A verifier that each step consumed and gave back would move its stores at each byte, and the C compiler does not end on stores of
//! some thousand bytes.

ghost use Rattle.std.specs.Prelude.{◌≡◌, ◌≤◌, ◌+◌, ◌*◌};
ghost use Rattle.cose_msg.specs.Reader.{IsUntouched, held_by, opened_by};

use crate::context::{Context, Terms};
use crate::reader::Reader;
use cose_map::{KeySet, Keys};

mod decide;
mod detached;
mod elsewhere;
mod feed;
mod getters;
mod naming;

/// A verifier of one message at a time, of header buckets of at most `H` bytes each, nested at most `D` deep, under
/// keys of the type `S`.
#[derive(Drop)]
pub struct Verifier<'k, const H: usize, const D: usize, S: Keys<'k> = KeySet<'k>> {
    taken: u64,
    stopped: bool,
    inspecting: bool,
    /// Whether an inspection is one whose message is authenticated elsewhere.
    elsewhere: bool,
    /// The number of bytes of a detached payload; none where the message has its payload.
    detached_length: Option<u64>,
    pub(crate) reader: Reader<'k, H, D>,
    keys: S,
    // (The meaning of the keys belongs to the type of a verifier in a contract, since a field of it names them.)
    ghost keys_known: { S.usable keys ≡ S.usable keys },
    ghost untouched: { taken ≡ 0 → IsUntouched reader },
    // What it holds of the message is within a bound, and so is what is open of it.
    pub ghost held: { held_by reader ≤ 2 * H + 512 },
    pub ghost opened: { opened_by reader ≤ D },
}

impl<'k, const H: usize, const D: usize, S: Keys<'k>> Verifier<'k, H, D, S> {
    ghost use Rattle.std.specs.Prelude.{[], length, true, false, None, Some, Ok};
    ghost use Rattle.cose_head.specs.declared.reason.Reason.{Reason};
    ghost use Rattle.cose_msg.specs.declared.verdict.Verdict.{Verdict};
    ghost use Rattle.cose_msg.specs.Kept.{HasTaken, KeepsNoKey, bytes_taken, is_inspecting, kept_answer};
    ghost use Rattle.cose_msg.specs.Shown.{ShowsReading, held};
    ghost use Rattle.cose_msg.specs.declared.status.Status.{Status};
    ghost use Rattle.cose_msg.specs.Status.{status_in};
    ghost use Rattle.cose_msg.specs.Task.{to_inspect, to_verify};
    ghost use Rattle.cose_msg.specs.Verifier.{attaching, detaching, is_detached, is_elsewhere, placed, setting_in, setting_of, task_of};

    /// A verifier for any purpose, of a message that has its payload, or of one with a detached payload of this length.
    fn made(
        context: Context<'k, S>,
        inspecting: bool,
        elsewhere: bool,
        detached_length: Option<u64>,
    ) -> Self
        requires some_room { 16 ≤ H }
        requires limit { H ≤ 65535 }
        requires nesting { D ≤ 32 }
        ensures none_taken { HasTaken
            (record {
              setting = placed elsewhere detached_length (setting_of S.usable context.entry);
              inspects = inspecting;
            })
            [] [] result }
        ensures shows { ShowsReading
            (record {
              setting = placed elsewhere detached_length (setting_of S.usable context.entry);
              inspects = inspecting;
            })
            [] result }
        ensures status { status_in result ≡ Status.More }
        ensures held { held result ≡ 256 }
        ensures context { setting_in result
            ≡ placed elsewhere detached_length (setting_of S.usable context.entry) }
        ensures inspects { is_inspecting result ≡ inspecting }
    {
        let Context {
            keys,
            aad,
            wanted,
            cwt,
            understood,
            payload_limit,
        } = context;
        Verifier {
            taken: 0,
            stopped: false,
            inspecting,
            elsewhere,
            detached_length,
            reader: Reader::new(Terms {
                aad,
                wanted,
                cwt,
                understood,
                payload_limit,
            }),
            keys,
        }
    }

    /// A verifier of a message in this context.
    pub fn new(context: Context<'k, S>) -> Self
        requires some_room { 16 ≤ H }
        requires limit { H ≤ 65535 }
        requires nesting { D ≤ 32 }
        requires external { length context.aad.now ≤ 65535 }
        ensures none_taken { HasTaken (to_verify (setting_of S.usable context.entry)) [] [] result }
        ensures shows { ShowsReading (to_verify (setting_of S.usable context.entry)) [] result }
        ensures status { status_in result ≡ Status.More }
        ensures held { held result ≡ 256 }
        ensures context { setting_in result ≡ setting_of S.usable context.entry }
        ensures inspects { is_inspecting result ≡ false }
        ensures attached { is_detached result ≡ false }
    {
        Self::made(context, false, false, None)
    }

    /// A verifier of a message that is only inspected in this context: its keys are not looked at, and nothing is authenticated.
    pub fn inspecting(context: Context<'k, S>) -> Self
        requires some_room { 16 ≤ H }
        requires limit { H ≤ 65535 }
        requires nesting { D ≤ 32 }
        requires external { length context.aad.now ≤ 65535 }
        ensures none_taken { HasTaken (to_inspect (setting_of S.usable context.entry)) [] []
            result }
        ensures shows { ShowsReading (to_inspect (setting_of S.usable context.entry)) [] result }
        ensures status { status_in result ≡ Status.More }
        ensures held { held result ≡ 256 }
        ensures context { setting_in result ≡ setting_of S.usable context.entry }
        ensures inspects { is_inspecting result ≡ true }
        ensures attached { is_detached result ≡ false }
    {
        Self::made(context, true, false, None)
    }

    /// A verifier of a message in this context whose payload is detached (RFC 9052 sections 4.2 and 6.2): the message has nil
    /// in its place, and the payload has `payload_length` bytes, which are passed to [`Verifier::feed_payload`]. A message that
    /// has its payload is refused as Attached.
    pub fn detached(context: Context<'k, S>, payload_length: u64) -> Self
        requires some_room { 16 ≤ H }
        requires limit { H ≤ 65535 }
        requires nesting { D ≤ 32 }
        requires external { length context.aad.now ≤ 65535 }
        ensures none_taken { HasTaken
            (to_verify (detaching payload_length (setting_of S.usable context.entry))) [] []
            result }
        ensures shows { ShowsReading
            (to_verify (detaching payload_length (setting_of S.usable context.entry))) [] result }
        ensures status { status_in result ≡ Status.More }
        ensures held { held result ≡ 256 }
        ensures context { setting_in result
            ≡ detaching payload_length (setting_of S.usable context.entry) }
        ensures inspects { is_inspecting result ≡ false }
        ensures detached { is_detached result ≡ true }
    {
        Self::made(context, false, false, Some(payload_length))
    }

    /// Whether it compares nothing: it was made for inspecting alone, or for a message that is authenticated elsewhere.
    pub fn is_inspecting(&self) -> bool
        ensures { result ≡ is_inspecting self.now }
    {
        self.inspecting
    }

    /// Whether it was made for a detached payload.
    pub fn is_detached(&self) -> bool
        ensures { result ≡ is_detached self.now }
    {
        self.detached_length.is_some()
    }

    /// Resets the verifier, in the same context and for the same purpose.
    pub fn reset(&mut self)
        ensures none_taken { HasTaken (task_of self.old) [] [] self.new }
        ensures shows { ShowsReading (task_of self.old) [] self.new }
        ensures status { status_in self.new ≡ Status.More }
        ensures held { held self.new ≡ 256 }
        ensures keyless { KeepsNoKey self.new }
        ensures purpose { task_of self.new ≡ task_of self.old }
    {
        self.reader.reset();
        self.taken = 0;
        self.stopped = false;
    }

    /// What the message is verified under. The keys are borrowed. (The length of a detached payload is no part of it.)
    pub fn context(&self) -> Context<'k, &S>
        ensures { setting_of (λ keys. S.usable keys.now) result ≡ attaching (setting_in self.now) }
    {
        let Terms {
            aad,
            wanted,
            cwt,
            understood,
            payload_limit,
        } = self.reader.terms;
        Context {
            keys: &self.keys,
            aad,
            wanted,
            cwt,
            understood,
            payload_limit,
        }
    }

    /// The number of bytes of the message that were taken.
    pub fn taken(&self) -> u64
        ensures value { result ≡ bytes_taken self.now }
        // Where none were, the verifier is as it was made, or it has stopped, or the end of the message was reported
        // there.
        ensures anew { result ≡ 0 → kept_answer self.now ≡ None
            → HasTaken (task_of self.now) [] [] self.now }
        ensures kept { (verdict : Verdict) → result ≡ 0 → kept_answer self.now ≡ Some (Ok verdict)
            → verdict ≡ Verdict.Refused (record { reason = Reason.Truncated; place = 0 }) }
    {
        self.taken
    }
}
