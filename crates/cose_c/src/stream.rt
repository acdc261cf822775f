//! A verifier in a block, which is fed: for blocks of any size. A block that isn't opened answers [`CLOSED`](crate::numbers::CLOSED).

ghost use Rattle.std.specs.Prelude.{◌≡◌, ◌≤◌, IfOk, ◌+◌, ◌*◌, ℕ, true, false, List, [], ◌++◌, Some, Ok, length, min, take};
ghost use Rattle.cose_msg.specs.declared.verdict.Verdict.{Verdict};
ghost use Rattle.cose_msg.specs.Answer.{decided};
ghost use Rattle.cose_msg.specs.Feed.{Uses};
ghost use Rattle.cose_msg.specs.Message.{Setting, verdict_of};
ghost use Rattle.cose_msg.specs.Shown.{sign_input_for};
ghost use Rattle.cose_msg.specs.Status.{is_complete, status_of_answer};
ghost use Rattle.cose_msg.specs.Task.{asks, Task, given_to, rules_of, to_verify};
ghost use Rattle.cose_c.specs.Deciding.{deciding};
ghost use Rattle.cose_c.specs.Input.{GivesAll, has_point};
ghost use Rattle.cose_c.specs.Numbers.{always_authentic, no_message, verdict_numbers};
ghost use Rattle.cose_c.specs.Stream.{HasRead, IsAnew, IsOpened, Keeps, answer_kept_by, block_status, detached_given, following, has_verdict, held_by, is_decidable, nothing_fed, opening_status, payload_fed, payload_wanted_by, reading_of, says_good, signed_by, status_after, status_numbers, taken_by, task_by, wanted_by, wants_any, wants_more};
ghost use Rattle.cose_c.specs.Terms.{settings_by};

mod device;
mod large;
mod small;

use crate::deciding::Decided;
use crate::input::{CoseSignInput, give_input};
use crate::numbers::{
    AUTHENTIC, CLOSED, COMPLETE, CoseStatus, CoseVerdict, MORE, PAYLOAD_NEXT, REFUSED, STOPPED,
    accepted, no_message, plain_status, refused_status,
};
use cose_msg::laws::settled_stays;
use cose_msg::{Context, Fed, Keys, Status, Verdict, Verifier};

/// What was used of a piece.
#[repr(C)]
#[derive(Clone, Copy)]
pub struct CoseFed {
    /// The status of the message.
    pub status: CoseStatus,
    /// How many bytes of the piece were used, from its first one on.
    pub used: u64,
    /// Where the payload's bytes begin in the piece.
    pub payload_at: u64,
    /// How many of them there are.
    pub payload_length: u64,
}

/// The numbers of a status.
pub(crate) fn status_numbers(status: Status) -> CoseStatus
    ensures { result ≡ status_numbers status }
{
    match status {
        Status::More => plain_status(MORE),
        Status::PayloadNext => plain_status(PAYLOAD_NEXT),
        Status::Refused(refusal) => refused_status(REFUSED, refusal),
        Status::Complete => plain_status(COMPLETE),
        Status::Stopped => plain_status(STOPPED),
    }
}

/// The numbers of a piece that was fed.
fn fed_numbers(fed: Fed) -> CoseFed
    requires { fed.payload_from ≤ fed.payload_to }
    ensures status { result.status ≡ status_numbers fed.status }
    ensures used { result.used ≡ fed.used }
    ensures from { result.payload_at ≡ fed.payload_from }
    ensures to { result.payload_at + result.payload_length ≡ fed.payload_to }
{
    CoseFed {
        status: status_numbers(fed.status),
        used: fed.used as u64,
        payload_at: fed.payload_from as u64,
        payload_length: (fed.payload_to - fed.payload_from) as u64,
    }
}

/// The numbers of a piece of which nothing was used.
fn nothing_fed(status: CoseStatus) -> CoseFed
    ensures { result ≡ nothing_fed status }
{
    CoseFed {
        status,
        used: 0,
        payload_at: 0,
        payload_length: 0,
    }
}

/// The number of the message after that of this number.
pub(crate) fn following(message: u64) -> u64
    ensures { result ≡ following message }
{
    if message == u64::MAX {
        return 0;
    }
    message + 1
}

/// Gives a block its verifier. Where that is refused, the block isn't opened, whatever it was before.
pub(crate) fn open<'k, const H: usize, const D: usize, K: Keys<'k> + Drop>(
    content: &mut Option<Verifier<'k, H, D, K>>,
    context: Result<Context<'k, K>, CoseStatus>,
) -> CoseStatus
    requires some_room { 16 ≤ H }
    requires limit { H ≤ 65535 }
    requires nesting { D ≤ 32 }
    requires external { IfOk context (λ given. length given.aad.now ≤ 65535) }
    ensures status { result ≡ opening_status (settings_by K.usable context.entry) }
    ensures opened { IsOpened (settings_by K.usable context.entry) content.new }
{
    match context {
        Ok(context) => {
            *content = Some(Verifier::new(context));
            plain_status(MORE)
        }
        Err(status) => {
            *content = None;
            status
        }
    }
}

/// The same for messages whose payload is detached, and has so many bytes.
pub(crate) fn open_detached<'k, const H: usize, const D: usize, K: Keys<'k> + Drop>(
    content: &mut Option<Verifier<'k, H, D, K>>,
    context: Result<Context<'k, K>, CoseStatus>,
    payload_length: u64,
) -> CoseStatus
    requires some_room { 16 ≤ H }
    requires limit { H ≤ 65535 }
    requires nesting { D ≤ 32 }
    requires external { IfOk context (λ given. length given.aad.now ≤ 65535) }
    ensures status { result ≡ opening_status (settings_by K.usable context.entry) }
    ensures opened { IsOpened (detached_given payload_length (settings_by K.usable context.entry))
        content.new }
{
    match context {
        Ok(context) => {
            *content = Some(Verifier::detached(context, payload_length));
            plain_status(MORE)
        }
        Err(status) => {
            *content = None;
            status
        }
    }
}

/// Takes the next bytes of the message.
pub(crate) fn feed<'k, const H: usize, const D: usize, K: Keys<'k>>(
    content: &mut Option<Verifier<'k, H, D, K>>,
    piece: &[u8],
) -> CoseFed
    ensures uses { (task : Task) (taken payload : List ℕ) → HasRead task taken payload content.old
        → Uses (rules_of H D task) taken piece.now result.used }
    ensures reads { (task : Task) (taken payload : List ℕ) → HasRead task taken payload content.old
        → HasRead task (taken ++ take result.used piece.now)
        (payload ++ payload_fed result piece.now) content.new }
    ensures status { (task : Task) (taken payload : List ℕ) → HasRead task taken payload content.old
        → result.status
        ≡ status_numbers (status_after H D task (taken ++ take result.used piece.now)) }
    ensures current { result.status ≡ block_status content.new }
    ensures fits { result.used ≤ length piece.now }
    ensures among { result.payload_at + result.payload_length ≤ result.used }
    ensures again { wants_more content.old ≡ false
        → (result ≡ nothing_fed (block_status content.old)) × (content.new ≡ content.old) }
    ensures same_task { (task : Task) (taken payload : List ℕ)
        → HasRead task taken payload content.old → task_by content.new ≡ task_by content.old }
{
    match content {
        Some(verifier) => fed_numbers(verifier.feed(piece)),
        None => nothing_fed(plain_status(CLOSED)),
    }
}

/// How many bytes of the message are to come for certain.
pub(crate) fn wanted<'k, const H: usize, const D: usize, K: Keys<'k>>(
    content: &Option<Verifier<'k, H, D, K>>,
) -> u64
    ensures value { result ≡ wanted_by content.now }
    ensures reads { (task : Task) (taken payload : List ℕ) → HasRead task taken payload content.now
        → result ≡ (reading_of H D task taken).wanted }
{
    match content {
        Some(verifier) => verifier.want(),
        None => 0,
    }
}

/// How many bytes of a detached payload are to come.
pub(crate) fn payload_wanted<'k, const H: usize, const D: usize, K: Keys<'k>>(
    content: &Option<Verifier<'k, H, D, K>>,
) -> u64
    ensures value { result ≡ payload_wanted_by content.now }
    ensures reads { (task : Task) (taken payload : List ℕ) → HasRead task taken payload content.now
        → result ≡ (reading_of H D task taken).payload_wanted }
{
    match content {
        Some(verifier) => verifier.payload_wanted(),
        None => 0,
    }
}

/// Takes the next bytes of a detached payload, as many as are wanted, and returns how many that was.
pub(crate) fn feed_payload<'k, const H: usize, const D: usize, K: Keys<'k>>(
    content: &mut Option<Verifier<'k, H, D, K>>,
    piece: &[u8],
) -> u64
    ensures uses { result ≡ min (length piece.now) (payload_wanted_by content.old) }
    ensures reads { (task : Task) (taken payload : List ℕ) → HasRead task taken payload content.old
        → HasRead (given_to (payload ++ take result piece.now) task) taken
        (payload ++ take result piece.now) content.new }
    ensures left { payload_wanted_by content.new + result ≡ payload_wanted_by content.old }
    ensures none { payload_wanted_by content.old ≡ 0 → content.new ≡ content.old }
{
    match content {
        Some(verifier) if verifier.payload_wanted() > 0 => verifier.feed_payload(piece) as u64,
        _ => 0,
    }
}

/// Says that no byte follows.
pub(crate) fn end<'k, const H: usize, const D: usize, K: Keys<'k>>(
    content: &mut Option<Verifier<'k, H, D, K>>,
) -> CoseStatus
    ensures reads { (task : Task) (taken payload : List ℕ) → HasRead task taken payload content.old
        → result ≡ status_numbers (status_of_answer (reading_of H D task taken).answer) }
    ensures current { result ≡ block_status content.new }
    ensures again { wants_any content.old ≡ false → content.new ≡ content.old }
    ensures same_task { task_by content.new ≡ task_by content.old }
    ensures taken { taken_by content.new ≡ taken_by content.old }
    ensures signed { signed_by content.new ≡ signed_by content.old }
{
    // A law that the proof cites: what isn't settled is Truncated where its bytes end.
    settled_stays();
    let Some(verifier) = content else {
        return plain_status(CLOSED);
    };
    // The proof cites what this ensures of the bytes so far.
    let _status = verifier.status();
    status_numbers(verifier.end())
}

/// Gives what the signature of a message is verified with, and returns whether there is one.
pub(crate) fn sign_input<'k, const H: usize, const D: usize, K: Keys<'k>>(
    content: &Option<Verifier<'k, H, D, K>>,
    input: &mut CoseSignInput,
) -> bool
    ensures value { result ≡ has_point (signed_by content.now) }
    ensures input { result ≡ true → GivesAll (signed_by content.now) input.new }
    ensures none { result ≡ false → input.new ≡ input.old }
    // By definition, of the bytes so far.
    ensures reads { (task : Task) (taken payload : List ℕ) → HasRead task taken payload content.now
        → signed_by content.now
        ≡ sign_input_for (asks task) task.setting.aad (reading_of H D task taken).answer }
{
    match content {
        Some(verifier) => give_input(verifier, input),
        None => false,
    }
}

/// Whether the number says that a signature is good: 1 does, and no other number.
pub(crate) fn says_good(signature_is_good: i32) -> bool
    ensures { result ≡ says_good signature_is_good }
{
    signature_is_good == 1
}

/// Whether a message is complete, and isn't only inspected.
fn is_decidable<'k, const H: usize, const D: usize, K: Keys<'k>>(
    verifier: &Verifier<'k, H, D, K>,
) -> bool
    ensures { result ≡ is_decidable verifier.now }
{
    verifier.is_complete() && !verifier.is_inspecting()
}

/// The verdict on a message that is complete, whose signature, if it has one, is good or isn't.
pub(crate) fn verdict<'k, const H: usize, const D: usize, K: Keys<'k>>(
    content: &mut Option<Verifier<'k, H, D, K>>,
    is_good: bool,
) -> CoseVerdict
    ensures verdict { (setting : Setting) (taken payload : List ℕ)
        → HasRead (to_verify setting) taken payload content.old
        → is_complete (status_after H D (to_verify setting) taken) ≡ true
        → result ≡ verdict_numbers always_authentic 0
        (verdict_of H D setting (deciding is_good) taken) }
    ensures incomplete { has_verdict content.old ≡ false
        → (result ≡ no_message (block_status content.old)) × (content.new ≡ content.old) }
    ensures again { (verdict : Verdict) → has_verdict content.old ≡ true
        → answer_kept_by content.old ≡ Some (Ok verdict)
        → (result ≡ verdict_numbers always_authentic 0 (decided verdict))
        × (content.new ≡ content.old) }
    ensures kept { has_verdict content.old ≡ true → Keeps result content.new }
    ensures stays { (setting : Setting) (taken payload : List ℕ)
        → HasRead (to_verify setting) taken payload content.old
        → is_complete (status_after H D (to_verify setting) taken) ≡ true
        → has_verdict content.new ≡ true }
    ensures same_task { task_by content.new ≡ task_by content.old }
    ensures taken { taken_by content.new ≡ taken_by content.old }
    ensures signed { signed_by content.new ≡ signed_by content.old }
{
    let Some(verifier) = content else {
        return no_message(plain_status(CLOSED));
    };
    let status = verifier.status();
    if !is_decidable(verifier) {
        return no_message(status_numbers(status));
    }
    match verifier.verdict(&Decided { is_good }) {
        Verdict::Authentic {
            kind,
            alg,
            payload,
            taken,
        } => accepted(AUTHENTIC, kind, alg, payload, taken),
        Verdict::Refused(refusal) => no_message(refused_status(REFUSED, refusal)),
    }
}

/// Begins the next message, under the same keys.
pub(crate) fn reset<'k, const H: usize, const D: usize, K: Keys<'k>>(
    content: &mut Option<Verifier<'k, H, D, K>>,
)
    ensures anew { IsAnew (task_by content.old) content.new }
    ensures reads { (task : Task) (taken payload : List ℕ) → HasRead task taken payload content.old
        → HasRead (given_to [] task) [] [] content.new }
{
    if let Some(verifier) = content {
        verifier.reset();
    }
}

/// The number of bytes of the message that were taken.
pub(crate) fn taken<'k, const H: usize, const D: usize, K: Keys<'k>>(
    content: &Option<Verifier<'k, H, D, K>>,
) -> u64
    ensures value { result ≡ taken_by content.now }
    ensures reads { (task : Task) (taken payload : List ℕ) → HasRead task taken payload content.now
        → result ≡ length taken }
{
    match content {
        Some(verifier) => verifier.taken(),
        None => 0,
    }
}

/// How many bytes of the message are held, and 256 for the running hash.
pub(crate) fn held<'k, const H: usize, const D: usize, K: Keys<'k>>(
    content: &Option<Verifier<'k, H, D, K>>,
) -> u64
    ensures value { result ≡ held_by content.now }
    ensures limit { result ≤ 2 * H + 512 }
{
    match content {
        Some(verifier) => verifier.held() as u64,
        None => 0,
    }
}
