//! A verifier in a block, for callers in C on devices of little memory: header buckets of at most 256 bytes, nested at most 4 deep, under
//! the keys of a key set. No terms are read here: a program for a device links no more than it uses.

ghost use Rattle.std.specs.Prelude.{◌≡◌, ◌≢◌, ◌≤◌, ◌+◌, ℕ, true, false, List, [], ◌++◌, Some, Ok, length, min, take, if◌then◌else◌};
ghost use Rattle.cose_map.specs.KeySet.{keys_of};
ghost use Rattle.cose_msg.specs.declared.verdict.Verdict.{Verdict};
ghost use Rattle.cose_msg.specs.Answer.{decided};
ghost use Rattle.cose_msg.specs.Feed.{Uses};
ghost use Rattle.cose_msg.specs.Message.{Setting, verdict_of};
ghost use Rattle.cose_msg.specs.Shown.{sign_input_for};
ghost use Rattle.cose_msg.specs.Status.{is_complete, status_of_answer};
ghost use Rattle.cose_msg.specs.Task.{asks, Task, given_to, rules_of, to_verify};
ghost use Rattle.cose_c.specs.Deciding.{deciding};
ghost use Rattle.cose_c.specs.Input.{GivesAll, has_point};
ghost use Rattle.cose_c.specs.Numbers.{always_authentic, no_message, plain_status, verdict_numbers};
ghost use Rattle.cose_c.specs.Stream.{HasRead, IsAnew, IsOpened, Keeps, answer_kept_by, block_status, detached_given, following, has_verdict, held_by, nothing_fed, opening_status, payload_fed, payload_wanted_by, reading_of, says_good, signed_by, status_after, status_numbers, taken_by, task_by, wanted_by, wants_any, wants_more};
ghost use Rattle.cose_c.specs.Terms.{setting_given};

use crate::held::device_verifier::CoseDeviceVerifier;
use crate::input::CoseSignInput;
use crate::numbers::{BAD_ARGUMENT, CoseStatus, CoseVerdict, no_message, plain_status};
use crate::stream::CoseFed;
use crate::{stream, terms};

/// Opens a block: gives it the key set and the external data of the messages to come, and the kinds that are wanted (0, 17 or 18). The
/// status is `MORE`, or says why it isn't opened; then it has no keys, whatever it was before.
///
/// The keys and the external data stay as they are until the block is opened again, or isn't used any more.
#[unsafe(no_mangle)]
pub extern "C" fn cose_edge_device_open(
    verifier: &mut CoseDeviceVerifier,
    keys: &'static [u8],
    aad: &'static [u8],
    wanted: u8,
    status: &mut CoseStatus,
)
    ensures status { status.new ≡ opening_status (setting_given (keys_of keys.now) aad.now wanted) }
    ensures opened { IsOpened (setting_given (keys_of keys.now) aad.now wanted)
        verifier.new.value.content }
    ensures next { verifier.new.value.message ≡ following verifier.old.value.message }
{
    let held = verifier.lend();
    held.message = stream::following(held.message);
    *status = stream::open(&mut held.content, terms::context(keys, aad, wanted));
}

/// The same for messages whose payload is detached (RFC 9052 sections 4.2 and 6.2), and has so many bytes.
#[unsafe(no_mangle)]
pub extern "C" fn cose_edge_device_open_detached(
    verifier: &mut CoseDeviceVerifier,
    keys: &'static [u8],
    aad: &'static [u8],
    wanted: u8,
    payload_length: u64,
    status: &mut CoseStatus,
)
    ensures status { status.new ≡ opening_status (setting_given (keys_of keys.now) aad.now wanted) }
    ensures opened { IsOpened
        (detached_given payload_length (setting_given (keys_of keys.now) aad.now wanted))
        verifier.new.value.content }
    ensures next { verifier.new.value.message ≡ following verifier.old.value.message }
{
    let held = verifier.lend();
    held.message = stream::following(held.message);
    let context = terms::context(keys, aad, wanted);
    *status = stream::open_detached(&mut held.content, context, payload_length);
}

/// Takes the next bytes of the message: the fewest that settle it, or the whole piece. It says how many it used, and which of them are of
/// the payload: drop these, with all that came before, where the message isn't authentic.
///
/// A block that isn't opened, or whose message is settled, uses no byte.
#[unsafe(no_mangle)]
pub extern "C" fn cose_edge_device_feed(
    verifier: &mut CoseDeviceVerifier,
    piece: &[u8],
    fed: &mut CoseFed,
)
    // Of the bytes so far, whatever cuts they came in, and the piece:
    ensures uses { (task : Task) (taken payload : List ℕ)
        → HasRead task taken payload verifier.old.value.content
        → Uses (rules_of 256 4 task) taken piece.now fed.new.used }
    ensures reads { (task : Task) (taken payload : List ℕ)
        → HasRead task taken payload verifier.old.value.content
        → HasRead task (taken ++ take fed.new.used piece.now)
        (payload ++ payload_fed fed.new piece.now) verifier.new.value.content }
    ensures status { (task : Task) (taken payload : List ℕ)
        → HasRead task taken payload verifier.old.value.content
        → fed.new.status
        ≡ status_numbers (status_after 256 4 task (taken ++ take fed.new.used piece.now)) }
    ensures current { fed.new.status ≡ block_status verifier.new.value.content }
    ensures fits { fed.new.used ≤ length piece.now }
    ensures among { fed.new.payload_at + fed.new.payload_length ≤ fed.new.used }
    // Where no byte is wanted, nothing changes.
    ensures again { wants_more verifier.old.value.content ≡ false
        → (fed.new ≡ nothing_fed (block_status verifier.old.value.content))
        × (verifier.new.value.content ≡ verifier.old.value.content) }
    ensures same_task { (task : Task) (taken payload : List ℕ)
        → HasRead task taken payload verifier.old.value.content
        → task_by verifier.new.value.content ≡ task_by verifier.old.value.content }
    ensures same_message { verifier.new.value.message ≡ verifier.old.value.message }
{
    *fed = stream::feed(&mut verifier.lend().content, piece);
}

/// How many bytes of the message are to come for certain: 0 once it is settled, and of a block that isn't opened.
#[unsafe(no_mangle)]
pub extern "C" fn cose_device_wanted(verifier: &mut CoseDeviceVerifier) -> u64
    ensures value { result ≡ wanted_by verifier.old.value.content }
    ensures reads { (task : Task) (taken payload : List ℕ)
        → HasRead task taken payload verifier.old.value.content
        → result ≡ (reading_of 256 4 task taken).wanted }
    ensures same { verifier.new.value.content ≡ verifier.old.value.content }
{
    stream::wanted(&verifier.lend().content)
}

/// How many bytes of the detached payload are to come: 0 unless the status is `PAYLOAD_NEXT`.
#[unsafe(no_mangle)]
pub extern "C" fn cose_device_payload_wanted(verifier: &mut CoseDeviceVerifier) -> u64
    ensures value { result ≡ payload_wanted_by verifier.old.value.content }
    ensures reads { (task : Task) (taken payload : List ℕ)
        → HasRead task taken payload verifier.old.value.content
        → result ≡ (reading_of 256 4 task taken).payload_wanted }
    ensures same { verifier.new.value.content ≡ verifier.old.value.content }
{
    stream::payload_wanted(&verifier.lend().content)
}

/// Takes the next bytes of the detached payload, as many as are wanted, and returns how many that was. When all are there, the message is
/// fed again.
#[unsafe(no_mangle)]
pub extern "C" fn cose_edge_device_feed_payload(
    verifier: &mut CoseDeviceVerifier,
    piece: &[u8],
) -> u64
    ensures uses { result ≡ min (length piece.now) (payload_wanted_by verifier.old.value.content) }
    ensures reads { (task : Task) (taken payload : List ℕ)
        → HasRead task taken payload verifier.old.value.content
        → HasRead (given_to (payload ++ take result piece.now) task) taken
        (payload ++ take result piece.now) verifier.new.value.content }
    ensures left { payload_wanted_by verifier.new.value.content + result
        ≡ payload_wanted_by verifier.old.value.content }
    ensures none { payload_wanted_by verifier.old.value.content ≡ 0
        → verifier.new.value.content ≡ verifier.old.value.content }
    ensures same_message { verifier.new.value.message ≡ verifier.old.value.message }
{
    stream::feed_payload(&mut verifier.lend().content, piece)
}

/// Says that no byte follows: a message that isn't settled is Truncated.
#[unsafe(no_mangle)]
pub extern "C" fn cose_device_end(verifier: &mut CoseDeviceVerifier, status: &mut CoseStatus)
    ensures reads { (task : Task) (taken payload : List ℕ)
        → HasRead task taken payload verifier.old.value.content
        → status.new ≡ status_numbers (status_of_answer (reading_of 256 4 task taken).answer) }
    ensures current { status.new ≡ block_status verifier.new.value.content }
    ensures again { wants_any verifier.old.value.content ≡ false
        → verifier.new.value.content ≡ verifier.old.value.content }
    ensures same_task { task_by verifier.new.value.content ≡ task_by verifier.old.value.content }
    ensures taken { taken_by verifier.new.value.content ≡ taken_by verifier.old.value.content }
    ensures signed { signed_by verifier.new.value.content ≡ signed_by verifier.old.value.content }
    ensures same_message { verifier.new.value.message ≡ verifier.old.value.message }
{
    *status = stream::end(&mut verifier.lend().content);
}

/// Gives what the signature of a COSE_Sign1 is verified with (RFC 9052 section 4.4), once all bytes are there, and returns 1; or 0 where
/// there is no signature, and leaves `input` as it was.
#[unsafe(no_mangle)]
pub extern "C" fn cose_device_sign_input(
    verifier: &mut CoseDeviceVerifier,
    input: &mut CoseSignInput,
) -> u8
    ensures value { result
        ≡ (if has_point (signed_by verifier.old.value.content) then 1 else 0) }
    ensures input { result ≡ 1 → GivesAll (signed_by verifier.old.value.content) input.new }
    ensures none { result ≡ 0 → input.new ≡ input.old }
    // By definition, of the bytes so far.
    ensures reads { (task : Task) (taken payload : List ℕ)
        → HasRead task taken payload verifier.old.value.content
        → signed_by verifier.old.value.content
        ≡ sign_input_for (asks task) task.setting.aad (reading_of 256 4 task taken).answer }
    ensures same { verifier.new.value.content ≡ verifier.old.value.content }
    ensures same_message { verifier.new.value.message ≡ verifier.old.value.message }
{
    if stream::sign_input(&verifier.lend().content, input) {
        1
    } else {
        0
    }
}

/// The verdict on a message that is complete. `signature_is_good` is what the caller found of a COSE_Sign1's signature: 1 says that it is
/// good, and any other number that it isn't. The verdict is kept, and answered again whatever number is passed later.
///
/// Before the message is complete the verdict is the block's status.
#[unsafe(no_mangle)]
pub extern "C" fn cose_device_verdict(
    verifier: &mut CoseDeviceVerifier,
    signature_is_good: i32,
    verdict: &mut CoseVerdict,
)
    ensures verdict { (setting : Setting) (taken payload : List ℕ)
        → HasRead (to_verify setting) taken payload verifier.old.value.content
        → is_complete (status_after 256 4 (to_verify setting) taken) ≡ true
        → verdict.new ≡ verdict_numbers always_authentic 0
        (verdict_of 256 4 setting (deciding (says_good signature_is_good)) taken) }
    ensures incomplete { has_verdict verifier.old.value.content ≡ false
        → (verdict.new ≡ no_message (block_status verifier.old.value.content))
        × (verifier.new.value.content ≡ verifier.old.value.content) }
    ensures again { (kept : Verdict) → has_verdict verifier.old.value.content ≡ true
        → answer_kept_by verifier.old.value.content ≡ Some (Ok kept)
        → (verdict.new ≡ verdict_numbers always_authentic 0 (decided kept))
        × (verifier.new.value.content ≡ verifier.old.value.content) }
    ensures kept { has_verdict verifier.old.value.content ≡ true
        → Keeps verdict.new verifier.new.value.content }
    ensures stays { (setting : Setting) (taken payload : List ℕ)
        → HasRead (to_verify setting) taken payload verifier.old.value.content
        → is_complete (status_after 256 4 (to_verify setting) taken) ≡ true
        → has_verdict verifier.new.value.content ≡ true }
    ensures same_task { task_by verifier.new.value.content ≡ task_by verifier.old.value.content }
    ensures taken { taken_by verifier.new.value.content ≡ taken_by verifier.old.value.content }
    ensures signed { signed_by verifier.new.value.content ≡ signed_by verifier.old.value.content }
    ensures same_message { verifier.new.value.message ≡ verifier.old.value.message }
{
    let is_good = stream::says_good(signature_is_good);
    *verdict = stream::verdict(&mut verifier.lend().content, is_good);
}

/// The number of the message: opening and resetting begin another one.
#[unsafe(no_mangle)]
pub extern "C" fn cose_device_message_number(verifier: &mut CoseDeviceVerifier) -> u64
    ensures value { result ≡ verifier.old.value.message }
    ensures same { verifier.new.value.content ≡ verifier.old.value.content }
    ensures same_message { verifier.new.value.message ≡ verifier.old.value.message }
{
    verifier.lend().message
}

/// The verdict on the message of this number, as [`cose_device_verdict`] gives it. Where the verifier has gone on to another message, what
/// was found of a signature isn't of that one: the status is `BAD_ARGUMENT`, and nothing changes.
#[unsafe(no_mangle)]
pub extern "C" fn cose_device_verdict_for(
    verifier: &mut CoseDeviceVerifier,
    message: u64,
    signature_is_good: i32,
    verdict: &mut CoseVerdict,
)
    ensures other { message ≢ verifier.old.value.message
        → (verdict.new ≡ no_message (plain_status 12))
        × (verifier.new.value.content ≡ verifier.old.value.content) }
    ensures verdict { message ≡ verifier.old.value.message
        → (setting : Setting) (taken payload : List ℕ)
        → HasRead (to_verify setting) taken payload verifier.old.value.content
        → is_complete (status_after 256 4 (to_verify setting) taken) ≡ true
        → verdict.new ≡ verdict_numbers always_authentic 0
        (verdict_of 256 4 setting (deciding (says_good signature_is_good)) taken) }
    ensures incomplete { message ≡ verifier.old.value.message
        → has_verdict verifier.old.value.content ≡ false
        → (verdict.new ≡ no_message (block_status verifier.old.value.content))
        × (verifier.new.value.content ≡ verifier.old.value.content) }
    ensures again { message ≡ verifier.old.value.message → (kept : Verdict)
        → has_verdict verifier.old.value.content ≡ true
        → answer_kept_by verifier.old.value.content ≡ Some (Ok kept)
        → (verdict.new ≡ verdict_numbers always_authentic 0 (decided kept))
        × (verifier.new.value.content ≡ verifier.old.value.content) }
    ensures kept { message ≡ verifier.old.value.message
        → has_verdict verifier.old.value.content ≡ true
        → Keeps verdict.new verifier.new.value.content }
    ensures stays { message ≡ verifier.old.value.message
        → (setting : Setting) (taken payload : List ℕ)
        → HasRead (to_verify setting) taken payload verifier.old.value.content
        → is_complete (status_after 256 4 (to_verify setting) taken) ≡ true
        → has_verdict verifier.new.value.content ≡ true }
    ensures same_task { task_by verifier.new.value.content ≡ task_by verifier.old.value.content }
    ensures taken { taken_by verifier.new.value.content ≡ taken_by verifier.old.value.content }
    ensures signed { signed_by verifier.new.value.content ≡ signed_by verifier.old.value.content }
    ensures same_message { verifier.new.value.message ≡ verifier.old.value.message }
{
    let held = verifier.lend();
    if held.message != message {
        *verdict = no_message(plain_status(BAD_ARGUMENT));
        return;
    }
    let is_good = stream::says_good(signature_is_good);
    *verdict = stream::verdict(&mut held.content, is_good);
}

/// Begins the next message, under the same keys. A block that isn't opened stays so.
#[unsafe(no_mangle)]
pub extern "C" fn cose_device_reset(verifier: &mut CoseDeviceVerifier)
    ensures anew { IsAnew (task_by verifier.old.value.content) verifier.new.value.content }
    ensures reads { (task : Task) (taken payload : List ℕ)
        → HasRead task taken payload verifier.old.value.content
        → HasRead (given_to [] task) [] [] verifier.new.value.content }
    ensures next { verifier.new.value.message ≡ following verifier.old.value.message }
{
    let held = verifier.lend();
    held.message = stream::following(held.message);
    stream::reset(&mut held.content);
}

/// The number of bytes of the message that were taken.
#[unsafe(no_mangle)]
pub extern "C" fn cose_device_taken(verifier: &mut CoseDeviceVerifier) -> u64
    ensures value { result ≡ taken_by verifier.old.value.content }
    ensures reads { (task : Task) (taken payload : List ℕ)
        → HasRead task taken payload verifier.old.value.content → result ≡ length taken }
    ensures same { verifier.new.value.content ≡ verifier.old.value.content }
{
    stream::taken(&verifier.lend().content)
}

/// How many bytes of the message are held, and 256 for the running hash; 0 where the block isn't opened.
#[unsafe(no_mangle)]
pub extern "C" fn cose_device_held(verifier: &mut CoseDeviceVerifier) -> u64
    ensures value { result ≡ held_by verifier.old.value.content }
    ensures limit { result ≤ 1024 }
    ensures same { verifier.new.value.content ≡ verifier.old.value.content }
{
    stream::held(&verifier.lend().content)
}
