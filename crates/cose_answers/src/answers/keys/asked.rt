//! What a message asks of its key, for which a key set is listed: its headers alone are read.

ghost use Rattle.std.specs.Prelude.{◌≡◌, ◌≤◌, ◌⊎◌, ℕ, List, [], Some, IfErr, IfOk, IsOk, length, option_and_then, option_map, string_bytes, take};
ghost use Rattle.cose_head.specs.ItemRef.{placed};
ghost use Rattle.cose_map.specs.Bucket.{alg_of as alg_in, kid_of as kid_in};
ghost use Rattle.cose_map.specs.Bucket.View.{bucket_pairs};
ghost use Rattle.cose_map.specs.Choice.View.{question};
ghost use Rattle.cose_map.specs.Key.View.{contents};
ghost use Rattle.cose_map.specs.KeySet.{items_in};
ghost use Rattle.cose_map.specs.KeySet.View.{keys as usable_keys};
ghost use Rattle.cose_map.specs.Label.View.{label_value};
ghost use Rattle.cose_msg.specs.Message.{operation_of as operation_value};
ghost use Rattle.cose_msg.specs.Verifier.{setting_of};
ghost use Rattle.cose_answers.specs.AskedKeys as spec;
ghost use Rattle.cose_answers.specs.Printed.{Says, items_listed_for};

use crate::answers::keys::set_reply;
use crate::answers::verdict::reply_of;
use crate::fault::Fault;
use crate::limits::{LARGE_HEADER, LARGE_NESTING};
use crate::reply::Reply;
use cose_head::laws::bare_head_is_spelling;
use cose_head::{HeadStep, ItemRef, parse_head};
use cose_map::{Bucket, Label, Query};
use cose_msg::laws::{authentication_decides, messages_are_bounded, settled_stays};
use cose_msg::{
    Context, KeySet, Kind, Never, Reason, Refusal, Verdict, Verified, Verifier, Wanted,
    verify_slice,
};
use std::alloc::Global;
use std::io::Read;

/// The empty key set.
const NO_KEYS: &[u8] = &[0xa0];

/// The most bytes that decide what is known of the headers: two buckets of 65,535 bytes, and six heads of at most nine bytes.
const FRONT: u64 = 131_124;

/// The tag of a CWT (RFC 8392 section 6).
const CWT_TAG: u64 = 61;

/// The tag of a COSE_Sign1 (RFC 9052 section 2).
const SIGN1_TAG: u64 = 18;

/// The first bytes of the input.
fn front_of<R: Read>(alloc: Global, input: &mut R) -> Result<Vec<u8>, Fault>
    ensures front { (bytes : List ℕ) → R.remaining input.old ≡ Some bytes →
        IfOk result (λ front. front.items ≡ take 131124 bytes) }
    ensures fault { IfErr result (λ fault. (fault ≡ Fault.Memory) ⊎ (fault ≡ Fault.Input)) }
{
    let mut front = Vec::new(alloc);
    match input.take(FRONT).read_to_end(&mut front) {
        Ok(_) => Ok(front),
        Err(error) => Err(Fault::input(&error)),
    }
}

/// A set without keys.
fn no_keys() -> Result<KeySet<'static>, Refusal>
    ensures none { IfOk result (λ keys. usable_keys keys ≡ []) }
    ensures read { IsOk result }
{
    KeySet::read(NO_KEYS)
}

/// The context of headers that are read alone: these keys are none, and there is no room for a payload.
fn headers_context<'k>(keys: KeySet<'k>, wanted: Wanted) -> Context<'k, KeySet<'k>>
    ensures setting { usable_keys keys.entry ≡ []
        → setting_of usable_keys result ≡ spec.headers_setting wanted }
    ensures external { length result.aad.now ≤ 65535 }
{
    Context {
        keys,
        aad: b"",
        wanted,
        cwt: true,
        understood: &[],
        payload_limit: 0,
    }
}

/// Whether no key is chosen for this reason, where there is none.
fn is_of_choice(reason: Reason) -> bool
    ensures { result ≡ spec.is_of_choice reason }
{
    matches!(
        reason,
        Reason::NoAlg | Reason::UnknownAlg | Reason::AlgUnprotected | Reason::NoKey
    )
}

/// The number of a tag (RFC 8949 section 3.4), where a head is one.
fn number_of_tag(step: HeadStep) -> Option<u64>
    ensures { result ≡ spec.number_of_tag step }
{
    match step {
        HeadStep::Got(head, _) if head.major == 6 => Some(head.arg),
        _ => None,
    }
}

/// The number of the COSE tag of a message that begins with these bytes: a CWT may have its own tag before that.
fn cose_tag(front: &[u8]) -> Option<u64>
    ensures { result ≡ spec.cose_tag front.now }
{
    match parse_head(front) {
        HeadStep::Got(head, used) if head.major == 6 && head.arg == CWT_TAG => {
            number_of_tag(parse_head(&front[used..]))
        }
        step => number_of_tag(step),
    }
}

/// The kind of a message of these kinds that begins with these bytes.
fn kind_of(front: &[u8], wanted: Wanted) -> Kind
    ensures { result ≡ spec.kind_asked wanted front.now }
{
    match wanted {
        Wanted::Mac0 => Kind::Mac0,
        Wanted::Sign1 => Kind::Sign1,
        Wanted::Tagged => match cose_tag(front) {
            Some(SIGN1_TAG) => Kind::Sign1,
            _ => Kind::Mac0,
        },
    }
}

/// The algorithm that a bucket names, if it is there.
fn alg_of<'q>(bucket: &Option<Bucket<'q>>) -> Option<Label<'q>>
    ensures { option_map label_value result
        ≡ option_and_then alg_in (option_map bucket_pairs bucket.now) }
{
    match bucket {
        Some(bucket) => bucket.alg(),
        None => None,
    }
}

/// The key identifier that a bucket has, if it is there.
fn kid_of<'q>(bucket: &Option<Bucket<'q>>) -> Option<&'q [u8]>
    ensures { option_map contents result
        ≡ option_and_then kid_in (option_map bucket_pairs bucket.now) }
{
    match bucket {
        Some(bucket) => bucket.kid(),
        None => None,
    }
}

/// The operation that verifies messages of a kind (RFC 9052 section 7.1, table 5).
fn operation_of(kind: Kind) -> i128
    ensures { result ≡ operation_value kind }
{
    match kind {
        Kind::Mac0 => 10,
        Kind::Sign1 => 2,
    }
}

/// What a message of this kind with these buckets asks of its key.
fn query_of<'q>(
    kind: Kind,
    protected: Option<Bucket<'q>>,
    unprotected: Option<Bucket<'q>>,
) -> Query<'q>
    ensures { question result ≡ spec.question_in kind (option_map bucket_pairs protected.entry)
        (option_map bucket_pairs unprotected.entry) }
{
    Query {
        kind,
        operation: operation_of(kind),
        protected_alg: alg_of(&protected),
        unprotected_alg: alg_of(&unprotected),
        kid: kid_of(&protected).or(kid_of(&unprotected)),
    }
}

/// The lines of a key set for the message of this kind that begins with these bytes.
#[inline(never)]
fn reply_for<'k>(
    alloc: Global,
    set: &ItemRef,
    usable: usize,
    keys: KeySet<'k>,
    wanted: Wanted,
    kind: Kind,
    front: &[u8],
) -> Result<Reply, Fault>
    requires none { usable_keys keys ≡ [] }
    requires kind { kind ≡ spec.kind_asked wanted front.now }
    ensures says { IfOk result
        (Says (items_listed_for (spec.asked wanted front.now) (items_in (placed set.now)) usable)) }
    ensures fault { IfErr result (λ fault. (fault ≡ Fault.Memory) ⊎ (fault ≡ Fault.Input)) }
{
    // The law that the proof cites: what is authentic has the one key that fits.
    authentication_decides();
    let context = headers_context(keys, wanted);
    let mut verifier = Verifier::<LARGE_HEADER, LARGE_NESTING, KeySet<'_>>::new(context);
    match verify_slice(&mut verifier, front, &Never) {
        Verified::Refused(refusal) if is_of_choice(refusal.reason) => {
            let query = query_of(kind, verifier.protected(), verifier.unprotected());
            set_reply(alloc, set, usable, Some(&query))
        }
        Verified::Refused(refusal) => reply_of(alloc, Verdict::Refused(refusal)),
        // Without a key nothing is authentic.
        Verified::Authentic { .. } => Err(Fault::Input),
    }
}

/// The lines of a key set that is one item, with so many usable keys, for the message that the input begins with.
pub fn asked_reply<R: Read>(
    alloc: Global,
    set: &ItemRef,
    usable: usize,
    wanted: Wanted,
    input: &mut R,
) -> Result<Reply, Fault>
    ensures says { (bytes : List ℕ) → R.remaining input.old ≡ Some bytes → IfOk result
        (Says (items_listed_for (spec.asked wanted bytes) (items_in (placed set.now)) usable)) }
    ensures fault { IfErr result (λ fault. (fault ≡ Fault.Memory) ⊎ (fault ≡ Fault.Input)) }
{
    // Laws of messages that the proof cites: so many bytes settle the headers, and what is settled stays.
    messages_are_bounded();
    settled_stays();
    // And so many bytes have the heads of the tags.
    bare_head_is_spelling();
    let front = front_of(alloc, input)?;
    match no_keys() {
        Ok(keys) => {
            let front = front.as_slice();
            let kind = kind_of(front, wanted);
            reply_for(alloc, set, usable, keys, wanted, kind, front)
        }
        // It is a set.
        Err(_) => Err(Fault::Input),
    }
}
