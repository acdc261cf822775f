//! A COSE_Sign1 that is made over pieces (RFC 9052 section 4.2) with a signature of the caller's, in a block. What precedes the payload,
//! the payload's pieces, and what follows it are the message.

ghost use Rattle.std.specs.Prelude.{◌≡◌, ◌≢◌, ◌≤◌, ◌<◌, ℕ, true, List, [], ◌++◌, None, Some, Err, IfErr, IfOk, IsOk, length, min, take};
ghost use Rattle.cose_head.specs.declared.algorithm.Alg.{Alg};
ghost use Rattle.cose_head.specs.declared.kind.Kind.TheVariants.{Sign1};
ghost use Rattle.cose_head.specs.Algorithm.{auth_length_of};
ghost use Rattle.cose_mac.specs.Structure.{encoded_string};
ghost use Rattle.cose_msg.specs.Making.{protected_made};
ghost use Rattle.cose_msg.specs.Signing.{IsSigning, algorithm_held, digest_held, digest_to_sign, sign_fault};
ghost use Rattle.cose_msg.specs.Writes.{front_under};
ghost use Rattle.cose_c.specs.declared.make.CoseMade.{CoseMade};
ghost use Rattle.cose_c.specs.Make.{kid_given, not_made};
ghost use Rattle.cose_c.specs.Sign.{SignsIn, is_taking, left_to_sign, sign1_fault, sign_fault_numbers, signature_numbered};

use crate::held::signer::{CoseSigner, Signing};
use crate::make::{CoseMade, kid_given, not_made};
use crate::numbers::{AAD_TOO_LONG, BAD_ARGUMENT, CLOSED, COMPLETE, MORE};
use crate::terms::MOST_AAD;
use cose_msg::{Alg, Sign1Maker, Store, Unsigned};

/// The most bytes that precede the payload, with room to spare.
const MOST_FRONT: usize = 384;

/// The most bytes that follow it: a head, and a signature of at most 132 bytes.
const MOST_TAIL: usize = 134;

/// The algorithm of this number, if it makes signatures.
fn signature_numbered(number: i32) -> Option<Alg>
    ensures { result ≡ signature_numbered number }
{
    let alg = Alg::from_number(i128::from(number))?;
    if alg.is_mac() { None } else { Some(alg) }
}

/// Begins a message, and writes what precedes the payload: a maker, and how many bytes that were; or why there is none.
fn begin_by(
    alg: Alg,
    kid: &[u8],
    aad: &[u8],
    payload_length: u64,
    head: &mut [u8],
) -> Result<(Sign1Maker, u64), CoseMade>
    ensures fault { (fault : CoseMade) → sign_fault_numbers
        (sign_fault alg (kid_given kid.now) aad.now payload_length) ≡ Some fault
        → result ≡ Err fault }
    ensures refused { IfErr result (λ fault. fault ≡ not_made 12 0) }
    ensures signing { IfOk result (λ begun. IsSigning alg aad.now payload_length [] begun.0) }
    ensures front { IfOk result (λ begun. take begun.1 head.new
        ≡ front_under Sign1 (protected_made alg) (kid_given kid.now) payload_length) }
    ensures counted { IfOk result (λ begun. begun.1
        ≡ length (front_under Sign1 (protected_made alg) (kid_given kid.now) payload_length)) }
    ensures begins { sign_fault_numbers
        (sign_fault alg (kid_given kid.now) aad.now payload_length) ≡ None
        → length (front_under Sign1 (protected_made alg) (kid_given kid.now) payload_length)
        ≤ 384
        → length (front_under Sign1 (protected_made alg) (kid_given kid.now) payload_length)
        ≤ length head.old
        → IsOk result }
{
    let mut front = Store::<MOST_FRONT>::new();
    let Ok(maker) = Sign1Maker::begin(alg, kid_given(kid), aad, payload_length, &mut front) else {
        return Err(not_made(BAD_ARGUMENT, 0));
    };
    let bytes = front.bytes();
    if head.len() < bytes.len() {
        return Err(not_made(BAD_ARGUMENT, 0));
    }
    head[..bytes.len()].copy_from_slice(bytes);
    Ok((maker, bytes.len() as u64))
}

/// The same by the number of the algorithm.
fn begin(
    alg: i32,
    kid: &[u8],
    aad: &[u8],
    payload_length: u64,
    head: &mut [u8],
) -> Result<(Sign1Maker, u64), CoseMade>
    ensures fault { (fault : CoseMade)
        → sign1_fault (signature_numbered alg) kid.now aad.now payload_length ≡ Some fault
        → result ≡ Err fault }
    ensures refused { IfErr result (λ fault. 0 < fault.status) }
    ensures nothing { IfErr result (λ fault. fault.length ≡ 0) }
    ensures room { (found : Alg) → signature_numbered alg ≡ Some found
        → sign1_fault (Some found) kid.now aad.now payload_length ≡ None
        → IfErr result (λ fault. fault ≡ not_made 12 0) }
    ensures signing { (found : Alg) → signature_numbered alg ≡ Some found
        → IfOk result (λ begun. IsSigning found aad.now payload_length [] begun.0) }
    ensures front { (found : Alg) → signature_numbered alg ≡ Some found
        → IfOk result (λ begun. take begun.1 head.new
        ≡ front_under Sign1 (protected_made found) (kid_given kid.now) payload_length) }
    ensures counted { (found : Alg) → signature_numbered alg ≡ Some found
        → IfOk result (λ begun. begun.1
        ≡ length (front_under Sign1 (protected_made found) (kid_given kid.now) payload_length)) }
    ensures begins { (found : Alg) → signature_numbered alg ≡ Some found
        → sign1_fault (Some found) kid.now aad.now payload_length ≡ None
        → length (front_under Sign1 (protected_made found) (kid_given kid.now) payload_length)
        ≤ 384
        → length (front_under Sign1 (protected_made found) (kid_given kid.now) payload_length)
        ≤ length head.old
        → IsOk result }
{
    let Some(alg) = signature_numbered(alg) else {
        return Err(not_made(BAD_ARGUMENT, 0));
    };
    if aad.len() > MOST_AAD {
        return Err(not_made(AAD_TOO_LONG, 0));
    }
    begin_by(alg, kid, aad, payload_length, head)
}

/// Begins a COSE_Sign1 of a payload of so many bytes: writes what precedes the payload into `head`, at most 322 bytes, and says how many
/// that were. The algorithm is one of signatures (RFC 9053 table 1, RFC 9864), and an empty `kid` is none. The status is `MORE`, or says
/// why no message is made: the algorithm's number, the lengths or the room (`BAD_ARGUMENT`), or the external data (`AAD_TOO_LONG`). The
/// block has no message then.
#[unsafe(no_mangle)]
pub extern "C" fn cose_edge_make_sign1(
    signer: &mut CoseSigner,
    alg: i32,
    kid: &[u8],
    aad: &[u8],
    payload_length: u64,
    head: &mut [u8],
    made: &mut CoseMade,
)
    ensures fault { (fault : CoseMade)
        → sign1_fault (signature_numbered alg) kid.now aad.now payload_length ≡ Some fault
        → (made.new ≡ fault) × (signer.new.value.content ≡ None) }
    ensures making { (found : Alg) → signature_numbered alg ≡ Some found
        → made.new.status ≡ 0
        → SignsIn found aad.now payload_length [] signer.new.value.content }
    ensures front { (found : Alg) → signature_numbered alg ≡ Some found
        → made.new.status ≡ 0 → take made.new.length head.new
        ≡ front_under Sign1 (protected_made found) (kid_given kid.now) payload_length }
    ensures counted { (found : Alg) → signature_numbered alg ≡ Some found
        → made.new.status ≡ 0 → made.new.length
        ≡ length (front_under Sign1 (protected_made found) (kid_given kid.now) payload_length) }
    ensures reason { made.new.status ≡ 0 → made.new.reason ≡ 0 }
    // Where nothing is made, the block has no message, and arguments without a fault lack room alone.
    ensures closed { made.new.status ≢ 0
        → (signer.new.value.content ≡ None) × (made.new.length ≡ 0) }
    ensures room { (found : Alg) → signature_numbered alg ≡ Some found
        → sign1_fault (Some found) kid.now aad.now payload_length ≡ None
        → made.new.status ≢ 0 → made.new ≡ not_made 12 0 }
    ensures begins { (found : Alg) → signature_numbered alg ≡ Some found
        → sign1_fault (Some found) kid.now aad.now payload_length ≡ None
        → length (front_under Sign1 (protected_made found) (kid_given kid.now) payload_length)
        ≤ 384
        → length (front_under Sign1 (protected_made found) (kid_given kid.now) payload_length)
        ≤ length head.old
        → made.new.status ≡ 0 }
{
    let content = &mut signer.lend().content;
    *made = match begin(alg, kid, aad, payload_length, head) {
        Ok((begun, length)) => {
            *content = Some(Signing::Payload(begun));
            CoseMade {
                status: MORE,
                reason: 0,
                length,
            }
        }
        Err(fault) => {
            *content = None;
            fault
        }
    };
}

/// Takes the next bytes of the payload, as many as are to come, and returns how many that was. They follow `head` in the message.
#[unsafe(no_mangle)]
pub extern "C" fn cose_edge_make_sign1_piece(signer: &mut CoseSigner, piece: &[u8]) -> u64
    ensures uses { result ≡ min (length piece.now) (left_to_sign signer.old.value.content) }
    ensures making { (alg : Alg) (aad : List ℕ) (payload_length : ℕ) (so_far : List ℕ)
        → SignsIn alg aad payload_length so_far signer.old.value.content
        → SignsIn alg aad payload_length (so_far ++ take result piece.now)
        signer.new.value.content }
{
    match &mut signer.lend().content {
        Some(Signing::Payload(maker)) => maker.update(piece) as u64,
        Some(Signing::Signature(_)) => 0,
        None => 0,
    }
}

/// Ends the payload, if all of it has come: the message lacks its signature alone then.
fn end_payload(content: Option<Signing>) -> Option<Signing>
    ensures short { 0 < left_to_sign content → result ≡ content }
    ensures none { content ≡ None → result ≡ None }
    ensures left { left_to_sign result ≡ left_to_sign content }
    ensures payload { is_taking result ≡ true → 0 < left_to_sign result }
    ensures making { (alg : Alg) (aad payload : List ℕ)
        → SignsIn alg aad (length payload) payload content
        → SignsIn alg aad (length payload) payload result }
{
    match content {
        Some(Signing::Payload(maker)) => {
            if maker.left() > 0 {
                return Some(Signing::Payload(maker));
            }
            match maker.finish() {
                Ok(unsigned) => Some(Signing::Signature(unsigned)),
                Err(_) => None,
            }
        }
        Some(Signing::Signature(unsigned)) => Some(Signing::Signature(unsigned)),
        None => None,
    }
}

/// Writes the digest, where there is room.
fn write_digest(unsigned: &Unsigned, digest: &mut [u8]) -> CoseMade
    ensures made { result.status ≡ 7
        → take result.length digest.new ≡ digest_held unsigned.now }
    ensures asks { length (digest_held unsigned.now) ≤ length digest.old → result.status ≡ 7 }
{
    let bytes = unsigned.digest();
    if digest.len() < bytes.len() {
        return not_made(BAD_ARGUMENT, 0);
    }
    digest[..bytes.len()].copy_from_slice(bytes);
    CoseMade {
        status: COMPLETE,
        reason: 0,
        length: bytes.len() as u64,
    }
}

/// Writes the signature as a byte string, where it has the algorithm's length, and there is room.
fn write_signature(unsigned: &Unsigned, signature: &[u8], tail: &mut [u8]) -> CoseMade
    ensures wrong { length signature.now ≢ auth_length_of (algorithm_held unsigned.now)
        → result ≡ not_made 12 0 }
    ensures made { result.status ≡ 7
        → take result.length tail.new ≡ encoded_string 2 signature.now }
    ensures ends { length signature.now ≡ auth_length_of (algorithm_held unsigned.now)
        → length (encoded_string 2 signature.now) ≤ 134
        → length (encoded_string 2 signature.now) ≤ length tail.old → result.status ≡ 7 }
{
    let mut end = Store::<MOST_TAIL>::new();
    if unsigned.end(signature, &mut end).is_err() {
        return not_made(BAD_ARGUMENT, 0);
    }
    let bytes = end.bytes();
    if tail.len() < bytes.len() {
        return not_made(BAD_ARGUMENT, 0);
    }
    tail[..bytes.len()].copy_from_slice(bytes);
    CoseMade {
        status: COMPLETE,
        reason: 0,
        length: bytes.len() as u64,
    }
}

/// Writes what is to be signed, once the payload is whole.
fn ask(content: &mut Option<Signing>, digest: &mut [u8]) -> CoseMade
    ensures short { 0 < left_to_sign content.old
        → (result ≡ not_made 0 0) × (content.new ≡ content.old) }
    ensures none { content.old ≡ None → result ≡ not_made 10 0 }
    ensures made { (alg : Alg) (aad payload : List ℕ)
        → SignsIn alg aad (length payload) payload content.old → result.status ≡ 7
        → take result.length digest.new ≡ digest_to_sign alg aad payload }
    ensures making { (alg : Alg) (aad payload : List ℕ)
        → SignsIn alg aad (length payload) payload content.old
        → SignsIn alg aad (length payload) payload content.new }
    ensures asks { (alg : Alg) (aad payload : List ℕ)
        → SignsIn alg aad (length payload) payload content.old
        → length (digest_to_sign alg aad payload) ≤ length digest.old → result.status ≡ 7 }
{
    *content = end_payload(content.take());
    match content {
        Some(Signing::Signature(unsigned)) => write_digest(unsigned, digest),
        Some(Signing::Payload(_)) => not_made(MORE, 0),
        None => not_made(CLOSED, 0),
    }
}

/// Writes the digest of the Sig_structure (RFC 9052 section 4.4), which the caller signs, into `digest`, and says how many bytes that
/// were, at most 64. The status is `COMPLETE`, and the digest may be asked for again; `MORE` where bytes of the payload are to come;
/// `BAD_ARGUMENT` where `digest` hasn't the room.
#[unsafe(no_mangle)]
pub extern "C" fn cose_edge_make_sign1_digest(
    signer: &mut CoseSigner,
    digest: &mut [u8],
    made: &mut CoseMade,
)
    ensures short { 0 < left_to_sign signer.old.value.content
        → (made.new ≡ not_made 0 0) × (signer.new.value.content ≡ signer.old.value.content) }
    ensures none { signer.old.value.content ≡ None → made.new ≡ not_made 10 0 }
    ensures made { (alg : Alg) (aad payload : List ℕ)
        → SignsIn alg aad (length payload) payload signer.old.value.content
        → made.new.status ≡ 7
        → take made.new.length digest.new ≡ digest_to_sign alg aad payload }
    ensures making { (alg : Alg) (aad payload : List ℕ)
        → SignsIn alg aad (length payload) payload signer.old.value.content
        → SignsIn alg aad (length payload) payload signer.new.value.content }
    ensures asks { (alg : Alg) (aad payload : List ℕ)
        → SignsIn alg aad (length payload) payload signer.old.value.content
        → length (digest_to_sign alg aad payload) ≤ length digest.old
        → made.new.status ≡ 7 }
{
    *made = ask(&mut signer.lend().content, digest);
}

/// Ends a message, and writes what follows the payload into `tail`: the block has no message then.
fn end(content: &mut Option<Signing>, signature: &[u8], tail: &mut [u8]) -> CoseMade
    ensures short { 0 < left_to_sign content.old
        → (result ≡ not_made 0 0) × (content.new ≡ content.old) }
    ensures none { content.old ≡ None → result ≡ not_made 10 0 }
    ensures wrong { (alg : Alg) (aad payload : List ℕ)
        → SignsIn alg aad (length payload) payload content.old
        → length signature.now ≢ auth_length_of alg → result ≡ not_made 12 0 }
    ensures made { result.status ≡ 7
        → take result.length tail.new ≡ encoded_string 2 signature.now }
    ensures done { result.status ≡ 7 → content.new ≡ None }
    ensures making { (alg : Alg) (aad payload : List ℕ)
        → SignsIn alg aad (length payload) payload content.old → result.status ≢ 7
        → SignsIn alg aad (length payload) payload content.new }
    ensures ends { (alg : Alg) (aad payload : List ℕ)
        → SignsIn alg aad (length payload) payload content.old
        → length signature.now ≡ auth_length_of alg
        → length (encoded_string 2 signature.now) ≤ 134
        → length (encoded_string 2 signature.now) ≤ length tail.old → result.status ≡ 7 }
{
    *content = end_payload(content.take());
    let unsigned = match content {
        Some(Signing::Signature(unsigned)) => unsigned,
        Some(Signing::Payload(_)) => return not_made(MORE, 0),
        None => return not_made(CLOSED, 0),
    };
    let made = write_signature(unsigned, signature, tail);
    if made.status != COMPLETE {
        return made;
    }
    *content = None;
    made
}

/// Ends the message: writes what follows the payload, the signature as a byte string, into `tail`, at most 134 bytes, and says how many
/// that were. The status is `COMPLETE`; `MORE` where bytes of the payload are to come; `BAD_ARGUMENT` where the signature hasn't the
/// length of those of the algorithm, or `tail` hasn't the room: the block keeps its message then.
#[unsafe(no_mangle)]
pub extern "C" fn cose_edge_make_sign1_end(
    signer: &mut CoseSigner,
    signature: &[u8],
    tail: &mut [u8],
    made: &mut CoseMade,
)
    ensures short { 0 < left_to_sign signer.old.value.content
        → (made.new ≡ not_made 0 0) × (signer.new.value.content ≡ signer.old.value.content) }
    ensures none { signer.old.value.content ≡ None → made.new ≡ not_made 10 0 }
    ensures wrong { (alg : Alg) (aad payload : List ℕ)
        → SignsIn alg aad (length payload) payload signer.old.value.content
        → length signature.now ≢ auth_length_of alg → made.new ≡ not_made 12 0 }
    ensures made { made.new.status ≡ 7
        → take made.new.length tail.new ≡ encoded_string 2 signature.now }
    ensures done { made.new.status ≡ 7 → signer.new.value.content ≡ None }
    ensures making { (alg : Alg) (aad payload : List ℕ)
        → SignsIn alg aad (length payload) payload signer.old.value.content
        → made.new.status ≢ 7
        → SignsIn alg aad (length payload) payload signer.new.value.content }
    ensures ends { (alg : Alg) (aad payload : List ℕ)
        → SignsIn alg aad (length payload) payload signer.old.value.content
        → length signature.now ≡ auth_length_of alg
        → length (encoded_string 2 signature.now) ≤ 134
        → length (encoded_string 2 signature.now) ≤ length tail.old → made.new.status ≡ 7 }
{
    *made = end(&mut signer.lend().content, signature, tail);
}
