//! A COSE_Mac0 that is made over pieces (RFC 9052 section 6.2), in a block. What precedes the payload, the payload's pieces, and what
//! follows it are the message.

ghost use Rattle.std.specs.Prelude.{◌≡◌, ◌≢◌, ◌≤◌, ◌<◌, ℕ, List, [], ◌++◌, None, Some, Ok, Err, IfErr, IfOk, IsOk, length, min, option_map, take};
ghost use Rattle.cose_head.specs.declared.algorithm.Alg.{Alg};
ghost use Rattle.cose_mac.specs.Structure.{encoded_string};
ghost use Rattle.cose_map.specs.Key.{key_of};
ghost use Rattle.cose_map.specs.Key.Value.{KeyValue};
ghost use Rattle.cose_map.specs.Key.View.{contents, key_value};
ghost use Rattle.cose_msg.specs.Make.{make_fault};
ghost use Rattle.cose_msg.specs.Maker.{IsMaking};
ghost use Rattle.cose_msg.specs.Making.{auth_made, protected_made};
ghost use Rattle.cose_msg.specs.Message.{secret_of};
ghost use Rattle.cose_msg.specs.Writes.{front_of};
ghost use Rattle.cose_c.specs.declared.make.CoseMade.{CoseMade};
ghost use Rattle.cose_c.specs.Make.{MakesIn, arguments_fault, fault_numbers, kid_given, left_by, mac_numbered, not_made, whole};

use crate::held::maker::CoseMaker;
use crate::numbers::{AAD_TOO_LONG, BAD_ARGUMENT, CLOSED, COMPLETE, KEYS_REFUSED, MORE};
use crate::terms::MOST_AAD;
use cose_mac::laws::mac_has_its_length;
use cose_msg::{Alg, Key, MakeFault, Maker, Store};

/// The most bytes that precede the payload, with room to spare.
const MOST_FRONT: usize = 384;

/// The most bytes that follow it: a head, and a MAC of at most 64 bytes.
const MOST_TAIL: usize = 70;

/// What was made of a message.
#[repr(C)]
#[derive(Clone, Copy)]
pub struct CoseMade {
    /// The number of the status.
    pub status: u8,
    /// The number of a refusal's reason.
    pub reason: u8,
    /// How many bytes were written.
    pub length: u64,
}

/// Nothing was made.
pub(crate) fn not_made(status: u8, reason: u8) -> CoseMade
    ensures { result ≡ not_made status reason }
{
    CoseMade {
        status,
        reason,
        length: 0,
    }
}

/// The algorithm of this number, if it makes MACs.
fn mac_numbered(number: i32) -> Option<Alg>
    ensures { result ≡ mac_numbered number }
{
    let alg = Alg::from_number(i128::from(number))?;
    if alg.is_mac() { Some(alg) } else { None }
}

/// The key identifier, if it has a byte.
pub(crate) fn kid_given<'k>(kid: &'k [u8]) -> Option<&'k [u8]>
    ensures { option_map contents result ≡ kid_given kid.entry.now }
{
    if kid.is_empty() { None } else { Some(kid) }
}

/// Begins a message under a key, and writes what precedes the payload: a maker, and how many bytes that were; or why there is none.
fn begin_under(
    alg: Alg,
    key: &Key,
    kid: &[u8],
    aad: &[u8],
    payload_length: u64,
    head: &mut [u8],
) -> Result<(Maker, u64), CoseMade>
    ensures fault { (fault : CoseMade) → fault_numbers
        (make_fault alg (key_value key.now) (kid_given kid.now) aad.now payload_length)
        ≡ Some fault
        → result ≡ Err fault }
    ensures refused { IfErr result (λ fault. 0 < fault.status) }
    ensures nothing { IfErr result (λ fault. fault.length ≡ 0) }
    ensures room { fault_numbers
        (make_fault alg (key_value key.now) (kid_given kid.now) aad.now payload_length) ≡ None
        → IfErr result (λ fault. fault ≡ not_made 12 0) }
    ensures making { IfOk result (λ begun. IsMaking alg (secret_of (key_value key.now).material)
        aad.now payload_length [] begun.0) }
    ensures front { IfOk result (λ begun. take begun.1 head.new
        ≡ front_of (protected_made alg) (kid_given kid.now) payload_length) }
    ensures counted { IfOk result (λ begun. begun.1
        ≡ length (front_of (protected_made alg) (kid_given kid.now) payload_length)) }
    ensures begins { fault_numbers
        (make_fault alg (key_value key.now) (kid_given kid.now) aad.now payload_length) ≡ None
        → length (front_of (protected_made alg) (kid_given kid.now) payload_length) ≤ 384
        → length (front_of (protected_made alg) (kid_given kid.now) payload_length)
        ≤ length head.old
        → IsOk result }
{
    let mut front = Store::<MOST_FRONT>::new();
    let maker = match Maker::begin(alg, key, kid_given(kid), aad, payload_length, &mut front) {
        Ok(maker) => maker,
        Err(MakeFault::WrongKey) => return Err(not_made(KEYS_REFUSED, 0)),
        Err(_) => return Err(not_made(BAD_ARGUMENT, 0)),
    };
    let bytes = front.bytes();
    if head.len() < bytes.len() {
        return Err(not_made(BAD_ARGUMENT, 0));
    }
    head[..bytes.len()].copy_from_slice(bytes);
    Ok((maker, bytes.len() as u64))
}

/// The same under the bytes of a COSE_Key, by the number of the algorithm.
fn begin(
    alg: i32,
    key: &[u8],
    kid: &[u8],
    aad: &[u8],
    payload_length: u64,
    head: &mut [u8],
) -> Result<(Maker, u64), CoseMade>
    ensures fault { (fault : CoseMade) → arguments_fault (mac_numbered alg) (key_of (whole key.now))
        kid.now aad.now payload_length ≡ Some fault
        → result ≡ Err fault }
    ensures refused { IfErr result (λ fault. 0 < fault.status) }
    ensures nothing { IfErr result (λ fault. fault.length ≡ 0) }
    ensures room { (found : Alg) → mac_numbered alg ≡ Some found
        → arguments_fault (Some found) (key_of (whole key.now)) kid.now aad.now payload_length
        ≡ None
        → IfErr result (λ fault. fault ≡ not_made 12 0) }
    ensures making { (found : Alg) (read : KeyValue) → mac_numbered alg ≡ Some found
        → key_of (whole key.now) ≡ Ok read
        → IfOk result (λ begun. IsMaking found (secret_of read.material) aad.now payload_length []
        begun.0) }
    ensures front { (found : Alg) → mac_numbered alg ≡ Some found
        → IfOk result (λ begun. take begun.1 head.new
        ≡ front_of (protected_made found) (kid_given kid.now) payload_length) }
    ensures counted { (found : Alg) → mac_numbered alg ≡ Some found
        → IfOk result (λ begun. begun.1
        ≡ length (front_of (protected_made found) (kid_given kid.now) payload_length)) }
    ensures begins { (found : Alg) → mac_numbered alg ≡ Some found
        → arguments_fault (Some found) (key_of (whole key.now)) kid.now aad.now payload_length
        ≡ None
        → length (front_of (protected_made found) (kid_given kid.now) payload_length) ≤ 384
        → length (front_of (protected_made found) (kid_given kid.now) payload_length)
        ≤ length head.old
        → IsOk result }
{
    let Some(alg) = mac_numbered(alg) else {
        return Err(not_made(BAD_ARGUMENT, 0));
    };
    if aad.len() > MOST_AAD {
        return Err(not_made(AAD_TOO_LONG, 0));
    }
    match Key::read(key, 0) {
        Ok(key) => begin_under(alg, &key, kid, aad, payload_length, head),
        Err(refusal) => Err(not_made(KEYS_REFUSED, refusal.reason.number())),
    }
}

/// Begins a COSE_Mac0 of a payload of so many bytes: writes what precedes the payload into `head`, at most 321 bytes, and says how many
/// that were. The algorithm is 4, 5, 6 or 7 (RFC 9053 section 3.1), and an empty `kid` is none. The status is `MORE`, or says why no
/// message is made: the algorithm's number, the lengths or the room (`BAD_ARGUMENT`), the external data (`AAD_TOO_LONG`), or the key
/// (`KEYS_REFUSED`), which may be one that makes no MAC by the algorithm; then the reason is 0. The block has no message then.
#[unsafe(no_mangle)]
pub extern "C" fn cose_edge_make(
    maker: &mut CoseMaker,
    alg: i32,
    key: &[u8],
    kid: &[u8],
    aad: &[u8],
    payload_length: u64,
    head: &mut [u8],
    made: &mut CoseMade,
)
    ensures fault { (fault : CoseMade) → arguments_fault (mac_numbered alg) (key_of (whole key.now))
        kid.now aad.now payload_length ≡ Some fault
        → (made.new ≡ fault) × (maker.new.value.content ≡ None) }
    ensures making { (found : Alg) (read : KeyValue) → mac_numbered alg ≡ Some found
        → key_of (whole key.now) ≡ Ok read → made.new.status ≡ 0
        → MakesIn found (secret_of read.material) aad.now payload_length []
        maker.new.value.content }
    ensures front { (found : Alg) → mac_numbered alg ≡ Some found → made.new.status ≡ 0
        → take made.new.length head.new
        ≡ front_of (protected_made found) (kid_given kid.now) payload_length }
    ensures counted { (found : Alg) → mac_numbered alg ≡ Some found → made.new.status ≡ 0
        → made.new.length
        ≡ length (front_of (protected_made found) (kid_given kid.now) payload_length) }
    ensures reason { made.new.status ≡ 0 → made.new.reason ≡ 0 }
    // Where nothing is made, the block has no message, and arguments without a fault lack room alone.
    ensures closed { made.new.status ≢ 0
        → (maker.new.value.content ≡ None) × (made.new.length ≡ 0) }
    ensures room { (found : Alg) → mac_numbered alg ≡ Some found
        → arguments_fault (Some found) (key_of (whole key.now)) kid.now aad.now payload_length
        ≡ None
        → made.new.status ≢ 0 → made.new ≡ not_made 12 0 }
    ensures begins { (found : Alg) → mac_numbered alg ≡ Some found
        → arguments_fault (Some found) (key_of (whole key.now)) kid.now aad.now payload_length
        ≡ None
        → length (front_of (protected_made found) (kid_given kid.now) payload_length) ≤ 384
        → length (front_of (protected_made found) (kid_given kid.now) payload_length)
        ≤ length head.old
        → made.new.status ≡ 0 }
{
    let content = &mut maker.lend().content;
    *made = match begin(alg, key, kid, aad, payload_length, head) {
        Ok((begun, length)) => {
            *content = Some(begun);
            CoseMade {
                status: MORE,
                reason: 0,
                length,
            }
        }
        Err(fault) => {
            *content = None;
            fault
        }
    };
}

/// Takes the next bytes of the payload, as many as are to come, and returns how many that was. They follow `head` in the message.
#[unsafe(no_mangle)]
pub extern "C" fn cose_edge_make_piece(maker: &mut CoseMaker, piece: &[u8]) -> u64
    ensures uses { result ≡ min (length piece.now) (left_by maker.old.value.content) }
    ensures making { (alg : Alg) (secret aad : List ℕ) (payload_length : ℕ) (so_far : List ℕ)
        → MakesIn alg secret aad payload_length so_far maker.old.value.content
        → MakesIn alg secret aad payload_length (so_far ++ take result piece.now)
        maker.new.value.content }
{
    match &mut maker.lend().content {
        Some(making) => making.update(piece) as u64,
        None => 0,
    }
}

/// Ends a message, and writes what follows the payload into `tail`, where there is room for 70 bytes: the block has no message then.
#[tactic(auto, using(crate::proofs::Tails::tail_fits))]
fn end(content: &mut Option<Maker>, tail: &mut [u8]) -> CoseMade
    ensures short { 0 < left_by content.old
        → (result ≡ not_made 0 0) × (content.new ≡ content.old) }
    ensures none { content.old ≡ None → result ≡ not_made 10 0 }
    ensures made { (alg : Alg) (secret aad payload : List ℕ)
        → MakesIn alg secret aad (length payload) payload content.old → result.status ≡ 7
        → take result.length tail.new ≡ encoded_string 2 (auth_made alg secret aad payload) }
    ensures done { result.status ≡ 7 → content.new ≡ None }
    ensures ends { (alg : Alg) (secret aad payload : List ℕ)
        → MakesIn alg secret aad (length payload) payload content.old
        → 70 ≤ length tail.old → result.status ≡ 7 }
{
    // The law that the proof cites.
    mac_has_its_length();
    let left = match content {
        Some(making) => making.left(),
        None => return not_made(CLOSED, 0),
    };
    if left > 0 {
        return not_made(MORE, 0);
    }
    if tail.len() < MOST_TAIL {
        return not_made(BAD_ARGUMENT, 0);
    }
    let Some(making) = content.take() else {
        return not_made(CLOSED, 0);
    };
    let mut end = Store::<MOST_TAIL>::new();
    if making.end(&mut end).is_err() {
        return not_made(BAD_ARGUMENT, 0);
    }
    let bytes = end.bytes();
    tail[..bytes.len()].copy_from_slice(bytes);
    CoseMade {
        status: COMPLETE,
        reason: 0,
        length: bytes.len() as u64,
    }
}

/// Ends the message: writes what follows the payload into `tail`, and says how many bytes that were. The status is `COMPLETE`; `MORE`
/// where bytes of the payload are to come; `BAD_ARGUMENT` where `tail` has room for fewer than 70 bytes.
#[unsafe(no_mangle)]
pub extern "C" fn cose_edge_make_end(maker: &mut CoseMaker, tail: &mut [u8], made: &mut CoseMade)
    ensures short { 0 < left_by maker.old.value.content
        → (made.new ≡ not_made 0 0) × (maker.new.value.content ≡ maker.old.value.content) }
    ensures none { maker.old.value.content ≡ None → made.new ≡ not_made 10 0 }
    ensures made { (alg : Alg) (secret aad payload : List ℕ)
        → MakesIn alg secret aad (length payload) payload maker.old.value.content
        → made.new.status ≡ 7
        → take made.new.length tail.new ≡ encoded_string 2 (auth_made alg secret aad payload) }
    ensures done { made.new.status ≡ 7 → maker.new.value.content ≡ None }
    ensures ends { (alg : Alg) (secret aad payload : List ℕ)
        → MakesIn alg secret aad (length payload) payload maker.old.value.content
        → 70 ≤ length tail.old → made.new.status ≡ 7 }
{
    *made = end(&mut maker.lend().content, tail);
}
