//! Making a COSE_Mac0 (RFC 9052 section 6.2) of a payload that comes in pieces.

ghost use Rattle.std.specs.Prelude.{◌≡◌, ◌≤◌, ◌+◌, ◌||◌, ℕ, true, false, List, length as length_of, None, Some, option_map, is_some, IfOk, IsTrue, if◌then◌else◌};
ghost use Rattle.cose_head.specs.Algorithm.{is_mac_of};
ghost use Rattle.cose_head.specs.Head.{shortest_head};
ghost use Rattle.cose_head.specs.Shortest.{shortest};
ghost use Rattle.cose_mac.specs.Structure.{encoded_string};
ghost use Rattle.cose_map.specs.Key.View.{contents, key_value};
ghost use Rattle.cose_msg.specs.Make.{Makes, answer_over, argument_fault, is_long_kid, is_too_long as is_too_long_for, made_under, make_fault, stops_for_intake, stops_for_sink};
ghost use Rattle.cose_msg.specs.Writes.{Streams, WritesTo, front_under, seen};
ghost use Rattle.cose_msg.specs.Making.{allows_making as allows_making_by, fits_making, protected_made, unprotected_made};
ghost use Rattle.cose_msg.specs.Grammar.{tag_number};
ghost use Rattle.cose_msg.specs.Message.{secret_of};

pub(crate) mod maker;
pub(crate) mod sign1_maker;

use crate::intake::Intake;
use crate::sink::Sink;
use cose_head::{Kind, write_head};
use cose_mac::laws::mac_has_its_length;
use cose_mac::{Alg, Running, structure_front};
use cose_map::{Key, Label, Material};

/// Why no whole message was made.
#[derive(Clone, Copy, Debug, PartialEq, Eq)]
pub enum MakeFault {
    /// The intake ended before the payload's length.
    ShortPayload,
    /// The algorithm makes no MACs, or the key isn't one that makes MACs by it: it is no symmetric key, it is for
    /// another algorithm, or it lists operations without 9, which makes MACs (RFC 9052 section 7.1).
    WrongKey,
    /// The intake failed.
    Intake,
    /// The sink failed.
    Sink,
    /// The payload has 2^56 bytes or more, the external data have more than 65,535, or the identifier has more than 255.
    TooLong,
}

const UNSIGNED: u8 = 0;

const BYTE_STRING: u8 = 2;

const ARRAY: u8 = 4;

const MAP: u8 = 5;

const TAG: u8 = 6;

/// The tags of a COSE_Mac0 and of a COSE_Sign1 (RFC 9052 section 2).
const COSE_MAC0: u64 = 17;

const COSE_SIGN1: u64 = 18;

/// The label of the key identifier (RFC 9052 section 3.1).
const KID: u64 = 4;

/// The operation that makes MACs (RFC 9052 section 7.1).
const MAC_CREATE: i128 = 9;

/// Whether the key names no other algorithm than this one, and lists no operations or 9 among them.
fn allows_making(key: &Key, alg: Alg) -> bool
    ensures { result ≡ allows_making_by (key_value key.now) alg }
{
    key.alg
        .is_none_or(|own| own.is_same(&Label::Int(alg.number())))
        && key.ops.is_none_or(|ops| ops.holds(MAC_CREATE))
}

/// The secret of a key that makes MACs by this algorithm.
fn secret_for<'a>(key: &Key<'a>, alg: Alg) -> Option<&'a [u8]>
    ensures { option_map contents result
        ≡ (if fits_making (key_value key.now) alg then Some (secret_of (key_value key.now).material)
        else None) }
{
    match key.material {
        Material::Symmetric(secret) if alg.is_mac() && allows_making(key, alg) => Some(secret),
        _ => None,
    }
}

/// Whether the payload, the external data or the identifier is too long.
fn is_too_long(kid: Option<&[u8]>, aad: &[u8], length: u64) -> bool
    ensures { result ≡ is_too_long_for (option_map contents kid.entry) aad.now length }
{
    length >= 1 << 56 || aad.len() > 65_535 || kid.is_some_and(|kid| kid.len() > 255)
}

/// The protected header {1: alg}. The algorithm's number is one of 4 to 7, so that it has one byte.
fn protected_header(alg: Alg) -> [u8; 3]
    requires { IsTrue (is_mac_of alg) }
    ensures { result ≡ protected_made alg }
{
    [0xa1, 1, alg.number() as u8]
}

/// Puts some bytes, perhaps none. It returns their number, as do the functions below.
fn put_bytes<S: Sink>(sink: &mut S, bytes: &[u8]) -> Result<u64, MakeFault>
    ensures written { WritesTo (seen S.contents S.has_failed S.sure) sink.old sink.new result
        bytes.now }
{
    if !bytes.is_empty() && sink.put(bytes).is_err() {
        return Err(MakeFault::Sink);
    }
    Ok(bytes.len() as u64)
}

/// Puts the shortest head of this major type and argument.
fn put_head<S: Sink>(sink: &mut S, major: u8, argument: u64) -> Result<u64, MakeFault>
    requires { major ≤ 6 }
    ensures written { WritesTo (seen S.contents S.has_failed S.sure) sink.old sink.new result
        (shortest_head major argument) }
    ensures short { IfOk result (λ n. n ≤ 9) }
{
    put_bytes(sink, &write_head(major, argument))
}

/// Puts a byte string.
fn put_byte_string<S: Sink>(sink: &mut S, content: &[u8]) -> Result<u64, MakeFault>
    requires { length_of content.now ≤ 65535 }
    ensures written { WritesTo (seen S.contents S.has_failed S.sure) sink.old sink.new result
        (encoded_string 2 content.now) }
    ensures short { IfOk result (λ n. n ≤ 9 + length_of content.now) }
{
    let head = put_head(sink, BYTE_STRING, content.len() as u64)?;
    let bytes = put_bytes(sink, content)?;
    Ok(head + bytes)
}

/// Puts the unprotected header: {4: kid}, or an empty one.
fn put_unprotected<S: Sink>(sink: &mut S, kid: Option<&[u8]>) -> Result<u64, MakeFault>
    requires { is_long_kid (option_map contents kid) ≡ false }
    ensures written { WritesTo (seen S.contents S.has_failed S.sure) sink.old sink.new result
        (shortest (unprotected_made (option_map contents kid.entry))) }
    ensures short { IfOk result (λ n. n ≤ 282) }
{
    match kid {
        None => put_head(sink, MAP, 0),
        Some(kid) => {
            let map = put_head(sink, MAP, 1)?;
            let label = put_head(sink, UNSIGNED, KID)?;
            let value = put_byte_string(sink, kid)?;
            Ok(map + label + value)
        }
    }
}

/// The tag of a kind (RFC 9052 section 2, table 1).
fn tag_of(kind: Kind) -> u64
    ensures { result ≡ tag_number kind }
{
    match kind {
        Kind::Mac0 => COSE_MAC0,
        Kind::Sign1 => COSE_SIGN1,
    }
}

/// Puts all that precedes the payload's content.
fn put_front<S: Sink>(
    sink: &mut S,
    kind: Kind,
    protected: &[u8],
    kid: Option<&[u8]>,
    length: u64,
) -> Result<u64, MakeFault>
    requires protected { length_of protected.now ≤ 4 }
    requires kid { is_long_kid (option_map contents kid) ≡ false }
    ensures written { WritesTo (seen S.contents S.has_failed S.sure) sink.old sink.new result
        (front_under kind protected.now (option_map contents kid.entry) length) }
    ensures short { IfOk result (λ n. n ≤ 318 + length_of protected.now) }
{
    let tag = put_head(sink, TAG, tag_of(kind))?;
    let array = put_head(sink, ARRAY, 4)?;
    let protected = put_byte_string(sink, protected)?;
    let unprotected = put_unprotected(sink, kid)?;
    let payload = put_head(sink, BYTE_STRING, length)?;
    Ok(tag + array + protected + unprotected + payload)
}

/// Takes the payload from the intake, hashes it and puts it into the sink. It returns the payload's length.
fn put_payload<const C: usize, I: Intake, S: Sink>(
    intake: &mut I,
    length: u64,
    running: &mut Running,
    sink: &mut S,
) -> Result<u64, MakeFault>
    requires some { 1 ≤ C }
    requires limit { C ≤ 65536 }
    ensures streams { (taken : List ℕ)
        × Streams length (I.to_come intake.old) (I.to_come intake.new) (I.ended intake.new)
        (seen S.contents S.has_failed S.sure sink.old)
        (seen S.contents S.has_failed S.sure sink.new)
        running.old running.new result taken }
    ensures intake_failure { I.has_failed intake.new
        ≡ (I.has_failed intake.old || stops_for_intake result) }
{
    let mut chunk = [0u8; C];
    let mut left = length;
    'pieces: loop {
        if left == 0 {
            return Ok(length);
        }
        let asked = left.min(C as u64) as usize;
        let count = match intake.take(&mut chunk[..asked]) {
            Ok(count) => count,
            Err(_) => return Err(MakeFault::Intake),
        };
        if count == 0 {
            return Err(MakeFault::ShortPayload);
        }
        let piece = &chunk[..count];
        left -= count as u64;
        running.update(piece);
        if sink.put(piece).is_err() {
            return Err(MakeFault::Sink);
        }
    }
}

/// Makes a COSE_Mac0 under its tag (RFC 9052 section 6.2), in its shortest spelling: the protected header {1: alg}, the
/// unprotected one {4: kid} or {}, a payload of `length` bytes, which the intake gives, and the MAC of the protected
/// header, the externally supplied data and the payload, under the key. It puts the message into the sink as it is
/// made, and returns its number of bytes.
///
/// `WrongKey`, and then `TooLong`, are answered before anything is taken or put. After the other faults the sink holds
/// a prefix of the message: drop it. It takes no byte after the payload, and of the payload it holds `C` bytes at most.
pub fn make_mac0<const C: usize, I: Intake, S: Sink>(
    alg: Alg,
    key: &Key,
    kid: Option<&[u8]>,
    aad: &[u8],
    intake: &mut I,
    length: u64,
    sink: &mut S,
) -> Result<u64, MakeFault>
    requires some { 1 ≤ C }
    requires limit { C ≤ 65536 }
    // A fault of the arguments is answered before anything is taken or put.
    ensures fault { argument_fault result
        ≡ make_fault alg (key_value key.now) (option_map contents kid.entry) aad.now length }
    ensures untouched { is_some (argument_fault result) ≡ true → (intake.new ≡ intake.old)
        × (sink.new ≡ sink.old) }
    // Otherwise: what was taken, what the sink got, and what is answered.
    ensures makes { argument_fault result ≡ None → (taken : List ℕ)
        × Makes (made_under alg (key_value key.now) (option_map contents kid.entry) aad.now)
        length (I.to_come intake.old) (I.to_come intake.new) (I.ended intake.new)
        (S.contents sink.old) (S.contents sink.new) result taken }
    // Where the bytes to come are known to the contract, and neither the intake nor the sink fails.
    ensures answer { (bytes : List ℕ) → argument_fault result ≡ None
        → I.to_come intake.old ≡ Some bytes
        → stops_for_intake result ≡ false → stops_for_sink result ≡ false
        → result
        ≡ answer_over (made_under alg (key_value key.now) (option_map contents kid.entry) aad.now)
        length bytes }

    // It stops only for a failure in this call.
    ensures intake_failure { I.has_failed intake.new
        ≡ (I.has_failed intake.old || stops_for_intake result) }
    ensures sink_failure { S.has_failed sink.new
        ≡ (S.has_failed sink.old || stops_for_sink result) }
    // A sink that is sure of the whole message doesn't stop it.
    ensures sure { (payload : List ℕ) → length_of payload ≡ length
        → length_of (made_under alg (key_value key.now) (option_map contents kid.entry) aad.now
        payload) ≤ S.sure sink.old
        → stops_for_sink result ≡ false }
{
    // The law that the proof of `sure` cites.
    mac_has_its_length();
    let Some(secret) = secret_for(key, alg) else {
        return Err(MakeFault::WrongKey);
    };
    if is_too_long(kid, aad, length) {
        return Err(MakeFault::TooLong);
    }
    let protected = protected_header(alg);
    let mut running = Running::hmac(alg, secret);
    structure_front(Kind::Mac0, &protected, aad, length, &mut running);
    let front = put_front(sink, Kind::Mac0, &protected, kid, length)?;
    let payload = put_payload::<C, I, S>(intake, length, &mut running, sink)?;
    let auth = put_byte_string(sink, &running.finish_mac())?;
    Ok(front + payload + auth)
}
