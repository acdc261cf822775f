//! A message in memory that is signed by EdDSA (RFC 9053 section 2.2, RFC 9864 section 2.2): the caller's library verifies the signature,
//! over the structure that is signed.

ghost use Rattle.std.specs.Prelude.{◌≡◌, ◌≤◌, IfOk, List, Some, pos, ℕ, length};
ghost use Rattle.cose_head.specs.Further.{further_number, okp_curve_number};
ghost use Rattle.cose_map.specs.KeySet.{keys_of};
ghost use Rattle.cose_map.specs.KeySet.Okp.{okp_keys_of};
ghost use Rattle.cose_msg.specs.Further.{Asked};
ghost use Rattle.cose_msg.specs.FrontPieces.{piece_at, pieces_of};
ghost use Rattle.cose_msg.specs.FurtherView.{asked_result, asked_value};
ghost use Rattle.cose_c.specs.Eddsa.{GivesAsked, GivesEddsa, asked_given, eddsa_status, input_status, status_before, unless_refused};
ghost use Rattle.cose_c.specs.Elsewhere.{pieces_given};
ghost use Rattle.cose_c.specs.Message.{beside};
ghost use Rattle.cose_c.specs.Terms.{setting_given};

use crate::elsewhere::{CoseFrontPieces, octets_of};
use crate::input::copy_all;
use crate::numbers::{CoseStatus, REFUSED, SIGNED, refused_status};
use crate::terms::{HEADER, NESTING, context};
use cose_head::{FurtherAlg, OkpCurve};
use cose_msg::{
    FrontPieces, FurtherAsk, FurtherVerified, Refusal, ask_further, ask_further_detached,
};

/// What an EdDSA signature is verified with, where the status is [`SIGNED`](crate::numbers::SIGNED).
#[repr(C)]
#[derive(Clone, Copy)]
pub struct CoseEddsaInput<'k> {
    /// The number of the status.
    pub status: u8,
    /// The number of a refusal's reason.
    pub reason: u8,
    /// The number of the key's curve (RFC 9053 section 7.1): 6 Ed25519, 7 Ed448.
    pub crv: u8,
    /// 1 where the key has an identifier.
    pub has_kid: u8,
    /// The number of the algorithm: -8 EdDSA, -19 Ed25519, -53 Ed448.
    pub alg: i32,
    /// The place of a refusal; where the signature is the caller's to verify, that of its head, where the message is refused as
    /// [`BadAuth`](cose_msg::Reason::BadAuth) if it isn't good.
    pub place: u64,
    /// The identifier of the key.
    pub kid: &'k [u8],
    /// The public key (RFC 8032 sections 5.1.5 and 5.2.5).
    pub x: &'k [u8],
    /// The third piece of the structure: the content of the protected header as received.
    pub header: &'k [u8],
    /// The payload, which follows the pieces in the structure.
    pub payload: &'k [u8],
    /// The signature (RFC 8032 sections 5.1.6 and 5.2.6).
    pub signature: &'k [u8],
}

/// The number of a curve.
fn number_of_curve(curve: OkpCurve) -> u8
    ensures { pos result ≡ okp_curve_number curve }
{
    match curve {
        OkpCurve::Ed25519 => 6,
        OkpCurve::Ed448 => 7,
    }
}

/// The number of an algorithm.
fn number_of_alg(alg: FurtherAlg) -> i32
    ensures { result ≡ further_number alg }
{
    match alg {
        FurtherAlg::EdDsa => -8,
        FurtherAlg::Ed25519 => -19,
        FurtherAlg::Ed448 => -53,
    }
}

/// The numbers and ranges of a call that asks nothing.
fn nothing_asked<'k>(status: CoseStatus) -> CoseEddsaInput<'k>
    ensures { input_status result ≡ status }
{
    CoseEddsaInput {
        status: status.status,
        reason: status.reason,
        crv: 0,
        has_kid: 0,
        alg: 0,
        place: status.place,
        kid: &[],
        x: &[],
        header: &[],
        payload: &[],
        signature: &[],
    }
}

/// Gives the pieces before the payload.
fn give_pieces(front: &FrontPieces<'_>, pieces: &mut CoseFrontPieces)
    requires context { length (piece_at 0 (pieces_of front.now)) ≤ 12 }
    ensures { (header aad : List ℕ) → piece_at 2 (pieces_of front.now) ≡ header
        → piece_at 4 (pieces_of front.now) ≡ aad
        → pieces_given header aad pieces.new ≡ pieces_of front.now }
{
    pieces.context_length = copy_all(front.piece(0), &mut pieces.context) as u8;
    pieces.protected_head_length = copy_all(
        front.protected_head(),
        &mut pieces.protected_head,
    ) as u8;
    pieces.protected_length = front.protected().len() as u64;
    pieces.aad_head_length = copy_all(front.aad_head(), &mut pieces.aad_head) as u8;
    pieces.payload_head_length = copy_all(front.payload_head(), &mut pieces.payload_head) as u8;
}

/// What is asked of a message, or the refusal of one that a byte follows.
fn input_of<'k>(ask: &FurtherAsk<'k>, pieces: &mut CoseFrontPieces) -> CoseEddsaInput<'k>
    requires context { length (piece_at 0 (pieces_of ask.now.front)) ≤ 12 }
    ensures status { input_status result
        ≡ status_before (asked_value ask.now).auth_at (asked_value ask.now).trailing }
    ensures input { (aad : List ℕ) → piece_at 4 (pieces_of ask.now.front) ≡ aad
        → result.status ≡ 2 → GivesAsked aad (asked_value ask.now) pieces.new result }
{
    let FurtherVerified::Refused(refusal) = ask.answer(true) else {
        give_pieces(&ask.front, pieces);
        return CoseEddsaInput {
            status: SIGNED,
            reason: 0,
            crv: number_of_curve(ask.key.curve),
            has_kid: if ask.key.kid.is_some() { 1 } else { 0 },
            alg: number_of_alg(ask.alg),
            place: ask.auth_at,
            kid: octets_of(ask.key.kid),
            x: ask.key.x,
            header: ask.front.protected(),
            payload: ask.payload,
            signature: ask.signature,
        };
    };
    nothing_asked(refused_status(REFUSED, refusal))
}

/// What is asked of a message, or its refusal.
fn input_or_refusal<'k>(
    asked: &Result<FurtherAsk<'k>, Refusal>,
    pieces: &mut CoseFrontPieces,
) -> CoseEddsaInput<'k>
    requires context { IfOk asked.now (λ ask. length (piece_at 0 (pieces_of ask.front)) ≤ 12) }
    ensures status { input_status result
        ≡ eddsa_status (unless_refused (Some (asked_result asked.now))) }
    ensures input { (aad : List ℕ)
        → IfOk asked.now (λ ask. piece_at 4 (pieces_of ask.front) ≡ aad) → result.status ≡ 2
        → GivesEddsa aad (unless_refused (Some (asked_result asked.now))) pieces.new result }
{
    match asked {
        Ok(ask) => input_of(ask, pieces),
        Err(refusal) => nothing_asked(refused_status(REFUSED, *refusal)),
    }
}

/// Reads a message in memory that is signed by EdDSA (RFC 9052 section 4.4): the bytes are the message, and nothing follows it.
///
/// Where the status is [`SIGNED`](crate::numbers::SIGNED) the message is authentic only if the signature of the structure is good, of which
/// `pieces` and `input` have what precedes the payload, and the payload. With any other status they say nothing.
#[unsafe(no_mangle)]
pub extern "C" fn cose_edge_verify_eddsa(
    keys: &'static [u8],
    aad: &'static [u8],
    wanted: u8,
    message: &'static [u8],
    input: &mut CoseEddsaInput<'static>,
    pieces: &mut CoseFrontPieces,
)
    ensures status { input_status input.new ≡ eddsa_status
        (asked_given 1024 8 (setting_given (keys_of keys.now) aad.now wanted)
        (okp_keys_of keys.now) message.now) }
    ensures input { input.new.status ≡ 2 → GivesEddsa aad.now
        (asked_given 1024 8 (setting_given (keys_of keys.now) aad.now wanted)
        (okp_keys_of keys.now) message.now)
        pieces.new input.new }
{
    *input = match context(keys, aad, wanted) {
        Ok(context) => {
            let asked = ask_further::<HEADER, NESTING>(&context, message);
            input_or_refusal(&asked, pieces)
        }
        Err(status) => nothing_asked(status),
    };
}

/// The same of a message whose payload is detached (RFC 9052 section 4.2), and is in memory too.
#[unsafe(no_mangle)]
pub extern "C" fn cose_edge_verify_eddsa_detached(
    keys: &'static [u8],
    aad: &'static [u8],
    wanted: u8,
    message: &'static [u8],
    payload: &'static [u8],
    input: &mut CoseEddsaInput<'static>,
    pieces: &mut CoseFrontPieces,
)
    ensures status { input_status input.new ≡ eddsa_status
        (asked_given 1024 8
        (beside payload.now (setting_given (keys_of keys.now) aad.now wanted))
        (okp_keys_of keys.now) message.now) }
    ensures input { input.new.status ≡ 2 → GivesEddsa aad.now
        (asked_given 1024 8
        (beside payload.now (setting_given (keys_of keys.now) aad.now wanted))
        (okp_keys_of keys.now) message.now)
        pieces.new input.new }
{
    *input = match context(keys, aad, wanted) {
        Ok(context) => {
            let asked = ask_further_detached::<HEADER, NESTING>(&context, payload, message);
            input_or_refusal(&asked, pieces)
        }
        Err(status) => nothing_asked(status),
    };
}
