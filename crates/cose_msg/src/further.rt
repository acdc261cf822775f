//! Messages in memory whose signature the caller verifies: EdDSA, over OKP keys (RFC 9053 section 2.2, RFC 9864 section 2.2).

ghost use Rattle.std.specs.Prelude.{◌≡◌, ◌≤◌, ◌++◌, Some, IfOk, length};
ghost use Rattle.std.specs.List.{concat, slice_get};
ghost use Rattle.cose_map.specs.Key.Okp.{okp_value};
ghost use Rattle.cose_map.specs.KeySet.Okp.{okp_keys};
ghost use Rattle.cose_map.specs.KeySet.View.{keys as usable};
ghost use Rattle.cose_msg.specs.Verifier.{setting_of};
ghost use Rattle.cose_msg.specs.Further.{answered, asked_of, asked_of_whole, decided_by, detached_setting, further_of, trailing_of};
ghost use Rattle.cose_msg.specs.FurtherView.{asked_result, asked_value, chosen_in, further_outcome, headers_in, setting_for, whole_in};
ghost use Rattle.cose_msg.specs.FrontPieces.{piece_at, pieces_of};
ghost use Rattle.cose_msg.specs.Message.{structure};

mod decides;
mod front;
mod headers;
mod parts;
mod rest;
mod whole;

use crate::context::Context;
use crate::front_pieces::FrontPieces;
use crate::further::parts::Parts;
use crate::further::whole::read_whole;
use crate::reader::payload::empty_if;
use cose_head::{FurtherAlg, Reason, Refusal};
use cose_map::OkpKey;
pub use decides::FurtherVerifier;

/// What the caller's verifier is asked of a message that is whole: whether the signature of the Sig_structure (RFC 9052
/// section 4.4) holds under the key, by the algorithm. [`FurtherAsk::answer`] takes what it says.
#[derive(Drop)]
pub struct FurtherAsk<'m> {
    /// The one key that fits.
    pub key: OkpKey<'m>,
    /// How many OKP keys of the set are before it.
    pub place: usize,
    /// The algorithm that it is used with.
    pub alg: FurtherAlg,
    /// The bytes of the structure before the payload.
    pub front: FrontPieces<'m>,
    /// The payload, the rest of the structure.
    pub payload: &'m [u8],
    /// The signature, as long as the key's curve says (RFC 8032 sections 5.1.6 and 5.2.6).
    pub signature: &'m [u8],
    /// The place of the signature's head, relative to the first byte of the message.
    pub auth_at: u64,
    /// The place of the first byte after the message, if there is one.
    trailing: Option<u64>,
}

/// What a slice of bytes is that should be one message.
#[derive(Clone, Copy, Debug, PartialEq, Eq)]
pub enum FurtherVerified<'m> {
    /// The bytes are a message that is authentic under the chosen key.
    Authentic {
        /// The algorithm that authenticates it.
        alg: FurtherAlg,
        /// The payload.
        payload: &'m [u8],
    },
    /// The bytes are refused. The place is relative to the first byte.
    Refused(Refusal),
}

impl<'m> FurtherAsk<'m> {
    /// The result for the message, where the caller's verifier says whether the signature holds: [`Reason::BadAuth`] at the
    /// signature where it doesn't, and [`Reason::Trailing`] where a byte follows a message that is authentic.
    pub fn answer(&self, holds: bool) -> FurtherVerified<'m>
        ensures { further_outcome result ≡ answered (asked_value self.now) holds }
    {
        if !holds {
            return FurtherVerified::Refused(Refusal {
                reason: Reason::BadAuth,
                place: self.auth_at,
            });
        }
        match self.trailing {
            Some(place) => FurtherVerified::Refused(Refusal {
                reason: Reason::Trailing,
                place,
            }),
            None => FurtherVerified::Authentic {
                alg: self.alg,
                payload: self.payload,
            },
        }
    }
}

/// The bytes of the structure before the payload.
fn front_of<'m>(parts: &Parts<'m>, aad: &'m [u8]) -> FrontPieces<'m>
    ensures structure { concat (pieces_of result) ++ parts.now.payload.now
        ≡ structure aad.now (headers_in parts.now) parts.now.payload.now }
    ensures context { length (piece_at 0 (pieces_of result)) ≤ 12 }
    ensures external { piece_at 4 (pieces_of result) ≡ aad.now }
{
    let is_bare = parts.protected.bucket.is_empty();
    let protected = empty_if(is_bare, parts.protected.content);
    FrontPieces::new(parts.kind, protected, aad, parts.payload.len() as u64)
}

/// The place after the message, where a byte follows it.
fn trailing_at(taken: u64, count: u64) -> Option<u64>
    ensures { result ≡ trailing_of count taken }
{
    if taken < count {
        return Some(taken);
    }
    None
}

/// What is asked of a message with these parts, among so many bytes, if its signature has the length that the key's curve says.
fn ask_of<'m>(parts: &Parts<'m>, aad: &'m [u8], count: u64) -> Result<FurtherAsk<'m>, Refusal>
    ensures asked { asked_result result
        ≡ asked_of_whole count aad.now (whole_in parts.now) (chosen_in parts.now) }
    ensures place { IfOk result (λ ask. ask.place ≡ parts.now.found.place) }
    ensures key { IfOk result (λ ask. okp_value ask.key ≡ okp_value parts.now.found.key) }
    ensures context { IfOk result (λ ask. length (piece_at 0 (pieces_of ask.front)) ≤ 12) }
    ensures external { IfOk result (λ ask. piece_at 4 (pieces_of ask.front) ≡ aad.now) }
{
    let signature = parts.signature;
    if signature.bytes.len() != parts.found.key.curve.signature_length() {
        return Err(Refusal {
            reason: Reason::BadAuthLength,
            place: signature.at,
        });
    }
    Ok(FurtherAsk {
        key: parts.found.key,
        place: parts.found.place,
        alg: parts.found.alg,
        front: front_of(parts, aad),
        payload: parts.payload,
        signature: signature.bytes,
        auth_at: signature.at,
        trailing: trailing_at(parts.taken, count),
    })
}

/// What is asked of a message, whose payload is passed where it is detached.
fn ask<'m, const H: usize, const D: usize>(
    context: &Context<'m>,
    detached: Option<&'m [u8]>,
    message: &'m [u8],
) -> Result<FurtherAsk<'m>, Refusal>
    requires nesting { D ≤ 32 }
    ensures asked { asked_of H D (setting_for detached.entry context.now)
        (okp_keys context.now.keys) message.now ≡ Some (asked_result result) }
    ensures there { IfOk result (λ ask. slice_get (okp_keys context.now.keys) ask.place
        ≡ Some (okp_value ask.key)) }
    // The first of the pieces is short, and the fifth is the external data.
    ensures context { IfOk result (λ ask. length (piece_at 0 (pieces_of ask.front)) ≤ 12) }
    ensures external { IfOk result (λ ask.
        piece_at 4 (pieces_of ask.front) ≡ context.now.aad.now) }
{
    match read_whole::<H, D>(context, detached, message) {
        Ok(parts) => ask_of(&parts, context.aad, message.len() as u64),
        Err(refusal) => Err(refusal),
    }
}

/// What the caller's verifier is asked of a message that is in memory and signed by EdDSA: the key among the OKP keys of the
/// context, the algorithm, the Sig_structure and the signature. [`FurtherAsk::answer`] then gives the result. For a caller
/// without a [`FurtherVerifier`]; one that has it calls [`verify_further`].
///
/// It refuses a message that names another algorithm than a [`FurtherAlg`], or isn't signed, as [`Reason::UnknownAlg`], and a
/// signature of another length than the key's curve says as [`Reason::BadAuthLength`]. The other refusals, their order and their
/// places are those of [`Verifier`](crate::Verifier), for header buckets of at most `H` bytes each, nested at most `D` deep.
pub fn ask_further<'m, const H: usize, const D: usize>(
    context: &Context<'m>,
    message: &'m [u8],
) -> Result<FurtherAsk<'m>, Refusal>
    requires nesting { D ≤ 32 }
    // With each decision that a verifier makes of what is asked the result is that of the definition.
    ensures asked { asked_of H D (setting_of usable context.now) (okp_keys context.now.keys)
        message.now ≡ Some (asked_result result) }
    // The key stands at its place.
    ensures there { IfOk result (λ ask. slice_get (okp_keys context.now.keys) ask.place
        ≡ Some (okp_value ask.key)) }
    // The first of the pieces is short, and the fifth is the external data.
    ensures context { IfOk result (λ ask. length (piece_at 0 (pieces_of ask.front)) ≤ 12) }
    ensures external { IfOk result (λ ask.
        piece_at 4 (pieces_of ask.front) ≡ context.now.aad.now) }
{
    ask::<H, D>(context, None, message)
}

/// The same of a message whose payload is detached (RFC 9052 section 4.2): it has nil in its place. A message that has its
/// payload is refused as [`Reason::Attached`].
pub fn ask_further_detached<'m, const H: usize, const D: usize>(
    context: &Context<'m>,
    payload: &'m [u8],
    message: &'m [u8],
) -> Result<FurtherAsk<'m>, Refusal>
    requires nesting { D ≤ 32 }
    ensures asked { asked_of H D (detached_setting payload.now (setting_of usable context.now))
        (okp_keys context.now.keys) message.now ≡ Some (asked_result result) }
    ensures there { IfOk result (λ ask. slice_get (okp_keys context.now.keys) ask.place
        ≡ Some (okp_value ask.key)) }
    // The first of the pieces is short, and the fifth is the external data.
    ensures context { IfOk result (λ ask. length (piece_at 0 (pieces_of ask.front)) ≤ 12) }
    ensures external { IfOk result (λ ask.
        piece_at 4 (pieces_of ask.front) ≡ context.now.aad.now) }
{
    ask::<H, D>(context, Some(payload), message)
}

/// The result for what is asked, by what the verifier says.
fn decided<'m, V: FurtherVerifier>(
    asked: Result<FurtherAsk<'m>, Refusal>,
    verifier: &V,
) -> FurtherVerified<'m>
    ensures { further_outcome result
        ≡ decided_by (V.decides verifier.now) (asked_result asked.entry) }
{
    match asked {
        Ok(ask) => {
            let FurtherAsk {
                key,
                alg,
                front,
                payload,
                signature,
                ..
            } = &ask;
            let holds = verifier.holds(key, *alg, front, payload, signature);
            ask.answer(holds)
        }
        Err(refusal) => FurtherVerified::Refused(refusal),
    }
}

/// Verifies a message that is in memory and signed by EdDSA, over the OKP keys of the context, where `verifier` decides on the
/// signature (RFC 9052 section 4.4, RFC 9053 section 2.2, RFC 9864 section 2.2). The bytes are the message, and nothing follows
/// it. The refusals are those of [`ask_further`] and [`FurtherAsk::answer`].
///
/// The verifier is asked once, and only of a message that nothing else refuses. The payload is a part of the message.
pub fn verify_further<'m, const H: usize, const D: usize, V: FurtherVerifier>(
    context: &Context<'m>,
    message: &'m [u8],
    verifier: &V,
) -> FurtherVerified<'m>
    requires nesting { D ≤ 32 }
    ensures outcome { further_of H D (setting_of usable context.now) (okp_keys context.now.keys)
        (V.decides verifier.now) message.now ≡ Some (further_outcome result) }
{
    decided(ask_further::<H, D>(context, message), verifier)
}

/// The same of a message whose payload is detached (RFC 9052 section 4.2), and passed.
pub fn verify_further_detached<'m, const H: usize, const D: usize, V: FurtherVerifier>(
    context: &Context<'m>,
    payload: &'m [u8],
    message: &'m [u8],
    verifier: &V,
) -> FurtherVerified<'m>
    requires nesting { D ≤ 32 }
    ensures outcome { further_of H D
        (detached_setting payload.now (setting_of usable context.now)) (okp_keys context.now.keys)
        (V.decides verifier.now) message.now ≡ Some (further_outcome result) }
{
    decided(
        ask_further_detached::<H, D>(context, payload, message),
        verifier,
    )
}
