//! A verifier in a block whose message the caller authenticates, since it has the hash or the key: for blocks of either size.

ghost use Rattle.std.specs.Prelude.{◌≡◌, ◌≤◌, ◌⊎◌, true, false, length, List, ℕ, Some, Ok, option_map};
ghost use Rattle.cose_map.specs.Key.View.{contents, y_value};
ghost use Rattle.cose_map.specs.KeySet.{keys_of};
ghost use Rattle.cose_msg.specs.Elsewhere.{IsWhole, key_asked, stated_answer, stated_mac, verdict_by};
ghost use Rattle.cose_msg.specs.Kept.{HasTaken};
ghost use Rattle.cose_msg.specs.Message.{Setting, message, uncompared};
ghost use Rattle.cose_msg.specs.Answer.{Chosen, Whole, decided};
ghost use Rattle.cose_msg.specs.Status.{is_complete, status_in};
ghost use Rattle.cose_msg.specs.Task.{to_verify_elsewhere};
ghost use Rattle.cose_msg.specs.Verifier.{asks_about_signature, is_elsewhere as is_asking, is_framed};
ghost use Rattle.cose_c.specs.Elsewhere.{GivesChosen, GivesFront, GivesKey, GivesSignature, IsOpenedElsewhere, WhateverRead, WhateverWhole, is_asked, is_ready, makes_macs_of, octets_of, sign_number, status_unasked, wants_answer, y_octets};
ghost use Rattle.cose_c.specs.Numbers.{always_authentic, no_message, plain_status, verdict_numbers};
ghost use Rattle.cose_c.specs.Stream.{Keeps, detached_given, opening_status, signed_by, taken_by, task_by};
ghost use Rattle.cose_c.specs.Terms.{setting_given};

mod large;
mod small;

use crate::fed_keys::FedKeys;
use crate::input::{copy, copy_all};
use crate::numbers::{
    AUTHENTIC, BAD_ARGUMENT, CLOSED, CoseStatus, CoseVerdict, MORE, REFUSED, accepted, no_message,
    plain_status, refused_status,
};
use crate::stated::fed_context_of;
use crate::stream::status_numbers;
use cose_head::Alg;
use cose_map::{Key, Material, Y};
use cose_msg::{Verdict, Verifier};

/// What precedes the payload in the structure that is authenticated (RFC 9052 sections 4.4 and 6.3), in six pieces: the third is the
/// content of the protected header as received, and the fifth the externally supplied data.
#[repr(C)]
#[derive(Clone, Copy)]
pub struct CoseFrontPieces {
    /// How many bytes the content of the protected header has.
    pub protected_length: u64,
    /// How many bytes the first piece has.
    pub context_length: u8,
    /// How many bytes the second piece has.
    pub protected_head_length: u8,
    /// How many bytes the fourth piece has.
    pub aad_head_length: u8,
    /// How many bytes the sixth piece has.
    pub payload_head_length: u8,
    /// The first piece: the head of the array, and the context.
    pub context: [u8; 12],
    /// The second piece: the protected header's head.
    pub protected_head: [u8; 9],
    /// The fourth piece: the external data's head.
    pub aad_head: [u8; 9],
    /// The sixth piece: the payload's head.
    pub payload_head: [u8; 9],
}

/// The key that was chosen for a message, as it is in the caller's key set.
#[repr(C)]
#[derive(Clone, Copy)]
pub struct CoseAskedKey<'k> {
    /// The number of the algorithm that it is used with (RFC 9053 sections 2.1 and 3.1).
    pub alg: i32,
    /// The number of the curve (RFC 9053 section 7.1), 0 of a symmetric key.
    pub crv: u8,
    /// 0 where the coordinate y has its bytes; 1 where it is even and 2 where it is odd, and its sign is all that the key has.
    pub y_sign: u8,
    /// 1 where the key has an identifier.
    pub has_kid: u8,
    /// The identifier.
    pub kid: &'k [u8],
    /// The bytes of a symmetric key, which may be any handle: they are not used.
    pub k: &'k [u8],
    /// The coordinate x.
    pub x: &'k [u8],
    /// The coordinate y: no bytes where there is its sign alone.
    pub y: &'k [u8],
}

/// The signature of a message, as it was received.
#[repr(C)]
#[derive(Clone, Copy)]
pub struct CoseAskedSignature {
    /// How many bytes it has.
    pub length: u64,
    /// Its bytes: of ECDSA the integers r and s in this order.
    pub signature: [u8; 132],
}

/// Gives a block a verifier of messages that the caller authenticates. Where that is refused, the block isn't opened, whatever it was
/// before.
pub(crate) fn open_elsewhere<'k, const H: usize, const D: usize>(
    content: &mut Option<Verifier<'k, H, D, FedKeys<'k>>>,
    keys: &'k [u8],
    aad: &'k [u8],
    wanted: u8,
) -> CoseStatus
    requires some_room { 16 ≤ H }
    requires limit { H ≤ 65535 }
    requires nesting { D ≤ 32 }
    ensures status { result
        ≡ opening_status (setting_given (keys_of keys.entry.now) aad.entry.now wanted) }
    ensures opened { IsOpenedElsewhere (setting_given (keys_of keys.entry.now) aad.entry.now wanted)
        content.new }
{
    match fed_context_of(keys, aad, wanted) {
        Ok(context) => {
            *content = Some(Verifier::elsewhere(context));
            plain_status(MORE)
        }
        Err(status) => {
            *content = None;
            status
        }
    }
}

/// The same for messages whose payload is detached, and has so many bytes.
pub(crate) fn open_elsewhere_detached<'k, const H: usize, const D: usize>(
    content: &mut Option<Verifier<'k, H, D, FedKeys<'k>>>,
    keys: &'k [u8],
    aad: &'k [u8],
    wanted: u8,
    payload_length: u64,
) -> CoseStatus
    requires some_room { 16 ≤ H }
    requires limit { H ≤ 65535 }
    requires nesting { D ≤ 32 }
    ensures status { result
        ≡ opening_status (setting_given (keys_of keys.entry.now) aad.entry.now wanted) }
    ensures opened { IsOpenedElsewhere
        (detached_given payload_length
        (setting_given (keys_of keys.entry.now) aad.entry.now wanted))
        content.new }
{
    match fed_context_of(keys, aad, wanted) {
        Ok(context) => {
            *content = Some(Verifier::elsewhere_detached(context, payload_length));
            plain_status(MORE)
        }
        Err(status) => {
            *content = None;
            status
        }
    }
}

/// Gives the pieces before the payload, of the protected header as many bytes as there is room for, and returns whether they are known:
/// once the payload's head was read, and until the verdict.
pub(crate) fn front_pieces<'k, const H: usize, const D: usize>(
    content: &Option<Verifier<'k, H, D, FedKeys<'k>>>,
    protected: &mut [u8],
    pieces: &mut CoseFrontPieces,
) -> bool
    ensures front { result ≡ true → pieces.new.protected_length ≤ length protected.old
        → GivesFront content.now protected.new pieces.new }
    ensures some { WhateverRead content.now (λ _ _ _. result ≡ is_asked content.now) }
    ensures none { result ≡ false
        → (pieces.new ≡ pieces.old) × (protected.new ≡ protected.old) }
{
    let Some(verifier) = content else {
        return false;
    };
    if !verifier.is_elsewhere() {
        return false;
    }
    let Some(front) = verifier.front_pieces() else {
        return false;
    };
    pieces.context_length = copy_all(front.piece(0), &mut pieces.context) as u8;
    pieces.protected_head_length = copy_all(
        front.protected_head(),
        &mut pieces.protected_head,
    ) as u8;
    pieces.protected_length = front.piece(2).len() as u64;
    copy(front.piece(2), protected);
    pieces.aad_head_length = copy_all(front.aad_head(), &mut pieces.aad_head) as u8;
    pieces.payload_head_length = copy_all(front.payload_head(), &mut pieces.payload_head) as u8;
    true
}

/// The identifier of a key, which has no bytes where there is none.
pub(crate) fn octets_of<'k>(kid: Option<&'k [u8]>) -> &'k [u8]
    ensures { result.now ≡ octets_of (option_map contents kid.entry) }
{
    match kid {
        Some(kid) => kid,
        None => &[],
    }
}

/// The number of what a key has of the coordinate y.
fn sign_number(y: Y<'_>) -> u8
    ensures { result ≡ sign_number (y_value y.entry) }
{
    match y {
        Y::Bytes(_) => 0,
        Y::Sign(false) => 1,
        Y::Sign(true) => 2,
    }
}

/// The bytes of a coordinate y, which has none where there is its sign alone.
fn y_octets<'k>(y: Y<'k>) -> &'k [u8]
    ensures { result.now ≡ y_octets (y_value y.entry) }
{
    match y {
        Y::Bytes(y) => y,
        Y::Sign(_) => &[],
    }
}

/// A key that is used with this algorithm.
fn asked_key_of<'k>(key: &Key<'k>, alg: Alg) -> CoseAskedKey<'k>
    ensures { GivesKey (key_asked (key.now, alg)) result }
{
    let common = CoseAskedKey {
        alg: alg.number() as i32,
        crv: 0,
        y_sign: 0,
        has_kid: if key.kid.is_some() { 1 } else { 0 },
        kid: octets_of(key.kid),
        k: &[],
        x: &[],
        y: &[],
    };
    match key.material {
        Material::Symmetric(k) => CoseAskedKey { k, ..common },
        Material::Ec { crv, x, y } => CoseAskedKey {
            crv,
            y_sign: sign_number(y),
            x,
            y: y_octets(y),
            ..common
        },
    }
}

/// Gives the key that was chosen, and returns whether it is known: once the payload's head was read, and until the verdict.
pub(crate) fn asked_key<'k, const H: usize, const D: usize>(
    content: &Option<Verifier<'k, H, D, FedKeys<'k>>>,
    asked: &mut CoseAskedKey<'k>,
) -> bool
    ensures key { result ≡ true → GivesChosen content.now asked.new }
    ensures some { WhateverRead content.now (λ _ _ _. result ≡ is_asked content.now) }
    ensures none { result ≡ false → asked.new ≡ asked.old }
{
    let Some(verifier) = content else {
        return false;
    };
    if !verifier.is_elsewhere() {
        return false;
    }
    let Some((key, alg)) = verifier.asked_key() else {
        return false;
    };
    *asked = asked_key_of(&key, alg);
    true
}

/// Gives the signature of a COSE_Sign1, and returns whether it is asked for: once all bytes are there, and until the verdict.
pub(crate) fn asked_signature<'k, const H: usize, const D: usize>(
    content: &Option<Verifier<'k, H, D, FedKeys<'k>>>,
    asked: &mut CoseAskedSignature,
) -> bool
    ensures signature { result ≡ true → WhateverRead content.now (λ setting taken _.
        GivesSignature (message (uncompared H D setting) taken).answer asked.new) }
    ensures none { result ≡ false → asked.new ≡ asked.old }
{
    let Some(verifier) = content else {
        return false;
    };
    if !verifier.is_elsewhere() {
        return false;
    }
    let Some(signature) = verifier.asked_signature() else {
        return false;
    };
    let mut bytes = [0; 132];
    let length = copy(signature, &mut bytes);
    *asked = CoseAskedSignature {
        length,
        signature: bytes,
    };
    true
}

/// Whether all bytes are there of a message that is authenticated elsewhere.
fn is_ready<'k, const H: usize, const D: usize>(verifier: &Verifier<'k, H, D, FedKeys<'k>>) -> bool
    ensures { result ≡ is_ready (Some verifier.now) }
{
    verifier.is_complete() && verifier.is_elsewhere()
}

/// The status where nothing is asked for.
fn status_unasked<'k, const H: usize, const D: usize>(
    verifier: &Verifier<'k, H, D, FedKeys<'k>>,
) -> CoseStatus
    ensures { result ≡ status_unasked (Some verifier.now) }
{
    if verifier.is_complete() {
        return plain_status(BAD_ARGUMENT);
    }
    status_numbers(verifier.status())
}

/// Whether the message is one whose MAC has so many bytes, and no verdict is known.
fn takes_mac<'k, const H: usize, const D: usize>(
    verifier: &Verifier<'k, H, D, FedKeys<'k>>,
    count: usize,
) -> bool
    ensures framed { is_framed verifier.now ≡ false → result ≡ false }
    ensures whole { (setting : Setting) (taken payload : List ℕ) (found : Chosen) (whole : Whole)
        → HasTaken (to_verify_elsewhere setting) taken payload verifier.now
        → IsWhole H D setting taken found whole → is_framed verifier.now ≡ true
        → result ≡ makes_macs_of count found }
{
    match verifier.asked_key() {
        Some((_key, alg)) => alg.is_mac() && count == alg.auth_length(),
        None => false,
    }
}

/// The numbers of a verdict.
fn numbers_of(verdict: Verdict) -> CoseVerdict
    ensures { result ≡ verdict_numbers always_authentic 0 (decided verdict) }
{
    match verdict {
        Verdict::Authentic {
            kind,
            alg,
            payload,
            taken,
        } => accepted(AUTHENTIC, kind, alg, payload, taken),
        Verdict::Refused(refusal) => no_message(refused_status(REFUSED, refusal)),
    }
}

/// The verdict on a message whose tag is compared with the MAC that the caller computed.
pub(crate) fn verdict_of_mac<'k, const H: usize, const D: usize>(
    content: &mut Option<Verifier<'k, H, D, FedKeys<'k>>>,
    mac: &[u8],
) -> CoseVerdict
    ensures early { is_ready content.old ≡ false
        → (result ≡ no_message (status_unasked content.old)) × (content.new ≡ content.old) }
    ensures unasked { is_ready content.old ≡ true → is_asked content.old ≡ false
        → (result ≡ no_message (plain_status 12)) × (content.new ≡ content.old) }
    ensures other_length { WhateverWhole content.old (λ _ _ found.
        makes_macs_of (length mac.now) found ≡ false
        → (result ≡ no_message (plain_status 12)) × (content.new ≡ content.old)) }
    ensures verdict { WhateverWhole content.old (λ setting taken found.
        makes_macs_of (length mac.now) found ≡ true
        → result ≡ verdict_numbers always_authentic 0
        (verdict_by H D setting (stated_mac mac.now) taken)) }
    ensures kept { (result ≡ no_message (status_unasked content.old))
        × (content.new ≡ content.old)
        ⊎ Keeps result content.new }
    ensures same_task { task_by content.new ≡ task_by content.old }
    ensures taken { taken_by content.new ≡ taken_by content.old }
{
    let Some(verifier) = content else {
        return no_message(plain_status(CLOSED));
    };
    if !is_ready(verifier) || !takes_mac(verifier, mac.len()) {
        return no_message(status_unasked(verifier));
    }
    numbers_of(verifier.verdict_of_mac(mac))
}

/// The verdict on a message about whose signature the caller says whether it is good.
pub(crate) fn verdict_of_answer<'k, const H: usize, const D: usize>(
    content: &mut Option<Verifier<'k, H, D, FedKeys<'k>>>,
    is_good: bool,
) -> CoseVerdict
    ensures unasked { wants_answer content.old ≡ false
        → (result ≡ no_message (status_unasked content.old)) × (content.new ≡ content.old) }
    ensures verdict { WhateverRead content.old (λ setting taken _.
        wants_answer content.old ≡ true → result ≡ verdict_numbers always_authentic 0
        (verdict_by H D setting (stated_answer is_good) taken)) }
    ensures kept { wants_answer content.old ≡ true → Keeps result content.new }
    ensures same_task { task_by content.new ≡ task_by content.old }
    ensures taken { taken_by content.new ≡ taken_by content.old }
{
    let Some(verifier) = content else {
        return no_message(plain_status(CLOSED));
    };
    if !is_ready(verifier) || verifier.asked_signature().is_none() {
        return no_message(status_unasked(verifier));
    }
    numbers_of(verifier.verdict_of_answer(is_good))
}
