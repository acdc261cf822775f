//! A verifier in a block whose message the caller authenticates: header buckets of at most 1,024 bytes, nested at most 8 deep.

ghost use Rattle.std.specs.Prelude.{◌≡◌, ◌≢◌, ◌≤◌, ◌⊎◌, length, true, false, if◌then◌else◌};
ghost use Rattle.cose_map.specs.KeySet.{keys_of};
ghost use Rattle.cose_msg.specs.Elsewhere.{HasSignature, stated_answer, stated_mac, verdict_by};
ghost use Rattle.cose_msg.specs.Message.{message, uncompared};
ghost use Rattle.cose_c.specs.Elsewhere.{GivesChosen, GivesFront, GivesSignature, IsOpenedElsewhere, WhateverRead, WhateverWhole, is_asked, is_ready, makes_macs_of, status_unasked, wants_answer};
ghost use Rattle.cose_c.specs.Numbers.{always_authentic, no_message, plain_status, verdict_numbers};
ghost use Rattle.cose_c.specs.Stream.{Keeps, detached_given, following, opening_status, says_good, taken_by, task_by};
ghost use Rattle.cose_c.specs.Terms.{setting_given};

use crate::elsewhere::{CoseAskedKey, CoseAskedSignature, CoseFrontPieces};
use crate::held::verifier::CoseVerifier;
use crate::numbers::{BAD_ARGUMENT, CoseStatus, CoseVerdict, no_message, plain_status};
use crate::{elsewhere, stream};

/// Opens a block as [`cose_edge_open`](crate::stream::small::cose_edge_open) does, for messages that the caller authenticates, since it has the hash or the
/// key: nothing is hashed or compared, and a symmetric key's bytes may be any handle.
#[unsafe(no_mangle)]
pub extern "C" fn cose_edge_open_elsewhere(
    verifier: &mut CoseVerifier,
    keys: &'static [u8],
    aad: &'static [u8],
    wanted: u8,
    status: &mut CoseStatus,
)
    ensures status { status.new
        ≡ opening_status (setting_given (keys_of keys.now) aad.now wanted) }
    ensures opened { IsOpenedElsewhere (setting_given (keys_of keys.now) aad.now wanted)
        verifier.new.value.content }
    ensures next { verifier.new.value.message ≡ following verifier.old.value.message }
{
    let held = verifier.lend();
    held.message = stream::following(held.message);
    *status = elsewhere::open_elsewhere(&mut held.content, keys, aad, wanted);
}

/// The same for messages whose payload is detached (RFC 9052 sections 4.2 and 6.2), and has so many bytes.
#[unsafe(no_mangle)]
pub extern "C" fn cose_edge_open_elsewhere_detached(
    verifier: &mut CoseVerifier,
    keys: &'static [u8],
    aad: &'static [u8],
    wanted: u8,
    payload_length: u64,
    status: &mut CoseStatus,
)
    ensures status { status.new
        ≡ opening_status (setting_given (keys_of keys.now) aad.now wanted) }
    ensures opened { IsOpenedElsewhere
        (detached_given payload_length (setting_given (keys_of keys.now) aad.now wanted))
        verifier.new.value.content }
    ensures next { verifier.new.value.message ≡ following verifier.old.value.message }
{
    let held = verifier.lend();
    held.message = stream::following(held.message);
    *status = elsewhere::open_elsewhere_detached(
        &mut held.content,
        keys,
        aad,
        wanted,
        payload_length,
    );
}

/// Gives what is hashed before the payload, in six pieces, and returns 1: once the payload's head was read, and until the verdict. Otherwise
/// it returns 0, and changes nothing. The third piece, the content of the protected header as received, is copied to `header`, as many
/// bytes as there is room for; the fifth is the external data that the block was opened with.
#[unsafe(no_mangle)]
pub extern "C" fn cose_edge_front_pieces(
    verifier: &mut CoseVerifier,
    header: &mut [u8],
    pieces: &mut CoseFrontPieces,
) -> u8
    ensures front { result ≡ 1 → pieces.new.protected_length ≤ length header.old
        → GivesFront verifier.old.value.content header.new pieces.new }
    ensures some { WhateverRead verifier.old.value.content (λ _ _ _.
        result ≡ (if is_asked verifier.old.value.content then 1 else 0)) }
    ensures none { result ≡ 0 → (pieces.new ≡ pieces.old) × (header.new ≡ header.old) }
    ensures same { verifier.new.value.content ≡ verifier.old.value.content }
    ensures same_message { verifier.new.value.message ≡ verifier.old.value.message }
{
    if elsewhere::front_pieces(&verifier.lend().content, header, pieces) {
        1
    } else {
        0
    }
}

/// Gives the key that was chosen, as it is in the key set that the block was opened with, and its algorithm, and returns 1: once the payload's
/// head was read, and until the verdict. Otherwise it returns 0, and leaves `asked` as it was.
#[unsafe(no_mangle)]
pub extern "C" fn cose_edge_asked_key(
    verifier: &mut CoseVerifier,
    asked: &mut CoseAskedKey<'static>,
) -> u8
    ensures key { result ≡ 1 → GivesChosen verifier.old.value.content asked.new }
    ensures some { WhateverRead verifier.old.value.content (λ _ _ _.
        result ≡ (if is_asked verifier.old.value.content then 1 else 0)) }
    ensures none { result ≡ 0 → asked.new ≡ asked.old }
    ensures same { verifier.new.value.content ≡ verifier.old.value.content }
    ensures same_message { verifier.new.value.message ≡ verifier.old.value.message }
{
    if elsewhere::asked_key(&verifier.lend().content, asked) {
        1
    } else {
        0
    }
}

/// Gives the signature of a COSE_Sign1 as it was received, and returns 1, once all bytes are there and until the verdict. Otherwise it returns
/// 0, and leaves `signature` as it was. The tag of a COSE_Mac0 is given to no one.
#[unsafe(no_mangle)]
pub extern "C" fn cose_asked_signature(
    verifier: &mut CoseVerifier,
    signature: &mut CoseAskedSignature,
) -> u8
    ensures signature { result ≡ 1
        → WhateverRead verifier.old.value.content (λ setting taken _.
        GivesSignature (message (uncompared 1024 8 setting) taken).answer signature.new) }
    ensures none { result ≡ 0 → signature.new ≡ signature.old }
    ensures same { verifier.new.value.content ≡ verifier.old.value.content }
    ensures same_message { verifier.new.value.message ≡ verifier.old.value.message }
{
    if elsewhere::asked_signature(&verifier.lend().content, signature) {
        1
    } else {
        0
    }
}

/// The verdict on a COSE_Mac0 that is complete: its tag is compared with the MAC that the caller computed of the pieces and the payload, under
/// the key that it was asked about (RFC 9052 section 6.3), in steps that don't depend on where they differ. The first verdict stands until
/// the block is reset or opened.
///
/// Before the message is complete the verdict is the block's status. It is `BAD_ARGUMENT` where no such MAC is asked for: of a COSE_Sign1, of
/// another length, where a verdict was given already, and of a block that wasn't opened for this. Then nothing changes.
#[unsafe(no_mangle)]
pub extern "C" fn cose_edge_verdict_of_mac(
    verifier: &mut CoseVerifier,
    mac: &[u8],
    verdict: &mut CoseVerdict,
)
    ensures early { is_ready verifier.old.value.content ≡ false
        → (verdict.new ≡ no_message (status_unasked verifier.old.value.content))
        × (verifier.new.value.content ≡ verifier.old.value.content) }
    ensures unasked { is_ready verifier.old.value.content ≡ true
        → is_asked verifier.old.value.content ≡ false
        → (verdict.new ≡ no_message (plain_status 12))
        × (verifier.new.value.content ≡ verifier.old.value.content) }
    ensures other_length { WhateverWhole verifier.old.value.content (λ _ _ found.
        makes_macs_of (length mac.now) found ≡ false
        → (verdict.new ≡ no_message (plain_status 12))
        × (verifier.new.value.content ≡ verifier.old.value.content)) }
    ensures verdict { WhateverWhole verifier.old.value.content (λ setting taken found.
        makes_macs_of (length mac.now) found ≡ true
        → verdict.new ≡ verdict_numbers always_authentic 0
        (verdict_by 1024 8 setting (stated_mac mac.now) taken)) }
    ensures kept { Keeps verdict.new verifier.new.value.content
        ⊎ ((verdict.new ≡ no_message (status_unasked verifier.old.value.content))
        × (verifier.new.value.content ≡ verifier.old.value.content)) }
    ensures same_task { task_by verifier.new.value.content ≡ task_by verifier.old.value.content }
    ensures taken { taken_by verifier.new.value.content ≡ taken_by verifier.old.value.content }
    ensures same_message { verifier.new.value.message ≡ verifier.old.value.message }
{
    *verdict = elsewhere::verdict_of_mac(&mut verifier.lend().content, mac);
}

/// The verdict on the COSE_Sign1 of this number that is complete, about whose signature the caller's verifier said 1, that it is good, or any
/// other number (RFC 9052 section 4.4). The first verdict stands until the block is reset or opened.
///
/// Before the message is complete the verdict is the block's status. It is `BAD_ARGUMENT` where no such answer is asked for: of a COSE_Mac0,
/// of a message of another number, where a verdict was given already, and of a block that wasn't opened for this. Then nothing changes.
#[unsafe(no_mangle)]
pub extern "C" fn cose_verdict_of_answer(
    verifier: &mut CoseVerifier,
    message: u64,
    holds: i32,
    verdict: &mut CoseVerdict,
)
    ensures other { message ≢ verifier.old.value.message
        → (verdict.new ≡ no_message (plain_status 12))
        × (verifier.new.value.content ≡ verifier.old.value.content) }
    ensures unasked { message ≡ verifier.old.value.message
        → wants_answer verifier.old.value.content ≡ false
        → (verdict.new ≡ no_message (status_unasked verifier.old.value.content))
        × (verifier.new.value.content ≡ verifier.old.value.content) }
    ensures verdict { message ≡ verifier.old.value.message
        → WhateverRead verifier.old.value.content (λ setting taken _.
        wants_answer verifier.old.value.content ≡ true
        → verdict.new ≡ verdict_numbers always_authentic 0
        (verdict_by 1024 8 setting (stated_answer (says_good holds)) taken)) }
    ensures kept { message ≡ verifier.old.value.message
        → wants_answer verifier.old.value.content ≡ true
        → Keeps verdict.new verifier.new.value.content }
    ensures same_task { task_by verifier.new.value.content ≡ task_by verifier.old.value.content }
    ensures taken { taken_by verifier.new.value.content ≡ taken_by verifier.old.value.content }
    ensures same_message { verifier.new.value.message ≡ verifier.old.value.message }
{
    let held = verifier.lend();
    if held.message != message {
        *verdict = no_message(plain_status(BAD_ARGUMENT));
        return;
    }
    let is_good = stream::says_good(holds);
    *verdict = elsewhere::verdict_of_answer(&mut held.content, is_good);
}
