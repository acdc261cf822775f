//! A firmware image beside its message.

ghost use Rattle.std.specs.Prelude.{◌≡◌, false, true, IfOk};
ghost use Rattle.cose_msg.specs.Kept.{WhateverTaken, is_inspecting};
ghost use Rattle.cose_msg.specs.Verifier.{detaching, is_detached, setting_in};
ghost use Rattle.cose_map.specs.KeySet.View.{keys as usable};
ghost use Rattle.cose_examples.specs.Context.{setting_under};
ghost use Rattle.cose_examples.specs.Firmware.{AloneIs, IsOfImage, TakesImage, WhereAuthentic};

use crate::context::context;
use cose_msg::laws::{deciding_goes_last, settled_stays};
use cose_msg::{
    EcVerifier, Intake, KeySet, Reason, Refusal, Sink, Status, Stop, Verdict, Verifier,
};

/// The verdict on so many bytes that should be one message: a byte after it is refused.
fn alone(verdict: Verdict, count: u64) -> Verdict
    ensures { AloneIs count verdict result }
{
    match verdict {
        Verdict::Authentic { taken, .. } if taken < count => Verdict::Refused(Refusal {
            reason: Reason::Trailing,
            place: taken,
        }),
        verdict => verdict,
    }
}

/// Writes an image to the slot in pieces, as far as the verifier wants it and it comes.
fn write_image<I: Intake, S: Sink>(
    verifier: &mut Verifier<256, 4>,
    image: &mut I,
    slot: &mut S,
) -> Result<(), Stop>
    ensures takes { WhateverTaken verifier.old (λ task taken before. IfOk result (λ _.
        TakesImage task taken before (I.to_come image.old) (I.to_come image.new)
        (S.contents slot.old) (S.contents slot.new) verifier.new)) }
{
    let mut page = [0u8; 256];
    'pages: loop {
        let most = verifier.payload_wanted().min(256) as usize;
        if most == 0 {
            return Ok(());
        }
        let count = match image.take(&mut page[..most]) {
            Ok(count) => count,
            Err(_) => return Err(Stop::Intake),
        };
        if count == 0 {
            return Ok(());
        }
        let piece = &page[..count];
        verifier.feed_payload(piece);
        if slot.put(piece).is_err() {
            return Err(Stop::Sink);
        }
    }
}

/// The verdict on an image whose COSE message came before it, with nil for its payload. The slot isn't started yet. A message that
/// has its payload is refused, and so is one with bytes after it.
pub fn update<I: Intake, S: Sink, E: EcVerifier>(
    verifier: &mut Verifier<256, 4>,
    message: &[u8],
    image: &mut I,
    slot: &mut S,
    ec: &E,
) -> Result<Verdict, Stop>
    requires verifies { is_inspecting verifier.old ≡ false }
    requires detached { is_detached verifier.old ≡ true }
    ensures approved { WhereAuthentic result
        (IsOfImage (setting_in verifier.old) (E.decides ec.now) message.now
        (I.to_come image.old) (I.to_come image.new) (S.contents slot.old) (S.contents slot.new)) }
{
    // Laws that the proof cites.
    settled_stays();
    deciding_goes_last();
    verifier.reset();
    let at_nil = verifier.feed(message).used;
    write_image(verifier, image, slot)?;
    verifier.feed(&message[at_nil..]);
    if verifier.is_complete() {
        return Ok(alone(verifier.verdict(ec), message.len() as u64));
    }
    match verifier.end() {
        Status::Refused(refusal) => Ok(Verdict::Refused(refusal)),
        _ => Err(Stop::Again),
    }
}

/// The same, of an image of this many bytes under these keys.
pub fn install<I: Intake, S: Sink, E: EcVerifier>(
    keys: KeySet<'_>,
    length: u64,
    message: &[u8],
    image: &mut I,
    slot: &mut S,
    ec: &E,
) -> Result<Verdict, Stop>
    ensures approved { WhereAuthentic result
        (IsOfImage (detaching length (setting_under (usable keys.entry))) (E.decides ec.now) message.now
        (I.to_come image.old) (I.to_come image.new) (S.contents slot.old) (S.contents slot.new)) }
{
    let mut verifier = Verifier::detached(context(keys), length);
    update(&mut verifier, message, image, slot, ec)
}
