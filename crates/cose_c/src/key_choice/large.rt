//! The key of a message whose header buckets have at most 65,535 bytes, nested at most 16 deep.

ghost use Rattle.std.specs.Prelude.{◌≡◌, ℕ, ℤ, true, false, List, Ok, Some, option_and_then};
ghost use Rattle.cose_map.specs.Choice.{Question, chosen};
ghost use Rattle.cose_map.specs.Key.Value.{KeyValue};
ghost use Rattle.cose_map.specs.KeySet.{keys_of, usable};
ghost use Rattle.cose_msg.specs.Task.{Task};
ghost use Rattle.cose_c.specs.Item.{item_at, item_numbers};
ghost use Rattle.cose_c.specs.KeyChoice as spec;
ghost use Rattle.cose_c.specs.Parameter.{bucket_in};
ghost use Rattle.cose_c.specs.Permitted.{permitted_in};
ghost use Rattle.cose_c.specs.Stated.{permission_stated, setting_stated};
ghost use Rattle.cose_c.specs.Stream.{HasRead, reading_of};

use crate::held::large_verifier::CoseLargeVerifier;
use crate::item::{CoseItem, no_item};
use crate::key_choice::fed::key_of_fed;
use crate::key_choice::{CoseKeyFit, fit_at, key_chosen, kind_numbered, no_fit};
use crate::numbers::{BAD_ARGUMENT, plain_status};
use crate::permitted::PermittedKeys;
use crate::stated::{CoseTerms, context, labels_of};
use crate::terms::{LARGE_HEADER, LARGE_NESTING};
use cose_msg::Verifier;

/// Which key of the terms' key set a message with large header buckets is verified with, as `cose_key_of` says it of others.
#[unsafe(no_mangle)]
pub extern "C" fn cose_edge_large_key_of(terms: &CoseTerms<'_>, message: &[u8], key: &mut CoseItem)
    ensures value { key.new
        ≡ item_numbers
        (spec.key_chosen
        (spec.asked_given 65535 16 (setting_stated terms.entry.now)
        (spec.kind_numbered terms.entry.now.kind) message.now)
        (permission_stated terms.entry.now) terms.entry.now.keys.now) }
    // Where a key is chosen, it is that of this item.
    ensures chosen { (q : Question) (keys : List KeyValue) (found : KeyValue × ℤ)
        → spec.asked_given 65535 16 (setting_stated terms.entry.now)
        (spec.kind_numbered terms.entry.now.kind) message.now ≡ Ok q
        → permitted_in (permission_stated terms.entry.now) (keys_of terms.entry.now.keys.now)
        ≡ Ok keys
        → chosen q keys ≡ Ok found
        → option_and_then usable
        (spec.key_chosen
        (spec.asked_given 65535 16 (setting_stated terms.entry.now)
        (spec.kind_numbered terms.entry.now.kind) message.now)
        (permission_stated terms.entry.now) terms.entry.now.keys.now)
        ≡ Some found.0 }
{
    let labels = labels_of(&terms.understood);
    *key = match context(terms, &labels) {
        Ok(context) => match kind_numbered(terms.kind) {
            Some(kind) => {
                let mut verifier = Verifier::<
                    LARGE_HEADER,
                    LARGE_NESTING,
                    PermittedKeys<'_>,
                >::inspecting(context);
                key_chosen(&mut verifier, kind, message, terms)
            }
            None => no_item(),
        },
        Err(_) => no_item(),
    };
}

/// Why the key at this place isn't the one that such a message is verified with, as `cose_mismatch` says it of others.
#[unsafe(no_mangle)]
pub extern "C" fn cose_edge_large_mismatch(
    terms: &CoseTerms<'_>,
    message: &[u8],
    place: u64,
    fit: &mut CoseKeyFit,
)
    ensures { fit.new
        ≡ spec.fit_asked
        (spec.asked_given 65535 16 (setting_stated terms.entry.now)
        (spec.kind_numbered terms.entry.now.kind) message.now)
        (permission_stated terms.entry.now) (item_at terms.entry.now.keys.now place) }
{
    let labels = labels_of(&terms.understood);
    *fit = match context(terms, &labels) {
        Ok(context) => match kind_numbered(terms.kind) {
            Some(kind) => {
                let mut verifier = Verifier::<
                    LARGE_HEADER,
                    LARGE_NESTING,
                    PermittedKeys<'_>,
                >::inspecting(context);
                fit_at(&mut verifier, kind, message, terms, place)
            }
            None => no_fit(plain_status(BAD_ARGUMENT)),
        },
        Err(status) => no_fit(status),
    };
}

/// Which key of the terms' key set the message of a verifier that is fed is verified with, as `cose_fed_key_of` says it of others.
#[unsafe(no_mangle)]
pub extern "C" fn cose_edge_large_fed_key_of(
    verifier: &mut CoseLargeVerifier,
    terms: &CoseTerms<'_>,
    key: &mut CoseItem,
)
    ensures value { key.new
        ≡ item_numbers (spec.key_of_fed terms.entry.now verifier.old.value.content) }
    // By definition, of the bytes so far.
    ensures reads { (task : Task) (taken payload : List ℕ)
        → HasRead task taken payload verifier.old.value.content
        → spec.key_of_fed terms.entry.now verifier.old.value.content
        ≡ spec.item_under terms.entry.now
        (bucket_in true (reading_of 65535 16 task taken).so_far)
        (bucket_in false (reading_of 65535 16 task taken).so_far) }
    ensures same { verifier.new.value.content ≡ verifier.old.value.content }
    ensures same_message { verifier.new.value.message ≡ verifier.old.value.message }
{
    *key = key_of_fed(&verifier.lend().content, terms);
}
