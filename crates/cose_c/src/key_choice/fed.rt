//! The key of a message that a verifier is fed.

ghost use Rattle.std.specs.Prelude.{◌≡◌, ℕ, true, false, List};
ghost use Rattle.cose_msg.specs.Task.{Task};
ghost use Rattle.cose_c.specs.Item.{item_numbers};
ghost use Rattle.cose_c.specs.KeyChoice as spec;
ghost use Rattle.cose_c.specs.Parameter.{bucket_in};
ghost use Rattle.cose_c.specs.Stream.{HasRead, reading_of};

use crate::held::verifier::CoseVerifier;
use crate::item::{CoseItem, no_item, numbers_of};
use crate::key_choice::{first_in, kind_numbered};
use crate::stated::{CoseTerms, is_known, permission};
use cose_msg::{Keys, Verifier};

/// The item of the terms' keys that the message of a verifier is verified with, once both its header buckets were found good.
pub(crate) fn key_of_fed<'k, const H: usize, const D: usize, K: Keys<'k>>(
    content: &Option<Verifier<'k, H, D, K>>,
    terms: &CoseTerms<'_>,
) -> CoseItem
    ensures { result ≡ item_numbers (spec.key_of_fed terms.entry.now content.now) }
{
    let (Some(verifier), Some(kind)) = (content, kind_numbered(terms.kind)) else {
        return no_item();
    };
    if !is_known(terms) {
        return no_item();
    }
    match verifier.query(kind) {
        Some(query) => numbers_of(first_in(terms.keys, &query, &permission(terms))),
        None => no_item(),
    }
}

/// Which key of the terms' key set the message of a verifier that is fed is verified with: the item of the set that the key is, once both
/// header buckets were found good, until the verifier is reset. The kind of the terms is that of the message, 17 or 18, as its verdict
/// has it. No item before that, or where no key fits; where several do, no message is verified with them, and this is the first.
#[unsafe(no_mangle)]
pub extern "C" fn cose_edge_fed_key_of(
    verifier: &mut CoseVerifier,
    terms: &CoseTerms<'_>,
    key: &mut CoseItem,
)
    ensures value { key.new
        ≡ item_numbers (spec.key_of_fed terms.entry.now verifier.old.value.content) }
    // By definition, of the bytes so far.
    ensures reads { (task : Task) (taken payload : List ℕ)
        → HasRead task taken payload verifier.old.value.content
        → spec.key_of_fed terms.entry.now verifier.old.value.content
        ≡ spec.item_under terms.entry.now
        (bucket_in true (reading_of 1024 8 task taken).so_far)
        (bucket_in false (reading_of 1024 8 task taken).so_far) }
    ensures same { verifier.new.value.content ≡ verifier.old.value.content }
    ensures same_message { verifier.new.value.message ≡ verifier.old.value.message }
{
    *key = key_of_fed(&verifier.lend().content, terms);
}
