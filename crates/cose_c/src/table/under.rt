//! A table that is read under terms: which keys it takes, and what its messages are verified under, is stated once.

ghost use Rattle.std.specs.Prelude.{◌≡◌, ◌≤◌, Ok, true, IfOk, List, length};
ghost use Rattle.cose_map.specs.Key.Value.{KeyValue};
ghost use Rattle.cose_c.specs.Input.{GivesAll};
ghost use Rattle.cose_c.specs.Message.{Covers, input_given, is_accepted, payload_given, verdict_given};
ghost use Rattle.cose_c.specs.Required.{GivesRequired, required_stated};
ghost use Rattle.cose_c.specs.Table.{table_settings};
ghost use Rattle.cose_c.specs.TableUnder.{setting_by_terms, setting_in_table, setting_kept, setting_left, setting_of_table, table_numbers};

use crate::admit::claims_after;
use crate::cose_claims::CoseClaims;
use crate::held::shared_table::CoseSharedTable;
use crate::held::table::{CoseTable, HeldTable};
use crate::input::CoseSignInput;
use crate::key_set::{CoseKeySet, no_key_set};
use crate::message::{read_whole, take_whole};
use crate::numbers::{BAD_ARGUMENT, CLOSED, CoseStatus, CoseVerdict, no_message, plain_status};
use crate::required::CoseRequirements;
use crate::stated::{CoseTerms, count_before_zero, is_known, labels_of, payload_limit, permission};
use crate::table::fill::fill;
use crate::table::kept::TableTerms;
use crate::table::keys::TableKeys;
use crate::terms::{HEADER, NESTING, kinds_wanted};
use cose_msg::{Context, Verifier};

/// What terms state of a table's messages, or why they are refused. It is never inlined: what it takes of the stack is free again when
/// the keys are read.
#[inline(never)]
fn stated_by(terms: &CoseTerms<'static>) -> Result<TableTerms, CoseStatus>
    ensures { (keys : List KeyValue)
        → setting_in_table result keys ≡ setting_by_terms terms.now (Ok keys) }
{
    if !is_known(terms) {
        return Err(plain_status(BAD_ARGUMENT));
    }
    Ok(TableTerms {
        wanted: kinds_wanted(terms.aad, terms.kind)?,
        aad: terms.aad,
        payload_limit: payload_limit(terms.payload_limit),
        labels: labels_of(&terms.understood),
        understood: count_before_zero(&terms.understood),
    })
}

/// What a message is verified under, by a table that was read under terms, or why none is.
#[tactic(auto, using(crate::proofs::Labels::labels_taken))]
fn context<'h>(held: &'h HeldTable) -> Result<Context<'h, &'h TableKeys>, CoseStatus>
    ensures setting { table_settings result ≡ setting_kept held.entry.now }
    ensures external { IfOk result (λ context. length context.aad.now ≤ 65535) }
{
    let (Some(keys), Some(stated)) = (&held.content, &held.stated) else {
        return Err(plain_status(CLOSED));
    };
    Ok(Context {
        keys,
        aad: stated.aad,
        wanted: stated.wanted,
        cwt: true,
        understood: &stated.labels[..stated.understood],
        payload_limit: stated.payload_limit,
    })
}

/// Reads the keys of the terms that they permit, at most 64, each of them once, and keeps the terms. Where the
/// terms, their key set or so many keys are refused, the block has neither table nor terms, whatever it had before.
///
/// The keys and the external data stay as they are until the block is read again, or isn't used any more; the struct is copied.
#[unsafe(no_mangle)]
pub extern "C" fn cose_edge_table_read_under(
    table: &mut CoseTable,
    terms: &CoseTerms<'static>,
    key_set: &mut CoseKeySet,
)
    ensures numbers { key_set.new ≡ table_numbers (setting_of_table terms.now) }
    ensures kept { setting_kept table.new.value ≡ setting_left (setting_of_table terms.now) }
{
    let held = table.lend();
    held.content = None;
    held.stated = None;
    *key_set = match stated_by(terms) {
        Ok(stated) => {
            held.stated = Some(stated);
            fill(&mut held.content, terms.keys, &permission(terms))
        }
        Err(status) => no_key_set(status),
    };
}

/// Verifies a message in memory under the table's terms, as `cose_authenticate` does under a struct of them. A block that wasn't read
/// under terms answers `CLOSED`.
#[unsafe(no_mangle)]
pub extern "C" fn cose_edge_table_authenticate(
    table: &mut CoseSharedTable,
    message: &[u8],
    verdict: &mut CoseVerdict,
    input: &mut CoseSignInput,
)
    ensures verdict { verdict.new
        ≡ verdict_given 1024 8 (setting_kept table.old.value) verdict.new.payload_at message.now }
    ensures payload { is_accepted verdict.new ≡ true → Covers message.now
        (payload_given 1024 8 (setting_kept table.old.value) message.now)
        verdict.new.payload_at verdict.new.payload_length }
    ensures input { verdict.new.status ≡ 2 → GivesAll
        (input_given 1024 8 (setting_kept table.old.value) message.now) input.new }
    ensures same { table.new ≡ table.old }
{
    *verdict = match context(table.read()) {
        Ok(context) => {
            let mut verifier = Verifier::<HEADER, NESTING, &TableKeys>::new(context);
            read_whole(&mut verifier, message, input)
        }
        Err(status) => no_message(status),
    };
}

/// The verdict on a token in memory, whose signature nobody verifies, under the terms of what is held. It is never inlined: the verifier
/// is off the stack while the claims are read.
#[inline(never)]
fn verdict_kept(held: &HeldTable, token: &[u8]) -> CoseVerdict
    ensures verdict { result
        ≡ verdict_given 1024 8 (setting_kept held.now) result.payload_at token.now }
    ensures payload { is_accepted result ≡ true → Covers token.now
        (payload_given 1024 8 (setting_kept held.now) token.now)
        result.payload_at result.payload_length }
{
    match context(held) {
        Ok(context) => {
            let mut verifier = Verifier::<HEADER, NESTING, &TableKeys>::new(context);
            take_whole(&mut verifier, token)
        }
        Err(status) => no_message(status),
    }
}

/// Verifies a token in memory under the table's terms, and reads its claims where they meet requirements, as `cose_admit` does under a
/// struct of terms.
#[unsafe(no_mangle)]
pub extern "C" fn cose_edge_table_admit(
    table: &mut CoseSharedTable,
    requirements: &CoseRequirements<'_>,
    token: &[u8],
    claims: &mut CoseClaims,
)
    ensures claims { GivesRequired 1024 8 (setting_kept table.old.value)
        (required_stated requirements.entry.now) token.now claims.new }
    ensures same { table.new ≡ table.old }
{
    let verdict = verdict_kept(table.read(), token);
    claims_after(verdict, token, NESTING, requirements, claims);
}
