//! A table of keys in a block: it is read once, and many messages are verified under it.

ghost use Rattle.std.specs.Prelude.{◌≡◌, ◌≤◌, true, IfOk, None, length};
ghost use Rattle.cose_map.specs.KeySet.{keys_of};
ghost use Rattle.cose_map.specs.KeyTable.{table_of};
ghost use Rattle.cose_c.specs.Claims.{GivesToken, policy_given};
ghost use Rattle.cose_c.specs.Input.{GivesAll};
ghost use Rattle.cose_c.specs.KeySet.{key_set_numbers};
ghost use Rattle.cose_c.specs.Message.{Covers, input_given, is_accepted, payload_given, verdict_given};
ghost use Rattle.cose_c.specs.Table.{keys_in, keys_read, setting_under_table, table_settings};

mod fill;
pub(crate) mod kept;
pub(crate) mod keys;
mod opened;
mod under;

use crate::claims::{CosePolicy, claims_after};
use crate::cose_claims::CoseClaims;
use crate::held::shared_table::CoseSharedTable;
use crate::held::table::CoseTable;
use crate::input::CoseSignInput;
use crate::key_set::CoseKeySet;
use crate::message::{read_whole, take_whole};
use crate::numbers::{CLOSED, CoseStatus, CoseVerdict, no_message, plain_status};
use crate::permitted::everything;
use crate::table::fill::fill;
use crate::table::keys::TableKeys;
use crate::terms::{HEADER, NESTING, PAYLOAD, kinds_wanted};
use cose_msg::{Context, Verifier};

/// What a message is verified under, by a table of keys, or why none is: a block that isn't read has no keys.
fn context<'k>(
    content: &'k Option<TableKeys>,
    aad: &'k [u8],
    wanted: u8,
) -> Result<Context<'k, &'k TableKeys>, CoseStatus>
    ensures setting { table_settings result
        ≡ setting_under_table (keys_in content.entry.now) aad.entry.now wanted }
    ensures external { IfOk result (λ context. length context.aad.now ≤ 65535) }
{
    let Some(keys) = content else {
        return Err(plain_status(CLOSED));
    };
    let wanted = kinds_wanted(aad, wanted)?;
    Ok(Context {
        keys,
        aad,
        wanted,
        cwt: true,
        understood: &[],
        payload_limit: PAYLOAD,
    })
}

/// Reads the usable keys of a key set, at most 64, each of them once. Where the set is refused, or has more usable keys, the block has
/// no table, whatever it had before; and it has no terms.
///
/// The bytes of the key set stay as they are until the block is read again, or isn't used any more.
#[unsafe(no_mangle)]
pub extern "C" fn cose_edge_table_read(
    table: &mut CoseTable,
    keys: &'static [u8],
    key_set: &mut CoseKeySet,
)
    ensures numbers { key_set.new ≡ key_set_numbers (table_of 64 (keys_of keys.now)) }
    ensures keys { keys_in table.new.value.content ≡ keys_read (table_of 64 (keys_of keys.now)) }
    ensures no_terms { table.new.value.stated ≡ None }
{
    let held = table.lend();
    held.stated = None;
    *key_set = fill(&mut held.content, keys, &everything());
}

/// Verifies a message in memory under the table's keys, as `cose_verify` does under those of a key set. A block that isn't read answers
/// `CLOSED`.
#[unsafe(no_mangle)]
pub extern "C" fn cose_edge_table_verify(
    table: &mut CoseSharedTable,
    aad: &[u8],
    wanted: u8,
    message: &[u8],
    verdict: &mut CoseVerdict,
    input: &mut CoseSignInput,
)
    ensures verdict { verdict.new
        ≡ verdict_given 1024 8
        (setting_under_table (keys_in table.old.value.content) aad.now wanted)
        verdict.new.payload_at message.now }
    ensures payload { is_accepted verdict.new ≡ true → Covers message.now
        (payload_given 1024 8
        (setting_under_table (keys_in table.old.value.content) aad.now wanted) message.now)
        verdict.new.payload_at verdict.new.payload_length }
    ensures input { verdict.new.status ≡ 2 → GivesAll
        (input_given 1024 8 (setting_under_table (keys_in table.old.value.content) aad.now wanted)
        message.now)
        input.new }
    ensures same { table.new ≡ table.old }
{
    *verdict = match context(&table.read().content, aad, wanted) {
        Ok(context) => {
            let mut verifier = Verifier::<HEADER, NESTING, &TableKeys>::new(context);
            read_whole(&mut verifier, message, input)
        }
        Err(status) => no_message(status),
    };
}

/// The verdict on a token in memory, whose signature nobody verifies, under the table's keys. It is never inlined: the verifier is off the
/// stack while the claims are read.
#[inline(never)]
fn verdict_on(content: &Option<TableKeys>, aad: &[u8], token: &[u8]) -> CoseVerdict
    ensures verdict { result
        ≡ verdict_given 1024 8 (setting_under_table (keys_in content.now) aad.now 0)
        result.payload_at token.now }
    ensures payload { is_accepted result ≡ true → Covers token.now
        (payload_given 1024 8 (setting_under_table (keys_in content.now) aad.now 0) token.now)
        result.payload_at result.payload_length }
{
    match context(content, aad, 0) {
        Ok(context) => {
            let mut verifier = Verifier::<HEADER, NESTING, &TableKeys>::new(context);
            take_whole(&mut verifier, token)
        }
        Err(status) => no_message(status),
    }
}

/// Verifies a token in memory under the table's keys and reads its claims, as `cose_verify_cwt` does under those of a key set.
#[unsafe(no_mangle)]
pub extern "C" fn cose_edge_table_verify_cwt(
    table: &mut CoseSharedTable,
    aad: &[u8],
    policy: &CosePolicy<'_>,
    token: &[u8],
    claims: &mut CoseClaims,
)
    ensures claims { GivesToken 1024 8
        (setting_under_table (keys_in table.old.value.content) aad.now 0)
        (policy_given policy.entry.now) token.now claims.new }
    ensures same { table.new ≡ table.old }
{
    let verdict = verdict_on(&table.read().content, aad, token);
    *claims = claims_after(verdict, token, NESTING, policy);
}
