//! A verifier in a block that is fed under the keys of a table.

ghost use Rattle.std.specs.Prelude.{◌≡◌, ◌≤◌, IfOk, length};
ghost use Rattle.cose_c.specs.FedKeys.{settings_fed};
ghost use Rattle.cose_c.specs.Stream.{IsOpened, detached_given, following, opening_status};
ghost use Rattle.cose_c.specs.Table.{keys_in, setting_under_table};

mod large;

use crate::fed_keys::FedKeys;
use crate::held::shared_table::CoseSharedTable;
use crate::held::verifier::CoseVerifier;
use crate::numbers::CoseStatus;
use crate::stream;
use crate::table::context;
use crate::table::keys::TableKeys;
use cose_msg::Context;

/// What the messages are verified under by a table of keys, or why none is: a block that isn't read has no keys.
pub(crate) fn fed_context<'k>(
    content: &'k Option<TableKeys>,
    aad: &'k [u8],
    wanted: u8,
) -> Result<Context<'k, FedKeys<'k>>, CoseStatus>
    ensures setting { settings_fed result
        ≡ setting_under_table (keys_in content.entry.now) aad.entry.now wanted }
    ensures external { IfOk result (λ context. length context.aad.now ≤ 65535) }
{
    match context(content, aad, wanted) {
        Ok(context) => Ok(Context {
            keys: FedKeys::InTable(context.keys),
            aad: context.aad,
            wanted: context.wanted,
            cwt: context.cwt,
            understood: context.understood,
            payload_limit: context.payload_limit,
        }),
        Err(status) => Err(status),
    }
}

/// Opens a block under the keys of a table, as [`cose_edge_open`](crate::stream) does under those of a key set. A table that isn't read
/// answers `CLOSED`; of one that was read under terms the keys are taken, and nothing else that they state.
///
/// The table, its key set and the external data stay as they are until the block is opened again, or isn't used any more.
#[unsafe(no_mangle)]
pub extern "C" fn cose_edge_open_table(
    verifier: &mut CoseVerifier,
    table: &mut CoseSharedTable,
    aad: &'static [u8],
    wanted: u8,
    status: &mut CoseStatus,
)
    ensures status { status.new
        ≡ opening_status (setting_under_table (keys_in table.old.value.content) aad.now wanted) }
    ensures opened { IsOpened (setting_under_table (keys_in table.old.value.content) aad.now wanted)
        verifier.new.value.content }
    ensures next { verifier.new.value.message ≡ following verifier.old.value.message }
    ensures same { table.new ≡ table.old }
{
    let held = verifier.lend();
    held.message = stream::following(held.message);
    let context = fed_context(&table.read().content, aad, wanted);
    *status = stream::open(&mut held.content, context);
}

/// The same for messages whose payload is detached (RFC 9052 sections 4.2 and 6.2), and has so many bytes.
#[unsafe(no_mangle)]
pub extern "C" fn cose_edge_open_table_detached(
    verifier: &mut CoseVerifier,
    table: &mut CoseSharedTable,
    aad: &'static [u8],
    wanted: u8,
    payload_length: u64,
    status: &mut CoseStatus,
)
    ensures status { status.new
        ≡ opening_status (setting_under_table (keys_in table.old.value.content) aad.now wanted) }
    ensures opened { IsOpened
        (detached_given payload_length
        (setting_under_table (keys_in table.old.value.content) aad.now wanted))
        verifier.new.value.content }
    ensures next { verifier.new.value.message ≡ following verifier.old.value.message }
    ensures same { table.new ≡ table.old }
{
    let held = verifier.lend();
    held.message = stream::following(held.message);
    let context = fed_context(&table.read().content, aad, wanted);
    *status = stream::open_detached(&mut held.content, context, payload_length);
}
