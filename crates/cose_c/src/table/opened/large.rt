//! A verifier of the large size in a block that is fed under the keys of a table.

ghost use Rattle.std.specs.Prelude.{◌≡◌};
ghost use Rattle.cose_c.specs.Stream.{IsOpened, detached_given, following, opening_status};
ghost use Rattle.cose_c.specs.Table.{keys_in, setting_under_table};

use crate::held::large_verifier::CoseLargeVerifier;
use crate::held::shared_table::CoseSharedTable;
use crate::numbers::CoseStatus;
use crate::stream;
use crate::table::opened::fed_context;

/// Opens a block of a large verifier under the keys of a table, as [`cose_edge_open_table`](crate::table::opened::cose_edge_open_table) opens a small one.
#[unsafe(no_mangle)]
pub extern "C" fn cose_edge_large_open_table(
    verifier: &mut CoseLargeVerifier,
    table: &mut CoseSharedTable,
    aad: &'static [u8],
    wanted: u8,
    status: &mut CoseStatus,
)
    ensures status { status.new
        ≡ opening_status (setting_under_table (keys_in table.old.value.content) aad.now wanted) }
    ensures opened { IsOpened (setting_under_table (keys_in table.old.value.content) aad.now wanted)
        verifier.new.value.content }
    ensures next { verifier.new.value.message ≡ following verifier.old.value.message }
    ensures same { table.new ≡ table.old }
{
    let held = verifier.lend();
    held.message = stream::following(held.message);
    let context = fed_context(&table.read().content, aad, wanted);
    *status = stream::open(&mut held.content, context);
}

/// The same for messages whose payload is detached (RFC 9052 sections 4.2 and 6.2), and has so many bytes.
#[unsafe(no_mangle)]
pub extern "C" fn cose_edge_large_open_table_detached(
    verifier: &mut CoseLargeVerifier,
    table: &mut CoseSharedTable,
    aad: &'static [u8],
    wanted: u8,
    payload_length: u64,
    status: &mut CoseStatus,
)
    ensures status { status.new
        ≡ opening_status (setting_under_table (keys_in table.old.value.content) aad.now wanted) }
    ensures opened { IsOpened
        (detached_given payload_length
        (setting_under_table (keys_in table.old.value.content) aad.now wanted))
        verifier.new.value.content }
    ensures next { verifier.new.value.message ≡ following verifier.old.value.message }
    ensures same { table.new ≡ table.old }
{
    let held = verifier.lend();
    held.message = stream::following(held.message);
    let context = fed_context(&table.read().content, aad, wanted);
    *status = stream::open_detached(&mut held.content, context, payload_length);
}
