//! Reads the keys of a table where its block is, so that no copy of the table is on the stack.

ghost use Rattle.std.specs.Prelude.{◌≡◌, List, Ok, Some, length, option_map};
ghost use Rattle.cose_map.specs.Key.Value.{KeyValue};
ghost use Rattle.cose_c.specs.KeySet.{key_set_numbers};
ghost use Rattle.cose_c.specs.PermittedView.{permission_value};
ghost use Rattle.cose_c.specs.Table.{few_permitted, keys_in, keys_read, permitted_table, room_in};

use crate::key_set::{CoseKeySet, counted, no_key_set};
use crate::numbers::{KEYS_REFUSED, refused_status};
use crate::permitted::Permission;
use crate::table::keys::TableKeys;
use cose_map::{KeyTable, PreparedTable};

/// Gives a block a table without keys. It is never inlined: what it takes of the stack is free again when the keys are read.
#[inline(never)]
fn begin_few(content: &mut Option<TableKeys>)
    ensures { room_in content.new ≡ Some 8 }
{
    *content = Some(TableKeys::Few(PreparedTable::empty()));
}

/// The same for many keys.
#[inline(never)]
fn begin_many(content: &mut Option<TableKeys>)
    ensures { room_in content.new ≡ Some 64 }
{
    *content = Some(TableKeys::Many(KeyTable::new()));
}

/// Reads the permitted keys of a set where the block is, if they are few, and says how many there are.
fn fill_few(
    content: &mut Option<TableKeys>,
    keys: &'static [u8],
    permission: &Permission,
) -> Option<u64>
    ensures count { result
        ≡ option_map length
        (keys_read (few_permitted (permission_value permission.now) keys.now)) }
    ensures keys { (found : List KeyValue)
        → few_permitted (permission_value permission.now) keys.now ≡ Ok found
        → keys_in content.new ≡ Some found }
{
    begin_few(content);
    let Some(table) = content else {
        unreachable!();
    };
    match table.fill(keys, permission) {
        Ok(()) => Some(table.count() as u64),
        Err(_) => None,
    }
}

/// Reads the permitted keys of a set where the block is, if there is room for them.
fn fill_many(
    content: &mut Option<TableKeys>,
    keys: &'static [u8],
    permission: &Permission,
) -> CoseKeySet
    ensures numbers { result
        ≡ key_set_numbers (permitted_table (permission_value permission.now) keys.now) }
    ensures keys { keys_in content.new
        ≡ keys_read (permitted_table (permission_value permission.now) keys.now) }
{
    begin_many(content);
    let Some(table) = content else {
        unreachable!();
    };
    match table.fill(keys, permission) {
        Ok(()) => counted(table.count() as u64),
        Err(refusal) => {
            *content = None;
            no_key_set(refused_status(KEYS_REFUSED, refusal))
        }
    }
}

/// Gives a block the table of the permitted keys of a set, or none where the set or so many keys are refused.
pub(crate) fn fill(
    content: &mut Option<TableKeys>,
    keys: &'static [u8],
    permission: &Permission,
) -> CoseKeySet
    ensures numbers { result
        ≡ key_set_numbers (permitted_table (permission_value permission.now) keys.now) }
    ensures keys { keys_in content.new
        ≡ keys_read (permitted_table (permission_value permission.now) keys.now) }
{
    match fill_few(content, keys, permission) {
        Some(count) => counted(count),
        None => fill_many(content, keys, permission),
    }
}
