//! A table of keys in the caller's memory, of at most 64 keys.

ghost use Rattle.std.specs.Prelude.{◌≡◌, None};
ghost use Rattle.std.specs.Borrow.{full_share, sem};
ghost use Rattle.std.specs.Ptr.{lies_at};
ghost use prog.Memory.{align, capped, size};
ghost use denote.Param.{layout};
ghost use denote.RawPtr.{room_at};
ghost use Rattle.cose_c.specs.declared.held.table.HeldTable.{HeldTable};
ghost use Rattle.cose_c.specs.contracts.held.table.HeldTable.{the_row};

use crate::table::kept::TableTerms;
use crate::table::keys::TableKeys;
use std::marker::Model;
use std::ptr;

/// The value in a block: a table, once it is read, and the terms that it was read under, if any.
#[derive(Drop)]
pub struct HeldTable {
    pub(crate) content: Option<TableKeys>,
    pub(crate) stated: Option<TableTerms>,
}

/// The handle of a table: where its block is.
#[repr(C)]
pub struct CoseTable {
    at: *mut u8,
    pub ghost value: { HeldTable },
}

impl Model for CoseTable {
    ghost also_owns = { λ handle. lies_at the_row full_share handle.at handle.value };
}

impl CoseTable {
    ghost use Rattle.cose_c.specs.Held.{LendsTable};

    /// The value in the block.
    pub(crate) fn lend(&mut self) -> &mut HeldTable
        ensures* writes_back { sem 𝓛 (LendsTable self.entry result) }
        ensures value { result.now ≡ self.old.value }
    {
        unsafe { &mut *(self.at as *mut HeldTable) }
    }
}

/// A value without a table.
fn closed() -> HeldTable
    ensures { result.content ≡ None }
{
    HeldTable {
        content: None,
        stated: None,
    }
}

/// The number of bytes of a table's block.
#[unsafe(no_mangle)]
pub extern "C" fn cose_table_size() -> usize
    ensures { result ≡ capped (size (layout the_row)) }
{
    size_of::<HeldTable>()
}

/// The alignment of its address.
#[unsafe(no_mangle)]
pub extern "C" fn cose_table_align() -> usize
    ensures { result ≡ capped (align (layout the_row)) }
{
    align_of::<HeldTable>()
}

/// Makes the bytes at this address the block of a table that isn't read.
#[unsafe(no_mangle)]
pub unsafe extern "C" fn cose_table_begin(at: *mut u8)
    requires* { sem 𝓛 (room_at the_row at) }
    ensures* { ∃ₛ λ (begun : HeldTable). sem 𝓛 (lies_at the_row full_share at begun)
        ∗ ⌜ begun.content ≡ None ⌝ }
{
    ptr::write(at as *mut HeldTable, closed())
}
