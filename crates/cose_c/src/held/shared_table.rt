//! A table of keys in the caller's memory that is only read: any number of calls may do so at once, in any threads.

ghost use Rattle.std.specs.Prelude.{◌≡◌};
ghost use Rattle.cose_c.specs.declared.held.table.HeldTable.{HeldTable};

use crate::held::table::HeldTable;
use std::marker::Model;

/// The handle of a table that is only read: where its block is. Any number of them may be of one block, while none is that of a table
/// that is written.
#[repr(C)]
pub struct CoseSharedTable {
    at: *const u8,
    pub ghost value: { HeldTable },
}

impl Model for CoseSharedTable {
    ghost use Rattle.cose_c.specs.HeldShared.{lent_table};

    ghost also_owns = { λ handle. lent_table handle.at handle.value };
}

impl CoseSharedTable {
    /// The value in the block.
    pub(crate) fn read(&mut self) -> &'static HeldTable
        ensures { (result.now ≡ self.old.value) × (self.new ≡ self.old) }
    {
        unsafe { &*(self.at as *const HeldTable) }
    }
}
