//! What is known of a key set.

ghost use Rattle.std.specs.Prelude.{◌≡◌};
ghost use Rattle.cose_map.specs.KeySet.{keys_of};
ghost use Rattle.cose_c.specs.KeySet.{key_set_numbers, no_key_set};

use crate::numbers::{COMPLETE, CoseStatus, KEYS_REFUSED, refused_status};
use cose_msg::KeySet;

/// What is known of a key set (RFC 9052 section 7).
#[repr(C)]
#[derive(Clone, Copy)]
pub struct CoseKeySet {
    /// The number of the status.
    pub status: u8,
    /// The number of a refusal's reason.
    pub reason: u8,
    /// The place of a refusal, in the set.
    pub place: u64,
    /// How many usable keys the set has.
    pub usable: u64,
}

/// No key set.
pub(crate) fn no_key_set(status: CoseStatus) -> CoseKeySet
    ensures { result ≡ no_key_set status }
{
    CoseKeySet {
        status: status.status,
        reason: status.reason,
        place: status.place,
        usable: 0,
    }
}

/// A key set of so many usable keys.
pub(crate) fn counted(usable: u64) -> CoseKeySet
    ensures { result ≡ record { status = 7; reason = 0; place = 0; usable = usable } }
{
    CoseKeySet {
        status: COMPLETE,
        reason: 0,
        place: 0,
        usable,
    }
}

/// Reads a key set, and says how many usable keys it has, or why it is refused.
#[unsafe(no_mangle)]
pub extern "C" fn cose_edge_read_keys(keys: &[u8], key_set: &mut CoseKeySet)
    ensures { key_set.new ≡ key_set_numbers (keys_of keys.now) }
{
    *key_set = match KeySet::read(keys) {
        Ok(keys) => counted(keys.count() as u64),
        Err(refusal) => no_key_set(refused_status(KEYS_REFUSED, refusal)),
    };
}
