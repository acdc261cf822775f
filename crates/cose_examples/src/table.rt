//! Many messages under the same keys.

use crate::context::context;
use cose_msg::{KeyTable, Never, Verified, Verifier, verify_slice};

/// Whether the next message is authentic. The verifier is used for one message after another.
pub fn is_next_authentic<'k>(
    verifier: &mut Verifier<'k, 1_024, 8, &'k KeyTable<'k, 16>>,
    message: &[u8],
) -> bool {
    if verifier.is_inspecting() || verifier.is_detached() {
        return false;
    }
    let verified = verify_slice(verifier, message, &Never);
    matches!(verified, Verified::Authentic { .. })
}

/// How many of these messages are authentic under the keys of a table.
pub fn count_authentic<'k>(table: &'k KeyTable<'k, 16>, messages: &[&[u8]]) -> usize {
    let mut verifier = Verifier::new(context(table));
    let mut count = 0usize;
    for message in messages {
        if is_next_authentic(&mut verifier, message) {
            count = count.saturating_add(1);
        }
    }
    count
}
