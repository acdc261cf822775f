//! What an application knows before a message.

ghost use Rattle.std.specs.Prelude.{◌≡◌, ◌≤◌, length};
ghost use Rattle.cose_msg.specs.Verifier.{setting_of};
ghost use Rattle.cose_examples.specs.Context.{setting_under};

use cose_map::Keys;
use cose_msg::{Context, Wanted};

/// What the application knows before a message: its keys, no external data, no CWT tag, payloads of at most 4,096 bytes.
pub(crate) fn context<'k, S: Keys<'k>>(keys: S) -> Context<'k, S>
    ensures external { length result.aad.now ≤ 65535 }
    ensures setting { setting_of S.usable result ≡ setting_under (S.usable keys) }
{
    Context {
        keys,
        aad: b"",
        wanted: Wanted::Tagged,
        cwt: false,
        understood: &[],
        payload_limit: 4_096,
    }
}
