//! What a message is verified under.

ghost use Rattle.std.specs.Prelude.{◌≡◌, ◌≤◌, IfOk, length};
ghost use Rattle.cose_map.specs.KeySet.{keys_of};
ghost use Rattle.cose_map.specs.KeySet.Okp.{okp_keys, okp_keys_of};
ghost use Rattle.cose_c.specs.Terms.{kinds_given, kinds_numbered, setting_given, settings_in};

use crate::numbers::{
    AAD_TOO_LONG, BAD_ARGUMENT, CoseStatus, KEYS_REFUSED, plain_status, refused_status,
};
use cose_msg::{Context, KeySet, Wanted};

/// The most bytes of a header bucket.
pub(crate) const HEADER: usize = 1_024;

/// How deep the items of a header bucket, and those of claims, may nest.
pub(crate) const NESTING: usize = 8;

/// The most bytes of a header bucket, of the functions with `large` in their names.
pub(crate) const LARGE_HEADER: usize = 65_535;

/// How deep its items, and those of claims, may nest.
pub(crate) const LARGE_NESTING: usize = 16;

/// The most bytes of a header bucket, of the functions with `device` in their names.
pub(crate) const DEVICE_HEADER: usize = 256;

/// How deep its items may nest.
pub(crate) const DEVICE_NESTING: usize = 4;

/// The most bytes of the externally supplied data.
pub(crate) const MOST_AAD: usize = 65_535;

/// The most bytes of a payload, which is the most that any message may have.
pub(crate) const PAYLOAD: u64 = (1 << 56) - 1;

/// The kinds of messages that a number names.
fn kinds_of(number: u8) -> Option<Wanted>
    ensures { result ≡ kinds_numbered number }
{
    match number {
        0 => Some(Wanted::Tagged),
        17 => Some(Wanted::Mac0),
        18 => Some(Wanted::Sign1),
        _ => None,
    }
}

/// The kinds of messages that are wanted, or why no message is verified with these arguments.
pub(crate) fn kinds_wanted(aad: &[u8], wanted: u8) -> Result<Wanted, CoseStatus>
    ensures value { result ≡ kinds_given aad.now wanted }
    ensures external { IfOk result (λ kinds. length aad.now ≤ 65535) }
{
    let Some(kinds) = kinds_of(wanted) else {
        return Err(plain_status(BAD_ARGUMENT));
    };
    if aad.len() > MOST_AAD {
        return Err(plain_status(AAD_TOO_LONG));
    }
    Ok(kinds)
}

/// What a message is verified under, or why none is.
///
/// The CWT tag may precede the message's own, no label is understood in addition to the standard's, and a payload may have as many bytes
/// as any may.
pub(crate) fn context<'k>(
    keys: &'k [u8],
    aad: &'k [u8],
    wanted: u8,
) -> Result<Context<'k>, CoseStatus>
    ensures setting { settings_in result
        ≡ setting_given (keys_of keys.entry.now) aad.entry.now wanted }
    ensures external { IfOk result (λ context. length context.aad.now ≤ 65535) }
    ensures okp { IfOk result (λ context. okp_keys context.keys ≡ okp_keys_of keys.entry.now) }
{
    let wanted = kinds_wanted(aad, wanted)?;
    let keys = match KeySet::read(keys) {
        Ok(keys) => keys,
        Err(refusal) => return Err(refused_status(KEYS_REFUSED, refusal)),
    };
    Ok(Context {
        keys,
        aad,
        wanted,
        cwt: true,
        understood: &[],
        payload_limit: PAYLOAD,
    })
}
