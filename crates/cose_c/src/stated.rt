//! What a caller states of messages, in one struct.

ghost use Rattle.std.specs.Prelude.{◌≡◌, ◌≤◌, IfOk, length, map, not, take};
ghost use Rattle.cose_map.specs.KeySet.{keys_of};
ghost use Rattle.cose_map.specs.Label.{number};
ghost use Rattle.cose_map.specs.Label.View.{label_value};
ghost use Rattle.cose_c.specs.FedKeys.{settings_fed};
ghost use Rattle.cose_c.specs.PermittedView.{permission_value};
ghost use Rattle.cose_c.specs.Stated.{count_before_zero, has_flag, is_unknown, limit_stated, permission_stated, setting_fed, setting_under_terms, settings_stated};
ghost use Rattle.cose_c.specs.Terms.{setting_given};

use crate::fed_keys::FedKeys;
use crate::numbers::{BAD_ARGUMENT, CoseStatus, KEYS_REFUSED, plain_status, refused_status};
use crate::permitted::{Permission, PermittedKeys};
use crate::terms::{PAYLOAD, kinds_wanted};
use cose_msg::{Context, Label};

/// The number of bytes of the struct of terms.
const TERMS_SIZE: u32 = 248;

/// Keys for HMAC 256/64 are permitted.
const SHORT_MAC: u8 = 1;

/// Keys that name no algorithm are permitted.
const WITHOUT_ALG: u8 = 2;

/// What a caller states of messages.
#[repr(C)]
#[derive(Clone, Copy)]
pub struct CoseTerms<'t> {
    /// The number of bytes of this struct.
    pub size: u32,
    /// The number of the kinds of messages that are wanted.
    pub kind: u8,
    /// What is permitted where no algorithm is stated: 1 keys for HMAC 256/64, 2 keys that name no algorithm.
    pub permitted: u8,
    /// The least number of bytes of a secret.
    pub least_secret: u64,
    /// The most bytes of a payload, 0 where it is not stated.
    pub payload_limit: u64,
    /// A COSE_Key or a COSE_KeySet.
    pub keys: &'t [u8],
    /// The externally supplied data.
    pub aad: &'t [u8],
    /// The numbers of the algorithms that are allowed, and zeros.
    pub algorithms: [i32; 16],
    /// The labels that are understood in addition to the standard's, before the first zero.
    pub understood: [i64; 16],
}

/// Whether a flag is among these.
pub(crate) fn has_flag(flags: u8, flag: u8) -> bool
    ensures { result ≡ has_flag flags flag }
{
    flags & flag != 0
}

/// The labels with these numbers. It is never inlined: what it takes of the stack is free again when the message is read.
#[inline(never)]
pub(crate) fn labels_of(numbers: &[i64; 16]) -> [Label<'static>; 16]
    ensures { map label_value result ≡ map number numbers.now }
{
    let mut labels = [Label::Int(0); 16];
    'labels: for index in 0..16 {
        labels[index] = Label::Int(i128::from(numbers[index]));
    }
    labels
}

/// How many numbers there are before the first zero.
pub(crate) fn count_before_zero(numbers: &[i64]) -> usize
    ensures count { result ≡ count_before_zero numbers.now }
    ensures few { result ≤ length numbers.now }
{
    let mut count = 0;
    'numbers: for number in numbers {
        if *number == 0 {
            return count;
        }
        count += 1;
    }
    count
}

/// The most bytes of a payload.
pub(crate) fn payload_limit(stated: u64) -> u64
    ensures { result ≡ limit_stated stated }
{
    if stated == 0 { PAYLOAD } else { stated }
}

/// Which keys the terms permit.
pub(crate) fn permission(terms: &CoseTerms<'_>) -> Permission
    ensures { permission_value result ≡ permission_stated terms.entry.now }
{
    Permission {
        algorithms: terms.algorithms,
        least_secret: terms.least_secret,
        short_mac: has_flag(terms.permitted, SHORT_MAC),
        without_alg: has_flag(terms.permitted, WITHOUT_ALG),
    }
}

/// Whether the struct is of this version, and has no other flags than there are.
pub(crate) fn is_known(terms: &CoseTerms<'_>) -> bool
    ensures { result ≡ not (is_unknown terms.entry.now) }
{
    terms.size == TERMS_SIZE && terms.permitted <= SHORT_MAC + WITHOUT_ALG
}

/// What a message is verified under, where these labels are understood, or why none is.
#[inline(never)]
fn context_with<'t>(
    terms: &CoseTerms<'t>,
    understood: &'t [Label<'t>],
) -> Result<Context<'t, PermittedKeys<'t>>, CoseStatus>
    ensures setting { settings_stated result
        ≡ setting_under_terms terms.entry.now (map label_value understood.entry.now) }
    ensures external { IfOk result (λ context. length context.aad.now ≤ 65535) }
{
    if !is_known(terms) {
        return Err(plain_status(BAD_ARGUMENT));
    }
    let wanted = kinds_wanted(terms.aad, terms.kind)?;
    let keys = match PermittedKeys::read(terms.keys, permission(terms)) {
        Ok(keys) => keys,
        Err(refusal) => return Err(refused_status(KEYS_REFUSED, refusal)),
    };
    Ok(Context {
        keys,
        aad: terms.aad,
        wanted,
        cwt: true,
        understood,
        payload_limit: payload_limit(terms.payload_limit),
    })
}

/// What a message is verified under, or why none is. The labels are those of all the terms' numbers.
#[tactic(auto, using(crate::proofs::Labels::labels_taken))]
pub(crate) fn context<'t>(
    terms: &'t CoseTerms<'t>,
    labels: &'t [Label<'t>; 16],
) -> Result<Context<'t, PermittedKeys<'t>>, CoseStatus>
    ensures setting { settings_stated result
        ≡ setting_under_terms terms.entry.now
        (take (count_before_zero terms.entry.now.understood) (map label_value labels.entry.now)) }
    ensures external { IfOk result (λ context. length context.aad.now ≤ 65535) }
{
    context_with(terms, &labels[..count_before_zero(&terms.understood)])
}

/// What the messages that a block is fed are verified under, or why none is. A block keeps no labels: none may be stated.
pub(crate) fn fed_context<'t>(terms: &CoseTerms<'t>) -> Result<Context<'t, FedKeys<'t>>, CoseStatus>
    ensures setting { settings_fed result ≡ setting_fed terms.entry.now }
    ensures external { IfOk result (λ context. length context.aad.now ≤ 65535) }
{
    if count_before_zero(&terms.understood) > 0 {
        return Err(plain_status(BAD_ARGUMENT));
    }
    match context_with(terms, &[]) {
        Ok(context) => Ok(Context {
            keys: FedKeys::InSet(context.keys),
            aad: context.aad,
            wanted: context.wanted,
            cwt: context.cwt,
            understood: context.understood,
            payload_limit: context.payload_limit,
        }),
        Err(status) => Err(status),
    }
}

/// What they are verified under where any key may be used, or why none is.
pub(crate) fn fed_context_of<'k>(
    keys: &'k [u8],
    aad: &'k [u8],
    wanted: u8,
) -> Result<Context<'k, FedKeys<'k>>, CoseStatus>
    ensures setting { settings_fed result
        ≡ setting_given (keys_of keys.entry.now) aad.entry.now wanted }
    ensures external { IfOk result (λ context. length context.aad.now ≤ 65535) }
{
    let wanted = kinds_wanted(aad, wanted)?;
    let keys = match PermittedKeys::read_all(keys) {
        Ok(keys) => FedKeys::InSet(keys),
        Err(refusal) => return Err(refused_status(KEYS_REFUSED, refusal)),
    };
    Ok(Context {
        keys,
        aad,
        wanted,
        cwt: true,
        understood: &[],
        payload_limit: PAYLOAD,
    })
}
