//! A message in memory, by one call, under what a caller states in one struct.

ghost use Rattle.std.specs.Prelude.{◌≡◌, ◌≤◌, true};
ghost use Rattle.cose_c.specs.Input.{GivesAll};
ghost use Rattle.cose_c.specs.Message.{Covers, beside, input_given, is_accepted, payload_given, verdict_given};
ghost use Rattle.cose_c.specs.Stated.{setting_stated};

use crate::input::CoseSignInput;
use crate::message::{read_detached, read_whole, take_whole};
use crate::numbers::{CoseVerdict, no_message};
use crate::permitted::PermittedKeys;
use crate::stated::{CoseTerms, context, labels_of};
use crate::terms::{HEADER, LARGE_HEADER, LARGE_NESTING, NESTING};
use cose_msg::Verifier;

/// Verifies a message in memory under terms, by a verifier of either size. It is never inlined: the verifier isn't on the stack any more
/// when the claims of a token are read.
#[inline(never)]
pub(crate) fn authenticated<const H: usize, const D: usize>(
    terms: &CoseTerms<'_>,
    message: &[u8],
    input: &mut CoseSignInput,
) -> CoseVerdict
    requires some_room { 16 ≤ H }
    requires limit { H ≤ 65535 }
    requires nesting { D ≤ 32 }
    ensures verdict { result ≡ verdict_given H D (setting_stated terms.entry.now)
        result.payload_at message.now }
    ensures payload { is_accepted result ≡ true → Covers message.now
        (payload_given H D (setting_stated terms.entry.now) message.now)
        result.payload_at result.payload_length }
    ensures input { result.status ≡ 2 → GivesAll
        (input_given H D (setting_stated terms.entry.now) message.now) input.new }
{
    let labels = labels_of(&terms.understood);
    match context(terms, &labels) {
        Ok(context) => {
            let mut verifier = Verifier::<H, D, PermittedKeys<'_>>::new(context);
            read_whole(&mut verifier, message, input)
        }
        Err(status) => no_message(status),
    }
}

/// The verdict under terms of a message whose signature nobody verifies, by a verifier of either size. It is never inlined: the verifier
/// is off the stack while the claims are read.
#[inline(never)]
pub(crate) fn verdict_under<const H: usize, const D: usize>(
    terms: &CoseTerms<'_>,
    message: &[u8],
) -> CoseVerdict
    requires some_room { 16 ≤ H }
    requires limit { H ≤ 65535 }
    requires nesting { D ≤ 32 }
    ensures verdict { result ≡ verdict_given H D (setting_stated terms.entry.now)
        result.payload_at message.now }
    ensures payload { is_accepted result ≡ true → Covers message.now
        (payload_given H D (setting_stated terms.entry.now) message.now)
        result.payload_at result.payload_length }
{
    let labels = labels_of(&terms.understood);
    match context(terms, &labels) {
        Ok(context) => {
            let mut verifier = Verifier::<H, D, PermittedKeys<'_>>::new(context);
            take_whole(&mut verifier, message)
        }
        Err(status) => no_message(status),
    }
}

/// Verifies a message in memory under terms (RFC 9052 sections 4.4 and 6.3): the bytes are the message, and nothing follows it.
///
/// The status and `input` are those of [`cose_edge_verify`](crate::message::cose_edge_verify). A key that isn't permitted fits no
/// message.
#[unsafe(no_mangle)]
pub extern "C" fn cose_edge_authenticate(
    terms: &CoseTerms<'_>,
    message: &[u8],
    verdict: &mut CoseVerdict,
    input: &mut CoseSignInput,
)
    ensures verdict { verdict.new ≡ verdict_given 1024 8 (setting_stated terms.entry.now)
        verdict.new.payload_at message.now }
    ensures payload { is_accepted verdict.new ≡ true → Covers message.now
        (payload_given 1024 8 (setting_stated terms.entry.now) message.now)
        verdict.new.payload_at verdict.new.payload_length }
    ensures input { verdict.new.status ≡ 2 → GivesAll
        (input_given 1024 8 (setting_stated terms.entry.now) message.now) input.new }
{
    *verdict = authenticated::<HEADER, NESTING>(terms, message, input);
}

/// The same for headers of 65,535 bytes that nest 16 deep.
#[unsafe(no_mangle)]
pub extern "C" fn cose_edge_large_authenticate(
    terms: &CoseTerms<'_>,
    message: &[u8],
    verdict: &mut CoseVerdict,
    input: &mut CoseSignInput,
)
    ensures verdict { verdict.new ≡ verdict_given 65535 16 (setting_stated terms.entry.now)
        verdict.new.payload_at message.now }
    ensures payload { is_accepted verdict.new ≡ true → Covers message.now
        (payload_given 65535 16 (setting_stated terms.entry.now) message.now)
        verdict.new.payload_at verdict.new.payload_length }
    ensures input { verdict.new.status ≡ 2 → GivesAll
        (input_given 65535 16 (setting_stated terms.entry.now) message.now) input.new }
{
    *verdict = authenticated::<LARGE_HEADER, LARGE_NESTING>(terms, message, input);
}

/// The same as [`cose_edge_authenticate`] for a message whose payload is detached (RFC 9052 sections 4.2 and 6.2), and is in memory too.
#[unsafe(no_mangle)]
pub extern "C" fn cose_edge_authenticate_detached(
    terms: &CoseTerms<'_>,
    message: &[u8],
    payload: &[u8],
    verdict: &mut CoseVerdict,
    input: &mut CoseSignInput,
)
    ensures verdict { verdict.new ≡ verdict_given 1024 8
        (beside payload.now (setting_stated terms.entry.now)) 0 message.now }
    ensures input { verdict.new.status ≡ 2 → GivesAll
        (input_given 1024 8 (beside payload.now (setting_stated terms.entry.now)) message.now)
        input.new }
{
    let labels = labels_of(&terms.understood);
    *verdict = match context(terms, &labels) {
        Ok(context) => {
            let mut verifier = Verifier::<HEADER, NESTING, PermittedKeys<'_>>::detached(
                context,
                payload.len() as u64,
            );
            read_detached(&mut verifier, message, payload, input)
        }
        Err(status) => no_message(status),
    };
}

/// The same for headers of 65,535 bytes that nest 16 deep.
#[unsafe(no_mangle)]
pub extern "C" fn cose_edge_large_authenticate_detached(
    terms: &CoseTerms<'_>,
    message: &[u8],
    payload: &[u8],
    verdict: &mut CoseVerdict,
    input: &mut CoseSignInput,
)
    ensures verdict { verdict.new ≡ verdict_given 65535 16
        (beside payload.now (setting_stated terms.entry.now)) 0 message.now }
    ensures input { verdict.new.status ≡ 2 → GivesAll
        (input_given 65535 16 (beside payload.now (setting_stated terms.entry.now)) message.now)
        input.new }
{
    let labels = labels_of(&terms.understood);
    *verdict = match context(terms, &labels) {
        Ok(context) => {
            let mut verifier = Verifier::<LARGE_HEADER, LARGE_NESTING, PermittedKeys<'_>>::detached(
                context,
                payload.len() as u64,
            );
            read_detached(&mut verifier, message, payload, input)
        }
        Err(status) => no_message(status),
    };
}
