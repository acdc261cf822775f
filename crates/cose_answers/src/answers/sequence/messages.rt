//! The messages of a sequence, each of which is verified.

ghost use Rattle.std.specs.Prelude.{◌≡◌, ◌≤◌, false, Ok, option_map};
ghost use Rattle.cose_cwt.specs.Token.{read_as};
ghost use Rattle.cose_map.specs.Key.View.{contents};
ghost use Rattle.cose_map.specs.PreparedTable.{prepared_keys};
ghost use Rattle.cose_msg.specs.Kept.{is_inspecting};
ghost use Rattle.cose_msg.specs.Verifier.{is_detached, setting_in};
ghost use Rattle.cose_answers.specs.Limits.{AreSizesUnder};
ghost use Rattle.cose_answers.specs.Printed.{input_answer, output_of};
ghost use Rattle.cose_answers.specs.Sequence.{FailsOverSequence, PrintsSequence, verified_sequence};
ghost use Rattle.cose_answers.specs.Under.{under_of};
ghost use Rattle.cose_answers.specs.Vouch.{vouching};

use crate::answers::sequence::{
    Missing, PIECE, Part, Parts, is_read_whole, missing_by, print_read,
};
use crate::answers::verdict::reply_of;
use crate::fault::Fault;
use crate::limits::{
    LARGE_HEADER, LARGE_KEYS, LARGE_NESTING, Limits, SMALL_HEADER, SMALL_KEYS, SMALL_NESTING,
};
use crate::output::print_fault;
use crate::reply::Status;
use crate::request::Checks;
use crate::vouch::Vouch;
use cose_msg::laws::settled_stays;
use cose_msg::{Intake, KeyTable, Keys, Nothing, PreparedTable, Verifier, verify};
use std::alloc::Global;
use std::io::{Read, Write};

/// What verifies the messages of a sequence.
#[derive(Drop)]
pub struct Messages<'j, const H: usize, const D: usize, S: Keys<'j>> {
    vouch: Vouch<'j>,
    verifier: Verifier<'j, H, D, S>,
    ghost verifies: { is_inspecting verifier ≡ false },
    ghost attached: { is_detached verifier ≡ false },
}

impl<'j, const H: usize, const D: usize, S: Keys<'j>> Parts for Messages<'j, H, D, S> {
    ghost reads = { λ messages. read_as H D (setting_in messages.verifier)
        (vouching (option_map contents messages.vouch.word)) };

    ghost alone = { λ messages message. output_of (input_answer H D (setting_in messages.verifier)
        (vouching (option_map contents messages.vouch.word)) message) };

    fn next<I: Intake>(&mut self, alloc: Global, intake: &mut I) -> Result<Option<Part>, Missing> {
        // The law that the proof cites: what isn't settled is Truncated.
        settled_stays();
        self.verifier.reset();
        let verdict = verify::<PIECE, H, D, _, _, _, _>(
            &mut self.verifier,
            intake,
            &mut Nothing,
            &self.vouch,
        );
        let verdict = match verdict {
            Ok(verdict) => verdict,
            // The sink `Nothing` never fails, and a verifier that was reset hasn't stopped.
            Err(_) => return Err(Missing::Input),
        };
        let taken = self.verifier.taken();
        if taken == 0 {
            return Ok(None);
        }
        let whole = is_read_whole(verdict);
        match reply_of(alloc, verdict) {
            Ok(reply) => Ok(Some(Part {
                reply,
                taken,
                whole,
            })),
            Err(fault) => Err(missing_by(fault)),
        }
    }
}

/// Verifies each message of a sequence, in buckets and with a table of keys of these sizes.
#[inline(never)]
fn print_within<const H: usize, const D: usize, const N: usize, R: Read, W: Write>(
    alloc: Global,
    checks: &Checks,
    input: &mut R,
    output: &mut W,
) -> Status
    requires some_room { 16 ≤ H }
    requires limit { H ≤ 65535 }
    requires nesting { D ≤ 32 }
    requires some_keys { 1 ≤ N }
    requires keys_limit { N ≤ 256 }
    requires sizes { AreSizesUnder checks.now.limits H D N }
    ensures prints { PrintsSequence (R.remaining input.old)
        (verified_sequence (under_of checks.now)) (W.contents output.old)
        (W.contents output.new) result }
    ensures fails { FailsOverSequence (R.remaining input.old)
        (verified_sequence (under_of checks.now)) (W.contents output.old)
        (W.contents output.new) result }
{
    let keys = match checks.key_table::<N>() {
        Ok(keys) => keys,
        Err(refusal) => return print_fault(alloc, Fault::Keys(refusal), output),
    };
    let mut messages = Messages {
        vouch: checks.vouch(),
        verifier: Verifier::<H, D, KeyTable<'_, N>>::new(checks.context(keys)),
    };
    print_read(alloc, &mut messages, input, output)
}

/// The same under keys that are prepared.
#[inline(never)]
fn print_prepared<'j, const H: usize, const D: usize, const N: usize, R: Read, W: Write>(
    alloc: Global,
    prepared: &'j PreparedTable<'j, N>,
    checks: &'j Checks,
    input: &mut R,
    output: &mut W,
) -> Status
    requires some_room { 16 ≤ H }
    requires limit { H ≤ 65535 }
    requires nesting { D ≤ 32 }
    requires sizes { AreSizesUnder checks.now.limits H D N }
    requires keys_are { (under_of checks.now).keys ≡ Ok (prepared_keys prepared.now) }
    ensures prints { PrintsSequence (R.remaining input.old)
        (verified_sequence (under_of checks.entry.now)) (W.contents output.old)
        (W.contents output.new) result }
    ensures fails { FailsOverSequence (R.remaining input.old)
        (verified_sequence (under_of checks.entry.now)) (W.contents output.old)
        (W.contents output.new) result }
{
    let messages = &mut Messages {
        vouch: checks.vouch(),
        verifier: Verifier::<H, D, &PreparedTable<'_, N>>::new(checks.context(prepared)),
    };
    print_read(alloc, messages, input, output)
}

/// Verifies each message of a sequence within small limits. The keys are prepared once for many messages, before there is a
/// verifier: the stack has no room for what both need.
#[inline(never)]
fn print_small<R: Read, W: Write>(
    alloc: Global,
    checks: &Checks,
    input: &mut R,
    output: &mut W,
) -> Status
    requires small { checks.now.limits ≡ Limits.Small }
    ensures prints { PrintsSequence (R.remaining input.old)
        (verified_sequence (under_of checks.now)) (W.contents output.old)
        (W.contents output.new) result }
    ensures fails { FailsOverSequence (R.remaining input.old)
        (verified_sequence (under_of checks.now)) (W.contents output.old)
        (W.contents output.new) result }
{
    let keys = match checks.key_table::<SMALL_KEYS>() {
        Ok(keys) => keys,
        Err(refusal) => return print_fault(alloc, Fault::Keys(refusal), output),
    };
    let prepared = &PreparedTable::new(keys);
    print_prepared::<SMALL_HEADER, SMALL_NESTING, SMALL_KEYS, _, _>(
        alloc, prepared, checks, input, output,
    )
}

/// Verifies each message of a sequence, and writes its lines as soon as its verdict is known.
pub fn print_verified<R: Read, W: Write>(
    alloc: Global,
    checks: &Checks,
    input: &mut R,
    output: &mut W,
) -> Status
    ensures prints { PrintsSequence (R.remaining input.old)
        (verified_sequence (under_of checks.now)) (W.contents output.old)
        (W.contents output.new) result }
    ensures fails { FailsOverSequence (R.remaining input.old)
        (verified_sequence (under_of checks.now)) (W.contents output.old)
        (W.contents output.new) result }
{
    match checks.limits {
        Limits::Small => print_small(alloc, checks, input, output),
        Limits::Large => print_within::<LARGE_HEADER, LARGE_NESTING, LARGE_KEYS, _, _>(
            alloc, checks, input, output,
        ),
    }
}
