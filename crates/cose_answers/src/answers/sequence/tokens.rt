//! The tokens of a sequence, each of which is admitted.

ghost use Rattle.std.specs.Prelude.{◌≡◌, ◌≤◌, true, false, Ok, option_map};
ghost use Rattle.cose_cwt.specs.Admission.View.{policy_value};
ghost use Rattle.cose_cwt.specs.Requirements.View.{requirements_value};
ghost use Rattle.cose_cwt.specs.Token.{claims_seen, read_as};
ghost use Rattle.cose_map.specs.Key.View.{contents};
ghost use Rattle.cose_map.specs.PreparedTable.{prepared_keys};
ghost use Rattle.cose_msg.specs.Kept.{is_inspecting};
ghost use Rattle.cose_msg.specs.Verifier.{is_detached, setting_in};
ghost use Rattle.cose_answers.specs.Admitted.{admission_seen, if_admitted, input_token};
ghost use Rattle.cose_answers.specs.Requests.{admitted_each_for};
ghost use Rattle.cose_answers.specs.Limits.{AreSizesUnder, room_of};
ghost use Rattle.cose_answers.specs.Printed.{outcome_said};
ghost use Rattle.cose_answers.specs.Sequence.{FailsOverSequence, PrintsSequence, is_read_to_its_end};
ghost use Rattle.cose_answers.specs.Under.{under_of};
ghost use Rattle.cose_answers.specs.Vouch.{vouching};

use crate::answers::cwt::{policy_of, token_reply};
use crate::answers::sequence::{Missing, PIECE, Part, Parts, missing_by, print_read};
use crate::fault::Fault;
use crate::limits::{
    LARGE_CLAIMS, LARGE_HEADER, LARGE_KEYS, LARGE_NESTING, Limits, SMALL_CLAIMS, SMALL_HEADER,
    SMALL_KEYS, SMALL_NESTING,
};
use crate::output::print_fault;
use crate::reply::Status;
use crate::request::{Cwt, Printing};
use crate::required::requirements_of;
use crate::vouch::Vouch;
use cose_cwt::{Claims, CwtStop, Policy, Requirements, TokenStop, verify_cwt};
use cose_msg::laws::settled_stays;
use cose_msg::{Intake, KeyTable, Keys, PreparedTable, Reason, Store, Verifier};
use std::alloc::Global;
use std::io::{Read, Write};

/// What admits the tokens of a sequence, whose claims have at most `L` bytes.
#[derive(Drop)]
pub struct Tokens<'j, const H: usize, const D: usize, const L: usize, S: Keys<'j>> {
    vouch: Vouch<'j>,
    policy: Policy<'j>,
    requirements: Requirements<'j>,
    printing: Printing,
    verifier: Verifier<'j, H, D, S>,
    /// The claims of one token after the other.
    store: Store<L>,
    ghost nesting: { D ≤ 32 },
    ghost some_store: { 16 ≤ L },
    ghost store_limit: { L ≤ 65535 },
    ghost verifies: { is_inspecting verifier ≡ false },
    ghost attached: { is_detached verifier ≡ false },
    ghost cwt: { (setting_in verifier).cwt ≡ true },
    ghost payload_limit: { (setting_in verifier).payload_limit ≤ L },
}

/// Whether the message of a token was read to its end: where its claims are refused, it is authentic.
fn is_token_whole(claims: &Result<Claims, CwtStop>) -> bool
    ensures { result ≡ is_read_to_its_end (claims_seen claims.entry.now) }
{
    match claims {
        Ok(_) | Err(CwtStop::Claims(_)) => true,
        Err(CwtStop::Message(refusal)) => matches!(refusal.reason, Reason::BadAuth),
        Err(CwtStop::Stopped(_)) => false,
    }
}

/// The claims of a token, where they are admitted and meet what is required.
fn claims_required<'a>(
    claims: Result<Claims<'a>, CwtStop>,
    requirements: &Requirements,
) -> Result<Claims<'a>, TokenStop>
    ensures { admission_seen result
        ≡ if_admitted (requirements_value requirements.entry.now) (claims_seen claims.entry) }
{
    match claims {
        Ok(claims) => match claims.meets(requirements) {
            Ok(()) => Ok(claims),
            Err(unmet) => Err(TokenStop::Unmet(unmet)),
        },
        Err(stop) => Err(TokenStop::Cwt(stop)),
    }
}

impl<'j, const H: usize, const D: usize, const L: usize, S: Keys<'j>> Parts
    for Tokens<'j, H, D, L, S> {
    ghost reads = { λ tokens. read_as H D (setting_in tokens.verifier)
        (vouching (option_map contents tokens.vouch.word)) };

    ghost alone = { λ tokens message. outcome_said tokens.printing
        (input_token H D (setting_in tokens.verifier)
        (vouching (option_map contents tokens.vouch.word)) (policy_value tokens.policy)
        (requirements_value tokens.requirements) message) };

    fn next<I: Intake>(&mut self, alloc: Global, intake: &mut I) -> Result<Option<Part>, Missing> {
        // The law that the proof cites: what isn't settled is Truncated.
        settled_stays();
        self.verifier.reset();
        let claims = verify_cwt::<PIECE, H, D, L, _, _, _>(
            &mut self.verifier,
            intake,
            &mut self.store,
            &self.vouch,
            &self.policy,
        );
        let whole = is_token_whole(&claims);
        let token = claims_required(claims, &self.requirements);
        let reply = match token_reply(alloc, token, self.printing) {
            Ok(reply) => reply,
            Err(fault) => return Err(missing_by(fault)),
        };
        let taken = self.verifier.taken();
        if taken == 0 {
            return Ok(None);
        }
        Ok(Some(Part {
            reply,
            taken,
            whole,
        }))
    }
}

/// Admits each token of a sequence, in buckets, with a table of keys and claims of these sizes.
#[inline(never)]
fn print_within<
    'j,
    const H: usize,
    const D: usize,
    const N: usize,
    const L: usize,
    R: Read,
    W: Write,
>(alloc: Global, words: &'j Cwt<'j>, input: &mut R, output: &mut W) -> Status
    requires some_room { 16 ≤ H }
    requires limit { H ≤ 65535 }
    requires nesting { D ≤ 32 }
    requires some_keys { 1 ≤ N }
    requires keys_limit { N ≤ 256 }
    requires some_store { 16 ≤ L }
    requires store_limit { L ≤ 65535 }
    requires sizes { AreSizesUnder words.now.checks.limits H D N }
    requires claims { (room_of words.now.checks.limits).claims ≡ L }
    ensures prints { PrintsSequence (R.remaining input.old) (admitted_each_for words.entry.now)
        (W.contents output.old) (W.contents output.new) result }
    ensures fails { FailsOverSequence (R.remaining input.old) (admitted_each_for words.entry.now)
        (W.contents output.old) (W.contents output.new) result }
{
    let keys = match words.checks.key_table::<N>() {
        Ok(keys) => keys,
        Err(refusal) => return print_fault(alloc, Fault::Keys(refusal), output),
    };
    let vouch = words.checks.vouch();
    let policy = policy_of(words.now, words.leeway, &words.aud);
    let requirements = requirements_of(&words.required, words.now, words.leeway);
    let context = words.checks.token_context::<L, _>(keys);
    let verifier = Verifier::<H, D, KeyTable<'_, N>>::new(context);
    let mut tokens = Tokens::<'_, H, D, L, KeyTable<'_, N>> {
        vouch,
        policy,
        requirements,
        printing: words.printing,
        verifier,
        store: Store::new(),
    };
    print_read(alloc, &mut tokens, input, output)
}

/// The same under keys that are prepared.
#[inline(never)]
fn print_prepared<
    'j,
    const H: usize,
    const D: usize,
    const N: usize,
    const L: usize,
    R: Read,
    W: Write,
>(
    alloc: Global,
    prepared: &'j PreparedTable<'j, N>,
    words: &'j Cwt<'j>,
    input: &mut R,
    output: &mut W,
) -> Status
    requires some_room { 16 ≤ H }
    requires limit { H ≤ 65535 }
    requires nesting { D ≤ 32 }
    requires some_store { 16 ≤ L }
    requires store_limit { L ≤ 65535 }
    requires sizes { AreSizesUnder words.now.checks.limits H D N }
    requires claims { (room_of words.now.checks.limits).claims ≡ L }
    requires keys_are { (under_of words.now.checks).keys ≡ Ok (prepared_keys prepared.now) }
    ensures prints { PrintsSequence (R.remaining input.old) (admitted_each_for words.entry.now)
        (W.contents output.old) (W.contents output.new) result }
    ensures fails { FailsOverSequence (R.remaining input.old) (admitted_each_for words.entry.now)
        (W.contents output.old) (W.contents output.new) result }
{
    let vouch = words.checks.vouch();
    let policy = policy_of(words.now, words.leeway, &words.aud);
    let requirements = requirements_of(&words.required, words.now, words.leeway);
    let context = words.checks.token_context::<L, _>(prepared);
    let tokens = &mut Tokens::<'_, H, D, L, &PreparedTable<'_, N>> {
        vouch,
        policy,
        requirements,
        printing: words.printing,
        verifier: Verifier::<H, D, &PreparedTable<'_, N>>::new(context),
        store: Store::new(),
    };
    print_read(alloc, tokens, input, output)
}

/// Admits each token of a sequence within small limits. The keys are prepared once for many tokens, before there is a
/// verifier: the stack has no room for what both need.
#[inline(never)]
fn print_small<'j, R: Read, W: Write>(
    alloc: Global,
    words: &'j Cwt<'j>,
    input: &mut R,
    output: &mut W,
) -> Status
    requires small { words.now.checks.limits ≡ Limits.Small }
    ensures prints { PrintsSequence (R.remaining input.old) (admitted_each_for words.entry.now)
        (W.contents output.old) (W.contents output.new) result }
    ensures fails { FailsOverSequence (R.remaining input.old) (admitted_each_for words.entry.now)
        (W.contents output.old) (W.contents output.new) result }
{
    let keys = match words.checks.key_table::<SMALL_KEYS>() {
        Ok(keys) => keys,
        Err(refusal) => return print_fault(alloc, Fault::Keys(refusal), output),
    };
    let prepared = &PreparedTable::new(keys);
    print_prepared::<SMALL_HEADER, SMALL_NESTING, SMALL_KEYS, SMALL_CLAIMS, _, _>(
        alloc, prepared, words, input, output,
    )
}

/// Admits each token of a sequence, and writes its lines as soon as they are known.
pub fn print_admitted<'j, R: Read, W: Write>(
    alloc: Global,
    words: &'j Cwt<'j>,
    input: &mut R,
    output: &mut W,
) -> Status
    ensures prints { PrintsSequence (R.remaining input.old) (admitted_each_for words.entry.now)
        (W.contents output.old) (W.contents output.new) result }
    ensures fails { FailsOverSequence (R.remaining input.old) (admitted_each_for words.entry.now)
        (W.contents output.old) (W.contents output.new) result }
{
    match words.checks.limits {
        Limits::Small => print_small(alloc, words, input, output),
        Limits::Large => {
            print_within::<LARGE_HEADER, LARGE_NESTING, LARGE_KEYS, LARGE_CLAIMS, _, _>(
                alloc, words, input, output,
            )
        }
    }
}
