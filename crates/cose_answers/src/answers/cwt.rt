//! The lines of the command `cwt`: the claims of a token, where they are admitted.

ghost use Rattle.std.specs.Prelude.{◌≡◌, ◌≢◌, ◌≤◌, ◌↔◌, ◌++◌, ◌||◌, ℕ, true, false, List, [], Some, None, Ok, Err, IfErr, IfOk, codes, is_some, length, map, not, option_map, string_bytes};
ghost use Rattle.std.specs.Fmt.{decimal};
ghost use Rattle.std.specs.List.{concat};
ghost use Rattle.cose_head.specs.declared.refusal.Refusal.{Refusal};
ghost use Rattle.cose_head.specs.ItemRef.{placed};
ghost use Rattle.cose_map.specs.Key.View.{contents, key_value, material_value, y_value};
ghost use Rattle.cose_map.specs.Label.View.{label_value};
ghost use Rattle.cose_map.specs.Map.View.{pairs_left};
ghost use Rattle.cose_msg.specs.Kept.{HasTaken, bytes_taken, is_inspecting};
ghost use Rattle.cose_msg.specs.Message.{Setting};
ghost use Rattle.cose_msg.specs.Task.{to_verify};
ghost use Rattle.cose_msg.specs.Verifier.{is_detached, setting_in, setting_of};
ghost use Rattle.cose_cwt.specs.Admission.View.{policy_value};
ghost use Rattle.cose_cwt.specs.Claims.Audience.{text_value, texts_left};
ghost use Rattle.cose_cwt.specs.Claims.View.{claims_value};
ghost use Rattle.cose_cwt.specs.Confirmation.View.{cnf_value};
ghost use Rattle.cose_cwt.specs.Requirements.View.{requirements_value};
ghost use Rattle.cose_answers.specs.Admitted.{admission_seen, bytes_line, claims_lines, confirmation_lines, date_line, input_token, is_registered, key_line, material_line, or_trailing, other_lines, others_shown, program_policy, refused_line, required_then, stopped_in, text_line, where_present, y_word};
ghost use Rattle.cose_answers.specs.Requests.{admitted_for};
ghost use Rattle.cose_answers.specs.Faults.{FailsForKeys, fails_by_input};
ghost use Rattle.cose_answers.specs.Limits.{AreSizesUnder, room_of};
ghost use Rattle.cose_answers.specs.Printed.{Says, admitted_under, outcome_said, token_setting, trailing_refusal};
ghost use Rattle.cose_text.specs.Diagnostic.{diagnostic_of};
ghost use Rattle.cose_answers.specs.Readable.{date_notation, label_text as label_text_of, text_notation};
ghost use Rattle.cose_answers.specs.Replies.{RepliesTo};
ghost use Rattle.cose_answers.specs.Under.{under_of};
ghost use Rattle.cose_answers.specs.Vouch.{vouching};

use crate::answers::unmet::unmet_reply;
use crate::answers::verdict::{CHUNK, program_context, trailing_at};
use crate::answers::words::{push_hex, push_named_hex};
use crate::fault::Fault;
use crate::limits::{
    LARGE_CLAIMS, LARGE_HEADER, LARGE_KEYS, LARGE_NESTING, Limits, SMALL_CLAIMS, SMALL_HEADER,
    SMALL_KEYS, SMALL_NESTING,
};
use crate::notation::label_text;
use crate::reply::{Reply, Status};
use crate::request::{Checks, Cwt, Printing};
use crate::required::requirements_of;
use crate::vouch::Vouch;
use cose_cwt::{Audience, Auds, Claims, Cnf, CwtStop, Policy, Requirements, TokenStop, verify_cwt};
use cose_map::{ItemRef, Label, Material, Pairs, Y};
use cose_msg::laws::settled_stays;
use cose_msg::{
    Context, Intake, Key, KeyTable, Keys, ReadIntake, Refusal, Stop, Store, Verifier, Wanted,
};
use cose_text::{Date, push_diagnostic, push_quoted};
use std::alloc::{AllocError, Global};
use std::io::Read;
use std::slice;

/// What a token has to meet: where there is a text and the token names an audience, the token is for that text.
pub fn policy_of<'j>(now: i64, leeway: u32, aud: &'j Option<&'j str>) -> Policy<'j>
    ensures { policy_value result
        ≡ program_policy now leeway (option_map text_value aud.entry.now) }
{
    let audience = match aud {
        Some(text) => Audience::Mine(slice::from_ref(text)),
        None => Audience::LeftToCaller,
    };
    Policy {
        now,
        leeway,
        audience,
    }
}

/// Appends a line of a text or of bytes in hexadecimal, where there is one.
fn push_bytes(
    alloc: Global,
    lines: &mut String,
    name: &str,
    bytes: Option<&[u8]>,
) -> Result<(), Fault>
    ensures lines { IfOk result (λ _. string_bytes lines.new
        ≡ string_bytes lines.old ++ where_present (bytes_line name.now)
        (option_map contents bytes.entry)) }
    ensures fault { IfErr result (λ fault. fault ≡ Fault.Memory) }
{
    let Some(bytes) = bytes else {
        return Ok(());
    };
    push_named_hex(alloc, lines, name, bytes)?;
    lines.push_str("\n")?;
    Ok(())
}

/// Appends a text in quotes, where it is asked for.
fn push_quotes(alloc: Global, lines: &mut String, text: &str, readable: bool) -> Result<(), Fault>
    ensures text { IfOk result (λ _. string_bytes lines.new
        ≡ string_bytes lines.old ++ text_notation readable text.now) }
    ensures fault { IfErr result (λ fault. fault ≡ Fault.Memory) }
{
    if !readable {
        return Ok(());
    }
    lines.push_str(" ")?;
    push_quoted(alloc, lines, text)?;
    Ok(())
}

/// Appends a line of a text, where there is one: its bytes in hexadecimal, and after them the text.
fn push_text(
    alloc: Global,
    lines: &mut String,
    name: &str,
    text: Option<&str>,
    readable: bool,
) -> Result<(), Fault>
    ensures lines { IfOk result (λ _. string_bytes lines.new
        ≡ string_bytes lines.old ++ where_present (text_line readable name.now)
        (option_map text_value text.entry)) }
    ensures fault { IfErr result (λ fault. fault ≡ Fault.Memory) }
{
    let Some(text) = text else {
        return Ok(());
    };
    push_named_hex(alloc, lines, name, text.as_bytes())?;
    push_quotes(alloc, lines, text, readable)?;
    lines.push_str("\n")?;
    Ok(())
}

/// Appends a line for each text of an audience.
fn push_audience(
    alloc: Global,
    lines: &mut String,
    texts: Auds,
    readable: bool,
) -> Result<(), Fault>
    ensures lines { IfOk result (λ _. string_bytes lines.new
        ≡ string_bytes lines.old ++ concat
        (map (text_line readable (codes "aud")) (texts_left texts.entry))) }
    ensures fault { IfErr result (λ fault. fault ≡ Fault.Memory) }
{
    'texts: for text in texts {
        push_text(alloc, lines, "aud", Some(text), readable)?;
    }
    Ok(())
}

/// Appends a date as RFC 3339 has it, where it is asked for and the year has four digits.
fn push_calendar(
    alloc: Global,
    lines: &mut String,
    seconds: i128,
    readable: bool,
) -> Result<(), Fault>
    ensures date { IfOk result (λ _. string_bytes lines.new
        ≡ string_bytes lines.old ++ date_notation readable seconds) }
    ensures fault { IfErr result (λ fault. fault ≡ Fault.Memory) }
{
    if !readable {
        return Ok(());
    }
    match Date::of(seconds) {
        Some(date) => {
            let text = format!(in alloc; " {date}")?;
            lines.push_str(text.as_str())?;
            Ok(())
        }
        None => Ok(()),
    }
}

/// Appends the line of a date, where there is one.
fn push_date(
    alloc: Global,
    lines: &mut String,
    name: &str,
    date: Option<i128>,
    readable: bool,
) -> Result<(), Fault>
    ensures lines { IfOk result (λ _. string_bytes lines.new
        ≡ string_bytes lines.old ++ where_present (date_line readable name.now) date) }
    ensures fault { IfErr result (λ fault. fault ≡ Fault.Memory) }
{
    let Some(date) = date else {
        return Ok(());
    };
    let line = format!(in alloc; "{name} {date}")?;
    lines.push_str(line.as_str())?;
    push_calendar(alloc, lines, date, readable)?;
    lines.push_str("\n")?;
    Ok(())
}

/// Appends the words before x of a public key: the number of its curve is among them.
fn push_curve(alloc: Global, lines: &mut String, curve: u8) -> Result<(), Fault>
    ensures words { IfOk result (λ _. string_bytes lines.new
        ≡ string_bytes lines.old ++ codes "cnf key " ++ decimal curve ++ codes " ") }
    ensures fault { IfErr result (λ fault. fault ≡ Fault.Memory) }
{
    let words = format!(in alloc; "cnf key {curve} ")?;
    lines.push_str(words.as_str())?;
    Ok(())
}

/// Appends y of a point, or its sign.
fn push_y(alloc: Global, lines: &mut String, y: Y) -> Result<(), Fault>
    ensures word { IfOk result (λ _. string_bytes lines.new
        ≡ string_bytes lines.old ++ y_word (y_value y.entry)) }
    ensures fault { IfErr result (λ fault. fault ≡ Fault.Memory) }
{
    match y {
        Y::Bytes(y) => push_hex(alloc, lines, y),
        Y::Sign(true) => {
            lines.push_str("true")?;
            Ok(())
        }
        Y::Sign(false) => {
            lines.push_str("false")?;
            Ok(())
        }
    }
}

/// Appends the line of a public key that is a point: its curve, x, and y or the sign of y.
fn push_point(alloc: Global, lines: &mut String, material: Material) -> Result<(), Fault>
    ensures line { IfOk result (λ _. string_bytes lines.new
        ≡ string_bytes lines.old ++ material_line (material_value material.entry)) }
    ensures fault { IfErr result (λ fault. fault ≡ Fault.Memory) }
{
    let Material::Ec { crv, x, y } = material else {
        return Ok(());
    };
    push_curve(alloc, lines, crv)?;
    push_hex(alloc, lines, x)?;
    lines.push_str(" ")?;
    push_y(alloc, lines, y)?;
    lines.push_str("\n")?;
    Ok(())
}

/// Appends the line of a public key, where there is one.
fn push_key(alloc: Global, lines: &mut String, key: Option<Key>) -> Result<(), Fault>
    ensures lines { IfOk result (λ _. string_bytes lines.new
        ≡ string_bytes lines.old ++ where_present key_line (option_map key_value key.entry)) }
    ensures fault { IfErr result (λ fault. fault ≡ Fault.Memory) }
{
    match key {
        Some(key) => push_point(alloc, lines, key.material),
        None => Ok(()),
    }
}

/// Appends the lines of a confirmation, where there is one: those of the key and of its identifier.
fn push_confirmation(alloc: Global, lines: &mut String, cnf: Option<Cnf>) -> Result<(), Fault>
    ensures lines { IfOk result (λ _. string_bytes lines.new
        ≡ string_bytes lines.old ++ where_present confirmation_lines
        (option_map cnf_value cnf.entry)) }
    ensures fault { IfErr result (λ fault. fault ≡ Fault.Memory) }
{
    let Some(Cnf { key, kid }) = cnf else {
        return Ok(());
    };
    push_key(alloc, lines, key)?;
    push_bytes(alloc, lines, "cnf kid", kid)
}

/// Appends the lines of the registered claims, in the order of their labels, and those of the confirmation.
fn push_claims(
    alloc: Global,
    lines: &mut String,
    claims: &Claims,
    readable: bool,
) -> Result<(), Fault>
    ensures lines { IfOk result (λ _. string_bytes lines.new
        ≡ string_bytes lines.old ++ claims_lines readable (claims_value claims.now)) }
    ensures fault { IfErr result (λ fault. fault ≡ Fault.Memory) }
{
    push_text(alloc, lines, "iss", claims.iss(), readable)?;
    push_text(alloc, lines, "sub", claims.sub(), readable)?;
    push_audience(alloc, lines, claims.auds(), readable)?;
    push_date(alloc, lines, "exp", claims.exp(), readable)?;
    push_date(alloc, lines, "nbf", claims.nbf(), readable)?;
    push_date(alloc, lines, "iat", claims.iat(), readable)?;
    push_bytes(alloc, lines, "cti", claims.cti())?;
    push_confirmation(alloc, lines, claims.cnf())?;
    Ok(())
}

/// Whether a label is none of the registered ones (RFC 8392 section 3.1).
fn is_other(label: &Label) -> bool
    ensures { result ≡ not (is_registered (label_value label.now)) }
{
    match *label {
        Label::Int(number) => number <= 0 || number >= 8,
        Label::Text(_) => true,
    }
}

/// Appends the line of a claim: its label and its value in diagnostic notation.
fn push_other(
    alloc: Global,
    lines: &mut String,
    label: &Label,
    value: &ItemRef,
) -> Result<(), AllocError>
    ensures { IfOk result (λ _. string_bytes lines.new ≡ string_bytes lines.old ++ codes "claim "
        ++ label_text_of (label_value label.now) ++ codes ": " ++ diagnostic_of (placed value.now)
        ++ codes "\n") }
{
    let label = label_text(alloc, label)?;
    lines.push_str("claim ")?;
    lines.push_str(label.as_str())?;
    lines.push_str(": ")?;
    push_diagnostic(alloc, lines, value)?;
    lines.push_str("\n")?;
    Ok(())
}

/// Appends the lines of the claims that aren't registered, in the order of the payload.
fn push_each_other(alloc: Global, lines: &mut String, claims: Pairs) -> Result<(), AllocError>
    ensures { IfOk result (λ _. string_bytes lines.new
        ≡ string_bytes lines.old ++ other_lines (pairs_left claims.entry)) }
{
    'claims: for (label, _item, value) in claims {
        if is_other(&label) {
            push_other(alloc, lines, &label, &value)?;
        }
    }
    Ok(())
}

/// The same, where they are asked for.
fn push_others(alloc: Global, lines: &mut String, claims: Pairs, asked: bool) -> Result<(), Fault>
    ensures lines { IfOk result (λ _. string_bytes lines.new
        ≡ string_bytes lines.old ++ others_shown asked (pairs_left claims.entry)) }
    ensures fault { IfErr result (λ fault. fault ≡ Fault.Memory) }
{
    if !asked {
        return Ok(());
    }
    push_each_other(alloc, lines, claims)?;
    Ok(())
}

/// The line of a refused message, or of refused claims.
fn refused_reply(alloc: Global, part: &str, refusal: Refusal) -> Result<Reply, Fault>
    ensures text { IfOk result (λ reply. string_bytes reply.text ≡ refused_line part.now refusal) }
    ensures status { IfOk result (λ reply. reply.status ≡ Status.Refused) }
    ensures fault { IfErr result (λ fault. fault ≡ Fault.Memory) }
{
    let status = Status::Refused;
    let text = format!(in alloc; "refused {part} {refusal}\n")?;
    Ok(Reply { status, text })
}

/// The lines of a token, or why it has none.
pub fn token_reply(
    alloc: Global,
    token: Result<Claims, TokenStop>,
    printing: Printing,
) -> Result<Reply, Fault>
    ensures says { IfOk result (Says (outcome_said printing (admission_seen token.entry))) }
    ensures unstopped { IfOk result (λ _. stopped_in (admission_seen token.entry) ≡ None) }
    ensures input { fails_by_input result ≡ is_some (stopped_in (admission_seen token.entry)) }
    ensures fault { (refusal : Refusal) → result ≢ Err (Fault.Keys refusal) }
{
    match token {
        Ok(claims) => {
            let status = Status::Done;
            let mut text = format!(in alloc; "admitted\n")?;
            push_claims(alloc, &mut text, &claims, printing.readable)?;
            push_others(alloc, &mut text, claims.pairs(), printing.others)?;
            Ok(Reply { status, text })
        }
        Err(TokenStop::Cwt(CwtStop::Message(refusal))) => refused_reply(alloc, "message", refusal),
        Err(TokenStop::Cwt(CwtStop::Claims(refusal))) => refused_reply(alloc, "claims", refusal),
        // The store holds every payload that is allowed, and a new verifier hasn't stopped.
        Err(TokenStop::Cwt(CwtStop::Stopped(_))) => Err(Fault::Input),
        Err(TokenStop::Unmet(unmet)) => unmet_reply(alloc, unmet),
    }
}

/// The context of a token: that of a message, with a payload of at most `L` bytes, which the store holds.
pub fn token_context<'j, const L: usize, S: Keys<'j>>(
    keys: S,
    aad: &'j [u8],
    wanted: Wanted,
) -> Context<'j, S>
    ensures setting { setting_of S.usable result
        ≡ token_setting L (S.usable keys) aad.entry.now wanted }
    ensures external { result.aad ≡ aad.entry }
{
    Context {
        payload_limit: L as u64,
        ..program_context(keys, aad, wanted)
    }
}

/// The claims of a token of this many bytes, unless a byte comes after it.
fn unless_followed<'a, I: Intake>(
    claims: Claims<'a>,
    taken: u64,
    intake: &mut I,
) -> Result<Claims<'a>, TokenStop>
    ensures whole { (rest : List ℕ) → I.to_come intake.old ≡ Some rest →
        stopped_in (admission_seen result) ≡ None → admission_seen result
        ≡ or_trailing (trailing_refusal rest taken) (claims_value claims.entry) }
    ensures failure { I.has_failed intake.new
        ≡ (I.has_failed intake.old || is_some (stopped_in (admission_seen result))) }
{
    match trailing_at(taken, intake) {
        Ok(None) => Ok(claims),
        Ok(Some(refusal)) => Err(TokenStop::Cwt(CwtStop::Message(refusal))),
        Err(_) => Err(TokenStop::Cwt(CwtStop::Stopped(Stop::Intake))),
    }
}

/// The claims of a token of this many bytes, where they meet what is required, and no byte comes after it.
fn required_claims<'a, I: Intake>(
    claims: Claims<'a>,
    requirements: &Requirements,
    taken: u64,
    intake: &mut I,
) -> Result<Claims<'a>, TokenStop>
    ensures whole { (rest : List ℕ) → I.to_come intake.old ≡ Some rest →
        stopped_in (admission_seen result) ≡ None → admission_seen result
        ≡ required_then (requirements_value requirements.entry.now) (trailing_refusal rest taken)
        (claims_value claims.entry) }
    ensures failure { I.has_failed intake.new
        ≡ (I.has_failed intake.old || is_some (stopped_in (admission_seen result))) }
{
    match claims.meets(requirements) {
        Ok(()) => unless_followed(claims, taken, intake),
        Err(unmet) => Err(TokenStop::Unmet(unmet)),
    }
}

/// The token that the whole input is: after one that is admitted and meets what is required, a further byte makes it
/// `Trailing`.
fn whole_token<'a, 'j, const H: usize, const D: usize, const N: usize, const L: usize, I: Intake>(
    verifier: &mut Verifier<'j, H, D, KeyTable<'j, N>>,
    intake: &mut I,
    store: &'a mut Store<L>,
    vouch: &Vouch,
    policy: &Policy,
    requirements: &Requirements,
) -> Result<Claims<'a>, TokenStop>
    requires nesting { D ≤ 32 }
    requires some_store { 16 ≤ L }
    requires store_limit { L ≤ 65535 }
    requires verifies { is_inspecting verifier.old ≡ false }
    requires attached { is_detached verifier.old ≡ false }
    requires none_taken { bytes_taken verifier.old ≡ 0 }
    requires cwt { (setting_in verifier.old).cwt ≡ true }
    requires payload_limit { (setting_in verifier.old).payload_limit ≤ L }
    ensures whole { (setting : Setting) (bytes : List ℕ)
        → HasTaken (to_verify setting) [] [] verifier.old → I.to_come intake.old ≡ Some bytes →
        stopped_in (admission_seen result) ≡ None → admission_seen result
        ≡ input_token H D setting (vouching (option_map contents vouch.now.word))
        (policy_value policy.entry.now) (requirements_value requirements.entry.now) bytes }
    // It stops exactly where the intake failed in this call.
    ensures failure { (setting : Setting) → HasTaken (to_verify setting) [] [] verifier.old →
        I.has_failed intake.new
        ≡ (I.has_failed intake.old || is_some (stopped_in (admission_seen result))) }
{
    // The law that the proof cites for the place of a further byte: a verdict stays when bytes follow.
    settled_stays();
    match verify_cwt::<CHUNK, H, D, L, _, _, _>(verifier, intake, store, vouch, policy) {
        Ok(claims) => required_claims(claims, requirements, verifier.taken(), intake),
        Err(stop) => Err(TokenStop::Cwt(stop)),
    }
}

/// The reply to the token of an intake: the key set is read before the intake is asked.
#[inline(never)]
fn admitted_reply<const H: usize, const D: usize, const N: usize, const L: usize, I: Intake>(
    alloc: Global,
    checks: &Checks,
    policy: &Policy,
    requirements: &Requirements,
    printing: Printing,
    intake: &mut I,
) -> Result<Reply, Fault>
    requires some_room { 16 ≤ H }
    requires limit { H ≤ 65535 }
    requires nesting { D ≤ 32 }
    requires some_keys { 1 ≤ N }
    requires keys_limit { N ≤ 256 }
    requires some_store { 16 ≤ L }
    requires store_limit { L ≤ 65535 }
    requires sizes { AreSizesUnder checks.now.limits H D N }
    requires claims { (room_of checks.now.limits).claims ≡ L }
    ensures says { (bytes : List ℕ) → I.to_come intake.old ≡ Some bytes →
        IfOk result (Says (admitted_under (under_of checks.now) (policy_value policy.entry.now)
        (requirements_value requirements.entry.now) printing bytes)) }
    ensures keys { (refusal : Refusal)
        → (under_of checks.now).keys ≡ Err refusal ↔ result ≡ Err (Fault.Keys refusal) }
    // Its fault is that the input failed exactly where the intake failed in this call.
    ensures input { I.has_failed intake.new ≡ (I.has_failed intake.old || fails_by_input result) }
{
    let keys = match checks.key_table::<N>() {
        Ok(keys) => keys,
        Err(refusal) => return Err(Fault::Keys(refusal)),
    };
    let context = checks.token_context::<L, _>(keys);
    let mut verifier = Verifier::<H, D, KeyTable<'_, N>>::new(context);
    let mut store = Store::<L>::new();
    let vouch = checks.vouch();
    let token = whole_token(
        &mut verifier,
        intake,
        &mut store,
        &vouch,
        policy,
        requirements,
    );
    token_reply(alloc, token, printing)
}

/// The reply to the one token that the input is.
pub fn cwt_reply<R: Read>(alloc: Global, words: &Cwt, input: &mut R) -> Result<Reply, Fault>
    ensures says { RepliesTo (R.remaining input.old) (admitted_for words.entry.now) result }
    ensures keys { FailsForKeys (under_of words.entry.now.checks).keys result }
{
    let checks = &words.checks;
    let policy = &policy_of(words.now, words.leeway, &words.aud);
    let required = &requirements_of(&words.required, words.now, words.leeway);
    let printing = words.printing;
    let intake = &mut ReadIntake::new(input);
    match checks.limits {
        Limits::Small => {
            admitted_reply::<SMALL_HEADER, SMALL_NESTING, SMALL_KEYS, SMALL_CLAIMS, _>(
                alloc, checks, policy, required, printing, intake,
            )
        }
        Limits::Large => {
            admitted_reply::<LARGE_HEADER, LARGE_NESTING, LARGE_KEYS, LARGE_CLAIMS, _>(
                alloc, checks, policy, required, printing, intake,
            )
        }
    }
}
