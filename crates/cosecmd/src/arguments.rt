//! The arguments of the command line.

ghost use Rattle.std.specs.Prelude.{◌≡◌, ◌≢◌, ◌≤◌, ◌⊎◌, ℕ, true, false, List, [], Option, Some, None, IfErr, IfOk, codes, length as length_in, map, option_map, string_bytes};
ghost use Rattle.clap.specs.Matches.{first_value, found_of, subcommand_name_of};
ghost use Rattle.clap.specs.Simple.{subcommand_rows_of};
ghost use Rattle.cose_cwt.specs.Claims.Audience.{text_value};
ghost use Rattle.cosecmd.specs.CommandLine.{AsksFor, IsReadFrom, ask_for_help, begins_as_answer, cwt_prints, digest_prints, is_for_help as is_for_help_in, is_of_sequence, matches_print, message_prints, payload_named, sequence_prints, verify_payload, verify_prints};
ghost use Rattle.cosecmd.specs.Fields.{AreChecks, CwtFields, HasKeysOf, IsKeyOf, IsListedAs, KeysFields, MakeFields, checks_in, digest_checks_in};
ghost use Rattle.cosecmd.specs.Options.{algorithm_in, bytes_in, details_in, flag_in, hex_bytes, integer_in, kind_in, kind_named, limits_in, limits_named, message_in, number_in, optional_bytes_in, options_of, payload_in, printing_in, text_in};
ghost use Rattle.cose_answers.specs.Payload.{IsFile, detached_in};
ghost use Rattle.cosecmd.specs.PayloadTo.{AsksToVerify, KeepsUnder, checks_named, new_file_of};
ghost use Rattle.cose_answers.specs.PayloadTo.{new_file_for};
ghost use Rattle.cose_answers.specs.Printed.{Output};
ghost use Rattle.cose_answers.specs.Requests.{is_sequence, makes, payload_for};

use crate::allowed::allowed_of;
use crate::files::{key_bytes, key_set_bytes};
use crate::labels::labels_of;
use crate::requirements::required_of;
use clap::ArgMatches;
use clap::error::ErrorKind;
use cose_answers::{
    Checks, Cwt, Details, Fault, Keys, Limits, Make, Payload, Printing, Question, Reply, Request,
    Status,
};
use cose_commands::{line, mistake};
use cose_files::NamedFiles;
use cose_msg::{Alg, Wanted};
use std::alloc::Global;

/// The most bytes of the externally supplied data.
const EXTERNAL: usize = 65_535;

/// What clap finds in the arguments.
#[derive(Drop)]
pub enum Parsed<'w> {
    /// The options, which are in order.
    Matches(ArgMatches<'w>),
    /// Help, the version, or what is wrong with the line.
    Text(Reply),
}

/// Whether a text begins as an answer does.
fn is_like_answer(text: &str) -> bool
    ensures { result ≡ begins_as_answer text.now }
{
    let bytes = text.as_bytes();
    bytes.starts_with(b"authentic ")
        || bytes.starts_with(b"refused ")
        || bytes.starts_with(b"admitted")
        || bytes.starts_with(b"shape ")
        || bytes.starts_with(b"detached at ")
        || bytes.starts_with(b"vouch ")
        || bytes.starts_with(b"key at ")
        || bytes.starts_with(b"at ")
}

/// Whether a word asks for help or for the version.
fn is_for_help(word: &str) -> bool
    ensures { result ≡ is_for_help_in word.now }
{
    let bytes = word.as_bytes();
    word == "help"
        || bytes.starts_with(b"--help")
        || bytes.starts_with(b"--version")
        || bytes.starts_with(b"-h")
        || bytes.starts_with(b"-V")
}

/// Whether one of these words does.
fn asks_for_help(words: &[&str]) -> bool
    ensures { result ≡ ask_for_help (map (λ word. word.now) words.now) }
{
    'words: for word in words {
        if is_for_help(word) {
            return true;
        }
    }
    false
}

/// How a run ends with a text of clap's: well only where it is help or the version, and the arguments ask for one of them.
fn status_of(error: &clap::Error, words: &[&str]) -> Status
    ensures other { result ≢ Status.Refused }
    ensures asked { result ≡ Status.Done
        → ask_for_help (map (λ word. word.now) words.now) ≡ true }
{
    if error.use_stderr() {
        return Status::Fault;
    }
    if asks_for_help(words) {
        return Status::Done;
    }
    Status::Fault
}

/// What is said of a line that clap refuses, or the help or version that it asks for.
fn text_of_error(alloc: Global, error: &clap::Error) -> Result<String, Fault> {
    let text = format!(in alloc; "{error}")?;
    Ok(mistake(alloc, error.kind(), text.as_str())?)
}

/// The text of a line that is refused, which repeats none of its arguments, or the help or version that it asks for. None of them
/// can be taken for an answer.
fn refused_line(alloc: Global, error: clap::Error, words: &[&str]) -> Result<Reply, Fault>
    ensures status { IfOk result (λ reply. reply.status ≢ Status.Refused) }
    ensures asked { IfOk result (λ reply. reply.status ≡ Status.Done
        → ask_for_help (map (λ word. word.now) words.now) ≡ true) }
    ensures text { IfOk result (λ reply. begins_as_answer (string_bytes reply.text) ≡ false) }
{
    if matches!(error.kind(), ErrorKind::OutOfMemory) {
        return Err(Fault::Memory);
    }
    let status = status_of(&error, words);
    let text = text_of_error(alloc, &error)?;
    if is_like_answer(text.as_str()) {
        return Err(Fault::Line("command"));
    }
    Ok(Reply { status, text })
}

/// The text of an option's argument, where the option is there or has a default.
pub fn text_of<'a>(matches: &ArgMatches<'a>, option: &str) -> Option<&'a str>
    ensures { option_map text_value result ≡ text_in option.now (options_of matches.now) }
{
    matches.get_str(option)
}

/// The bytes that the argument of this option writes in hexadecimal.
fn decode(alloc: Global, option: &'static str, text: &str) -> Result<Vec<u8>, Fault>
    ensures value { IfOk result (λ bytes. hex_bytes text.now ≡ Some bytes.items) }
    ensures fault { IfErr result (λ fault. (fault ≡ Fault.Memory)
        ⊎ (fault ≡ Fault.Line option.entry)) }
{
    match hex::decode(alloc, text) {
        Ok(bytes) => Ok(bytes),
        Err(error) => Err(Fault::hexadecimal(option, error)),
    }
}

/// The bytes of an option's argument in hexadecimal, and none where the option isn't there.
fn bytes_of(alloc: Global, matches: &ArgMatches, option: &'static str) -> Result<Vec<u8>, Fault>
    ensures { IfOk result (λ bytes. bytes_in option.now (options_of matches.now)
        ≡ Some bytes.items) }
{
    match text_of(matches, option) {
        Some(text) => decode(alloc, option, text),
        None => Ok(Vec::new(alloc)),
    }
}

/// The bytes of an option's argument in hexadecimal, where the option is there.
fn optional_bytes_of(
    alloc: Global,
    matches: &ArgMatches,
    option: &'static str,
) -> Result<Option<Vec<u8>>, Fault>
    ensures { IfOk result (λ bytes. optional_bytes_in option.now (options_of matches.now)
        ≡ Some (option_map (λ bytes. bytes.items) bytes)) }
{
    match text_of(matches, option) {
        Some(text) => Ok(Some(decode(alloc, option, text)?)),
        None => Ok(None),
    }
}

/// The current time that the arguments give.
fn now_of(matches: &ArgMatches) -> Result<i64, Fault>
    ensures { IfOk result (λ now. integer_in (codes "now") (options_of matches.now) ≡ Some now) }
{
    match matches.get_one::<i64>("now") {
        Some(now) => Ok(now),
        None => Err(Fault::Line("now")),
    }
}

/// The leeway that the arguments give.
fn leeway_of(matches: &ArgMatches) -> Result<u32, Fault>
    ensures { IfOk result (λ leeway. number_in (codes "leeway") (options_of matches.now)
        ≡ Some leeway) }
{
    match matches.get_one::<u32>("leeway") {
        Some(leeway) => Ok(leeway),
        None => Err(Fault::Line("leeway")),
    }
}

/// The number of bytes of the payload that the arguments give.
fn length_of(matches: &ArgMatches) -> Result<u64, Fault>
    ensures { IfOk result (λ length. number_in (codes "length") (options_of matches.now)
        ≡ Some length) }
{
    match matches.get_one::<u64>("length") {
        Some(length) => Ok(length),
        None => Err(Fault::Line("length")),
    }
}

/// The algorithm that the arguments name by its number (RFC 9053 section 3.1).
fn alg_of(matches: &ArgMatches) -> Result<Alg, Fault>
    ensures { IfOk result (λ alg. algorithm_in (options_of matches.now) ≡ Some alg) }
{
    let Some(number) = matches.get_one::<u8>("alg") else {
        return Err(Fault::Line("alg"));
    };
    match Alg::from_number(i128::from(number)) {
        Some(alg) => Ok(alg),
        None => Err(Fault::Line("alg")),
    }
}

/// The kinds of messages for a value of `--kind`.
fn wanted_of(word: &str) -> Wanted
    ensures { result ≡ kind_named word.now }
{
    match word {
        "mac0" => Wanted::Mac0,
        "sign1" => Wanted::Sign1,
        _ => Wanted::Tagged,
    }
}

/// The kinds of messages that the arguments name.
fn kind_of(matches: &ArgMatches) -> Wanted
    ensures { result ≡ kind_in (options_of matches.now) }
{
    wanted_of(text_of(matches, "kind").unwrap_or("tagged"))
}

/// The limits for a value of `--limits`.
fn limits_named_by(word: &str) -> Limits
    ensures { result ≡ limits_named word.now }
{
    match word {
        "large" => Limits::Large,
        _ => Limits::Small,
    }
}

/// The limits that the arguments name.
fn limits_of(matches: &ArgMatches) -> Limits
    ensures { result ≡ limits_in (options_of matches.now) }
{
    limits_named_by(text_of(matches, "limits").unwrap_or("small"))
}

/// Whether an option without an argument is there.
pub fn flag_of(matches: &ArgMatches, option: &str) -> bool
    ensures { result ≡ flag_in option.now (options_of matches.now) }
{
    text_of(matches, option).unwrap_or("false") == "true"
}

/// The externally supplied data, which is limited.
fn external_of(alloc: Global, matches: &ArgMatches) -> Result<Vec<u8>, Fault>
    ensures limit { IfOk result (λ aad. length_in aad.items ≤ 65535) }
    ensures value { IfOk result (λ aad. bytes_in (codes "aad") (options_of matches.now)
        ≡ Some aad.items) }
{
    let aad = bytes_of(alloc, matches, "aad")?;
    if aad.len() > EXTERNAL {
        return Err(Fault::Line("aad"));
    }
    Ok(aad)
}

/// The bytes of the key set, from the argument or from the file that the arguments name.
fn key_set_of<F: NamedFiles>(
    alloc: Global,
    files: &F,
    matches: &ArgMatches,
) -> Result<Vec<u8>, Fault>
    ensures keys { IfOk result (λ keys. HasKeysOf (F.content files.now) (options_of matches.now)
        keys.items) }
    ensures listed { IfOk result (λ keys. IsListedAs (F.content files.now) (options_of matches.now)
        keys.items) }
{
    match text_of(matches, "keys-file") {
        Some(name) => key_set_bytes(alloc, files, "keys-file", name),
        None => bytes_of(alloc, matches, "keys"),
    }
}

/// The bytes of the key, from the argument or from the file that the arguments name.
fn key_of<F: NamedFiles>(alloc: Global, files: &F, matches: &ArgMatches) -> Result<Vec<u8>, Fault>
    ensures { IfOk result (λ key. IsKeyOf (F.content files.now) (options_of matches.now)
        key.items) }
{
    match text_of(matches, "key-file") {
        Some(name) => key_bytes(alloc, files, "key-file", name),
        None => bytes_of(alloc, matches, "key"),
    }
}

/// The payload where the arguments name no file of it.
fn payload_in_line<'a>(alloc: Global, matches: &ArgMatches) -> Result<Payload<'a>, Fault>
    ensures { IfOk result (λ payload. (content : List ℕ → Option (List ℕ)) →
        detached_in content payload
        ≡ optional_bytes_in (codes "payload") (options_of matches.now)) }
{
    match optional_bytes_of(alloc, matches, "payload")? {
        Some(bytes) => Ok(Payload::Bytes(bytes)),
        None => Ok(Payload::InMessage),
    }
}

/// How many bytes of a file the arguments state as the payload, where they do.
fn stated_length_of(matches: &ArgMatches) -> Result<Option<u64>, Fault>
    ensures { IfOk result (λ stated. number_in (codes "payload-length") (options_of matches.now)
        ≡ stated) }
{
    match text_of(matches, "payload-length") {
        Some(_) => match matches.get_one::<u64>("payload-length") {
            Some(length) => Ok(Some(length)),
            None => Err(Fault::Line("payload-length")),
        },
        None => Ok(None),
    }
}

/// The payload in the file of this name.
fn payload_in_file<'a>(matches: &ArgMatches<'a>, name: &'a str) -> Result<Payload<'a>, Fault>
    ensures { IfOk result (λ payload. payload ≡ Payload.File name.entry
        (number_in (codes "payload-length") (options_of matches.now))) }
{
    match stated_length_of(matches) {
        Ok(length) => Ok(Payload::File { name, length }),
        Err(fault) => Err(fault),
    }
}

/// Where the arguments say that the payload is. A file isn't opened yet.
fn payload_of<'a>(alloc: Global, matches: &ArgMatches<'a>) -> Result<Payload<'a>, Fault>
    ensures value { IfOk result (λ payload. (content : List ℕ → Option (List ℕ)) →
        detached_in content payload ≡ payload_in content (options_of matches.now)) }
    // Where a file is named, the payload is in this file.
    ensures file { (name : List ℕ) →
        first_value (found_of matches.now) (codes "payload-file") ≡ Some name →
        IfOk result (IsFile name) }
{
    match text_of(matches, "payload-file") {
        Some(name) => payload_in_file(matches, name),
        None => payload_in_line(alloc, matches),
    }
}

/// What the arguments of `verify` and `cwt` say that a message is verified under, in the order in which help lists them.
fn checks_of<F: NamedFiles>(alloc: Global, files: &F, matches: &ArgMatches) -> Result<Checks, Fault>
    ensures { IfOk result (AreChecks (checks_in (F.content files.now) (options_of matches.now))) }
{
    let keys = key_set_of(alloc, files, matches)?;
    let allowed = allowed_of(alloc, matches)?;
    let aad = external_of(alloc, matches)?;
    let wanted = kind_of(matches);
    let vouch = optional_bytes_of(alloc, matches, "vouch")?;
    let limits = limits_of(matches);
    Ok(Checks {
        keys,
        allowed,
        aad,
        wanted,
        vouch,
        limits,
    })
}

/// How the arguments say that claims are printed.
fn printing_of(matches: &ArgMatches) -> Printing
    ensures { result ≡ printing_in (options_of matches.now) }
{
    Printing {
        readable: flag_of(matches, "text"),
        others: text_of(matches, "claims").unwrap_or("") == "all",
    }
}

/// The arguments of `cwt`, in the order in which help lists them.
fn cwt_of<'a, F: NamedFiles>(
    alloc: Global,
    files: &F,
    matches: &ArgMatches<'a>,
) -> Result<Cwt<'a>, Fault>
    ensures { IfOk result (CwtFields (F.content files.now) (options_of matches.now)) }
{
    let checks = checks_of(alloc, files, matches)?;
    let now = now_of(matches)?;
    let leeway = leeway_of(matches)?;
    let aud = text_of(matches, "aud");
    let required = required_of(alloc, matches)?;
    let printing = printing_of(matches);
    Ok(Cwt {
        checks,
        now,
        leeway,
        aud,
        required,
        printing,
    })
}

/// What the arguments of `digest` say that a message, a COSE_Sign1, is read under, in the order in which help lists them.
fn digest_checks_of<F: NamedFiles>(
    alloc: Global,
    files: &F,
    matches: &ArgMatches,
) -> Result<Checks, Fault>
    ensures { IfOk result
        (AreChecks (digest_checks_in (F.content files.now) (options_of matches.now))) }
{
    let keys = key_set_of(alloc, files, matches)?;
    let allowed = allowed_of(alloc, matches)?;
    let aad = external_of(alloc, matches)?;
    let limits = limits_of(matches);
    Ok(Checks {
        keys,
        allowed,
        aad,
        wanted: Wanted::Sign1,
        vouch: None,
        limits,
    })
}

/// The kinds of messages that keys are listed for, where they are.
fn message_of(matches: &ArgMatches) -> Option<Wanted>
    ensures { result ≡ message_in (options_of matches.now) }
{
    if flag_of(matches, "for-message") {
        return Some(kind_of(matches));
    }
    None
}

/// The arguments of `keys`.
fn keys_of<F: NamedFiles>(alloc: Global, files: &F, matches: &ArgMatches) -> Result<Keys, Fault>
    ensures { IfOk result (KeysFields (F.content files.now) (options_of matches.now)) }
{
    let keys = key_set_of(alloc, files, matches)?;
    let message = message_of(matches);
    Ok(Keys { keys, message })
}

/// The arguments of `make`, in the order in which help lists them.
fn make_of<F: NamedFiles>(alloc: Global, files: &F, matches: &ArgMatches) -> Result<Make, Fault>
    ensures { IfOk result (MakeFields (F.content files.now) (options_of matches.now)) }
{
    let alg = alg_of(matches)?;
    let key = key_of(alloc, files, matches)?;
    let length = length_of(matches)?;
    let kid = optional_bytes_of(alloc, matches, "kid")?;
    let aad = external_of(alloc, matches)?;
    Ok(Make {
        alg,
        key,
        length,
        kid,
        aad,
    })
}

/// To verify under these checks a message that has its payload, and to keep this in a new file of this name.
fn keep_request<'a>(checks: Checks, payload: &Payload, name: &'a str) -> Result<Request<'a>, Fault>
    ensures asks { IfOk result (AsksToVerify [] checks payload.entry.now) }
    ensures keeps { IfOk result (λ request. new_file_for request ≡ Some name.entry.now) }
{
    match payload {
        Payload::InMessage => Ok(Request::Keep { checks, name }),
        // clap refuses the options together.
        Payload::Bytes(_) | Payload::File { .. } => Err(Fault::Line("payload-to")),
    }
}

/// To verify under these checks, with this payload. Where a new file is named, the payload of an authentic message is to be
/// kept in it.
fn verify_or_keep<'a>(
    checks: Checks,
    payload: Payload<'a>,
    name: Option<&'a str>,
) -> Result<Request<'a>, Fault>
    ensures asks { IfOk result (AsksToVerify [] checks payload.entry) }
    ensures keeps { IfOk result (λ request. new_file_for request
        ≡ option_map text_value name.entry) }
{
    match name {
        Some(name) => keep_request(checks, &payload, name),
        None => Ok(Request::Message {
            question: Question::Verdict,
            checks,
            payload,
        }),
    }
}

/// To verify under these checks, with this payload, and to print the header parameters of these
/// labels. A payload that is to be kept goes with none.
fn verify_for<'a>(
    checks: Checks,
    payload: Payload<'a>,
    labels: Vec<String>,
    name: Option<&'a str>,
) -> Result<Request<'a>, Fault>
    ensures asks { IfOk result
        (AsksToVerify (map string_bytes labels.items) checks payload.entry) }
    ensures keeps { IfOk result (λ request. new_file_for request
        ≡ option_map text_value name.entry) }
{
    let named = labels.as_slice();
    if named.is_empty() {
        return verify_or_keep(checks, payload, name);
    }
    match name {
        // clap refuses the options together.
        Some(_) => Err(Fault::Line("payload-to")),
        None => Ok(Request::Message {
            question: Question::Headers(labels),
            checks,
            payload,
        }),
    }
}

/// What the arguments of `verify` ask for, where the input is one message, in the order in which help
/// lists them.
fn message_request<'a, F: NamedFiles>(
    alloc: Global,
    files: &F,
    matches: &ArgMatches<'a>,
) -> Result<Request<'a>, Fault>
    ensures asks { IfOk result (λ request. (bytes : List ℕ) (said : Output) →
        message_prints (F.content files.now) (options_of matches.now) bytes ≡ Some said →
        AsksFor (F.content files.now) request bytes said) }
    ensures payload { IfOk result (λ request. payload_for (F.content files.now) request
        ≡ payload_in (F.content files.now) (options_of matches.now)) }
    ensures verifies { IfOk result (λ request. makes request ≡ false) }
    ensures one { IfOk result (λ request. is_sequence request ≡ false) }
    // Where the arguments name a new file, the payload is to be kept in it.
    ensures keeps { IfOk result (λ request. new_file_for request
        ≡ text_in (codes "payload-to") (options_of matches.now)) }
    ensures kept { IfOk result
        (KeepsUnder (checks_in (F.content files.now) (options_of matches.now))) }
{
    let checks = checks_of(alloc, files, matches)?;
    let payload = payload_of(alloc, matches)?;
    let labels = labels_of(alloc, matches)?;
    verify_for(checks, payload, labels, text_of(matches, "payload-to"))
}

/// What the arguments of `verify` ask for, where the input is a sequence.
fn sequence_request<'a, F: NamedFiles>(
    alloc: Global,
    files: &F,
    matches: &ArgMatches<'a>,
) -> Result<Request<'a>, Fault>
    ensures asks { IfOk result (λ request. (bytes : List ℕ) (said : Output) →
        sequence_prints (F.content files.now) (options_of matches.now) bytes ≡ Some said →
        AsksFor (F.content files.now) request bytes said) }
    ensures payload { IfOk result (λ request. payload_for (F.content files.now) request
        ≡ Some None) }
    ensures verifies { IfOk result (λ request. makes request ≡ false) }
    ensures keeps { IfOk result (λ request. new_file_for request
        ≡ text_in (codes "payload-to") (options_of matches.now)) }
    ensures kept { IfOk result
        (KeepsUnder (checks_in (F.content files.now) (options_of matches.now))) }
{
    // clap refuses the options together.
    if text_of(matches, "payload-to").is_some() {
        return Err(Fault::Line("payload-to"));
    }
    let checks = checks_of(alloc, files, matches)?;
    Ok(Request::MessageSequence(checks))
}

/// What the arguments of `verify` ask for.
fn verify_request<'a, F: NamedFiles>(
    alloc: Global,
    files: &F,
    matches: &ArgMatches<'a>,
) -> Result<Request<'a>, Fault>
    ensures asks { IfOk result (λ request. (bytes : List ℕ) (said : Output) →
        verify_prints (F.content files.now) (options_of matches.now) bytes ≡ Some said →
        AsksFor (F.content files.now) request bytes said) }
    ensures payload { IfOk result (λ request. payload_for (F.content files.now) request
        ≡ verify_payload (F.content files.now) (options_of matches.now)) }
    ensures verifies { IfOk result (λ request. makes request ≡ false) }
    // Where the arguments name a new file, the payload is to be kept in it.
    ensures keeps { IfOk result (λ request. new_file_for request
        ≡ text_in (codes "payload-to") (options_of matches.now)) }
    ensures kept { IfOk result
        (KeepsUnder (checks_in (F.content files.now) (options_of matches.now))) }
    // It is a sequence only where the option says so.
    ensures sequence { IfOk result (λ request. is_sequence request ≡ true
        → flag_in (codes "sequence") (options_of matches.now) ≡ true) }
{
    if flag_of(matches, "sequence") {
        return sequence_request(alloc, files, matches);
    }
    message_request(alloc, files, matches)
}

/// What the arguments of `cwt` ask for.
fn cwt_request<'a, F: NamedFiles>(
    alloc: Global,
    files: &F,
    matches: &ArgMatches<'a>,
) -> Result<Request<'a>, Fault>
    ensures asks { IfOk result (λ request. (bytes : List ℕ) (said : Output) →
        cwt_prints (F.content files.now) (options_of matches.now) bytes ≡ Some said →
        AsksFor (F.content files.now) request bytes said) }
    ensures payload { IfOk result (λ request. payload_for (F.content files.now) request
        ≡ Some None) }
    ensures admits { IfOk result (λ request. makes request ≡ false) }
    ensures keeps { IfOk result (λ request. new_file_for request ≡ None) }
    ensures sequence { IfOk result (λ request. is_sequence request ≡ true
        → flag_in (codes "sequence") (options_of matches.now) ≡ true) }
{
    let words = cwt_of(alloc, files, matches)?;
    if flag_of(matches, "sequence") {
        return Ok(Request::TokenSequence(words));
    }
    Ok(Request::Cwt(words))
}

/// What the arguments of `digest` ask for. The payload goes last, as help lists it.
fn digest_request<'a, F: NamedFiles>(
    alloc: Global,
    files: &F,
    matches: &ArgMatches<'a>,
) -> Result<Request<'a>, Fault>
    ensures asks { IfOk result (λ request. (bytes : List ℕ) (said : Output) →
        digest_prints (F.content files.now) (options_of matches.now) bytes ≡ Some said →
        AsksFor (F.content files.now) request bytes said) }
    ensures payload { IfOk result (λ request. payload_for (F.content files.now) request
        ≡ payload_in (F.content files.now) (options_of matches.now)) }
    ensures digests { IfOk result (λ request. makes request ≡ false) }
    ensures keeps { IfOk result (λ request. new_file_for request ≡ None) }
    ensures one { IfOk result (λ request. is_sequence request ≡ false) }
{
    let checks = digest_checks_of(alloc, files, matches)?;
    let payload = payload_of(alloc, matches)?;
    Ok(Request::Message {
        question: Question::Digest,
        checks,
        payload,
    })
}

/// What the arguments, the first of which is the program's name, say to clap. Not inlined, so that an answer has the stack that it takes.
#[inline(never)]
pub fn parse<'a>(alloc: Global, words: &'a [&'a str]) -> Result<Parsed<'a>, Fault>
    ensures { IfOk result (IsReadFrom (map (λ word. word.now) words.entry.now)) }
{
    match line(alloc)?.try_get_matches_from(words) {
        Ok(matches) => Ok(Parsed::Matches(matches)),
        Err(error) => Ok(Parsed::Text(refused_line(alloc, error, words)?)),
    }
}

/// What the command `show` prints in addition.
fn details_of(show: &ArgMatches) -> Details
    ensures { result ≡ details_in (options_of show.now) }
{
    Details {
        diagnostic: flag_of(show, "diagnostic"),
        detached: flag_of(show, "detached"),
        payload: flag_of(show, "with-payload"),
    }
}

/// What the arguments ask for. It reads the file of keys that they name. Not inlined, as `parse`.
#[inline(never)]
pub fn request_of<'a, F: NamedFiles>(
    alloc: Global,
    files: &F,
    matches: &ArgMatches<'a>,
) -> Result<Request<'a>, Fault>
    ensures asks { IfOk result (λ request. (bytes : List ℕ) (said : Output) →
        matches_print (F.content files.now) matches.now bytes ≡ Some said →
        AsksFor (F.content files.now) request bytes said) }
    // Its payload is that which the options name, whatever the files of the keys have.
    ensures payload { IfOk result (λ request. payload_for (F.content files.now) request
        ≡ payload_named (F.content files.now) (subcommand_rows_of matches.now)) }
    // Only `make` makes a message.
    ensures making { IfOk result (λ request. makes request ≡ true
        → subcommand_name_of matches.now ≡ Some (codes "make")) }
    // A new file is made where the arguments name one.
    ensures keeping { IfOk result (λ request. new_file_for request
        ≡ new_file_of (subcommand_rows_of matches.now)) }
    // The message whose payload is kept in it is verified under what the options say.
    ensures kept { IfOk result
        (KeepsUnder (checks_named (F.content files.now) (subcommand_rows_of matches.now))) }
    // A sequence is asked for only where the option says so.
    ensures sequence { IfOk result (λ request. is_sequence request ≡ true
        → is_of_sequence matches.now ≡ true) }
{
    if let Some(show) = matches.subcommand_matches("show") {
        return Ok(Request::Show {
            limits: limits_of(show),
            wanted: kind_of(show),
            details: details_of(show),
        });
    }
    if let Some(verify) = matches.subcommand_matches("verify") {
        return verify_request(alloc, files, verify);
    }
    if let Some(cwt) = matches.subcommand_matches("cwt") {
        return cwt_request(alloc, files, cwt);
    }
    if let Some(digest) = matches.subcommand_matches("digest") {
        return digest_request(alloc, files, digest);
    }
    if let Some(keys) = matches.subcommand_matches("keys") {
        return Ok(Request::Keys(keys_of(alloc, files, keys)?));
    }
    match matches.subcommand_matches("make") {
        Some(make) => Ok(Request::Make(make_of(alloc, files, make)?)),
        None => Err(Fault::Line("command")),
    }
}
