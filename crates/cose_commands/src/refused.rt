//! The texts for arguments that are refused. None of the arguments is repeated: an argument may be a key that lacks its
//! option.

ghost use Rattle.std.specs.Prelude.{◌≡◌, true, false, Some, IfOk, option_map, string_bytes};
ghost use Rattle.cose_commands.specs.Refused.{argument_text, before_quote, is_of_value, kind_line, kind_words, lacks_value, names_options, option_named, usage_in, value_text};

use clap::error::ErrorKind;
use std::alloc::{AllocError, Global};

/// How the text begins that says of an option that its value is missing. It repeats no argument.
const NO_VALUE: &str = "error: a value is required for '";

/// The part of a text between a value and its option.
const FOR: &str = "' for '";

/// The part of a text between what is wrong and how the command is used.
const USAGE: &str = "\n\nUsage: ";

/// What comes before the first quotation mark.
fn up_to_quote(text: &str) -> Option<&str>
    ensures { option_map (λ part. part.now) result ≡ before_quote text.now }
{
    let (part, _) = text.split_once('\'')?;
    Some(part)
}

/// The option that a text names last, with the possible values where it has some.
fn option_in(kind: ErrorKind, text: &str) -> Option<&str>
    ensures { option_map (λ option. option.now) result ≡ option_named kind text.now }
{
    let (_, option) = text.rsplit_once(FOR)?;
    match kind {
        // The possible values follow, and no value that was given.
        ErrorKind::InvalidValue => Some(option),
        // Why the value is wrong follows, which may repeat it.
        _ => up_to_quote(option),
    }
}

/// The words for a kind.
fn words_of(kind: ErrorKind) -> &'static str
    ensures { result.now ≡ kind_words kind }
{
    kind.as_str().unwrap_or("")
}

/// A line with the words for a kind alone.
fn kind_alone(alloc: Global, kind: ErrorKind) -> Result<String, AllocError>
    ensures { IfOk result (λ said. string_bytes said ≡ kind_line kind) }
{
    let mut said = String::from_str(alloc, "error: ")?;
    said.push_str(words_of(kind))?;
    said.push_str("\n")?;
    Ok(said)
}

/// That the value of this option is wrong.
fn with_option(alloc: Global, kind: ErrorKind, option: &str) -> Result<String, AllocError>
    ensures { IfOk result (λ said. string_bytes said ≡ value_text kind (Some option.now)) }
{
    let mut said = String::from_str(alloc, "error: invalid value for '")?;
    said.push_str(option)?;
    // What follows the possible values says so itself.
    if kind != ErrorKind::InvalidValue {
        said.push_str("'\n\nFor more information, try '--help'.\n")?;
    }
    Ok(said)
}

/// The words for a kind, and how the command is used.
fn with_usage(alloc: Global, kind: ErrorKind, usage: &str) -> Result<String, AllocError>
    ensures { IfOk result (λ said. string_bytes said ≡ argument_text kind (Some usage.now)) }
{
    let mut said = String::from_str(alloc, "error: ")?;
    said.push_str(words_of(kind))?;
    said.push_str(USAGE)?;
    said.push_str(usage)?;
    Ok(said)
}

/// What is wrong with a value, without the value: the option is named.
fn about_value(alloc: Global, kind: ErrorKind, text: &str) -> Result<String, AllocError>
    ensures missing { lacks_value text.now ≡ true
        → IfOk result (λ said. string_bytes said ≡ text.now) }
    ensures value { lacks_value text.now ≡ false
        → IfOk result (λ said. string_bytes said ≡ value_text kind (option_named kind text.now)) }
{
    if text.starts_with(NO_VALUE) {
        return String::from_str(alloc, text);
    }
    match option_in(kind, text) {
        Some(option) => with_option(alloc, kind, option),
        None => kind_alone(alloc, kind),
    }
}

/// What is wrong with an argument that no option takes, without the argument: the usage names the options that are expected.
fn about_argument(alloc: Global, kind: ErrorKind, text: &str) -> Result<String, AllocError>
    ensures { IfOk result (λ said. string_bytes said
        ≡ argument_text kind (usage_in text.now)) }
{
    match text.rsplit_once(USAGE) {
        Some((_, usage)) => with_usage(alloc, kind, usage),
        None => kind_alone(alloc, kind),
    }
}

/// The text for a line that is refused, without the arguments that clap's text repeats.
pub fn mistake(alloc: Global, kind: ErrorKind, text: &str) -> Result<String, AllocError>
    ensures plain { names_options kind ≡ true
        → IfOk result (λ said. string_bytes said ≡ text.now) }
    ensures missing { is_of_value kind ≡ true → lacks_value text.now ≡ true
        → IfOk result (λ said. string_bytes said ≡ text.now) }
    ensures value { is_of_value kind ≡ true → lacks_value text.now ≡ false
        → IfOk result (λ said. string_bytes said ≡ value_text kind (option_named kind text.now)) }
    ensures argument { names_options kind ≡ false → is_of_value kind ≡ false
        → IfOk result (λ said. string_bytes said ≡ argument_text kind (usage_in text.now)) }
{
    match kind {
        ErrorKind::DisplayHelp
        | ErrorKind::DisplayVersion
        | ErrorKind::DisplayHelpOnMissingArgumentOrSubcommand
        | ErrorKind::MissingRequiredArgument
        | ErrorKind::ArgumentConflict => String::from_str(alloc, text),
        ErrorKind::InvalidValue | ErrorKind::ValueValidation => about_value(alloc, kind, text),
        _ => about_argument(alloc, kind, text),
    }
}
