//! How the arguments say that standard input is written.

ghost use Rattle.std.specs.Prelude.{◌≡◌};
ghost use Rattle.clap.specs.Simple.{subcommand_rows_of};
ghost use Rattle.cosecmd.specs.InputForm.{form_in, form_named};

use crate::arguments::text_of;
use clap::ArgMatches;
use cose_text::InputForm;

/// The form for a value of `--input`.
pub fn form_named_by(word: &str) -> InputForm
    ensures { result ≡ form_named word.now }
{
    match word {
        "hex" => InputForm::Hexadecimal,
        "base64url" => InputForm::Base64url,
        "auto" => InputForm::Either,
        _ => InputForm::Cbor,
    }
}

/// The form of the input that arguments name that were accepted.
pub fn form_named_in(words: &[&str]) -> InputForm {
    let mut follows = false;
    for &word in words {
        if follows {
            return form_named_by(word);
        }
        if let Some(name) = word.strip_prefix("--input=") {
            return form_named_by(name);
        }
        follows = word == "--input";
    }
    InputForm::Cbor
}

/// The form that the options of the command name.
pub fn input_form_of(matches: &ArgMatches) -> InputForm
    ensures { result ≡ form_in (subcommand_rows_of matches.now) }
{
    match matches.subcommand() {
        Some((_name, options)) => form_named_by(text_of(options, "input").unwrap_or("cbor")),
        None => InputForm::Cbor,
    }
}
