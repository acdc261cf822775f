//! What standard error says of an argument that isn't hexadecimal, or that has no key. It repeats nothing of the argument, which
//! may be a secret.

use crate::advice::Ended;
use crate::hints::{Form, form_of, is_no_key};
use crate::key_hints::{fault_of_keys, first_written, wrong_digit};

/// The options whose arguments are hexadecimal.
const HEXADECIMAL: &[&str] = &["keys", "aad", "vouch", "payload", "key", "kid"];

/// The first line of a run whose key set isn't one, or has too many usable keys.
const BAD_SET: &str = "fault keys BadKeySet at 0\n";

/// What such a line doesn't say.
const SET: &str =
    "a key set has at most 65,535 bytes and 16 usable keys (256 with `--limits large`); `cosecmd keys` lists them";

/// Says what isn't hexadecimal in the argument of this option.
fn say_not_hexadecimal(rt: &impl Eprint, option: &str, argument: &str) {
    if option == "keys" || option == "key" {
        if let Some(form @ (Form::Pem | Form::Json | Form::JsonWebToken)) = form_of(
            argument.as_bytes(),
        ) {
            let (name, advice) = (form.name(), form.advice_on_keys());
            let _ = eprintln!(rt;
                "cosecmd: the argument of --{option} begins as {name} does; {advice}"
            );
            return;
        }
    }
    match wrong_digit(argument) {
        Some(number) => {
            let _ = eprintln!(rt;
                "cosecmd: the argument of --{option} isn't hexadecimal: its character {number} is no digit"
            );
        }
        None if argument.len() % 2 == 1 => {
            let _ = eprintln!(rt;
                "cosecmd: the argument of --{option} has an odd number of digits"
            );
        }
        None => {
            let _ = eprintln!(rt; "cosecmd: the argument of --{option} has too many bytes");
        }
    }
}

/// Says why the argument of this option has no key set, or no key. Returns whether there is something to say.
fn say_no_key(rt: &impl Eprint, option: &str, argument: &str) -> bool {
    let first = first_written(argument);
    if is_no_key(first.known()) || form_of(first.known()).is_some() {
        let _ = eprintln!(rt;
            "cosecmd: the argument of --{option} begins as no key in CBOR does; of a secret examples/cose_key \
            (installed: cosecmd-key) --secret-file makes one"
        );
        return true;
    }
    match fault_of_keys(&first, option == "keys") {
        Some(fault) => {
            let _ = eprintln!(rt; "cosecmd: the argument of --{option} {fault}");
            true
        }
        None => false,
    }
}

/// Says of the arguments in hexadecimal of a run that has ended which of them isn't.
fn say_of_digits(rt: &impl Eprint, ended: &Ended) {
    for &option in HEXADECIMAL {
        if ended.has_printed("fault line ", option) {
            if let Some(argument) = ended.argument_of(option) {
                say_not_hexadecimal(rt, option, argument);
            }
        }
    }
}

/// The option whose argument has the keys that were refused.
fn option_of_keys(ended: &Ended) -> Option<&'static str> {
    if ended.printed.starts_with("fault keys ".as_bytes()) {
        return Some("keys");
    }
    if ended.printed.starts_with("fault key ".as_bytes()) {
        return Some("key");
    }
    None
}

/// Says of the argument of this option why it has no key set, or no key.
fn say_of_keys(rt: &impl Eprint, ended: &Ended, option: &str) {
    if let Some(argument) = ended.argument_of(option) {
        if say_no_key(rt, option, argument) {
            return;
        }
    }
    if ended.printed == BAD_SET.as_bytes() {
        let _ = eprintln!(rt; "cosecmd: {SET}");
    }
}

/// Says of the arguments of a run that has ended what its fault doesn't say.
pub fn say_of_arguments(rt: &impl Eprint, ended: &Ended) {
    say_of_digits(rt, ended);
    if let Some(option) = option_of_keys(ended) {
        say_of_keys(rt, ended, option);
    }
}
