//! The labels of the header parameters that the arguments of `verify` ask for.

ghost use Rattle.std.specs.Prelude.{◌≡◌, IfOk, map, string_bytes};
ghost use Rattle.std.specs.Fmt.{signed_decimal};
ghost use Rattle.std.specs.Str.Parse.{signed_digits_value};
ghost use Rattle.cosecmd.specs.Headers as spec;
ghost use Rattle.cosecmd.specs.Options.{options_of};

use clap::ArgMatches;
use cose_answers::{Fault, quoted};
use std::alloc::Global;

/// Whether a text begins as a number does.
fn begins_as_number(word: &str) -> bool
    ensures { result ≡ spec.begins_as_number word.now }
{
    match word.as_bytes().first() {
        Some(&first) => first == b'+' || first == b'-' || (b'0' <= first && first <= b'9'),
        None => false,
    }
}

/// Whether a text begins with a quote.
fn begins_in_quotes(word: &str) -> bool
    ensures { result ≡ spec.begins_in_quotes word.now }
{
    match word.as_bytes().first() {
        Some(&first) => first == b'"',
        None => false,
    }
}

/// Where the reading of a text in quotes is.
#[derive(Clone, Copy)]
enum Quotes {
    /// Before the first quote.
    Before,
    /// Between the quotes.
    Within,
    /// After a backslash between them.
    Escaped,
    /// In the number of a UTF-16 code unit: so many digits of it are left, and this is the number so
    /// far.
    Unit(u8, u32),
    /// After the last quote.
    After,
    /// The text isn't one in quotes.
    Broken,
}

/// The digit that a byte is in hexadecimal, in lower case.
fn digit_of(byte: u8) -> Option<u8> {
    match byte {
        b'0'..=b'9' => Some(byte - b'0'),
        b'a'..=b'f' => Some(byte - b'a' + 10),
        _ => None,
    }
}

impl Quotes {
    /// Where it is after the digits so far of a code unit. A printable ASCII character is written as
    /// it is.
    fn after_digits(left: u8, number: u32) -> Quotes {
        match number {
            _ if left > 0 => Quotes::Unit(left, number),
            0x20..=0x7e => Quotes::Broken,
            _ => Quotes::Within,
        }
    }

    /// Where it is after one more byte.
    fn past(self, byte: u8) -> Quotes {
        match (self, byte) {
            (Quotes::Before, b'"') => Quotes::Within,
            (Quotes::Within, b'"') => Quotes::After,
            (Quotes::Within, b'\\') => Quotes::Escaped,
            (Quotes::Within, b' '..=b'~') => Quotes::Within,
            (Quotes::Escaped, b'"' | b'\\') => Quotes::Within,
            (Quotes::Escaped, b'u') => Quotes::Unit(4, 0),
            (Quotes::Unit(left, number), _) => match digit_of(byte) {
                Some(digit) => {
                    let number = number.saturating_mul(16).saturating_add(u32::from(digit));
                    Quotes::after_digits(left.saturating_sub(1), number)
                }
                None => Quotes::Broken,
            },
            _ => Quotes::Broken,
        }
    }
}

/// Whether a text is in quotes as `show` writes one: printable ASCII characters, of which a quote and
/// a backslash have a backslash before them, and escapes of all others.
fn is_in_quotes(word: &str) -> bool {
    let mut quotes = Quotes::Before;
    for byte in word.as_bytes() {
        quotes = quotes.past(*byte);
    }
    matches!(quotes, Quotes::After)
}

/// The integer that a text writes, in decimal.
fn integer_label(alloc: Global, word: &str) -> Result<String, Fault>
    ensures { IfOk result (λ label. string_bytes label
        ≡ signed_decimal (signed_digits_value 10 word.now)) }
{
    match word.parse::<i64>() {
        Ok(number) => Ok(format!(in alloc; "{number}")?),
        Err(_) => Err(Fault::Line("header")),
    }
}

/// The same text, which has to be in quotes.
fn quoted_label(alloc: Global, word: &str) -> Result<String, Fault>
    ensures { IfOk result (λ label. string_bytes label ≡ word.now) }
{
    if !is_in_quotes(word) {
        return Err(Fault::Line("header"));
    }
    Ok(String::from_str(alloc, word)?)
}

/// The notation of the label that an argument names.
fn label_of(alloc: Global, word: &str) -> Result<String, Fault>
    ensures { IfOk result (λ label. string_bytes label ≡ spec.label_named word.now) }
{
    if begins_as_number(word) {
        return integer_label(alloc, word);
    }
    if begins_in_quotes(word) {
        return quoted_label(alloc, word);
    }
    Ok(quoted(alloc, word)?)
}

/// Those of all arguments.
fn labels_named(alloc: Global, words: &[&str]) -> Result<Vec<String>, Fault>
    ensures { IfOk result (λ labels. map string_bytes labels.items
        ≡ map spec.label_named (map (λ word. word.now) words.now)) }
{
    let mut labels = Vec::new(alloc);
    'words: for word in words {
        let label = label_of(alloc, word)?;
        if labels.push(label).is_err() {
            return Err(Fault::Memory);
        }
    }
    Ok(labels)
}

/// The labels that `--header` names, in their order.
pub fn labels_of(alloc: Global, matches: &ArgMatches) -> Result<Vec<String>, Fault>
    ensures { IfOk result (λ labels. map string_bytes labels.items
        ≡ spec.labels_in (options_of matches.now)) }
{
    match matches.get_strs("header") {
        Some(words) => labels_named(alloc, words),
        None => Ok(Vec::new(alloc)),
    }
}
