//! What standard error says of an input that is a text. None of it changes what standard output says, or how the run ends.

use crate::hints::{Form, form_of};
use cose_text::{InputForm, TextInput};
use std::io::Read;

/// What is said of bytes that are no text, where one is expected.
const NO_TEXT: &str =
    "standard input begins as no text does; where it is CBOR, leave out --input, or write `--input auto`";

/// The forms that an input is expected in.
pub fn name_of(form: InputForm) -> &'static str {
    match form {
        InputForm::Cbor => "CBOR",
        InputForm::Hexadecimal => "hexadecimal",
        InputForm::Base64url => "base64url",
        InputForm::Either => "hexadecimal or base64url",
    }
}

/// Whether the input may be a text in this form.
pub fn is_text(form: InputForm) -> bool {
    !matches!(form, InputForm::Cbor)
}

/// The bytes that the first ones of an input stand for, of which `into` gets as many as it holds.
pub fn first_bytes<'a>(form: InputForm, first: &'a [u8], into: &'a mut [u8]) -> &'a [u8] {
    if !is_text(form) {
        return first;
    }
    let mut text = TextInput::new(first);
    text.read_as(form);
    match text.read(into) {
        Ok(count) => into.get(..count).unwrap_or(first),
        Err(_) => first,
    }
}

/// What an input begins as that is a text of no form that is decoded, by as much of it as is read: no message begins as `-`
/// or `ey` do in base64url.
pub fn other_form(first: &[u8]) -> Option<Form> {
    if first.starts_with(b"-") {
        return Some(Form::Pem);
    }
    if first.starts_with(b"ey") {
        return Some(Form::JsonWebToken);
    }
    match form_of(first)? {
        Form::Hexadecimal | Form::Base64url | Form::Letters => None,
        form => Some(form),
    }
}

/// What to say of an input that is wrong in the form that is expected, by its first byte.
pub fn advice_on_wrong_text(first: &[u8]) -> Option<&'static str> {
    match first.first() {
        Some(&byte) if byte >= 0x80 => Some(NO_TEXT),
        _ => None,
    }
}
