//! Texts and labels in diagnostic notation (RFC 8949 section 8).

ghost use Rattle.std.specs.Prelude.{◌≡◌, IfOk, string_bytes};
ghost use Rattle.cose_map.specs.Label.View.{label_value};
ghost use Rattle.cose_text.specs.Quoted.{quoted as text_in_quotes};
ghost use Rattle.cose_answers.specs.Readable as spec;

use cose_map::Label;
use cose_text::push_quoted;
use std::alloc::{AllocError, Global};

/// A text in quotes.
pub fn quoted(alloc: Global, content: &str) -> Result<String, AllocError>
    ensures { IfOk result (λ text. string_bytes text ≡ text_in_quotes content.now) }
{
    let mut text = String::new(alloc);
    push_quoted(alloc, &mut text, content)?;
    Ok(text)
}

/// A label: an integer in decimal, a text in quotes.
pub fn label_text(alloc: Global, label: &Label) -> Result<String, AllocError>
    ensures { IfOk result (λ text. string_bytes text ≡ spec.label_text (label_value label.now)) }
{
    match *label {
        Label::Int(number) => format!(in alloc; "{number}"),
        Label::Text(content) => quoted(alloc, content),
    }
}
