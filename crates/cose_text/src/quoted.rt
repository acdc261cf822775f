//! Texts in quotes, with the escapes of JSON (RFC 8949 section 8, RFC 8259 section 7).

ghost use Rattle.std.specs.Prelude.{◌≡◌, ◌++◌, ◌<◌, ◌≤◌, ◌^◌, IfOk, string_bytes};
ghost use Rattle.cose_text.specs.Quoted.{char_text, quoted, unit_text, units_text};

use std::alloc::{AllocError, Global};

/// The first code point that UTF-16 writes in two units.
const IN_PAIRS: u32 = 0x1_0000;

/// Appends the escape of a UTF-16 code unit: four digits after `\u`.
fn push_unit(alloc: Global, text: &mut String, unit: u16) -> Result<(), AllocError>
    ensures { IfOk result (λ _. string_bytes text.new ≡ string_bytes text.old ++ unit_text unit) }
{
    let bytes = unit.to_be_bytes();
    let digits = hex::encode(alloc, &bytes[..])?;
    text.push_str("\\u")?;
    text.push_str(digits.as_str())?;
    Ok(())
}

/// Appends the escapes of a character, one for each of its UTF-16 code units.
fn push_units(alloc: Global, text: &mut String, ch: char) -> Result<(), AllocError>
    ensures { IfOk result (λ _. string_bytes text.new ≡ string_bytes text.old ++ units_text ch) }
{
    let code = u32::from(ch);
    if code < IN_PAIRS {
        return push_unit(alloc, text, code as u16);
    }
    let above = code - IN_PAIRS;
    push_unit(alloc, text, (0xd800 + above / 1024) as u16)?;
    push_unit(alloc, text, (0xdc00 + above % 1024) as u16)
}

/// Appends a character, or its escape.
fn push_char(alloc: Global, text: &mut String, ch: char) -> Result<(), AllocError>
    ensures { IfOk result (λ _. string_bytes text.new ≡ string_bytes text.old ++ char_text ch) }
{
    if ch == '"' || ch == '\\' {
        text.push('\\')?;
        text.push(ch)?;
        return Ok(());
    }
    if ' ' <= ch && ch <= '~' {
        text.push(ch)?;
        return Ok(());
    }
    push_units(alloc, text, ch)
}

/// Appends a text in quotes: printable ASCII characters as they are, but a quote and a backslash with a backslash before
/// them, and every other character as the escapes of its UTF-16 code units, as in RFC 8949, Appendix A.
pub fn push_quoted(alloc: Global, text: &mut String, content: &str) -> Result<(), AllocError>
    ensures { IfOk result (λ _. string_bytes text.new
        ≡ string_bytes text.old ++ quoted content.now) }
{
    text.push_str("\"")?;
    'chars: for ch in content.chars() {
        push_char(alloc, text, ch)?;
    }
    text.push_str("\"")?;
    Ok(())
}
