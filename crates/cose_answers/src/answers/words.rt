//! What the lines of an answer are made of. Each of these calls drops what it makes, so that no text is held where a line is put together.

ghost use Rattle.std.specs.Prelude.{◌≡◌, ◌++◌, IfErr, IfOk, codes, string_bytes};
ghost use Rattle.hex.specs.Hex.{encode_lower};

use crate::fault::Fault;
use std::alloc::Global;

/// Appends bytes in hexadecimal.
pub(super) fn push_hex(alloc: Global, text: &mut String, bytes: &[u8]) -> Result<(), Fault>
    ensures digits { IfOk result (λ _. string_bytes text.new
        ≡ string_bytes text.old ++ encode_lower bytes.now) }
    ensures fault { IfErr result (λ fault. fault ≡ Fault.Memory) }
{
    let digits = hex::encode(alloc, bytes)?;
    text.push_str(digits.as_str())?;
    Ok(())
}

/// Appends a name, and bytes in hexadecimal.
pub(super) fn push_named_hex(
    alloc: Global,
    text: &mut String,
    name: &str,
    bytes: &[u8],
) -> Result<(), Fault>
    ensures words { IfOk result (λ _. string_bytes text.new
        ≡ string_bytes text.old ++ name.now ++ codes " " ++ encode_lower bytes.now) }
    ensures fault { IfErr result (λ fault. fault ≡ Fault.Memory) }
{
    text.push_str(name)?;
    text.push_str(" ")?;
    push_hex(alloc, text, bytes)
}
