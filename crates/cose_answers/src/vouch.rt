//! The `EcVerifier` of the program: somebody else has verified the signature, and vouches for it with `--vouch`.

ghost use Rattle.std.specs.Prelude.{◌≡◌, ℕ, List, ◌++◌, IfOk, option_map};
ghost use Rattle.std.specs.Str.{bytes_eq};
ghost use Rattle.cose_map.specs.Key.View.{contents, key_value, y_value};
ghost use Rattle.cose_answers.specs.Vouch.{is_then, sign_byte, vouched_y, vouching, word_under};

use cose_map::{Material, Y};
use cose_msg::{EcVerifier, Key};
use std::alloc::{AllocError, Global};

/// Vouches for one signature: the argument of `--vouch` is its key's curve in one byte, the digest, the signature, and
/// the key's x and y (where y is a sign alone, the byte 00 or 01). Without an argument nothing is vouched for.
#[derive(Clone, Copy)]
pub struct Vouch<'v> {
    /// The argument of `--vouch`, where there is one.
    pub word: Option<&'v [u8]>,
}

/// What follows a piece in an argument that begins with it.
fn rest_after<'w>(word: &'w [u8], piece: &[u8]) -> Option<&'w [u8]>
    ensures { (rest : List ℕ) → bytes_eq word.entry.now (piece.now ++ rest)
        ≡ is_then (option_map contents result) rest }
{
    word.strip_prefix(piece)
}

/// The byte of a sign.
fn byte_of(sign: bool) -> u8
    ensures { result ≡ sign_byte sign }
{
    if sign { 1 } else { 0 }
}

/// Whether what is left of an argument is the coordinate y.
fn is_y(word: &[u8], y: Y) -> bool
    ensures { result ≡ bytes_eq word.now (vouched_y (y_value y.entry)) }
{
    match y {
        Y::Bytes(bytes) => word == bytes,
        Y::Sign(sign) => word == [byte_of(sign)].as_slice(),
    }
}

/// The argument of `--vouch` for the signature of this digest with this key, no matter who verified it.
pub fn word_for(
    alloc: Global,
    key: &Key<'_>,
    digest: &[u8],
    signature: &[u8],
) -> Result<Vec<u8>, AllocError>
    ensures { IfOk result (λ word. word.items
        ≡ word_under (key_value key.now).material digest.now signature.now) }
{
    let mut word = Vec::new(alloc);
    let Material::Ec { crv, x, y } = key.material else {
        return Ok(word);
    };
    word.push(crv)?;
    word.extend_from_slice(digest)?;
    word.extend_from_slice(signature)?;
    word.extend_from_slice(x)?;
    match y {
        Y::Bytes(bytes) => word.extend_from_slice(bytes)?,
        Y::Sign(sign) => word.push(byte_of(sign))?,
    }
    Ok(word)
}

impl EcVerifier for Vouch<'_> {
    ghost decides = { λ vouch. vouching (option_map contents vouch.word) };

    fn holds(&self, key: &Key<'_>, digest: &[u8], signature: &[u8]) -> bool {
        let (Some(word), Material::Ec { crv, x, y }) = (self.word, key.material) else {
            return false;
        };
        let Some(word) = rest_after(word, &[crv]) else {
            return false;
        };
        let Some(word) = rest_after(word, digest) else {
            return false;
        };
        let Some(word) = rest_after(word, signature) else {
            return false;
        };
        match rest_after(word, x) {
            Some(word) => is_y(word, y),
            None => false,
        }
    }
}
