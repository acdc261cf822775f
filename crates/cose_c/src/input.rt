//! What a signature is verified with, in the form of the C interface.

ghost use Rattle.std.specs.Prelude.{◌≡◌, ◌≤◌, true, false, length, min, take};
ghost use Rattle.cose_map.specs.Key.View.{key_value};
ghost use Rattle.cose_msg.specs.Shown.{sign_input_of};
ghost use Rattle.cose_c.specs.Input.{Gives, GivesAll, GivesPoint, GivesWhole, has_point, is_point};

use cose_map::{Key, Keys, Material, Y};
use cose_msg::Verifier;

/// What a signature is verified with (RFC 9052 section 4.4): a point, a digest and the signature.
#[repr(C)]
#[derive(Clone, Copy)]
pub struct CoseSignInput {
    /// The number of the curve (RFC 9053 section 7.1): 1 P-256, 2 P-384, 3 P-521.
    pub crv: u8,
    /// 0 where the coordinate y has its bytes; 1 where it is even and 2 where it is odd, and its sign is all that the key has.
    pub y_sign: u8,
    /// How many bytes the coordinate x has.
    pub x_length: u64,
    /// How many bytes the coordinate y has: none where there is its sign alone.
    pub y_length: u64,
    /// How many bytes the digest has.
    pub digest_length: u64,
    /// How many bytes the signature has.
    pub signature_length: u64,
    /// The place of the signature's head: there the message is refused as [`BadAuth`](cose_msg::Reason::BadAuth), if it isn't good.
    pub place: u64,
    /// The coordinate x.
    pub x: [u8; 66],
    /// The coordinate y.
    pub y: [u8; 66],
    /// The digest of the structure that was signed.
    pub digest: [u8; 64],
    /// The signature: the integers r and s in this order.
    pub signature: [u8; 132],
}

/// Copies as many bytes as there is room for, and returns how many.
pub(crate) fn copy(from: &[u8], into: &mut [u8]) -> u64
    ensures gives { Gives from.now into.new (length into.old) result }
{
    let count = from.len().min(into.len());
    into[..count].copy_from_slice(&from[..count]);
    count as u64
}

/// Copies all bytes, for which there is room, and returns how many there are.
pub(crate) fn copy_all(from: &[u8], into: &mut [u8]) -> u64
    requires { length from.now ≤ length into.old }
    ensures { GivesWhole from.now into.new result }
{
    copy(from, into)
}

/// Gives the point of a key, if it has one.
fn give_point(key: &Key<'_>, input: &mut CoseSignInput) -> bool
    ensures value { result ≡ is_point (key_value key.now).material }
    ensures point { result ≡ true → GivesPoint (key_value key.now).material input.new }
    ensures none { result ≡ false → input.new ≡ input.old }
{
    let Material::Ec { crv, x, y } = key.material else {
        return false;
    };
    input.crv = crv;
    input.x_length = copy(x, &mut input.x);
    match y {
        Y::Bytes(y) => {
            input.y_sign = 0;
            input.y_length = copy(y, &mut input.y);
        }
        Y::Sign(odd) => {
            input.y_sign = if odd { 2 } else { 1 };
            input.y_length = 0;
        }
    }
    true
}

/// Gives what the signature of a message is verified with, and returns whether there is one.
pub(crate) fn give_input<'k, const H: usize, const D: usize, K: Keys<'k>>(
    verifier: &Verifier<'k, H, D, K>,
    input: &mut CoseSignInput,
) -> bool
    ensures value { result ≡ has_point (sign_input_of verifier.now) }
    ensures input { result ≡ true → GivesAll (sign_input_of verifier.now) input.new }
    ensures none { result ≡ false → input.new ≡ input.old }
{
    let Some((key, digest, signature)) = verifier.sign_input() else {
        return false;
    };
    if !give_point(&key, input) {
        return false;
    }
    input.place = verifier.signature_place().unwrap_or(0);
    input.digest_length = copy_all(digest, &mut input.digest);
    input.signature_length = copy_all(signature, &mut input.signature);
    true
}

/// Room for what a signature is verified with.
pub(crate) fn blank_input() -> CoseSignInput {
    CoseSignInput {
        crv: 0,
        y_sign: 0,
        x_length: 0,
        y_length: 0,
        digest_length: 0,
        signature_length: 0,
        place: 0,
        x: [0; 66],
        y: [0; 66],
        digest: [0; 64],
        signature: [0; 132],
    }
}
