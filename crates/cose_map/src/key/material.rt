//! Key material (RFC 9053 section 7).

ghost use Rattle.std.specs.Prelude.{◌≡◌, ℕ, Err, length, option_map, is_some, if◌then◌else◌, Ok};
ghost use Rattle.cose_head.specs.ItemRef.{placed};
ghost use Rattle.cose_head.specs.Placed.{look, integer_in, bytes_in};
ghost use Rattle.cose_map.specs.Map.Form.{is_bytes as is_bytes_value};
ghost use Rattle.cose_map.specs.Key.Material.{secret_in, coordinate_of, coordinate_in, y_in, curve_in, private_part as private_part_of};
ghost use Rattle.cose_map.specs.Map.Read.{refuse};
ghost use Rattle.cose_map.specs.Map.View.{seen_by};
ghost use Rattle.cose_map.specs.Key.View.{contents, material_value, y_value};

use crate::key::curve::Curve;
use crate::map::read::refused;
use cose_head::{Hidden, ItemRef, Reason, Refusal};
use std::fmt;

/// The coordinate y of a point: its bytes, or its sign alone (RFC 9053 section 7.1.1). `Debug` prints how many bytes
/// there are, and none of them.
#[derive(Clone, Copy)]
pub enum Y<'a> {
    /// The bytes, with leading zeros.
    Bytes(&'a [u8]),
    /// The sign.
    Sign(bool),
}

/// The material of a key. `Debug` prints how many bytes it has, and none of them.
#[derive(Clone, Copy)]
pub enum Material<'a> {
    /// A secret of one or more bytes.
    Symmetric(&'a [u8]),
    /// A point on a curve.
    Ec {
        /// The number of the curve (RFC 9053 section 7.1).
        crv: u8,
        /// The bytes of the coordinate x, with leading zeros.
        x: &'a [u8],
        /// The coordinate y.
        y: Y<'a>,
    },
}

impl fmt::Debug for Y<'_> {
    ghost use Rattle.std.specs.Prelude.{Some};
    ghost use Rattle.cose_map.specs.Key.Shown.{y_text};

    ghost debug_output = { λ y. Some (y_text (y_value y)) };

    fn fmt<W: fmt::Write>(&self, f: &mut fmt::Formatter<W>) -> fmt::Result {
        match self {
            Y::Bytes(bytes) => {
                let bytes = Hidden(bytes);
                write!(f, "Bytes({bytes:?})")
            }
            Y::Sign(odd) => write!(f, "Sign({odd})"),
        }
    }
}

impl fmt::Debug for Material<'_> {
    ghost use Rattle.std.specs.Prelude.{Some};
    ghost use Rattle.cose_map.specs.Key.Shown.{material_text};

    ghost debug_output = { λ material. Some (material_text (material_value material)) };

    fn fmt<W: fmt::Write>(&self, f: &mut fmt::Formatter<W>) -> fmt::Result {
        match self {
            Material::Symmetric(secret) => {
                let secret = Hidden(secret);
                write!(f, "Symmetric({secret:?})")
            }
            Material::Ec { crv, x, y } => {
                let x = Hidden(x);
                write!(f, "Ec {{ crv: {crv}, x: {x:?}, y: {y:?} }}")
            }
        }
    }
}

/// The secret of a symmetric key.
pub(crate) fn secret<'a>(value: &ItemRef<'a>) -> Result<Material<'a>, Refusal>
    ensures { let v = placed value.now in seen_by material_value result
        ≡ secret_in v (bytes_in (look v)) }
{
    match value.as_bytes() {
        Some(k) if !k.is_empty() => Ok(Material::Symmetric(k)),
        _ => Err(refused(Reason::BadValue, value)),
    }
}

/// The usable curve that a member of the key names.
pub(crate) fn curve_at(key: &ItemRef, value: &ItemRef) -> Result<Curve, Refusal>
    ensures { let v = placed value.now in
        result ≡ curve_in (placed key.now) v (integer_in (look v)) }
{
    match value.as_int() {
        Some(number) => Curve::numbered(number).ok_or(refused(Reason::UnknownKey, key)),
        None if value.is_text() => Err(refused(Reason::UnknownKey, key)),
        None => Err(refused(Reason::BadValue, value)),
    }
}

/// A coordinate, in its full length.
fn whole_coordinate<'a>(
    value: &ItemRef,
    bytes: &'a [u8],
    length: usize,
) -> Result<&'a [u8], Refusal>
    ensures { seen_by contents result ≡ coordinate_of length (placed value.now) bytes.entry.now }
{
    if bytes.len() != length {
        return Err(refused(Reason::BadValue, value));
    }
    Ok(bytes)
}

/// The coordinate that is the value of a member of the key.
pub(crate) fn coordinate<'a>(value: &ItemRef<'a>, length: usize) -> Result<&'a [u8], Refusal>
    ensures { let v = placed value.now in
        seen_by contents result ≡ coordinate_in length v (bytes_in (look v)) }
{
    match value.as_bytes() {
        Some(bytes) => whole_coordinate(value, bytes, length),
        None => Err(refused(Reason::BadValue, value)),
    }
}

/// The coordinate y, or its sign.
pub(crate) fn y_at<'a>(value: &ItemRef<'a>, length: usize) -> Result<Y<'a>, Refusal>
    ensures { let v = placed value.now in
        seen_by y_value result ≡ y_in length v (bytes_in (look v)) }
{
    match (value.as_bytes(), value.as_bool()) {
        (Some(bytes), _) => Ok(Y::Bytes(whole_coordinate(value, bytes, length)?)),
        (None, Some(odd)) => Ok(Y::Sign(odd)),
        (None, None) => Err(refused(Reason::BadValue, value)),
    }
}

/// The private key, if present.
pub(crate) fn private_part(value: Option<ItemRef>) -> Result<(), Refusal>
    ensures { result ≡ private_part_of (option_map placed value.entry) }
{
    match value {
        Some(value) if value.as_bytes().is_none() => Err(refused(Reason::BadValue, &value)),
        _ => Ok(()),
    }
}
