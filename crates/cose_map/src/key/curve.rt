//! The curves of keys (RFC 9053 section 7.1).

/// A curve.
#[derive(Clone, Copy)]
pub(crate) struct Curve {
    /// Its number.
    pub(crate) number: u8,
    /// The number of bytes of a coordinate.
    pub(crate) coordinate_length: usize,
}

impl Curve {
    ghost use Rattle.std.specs.Prelude.{◌≡◌};
    ghost use Rattle.cose_map.specs.Key.Curve.{curve_of};

    /// The usable curve of this number.
    pub(crate) fn numbered(number: i128) -> Option<Curve>
        ensures { result ≡ curve_of number }
    {
        let (number, coordinate_length) = match number {
            1 => (1, 32),
            2 => (2, 48),
            3 => (3, 66),
            _ => return None,
        };
        Some(Curve {
            number,
            coordinate_length,
        })
    }
}
