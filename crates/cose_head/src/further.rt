//! The table of the signature algorithms that are left to the caller: EdDSA (RFC 9053 section 2.2, RFC 9864 section 2.2), over keys of
//! the type OKP (RFC 9053 section 7.2).

ghost use Rattle.std.specs.Prelude.{◌≡◌, None, Some};
ghost use Rattle.cose_head.specs.Algorithm.{algorithm_numbered};
ghost use Rattle.cose_head.specs.Further.{curve_row_of, further_numbered, further_number, further_row_of, okp_curve_number, okp_curve_numbered, public_key_length_of, signature_length_of, same_curve, takes_curve};

/// A curve of EdDSA (RFC 9053 section 7.1, table 18).
#[derive(Clone, Copy, Debug, PartialEq, Eq)]
pub enum OkpCurve {
    /// Ed25519 (RFC 8032 section 5.1).
    Ed25519,
    /// Ed448 (RFC 8032 section 5.2).
    Ed448,
}

/// A signature algorithm that is no [`Alg`](crate::Alg): a message that names it is refused as UnknownAlg, unless the caller
/// verifies the signature.
#[derive(Clone, Copy, Debug, PartialEq, Eq)]
pub enum FurtherAlg {
    /// EdDSA, on the curve of the key (RFC 9053 section 2.2).
    EdDsa,
    /// EdDSA on the curve Ed25519 alone (RFC 9864 section 2.2).
    Ed25519,
    /// EdDSA on the curve Ed448 alone (RFC 9864 section 2.2).
    Ed448,
}

/// The row of the table for one curve.
#[derive(Clone, Copy)]
struct CurveRow {
    number: i128,
    public_key_length: usize,
    signature_length: usize,
}

/// The row of the table for one algorithm.
#[derive(Clone, Copy)]
struct FurtherRow {
    number: i128,
    only: Option<OkpCurve>,
}

/// Whether two curves are equal.
fn is_same_curve(curve: OkpCurve, other: OkpCurve) -> bool
    ensures { result ≡ same_curve curve other }
{
    curve == other
}

impl OkpCurve {
    const ALL: &'static [OkpCurve] = &[OkpCurve::Ed25519, OkpCurve::Ed448];

    /// The curve of this number, if it is one of these.
    pub fn from_number(number: i128) -> Option<OkpCurve>
        ensures { result ≡ okp_curve_numbered number }
    {
        OkpCurve::ALL
            .iter()
            .find(|curve| curve.number() == number)
            .copied()
    }

    /// The curve's number in the registry 'COSE Elliptic Curves', which keys give as crv.
    pub fn number(self) -> i128
        ensures value { result ≡ okp_curve_number self }
        ensures found { okp_curve_numbered result ≡ Some self }
    {
        self.row().number
    }

    /// The number of bytes of a public key (RFC 8032 sections 5.1.5 and 5.2.5).
    pub fn public_key_length(self) -> usize
        ensures { result ≡ public_key_length_of self }
    {
        self.row().public_key_length
    }

    /// The number of bytes of a signature (RFC 8032 sections 5.1.6 and 5.2.6).
    pub fn signature_length(self) -> usize
        ensures { result ≡ signature_length_of self }
    {
        self.row().signature_length
    }

    /// The curve's row of the table.
    fn row(self) -> CurveRow
        ensures { result ≡ curve_row_of self }
    {
        let (number, public_key_length, signature_length) = match self {
            OkpCurve::Ed25519 => (6, 32, 64),
            OkpCurve::Ed448 => (7, 57, 114),
        };
        CurveRow {
            number,
            public_key_length,
            signature_length,
        }
    }
}

impl FurtherAlg {
    const ALL: &'static [FurtherAlg] = &[FurtherAlg::EdDsa, FurtherAlg::Ed25519, FurtherAlg::Ed448];

    /// The algorithm of this number, if it is one of these.
    pub fn from_number(number: i128) -> Option<FurtherAlg>
        ensures { result ≡ further_numbered number }
    {
        FurtherAlg::ALL
            .iter()
            .find(|alg| alg.number() == number)
            .copied()
    }

    /// The algorithm's number in the registry 'COSE Algorithms', which headers and keys give as alg.
    pub fn number(self) -> i128
        ensures value { result ≡ further_number self }
        ensures found { further_numbered result ≡ Some self }
        // No [`Alg`](crate::Alg) has it.
        ensures other { algorithm_numbered result ≡ None }
    {
        self.row().number
    }

    /// Whether the algorithm takes keys on this curve.
    pub fn takes(self, curve: OkpCurve) -> bool
        ensures { result ≡ takes_curve self curve }
    {
        match self.row().only {
            Some(only) => is_same_curve(only, curve),
            None => true,
        }
    }

    /// The algorithm's row of the table: its number, and the one curve that it takes, if it is tied to one.
    fn row(self) -> FurtherRow
        ensures { result ≡ further_row_of self }
    {
        let (number, only) = match self {
            FurtherAlg::EdDsa => (-8, None),
            FurtherAlg::Ed25519 => (-19, Some(OkpCurve::Ed25519)),
            FurtherAlg::Ed448 => (-53, Some(OkpCurve::Ed448)),
        };
        FurtherRow { number, only }
    }
}
