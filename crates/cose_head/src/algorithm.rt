//! The table of the algorithms that authenticate messages (RFC 9053 sections 2.1, 3.1 and 7.1, RFC 9864 section 2.1).

ghost use Rattle.std.specs.Prelude.{◌≡◌, Some};
ghost use Rattle.cose_head.specs.Algorithm.{row_of, algorithm_number, kind_of, hash_of, key_type_of, auth_length_of, is_mac_of, algorithm_numbered};

use crate::kind::Kind;

/// An algorithm that authenticates messages (RFC 9053 sections 2.1 and 3.1, RFC 9864 section 2.1).
#[derive(Clone, Copy, Debug, PartialEq, Eq)]
pub enum Alg {
    /// HMAC 256/64: HMAC with SHA-256, cut to its leftmost 64 bits.
    Hmac64,
    /// HMAC 256/256: HMAC with SHA-256.
    Hmac256,
    /// HMAC 384/384: HMAC with SHA-384.
    Hmac384,
    /// HMAC 512/512: HMAC with SHA-512.
    Hmac512,
    /// ES256: ECDSA with SHA-256, here on the curve P-256 alone.
    Es256,
    /// ES384: ECDSA with SHA-384, here on the curve P-384 alone.
    Es384,
    /// ES512: ECDSA with SHA-512, here on the curve P-521 alone.
    Es512,
    /// ESP256: ECDSA with SHA-256 on the curve P-256.
    Esp256,
    /// ESP384: ECDSA with SHA-384 on the curve P-384.
    Esp384,
    /// ESP512: ECDSA with SHA-512 on the curve P-521.
    Esp512,
}

/// A hash function of FIPS 180-4.
#[derive(Clone, Copy, Debug, PartialEq, Eq)]
pub enum Hash {
    /// SHA-256: digests of 32 bytes.
    Sha256,
    /// SHA-384: digests of 48 bytes.
    Sha384,
    /// SHA-512: digests of 64 bytes.
    Sha512,
}

/// The keys that an algorithm takes.
#[derive(Clone, Copy, Debug, PartialEq, Eq)]
pub enum KeyType {
    /// A symmetric key, of kty 4, Symmetric (RFC 9053 section 7.3).
    Symmetric,
    /// A point on the elliptic curve of this number, of kty 2, EC2 (RFC 9053 section 7.1, table 18).
    Elliptic(u8),
}

/// The row of the table for one algorithm.
#[derive(Clone, Copy)]
struct Row {
    number: i128,
    kind: Kind,
    key_type: KeyType,
    hash: Hash,
    auth_length: usize,
}

impl Alg {
    const ALL: &'static [Alg] = &[
        Alg::Hmac64,
        Alg::Hmac256,
        Alg::Hmac384,
        Alg::Hmac512,
        Alg::Es256,
        Alg::Es384,
        Alg::Es512,
        Alg::Esp256,
        Alg::Esp384,
        Alg::Esp512,
    ];

    /// The algorithm of this number, if it is one of these.
    pub fn from_number(number: i128) -> Option<Alg>
        ensures { result ≡ algorithm_numbered number }
    {
        Alg::ALL.iter().find(|alg| alg.number() == number).copied()
    }

    /// The algorithm's number in the registry 'COSE Algorithms', which headers and keys give as alg.
    pub fn number(self) -> i128
        ensures value { result ≡ algorithm_number self }
        ensures found { algorithm_numbered result ≡ Some self }
    {
        self.row().number
    }

    /// The kind of the messages that the algorithm authenticates.
    pub fn kind(self) -> Kind
        ensures { result ≡ kind_of self }
    {
        self.row().kind
    }

    /// Whether the algorithm makes MACs, and not signatures.
    pub fn is_mac(self) -> bool
        ensures { result ≡ is_mac_of self }
    {
        self.kind() == Kind::Mac0
    }

    /// The keys that the algorithm takes. Each signature algorithm is tied to one curve.
    pub fn key_type(self) -> KeyType
        ensures { result ≡ key_type_of self }
    {
        self.row().key_type
    }

    /// The hash function that the algorithm uses.
    pub fn hash(self) -> Hash
        ensures { result ≡ hash_of self }
    {
        self.row().hash
    }

    /// The number of bytes of a MAC or a signature.
    pub fn auth_length(self) -> usize
        ensures { result ≡ auth_length_of self }
    {
        self.row().auth_length
    }

    /// The algorithm's row of the table.
    fn row(self) -> Row
        ensures { result ≡ row_of self }
    {
        let (number, kind, key_type, hash, auth_length) = match self {
            Alg::Hmac64 => (4, Kind::Mac0, KeyType::Symmetric, Hash::Sha256, 8),
            Alg::Hmac256 => (5, Kind::Mac0, KeyType::Symmetric, Hash::Sha256, 32),
            Alg::Hmac384 => (6, Kind::Mac0, KeyType::Symmetric, Hash::Sha384, 48),
            Alg::Hmac512 => (7, Kind::Mac0, KeyType::Symmetric, Hash::Sha512, 64),
            Alg::Es256 => (-7, Kind::Sign1, KeyType::Elliptic(1), Hash::Sha256, 64),
            Alg::Es384 => (-35, Kind::Sign1, KeyType::Elliptic(2), Hash::Sha384, 96),
            Alg::Es512 => (-36, Kind::Sign1, KeyType::Elliptic(3), Hash::Sha512, 132),
            Alg::Esp256 => (-9, Kind::Sign1, KeyType::Elliptic(1), Hash::Sha256, 64),
            Alg::Esp384 => (-51, Kind::Sign1, KeyType::Elliptic(2), Hash::Sha384, 96),
            Alg::Esp512 => (-52, Kind::Sign1, KeyType::Elliptic(3), Hash::Sha512, 132),
        };
        Row {
            number,
            kind,
            key_type,
            hash,
            auth_length,
        }
    }
}
