//! Why a message, a key, a key set or a token is refused.

ghost use Rattle.std.specs.Prelude.{◌≡◌, Some};
ghost use Rattle.cose_head.specs.Reason.{number_of, name_of};

use std::error::Error;
use std::fmt;

/// Why something is refused. Each reason has a number and a name, which never change.
#[derive(Clone, Copy, Debug, PartialEq, Eq)]
pub enum Reason {
    /// The bytes end before the message or the item is complete.
    Truncated = 1,
    /// The low five bits of an initial byte are 28 to 30, or 31 in the major types 0, 1 and 6 (RFC 8949 section 3).
    Reserved = 2,
    /// An indefinite length or a break, which this profile refuses (RFC 8949 section 3.2).
    Indefinite = 3,
    /// A simple value below 32 in two bytes (RFC 8949 section 3.3).
    BadSimple = 4,
    /// An array, map or CBOR tag where no nesting is left.
    TooDeep = 5,
    /// A head, a string or the children don't fit into the room.
    PastRoom = 6,
    /// A CBOR tag that isn't wanted here (RFC 9052 section 2).
    WrongTag = 7,
    /// COSE_Encrypt0 or COSE_Encrypt (RFC 9052 section 5), which this profile leaves out.
    Encrypted = 8,
    /// COSE_Mac or COSE_Sign (RFC 9052 sections 6.1 and 4.1), which this profile leaves out.
    SeveralParties = 9,
    /// The array of the message doesn't have four elements (RFC 9052 sections 4.2 and 6.2).
    NotFour = 10,
    /// A head has another major type than the one required.
    WrongType = 11,
    /// A header bucket, key or claims set that isn't a map.
    NotMap = 12,
    /// A label that is neither an integer nor a text string (RFC 9052 section 1.5).
    BadLabel = 13,
    /// A label that equals an earlier one of its map (RFC 9052 section 3).
    DuplicateLabel = 14,
    /// A label that is in both header buckets (RFC 9052 section 3).
    BothBuckets = 15,
    /// A value that doesn't have the form that its label requires.
    BadValue = 16,
    /// A crit parameter in the unprotected bucket (RFC 9052 section 3.1).
    CritUnprotected = 17,
    /// A label of crit that isn't in the protected bucket (RFC 9052 section 3.1).
    CritAbsent = 18,
    /// A label of crit that isn't understood (RFC 9052 section 3.1).
    CritUnknown = 19,
    /// IV and Partial IV are both present (RFC 9052 section 3.1).
    BothIvs = 20,
    /// The message names no algorithm, and no key fits it.
    NoAlg = 21,
    /// The message names an algorithm that isn't one of its kind.
    UnknownAlg = 22,
    /// Only the unprotected bucket names an algorithm, and no key with that algorithm as its own fits.
    AlgUnprotected = 23,
    /// The protected bucket names an algorithm, and no key fits.
    NoKey = 24,
    /// Two or more keys fit the message.
    AmbiguousKey = 25,
    /// The payload is nil (RFC 9052 sections 4.2 and 6.2).
    Detached = 26,
    /// The authentication tag or the signature doesn't have the length of its algorithm.
    BadAuthLength = 27,
    /// The authentication tag or the signature isn't valid.
    BadAuth = 28,
    /// The payload is longer than its limit.
    PayloadTooLong = 29,
    /// The CBOR tag of a CWT without that of a COSE message (RFC 8392 section 6).
    CwtTagAlone = 30,
    /// A key set that is neither a map nor an array of one or more items (RFC 9052 section 7), that has more than 65,535
    /// bytes, or that has more usable keys than its table holds.
    BadKeySet = 31,
    /// A key of a type or curve that isn't known.
    UnknownKey = 32,
    /// A date that is a float, which this profile refuses.
    FloatDate = 33,
    /// A date with CBOR tag 1 (RFC 8392 section 2).
    TaggedDate = 34,
    /// The token has expired (RFC 8392 section 3.1.4).
    Expired = 35,
    /// The token isn't valid yet (RFC 8392 section 3.1.5).
    NotYet = 36,
    /// The token is for another audience (RFC 8392 section 3.1.3).
    WrongAudience = 37,
    /// A confirmation key that is encrypted (RFC 8747 section 3.3).
    EncryptedKey = 38,
    /// A symmetric confirmation key that isn't encrypted (RFC 8747 section 3.2).
    PlainKey = 39,
    /// A confirmation whose key is refused, or that has both a key and an encrypted one (RFC 8747 section 3).
    BadConfirmation = 40,
    /// Claims that are themselves a COSE message or a CWT (RFC 8392 section 7).
    NestedCwt = 41,
    /// A byte after the end.
    Trailing = 42,
    /// The payload is in the message, where a detached one is wanted (RFC 9052 sections 4.2 and 6.2).
    Attached = 43,
}

impl Reason {
    /// The reason's number, 1 to 43.
    pub fn number(self) -> u8
        ensures { result ≡ number_of self }
    {
        self as u8
    }

    /// The reason's name, as the variant is spelled.
    pub fn name(self) -> &'static str
        ensures { result.now ≡ name_of self }
    {
        match self {
            Reason::Truncated => "Truncated",
            Reason::Reserved => "Reserved",
            Reason::Indefinite => "Indefinite",
            Reason::BadSimple => "BadSimple",
            Reason::TooDeep => "TooDeep",
            Reason::PastRoom => "PastRoom",
            Reason::WrongTag => "WrongTag",
            Reason::Encrypted => "Encrypted",
            Reason::SeveralParties => "SeveralParties",
            Reason::NotFour => "NotFour",
            Reason::WrongType => "WrongType",
            Reason::NotMap => "NotMap",
            Reason::BadLabel => "BadLabel",
            Reason::DuplicateLabel => "DuplicateLabel",
            Reason::BothBuckets => "BothBuckets",
            Reason::BadValue => "BadValue",
            Reason::CritUnprotected => "CritUnprotected",
            Reason::CritAbsent => "CritAbsent",
            Reason::CritUnknown => "CritUnknown",
            Reason::BothIvs => "BothIvs",
            Reason::NoAlg => "NoAlg",
            Reason::UnknownAlg => "UnknownAlg",
            Reason::AlgUnprotected => "AlgUnprotected",
            Reason::NoKey => "NoKey",
            Reason::AmbiguousKey => "AmbiguousKey",
            Reason::Detached => "Detached",
            Reason::BadAuthLength => "BadAuthLength",
            Reason::BadAuth => "BadAuth",
            Reason::PayloadTooLong => "PayloadTooLong",
            Reason::CwtTagAlone => "CwtTagAlone",
            Reason::BadKeySet => "BadKeySet",
            Reason::UnknownKey => "UnknownKey",
            Reason::FloatDate => "FloatDate",
            Reason::TaggedDate => "TaggedDate",
            Reason::Expired => "Expired",
            Reason::NotYet => "NotYet",
            Reason::WrongAudience => "WrongAudience",
            Reason::EncryptedKey => "EncryptedKey",
            Reason::PlainKey => "PlainKey",
            Reason::BadConfirmation => "BadConfirmation",
            Reason::NestedCwt => "NestedCwt",
            Reason::Trailing => "Trailing",
            Reason::Attached => "Attached",
        }
    }
}

impl fmt::Display for Reason {
    ghost output = { λ reason. Some (name_of reason) };

    fn fmt<W: fmt::Write>(&self, f: &mut fmt::Formatter<W>) -> fmt::Result {
        f.write_str(self.name())
    }
}

impl Error for Reason {}
