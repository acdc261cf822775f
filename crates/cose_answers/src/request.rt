//! What the program is asked for.

ghost use Rattle.std.specs.Prelude.{◌≤◌, length as length_of};

use crate::allowed::Allowed;
use crate::limits::Limits;
use crate::required::Required;
use cose_msg::{Alg, Wanted};

/// What is printed of a message that is shown, in addition to its shape and the bytes of its headers.
#[derive(Clone, Copy)]
pub struct Details {
    /// Whether each pair is printed in diagnostic notation too (RFC 8949 section 8).
    pub diagnostic: bool,
    /// Whether the headers are shown of a message too whose payload is detached (RFC 9052 section 2).
    pub detached: bool,
    /// Whether the payload is printed, which then has at most as many bytes as the claims of a token.
    pub payload: bool,
}

/// What is asked of a message, whose payload may be elsewhere.
#[derive(Drop)]
pub enum Question {
    /// Its verdict: the command `verify`.
    Verdict,
    /// What its signature has to be verified with: the command `digest`.
    Digest,
    /// Its verdict, and of an authentic message the header parameters whose labels these are, in
    /// diagnostic notation: the command `verify` with `--header`.
    Headers(Vec<String>),
}

/// What a message is verified under.
#[derive(Drop)]
pub struct Checks {
    /// The bytes of the key set (RFC 9052 section 7).
    pub keys: Vec<u8>,
    /// Which of its keys may be used.
    pub allowed: Allowed,
    /// The externally supplied data (RFC 9052 section 4.3).
    pub aad: Vec<u8>,
    /// The kinds of messages that are wanted.
    pub wanted: Wanted,
    /// The argument of `--vouch`, where there is one.
    pub vouch: Option<Vec<u8>>,
    /// How long and how deep it may be, and how many keys there may be.
    pub limits: Limits,
    ghost external: { length_of aad.items ≤ 65535 },
}

/// How the claims of a token are printed.
#[derive(Clone, Copy)]
pub struct Printing {
    /// Whether texts are printed in quotes too, and dates as RFC 3339 has them.
    pub readable: bool,
    /// Whether claims are printed too that aren't registered, in diagnostic notation.
    pub others: bool,
}

/// What a token is admitted under, or each of a sequence, and how its claims are printed.
#[derive(Drop)]
pub struct Cwt<'w> {
    /// What the token's message is verified under.
    pub checks: Checks,
    /// The current time, in seconds since 1970.
    pub now: i64,
    /// By how many seconds the clocks of the issuer and of this machine may differ.
    pub leeway: u32,
    /// The text of the audience, where a token that names an audience has to be for it.
    pub aud: Option<&'w str>,
    /// What is required of the claims beyond their admission.
    pub required: Required<'w>,
    /// How its claims are printed.
    pub printing: Printing,
}

/// The key set whose items are listed.
#[derive(Drop)]
pub struct Keys {
    /// The bytes of the key set.
    pub keys: Vec<u8>,
    /// The kinds of messages that are wanted, where the keys are listed for the message on the input, whose headers alone are read.
    /// Otherwise nothing of the input is read.
    pub message: Option<Wanted>,
}

/// The COSE_Mac0 that is made of the payload on the input.
#[derive(Drop)]
pub struct Make {
    /// The algorithm of the MAC.
    pub alg: Alg,
    /// The bytes of the key.
    pub key: Vec<u8>,
    /// The number of bytes of the payload.
    pub length: u64,
    /// The identifier of the key that the message names, where it names one.
    pub kid: Option<Vec<u8>>,
    /// The externally supplied data.
    pub aad: Vec<u8>,
    ghost external: { length_of aad.items ≤ 65535 },
}

/// Where the payload of the message is.
#[derive(Drop)]
pub enum Payload<'w> {
    /// In the message.
    InMessage,
    /// It is these bytes, and the message has nil in its place.
    Bytes(Vec<u8>),
    /// In a file, and the message has nil in its place.
    File {
        /// The name of the file.
        name: &'w str,
        /// The number of its first bytes that are the payload, where it is stated.
        length: Option<u64>,
    },
}

/// What the program is asked for.
#[derive(Drop)]
pub enum Request<'w> {
    /// To show a message of these kinds.
    Show {
        /// How long and how deep it may be.
        limits: Limits,
        /// The kinds of messages that are wanted.
        wanted: Wanted,
        /// What is printed in addition.
        details: Details,
    },
    /// To verify a message, or to print what its signature is verified with.
    Message {
        /// What is asked of it.
        question: Question,
        /// What it is verified under.
        checks: Checks,
        /// The payload.
        payload: Payload<'w>,
    },
    /// To verify a message that has its payload, and to keep the payload of an authentic one.
    Keep {
        /// What it is verified under.
        checks: Checks,
        /// The name of the new file.
        name: &'w str,
    },
    /// To verify each message of a sequence under these checks.
    MessageSequence(Checks),
    /// To admit a token.
    Cwt(Cwt<'w>),
    /// To admit each token of a sequence.
    TokenSequence(Cwt<'w>),
    /// To list the items of a key set.
    Keys(Keys),
    /// To make a message.
    Make(Make),
}
