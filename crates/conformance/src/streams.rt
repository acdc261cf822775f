//! What a payload is put into, and what decides on signatures.

ghost use Rattle.std.specs.Prelude.{◌&&◌, not, None, false, if◌then◌else◌};
ghost use Rattle.std.specs.Str.{bytes_eq};

use crate::fields::{boolean, bytes, object};
use cose_msg::{EcVerifier, Key, Sink, SinkFault};
use serde_json::Value;
use std::alloc::Global;

/// A sink that compares the payload with the expected one.
#[derive(Drop)]
pub struct Comparison<'p> {
    rest: &'p [u8],
    differs: bool,
}

impl<'p> Comparison<'p> {
    /// A sink for this payload.
    pub fn new(expected: &'p [u8]) -> Self {
        Comparison {
            rest: expected,
            differs: false,
        }
    }

    /// Compares a piece with what is left of the payload.
    pub fn compare(&mut self, piece: &[u8]) {
        match self.rest.strip_prefix(piece) {
            Some(rest) => self.rest = rest,
            None => self.differs = true,
        }
    }

    /// Whether the whole payload was put, and no other byte.
    pub fn is_whole(&self) -> bool {
        !self.differs && self.rest.is_empty()
    }
}

impl Sink for Comparison<'_> {
    ghost contents = { λ _. None };

    ghost has_failed = { λ _. false };

    ghost sure = { λ _. 0 };

    fn put(&mut self, piece: &[u8]) -> Result<(), SinkFault> {
        self.compare(piece);
        Ok(())
    }
}

/// What a test says of a signature: what it has to be verified with, and whether it is good.
#[derive(Drop)]
pub struct Signature {
    digest: Vec<u8>,
    signature: Vec<u8>,
    holds: bool,
}

impl Signature {
    /// The signature of a test. No signature is good where the test has none: no digest is of no bytes.
    pub fn read(alloc: Global, test: &Value) -> Self {
        let signature = object(test, "signature");
        Signature {
            digest: bytes(alloc, signature, "digest"),
            signature: bytes(alloc, signature, "signature"),
            holds: boolean(signature, "holds") != Some(false),
        }
    }
}

// Asked about anything else it says the contrary.
impl EcVerifier for Signature {
    ghost decides = { λ it _ digest signature.
        if bytes_eq digest it.digest.items && bytes_eq signature it.signature.items
        then it.holds else not it.holds };

    fn holds(&self, _key: &Key<'_>, digest: &[u8], signature: &[u8]) -> bool {
        if digest == self.digest.as_slice() && signature == self.signature.as_slice() {
            return self.holds;
        }
        !self.holds
    }
}
