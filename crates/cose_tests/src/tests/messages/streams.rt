//! The tests' substitutes for a network, a disk and a verifier of signatures.

ghost use Rattle.std.specs.Prelude.{◌&&◌, not, None, false, if◌then◌else◌};
ghost use Rattle.std.specs.Str.{bytes_eq};

use cose_msg::{EcVerifier, Intake, IntakeFault, Key, Sink, SinkFault, Store};
use std::io;
use std::io::{Error, ErrorKind, Read};

/// The bytes of a slice, as many as fit. One of its calls fails, and gives none.
#[derive(Drop)]
pub struct FailingIntake<'a> {
    bytes: &'a [u8],
    takes: usize,
    fails_at: usize,
    failed: bool,
    ended: bool,
}

impl<'a> FailingIntake<'a> {
    /// An intake of these bytes; the call of this number fails, the first being 1.
    pub fn new(bytes: &'a [u8], fails_at: usize) -> Self {
        FailingIntake {
            bytes,
            takes: 0,
            fails_at,
            failed: false,
            ended: false,
        }
    }

    /// The number of its calls.
    pub fn takes(&self) -> usize {
        self.takes
    }
}

impl Intake for FailingIntake<'_> {
    ghost to_come = { λ _. None };

    ghost has_failed = { λ intake. intake.failed };

    ghost ended = { λ intake. intake.ended };

    fn take(&mut self, into: &mut [u8]) -> Result<usize, IntakeFault> {
        self.takes = self.takes.saturating_add(1);
        if self.takes == self.fails_at {
            self.failed = true;
            self.ended = false;
            return Err(IntakeFault);
        }
        let count = self.bytes.len().min(into.len());
        let (piece, rest) = self.bytes.split_at(count);
        into[..count].copy_from_slice(piece);
        self.bytes = rest;
        self.ended = count == 0;
        Ok(count)
    }
}

/// A store of at most `L` bytes. One of its calls fails, and keeps nothing of its piece.
#[derive(Drop)]
pub struct FailingSink<const L: usize> {
    store: Store<L>,
    puts: usize,
    fails_at: usize,
    failed: bool,
}

impl<const L: usize> FailingSink<L> {
    /// An empty sink; the call of this number fails, the first being 1.
    pub fn new(fails_at: usize) -> Self {
        FailingSink {
            store: Store::new(),
            puts: 0,
            fails_at,
            failed: false,
        }
    }

    /// The number of its calls.
    pub fn puts(&self) -> usize {
        self.puts
    }

    /// The bytes that it holds.
    pub fn bytes(&self) -> &[u8] {
        self.store.bytes()
    }
}

impl<const L: usize> Sink for FailingSink<L> {
    ghost contents = { λ _. None };

    ghost has_failed = { λ sink. sink.failed };

    ghost sure = { λ _. 0 };

    fn put(&mut self, piece: &[u8]) -> Result<(), SinkFault> {
        self.puts = self.puts.saturating_add(1);
        if self.puts == self.fails_at || self.store.put(piece).is_err() {
            self.failed = true;
            return Err(SinkFault);
        }
        Ok(())
    }
}

/// The bytes of a slice, as many as each call asks for. It records how many each of the first 64 calls asked for, the most that
/// a call asked for, and the number of calls.
#[derive(Drop)]
pub struct WatchedIntake<'a> {
    bytes: &'a [u8],
    asked: [usize; 64],
    pub most: usize,
    pub takes: usize,
    ended: bool,
}

impl<'a> WatchedIntake<'a> {
    /// An intake of these bytes.
    pub fn new(bytes: &'a [u8]) -> Self {
        WatchedIntake {
            bytes,
            asked: [0; 64],
            most: 0,
            takes: 0,
            ended: false,
        }
    }

    /// How many bytes each of its calls asked for, of the first 64.
    pub fn asked(&self) -> &[usize] {
        self.asked.get(..self.takes).unwrap_or(&self.asked)
    }
}

impl Intake for WatchedIntake<'_> {
    ghost to_come = { λ _. None };

    ghost has_failed = { λ _. false };

    ghost ended = { λ intake. intake.ended };

    fn take(&mut self, into: &mut [u8]) -> Result<usize, IntakeFault> {
        if let Some(asked) = self.asked.get_mut(self.takes) {
            *asked = into.len();
        }
        self.most = self.most.max(into.len());
        self.takes = self.takes.saturating_add(1);
        let count = self.bytes.len().min(into.len());
        let (piece, rest) = self.bytes.split_at(count);
        into[..count].copy_from_slice(piece);
        self.bytes = rest;
        self.ended = count == 0;
        Ok(count)
    }
}

/// A store of `L` bytes. It records the length of the longest piece, and the number of bytes of all pieces.
#[derive(Drop)]
pub struct WatchedSink<const L: usize> {
    store: Store<L>,
    pub most: usize,
    pub sum: usize,
    failed: bool,
}

impl<const L: usize> WatchedSink<L> {
    /// An empty sink.
    pub fn new() -> Self {
        WatchedSink {
            store: Store::new(),
            most: 0,
            sum: 0,
            failed: false,
        }
    }

    /// The bytes that it holds.
    pub fn bytes(&self) -> &[u8] {
        self.store.bytes()
    }
}

impl<const L: usize> Sink for WatchedSink<L> {
    ghost contents = { λ _. None };

    ghost has_failed = { λ sink. sink.failed };

    ghost sure = { λ _. 0 };

    fn put(&mut self, piece: &[u8]) -> Result<(), SinkFault> {
        self.most = self.most.max(piece.len());
        self.sum = self.sum.saturating_add(piece.len());
        if self.store.put(piece).is_err() {
            self.failed = true;
            return Err(SinkFault);
        }
        Ok(())
    }
}

/// Gives at most three bytes in a read. One of its reads fails, and gives none.
#[derive(Drop)]
pub struct FailingReader<'a> {
    bytes: &'a [u8],
    pub reads: usize,
    fails_at: usize,
}

impl<'a> FailingReader<'a> {
    /// A reader of these bytes; the read of this number fails, the first being 1.
    pub fn new(bytes: &'a [u8], fails_at: usize) -> Self {
        FailingReader {
            bytes,
            reads: 0,
            fails_at,
        }
    }
}

impl Read for FailingReader<'_> {
    fn read(&mut self, into: &mut [u8]) -> io::Result<usize> {
        self.reads = self.reads.saturating_add(1);
        if self.reads == self.fails_at {
            return Err(Error::from(ErrorKind::Other));
        }
        let count = self.bytes.len().min(into.len()).min(3);
        let (piece, rest) = self.bytes.split_at(count);
        into[..count].copy_from_slice(piece);
        self.bytes = rest;
        Ok(count)
    }
}

/// Gives the same answer for every signature.
#[derive(Drop)]
pub struct Says {
    pub holds: bool,
}

impl EcVerifier for Says {
    ghost decides = { λ says key digest signature. says.holds };

    fn holds(&self, _key: &Key, _digest: &[u8], _signature: &[u8]) -> bool {
        self.holds
    }
}

/// Knows one digest and one signature. Asked about these it gives a fixed answer, and about all others the contrary.
#[derive(Clone, Copy)]
pub struct Asked<'a> {
    /// The digest.
    pub digest: &'a [u8],
    /// The signature.
    pub signature: &'a [u8],
    /// The answer about both.
    pub says: bool,
}

impl EcVerifier for Asked<'_> {
    ghost decides = { λ asked _ digest signature. if bytes_eq digest asked.digest.now && bytes_eq signature asked.signature.now then asked.says else not asked.says };

    fn holds(&self, _key: &Key<'_>, digest: &[u8], signature: &[u8]) -> bool {
        if digest == self.digest && signature == self.signature {
            return self.says;
        }
        !self.says
    }
}
