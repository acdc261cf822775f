//! A COSE_Sign1 that is made of a payload which the caller passes in pieces, and of a signature that the caller makes.

ghost use Rattle.std.specs.Prelude.{◌≡◌, ◌≢◌, ◌≤◌, ◌<◌, ◌+◌, ◌||◌, ℕ, false, true, List, [], ◌++◌, IfOk, IsFalse, IsOk, OnErr, None, Err, is_some, length as length_of, min, option_map, take};
ghost use Rattle.std.specs.Io.KnownBytes.{Appends};
ghost use Rattle.cose_head.specs.declared.algorithm.Alg.{Alg};
ghost use Rattle.cose_head.specs.declared.kind.Kind.TheVariants.{Sign1};
ghost use Rattle.cose_head.specs.Algorithm.{auth_length_of, is_mac_of};
ghost use Rattle.cose_mac.specs.Running.{makes_mac};
ghost use Rattle.cose_mac.specs.Structure.{encoded_string};
ghost use Rattle.cose_map.specs.Key.View.{contents};
ghost use Rattle.cose_msg.specs.Making.{protected_made};
ghost use Rattle.cose_msg.specs.Sink.{AppendsFront};
ghost use Rattle.cose_msg.specs.Writes.{front_under};

use crate::make::{is_too_long, put_byte_string, put_front};
use crate::sink::Sink;
use arrayvec::ArrayVec;
use cose_head::{Kind, write_head};
use cose_mac::{Alg, Running, structure_front};

/// The major type of negative integers (RFC 8949 section 3.1).
const NEGATIVE: u8 = 1;

/// Why no whole COSE_Sign1 was made.
#[derive(Clone, Copy, Debug, PartialEq, Eq)]
pub enum SignFault {
    /// Bytes of the payload are to come.
    ShortPayload,
    /// The algorithm makes no signatures.
    WrongAlgorithm,
    /// The signature hasn't the length of those of the algorithm (RFC 9053 section 2.1).
    WrongSignature,
    /// The sink failed.
    Sink,
    /// The payload has 2^56 bytes or more, the external data have more than 65,535, or the identifier has more than 255.
    TooLong,
}

/// The protected header {1: alg}. Algorithms of signatures have negative numbers.
fn protected_signed(alg: Alg) -> ArrayVec<u8, 11>
    requires { IsFalse (is_mac_of alg) }
    ensures value { result.items ≡ protected_made alg }
    ensures short { length_of result.items ≤ 4 }
{
    let mut header = ArrayVec::new();
    let _ = header.try_extend_from_slice(&[0xa1, 1]);
    let _ = header.try_extend_from_slice(&write_head(NEGATIVE, (-1 - alg.number()) as u64));
    header
}

/// A COSE_Sign1 that is being made (RFC 9052 section 4.2), in its shortest spelling: its tag, the protected header {1: alg}, the
/// unprotected one {4: kid} or {}, the payload, and the signature. It holds the running digest, and nothing of the payload.
#[derive(Drop)]
pub struct Sign1Maker {
    alg: Alg,
    running: Running,
    left: u64,
    ghost digests: { IsFalse (makes_mac running) },
}

/// A COSE_Sign1 that lacks its signature alone.
#[derive(Drop)]
pub struct Unsigned {
    alg: Alg,
    digest: ArrayVec<u8, 64>,
}

impl Sign1Maker {
    ghost use Rattle.cose_msg.specs.Signing.{IsSigning, IsToBeSigned, begun_fault, bytes_to_come, is_of_sink, sign_fault};

    /// Begins the message of a payload of `length` bytes: puts all that precedes the payload's content, at most 322 bytes.
    ///
    /// `WrongAlgorithm`, and then `TooLong`, are answered before anything is put. Where the sink fails it has a prefix.
    pub fn begin<S: Sink>(
        alg: Alg,
        kid: Option<&[u8]>,
        aad: &[u8],
        length: u64,
        sink: &mut S,
    ) -> Result<Sign1Maker, SignFault>
        ensures fault { begun_fault result
            ≡ sign_fault alg (option_map contents kid.entry) aad.now length }
        ensures untouched { is_some (begun_fault result) ≡ true → sink.new ≡ sink.old }
        ensures begun { IfOk result (λ maker. IsSigning alg aad.now length [] maker) }
        ensures front { IfOk result (λ maker. Appends (S.contents sink.old) (S.contents sink.new)
            (front_under Sign1 (protected_made alg) (option_map contents kid.entry) length)) }
        ensures short { IfOk result (λ _. length_of
            (front_under Sign1 (protected_made alg) (option_map contents kid.entry) length)
            ≤ 322) }
        // No other fault is one of the sink, which has a prefix of these bytes then.
        ensures failed { begun_fault result ≡ None → OnErr result
            ((result ≡ Err SignFault.Sink) × AppendsFront (S.contents sink.old)
            (S.contents sink.new)
            (front_under Sign1 (protected_made alg) (option_map contents kid.entry) length)) }
        ensures failure { S.has_failed sink.new ≡ (S.has_failed sink.old || is_of_sink result) }
        // A sink that is sure of these bytes doesn't fail.
        ensures sure { length_of
            (front_under Sign1 (protected_made alg) (option_map contents kid.entry) length)
            ≤ S.sure sink.old
            → begun_fault result ≡ None → IsOk result }
    {
        if alg.is_mac() {
            return Err(SignFault::WrongAlgorithm);
        }
        if is_too_long(kid, aad, length) {
            return Err(SignFault::TooLong);
        }
        let protected = protected_signed(alg);
        let mut running = Running::digest(alg);
        structure_front(Kind::Sign1, &protected, aad, length, &mut running);
        match put_front(sink, Kind::Sign1, &protected, kid, length) {
            Ok(_) => Ok(Sign1Maker {
                alg,
                running,
                left: length,
            }),
            Err(_) => Err(SignFault::Sink),
        }
    }

    /// How many bytes of the payload are to come.
    pub fn left(&self) -> u64
        ensures { result ≡ bytes_to_come self.now }
    {
        self.left
    }

    /// Takes the next bytes of the payload, as many as are to come, and returns how many that was: they are hashed, and the caller
    /// passes them on.
    pub fn update(&mut self, piece: &[u8]) -> usize
        ensures uses { result ≡ min (length_of piece.now) (bytes_to_come self.old) }
        ensures left { bytes_to_come self.new + result ≡ bytes_to_come self.old }
        ensures makes { (alg : Alg) (aad : List ℕ) (payload_length : ℕ) (so_far : List ℕ)
            → IsSigning alg aad payload_length so_far self.old
            → IsSigning alg aad payload_length (so_far ++ take result piece.now) self.new }
    {
        let count = self.left.min(piece.len() as u64) as usize;
        self.running.update(&piece[..count]);
        self.left -= count as u64;
        count
    }

    /// Ends the payload: what is left is to sign. Where bytes of the payload are to come there is nothing to sign yet.
    pub fn finish(self) -> Result<Unsigned, SignFault>
        ensures short { 0 < bytes_to_come self → result ≡ Err SignFault.ShortPayload }
        ensures whole { bytes_to_come self ≡ 0 → IsOk result }
        ensures asks { (alg : Alg) (aad payload : List ℕ)
            → IsSigning alg aad (length_of payload) payload self
            → IfOk result (λ unsigned. IsToBeSigned alg aad payload unsigned) }
    {
        let Sign1Maker { alg, running, left } = self;
        if left > 0 {
            return Err(SignFault::ShortPayload);
        }
        Ok(Unsigned {
            alg,
            digest: running.finish_digest(),
        })
    }
}

impl Unsigned {
    ghost use Rattle.cose_msg.specs.Signing.{algorithm_held, digest_held, is_of_sink};

    /// The digest of the Sig_structure (RFC 9052 section 4.4), which the caller signs by its key (RFC 9053 section 2.1).
    pub fn digest(&self) -> &[u8]
        ensures { result.now ≡ digest_held self.now }
    {
        self.digest.as_slice()
    }

    /// Ends the message: puts the signature as a byte string, at most 134 bytes, and returns their number. A signature that hasn't the
    /// length of those of the algorithm ([`Alg::auth_length`]) isn't put.
    pub fn end<S: Sink>(&self, signature: &[u8], sink: &mut S) -> Result<u64, SignFault>
        ensures wrong { length_of signature.now ≢ auth_length_of (algorithm_held self.now)
            → (result ≡ Err SignFault.WrongSignature) × (sink.new ≡ sink.old) }
        ensures right { length_of signature.now ≡ auth_length_of (algorithm_held self.now)
            → result ≢ Err SignFault.WrongSignature }
        ensures signature { IfOk result (λ n. (n ≡ length_of (encoded_string 2 signature.now))
            × Appends (S.contents sink.old) (S.contents sink.new)
            (encoded_string 2 signature.now)) }
        ensures failed { is_of_sink result ≡ true →
            AppendsFront (S.contents sink.old) (S.contents sink.new)
            (encoded_string 2 signature.now) }
        ensures failure { S.has_failed sink.new ≡ (S.has_failed sink.old || is_of_sink result) }
        // A sink that is sure of these bytes doesn't fail, and a signature of the right length is put then.
        ensures sure { length_of (encoded_string 2 signature.now) ≤ S.sure sink.old
            → is_of_sink result ≡ false }
        ensures ends { length_of signature.now ≡ auth_length_of (algorithm_held self.now)
            → length_of (encoded_string 2 signature.now) ≤ S.sure sink.old → IsOk result }
    {
        if signature.len() != self.alg.auth_length() {
            return Err(SignFault::WrongSignature);
        }
        match put_byte_string(sink, signature) {
            Ok(count) => Ok(count),
            Err(_) => Err(SignFault::Sink),
        }
    }
}
