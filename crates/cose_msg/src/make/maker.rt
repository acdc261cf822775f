//! A COSE_Mac0 that is made of a payload which the caller passes in pieces.

ghost use Rattle.std.specs.Prelude.{◌≡◌, ◌≤◌, ◌<◌, ◌+◌, ◌||◌, ℕ, true, List, [], ◌++◌, IfOk, IsOk, OnErr, None, Err, is_some, length as length_of, min, option_map, take};
ghost use Rattle.cose_head.specs.declared.algorithm.Alg.{Alg};
ghost use Rattle.cose_mac.specs.Running.{makes_mac};
ghost use Rattle.cose_mac.specs.Structure.{encoded_string};
ghost use Rattle.cose_map.specs.Key.View.{contents, key_value};
ghost use Rattle.cose_msg.specs.declared.make.MakeFault.{MakeFault};
ghost use Rattle.cose_msg.specs.Make.{make_fault};
ghost use Rattle.cose_msg.specs.Making.{auth_made, protected_made};
ghost use Rattle.cose_msg.specs.Message.{secret_of};
ghost use Rattle.cose_msg.specs.Sink.{AppendsFront};
ghost use Rattle.cose_msg.specs.Writes.{WritesTo, front_of, seen};

use crate::make::{
    MakeFault, is_too_long, protected_header, put_byte_string, put_front, secret_for,
};
use crate::sink::Sink;
use cose_head::Kind;
use cose_mac::{Alg, Running, structure_front};
use cose_map::Key;

/// A COSE_Mac0 that is being made (RFC 9052 section 6.2), as [`make_mac0`](crate::make_mac0) makes it, where the caller passes the
/// payload on. It holds the running MAC, and nothing of the payload.
#[derive(Drop)]
pub struct Maker {
    running: Running,
    left: u64,
    ghost makes: { makes_mac running ≡ true },
}

impl Maker {
    ghost use Rattle.std.specs.Io.KnownBytes.{Appends};
    ghost use Rattle.cose_msg.specs.Maker.{IsMaking, begun_fault, bytes_left, stops_for_sink};

    /// Begins the message of a payload of `length` bytes: puts all that precedes the payload's content, at most 321 bytes.
    ///
    /// `WrongKey`, and then `TooLong`, are answered before anything is put. Where the sink fails it has a prefix.
    pub fn begin<S: Sink>(
        alg: Alg,
        key: &Key,
        kid: Option<&[u8]>,
        aad: &[u8],
        length: u64,
        sink: &mut S,
    ) -> Result<Maker, MakeFault>
        ensures fault { begun_fault result
            ≡ make_fault alg (key_value key.now) (option_map contents kid.entry) aad.now length }
        ensures untouched { is_some (begun_fault result) ≡ true → sink.new ≡ sink.old }
        ensures begun { IfOk result (λ maker.
            IsMaking alg (secret_of (key_value key.now).material) aad.now length [] maker) }
        ensures front { IfOk result (λ maker. Appends (S.contents sink.old) (S.contents sink.new)
            (front_of (protected_made alg) (option_map contents kid.entry) length)) }
        ensures short { IfOk result (λ _. length_of
            (front_of (protected_made alg) (option_map contents kid.entry) length) ≤ 321) }
        // No other fault is one of the sink, which has a prefix of these bytes then.
        ensures failed { begun_fault result ≡ None → OnErr result
            ((result ≡ Err MakeFault.Sink) × AppendsFront (S.contents sink.old) (S.contents sink.new)
            (front_of (protected_made alg) (option_map contents kid.entry) length)) }
        ensures failure { S.has_failed sink.new
            ≡ (S.has_failed sink.old || stops_for_sink result) }
        // A sink that is sure of these bytes doesn't fail.
        ensures sure { length_of
            (front_of (protected_made alg) (option_map contents kid.entry) length)
            ≤ S.sure sink.old
            → begun_fault result ≡ None → IsOk result }
    {
        let Some(secret) = secret_for(key, alg) else {
            return Err(MakeFault::WrongKey);
        };
        if is_too_long(kid, aad, length) {
            return Err(MakeFault::TooLong);
        }
        let protected = protected_header(alg);
        let mut running = Running::hmac(alg, secret);
        structure_front(Kind::Mac0, &protected, aad, length, &mut running);
        match put_front(sink, Kind::Mac0, &protected, kid, length) {
            Ok(_) => Ok(Maker {
                running,
                left: length,
            }),
            Err(fault) => Err(fault),
        }
    }

    /// How many bytes of the payload are to come.
    pub fn left(&self) -> u64
        ensures { result ≡ bytes_left self.now }
    {
        self.left
    }

    /// Takes the next bytes of the payload, as many as are to come, and returns how many that was: they are hashed, and the caller
    /// passes them on.
    pub fn update(&mut self, piece: &[u8]) -> usize
        ensures uses { result ≡ min (length_of piece.now) (bytes_left self.old) }
        ensures left { bytes_left self.new + result ≡ bytes_left self.old }
        ensures makes { (alg : Alg) (secret aad : List ℕ) (payload_length : ℕ) (so_far : List ℕ)
            → IsMaking alg secret aad payload_length so_far self.old
            → IsMaking alg secret aad payload_length (so_far ++ take result piece.now) self.new }
    {
        let count = self.left.min(piece.len() as u64) as usize;
        self.running.update(&piece[..count]);
        self.left -= count as u64;
        count
    }

    /// Ends the message: puts what follows the payload, and returns its number of bytes, at most 66. Where bytes of the payload are to
    /// come it puts nothing.
    pub fn end<S: Sink>(self, sink: &mut S) -> Result<u64, MakeFault>
        ensures short { 0 < bytes_left self → (result ≡ Err MakeFault.ShortPayload)
            × (sink.new ≡ sink.old) }
        ensures made { (alg : Alg) (secret aad : List ℕ) (payload : List ℕ)
            → IsMaking alg secret aad (length_of payload) payload self
            → WritesTo (seen S.contents S.has_failed S.sure) sink.old sink.new result
            (encoded_string 2 (auth_made alg secret aad payload)) }
    {
        let Maker { running, left } = self;
        if left > 0 {
            return Err(MakeFault::ShortPayload);
        }
        put_byte_string(sink, &running.finish_mac())
    }
}
