//! The hash over the structure that is authenticated (RFC 9052 sections 4.4 and 6.3).

ghost use Rattle.std.specs.Prelude.{◌≡◌, ℕ, List};
ghost use Rattle.cose_head.specs.Algorithm.{is_mac_of};
ghost use Rattle.cose_msg.specs.Answer.{Chosen as Found};
ghost use Rattle.cose_msg.specs.Hashing.{FedAs, authenticator};

use arrayvec::ArrayVec;
use cose_mac::{Alg, Kind, Running, structure_front};
use cose_map::KeyMeaning;

/// The MAC or the digest of a message's structure: none yet, one that is being fed, or the finished one.
#[derive(Drop)]
pub(crate) enum Hashing {
    /// No key is chosen yet.
    Nothing,
    /// It is being fed the structure.
    Running(Running),
    /// The MAC or the digest.
    Finished(ArrayVec<u8, 64>),
    /// Nothing is hashed here: the caller authenticates the message.
    Elsewhere,
}

/// The MAC or the digest of what was fed so far.
fn result_so_far(running: &Running) -> ArrayVec<u8, 64>
    ensures { (found : Found) (message : List ℕ)
        → FedAs (is_mac_of found.alg) running.now found message
        → result.items ≡ authenticator found message }
{
    if running.is_mac() {
        running.mac_so_far()
    } else {
        running.digest_so_far()
    }
}

impl Hashing {
    ghost use Rattle.std.specs.Prelude.{◌≡◌, ◌≤◌, ℕ, List, [], ◌++◌, false, length};
    ghost use Rattle.cose_map.specs.Key.Value.{KeyValue};
    ghost use Rattle.cose_mac.specs.Structure.{structure_front, structure_of};
    ghost use Rattle.cose_msg.specs.Answer.{Chosen as Found};
    ghost use Rattle.cose_msg.specs.Hashing.{Hashes, authenticator, is_elsewhere, result_of};
    ghost use Rattle.cose_msg.specs.Message.{secret_of};

    /// The MAC or the digest of the empty message, as the algorithm requires. The keys begin the MAC, where they are passed.
    pub(crate) fn begin<K: KeyMeaning>(keys: Option<&K>, alg: Alg, secret: &[u8]) -> Hashing
        ensures begun { (found : Found) → found.alg ≡ alg
            → secret_of found.key.material ≡ secret.now → Hashes result found [] }
        ensures here { is_elsewhere result ≡ false }
    {
        if !alg.is_mac() {
            return Hashing::Running(Running::digest(alg));
        }
        match keys {
            Some(keys) => Hashing::Running(keys.begin_mac(alg, secret)),
            None => Hashing::Running(Running::hmac(alg, secret)),
        }
    }

    /// Whether nothing is hashed here.
    pub(crate) fn is_elsewhere(&self) -> bool
        ensures { result ≡ is_elsewhere self.now }
    {
        matches!(self, Hashing::Elsewhere)
    }

    /// Appends a piece.
    pub(crate) fn update(&mut self, piece: &[u8])
        ensures appended { (found : Found) (message : List ℕ) → Hashes self.old found message
            → Hashes self.new found (message ++ piece.now) }
        ensures kept { is_elsewhere self.new ≡ is_elsewhere self.old }
    {
        match self {
            Hashing::Running(running) => running.update(piece),
            Hashing::Nothing | Hashing::Finished(_) | Hashing::Elsewhere => {}
        }
    }

    /// Appends what precedes the payload's content in the structure.
    pub(crate) fn front(&mut self, kind: Kind, protected: &[u8], aad: &[u8], payload_length: u64)
        ensures appended { (found : Found) (message : List ℕ) → Hashes self.old found message
            → Hashes self.new found
            (message ++ structure_front kind protected.now aad.now payload_length) }
        // Any payload of that length completes it.
        ensures front { (found : Found) (message payload : List ℕ) → Hashes self.old found message
            → length payload ≡ payload_length
            → structure_front kind protected.now aad.now payload_length ++ payload
            ≡ structure_of kind protected.now aad.now payload }
        ensures kept { is_elsewhere self.new ≡ is_elsewhere self.old }
    {
        match self {
            Hashing::Running(running) => structure_front(
                kind,
                protected,
                aad,
                payload_length,
                running,
            ),
            Hashing::Nothing | Hashing::Finished(_) | Hashing::Elsewhere => {}
        }
    }

    /// Puts the finished bytes here. Not inlined, so that no second hash is on the stack while they are computed.
    #[inline(never)]
    fn put_finished(&mut self, bytes: ArrayVec<u8, 64>)
        ensures { self.new ≡ Hashing.Finished bytes }
    {
        *self = Hashing::Finished(bytes);
    }

    /// Replaces what was fed by its MAC or digest.
    pub(crate) fn finish(&mut self)
        ensures finished { (found : Found) (message : List ℕ) → is_elsewhere self.old ≡ false
            → Hashes self.old found message → result_of self.new ≡ authenticator found message }
        ensures kept { is_elsewhere self.new ≡ is_elsewhere self.old }
    {
        match self {
            Hashing::Running(running) => {
                let bytes = result_so_far(running);
                self.put_finished(bytes);
            }
            Hashing::Nothing | Hashing::Finished(_) | Hashing::Elsewhere => {}
        }
    }

    /// The finished bytes, and none before they are finished.
    pub(crate) fn result(&self) -> &[u8]
        ensures value { result.now ≡ result_of self.now }
        ensures fits { length result.now ≤ 64 }
    {
        match self {
            Hashing::Finished(bytes) => bytes.as_slice(),
            Hashing::Nothing | Hashing::Running(_) | Hashing::Elsewhere => &[],
        }
    }
}
