//! MACs and digests of messages that are fed in pieces (RFC 9053 sections 2.1 and 3.1).

ghost use Rattle.std.specs.Prelude.{◌≡◌, ℕ, List, [], ◌++◌, IsTrue, IsFalse};
ghost use Rattle.arrayvec.specs.ArrayVec.{array_vec_len};
ghost use Rattle.cose_head.specs.Algorithm.{is_mac_of, auth_length_of};
ghost use Rattle.cose_mac.specs.Hash.{digest_of, digest_length_of};

use crate::hasher::Hasher;
use crate::prepared::Prepared;
use arrayvec::ArrayVec;
use cose_head::Alg;

/// A MAC or a digest of a message that is fed in pieces.
///
/// It has no `Debug`, so that no log shows what is derived from the key.
#[derive(Drop)]
pub struct Running {
    pub(crate) alg: Alg,
    pub(crate) hasher: Hasher,
    /// For a MAC, the outer hash, which was fed the key's block XOR opad.
    pub(crate) outer: Option<Hasher>,
}

impl Running {
    ghost use Rattle.cose_mac.specs.Running.{FedMac, FedDigest, Appends, IsMacOf, makes_mac};

    /// The MAC of the empty message under a key of any length (RFC 2104).
    ///
    /// The algorithm must be one for MACs: [`Alg::is_mac`] is true.
    pub fn hmac(alg: Alg, key: &[u8]) -> Running
        requires { IsTrue (is_mac_of alg) }
        ensures { FedMac result alg key.now [] }
    {
        let Prepared { inner, outer } = Prepared::hmac(alg, key);
        Running {
            alg,
            hasher: inner,
            outer: Some(outer),
        }
    }

    /// The digest of the empty message, for a signature.
    ///
    /// The algorithm must be one for signatures: [`Alg::is_mac`] is false.
    pub fn digest(alg: Alg) -> Running
        requires { IsFalse (is_mac_of alg) }
        ensures { FedDigest result alg [] }
    {
        Running {
            alg,
            hasher: Hasher::new(alg.hash()),
            outer: None,
        }
    }

    /// Whether it was made by [`Running::hmac`], so that [`Running::finish_mac`] ends it.
    pub fn is_mac(&self) -> bool
        ensures { result ≡ makes_mac self.now }
    {
        self.outer.is_some()
    }

    /// Appends a piece, of any length, to the message.
    pub fn update(&mut self, piece: &[u8])
        ensures { Appends self.old self.new piece.now }
    {
        self.hasher.update(piece);
    }

    /// The MAC of the message so far, cut to the algorithm's length: [`Alg::auth_length`] bytes. Further pieces may follow it.
    pub fn mac_so_far(&self) -> ArrayVec<u8, 64>
        requires { IsTrue (makes_mac self.now) }
        ensures value { IsMacOf self.now result.items }
        ensures length { (alg : Alg) (key message : List ℕ)
            → FedMac self.now alg key message → array_vec_len result ≡ auth_length_of alg }
    {
        let Some(outer) = &self.outer else {
            unreachable!();
        };
        let inner = self.hasher.digest_with(&[]);
        let mut mac = outer.digest_with(&inner);
        mac.truncate(self.alg.auth_length());
        mac
    }

    /// The digest of the message so far. Further pieces may follow it.
    #[tactic(auto, unfolding(crate::specs::Hash::digest_of))]
    pub fn digest_so_far(&self) -> ArrayVec<u8, 64>
        requires { IsFalse (makes_mac self.now) }
        ensures value { (alg : Alg) (message : List ℕ)
            → FedDigest self.now alg message → result.items ≡ digest_of alg message }
        ensures length { (alg : Alg) (message : List ℕ)
            → FedDigest self.now alg message → array_vec_len result ≡ digest_length_of alg }
    {
        self.hasher.digest_with(&[])
    }

    /// The MAC of the message, cut to the algorithm's length: [`Alg::auth_length`] bytes.
    pub fn finish_mac(self) -> ArrayVec<u8, 64>
        requires { IsTrue (makes_mac self) }
        ensures value { IsMacOf self result.items }
        ensures length { (alg : Alg) (key message : List ℕ)
            → FedMac self alg key message → array_vec_len result ≡ auth_length_of alg }
    {
        self.mac_so_far()
    }

    /// The digest of the message.
    pub fn finish_digest(self) -> ArrayVec<u8, 64>
        requires { IsFalse (makes_mac self) }
        ensures value { (alg : Alg) (message : List ℕ)
            → FedDigest self alg message → result.items ≡ digest_of alg message }
        ensures length { (alg : Alg) (message : List ℕ)
            → FedDigest self alg message → array_vec_len result ≡ digest_length_of alg }
    {
        self.digest_so_far()
    }
}
