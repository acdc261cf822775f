//! Keys that are prepared for many MACs: what HMAC makes of a key alone (RFC 2104 section 4).

ghost use Rattle.std.specs.Prelude.{◌≡◌, List, ℕ, [], IsTrue};
ghost use Rattle.cose_head.specs.Algorithm.{is_mac_of};

use crate::hasher::Hasher;
use crate::hmac::{IPAD, OPAD, key_block, padded_hasher};
use crate::running::Running;
use cose_head::Alg;

/// A key that is prepared for many MACs: one hasher that was fed the key's block XOR ipad, and one that was fed it XOR
/// opad (RFC 2104 section 4). A MAC that begins from them hashes two blocks less, which is half of all for a short
/// message.
///
/// It is as secret as the key: with it any MAC under the key can be made. It has no `Debug`, so that no log shows it.
#[derive(Drop)]
pub struct Prepared {
    pub(crate) inner: Hasher,
    pub(crate) outer: Hasher,
}

impl Prepared {
    ghost use Rattle.cose_mac.specs.Prepared.{IsPrepared, serves};
    ghost use Rattle.cose_mac.specs.Running.{FedMac};

    /// A key of any length, prepared for an algorithm and for each other one with the same hash function.
    ///
    /// The algorithm must be one for MACs: [`Alg::is_mac`] is true.
    pub fn hmac(alg: Alg, key: &[u8]) -> Prepared
        requires { IsTrue (is_mac_of alg) }
        ensures prepared { IsPrepared result key.now }
        ensures serves { IsTrue (serves result alg) }
    {
        let hash = alg.hash();
        let block = key_block(hash, key);
        Prepared {
            inner: padded_hasher(hash, &block, IPAD),
            outer: padded_hasher(hash, &block, OPAD),
        }
    }

    /// Whether it is prepared for the algorithm: one for MACs, with the same hash function as the one that it was made for.
    pub fn serves(&self, alg: Alg) -> bool
        ensures { result ≡ serves self.now alg }
    {
        alg.is_mac() && self.inner.is_of(alg.hash())
    }

    /// The MAC of the empty message, by an algorithm that it is prepared for: what [`Running::hmac`] makes of the
    /// algorithm and the key.
    pub fn begin(&self, alg: Alg) -> Running
        requires { IsTrue (serves self.now alg) }
        ensures { (key : List ℕ) → IsPrepared self.now key → FedMac result alg key [] }
    {
        Running {
            alg,
            hasher: self.inner.again(),
            outer: Some(self.outer.again()),
        }
    }
}
