//! Laws of the definitions that the contracts cite. A law is a function with no run-time effect, whose contract is the
//! law.
//!
//! `mac` is the MAC of a message under an algorithm and a key, `digest_of` the digest by the algorithm's hash function.

ghost use Rattle.cose_mac.specs.Laws.{MacHasItsLength, MacsOfLongKey, RunningOfLongKey, EndsOfLongKey};

/// A MAC has as many bytes as [`cose_head::Alg::auth_length`] says (RFC 9053 section 3.1).
pub fn mac_has_its_length()
    ensures { MacHasItsLength }
{}

/// A key longer than a block and its digest make equal MACs of every message (RFC 2104 section 2). What
/// [`crate::Running::hmac`] makes of one key is also a MAC under the other. So two that are fed the same message, one
/// under the key and one under its digest, return the same from `finish_mac`.
pub fn long_key_is_its_digest()
    ensures macs { MacsOfLongKey }
    ensures running { RunningOfLongKey }
    ensures ends { EndsOfLongKey }
{}
