//! What a message names: its key and its algorithm, which a deployer may demand.

ghost use Rattle.std.specs.Prelude.{◌≡◌, option_map};
ghost use Rattle.cose_map.specs.Bucket.View.{bucket_pairs};
ghost use Rattle.cose_map.specs.Choice.View.{question};
ghost use Rattle.cose_msg.specs.Naming.{asked_by, has_alg, has_kid, names_key};
ghost use Rattle.cose_msg.specs.Shown.{protected_of, unprotected_of};

use crate::reader::choice::query_of;
use crate::verifier::Verifier;
use cose_head::Kind;
use cose_map::{Bucket, Keys, Query};

/// Whether a bucket is there and has a key identifier.
fn identifies_key(bucket: Option<Bucket<'_>>) -> bool
    ensures { result ≡ has_kid (option_map bucket_pairs bucket.entry) }
{
    match bucket {
        Some(bucket) => bucket.kid().is_some(),
        None => false,
    }
}

impl<'k, const H: usize, const D: usize, S: Keys<'k>> Verifier<'k, H, D, S> {
    /// Whether the message names its key: a header bucket, either of them, has the key identifier (RFC 9052 section 3.1), and was
    /// found good. A key without a kid fits a message that names none; where that isn't wanted, refuse what doesn't name its key.
    pub fn names_key(&self) -> bool
        ensures { result ≡ names_key (protected_of self.now) (unprotected_of self.now) }
    {
        identifies_key(self.protected()) || identifies_key(self.unprotected())
    }

    /// Whether the message names its algorithm in the protected bucket (RFC 9052 section 3.1), where it is authenticated, and not
    /// in the unprotected one.
    pub fn protects_algorithm(&self) -> bool
        ensures { result ≡ has_alg (protected_of self.now) }
    {
        match self.protected() {
            Some(bucket) => bucket.alg().is_some(),
            None => false,
        }
    }

    /// What a message of this kind with these header buckets asks of its key (RFC 9052 sections 3.1 and 7.1), once both were found
    /// good, also where the message is refused later: under it [`KeySet::place`](cose_map::KeySet::place) says which of its keys
    /// was chosen, and [`Query::mismatch`] why one doesn't fit. The kind of a message is in its verdict, and is that of the
    /// algorithm of [`asked_key`](Verifier::asked_key).
    pub fn query(&self, kind: Kind) -> Option<Query<'_>>
        ensures { option_map question result
            ≡ asked_by kind (protected_of self.now) (unprotected_of self.now) }
    {
        match (self.protected(), self.unprotected()) {
            (Some(protected), Some(unprotected)) => Some(query_of(kind, &protected, &unprotected)),
            _ => None,
        }
    }
}
