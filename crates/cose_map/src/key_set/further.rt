//! The choice of an OKP key of a set, for a signature that the caller verifies (RFC 9052 section 7.1, RFC 9053 section 2.2).

use crate::choice::query::Query;
use crate::key::okp::{OkpKey, usable_okp_key};
use crate::key_set::KeySet;
use crate::key_set::items::KeyItems;
use cose_head::{FurtherAlg, Reason};

impl<'a> KeySet<'a> {
    ghost use Rattle.std.specs.Prelude.{◌≡◌};
    ghost use Rattle.cose_map.specs.Choice.Further.{chosen, first_fitting, found_value, place_of};
    ghost use Rattle.cose_map.specs.Choice.View.{question};
    ghost use Rattle.cose_map.specs.KeySet.Okp.{okp_keys};

    /// The one OKP key (RFC 9053 section 7.2) that fits the query of a message whose signature the caller verifies, and the
    /// algorithm that it is used with. The keys that [`KeySet::find`] finds are skipped, as it skips these.
    ///
    /// The reasons are those of [`KeySet::find`]. [`Reason::UnknownAlg`] is that of a message which names another algorithm than a
    /// [`FurtherAlg`], or isn't signed.
    #[tactic(auto, unfolding(crate::specs::Choice::Further::chosen))]
    pub fn find_further(&self, query: &Query) -> Result<(OkpKey<'a>, FurtherAlg), Reason>
        ensures { found_value result ≡ chosen (question query.now) (okp_keys self.now) }
    {
        if !query.is_answerable_further() {
            return Err(Reason::UnknownAlg);
        }
        let mut found = None;
        for item in KeyItems::of(self.set) {
            if let Some(key) = usable_okp_key(&item) {
                if let Some(alg) = query.fitting_further(&key) {
                    if found.is_some() {
                        return Err(Reason::AmbiguousKey);
                    }
                    found = Some((key, alg));
                }
            }
        }
        found.ok_or(query.no_key())
    }

    /// The number of the first OKP key that fits.
    fn first_fitting_further(&self, query: &Query) -> Option<usize>
        ensures { result ≡ first_fitting (question query.now) 0 (okp_keys self.now) }
    {
        let mut place = 0;
        for item in KeyItems::of(self.set) {
            if let Some(key) = usable_okp_key(&item) {
                if query.fitting_further(&key).is_some() {
                    return Some(place);
                }
                place += 1;
            }
        }
        None
    }

    /// Where the key that [`KeySet::find_further`] finds stands: how many OKP keys of the set are before it. `None` where none
    /// is found.
    pub fn place_further(&self, query: &Query) -> Option<usize>
        ensures { result ≡ place_of (question query.now) (okp_keys self.now) }
    {
        match self.find_further(query) {
            Ok(_) => self.first_fitting_further(query),
            Err(_) => None,
        }
    }
}
