//! The choice among the keys of a set that a rule permits.

ghost use Rattle.std.specs.Prelude.{◌≡◌, filter};
ghost use Rattle.cose_map.specs.Choice.{chosen};
ghost use Rattle.cose_map.specs.Choice.View.{question, found_value};
ghost use Rattle.cose_map.specs.KeySet.View.{keys};

use crate::choice::fitting::Fitting;
use crate::choice::query::Query;
use crate::key::Key;
use crate::key_set::KeySet;
use crate::restrictions::Permits;
use cose_head::Reason;

impl<'a> KeySet<'a> {
    /// The one key that fits the query of a message, as [`KeySet::find`] finds it, among those that the rule permits: no other one
    /// fits a message or makes the choice ambiguous.
    #[tactic(auto, unfolding(crate::specs::Choice::chosen))]
    pub fn find_permitted<P: Permits>(
        &self,
        query: &Query,
        rule: &P,
    ) -> Result<(Key<'a>, i128), Reason>
        ensures { found_value result
            ≡ chosen (question query.now) (filter (P.permitted rule.now) (keys self.now)) }
    {
        if !query.is_answerable() {
            return Err(Reason::UnknownAlg);
        }
        let mut fitting = Fitting::Nothing;
        for item in self.items() {
            fitting.meet_permitted(&item, query, rule);
        }
        fitting.answer(query)
    }
}
