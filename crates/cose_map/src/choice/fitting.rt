//! The choice among the keys that fit.

ghost use Rattle.std.specs.Prelude.{◌≡◌, ℤ, List, [], ◌∷◌, option_and_then};
ghost use Rattle.std.specs.List.{cons_option};
ghost use Rattle.cose_head.specs.ItemRef.{placed};
ghost use Rattle.cose_map.specs.Choice.{Question, fitting as fitting_key};
ghost use Rattle.cose_map.specs.Choice.View.{question, with_rest, found_value};
ghost use Rattle.cose_map.specs.Key.{key_by};
ghost use Rattle.cose_map.specs.Key.Value.{KeyValue};
ghost use Rattle.cose_map.specs.Key.View.{key_value};
ghost use Rattle.cose_map.specs.KeySet.{usable, usable_with};
ghost use Rattle.cose_map.specs.Map.View.{pairs_left};
ghost use Rattle.cose_map.specs.Restrictions.{if_permitted};

use crate::choice::query::Query;
use crate::key::Key;
use crate::key::members::Members;
use crate::restrictions::Permits;
use cose_head::{ItemRef, Reason};

/// The keys that fit, of those that were checked so far.
#[derive(Clone, Copy)]
pub(crate) enum Fitting<'k> {
    /// None so far.
    Nothing,
    /// One, with its algorithm.
    One(Key<'k>, i128),
    /// Two or more.
    Several,
}

impl<'k> Fitting<'k> {
    /// With one more key, if it fits.
    pub(crate) fn meet(&mut self, key: &Key<'k>, query: &Query)
        ensures { (rest : List (KeyValue × ℤ)) → with_rest (question query.now) self.new rest
            ≡ with_rest (question query.now) self.old
            (cons_option (fitting_key (question query.now) (key_value key.now)) rest) }
    {
        if let Some(algorithm) = query.fitting(key) {
            self.add(key, algorithm);
        }
    }

    /// With the key that has these members, if it is a usable one that fits. Not inlined, so that no key is on the stack while the
    /// members of the next one are checked.
    #[inline(never)]
    fn meet_members(&mut self, members: &Members<'k>, query: &Query)
        ensures { (rest : List (KeyValue × ℤ)) → with_rest (question query.now) self.new rest
            ≡ with_rest (question query.now) self.old
            (cons_option (option_and_then (fitting_key (question query.now))
            (usable_with (key_by (placed members.now.key) (pairs_left members.now.pairs)))) rest) }
    {
        if let Ok(key) = Key::of_members(members) {
            self.meet(&key, query);
        }
    }

    /// With the key that an item is, if it is a usable one that fits.
    #[tactic(auto, unfolding(crate::specs::Key::key_of))]
    pub(crate) fn meet_item(&mut self, item: &ItemRef<'k>, query: &Query)
        ensures { (rest : List (KeyValue × ℤ)) → with_rest (question query.now) self.new rest
            ≡ with_rest (question query.now) self.old
            (cons_option (option_and_then (fitting_key (question query.now))
            (usable (placed item.now))) rest) }
    {
        if let Ok(members) = Key::checked(item.bytes, item.place) {
            self.meet_members(&members, query);
        }
    }

    /// With the key that has these members, if it is a usable one that the rule permits and that fits. Not inlined, as
    /// [`Fitting::meet_members`] isn't.
    #[inline(never)]
    fn meet_permitted_members<P: Permits>(&mut self, members: &Members<'k>, query: &Query, rule: &P)
        ensures { (rest : List (KeyValue × ℤ)) → with_rest (question query.now) self.new rest
            ≡ with_rest (question query.now) self.old
            (cons_option (option_and_then (fitting_key (question query.now))
            (if_permitted (P.permitted rule.now)
            (usable_with (key_by (placed members.now.key) (pairs_left members.now.pairs))))) rest) }
    {
        if let Ok(key) = Key::of_members(members) {
            if rule.permits(&key) {
                self.meet(&key, query);
            }
        }
    }

    /// With the key that an item is, if it is a usable one that the rule permits and that fits.
    #[tactic(auto, unfolding(crate::specs::Key::key_of))]
    pub(crate) fn meet_permitted<P: Permits>(&mut self, item: &ItemRef<'k>, query: &Query, rule: &P)
        ensures { (rest : List (KeyValue × ℤ)) → with_rest (question query.now) self.new rest
            ≡ with_rest (question query.now) self.old
            (cons_option (option_and_then (fitting_key (question query.now))
            (if_permitted (P.permitted rule.now) (usable (placed item.now)))) rest) }
    {
        if let Ok(members) = Key::checked(item.bytes, item.place) {
            self.meet_permitted_members(&members, query, rule);
        }
    }

    /// With one more key, which fits. Nearly all keys don't, so that what a copy costs is here alone.
    fn add(&mut self, key: &Key<'k>, algorithm: i128)
        ensures { (q : Question) (rest : List (KeyValue × ℤ)) → with_rest q self.new rest
            ≡ with_rest q self.old ((key_value key.now, algorithm) ∷ rest) }
    {
        match self {
            Fitting::Nothing => *self = Fitting::One(*key, algorithm),
            _ => *self = Fitting::Several,
        }
    }

    /// The one key that fits, once all keys were checked. It is passed by reference, so that the key is copied into the
    /// result alone.
    #[inline]
    pub(crate) fn answer(&self, query: &Query) -> Result<(Key<'k>, i128), Reason>
        ensures { found_value result ≡ with_rest (question query.now) self.now [] }
    {
        match self {
            Fitting::Nothing => Err(query.no_key()),
            Fitting::One(key, algorithm) => Ok((*key, *algorithm)),
            Fitting::Several => Err(Reason::AmbiguousKey),
        }
    }
}
