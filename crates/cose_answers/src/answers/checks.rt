//! What a message is verified under, as the library takes it.

ghost use Rattle.std.specs.Prelude.{◌≡◌, ◌≤◌, length, option_map};
ghost use Rattle.cose_map.specs.Key.View.{contents};
ghost use Rattle.cose_map.specs.KeySet.{keys_of};
ghost use Rattle.cose_map.specs.KeyTable.{keys as usable_keys, table_of};
ghost use Rattle.cose_map.specs.Map.View.{seen_by};
ghost use Rattle.cose_map.specs.Restrictions.{allowed_in};
ghost use Rattle.cose_msg.specs.Verifier.{setting_of};
ghost use Rattle.cose_answers.specs.Allowed.{allowed_value};
ghost use Rattle.cose_answers.specs.Printed.{setting_under, token_setting};
ghost use Rattle.cose_answers.specs.Under.{under_of};

use crate::answers::cwt::token_context;
use crate::answers::verdict::program_context;
use crate::request::Checks;
use crate::vouch::Vouch;
use cose_msg::{Context, KeyTable, Keys, Refusal};

/// The bytes of an argument, where there is one.
pub fn slice_of(word: &Option<Vec<u8>>) -> Option<&[u8]>
    ensures { option_map contents result ≡ option_map (λ word. word.items) word.now }
{
    match word {
        Some(word) => Some(word.as_slice()),
        None => None,
    }
}

impl Checks {
    /// The keys of the set that may be used, where there are at most `N`.
    pub fn key_table<const N: usize>(&self) -> Result<KeyTable<'_, N>, Refusal>
        requires some { 1 ≤ N }
        requires limit { N ≤ 256 }
        ensures exact { seen_by usable_keys result ≡ table_of N
            (allowed_in (allowed_value self.now.allowed) (keys_of self.now.keys.items)) }
    {
        KeyTable::read_restricted(self.keys.as_slice(), &self.allowed.borrowed())
    }

    /// The context of a message that is verified under these keys.
    pub fn context<'j, S: Keys<'j>>(&'j self, keys: S) -> Context<'j, S>
        ensures setting { setting_of S.usable result
            ≡ setting_under (under_of self.entry.now) (S.usable keys) }
        ensures external { length result.aad.now ≤ 65535 }
    {
        program_context(keys, self.aad.as_slice(), self.wanted)
    }

    /// The context of a token, whose payload has at most `L` bytes.
    pub fn token_context<'j, const L: usize, S: Keys<'j>>(&'j self, keys: S) -> Context<'j, S>
        ensures setting { setting_of S.usable result
            ≡ token_setting L (S.usable keys) (under_of self.entry.now).aad
            self.entry.now.wanted }
        ensures external { length result.aad.now ≤ 65535 }
    {
        token_context::<L, _>(keys, self.aad.as_slice(), self.wanted)
    }

    /// What `--vouch` vouches for.
    pub fn vouch(&self) -> Vouch<'_>
        ensures { option_map contents result.word ≡ (under_of self.now).vouch }
    {
        Vouch {
            word: slice_of(&self.vouch),
        }
    }
}
