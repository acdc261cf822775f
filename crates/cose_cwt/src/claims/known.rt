//! The claims that are known here, found in one pass over the claims of a token.

ghost use Rattle.std.specs.Prelude.{◌≡◌, Some, option_map};
ghost use Rattle.std.specs.Option.{option_or};
ghost use Rattle.cose_head.specs.ItemRef.{placed};

use crate::claims::labels;
use cose_map::{ItemRef, Label, Pairs};

/// The values of the registered claims (RFC 8392 section 3.1) and of the confirmation (RFC 8747 section 3.1), where a token has
/// them. Each is an item of the payload, at its place in it.
#[derive(Clone, Copy, Debug, Default)]
pub struct Known<'a> {
    /// The issuer.
    pub iss: Option<ItemRef<'a>>,
    /// The subject.
    pub sub: Option<ItemRef<'a>>,
    /// The audience.
    pub aud: Option<ItemRef<'a>>,
    /// The expiration time.
    pub exp: Option<ItemRef<'a>>,
    /// The time from which on the token is valid.
    pub nbf: Option<ItemRef<'a>>,
    /// The time at which the token was issued.
    pub iat: Option<ItemRef<'a>>,
    /// The identifier of the token.
    pub cti: Option<ItemRef<'a>>,
    /// The confirmation.
    pub cnf: Option<ItemRef<'a>>,
}

/// Keeps a value, unless one was kept before.
fn keep_first<'a>(kept: &mut Option<ItemRef<'a>>, value: ItemRef<'a>)
    ensures { option_map placed kept.new
        ≡ option_or (option_map placed kept.old) (Some (placed value.entry)) }
{
    if kept.is_none() {
        *kept = Some(value);
    }
}

impl<'a> Known<'a> {
    ghost use Rattle.std.specs.Prelude.{[], ◌∷◌};
    ghost use Rattle.cose_map.specs.Map.View.{pair_value, pairs_left};
    ghost use Rattle.cose_cwt.specs.Claims.Known.{first_values, kept_or_first};
    ghost use Rattle.cose_cwt.specs.Claims.Known.View.{known_value};

    /// Keeps the value of the next pair, where it is the first of one of the labels. Not inlined, so that those found are kept in
    /// their place.
    #[inline(never)]
    fn keep(&mut self, pair: &(Label<'a>, ItemRef<'a>, ItemRef<'a>))
        ensures { known_value self.new
            ≡ kept_or_first (known_value self.old) (pair_value pair.now ∷ []) }
    {
        let (name, _, value) = *pair;
        match name {
            labels::ISS => keep_first(&mut self.iss, value),
            labels::SUB => keep_first(&mut self.sub, value),
            labels::AUD => keep_first(&mut self.aud, value),
            labels::EXP => keep_first(&mut self.exp, value),
            labels::NBF => keep_first(&mut self.nbf, value),
            labels::IAT => keep_first(&mut self.iat, value),
            labels::CTI => keep_first(&mut self.cti, value),
            labels::CNF => keep_first(&mut self.cnf, value),
            _ => {}
        }
    }

    /// Those of the pairs of a token's claims.
    pub(crate) fn of(pairs: Pairs<'a>) -> Known<'a>
        ensures { known_value result ≡ first_values (pairs_left pairs.entry) }
    {
        let mut known = Known::default();
        'pairs: for pair in pairs {
            known.keep(&pair);
        }
        known
    }
}
