//! The values of a header bucket that the reading of a message asks for (RFC 9052 section 3.1), found in one pass.

ghost use Rattle.std.specs.Prelude.{◌≡◌, option_map};
ghost use Rattle.cose_head.specs.ItemRef.{placed};
ghost use Rattle.cose_map.specs.Bucket.Header as names;
ghost use Rattle.cose_map.specs.Map.Pairs.{value_of};
ghost use Rattle.cose_map.specs.Map.View.{pairs_left};

use crate::bucket::header;
use crate::map::first::first_value;
use crate::map::pairs::Pairs;
use cose_head::ItemRef;

/// The values of the parameters that are asked for in each message, where a bucket has them.
#[derive(Clone, Copy, Debug)]
pub(crate) struct Common<'a> {
    /// The algorithm.
    pub(crate) alg: Option<ItemRef<'a>>,
    /// The labels of the parameters that a recipient must understand.
    pub(crate) crit: Option<ItemRef<'a>>,
    /// The identifier of the key.
    pub(crate) kid: Option<ItemRef<'a>>,
    /// The initialization vector.
    pub(crate) iv: Option<ItemRef<'a>>,
    /// The part of the initialization vector that is combined with the Context IV.
    pub(crate) partial_iv: Option<ItemRef<'a>>,
}

impl<'a> Common<'a> {
    /// Those of the pairs of a bucket.
    pub(crate) fn of(pairs: Pairs<'a>) -> Common<'a>
        ensures alg { option_map placed result.alg ≡ value_of names.alg (pairs_left pairs.entry) }
        ensures crit { option_map placed result.crit
            ≡ value_of names.crit (pairs_left pairs.entry) }
        ensures kid { option_map placed result.kid ≡ value_of names.kid (pairs_left pairs.entry) }
        ensures iv { option_map placed result.iv ≡ value_of names.iv (pairs_left pairs.entry) }
        ensures partial_iv { option_map placed result.partial_iv
            ≡ value_of names.partial_iv (pairs_left pairs.entry) }
    {
        let mut alg = None;
        let mut crit = None;
        let mut kid = None;
        let mut iv = None;
        let mut partial_iv = None;
        'pairs: for (name, _item, value) in pairs {
            alg = first_value(alg, &header::ALG, &name, value);
            crit = first_value(crit, &header::CRIT, &name, value);
            kid = first_value(kid, &header::KID, &name, value);
            iv = first_value(iv, &header::IV, &name, value);
            partial_iv = first_value(partial_iv, &header::PARTIAL_IV, &name, value);
        }
        Common {
            alg,
            crit,
            kid,
            iv,
            partial_iv,
        }
    }
}
