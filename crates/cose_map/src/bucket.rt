//! Header buckets (RFC 9052 section 3).

ghost use Rattle.std.specs.Prelude.{◌≡◌, option_map};
ghost use Rattle.cose_head.specs.ItemRef.{placed};
ghost use Rattle.cose_map.specs.Bucket.Header as names;
ghost use Rattle.cose_map.specs.Map.Pairs.{value_of};
ghost use Rattle.cose_map.specs.Map.View.{pairs_left};

pub mod both;
mod common;
mod form;
pub mod header;

use crate::bucket::common::Common;
use crate::bucket::form::HeaderForm;
use crate::label::Label;
use crate::map::pairs::Pairs;
use crate::map::read::read_map;
use cose_head::{ItemRef, Items, Refusal};

/// A header bucket: its labels and their values, in the order of the bytes.
///
/// No label is in it twice where [`Bucket::read`] made it. [`Bucket::again`] doesn't check that once more.
#[derive(Clone, Copy, Debug)]
pub struct Bucket<'a> {
    pairs: Pairs<'a>,
    common: Common<'a>,
    /// The common values are those of the pairs.
    pub ghost alg_found: { option_map placed common.alg ≡ value_of names.alg (pairs_left pairs) },
    pub ghost crit_found: { option_map placed common.crit
        ≡ value_of names.crit (pairs_left pairs) },
    pub ghost kid_found: { option_map placed common.kid ≡ value_of names.kid (pairs_left pairs) },
    pub ghost iv_found: { option_map placed common.iv ≡ value_of names.iv (pairs_left pairs) },
    pub ghost partial_iv_found: { option_map placed common.partial_iv
        ≡ value_of names.partial_iv (pairs_left pairs) },
}

impl<'a> Bucket<'a> {
    ghost use Rattle.std.specs.Prelude.{ℕ, ◌+◌, ◌<◌, ◌≤◌, ◌^◌, ◌==◌, List, Ok, length, IfErr};
    ghost use Rattle.cose_head.specs.Items.{items_left};
    ghost use Rattle.cose_map.specs.Bucket.{bucket_of, unchecked_of, alg_of, kid_of, crit_of};
    ghost use Rattle.cose_map.specs.Bucket.View.{bucket_pairs};
    ghost use Rattle.cose_map.specs.Label.View.{label_value};
    ghost use Rattle.cose_map.specs.Map.Pairs.{Pair, has_label};
    ghost use Rattle.cose_map.specs.Map.View.{refusal_in, seen_by};

    /// The pairs of a bucket, checked.
    #[tactic(auto, unfolding(crate::specs::Bucket::bucket_of, crate::specs::Map::Pairs::pairs_of))]
    fn checked(bytes: &'a [u8], at: u64, depth: usize) -> Result<Pairs<'a>, Refusal>
        requires shallow { depth ≤ 32 }
        requires in_range { at + length bytes.now < 2 ^ 64 }
        ensures exact { seen_by pairs_left result
            ≡ bucket_of depth (record { bytes = bytes.now; place = at }) }
        ensures within { IfErr result (λ refusal. refusal.place ≤ at + length bytes.now) }
    {
        if bytes.is_empty() {
            let items = Items::none();
            return Ok(Pairs { items });
        }
        read_map(&HeaderForm, bytes, at, depth)
    }

    /// A bucket of these pairs.
    fn of(pairs: Pairs<'a>) -> Bucket<'a>
        ensures { bucket_pairs result ≡ pairs_left pairs.entry }
    {
        Bucket {
            pairs,
            common: Common::of(pairs),
        }
    }

    /// Reads a bucket of a nesting of at most `depth`, whose first byte is at place `at`. Zero bytes are the empty
    /// bucket.
    ///
    /// The refusal is the first fault of the item, with [`cose_head::Reason::PastRoom`] where the bytes end early, then
    /// `Trailing`, `NotMap`, and then in the order of the pairs `BadLabel`, `DuplicateLabel` and `BadValue`.
    #[tactic(auto, unfolding(crate::specs::Bucket::bucket_of))]
    pub fn read(bytes: &'a [u8], at: u64, depth: usize) -> Result<Bucket<'a>, Refusal>
        requires shallow { depth ≤ 32 }
        requires in_range { at + length bytes.now < 2 ^ 64 }
        ensures exact { seen_by bucket_pairs result
            ≡ bucket_of depth (record { bytes = bytes.now; place = at }) }
        ensures within { IfErr result (λ refusal. refusal.place ≤ at + length bytes.now) }
    {
        let pairs = Bucket::checked(bytes, at, depth)?;
        Ok(Bucket::of(pairs))
    }

    /// Why bytes are refused as a bucket, if they are: the refusal of [`Bucket::read`].
    pub fn fault(bytes: &'a [u8], at: u64, depth: usize) -> Option<Refusal>
        requires shallow { depth ≤ 32 }
        requires in_range { at + length bytes.now < 2 ^ 64 }
        ensures { result ≡ refusal_in (bucket_of depth (record { bytes = bytes.now; place = at })) }
    {
        Bucket::checked(bytes, at, depth).err()
    }

    /// Reads bytes again in which [`Bucket::fault`] found nothing: the same bucket as that of [`Bucket::read`], without its
    /// checks of the pairs.
    ///
    /// Of other bytes only the faults of the item are refused. What they give isn't a bucket then: a label may be in it
    /// twice, a value may have any form, the item may be an array, and the pairs end before the first without a label.
    #[tactic(auto, unfolding(crate::specs::Bucket::bucket_of, crate::specs::Bucket::unchecked_of, crate::specs::Map::Pairs::pairs_of))]
    pub fn again(bytes: &'a [u8], at: u64, depth: usize) -> Result<Bucket<'a>, Refusal>
        requires shallow { depth ≤ 32 }
        requires in_range { at + length bytes.now < 2 ^ 64 }
        ensures exact { seen_by bucket_pairs result
            ≡ unchecked_of depth (record { bytes = bytes.now; place = at }) }
        ensures good { (pairs : List Pair)
            → bucket_of depth (record { bytes = bytes.now; place = at }) ≡ Ok pairs
            → seen_by bucket_pairs result ≡ Ok pairs }
        ensures within { IfErr result (λ refusal. refusal.place ≤ at + length bytes.now) }
    {
        let items = if bytes.is_empty() {
            Items::none()
        } else {
            Items::of(&ItemRef::read(bytes, at, depth)?)
        };
        Ok(Bucket::of(Pairs { items }))
    }

    /// The value of a label.
    pub fn get(&self, label: &Label<'_>) -> Option<ItemRef<'a>>
        ensures { option_map placed result
            ≡ value_of (label_value label.now) (bucket_pairs self.now) }
    {
        self.pairs.get(label)
    }

    /// Whether a label is in the bucket.
    pub fn has(&self, label: &Label<'_>) -> bool
        ensures { result ≡ has_label (label_value label.now) (bucket_pairs self.now) }
    {
        self.get(label).is_some()
    }

    /// The algorithm.
    pub fn alg(&self) -> Option<Label<'a>>
        ensures { option_map label_value result ≡ alg_of (bucket_pairs self.now) }
    {
        Label::of(&self.common.alg?)
    }

    /// The key identifier.
    pub fn kid(&self) -> Option<&'a [u8]>
        ensures { option_map (λ kid. kid.now) result ≡ kid_of (bucket_pairs self.now) }
    {
        self.common.kid?.as_bytes()
    }

    /// The labels of the parameters that a recipient must understand.
    pub fn crit(&self) -> Option<Items<'a>>
        ensures { option_map items_left result ≡ crit_of (bucket_pairs self.now) }
    {
        Some(Items::of(&self.common.crit?))
    }

    /// Whether the initialization vector is in the bucket.
    pub(crate) fn has_iv(&self) -> bool
        ensures { result ≡ has_label names.iv (bucket_pairs self.now) }
    {
        self.common.iv.is_some()
    }

    /// Whether the part of an initialization vector is in the bucket.
    pub(crate) fn has_partial_iv(&self) -> bool
        ensures { result ≡ has_label names.partial_iv (bucket_pairs self.now) }
    {
        self.common.partial_iv.is_some()
    }

    /// The pairs, in the order of the bytes: the label, its item, and the value.
    pub fn pairs(&self) -> Pairs<'a>
        ensures { pairs_left result ≡ bucket_pairs self.now }
    {
        self.pairs
    }

    /// Whether the bucket has no pair.
    pub fn is_empty(&self) -> bool
        ensures { result ≡ (length (bucket_pairs self.now) == 0) }
    {
        let mut pairs = self.pairs;
        pairs.next().is_none()
    }
}
