//! The choice of the key, once both header buckets are there (RFC 9052 sections 3.1 and 7.1).

ghost use Rattle.std.specs.Prelude.{◌≡◌, ◌==◌, ◌<◌, ◌≤◌, ◌+◌, ◌^◌, ℕ, ℤ, IfOk, List, Ok, [], length, map};
ghost use Rattle.cose_map.specs.Bucket.{bucket_of};
ghost use Rattle.cose_map.specs.Bucket.Both.{pair_fault};
ghost use Rattle.cose_map.specs.Bucket.View.{bucket_pairs};
ghost use Rattle.cose_map.specs.Choice.View.{question};
ghost use Rattle.cose_map.specs.Key.View.{material_value};
ghost use Rattle.cose_map.specs.Label.View.{label_value};
ghost use Rattle.cose_map.specs.Map.Pairs.{Pair};
ghost use Rattle.cose_map.specs.Map.View.{refusal_in};
ghost use Rattle.cose_msg.specs.Answer.{Headers};
ghost use Rattle.cose_msg.specs.Choosing.{choice_of};
ghost use Rattle.cose_msg.specs.Chosen.{ChoiceIs, choice_seen};
ghost use Rattle.cose_msg.specs.Message.{operation_of as operation_value, question_of, secret_of as secret_bytes};
ghost use Rattle.cose_msg.specs.Phases.{headers_of, placed_at};
ghost use Rattle.cose_msg.specs.Reader.{keys_in};
ghost use Rattle.cose_msg.specs.Task.{Task, choice_among, keys_for};

use crate::hashing::Hashing;
use crate::reader::{Chosen, Reader};
use arrayvec::ArrayVec;
use cose_head::{Kind, Reason, Refusal};
use cose_mac::Alg;
use cose_map::{Bucket, Keys, Label, Material, Query, check_pair};

/// The operation that verifies messages of a kind (RFC 9052 section 7.1, table 5).
fn operation_of(kind: Kind) -> i128
    ensures { result ≡ operation_value kind }
{
    match kind {
        Kind::Mac0 => 10,
        Kind::Sign1 => 2,
    }
}

/// The secret of a symmetric key.
fn secret_of<'k>(material: &Material<'k>) -> &'k [u8]
    ensures { result.now ≡ secret_bytes (material_value material.now) }
{
    match material {
        Material::Symmetric(secret) => secret,
        Material::Ec { .. } => &[],
    }
}

/// What a message asks of its key.
pub(crate) fn query_of<'q>(
    kind: Kind,
    protected: &Bucket<'q>,
    unprotected: &Bucket<'q>,
) -> Query<'q>
    ensures { question result
        ≡ question_of
        (headers_of kind [] (bucket_pairs protected.now) (bucket_pairs unprotected.now)) }
{
    Query {
        kind,
        operation: operation_of(kind),
        protected_alg: protected.alg(),
        unprotected_alg: unprotected.alg(),
        kid: protected.kid().or(unprotected.kid()),
    }
}

/// The stores of both header buckets of a message of this kind, whose contents are at these places and were found good.
#[derive(Clone, Copy)]
struct Stores<'s, const H: usize> {
    kind: Kind,
    protected: &'s ArrayVec<u8, H>,
    protected_at: u64,
    unprotected: &'s ArrayVec<u8, H>,
    at: u64,
}

/// What both buckets say of the key.
#[derive(Clone, Copy)]
struct Asked<'q> {
    /// What the message asks of it.
    query: Query<'q>,
    /// Whether the protected bucket has no pair.
    is_bare: bool,
}

/// Puts what both buckets say of the key into its place, once they are checked together. Not inlined, so that the buckets
/// aren't on the stack while a key is looked for. (It isn't returned, so that it is copied no more often than it has to be.)
#[inline(never)]
fn ask<'s, const H: usize, const D: usize>(
    stores: &'s Stores<'s, H>,
    understood: &[Label<'_>],
    into: &mut Asked<'s>,
) -> Result<(), Refusal>
    requires limit { H ≤ 65535 }
    requires nesting { D ≤ 32 }
    requires protected_early { stores.now.protected_at ≤ 36 }
    requires early { stores.now.at < 2 ^ 17 }
    ensures refused { (pairs others : List Pair)
        → bucket_of D (placed_at stores.now.protected_at stores.now.protected.now.items) ≡ Ok pairs
        → bucket_of D (placed_at stores.now.at stores.now.unprotected.now.items) ≡ Ok others
        → refusal_in result ≡ pair_fault pairs others (map label_value understood.now)
        (stores.now.at + length stores.now.unprotected.now.items) }
    ensures query { (pairs others : List Pair)
        → bucket_of D (placed_at stores.now.protected_at stores.now.protected.now.items) ≡ Ok pairs
        → bucket_of D (placed_at stores.now.at stores.now.unprotected.now.items) ≡ Ok others
        → IfOk result (λ _. question into.new.query
        ≡ question_of (headers_of stores.now.kind [] pairs others)) }
    ensures bare { (pairs others : List Pair)
        → bucket_of D (placed_at stores.now.protected_at stores.now.protected.now.items) ≡ Ok pairs
        → bucket_of D (placed_at stores.now.at stores.now.unprotected.now.items) ≡ Ok others
        → IfOk result (λ _. into.new.is_bare ≡ (length pairs == 0)) }
{
    let protected = Bucket::again(stores.protected.as_slice(), stores.protected_at, D)?;
    let unprotected = Bucket::again(stores.unprotected.as_slice(), stores.at, D)?;
    let place = stores.at + stores.unprotected.len() as u64;
    check_pair(&protected, &unprotected, understood, place)?;
    into.query = query_of(stores.kind, &protected, &unprotected);
    into.is_bare = protected.is_empty();
    Ok(())
}

/// Puts the one key of these that fits the query into its place, if one is to be chosen. (A key is large, so that it isn't
/// returned: it is copied no more often than it has to be.)
fn key_for<'k, K: Keys<'k>>(
    keys: Option<&K>,
    query: &Query<'_>,
    into: &mut Option<Chosen<'k>>,
) -> Result<(), Reason>
    ensures { (headers : Headers) → question query.now ≡ question_of headers
        → choice_seen result into.new ≡ choice_among (keys_in K.usable keys.entry) headers }
{
    let Some(keys) = keys else {
        *into = None;
        return Ok(());
    };
    match keys.find(query) {
        Ok((key, number)) => match Alg::from_number(number) {
            Some(alg) => {
                *into = Some(Chosen { key, alg });
                Ok(())
            }
            None => Err(Reason::UnknownAlg),
        },
        Err(reason) => Err(reason),
    }
}

/// Puts the key that the buckets choose into its place, if one is to be chosen, and returns whether the protected bucket has
/// no pair.
fn choose<'k, const H: usize, const D: usize, K: Keys<'k>>(
    keys: Option<&K>,
    stores: &Stores<'_, H>,
    understood: &[Label<'_>],
    into: &mut Option<Chosen<'k>>,
) -> Result<bool, Refusal>
    requires limit { H ≤ 65535 }
    requires nesting { D ≤ 32 }
    requires protected_early { stores.now.protected_at ≤ 36 }
    requires early { stores.now.at < 2 ^ 17 }
    ensures { (task : Task) (pairs others : List Pair)
        → map label_value understood.now ≡ task.setting.understood
        → keys_in K.usable keys.entry ≡ keys_for task
        → bucket_of D (placed_at stores.now.protected_at stores.now.protected.now.items) ≡ Ok pairs
        → bucket_of D (placed_at stores.now.at stores.now.unprotected.now.items) ≡ Ok others
        → ChoiceIs pairs result into.new
        (choice_of task (headers_of stores.now.kind stores.now.protected.now.items pairs others)
        (stores.now.at + length stores.now.unprotected.now.items)) }
{
    let mut asked = Asked {
        query: Query {
            kind: stores.kind,
            operation: 0,
            protected_alg: None,
            unprotected_alg: None,
            kid: None,
        },
        is_bare: false,
    };
    ask::<H, D>(stores, understood, &mut asked)?;
    let place = stores.at + stores.unprotected.len() as u64;
    match key_for(keys, &asked.query, into) {
        Ok(()) => Ok(asked.is_bare),
        Err(reason) => Err(Refusal { reason, place }),
    }
}

impl<'k, const H: usize, const D: usize> Reader<'k, H, D> {
    ghost use Rattle.std.specs.Prelude.{option_map};
    ghost use Rattle.cose_msg.specs.Chosen.{chosen_value};
    ghost use Rattle.cose_msg.specs.Hashing.{HashesFor, is_elsewhere};
    ghost use Rattle.cose_msg.specs.Phases.{both_buckets, headers_so_far};
    ghost use Rattle.cose_msg.specs.Reading.{Reading};
    ghost use Rattle.cose_msg.specs.Reader.{HasFindings, ReaderMeans};
    ghost use Rattle.cose_msg.specs.Task.{asks, rules_of};

    /// Begins the hash over the structure, where a key was chosen and the message isn't authenticated elsewhere. Not
    /// inlined, so that it isn't on the stack while the key is looked for.
    #[inline(never)]
    fn begin_hashing<K: Keys<'k>>(
        keys: Option<&K>,
        elsewhere: bool,
        chosen: &Option<Chosen<'k>>,
        into: &mut Hashing,
    )
        ensures begun { HashesFor into.new (option_map chosen_value chosen.now) [] }
        ensures kind { is_elsewhere into.new ≡ elsewhere }
    {
        if elsewhere {
            *into = Hashing::Elsewhere;
            return;
        }
        match chosen {
            Some(chosen) => {
                *into = Hashing::begin(keys, chosen.alg, secret_of(&chosen.key.material));
            }
            None => *into = Hashing::Nothing,
        }
    }

    /// What follows both buckets, whose contents are at these places: their check together, and the choice of the key.
    pub(crate) fn past_buckets<K: Keys<'k>>(
        &mut self,
        keys: Option<&K>,
        elsewhere: bool,
        kind: Kind,
        protected_at: u64,
        at: u64,
    )
        requires protected_early { protected_at ≤ 36 }
        requires early { at < 2 ^ 17 }
        ensures reads_on { (task : Task) (pairs others : List Pair)
            → keys_in K.usable keys.entry ≡ keys_for task → elsewhere ≡ asks task
            → HasFindings task
            (headers_so_far (headers_of kind self.old.protected.items pairs others) [])
            self.old
            → bucket_of D (placed_at protected_at self.old.protected.items) ≡ Ok pairs
            → bucket_of D (placed_at at self.old.unprotected.items) ≡ Ok others
            → ReaderMeans task [] (at + length self.old.unprotected.items) self.new
            (λ more. both_buckets (rules_of H D task)
            (headers_of kind self.old.protected.items pairs others)
            (at + length self.old.unprotected.items) more) }
    {
        let after = at + self.unprotected.len() as u64;
        let stores = Stores {
            kind,
            protected: &self.protected,
            protected_at,
            unprotected: &self.unprotected,
            at,
        };
        match choose::<H, D, _>(keys, &stores, self.terms.understood, &mut self.chosen) {
            Ok(is_bare) => {
                Self::begin_hashing(keys, elsewhere, &self.chosen, &mut self.hashing);
                self.begin_payload_head(kind, is_bare, after);
            }
            Err(refusal) => self.refuse(refusal.reason, refusal.place),
        }
    }
}
