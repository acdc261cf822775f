//! The header buckets of a message in memory, and the OKP key that they ask for (RFC 9052 sections 3 and 7.1).

ghost use Rattle.std.specs.Prelude.{◌≡◌, ◌≤◌, ℕ, List, None, Some, Ok, IfOk, map};
ghost use Rattle.std.specs.List.{slice_get};
ghost use Rattle.cose_head.specs.declared.kind.Kind.{Kind};
ghost use Rattle.cose_map.specs.Bucket.View.{bucket_pairs};
ghost use Rattle.cose_map.specs.Key.Okp.{okp_value};
ghost use Rattle.cose_map.specs.KeySet.Okp.{okp_keys};
ghost use Rattle.cose_map.specs.Label.View.{label_value};
ghost use Rattle.cose_map.specs.Map.Pairs.{Pair};
ghost use Rattle.cose_msg.specs.Answer.{Headers};
ghost use Rattle.cose_msg.specs.Further.{okp_choice, okp_chosen};
ghost use Rattle.cose_msg.specs.InMemory.{answer_at, going_on};
ghost use Rattle.cose_msg.specs.Phases as phases;
ghost use Rattle.cose_msg.specs.Rules.{Rules};
ghost use Rattle.cose_msg.specs.declared.further.rest.Rest.{Rest};

use crate::further::rest::Rest;
use crate::reader::Reader;
use crate::reader::choice::query_of;
use cose_head::{FurtherAlg, Kind, Refusal};
use cose_map::laws::okp_key_fits;
use cose_map::{Bucket, KeySet, Label, OkpKey, check_pair};

/// The protected bucket: its content, and its pairs.
#[derive(Clone, Copy)]
pub(crate) struct Protected<'m> {
    pub(crate) content: &'m [u8],
    pub(crate) bucket: Bucket<'m>,
}

/// The key that fits, how many OKP keys of the set are before it, and the algorithm that it is used with.
#[derive(Clone, Copy)]
pub(crate) struct Found<'k> {
    pub(crate) key: OkpKey<'k>,
    pub(crate) place: usize,
    pub(crate) alg: FurtherAlg,
}

/// Reads the protected bucket, a byte string of at most `H` bytes.
pub(crate) fn read_protected<'m, const H: usize, const D: usize>(
    rest: &mut Rest<'m>,
) -> Result<Protected<'m>, Refusal>
    requires nesting { D ≤ 32 }
    ensures { (rules : Rules) (kind : Kind) → rules.room ≡ H → rules.nesting ≡ D
        → answer_at (phases.protected_head rules kind) rest.old
        ≡ going_on result (λ protected. answer_at (phases.unprotected rules kind
        protected.content.now (bucket_pairs protected.bucket)) rest.new) }
{
    let head_at = rest.place();
    let head = rest.head()?;
    if let Some(reason) = Reader::<H, D>::fault_of_protected(&head) {
        return Err(Refusal {
            reason,
            place: head_at,
        });
    }
    let at = rest.place();
    let content = rest.string(head.arg)?;
    let bucket = Bucket::read(content, at, D)?;
    Ok(Protected { content, bucket })
}

/// Reads the unprotected bucket, an item of at most `H` bytes.
pub(crate) fn read_unprotected<'m, const H: usize, const D: usize>(
    rest: &mut Rest<'m>,
) -> Result<Bucket<'m>, Refusal>
    requires nesting { D ≤ 32 }
    ensures { (rules : Rules) (kind : Kind) (content : List ℕ) (pairs : List Pair)
        → rules.room ≡ H → rules.nesting ≡ D
        → answer_at (phases.unprotected rules kind content pairs) rest.old
        ≡ going_on result (λ bucket. answer_at (phases.both_buckets rules
        (phases.headers_of kind content pairs (bucket_pairs bucket))) rest.new) }
{
    let at = rest.place();
    let content = rest.item(H, D)?;
    Bucket::read(content, at, D)
}

/// Checks both buckets together, which end at this place, and finds the one OKP key that fits.
pub(crate) fn find<'k>(
    keys: &KeySet<'k>,
    kind: Kind,
    protected: &Bucket<'_>,
    unprotected: &Bucket<'_>,
    understood: &[Label<'_>],
    place: u64,
) -> Result<Found<'k>, Refusal>
    ensures reads { (rules : Rules) (content : List ℕ) (rest : Rest)
        → rules.understood ≡ map label_value understood.now
        → rules.choice ≡ okp_choice (okp_keys keys.now) → rest.place ≡ place
        → let headers = phases.headers_of kind content (bucket_pairs protected.now)
        (bucket_pairs unprotected.now) in
        answer_at (phases.both_buckets rules headers) rest
        ≡ going_on result (λ _. answer_at (phases.payload_head rules headers None) rest) }
    ensures found { (content : List ℕ) → IfOk result (λ found. okp_chosen (okp_keys keys.now)
        (phases.headers_of kind content (bucket_pairs protected.now) (bucket_pairs unprotected.now))
        ≡ Ok (okp_value found.key, found.alg)) }
    ensures there { IfOk result (λ found. slice_get (okp_keys keys.now) found.place
        ≡ Some (okp_value found.key)) }
{
    // The law of the place that the proof cites.
    okp_key_fits();
    check_pair(protected, unprotected, understood, place)?;
    let query = query_of(kind, protected, unprotected);
    match keys.find_further(&query) {
        Ok((key, alg)) => match keys.place_further(&query) {
            Some(place) => Ok(Found { key, place, alg }),
            None => unreachable!(),
        },
        Err(reason) => Err(Refusal { reason, place }),
    }
}
