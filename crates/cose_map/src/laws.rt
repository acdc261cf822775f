//! Laws of the definitions that the contracts cite. A law is a function with no run-time effect, whose contract is the
//! law.

ghost use Rattle.cose_map.specs.Laws.Allowed.{ChosenIsAllowed, AlgorithmIsAllowed, SecretIsLongEnough};
ghost use Rattle.cose_map.specs.Laws.Further.{FurtherIsNamed, FurtherIsSigned, FurtherTakesCurve, NoOtherOkpKeyFits, NoPlaceOfNoOkpKey, OkpKeyFits, OkpKeyIsAmong, OkpKeyIsFull, OkpKeyStandsThere, OkpKeysAreFull};
ghost use Rattle.cose_map.specs.Laws.Inside.{MapIsRefusedInside, ReadIsRefusedInside, BucketIsRefusedInside, KeyIsRefusedInside, OkpKeyIsRefusedInside, FoundEndsInside, BucketEndsInside, PairIsRefusedInside};
ghost use Rattle.cose_map.specs.Laws.Chosen.{ChosenIsAmong, ChosenFits, ChosenIsOfKind, ChosenIsOfType, NoOtherFits};
ghost use Rattle.cose_map.specs.Laws.Place.{ChosenStandsThere, NoPlaceOfNone};
ghost use Rattle.cose_map.specs.Laws.Least.{NoLeastOfNone, LeastIsAmong, NoneBeforeLeast};
ghost use Rattle.cose_map.specs.Laws.Points.{FullIsShort, PointIsFull, PointsAreFull};
ghost use Rattle.cose_map.specs.Laws.Reasons.{MapIsRefusedFor, ReadIsRefusedFor, BucketIsRefusedFor, KeyIsRefusedFor, KeySetIsRefusedFor, PairIsRefusedFor, ChoiceIsRefusedFor, BucketIsNotTruncated, KeyIsNotTruncated, KeySetIsNotTruncated, PairIsNotTruncated, ChoiceIsNotTruncated};
ghost use Rattle.cose_map.specs.Laws.Tree.{ItemIsTree, MapIsOfTree, BucketIsOfTree, KeyIsOfTree};

use cose_head::laws::{children_are_of_tree, look_is_of_tree, read_is_spelling, whole_is_one_item};

/// The place of a refusal of a map, of a bucket or of a key is within its bytes or at their end. That of two buckets
/// together is no later than the later of their ends, or it is the place after both (RFC 9052 sections 3 and 7). The
/// pair that a map has for a label ends within the map's bytes.
pub fn refusals_stand_inside()
    ensures map { MapIsRefusedInside }
    ensures read { ReadIsRefusedInside }
    ensures bucket { BucketIsRefusedInside }
    ensures key { KeyIsRefusedInside }
    ensures okp_key { OkpKeyIsRefusedInside }
    ensures found { FoundEndsInside }
    ensures pairs { BucketEndsInside }
    ensures two_buckets { PairIsRefusedInside }
{
    // Laws that the proof cites: of reading, and of children.
    whole_is_one_item();
    children_are_of_tree();
}

/// There is a least of several faults exactly where there is a fault. It is one of them, and none of them has
/// precedence over it: none has a lower place, or the same place and a smaller number.
pub fn least_fault_is_least()
    ensures none { NoLeastOfNone }
    ensures among { LeastIsAmong }
    ensures least { NoneBeforeLeast }
{}

/// The reasons for which each call refuses: a map, or bytes that are read with a table (in addition to the table's own
/// reasons), a bucket (RFC 9052 section 3), a key and a key set (section 7), two buckets together (section 3.1), and
/// the choice of the key.
pub fn refusals_have_their_reasons()
    ensures map { MapIsRefusedFor }
    ensures read { ReadIsRefusedFor }
    ensures bucket { BucketIsRefusedFor }
    ensures key { KeyIsRefusedFor }
    ensures key_set { KeySetIsRefusedFor }
    ensures two_buckets { PairIsRefusedFor }
    ensures choice { ChoiceIsRefusedFor }
{
    // A law that the proof cites, of bytes that should be one item.
    whole_is_one_item();
}

/// No refusal of a bucket, a key, a key set, two buckets or the choice is `Truncated`: where the bytes end too early
/// for the item that they begin with, the reason is `PastRoom`.
pub fn refusals_are_not_truncated()
    ensures bucket { BucketIsNotTruncated }
    ensures key { KeyIsNotTruncated }
    ensures key_set { KeySetIsNotTruncated }
    ensures two_buckets { PairIsNotTruncated }
    ensures choice { ChoiceIsNotTruncated }
{
    // A law that the proof cites, of bytes that should be one item.
    whole_is_one_item();
}

/// Bytes are accepted as one item exactly where they spell a tree of the grammar (RFC 8949 section 3) within the nesting
/// that is allowed, and the pairs of a map, a bucket or a key that was read are the labels and values of its tree, in their
/// order and none left out. A bucket of no bytes has none.
pub fn maps_are_of_trees()
    ensures item { ItemIsTree }
    ensures map { MapIsOfTree }
    ensures bucket { BucketIsOfTree }
    ensures key { KeyIsOfTree }
{
    // Laws that the proof cites: of reading, of what items are, and of children.
    read_is_spelling();
    whole_is_one_item();
    look_is_of_tree();
    children_are_of_tree();
}

/// The key that is chosen is one of the keys passed, and fits. The number that is returned with it is that of an
/// algorithm for the message's kind, and the key is of its type and on its curve. No other of the keys fits.
pub fn chosen_key_fits()
    ensures among { ChosenIsAmong }
    ensures fits { ChosenFits }
    ensures kind { ChosenIsOfKind }
    ensures typed { ChosenIsOfType }
    ensures only { NoOtherFits }
{}

/// The usable key that stands at the place that [`KeySet::place`](crate::KeySet::place) gives is the one that is chosen, and there is such a
/// place exactly where one is chosen.
pub fn chosen_key_stands_there()
    ensures key { ChosenStandsThere }
    ensures none { NoPlaceOfNone }
{}

/// Of the keys that [`Restrictions`](crate::Restrictions) leave, the one that is chosen is allowed. The algorithm that it is
/// used with is among those that are allowed, where any are named, and a secret has as many bytes as are asked for.
pub fn restrictions_hold()
    ensures key { ChosenIsAllowed }
    ensures algorithm { AlgorithmIsAllowed }
    ensures secret { SecretIsLongEnough }
{}

/// The point of a key that was read, alone or in a set, is on one of the curves P-256, P-384 and P-521, and each coordinate has
/// the curve's full length (RFC 9053 section 7.1.1), at most 66 bytes. Of y there may be the sign alone.
pub fn points_are_full()
    ensures key { PointIsFull }
    ensures keys { PointsAreFull }
    ensures short { FullIsShort }
{}

/// The OKP key that is chosen is one of the keys passed, and fits: its curve is one that the algorithm takes. No other of the
/// keys fits. The algorithm is the one that the message names, or the key where the message names none, and the message is
/// signed. The key stands at the place that [`KeySet::place_further`](crate::KeySet::place_further) gives, and there is such a
/// place exactly where one is chosen.
pub fn okp_key_fits()
    ensures among { OkpKeyIsAmong }
    ensures fits { OkpKeyFits }
    ensures named { FurtherIsNamed }
    ensures curve { FurtherTakesCurve }
    ensures signed { FurtherIsSigned }
    ensures only { NoOtherOkpKeyFits }
    ensures there { OkpKeyStandsThere }
    ensures none { NoPlaceOfNoOkpKey }
{}

/// The public key of an OKP key that was read, alone or in a set, is as long as its curve says (RFC 8032 sections 5.1.5 and
/// 5.2.5).
pub fn okp_keys_are_full()
    ensures key { OkpKeyIsFull }
    ensures keys { OkpKeysAreFull }
{}
