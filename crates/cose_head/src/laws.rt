//! Laws of the definitions that the contracts cite. A law is a function with no run-time effect, whose contract is the
//! law.
//!
//! `read` defines how an item is read, `Spells` which bytes spell one, and `bare_head` how a head outside an item is
//! read.

ghost use Rattle.cose_head.specs.Laws.{ReadIsSpelled, OneItem, ReadElsewhere, ReadStays, RefusedIsNoItem, ReadSteps, ReadAddsUp, TruncatedHasRoom, ReadReasons, ReadMoves, HeadIsSpelled, HeadStays, HeadWants, HeadEnds, HalfIsShort, HeadFits, HeadReasons, ShortestIsHead};
ghost use Rattle.cose_head.specs.PlacedLaws.{LookIsOfTree, HeadIsOfItem, WholeIsItem, ItemIsWhole, WholeIsDeeper, WholeIsRefusedInside, WholeReasons, OneItemIsWhole, ArrayHasItsElements, MapHasItsPairs, OthersHaveNone, ChildrenEndInside, TagHasItsContent, OthersEncloseNone};
ghost use Rattle.cose_head.specs.WalkerLaws.{PutHasRoom, PutIsTruncated, PutIsOpen, DoneIsWhole};
ghost use Rattle.cose_head.specs.Shortest.{ShortestIsSpelled, ShortestIsLeast};

/// What `read` accepts is exactly what the grammar spells, within the room and the nesting (RFC 8949 section 3).
/// So bytes begin with at most one item, and it is the same one at any place.
pub fn read_is_spelling()
    ensures spelled { ReadIsSpelled }
    ensures one { OneItem }
    ensures elsewhere { ReadElsewhere }
{}

/// An answer of `read` other than Truncated is the same when bytes follow. So after any other refusal, no bytes that
/// begin so begin with an item.
pub fn read_stays()
    ensures stays { ReadStays }
    ensures refused { RefusedIsNoItem }
{}

/// Reading an item uses at least one byte, and no more than the bytes and the room have. The place of a refusal is
/// within the bytes; that of Truncated is their end, and then there is room for one byte more. The reasons are
/// Truncated, Reserved, Indefinite, BadSimple, TooDeep and PastRoom. At another place the same bytes are read as the
/// same, each place greater by the difference.
pub fn read_steps()
    ensures steps { ReadSteps }
    ensures adds_up { ReadAddsUp }
    ensures truncated { TruncatedHasRoom }
    ensures reasons { ReadReasons }
    ensures moves { ReadMoves }
{}

/// A head outside an item is read exactly where bytes spell it, and an answer other than More is the same when bytes
/// follow. With fewer bytes than More says it is incomplete, and the byte that completes it is its last. It has nine
/// bytes at most. The reasons for which it is refused are Reserved, Indefinite and BadSimple.
pub fn bare_head_is_spelling()
    ensures spelled { HeadIsSpelled }
    ensures stays { HeadStays }
    ensures wants { HeadWants }
    ensures ends { HeadEnds }
    ensures short { HalfIsShort }
    ensures fits { HeadFits }
    ensures reasons { HeadReasons }
{}

/// The shortest head of an argument is a head of it, and the shortest spelling of an item spells it, in no more
/// bytes than any other (RFC 8949 section 4.2.1).
pub fn shortest_is_spelling()
    ensures head { ShortestIsHead }
    ensures item { ShortestIsSpelled }
    ensures least { ShortestIsLeast }
{}

/// Bytes that [`ItemRef::read`](crate::ItemRef::read) accepts are exactly one item of the grammar, and those that are
/// one are accepted, with more nesting allowed too. The place of a refusal is that of one of the bytes or their end,
/// and its reason is one of Reserved, Indefinite, BadSimple, TooDeep, PastRoom and Trailing, so never Truncated. The
/// test that the type `ItemRef` guarantees says the same of a nesting of at most 32, at any place of the bytes.
pub fn whole_is_one_item()
    ensures tree { WholeIsItem }
    ensures accepted { ItemIsWhole }
    ensures deeper { WholeIsDeeper }
    ensures inside { WholeIsRefusedInside }
    ensures reasons { WholeReasons }
    ensures test { OneItemIsWhole }
{}

/// What the getters of an `ItemRef` return for the bytes of an item is what the item's tree is at its root.
pub fn look_is_of_tree()
    ensures look { LookIsOfTree }
    ensures head { HeadIsOfItem }
{}

/// The children that `Items` gives of an item are those of its tree, in their order, none left out: the bytes of each,
/// read alone, are exactly its tree. They follow one after another after the item's head, and end where the item ends.
/// Also where the bytes are not an item, no child ends after them. The item that a tag encloses follows the tag's head,
/// up to the end, and read alone it is that of the tree; an item that isn't a tag encloses none.
pub fn children_are_of_tree()
    ensures array { ArrayHasItsElements }
    ensures map { MapHasItsPairs }
    ensures others { OthersHaveNone }
    ensures inside { ChildrenEndInside }
    ensures enclosed { TagHasItsContent }
    ensures no_tags { OthersEncloseNone }
{}

/// A walker that is `Going`, and may use a byte at all, has room for a further one, and the bytes that it was put end
/// too early. The items that it counts as open are those open after these bytes. A walker that is `Done` was put
/// exactly the bytes of an item.
pub fn walker_is_reading()
    ensures room { PutHasRoom }
    ensures truncated { PutIsTruncated }
    ensures open { PutIsOpen }
    ensures done { DoneIsWhole }
{}
