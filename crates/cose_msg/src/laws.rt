//! Laws of the definitions that the contracts cite. A law is a function with no run-time effect, whose contract is the
//! law.

ghost use Rattle.cose_msg.specs.Elsewhere.{DecidedBefore, OtherMacIsRefused, StatedAnswerIsVerdict, StatedMacIsVerdict, VerdictIsInstance};
ghost use Rattle.cose_msg.specs.Feed.{CutsDontMatter, PiecesJoin};
ghost use Rattle.cose_msg.specs.FurtherLaws.{AuthenticNowhereElse, FurtherIsMessage, NoIsRefused, RefusedUnasked};
ghost use Rattle.cose_msg.specs.GrammarLaws.{ArrayOfFourIsMessage, AuthenticIsMessage, MessageIsArrayOfFour, MessageIsRead, OneArrayOfFour};
ghost use Rattle.cose_msg.specs.Maker.{MadeInParts};
ghost use Rattle.cose_msg.specs.MakingLaws.{MadeIsAuthentic, SignedIsAuthentic};
ghost use Rattle.cose_msg.specs.Signing.{SignedInParts};
ghost use Rattle.cose_msg.specs.Laws.{AllAreFair, AttachedAwaitsNothing, AttachedIsDefinite, ComparingGoesLast, FinishGoesLast, MessageEndsTruncated, MessageIsBounded, MessageIsDefinite, MessageIsInspectedWithin, MessageIsVerifiedWithin, MessageIsPlacedInside, MessageStays, OpenEarlier, OpenIsTruncated, OpenStays, PayloadStays, VerdictStays, VerifyingGoesLast};
ghost use Rattle.cose_msg.specs.Naming.{ChosenStandsThere};
ghost use Rattle.cose_msg.specs.Shown.{SignaturesAreOfSign1};
ghost use Rattle.cose_msg.specs.Unrefused.{OneMessage, ShapedIsMessage, UnrefusedIsMessage, WholeIsMessage};

use cose_head::laws::{
    bare_head_is_spelling, look_is_of_tree, read_is_spelling, read_stays, read_steps,
    shortest_is_spelling, whole_is_one_item,
};
use cose_mac::laws::mac_has_its_length;
use cose_map::laws::{
    chosen_key_fits, chosen_key_stands_there, refusals_are_not_truncated, refusals_stand_inside,
};

/// The reading of the bytes of a message stays when bytes follow, once it is settled, whether the message is verified
/// or inspected. Before that its answer is Truncated at the number of bytes.
pub fn settled_stays()
    ensures message { MessageStays }
    ensures truncated { MessageEndsTruncated }
    ensures earlier { OpenEarlier }
    ensures verdict { VerdictStays }
{
    // Laws of heads and items that the proof cites.
    bare_head_is_spelling();
    read_stays();
    read_steps();
}

/// Where no byte of a detached payload is wanted, the reading of a message stays whatever more comes of the payload: its bytes
/// after the stated length are of no use, and so are all before the message's nil.
pub fn payload_stays()
    ensures complete { PayloadStays }
    ensures unsettled { OpenStays }
{}

/// Once the reading of a message's bytes is settled, its answer is not Truncated, unless bytes of a detached payload are
/// wanted. The reading isn't settled exactly where its answer is Truncated at the number of bytes. No refusal's place is
/// after the bytes, and no message ends after them.
pub fn nothing_stands_after_the_bytes()
    ensures fair { AllAreFair }
    ensures definite { MessageIsDefinite }
    ensures unsettled { OpenIsTruncated }
    ensures inside { MessageIsPlacedInside }
{
    bare_head_is_spelling();
    read_stays();
    read_steps();
    refusals_stand_inside();
    refusals_are_not_truncated();
}

/// Of a message that has its payload no byte of a detached one is wanted. So once its reading is settled, its answer is not
/// Truncated.
pub fn attached_awaits_nothing()
    ensures awaits { AttachedAwaitsNothing }
    ensures definite { AttachedIsDefinite }
{
    // The law that the proof cites: a settled reading that wants no byte of a detached payload is not Truncated.
    nothing_stands_after_the_bytes();
}

/// A message is settled within 2H + 186 + p bytes, H being the room of a header bucket, and p the lesser of the payload's limit
/// and 2^56 - 1, or none where the payload is detached: six heads have at most 9 bytes each, and a signature has at most 132 (RFC 9053 section 2.1). One that is only
/// inspected may have a tag or signature of 65,535 bytes, so it is settled within 2H + 65,589 + p.
pub fn messages_are_bounded()
    ensures any { MessageIsBounded }
    ensures verified { MessageIsVerifiedWithin }
    ensures inspected { MessageIsInspectedWithin }
{
    // Laws that the proof cites: a head has nine bytes at most, an item uses no more bytes than it has room for, and it
    // is cut short only where it has room for one more.
    bare_head_is_spelling();
    read_steps();
}

/// Comparing the tag and deciding on the signature come last: they change nothing but the answer of a message all of whose bytes
/// are there. Verifying is reading the whole message, then comparing, then deciding.
pub fn deciding_goes_last()
    ensures any { FinishGoesLast }
    ensures comparing { ComparingGoesLast }
    ensures verifying { VerifyingGoesLast }
{}

/// Bytes that aren't refused begin with a message by the grammar (RFC 9052 sections 2, 3, 4.2 and 6.2), and with one
/// alone: each part that was read is spelled, and within its limits, and the result for the bytes is that of the parts.
/// So they are read as a whole message exactly where they begin with it, and have a shape exactly where they begin with
/// one of that kind and of these lengths.
pub fn unrefused_is_message()
    ensures any { UnrefusedIsMessage }
    ensures one { OneMessage }
    ensures whole { WholeIsMessage }
    ensures shaped { ShapedIsMessage }
{
    // Laws that the proof cites: what is read as a head or an item is spelled, and what is spelled is read.
    bare_head_is_spelling();
    read_is_spelling();
}

/// A message that the grammar spells is read as what it is, whatever bytes follow it: its parts are those that are
/// spelled (RFC 9052 sections 2, 3, 4.2 and 6.2). It is one item: an array of four elements, perhaps in the message's
/// tag, and that perhaps in the tag of a CWT (RFC 8392 section 6). Conversely, each such array in tags that are allowed
/// is a message, where its elements are good and within their limits. No bytes are two such arrays.
pub fn spelled_is_read()
    ensures read { MessageIsRead }
    ensures one_item { MessageIsArrayOfFour }
    ensures any_array { ArrayOfFourIsMessage }
    ensures one_array { OneArrayOfFour }
{
    // Laws that the proof cites: what spells a head or an item is read as one.
    bare_head_is_spelling();
    read_is_spelling();
}

/// Bytes are authentic exactly where they begin with a message by the grammar, with the one key that fits, whose
/// authentication holds: its tag is the MAC of its structure (RFC 9052 section 6.3), or the `EcVerifier` answers that
/// its signature is good for the digest of its structure (section 4.4).
pub fn authentication_decides()
    ensures authentic { AuthenticIsMessage }
{
    bare_head_is_spelling();
    read_is_spelling();
}

/// What is made is authentic, whatever bytes follow it, in each setting that accepts COSE_Mac0 (RFC 9052 section 6.2)
/// or any tagged message, allows a nesting of at least 1, and has the same external data, one key that fits, with the
/// same secret, and room for the unprotected header and the payload.
pub fn made_is_authentic()
    ensures authentic { MadeIsAuthentic }
{
    // Laws that the proof cites: the shortest spelling of an item is read as the item, and a MAC has its algorithm's
    // length.
    bare_head_is_spelling();
    read_is_spelling();
    shortest_is_spelling();
    whole_is_one_item();
    look_is_of_tree();
    mac_has_its_length();
}

/// A message that is made is what precedes the payload's content, the payload, and its MAC as a byte string: what
/// [`Maker`](crate::Maker) puts at the beginning, the pieces, and what it puts at the end.
pub fn made_in_parts()
    ensures { MadeInParts }
{}

/// A COSE_Sign1 that is made with a signature which the caller's verifier holds good is authentic, whatever bytes follow it, in each
/// setting that accepts COSE_Sign1 (RFC 9052 section 4.2), as [`made_is_authentic`] says of a COSE_Mac0.
pub fn signed_is_authentic()
    ensures authentic { SignedIsAuthentic }
{
    bare_head_is_spelling();
    read_is_spelling();
    shortest_is_spelling();
    whole_is_one_item();
    look_is_of_tree();
}

/// A COSE_Sign1 that is made is what precedes the payload's content, the payload, and its signature as a byte string: what
/// [`Sign1Maker`](crate::Sign1Maker) puts at the beginning, the pieces, and what [`Unsigned::end`](crate::Unsigned::end) puts.
pub fn signed_in_parts()
    ensures { SignedInParts }
{}

/// Where tags are compared and signatures are left, a message that is complete and not decided is a COSE_Sign1 all of
/// whose bytes are there: the chosen key has an algorithm of the message's kind.
pub fn signatures_are_of_sign1()
    ensures { SignaturesAreOfSign1 }
{
    // Laws of the choice of a key and of the comparison that the proof cites.
    chosen_key_fits();
    deciding_goes_last();
}

/// Where pieces of a message are fed one after the other, the bytes used are those that are used of all pieces joined.
/// So the bytes used, and the status after them, are the same however the bytes were cut.
pub fn cuts_dont_matter()
    ensures joined { PiecesJoin }
    ensures same { CutsDontMatter }
{}

/// Authentication may be computed elsewhere: the verdict is what is read of the message, with the key that was chosen, and then
/// an answer about its tag or signature. Where a caller states the MAC of the structure under that key (RFC 9052 section 6.3), or
/// an answer about the signature that is right (section 4.4), its verdict is that of the message. Other bytes than those of the tag are refused
/// as BadAuth. What is decided before that is the same, whatever is stated.
pub fn authentication_is_stated()
    ensures instance { VerdictIsInstance }
    ensures mac { StatedMacIsVerdict }
    ensures answer { StatedAnswerIsVerdict }
    ensures other { OtherMacIsRefused }
    ensures before { DecidedBefore }
{
    // The laws that the proof cites: comparing and deciding on the signature come last.
    deciding_goes_last();
}

/// The key of a message is the usable key at the place that [`KeySet::place`](cose_map::KeySet::place) gives for what the message asks
/// of its key ([`Verifier::query`](crate::Verifier::query)).
pub fn key_stands_there()
    ensures { ChosenStandsThere }
{
    // The law that the proof cites: the key that is chosen stands at its place.
    chosen_key_stands_there();
}

/// Bytes whose signature the caller verifies are authentic exactly where they are a message by the grammar, with the one OKP key
/// that fits, whose signature is as long as the key's curve says, and the caller's verifier says that it is one of the message's
/// Sig_structure (RFC 9052 section 4.4). Where it says no, they are refused as BadAuth. What is refused before it is asked, is
/// refused whatever it would say.
pub fn further_authentication_decides()
    ensures authentic { FurtherIsMessage }
    ensures no { NoIsRefused }
    ensures unasked { RefusedUnasked }
{
    // The law that the proof cites: what is read as a whole message is one by the grammar.
    unrefused_is_message();
}

/// A message that names an algorithm which is left to the caller, and is authentic so, isn't authentic to a
/// [`Verifier`](crate::Verifier), whatever its keys are and whatever decides on the signature there. (Of a message that names none
/// an OKP key may fit here, and another key there.)
pub fn further_is_no_other()
    ensures { AuthenticNowhereElse }
{
    // The laws that the proof cites: both are a message by the grammar, and that is one alone.
    authentication_decides();
    unrefused_is_message();
}
