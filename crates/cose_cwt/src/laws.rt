//! Laws of the definitions that the contracts cite. A law is a function with no run-time effect, whose contract is the
//! law.

ghost use Rattle.cose_cwt.specs.Elsewhere.{TokenOfAnswerIsToken, TokenOfMacIsToken};
ghost use Rattle.cose_cwt.specs.Laws.{AdmissionIsRefusedInside, ClaimsAreOfTree, ClaimsAreRefusedInside, ConfirmationIsRefusedInside};

/// The place of a refusal of claims (RFC 8392 section 3), of a confirmation (RFC 8747 section 3) or of their admission
/// is within the bytes or at their end.
pub fn claims_refusals_stand_inside()
    ensures confirmation { ConfirmationIsRefusedInside }
    ensures claims { ClaimsAreRefusedInside }
    ensures admission { AdmissionIsRefusedInside }
{
    // Laws that the proof cites: of reading, and of maps.
    cose_head::laws::whole_is_one_item();
    cose_map::laws::refusals_stand_inside();
}

/// The claims of a payload are the labels and values of the map that it spells (RFC 8949 section 3), in their order and none left
/// out.
pub fn claims_are_of_a_tree()
    ensures { ClaimsAreOfTree }
{
    // A law that the proof cites, of maps.
    cose_map::laws::maps_are_of_trees();
}

/// A token that is authenticated elsewhere is the token: where the caller states the MAC of the structure under the chosen key (RFC 9052
/// section 6.3), or an answer about the signature that is right (section 4.4), and passes the message's payload, the result is that of
/// [`verify_token`](crate::verify_token).
pub fn stated_token_is_token()
    ensures mac { TokenOfMacIsToken }
    ensures answer { TokenOfAnswerIsToken }
{
    // A law that the proof cites.
    cose_msg::laws::authentication_is_stated();
}
