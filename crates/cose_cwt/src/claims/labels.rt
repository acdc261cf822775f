//! The labels of the registered claims (RFC 8392 section 3.1) and of the confirmation (RFC 8747 section 3.1).

use cose_map::Label;

/// The issuer of the token.
pub(crate) const ISS: Label<'static> = Label::Int(1);

/// The subject of the token.
pub(crate) const SUB: Label<'static> = Label::Int(2);

/// The audience of the token.
pub(crate) const AUD: Label<'static> = Label::Int(3);

/// The expiration time: from then on the token isn't valid.
pub(crate) const EXP: Label<'static> = Label::Int(4);

/// The time from which on the token is valid.
pub(crate) const NBF: Label<'static> = Label::Int(5);

/// The time at which the token was issued.
pub(crate) const IAT: Label<'static> = Label::Int(6);

/// The identifier of the token.
pub(crate) const CTI: Label<'static> = Label::Int(7);

/// The confirmation: the key that the presenter of the token holds.
pub(crate) const CNF: Label<'static> = Label::Int(8);
