//! The labels of the members of keys, those that keys of every type may have (RFC 9052 section 7.1) and those of one type
//! (RFC 9053 section 7).

use crate::label::Label;

/// The type of the key.
pub(crate) const KTY: Label<'static> = Label::Int(1);

/// The identifier of the key.
pub(crate) const KID: Label<'static> = Label::Int(2);

/// The only algorithm that the key is for.
pub(crate) const ALG: Label<'static> = Label::Int(3);

/// The only operations that the key is for.
pub(crate) const KEY_OPS: Label<'static> = Label::Int(4);

/// The initialization vector that a message's Partial IV is combined with.
pub(crate) const BASE_IV: Label<'static> = Label::Int(5);

/// The secret of a symmetric key (RFC 9053 section 7.3).
pub(crate) const K: Label<'static> = Label::Int(-1);

/// The curve of a point (RFC 9053 section 7.1.1).
pub(crate) const CRV: Label<'static> = Label::Int(-1);

/// The coordinate x of a point (RFC 9053 section 7.1.1).
pub(crate) const X: Label<'static> = Label::Int(-2);

/// The coordinate y of a point (RFC 9053 section 7.1.1).
pub(crate) const Y: Label<'static> = Label::Int(-3);

/// The private key of a point (RFC 9053 section 7.1.1).
pub(crate) const D: Label<'static> = Label::Int(-4);
