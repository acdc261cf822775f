//! The labels of the header parameters that RFC 9052 section 3.1 defines.

use crate::label::Label;

/// The algorithm.
pub const ALG: Label<'static> = Label::Int(1);

/// The labels of the parameters that a recipient must understand.
pub const CRIT: Label<'static> = Label::Int(2);

/// The type of the payload.
pub const CONTENT_TYPE: Label<'static> = Label::Int(3);

/// The identifier of the key.
pub const KID: Label<'static> = Label::Int(4);

/// The initialization vector.
pub const IV: Label<'static> = Label::Int(5);

/// The part of the initialization vector that is combined with the Context IV.
pub const PARTIAL_IV: Label<'static> = Label::Int(6);
