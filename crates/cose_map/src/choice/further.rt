//! The choice of an OKP key for a signature that the caller verifies (RFC 9052 section 7.1, RFC 9053 section 2.2).

ghost use Rattle.std.specs.Prelude.{◌≡◌, ℤ, List, [], option_map};
ghost use Rattle.std.specs.List.{cons_option};
ghost use Rattle.cose_map.specs.Choice.Further as spec;
ghost use Rattle.cose_map.specs.Choice.View.{question};
ghost use Rattle.cose_map.specs.Key.Okp.{okp_value};
ghost use Rattle.cose_map.specs.Label.View.{label_value};

use crate::choice::query::{Query, is_allowed_algorithm, is_allowed_kid, is_allowed_operation};
use crate::key::okp::OkpKey;
use crate::label::Label;
use cose_head::{FurtherAlg, Kind, Reason};

/// The algorithm of this number, if it is for messages of the kind.
fn further_of(kind: Kind, number: i128) -> Option<FurtherAlg>
    ensures { result ≡ spec.further_of kind number }
{
    match kind {
        Kind::Mac0 => None,
        Kind::Sign1 => FurtherAlg::from_number(number),
    }
}

/// Whether a label names an algorithm for messages of the kind.
fn is_known(kind: Kind, label: Label) -> bool
    ensures { result ≡ spec.is_known kind (label_value label.entry) }
{
    match label {
        Label::Int(algorithm) => further_of(kind, algorithm).is_some(),
        Label::Text(_) => false,
    }
}

impl<'q> Query<'q> {
    /// Whether the message names no algorithm, or one for messages of its kind that is left to the caller.
    pub(crate) fn is_answerable_further(&self) -> bool
        ensures { let q = question self.now in
            result ≡ spec.is_answerable q.kind q.protected_alg q.unprotected_alg }
    {
        match (self.protected_alg, self.unprotected_alg) {
            (Some(protected), _) => is_known(self.kind, protected),
            (None, Some(unprotected)) => is_known(self.kind, unprotected),
            (None, None) => true,
        }
    }

    /// The algorithm that a key is used with, where it is one for messages of the kind, and the key's own, if that is named.
    fn further_with(&self, own: Option<Label>) -> Option<FurtherAlg>
        ensures { result
            ≡ spec.further_with (question self.now) (option_map label_value own.entry) }
    {
        match self.algorithm_by(own) {
            Some(number) if is_allowed_algorithm(own, number) => further_of(self.kind, number),
            _ => None,
        }
    }

    /// Whether the key fits the algorithm.
    fn fits_further(&self, key: &OkpKey, alg: FurtherAlg) -> bool
        ensures { result ≡ spec.fits (question self.now) (okp_value key.now) alg }
    {
        alg.takes(key.curve)
            && is_allowed_operation(key.ops, self.operation)
            && is_allowed_kid(key.kid, self.kid)
    }

    /// The algorithm of a key that fits.
    pub(crate) fn fitting_further(&self, key: &OkpKey) -> Option<FurtherAlg>
        ensures { option_map (λ alg. (okp_value key.now, alg)) result
            ≡ spec.fitting (question self.now) (okp_value key.now) }
    {
        let alg = self.further_with(key.alg)?;
        if self.fits_further(key, alg) {
            return Some(alg);
        }
        None
    }
}
