//! What a message requires of its key, and whether a key fits (RFC 9052 section 7.1).

ghost use Rattle.std.specs.Prelude.{◌≡◌, option_map, option_and_then};
ghost use Rattle.cose_map.specs.Choice.{fitting as fitting_key, none_fits, fits as fits_key, is_known, is_answerable as is_answerable_query, algorithm_used, integer_in_label, allows_kid, allows_algorithm, allows_operation, is_for as is_for_algorithm};
ghost use Rattle.cose_map.specs.Key.View.{contents, material_value, key_value, operations_of};
ghost use Rattle.cose_map.specs.Label.View.{label_value};
ghost use Rattle.cose_map.specs.Label.{number};
ghost use Rattle.cose_map.specs.Choice.View.{question};

use crate::choice::algorithm::{algorithm_of, is_of_type};
use crate::key::Key;
use crate::key::material::Material;
use crate::key::operations::Ops;
use crate::label::Label;
use cose_head::{Alg, Kind, Reason};

/// What a message requires of its key.
#[derive(Clone, Copy, Debug)]
pub struct Query<'q> {
    /// The kind of the message.
    pub kind: Kind,
    /// The operation that the key must allow, if it lists operations: 10 verifies a MAC, and 2 a signature.
    pub operation: i128,
    /// The algorithm that the protected bucket names.
    pub protected_alg: Option<Label<'q>>,
    /// The algorithm that the unprotected bucket names. It is used only where the key's own is the same.
    pub unprotected_alg: Option<Label<'q>>,
    /// The key identifier of either bucket.
    pub kid: Option<&'q [u8]>,
}

/// Whether a label names an algorithm for messages of the kind.
fn is_known_algorithm(kind: Kind, label: Label) -> bool
    ensures { result ≡ is_known kind (label_value label.entry) }
{
    match label {
        Label::Int(algorithm) => algorithm_of(kind, algorithm).is_some(),
        Label::Text(_) => false,
    }
}

/// Whether the material is of the type that the algorithm requires, if there is an algorithm.
fn is_for(material: &Material, algorithm: Option<Alg>) -> bool
    ensures { result ≡ is_for_algorithm (material_value material.now) algorithm }
{
    match algorithm {
        Some(alg) => is_of_type(material, alg.key_type()),
        None => false,
    }
}

/// Whether this is the key's own algorithm, if it names one.
pub(crate) fn is_allowed_algorithm(own: Option<Label>, algorithm: i128) -> bool
    ensures { result ≡ allows_algorithm (option_map label_value own.entry) (number algorithm) }
{
    match own {
        Some(Label::Int(own)) => own == algorithm,
        Some(Label::Text(_)) => false,
        None => true,
    }
}

/// Whether a key's operations, if it lists them, contain this one.
pub(crate) fn is_allowed_operation(own: Option<Ops>, operation: i128) -> bool
    ensures { result ≡ allows_operation (option_map operations_of own.entry) operation }
{
    own.is_none_or(|own| own.holds(operation))
}

/// Whether two identifiers are equal, where both are present.
pub(crate) fn is_allowed_kid(own: Option<&[u8]>, asked: Option<&[u8]>) -> bool
    ensures { result ≡ allows_kid (option_map contents own.entry)
        (option_map contents asked.entry) }
{
    match (own, asked) {
        (Some(own), Some(asked)) => own == asked,
        _ => true,
    }
}

/// The number of the label, if it is an integer.
fn number_of(label: Label) -> Option<i128>
    ensures { result ≡ integer_in_label (label_value label.entry) }
{
    match label {
        Label::Int(algorithm) => Some(algorithm),
        Label::Text(_) => None,
    }
}

/// The algorithm that the unprotected bucket names, if the key's own is equal.
fn confirmed(own: Option<Label>, unprotected: Label) -> Option<i128>
    ensures { result ≡ option_and_then integer_in_label
        (algorithm_used None (Some (label_value unprotected.entry))
        (option_map label_value own.entry)) }
{
    match own {
        Some(own) if own.is_same(&unprotected) => number_of(unprotected),
        _ => None,
    }
}

impl<'q> Query<'q> {
    /// Whether the message names no algorithm, or one for messages of its kind.
    pub(crate) fn is_answerable(&self) -> bool
        ensures { let q = question self.now in
            result ≡ is_answerable_query q.kind q.protected_alg q.unprotected_alg }
    {
        match (self.protected_alg, self.unprotected_alg) {
            (Some(protected), _) => is_known_algorithm(self.kind, protected),
            (None, Some(unprotected)) => is_known_algorithm(self.kind, unprotected),
            (None, None) => true,
        }
    }

    /// The algorithm that a key is used with, which names this one as its own, if it names one.
    pub(crate) fn algorithm_by(&self, own: Option<Label>) -> Option<i128>
        ensures { let q = question self.now in
            result ≡ option_and_then integer_in_label
            (algorithm_used q.protected_alg q.unprotected_alg (option_map label_value own.entry)) }
    {
        match (self.protected_alg, self.unprotected_alg) {
            (Some(protected), _) => number_of(protected),
            (None, Some(unprotected)) => confirmed(own, unprotected),
            (None, None) => number_of(own?),
        }
    }

    /// The algorithm that the key is used with.
    pub(crate) fn algorithm_for(&self, key: &Key) -> Option<i128>
        ensures { let q = question self.now in
            result ≡ option_and_then integer_in_label
            (algorithm_used q.protected_alg q.unprotected_alg (key_value key.now).alg) }
    {
        self.algorithm_by(key.alg)
    }

    /// Whether the key may be used with the algorithm.
    fn fits(&self, key: &Key, algorithm: i128) -> bool
        ensures { result ≡ fits_key (question self.now) (key_value key.now) algorithm }
    {
        // What most keys of a set fail comes first: its algorithm is another, or its identifier.
        is_allowed_algorithm(key.alg, algorithm)
            && is_allowed_kid(key.kid, self.kid)
            && is_for(&key.material, algorithm_of(self.kind, algorithm))
            && is_allowed_operation(key.ops, self.operation)
    }

    /// The algorithm of a key that fits.
    pub(crate) fn fitting(&self, key: &Key) -> Option<i128>
        ensures { option_map (λ algorithm. (key_value key.now, algorithm)) result
            ≡ fitting_key (question self.now) (key_value key.now) }
    {
        match self.algorithm_for(key) {
            Some(algorithm) if self.fits(key, algorithm) => Some(algorithm),
            _ => None,
        }
    }

    /// Why no key fits.
    pub(crate) fn no_key(&self) -> Reason
        ensures { let q = question self.now in
            result ≡ none_fits q.protected_alg q.unprotected_alg }
    {
        match (self.protected_alg, self.unprotected_alg) {
            (Some(_), _) => Reason::NoKey,
            (None, Some(_)) => Reason::AlgUnprotected,
            (None, None) => Reason::NoAlg,
        }
    }
}
