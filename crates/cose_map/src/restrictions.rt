//! Which of the usable keys of a set may be used.

ghost use Rattle.std.specs.Prelude.{◌≡◌, option_map};
ghost use Rattle.cose_map.specs.Key.View.{key_value, material_value};
ghost use Rattle.cose_map.specs.Label.View.{label_value};
ghost use Rattle.cose_map.specs.Restrictions as spec;
ghost use Rattle.cose_map.specs.Restrictions.View.{restrictions_value};

use crate::key::Key;
use crate::key::material::Material;
use crate::label::Label;

/// Which of the usable keys a table takes: [`Restrictions`], or a rule of the caller's.
pub trait Permits {
    ghost use Rattle.std.specs.Prelude.{Bool};
    ghost use Rattle.cose_map.specs.Key.Value.{KeyValue};

    ghost permitted: { Self → KeyValue → Bool };

    /// Whether a key may be used.
    fn permits(&self, key: &Key<'_>) -> bool
        ensures { result ≡ Self.permitted self.now (key_value key.now) };
}

/// Which of the usable keys may be used. By default all of them.
#[derive(Clone, Copy, Debug, Default)]
pub struct Restrictions<'r> {
    /// The algorithms that are allowed, by their numbers; `None` allows any. A key has to name one of them as its own
    /// algorithm (alg, RFC 9052 section 7.1): a key that names none could be used with any.
    pub algorithms: Option<&'r [i128]>,
    /// The least number of bytes of a symmetric key (RFC 9053 section 3.1).
    pub least_secret: usize,
}

/// Whether the algorithm of a key is among those that are allowed.
fn is_allowed(allowed: &[i128], own: Option<Label<'_>>) -> bool
    ensures { result ≡ spec.is_among allowed.now (option_map label_value own.entry) }
{
    match own {
        Some(Label::Int(own)) => allowed.contains(&own),
        _ => false,
    }
}

impl Restrictions<'_> {
    /// Whether the algorithm of a key is allowed.
    fn allows_algorithm(&self, own: Option<Label<'_>>) -> bool
        ensures { result ≡ spec.allows_algorithm (restrictions_value self.entry.now).algorithms
            (option_map label_value own.entry) }
    {
        match self.algorithms {
            Some(allowed) => is_allowed(allowed, own),
            None => true,
        }
    }

    /// Whether a secret is long enough. Points have the length of their curve.
    fn allows_material(&self, material: &Material<'_>) -> bool
        ensures { result ≡ spec.allows_material self.entry.now.least_secret
            (material_value material.now) }
    {
        match material {
            Material::Symmetric(secret) => self.least_secret <= secret.len(),
            Material::Ec { .. } => true,
        }
    }

    /// Whether a key may be used.
    pub fn allows(&self, key: &Key<'_>) -> bool
        ensures { result ≡ spec.allows (restrictions_value self.entry.now) (key_value key.now) }
    {
        self.allows_algorithm(key.alg) && self.allows_material(&key.material)
    }
}

impl Permits for Restrictions<'_> {
    ghost permitted = { λ restrictions. spec.allows (restrictions_value restrictions) };

    fn permits(&self, key: &Key<'_>) -> bool {
        self.allows(key)
    }
}
