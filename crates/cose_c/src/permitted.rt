//! The keys of a set that a caller permits: by their algorithm, and by the length of a secret.

ghost use Rattle.std.specs.Prelude.{◌≡◌, true, option_map};
ghost use Rattle.std.specs.List.{list_any};
ghost use Rattle.std.specs.Ordering.{int_eq};
ghost use Rattle.cose_head.specs.ItemRef.{placed};
ghost use Rattle.cose_map.specs.Choice.View.{question};
ghost use Rattle.cose_map.specs.Key.Value.{KeyValue};
ghost use Rattle.cose_map.specs.Key.View.{key_value, material_value};
ghost use Rattle.cose_map.specs.KeySet.{keys_of, usable};
ghost use Rattle.cose_map.specs.Label.View.{label_value};
ghost use Rattle.cose_map.specs.Map.View.{seen_by};
ghost use Rattle.cose_map.specs.Restrictions.{allows_material, is_among};
ghost use Rattle.cose_c.specs.Permitted as spec;
ghost use Rattle.cose_c.specs.Permitted.{permitted_in};
ghost use Rattle.cose_c.specs.PermittedView.{keys_permitted, permission_value};

use cose_head::{ItemRef, Reason, Refusal};
use cose_map::{Key, KeyMeaning, KeySet, Keys, Label, Material, Permits, Query};

/// The number of HMAC 256/64 (RFC 9053 section 3.1), whose tag has 64 bits.
const SHORT_MAC: i128 = 4;

/// Which keys a caller permits.
#[derive(Clone, Copy)]
pub(crate) struct Permission {
    /// The numbers of the algorithms one of which a key has to name; zeros name none, and with zeros alone none is stated.
    pub(crate) algorithms: [i32; 16],
    /// The least number of bytes of a secret.
    pub(crate) least_secret: u64,
    /// Whether, with no algorithms stated, keys for HMAC 256/64 are permitted.
    pub(crate) short_mac: bool,
    /// Whether, with no algorithms stated, keys that name no algorithm are permitted.
    pub(crate) without_alg: bool,
}

/// Whether an algorithm is stated.
fn is_stated(algorithms: &[i32]) -> bool
    ensures { result ≡ spec.is_stated algorithms.now }
{
    algorithms.iter().any(|number| *number != 0)
}

/// Whether a number is among these.
fn is_among_these(algorithms: &[i32], own: i128) -> bool
    ensures { result ≡ list_any (int_eq own) algorithms.now }
{
    'algorithms: for number in algorithms {
        if own == i128::from(*number) {
            return true;
        }
    }
    false
}

/// Whether the algorithm that a key names is one of these.
fn is_one_of(algorithms: &[i32], own: Option<Label<'_>>) -> bool
    ensures { result ≡ is_among algorithms.now (option_map label_value own.entry) }
{
    match own {
        Some(Label::Int(own)) => is_among_these(algorithms, own),
        _ => false,
    }
}

impl Permission {
    /// Whether a key that names this algorithm is permitted, where none is stated.
    fn permits_named(&self, own: Label<'_>) -> bool
        ensures { result
            ≡ spec.permits_named (permission_value self.now) (label_value own.entry) }
    {
        match own {
            Label::Int(number) => number != SHORT_MAC || self.short_mac,
            Label::Text(_) => true,
        }
    }

    /// Whether a key that names no algorithm is permitted, where none is stated. A secret could be used with HMAC 256/64 too.
    fn permits_unnamed(&self, material: &Material<'_>) -> bool
        ensures { result
            ≡ spec.permits_unnamed (permission_value self.now) (material_value material.now) }
    {
        match material {
            Material::Symmetric(_) => self.without_alg && self.short_mac,
            Material::Ec { .. } => self.without_alg,
        }
    }

    /// Whether the algorithm of a key is permitted.
    fn permits_algorithm(&self, key: &Key<'_>) -> bool
        ensures { result
            ≡ spec.permits_algorithm (permission_value self.now) (key_value key.now) }
    {
        if is_stated(&self.algorithms) {
            return is_one_of(&self.algorithms, key.alg);
        }
        match key.alg {
            Some(own) => self.permits_named(own),
            None => self.permits_unnamed(&key.material),
        }
    }

    /// Whether a secret is long enough. Points have the length of their curve.
    fn permits_material(&self, material: &Material<'_>) -> bool
        ensures { result
            ≡ allows_material self.now.least_secret (material_value material.now) }
    {
        match material {
            Material::Symmetric(secret) => self.least_secret <= secret.len() as u64,
            Material::Ec { .. } => true,
        }
    }

    /// Whether a key is permitted.
    pub(crate) fn permits(&self, key: &Key<'_>) -> bool
        ensures { result ≡ spec.permits (permission_value self.now) (key_value key.now) }
    {
        self.permits_algorithm(key) && self.permits_material(&key.material)
    }
}

impl Permits for Permission {
    ghost permitted = { λ permission. spec.permits (permission_value permission) };

    fn permits(&self, key: &Key<'_>) -> bool {
        Permission::permits(self, key)
    }
}

/// What permits each key.
pub(crate) fn everything() -> Permission
    ensures { (key : KeyValue) → spec.permits (permission_value result) key ≡ true }
{
    Permission {
        algorithms: [0; 16],
        least_secret: 0,
        short_mac: true,
        without_alg: true,
    }
}

/// The keys of a set that are permitted, each of which is read again at each look, as those of a key set are.
#[derive(Clone, Copy)]
pub(crate) struct PermittedKeys<'k> {
    set: KeySet<'k>,
    permission: Permission,
}

/// Whether an item is a usable key that is permitted and fits. It is never inlined: no key is on the stack while others are looked for.
#[inline(never)]
pub(crate) fn is_fitting(item: &ItemRef<'_>, query: &Query<'_>, permission: &Permission) -> bool
    ensures { result
        ≡ spec.is_fitting (question query.now) (permission_value permission.now)
        (usable (placed item.now)) }
{
    match Key::read(item.bytes, item.place) {
        Ok(key) => permission.permits(&key) && query.mismatch(&key).is_none(),
        Err(_) => false,
    }
}

impl<'k> PermittedKeys<'k> {
    /// Reads a key set (RFC 9052 section 7). It is refused as `KeySet::read` refuses it.
    pub(crate) fn read(
        bytes: &'k [u8],
        permission: Permission,
    ) -> Result<PermittedKeys<'k>, Refusal>
        ensures { seen_by keys_permitted result
            ≡ permitted_in (permission_value permission) (keys_of bytes.entry.now) }
    {
        let set = KeySet::read(bytes)?;
        Ok(PermittedKeys { set, permission })
    }

    /// Reads a key set of which no key is left out.
    pub(crate) fn read_all(bytes: &'k [u8]) -> Result<PermittedKeys<'k>, Refusal>
        ensures { seen_by keys_permitted result ≡ keys_of bytes.entry.now }
    {
        PermittedKeys::read(bytes, everything())
    }
}

impl KeyMeaning for PermittedKeys<'_> {
    ghost use Rattle.cose_c.specs.PermittedView.{keys_permitted};

    ghost usable = { keys_permitted };
}

impl<'k> Keys<'k> for PermittedKeys<'k> {
    fn find(&self, query: &Query) -> Result<(Key<'k>, i128), Reason> {
        self.set.find_permitted(query, &self.permission)
    }
}
