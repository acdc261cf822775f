//! A set of numbers, in increasing order in an array of fixed size.

ghost use Rattle.std.specs.Prelude.{◌≡◌, ℕ, [], true, false, length, nat_lt, ◌==◌, ◌&&◌, ◌||◌, not};
ghost use Rattle.cose_map.specs.Map.Labels as spec;

use arrayvec::ArrayVec;

/// At most 24 numbers.
#[derive(Drop)]
pub(crate) struct Keys {
    pub(crate) sorted: ArrayVec<u128, 24>,
    /// Each is greater than the one before it.
    pub ghost rising: { spec.rises sorted.items ≡ true },
}

/// Where a number is, or else where it belongs.
fn place_of(keys: &[u128], key: u128) -> Result<usize, usize>
    requires rising { spec.rises keys.now ≡ true }
    ensures { spec.IsPlace key keys.now result }
{
    keys.binary_search(&key)
}

impl Keys {
    /// No numbers.
    pub(crate) fn none() -> Keys
        ensures { result.sorted.items ≡ [] }
    {
        Keys {
            sorted: ArrayVec::new(),
        }
    }

    /// Removes all numbers.
    pub(crate) fn clear(&mut self)
        ensures { self.new.sorted.items ≡ [] }
    {
        self.sorted.clear();
    }

    /// Whether there is room for one more.
    pub(crate) fn has_room(&self) -> bool
        ensures { result ≡ nat_lt (length self.now.sorted.items) 24 }
    {
        self.sorted.len() < 24
    }

    /// Whether a number is in the set.
    pub(crate) fn has(&self, key: u128) -> bool
        ensures { result ≡ spec.is_in key self.now.sorted.items }
    {
        place_of(self.sorted.as_slice(), key).is_ok()
    }

    /// Adds a number.
    pub(crate) fn add(&mut self, key: u128)
        requires room { nat_lt (length self.old.sorted.items) 24 ≡ true }
        ensures added { (other : ℕ) → spec.is_in other self.new.sorted.items
            ≡ ((other == key) || spec.is_in other self.old.sorted.items) }
    {
        if let Err(index) = place_of(self.sorted.as_slice(), key) {
            self.sorted.insert(index, key);
        }
    }

    /// Removes a number, and returns whether it was in the set.
    pub(crate) fn remove(&mut self, key: u128) -> bool
        ensures was { result ≡ spec.is_in key self.old.sorted.items }
        ensures removed { (other : ℕ) → spec.is_in other self.new.sorted.items
            ≡ (spec.is_in other self.old.sorted.items && not (other == key)) }
    {
        match place_of(self.sorted.as_slice(), key) {
            Ok(index) => {
                self.sorted.remove(index);
                true
            }
            Err(_) => false,
        }
    }
}
