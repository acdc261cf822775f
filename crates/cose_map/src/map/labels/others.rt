//! A set of a few labels, in the order in which they were added.

ghost use Rattle.std.specs.Prelude.{◌≡◌, [], true, false, length, map, nat_lt, ◌&&◌, ◌||◌, not};
ghost use Rattle.cose_map.specs.Label.{LabelValue, same_label};
ghost use Rattle.cose_map.specs.Label.View.{label_value};
ghost use Rattle.cose_map.specs.Map.Labels as spec;

mod other;

use crate::label::Label;
use crate::map::labels::others::other::Other;
use arrayvec::ArrayVec;

/// At most 6 labels.
#[derive(Drop)]
pub(crate) struct Others<'a> {
    pub(crate) labels: ArrayVec<Other<'a>, 6>,
    /// No label is in it twice.
    pub ghost distinct: { spec.differ (map (λ other. label_value other.label) labels.items)
        ≡ true },
}

/// The place of the first that is the label.
fn place_of(others: &[Other<'_>], name: &Label<'_>) -> Option<usize>
    ensures { spec.IsFirst (label_value name.now)
        (map (λ other. label_value other.label) others.now) result }
{
    let mut place = 0;
    'others: for other in others {
        if name.is_same(&other.label) {
            return Some(place);
        }
        place += 1;
    }
    None
}

impl<'a> Others<'a> {
    ghost use Rattle.cose_map.specs.Map.Labels.View.{labels_in};

    /// No labels.
    pub(crate) fn none() -> Others<'a>
        ensures { labels_in result ≡ [] }
    {
        Others {
            labels: ArrayVec::new(),
        }
    }

    /// Removes all labels.
    pub(crate) fn clear(&mut self)
        ensures { labels_in self.new ≡ [] }
    {
        self.labels.clear();
    }

    /// Whether there is room for one more.
    pub(crate) fn has_room(&self) -> bool
        ensures { result ≡ nat_lt (length (labels_in self.now)) 6 }
    {
        self.labels.len() < 6
    }

    /// Whether a label is in the set.
    pub(crate) fn has(&self, name: &Label<'_>) -> bool
        ensures { result ≡ spec.is_among (label_value name.now) (labels_in self.now) }
    {
        place_of(self.labels.as_slice(), name).is_some()
    }

    /// Adds a label.
    pub(crate) fn add(&mut self, name: Label<'a>)
        requires room { nat_lt (length (labels_in self.old)) 6 ≡ true }
        ensures added { (other : LabelValue) → spec.is_among other (labels_in self.new)
            ≡ (same_label other (label_value name.entry)
            || spec.is_among other (labels_in self.old)) }
    {
        if self.has(&name) {
            return;
        }
        self.labels.push(Other { label: name });
    }

    /// Removes a label, and returns whether it was in the set.
    pub(crate) fn remove(&mut self, name: &Label<'_>) -> bool
        ensures was { result ≡ spec.is_among (label_value name.now) (labels_in self.old) }
        ensures removed { (other : LabelValue) → spec.is_among other (labels_in self.new)
            ≡ (spec.is_among other (labels_in self.old)
            && not (same_label other (label_value name.now))) }
    {
        match place_of(self.labels.as_slice(), name) {
            Some(index) => {
                self.labels.remove(index);
                true
            }
            None => false,
        }
    }
}
