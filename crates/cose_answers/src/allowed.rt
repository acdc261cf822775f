//! Which of the usable keys of a set may be used.

ghost use Rattle.std.specs.Prelude.{◌≡◌, option_map};
ghost use Rattle.cose_map.specs.Restrictions.View.{numbers, restrictions_value};
ghost use Rattle.cose_answers.specs.Allowed.{allowed_value};

use cose_map::Restrictions;

/// Which keys may be used.
#[derive(Drop)]
pub struct Allowed {
    /// The numbers of the algorithms that are allowed, where there is a list of them.
    pub algorithms: Option<Vec<i128>>,
    /// The fewest bytes of a symmetric key.
    pub least_secret: usize,
}

/// The numbers of a list, where there is one.
fn slice_of_numbers(list: &Option<Vec<i128>>) -> Option<&[i128]>
    ensures { option_map numbers result ≡ option_map (λ list. list.items) list.now }
{
    match list {
        Some(list) => Some(list.as_slice()),
        None => None,
    }
}

impl Allowed {
    /// The same, as a table of keys takes it.
    pub fn borrowed(&self) -> Restrictions<'_>
        ensures { restrictions_value result ≡ allowed_value self.now }
    {
        Restrictions {
            algorithms: slice_of_numbers(&self.algorithms),
            least_secret: self.least_secret,
        }
    }
}
