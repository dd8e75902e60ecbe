//! Comparing rows of two stores.

ghost use Rattle.std.specs.Prelude.{◌≡◌, ◌<◌, length, Decides, slice_index_or};
ghost use Rattle.store.specs.Piles.{no_row};
ghost use Rattle.store.specs.Stores.{pile_of};

use super::Store;

impl Store {
    /// Whether finished row `i` here and finished row `j` there are equal: in width, hash, and each run's
    /// text and style.
    pub fn same_row(&self, i: usize, other: &Store, j: usize) -> bool
        ensures { Decides result ((i < length (pile_of self.now).rows) × (j < length (pile_of other.now).rows) × (slice_index_or (pile_of self.now).rows i no_row ≡ slice_index_or (pile_of other.now).rows j no_row)) }
    {
        let (Some(here), Some(there)) = (self.rows().get(i), other.rows().get(j)) else {
            return false;
        };
        here.same(&there)
    }
}
