//! What stands for a history's list under a lock.
ghost use Rattle.std.specs.Prelude.{◌≡◌, [], ◌∷◌, length};
ghost use Rattle.zr_hist.specs.Rule.{kept_view, first_view};

use crate::rule::View;
use atomic_table::Badge;

/// It stands for the whole list of one history, and only who has it can append. It has no bytes but the list's length.
#[derive(Drop)]
pub struct Kept<E> {
    pub(crate) count: u64,
    pub(crate) badge: Badge<View<E>>,
    ghost whole: { badge.views ≡ kept_view (first_view badge.views).list ∷ [] },
    ghost counted: { count ≡ length (first_view badge.views).list },
}

impl<E> Kept<E> {
    ghost use Rattle.std.specs.Prelude.{◌==◌};
    ghost use Rattle.zr_hist.specs.Words.{most_entries, list_of};

    /// Whether the list has as many entries as a history can have.
    pub fn is_full(&self) -> bool
        ensures { result ≡ (length (list_of self.now) == most_entries) }
    {
        self.count == u64::MAX
    }

    /// How many entries the list has.
    pub fn count(&self) -> u64
        ensures { result ≡ length (list_of self.now) }
    {
        self.count
    }
}
