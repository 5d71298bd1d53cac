//! What a seat at a ring's table knows, and the rule that all views keep.
ghost use Rattle.std.specs.Prelude.{ℕ};
ghost use Rattle.zr_ring.specs.declared.name.RingName.{RingName};

use crate::name::RingName;
use atomic_table::TableRule;
use std::collections::LinkedList;

/// What goes through a ring has a place in it, and may stand there in some rings alone.
pub trait HasPlace {
    ghost stands: { RingName → ℕ → Self → Type 0 };
}

/// What one end knows. It is named in contracts, and no value of it is made.
pub struct EndView<X> {
    /// Whether the seat is this end's.
    pub is_here: bool,
    /// Which ring it is.
    pub name: RingName,
    /// Whether the end holds a slot.
    pub holds: bool,
    /// What it gave, or took.
    pub list: LinkedList<X>,
    /// The other end's count, as it was loaded last.
    pub known: u64,
    /// How often it was loaded.
    pub loads: u64,
}

/// What a seat knows: mostly as one of the two ends.
pub struct View<X> {
    pub giver: EndView<X>,
    pub taker: EndView<X>,
}

pub struct RingRule;

impl<X: HasPlace> TableRule<Option<X>, View<X>, RingName> for RingRule {
    ghost use Rattle.std.specs.Prelude.{[], false};
    ghost use Rattle.zr_ring.specs.Rule.{IsRing, end_view, view};

    ghost holds = { λ _. IsRing X.stands };

    ghost first = { λ name. view (end_view name false [] 0 0) (end_view name false [] 0 0) };
}
