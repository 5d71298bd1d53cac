//! What a seat at a history's word knows, and the rule that all views keep.
use atomic_table::TableRule;
use std::collections::LinkedList;

/// What a seat knows. It is named in contracts, and no value of it is made.
pub struct View<E> {
    /// A prefix of the list.
    pub seen: LinkedList<E>,
    /// The entries that this seat appended.
    pub mine: LinkedList<E>,
    /// The whole list, where this seat may append; what another pass had seen, while two are joined.
    pub list: LinkedList<E>,
    /// How often this seat looked at the list.
    pub looks: u64,
    /// Whether this seat may append.
    pub is_kept: bool,
    /// Whether this seat is a pass.
    pub is_pass: bool,
}

pub struct OneList;

impl<E> TableRule<E, View<E>, ()> for OneList {
    ghost use Rattle.std.specs.Prelude.{[]};
    ghost use Rattle.zr_hist.specs.Rule.{IsOneList, kept_view};

    ghost holds = { λ _. IsOneList };

    ghost first = { λ _. kept_view [] };
}
