//! Orders: where each thing under way becomes what it would become alone, the order of the moves does not matter; and the same texts have one
//! ascending order. Theorems over any things, each the `ensures` of a function that takes types alone and has an empty body.
#![tactic(auto)]

ghost use Rattle.zr_orders.specs.Bag.{OrdersAreOne, PartsFit};
ghost use Rattle.zr_orders.specs.Ranked.{SortIsRanked, SortedAlike};

/// Whatever the order in which things move, once nothing is under way the same have moved, each as often.
pub fn one_order<X>()
    ensures { OrdersAreOne X }
{}

/// A run that has not ended has moved, and left under way, only what a run that has ended has moved.
pub fn parts_fit<X>()
    ensures { PartsFit X }
{}

/// The same things, each as often, have the same texts in ascending order.
pub fn sorted_alike<X>()
    ensures { SortedAlike X }
{}

/// What the library's sort gives of some texts is these texts in ascending order.
pub fn sort_is_ranked()
    ensures { SortIsRanked }
{}
