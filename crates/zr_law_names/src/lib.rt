//! What a router does depends on no name of its clients: neither on their identifiers, nor on what their links weigh, nor on the trees that they name. Each
//! law is the `ensures` of a function with an empty body.
#![tactic(auto)]

ghost use Rattle.zr_law_names.specs.Alike.{EventsAreAsThemselves, StepsAreAlike};
ghost use Rattle.zr_law_names.specs.Names.{NamesChangeNothing};
ghost use Rattle.zr_law_names.specs.Trees.{TreesChangeNothing};

/// A router whose clients have other identifiers, or links of other weights, does all the same: with each event it sends the same on each link,
/// refuses the same, and comes to the same tables, but for these identifiers and weights.
pub fn names_change_nothing()
    ensures { NamesChangeNothing }
{}

/// A sample or a query of a client that names a tree is handled as one that names none: the same is sent on each link, the same is refused, and the
/// router comes to the same tables.
pub fn trees_change_nothing()
    ensures { TreesChangeNothing }
{}

/// So a router that hears of events does what it does by others that are the same but for these names and trees, and for events without effect. This is
/// said event by event, so it holds also where a link's number is given again to another peer.
pub fn steps_are_alike()
    ensures { StepsAreAlike }
{}

/// Events are so what they are themselves.
pub fn events_are_as_themselves()
    ensures { EventsAreAsThemselves }
{}
