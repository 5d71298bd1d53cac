//! What a router sends of what routers tell each other. Of link records: its own to every other router where a link came or went, all of
//! them to a new neighbour, and one that is newer onward. Of declarations: changes and snapshots along the trees of their routers, and
//! snapshots to new children. How records and declarations are kept is not known here.
#![tactic(auto)]

pub mod children;
pub mod flood;
