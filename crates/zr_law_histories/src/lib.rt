//! The laws of running routers over the entries of their histories: they are a script's world, what their links are given are the messages that they
//! send, and what they keep of what clients were told is what these messages leave. Each law is the `ensures` of a function without parameters and with
//! an empty body.
#![tactic(auto)]

ghost use Rattle.zr_law_histories.specs.Histories.{RunningRoutersAreAWorld};
ghost use Rattle.zr_law_histories.specs.Maps.{ReplayedMapsAreHeard};
ghost use Rattle.zr_law_histories.specs.Packing.{QueuesArePacked};

/// Each run of several running routers is the run of a script's world, in which each router's tables are the replay of its own history.
pub fn running_routers_are_a_world()
    ensures { RunningRoutersAreAWorld }
{}

/// Where a history leaves nothing out and closes no link, what it queues for a link that is up are the parcels of the messages that its router sends there.
pub fn queues_are_packed()
    ensures { QueuesArePacked }
{}

/// After each legal history a router keeps of each client that it has a link to what all messages leave that it has sent there since the link came up,
/// number by number; and nothing of any other link.
pub fn replayed_maps_are_heard()
    ensures { ReplayedMapsAreHeard }
{}
