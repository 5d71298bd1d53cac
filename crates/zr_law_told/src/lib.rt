//! Laws on what clients are told of each other: each the `ensures` of a function without parameters and with an empty body. Who needs a law calls
//! its function.
#![tactic(auto)]

ghost use Rattle.zr_guarantee.specs.Interests.{ClientsAreTold, TokensAreTold};
ghost use Rattle.zr_guarantee.specs.Scripts.{LinesTellClients, LinesTellTokens};
ghost use Rattle.zr_law_told.specs.Maps.{ToldMapsAreHeard};

/// At each moment to which acts lead: where the network is at rest, each attached client was told, by the messages that it was sent, just what its
/// interests want of what all other attached clients have declared.
pub fn clients_are_told()
    ensures { ClientsAreTold }
{}

/// So it is at each moment of each script, also within a run.
pub fn lines_tell_clients()
    ensures { LinesTellClients }
{}

/// Of liveliness tokens each attached client was told, at each such moment, just what its interests want of those that live: that other clients have
/// declared whose links aren't broken.
pub fn tokens_are_told()
    ensures { TokensAreTold }
{}

/// So it is at each moment of each script, also within a run.
pub fn lines_tell_tokens()
    ensures { LinesTellTokens }
{}

/// At each moment to which acts lead, each router keeps of each client that it has a link to what all messages leave that it has put for that client,
/// number by number; and nothing of any other link.
pub fn told_maps_are_heard()
    ensures { ToldMapsAreHeard }
{}
