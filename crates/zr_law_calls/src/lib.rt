//! Laws on the worlds to which calls lead: in them an act is refused for its limits alone, and never because a router would refuse an event.
//! Who needs a law calls its function.
#![tactic(auto)]

ghost use Rattle.zr_law_calls.specs.Limits.{OnlyLimitsAreMet};

/// In a world to which calls lead, an act is answered `Limit` only where it would pass a limit on the world.
pub fn only_limits_are_met()
    ensures { OnlyLimitsAreMet }
{}
