//! Laws on the numbers of requests in a network: each the `ensures` of a function without parameters and with an empty body.
//! Who needs a law calls its function.
#![tactic(auto)]

ghost use Rattle.zr_law_settled.specs.Events.{NoEventIsRefused};
ghost use Rattle.zr_law_numbers.specs.Numbers.{NumbersAlwaysHold};
ghost use Rattle.zr_law_numbers.specs.Calls.{NoEventOfAnyWorldIsRefused, NoEventWithinAFanIsRefused};
ghost use Rattle.zr_law_numbers.specs.Taken.{StepsArePossible, AlwaysTaken};

/// At each moment each number of each unbroken link is free, or asked, or kept by the lower end with some replies on their way back, or ended with the
/// final behind them; so what both ends have of it agrees.
pub fn numbers_always_hold()
    ensures { NumbersAlwaysHold }
{}

/// No event of a script's world is refused by its router.
pub fn no_event_is_refused()
    ensures { NoEventIsRefused }
{}

/// No step of a run is refused, whatever lines came before.
pub fn steps_are_possible()
    ensures { StepsArePossible }
{}

/// At each moment to which acts lead no event that may come is refused by its router, of as many acts as a world takes.
pub fn always_taken()
    ensures { AlwaysTaken }
{}

/// In each world to which calls lead, fans and counted runs among them, no event that may come is refused by its router, of as many acts as a world takes.
pub fn no_event_of_any_world_is_refused()
    ensures { NoEventOfAnyWorldIsRefused }
{}

/// Nor is one within a fan, whatever the order of its steps.
pub fn no_event_within_a_fan_is_refused()
    ensures { NoEventWithinAFanIsRefused }
{}
