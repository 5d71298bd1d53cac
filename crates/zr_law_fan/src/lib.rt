//! Laws of samples under way in a network: the journey of each is its own, so whatever the order of the steps, the same lines are told, each as often,
//! and the same world is left. They are theorems over definitions, each the `ensures` of a function with an empty body.
#![tactic(auto)]

ghost use Rattle.zr_law_fan.specs.Plain.{FanIsPlain};
ghost use Rattle.zr_law_fan.specs.Samples.{RunsMove};

/// Each run of steps moves samples, and changes nothing else.
pub fn runs_move()
    ensures { RunsMove }
{}

/// What a fan tells and leaves is what any order of steps tells and leaves, once nothing is under way.
pub fn fan_is_plain()
    ensures { FanIsPlain }
{}
