//! Laws of fans of scripts: the worlds that scripts reach meet what the laws of samples under way ask of a world. Each is the `ensures` of a function
//! with an empty body.
#![tactic(auto)]

ghost use Rattle.zr_law_fans.specs.Scripts.{FansArePlain, FansEnd, ScriptsAreCalm};

/// At each moment to which acts lead a sample changes nothing of a router, nobody is told anything of it, and it is taken.
pub fn scripts_are_calm()
    ensures { ScriptsAreCalm }
{}

/// Where a fan is accepted, any order of steps until nothing is under way tells the lines of the fan, and leaves its world.
pub fn fans_are_plain()
    ensures { FansArePlain }
{}

/// Where a fan is accepted, nothing is under way behind it, and no step is possible: 2,300,000 steps are enough for all samples.
pub fn fans_end()
    ensures { FansEnd }
{}
