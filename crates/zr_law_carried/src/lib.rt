//! Laws on what waits in a script's world: each message on a wire, or in a queue towards a router, may be sent by who sends it.
//! Who needs a law calls its function.
#![tactic(auto)]

ghost use Rattle.zr_law_carried.specs.Carriable.{ReachedIsCarriable};
ghost use Rattle.zr_law_carried.specs.Lines.{LineActsFit};

/// In a world to which calls of fit acts lead, what waits may be carried.
#[tactic(auto, using(crate::proofs::Reached::reached_carriable))]
pub fn reached_is_carriable()
    ensures { ReachedIsCarriable }
{}

/// What a client sends by an act of a line may be passed on.
#[tactic(auto, using(crate::proofs::Lines::line_act_fits))]
pub fn line_acts_fit()
    ensures { LineActsFit }
{}
