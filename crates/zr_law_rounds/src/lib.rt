//! Laws of the rounds of a fan: what shares do are moves of samples, each where it can go. They are theorems over definitions, each the `ensures` of a
//! function with an empty body.
#![tactic(auto)]

ghost use Rattle.zr_law_rounds.specs.Ordered.{PartsAreRanked};
ghost use Rattle.zr_law_rounds.specs.Rounds.{RoundsGo, SharesGo};
ghost use Rattle.zr_law_rounds.specs.Told.{AllHaveBegun, EndGoes, PassGoes, RoundGoes, RoundsTell, StartGoes, TurnTells};

/// A share that handles its input moves what waits there, and what its router sends for it.
pub fn shares_go()
    ensures { SharesGo }
{}

/// So does each of the shares of a round.
pub fn rounds_go()
    ensures { RoundsGo }
{}

/// New shares have told nothing, and all samples still wait at the ends.
pub fn start_goes()
    ensures { StartGoes }
{}

/// Where an end begins, what is on its wire waits at its router, and what is queued is taken.
pub fn end_goes()
    ensures { EndGoes }
{}

/// Where all ends have begun, all samples have moved that wait at no share.
pub fn all_have_begun()
    ensures { AllHaveBegun }
{}

/// Where what went to routers comes to wait there, nothing moves.
pub fn pass_goes()
    ensures { PassGoes }
{}

/// A round goes on from what shares have told before.
pub fn round_goes()
    ensures { RoundGoes }
{}

/// Once nothing waits at any share, their lines are what a fan tells.
pub fn rounds_tell()
    ensures { RoundsTell }
{}

/// Where shares tell their lines, those of each stand in order, and none is lost.
pub fn turn_tells()
    ensures { TurnTells }
{}

/// Texts in parts, each of which stands behind the one before, are in order where each part is.
pub fn parts_are_ranked()
    ensures { PartsAreRanked }
{}
