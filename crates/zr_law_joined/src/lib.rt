//! Laws of several routers that run each on its own: whether they are settled and joined is said of their run itself. The script's world that it is of is
//! settled and joined just then. Each law is the `ensures` of a function with an empty body.
#![tactic(auto)]

ghost use Rattle.zr_law_joined.specs.Laws.{RunsSettleAsWorlds, SettledRunsHavePhases};

/// A world to whose moment a run has come is settled just where the run is. Then its routers are joined just where each router of the run reaches each other
/// one by its own records.
pub fn runs_settle_as_worlds()
    ensures { RunsSettleAsWorlds }
{}

/// Where a run is settled and its routers are joined, all that follows without a change of links or declarations is a phase. So what was queued for each
/// client of samples and requests is, publisher by publisher, a prefix of what one broker sends it.
pub fn settled_runs_have_phases()
    ensures { SettledRunsHavePhases }
{}
