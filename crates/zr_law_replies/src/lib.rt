//! Laws on replies and finals in a network: each the `ensures` of a function without parameters and with an empty body.
//! Who needs a law calls its function.
#![tactic(auto)]

ghost use Rattle.zr_guarantee.specs.Refines.{PhasesRefine};
ghost use Rattle.zr_guarantee.specs.Scripts.{LinesRefine};
ghost use Rattle.zr_law_replies.specs.Answers.{AnswersAlwaysHold};
ghost use Rattle.zr_law_replies.specs.ButLatest.{PhasesRefineButLatest};

/// At each moment each hop is of a query that was asked, and all that clients said and were sent of queries agrees with the hops.
pub fn answers_always_hold()
    ensures { AnswersAlwaysHold }
{}

/// From each accepted mark on, at every moment of its phase, in every order of steps, the network has done what one broker does: samples and requests of
/// one client to another come in one order, each query's replies come replier by replier in theirs, and its one final comes behind all of them.
/// Where a query asks for the latest it speaks of those phases alone whose replies a router may hold together; of the others `phases_refine_but_latest` does.
pub fn phases_refine()
    ensures { PhasesRefine }
{}

/// But for how queries for the latest are answered, this is so whatever clients reply: also samples, requests and all other queries of a phase with such a
/// query come as one broker sends them.
pub fn phases_refine_but_latest()
    ensures { PhasesRefineButLatest }
{}

/// So it is with every script's lines, a refused script's up to the line that is refused.
pub fn lines_refine()
    ensures { LinesRefine }
{}
