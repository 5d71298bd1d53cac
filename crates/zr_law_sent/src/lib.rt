//! Which messages may be passed on, and the law that they may be sent, by what the types of their parts keep. Lemmas on what a router sends stand
//! in its proofs (`Sent`): it may be passed on, where what came to the router may.
#![tactic(auto)]

mod types;

ghost use Rattle.zr_law_sent.specs.Passing.{PassableMaySend};

pub use types::of_types;

/// A message that may be passed on may be sent, where its parts are what their types keep.
#[tactic(auto, using(crate::proofs::Passing::may_be_sent))]
pub fn passable_may_be_sent()
    ensures { PassableMaySend }
{}
