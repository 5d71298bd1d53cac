//! One router whole: what it does with each event, and behind that what its clients are told of others' declarations.
#![tactic(auto)]

mod counts;
mod failure;
mod handled;
pub mod hub;
mod places;
mod quiet;
mod room;
mod tell;
mod whole;
