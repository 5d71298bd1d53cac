//! The ends of links as code: what waits at each, and at which of them a step is possible.
//! Who stands at an end, what a router does with a message and how a carrier has it are not known here.
#![tactic(auto)]

pub mod drained;
pub mod end;
pub mod ends;
pub mod kind;
mod marks;
mod places;
mod queues;
mod totals;
mod waiting;
mod wires;
