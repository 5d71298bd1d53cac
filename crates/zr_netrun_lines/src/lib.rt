//! The run of a script, as its lines come: each line that has ended is applied to a world, and its report is written or counted.
#![tactic(auto)]

pub mod runner;
