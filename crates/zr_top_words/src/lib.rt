//! The program's words: `clap` reads them, and what they ask for is the values of its matches.
#![tactic(auto)]

pub mod commands;
pub mod forms;
mod number;
pub mod plan;
pub mod reading;
pub mod wrong;
