//! Access rules: what a client may declare, send and ask for. They are read from a text, and judge one act of one client at a time.
#![tactic(auto)]

mod fault;
pub mod laws;
mod line;
mod message;
mod policy;
mod reading;
mod word;

pub use fault::{PolicyError, PolicyFault};
pub use line::MOST_LINE;
pub use policy::{Act, DefaultRule, Policy, Rule, Verdict};
