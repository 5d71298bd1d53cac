//! A router of the running program: it is made under a name of its own, and served.
#![tactic(auto)]

pub mod serving;
