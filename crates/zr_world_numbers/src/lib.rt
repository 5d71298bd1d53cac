//! ClientNumbers in the order in which they came, each of which is found by an index.
#![tactic(auto)]

pub mod numbers;
