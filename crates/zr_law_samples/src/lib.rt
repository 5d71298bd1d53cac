//! Samples come as one broker sends them; the lines of a script lead to moments; what keys and runs mean. Each law is the `ensures` of a
//! function without parameters and with an empty body. Who needs a law calls its function.
#![tactic(auto)]

pub mod keys;
pub mod refines;
pub mod runs;
