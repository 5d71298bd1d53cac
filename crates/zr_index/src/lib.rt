//! Pairs of a key expression and a value, kept in a tree of chunks, so that those that meet a key are found without looking at all.
#![tactic(auto)]

pub mod index;
mod node;
