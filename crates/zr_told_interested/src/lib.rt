//! Whose interests meet what was declared, so that of all interests only those are looked at.
#![tactic(auto)]

mod by_key;
pub mod interested;
