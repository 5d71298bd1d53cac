//! The rules of a router, read from an input, and what is told where it gives none.
#![tactic(auto)]

mod explaining;
mod laws;
mod rules;
mod telling;

pub use laws::{carets_are_under_wrong_keys, carets_are_under_wrong_words};
pub use rules::{RulesError, read_rules};
pub use telling::{RulesEnd, tell_refusal};
