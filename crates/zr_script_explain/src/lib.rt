//! The explanation of a refused line of a script: the line, where it is wrong, and why, by the line and its refusal alone.
//! The text is defined in `specs/Explained.antt`.
#![tactic(auto)]

mod causes;
mod explaining;
mod forms;
mod laws;
mod places;
mod put;

pub use explaining::explain;
pub use laws::carets_are_under_faults;
