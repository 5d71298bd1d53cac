//! Scripts that are made from a number: a network of routers and clients as large as a plan says, and samples on it. Where such a script goes is
//! the caller's matter. The text is defined in `specs/Script.antt`.
#![tactic(auto)]

mod error;
mod line;
mod plan;
mod writing;

pub use error::MakeError;
pub use plan::MakePlan;
pub use writing::make;
