//! Worked scripts: whole scripts, of several routers, with queries and with liveliness tokens too, and the texts of all messages, each worked out as a law:
//! the `ensures` of a function without parameters and with an empty body.
#![tactic(auto)]

pub mod networks;
pub mod queries;
pub mod rows;
pub mod texts;
pub mod tokens;
