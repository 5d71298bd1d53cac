//! What one router knows of the change logs of all routers: how many changes, and what the clients there declare after them. The own log is
//! one of them. To whom changes are sent on is not known here.
#![tactic(auto)]

pub mod error;
pub mod known;
pub mod laws;
pub mod log;
mod place;
