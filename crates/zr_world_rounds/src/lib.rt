//! The rounds of a fan: what waits at ends begins at the shares of their routers, the gang handles shares round by round, and their lines are told.
#![tactic(auto)]

pub mod begin;
pub mod fan;
pub mod pass;
pub mod receive;
pub mod rounds;
pub mod told;
