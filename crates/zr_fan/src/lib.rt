//! Routers on threads: a gang that handles the shares of a round on several threads, and leaves them as one thread does.
#![tactic(auto)]

pub mod threaded;
pub mod watch;
