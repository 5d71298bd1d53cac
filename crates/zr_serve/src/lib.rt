//! Serving: a router listens and dials, and starts the reader of each link that comes. Where links come from, and the port at which they reach the
//! router, are its caller's.
#![tactic(auto)]

mod end;
mod lines;
mod links;
mod plan;
mod service;

pub use end::ServeEnd;
pub use plan::ServePlan;
pub use service::{Serving, serve};
