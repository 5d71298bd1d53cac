//! The administration space of a router: an inner client, attached to the router's port, that answers requests from a glance at the router.
#![tactic(auto)]

mod admin;
mod answering;
mod asked;
mod delivering;
mod error;
mod hearing;
mod inner;

pub use admin::Admin;
pub use asked::Asked;
pub use error::{AdminEnd, AdminError, Stepped};
pub use hearing::{Heard, Hearing};
