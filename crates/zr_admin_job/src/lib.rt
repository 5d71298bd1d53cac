//! The thread of a router's inner client, as a crew runs it.
#![tactic(auto)]

mod inner;

pub use inner::{HandedBack, InnerJob, hand_over_inner};
