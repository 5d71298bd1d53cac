//! What a router shows of itself at a moment, and the pages that say it: a key and a payload each.
#![tactic(auto)]

mod glance;
mod space;

pub use glance::{Count, Glance, Parent};
pub use space::{Page, pages, space_key};
