//! Plain data of routers: messages, events and peers. What they do stands above.
#![tactic(auto)]

pub mod content;
pub mod decl;
pub mod error;
pub mod event;
pub mod extras;
pub mod msg;
pub mod peer;
pub mod shared;
