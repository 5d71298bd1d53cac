//! What carries the messages of a script's network from its routers and clients to its routers: the trait, and its plain form. How messages are
//! written is not known here.
#![tactic(auto)]

pub mod carrier;
pub mod plain;
