//! What the clients of one router have declared, what became new or last in the set of their declarations, and their live interests.
//! Other routers are not known here.
#![tactic(auto)]

pub mod changes;
pub mod clients;
pub mod error;
pub mod holder;
pub mod interest;
pub mod laws;
mod leaving;
pub mod local;
mod owners;
pub mod row;
