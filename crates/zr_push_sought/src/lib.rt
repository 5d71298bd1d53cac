//! What a sample or a request seeks of declarations: whether the client of a link has declared it, and which neighbours are on the way in a
//! tree to the routers whose clients have.
#![tactic(auto)]

pub mod client_rows;
pub mod found;
pub mod holders;
pub mod hops;
mod keeping;
mod kind_index;
pub mod search;
pub mod sought;
