//! A judge of reports: a plain slow program that answers whether the network refines one broker at a moment.
//! It is no part of the product. It shows that the definition can be evaluated, and which reports it refuses.
#![tactic(auto)]

mod answers;
mod broker;
pub mod judge;
mod latest;
mod queries;
mod same;
mod sent;
