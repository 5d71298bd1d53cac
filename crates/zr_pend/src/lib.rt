//! The pending requests of one router: who asked each request that was passed on, and the links that have not finished it.
//! For requests for the latest replies alone it holds these. Which of two replies is the later one isn't known here.
#![tactic(auto)]

pub mod gathering;
mod gatherings;
pub mod pending;
pub mod replies;
