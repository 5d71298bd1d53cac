//! Which links a sample or a request goes on over, and what a sample sends there. A route is worked out from the tables alone, for a key, a
//! tree and what is sought of declarations. So routes are remembered, which spares the search for as long as the tables stay as they are.
#![tactic(auto)]

pub mod push;
pub mod route;
pub mod routes;
