//! A crew: it starts a thread for each job that it is given. It is a struct with a generic `start` and no trait, since a trait's method can't start
//! a thread for a job of a type parameter.
#![tactic(auto)]

mod busy;
mod crew;
mod job;

pub use crew::Crew;
pub use job::Job;
