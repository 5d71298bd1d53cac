//! `Outlets`: a port that knows the outlets of its links.
#![tactic(auto)]

mod outlets;

pub use outlets::Outlets;
