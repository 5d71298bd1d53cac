//! Sets of declarations, in ascending order by kind and key, and what declarations weigh. Whose they are is not known here.
#![tactic(auto)]

pub mod decl_set;
pub mod laws;
pub mod weight;
