//! What waits of a report: its lines counted, or their texts kept and written.
#![tactic(auto)]

pub mod counts;
pub mod nowhere;
pub mod waiting;
