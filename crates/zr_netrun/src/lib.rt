//! The run of a script: bytes of a source to lines, to steps of the world, to a report on a sink.
//! It streams: a line is applied as soon as it has ended, and its report is written before the next read.
#![tactic(auto)]

pub mod netrun;
pub mod options;
pub mod status;
