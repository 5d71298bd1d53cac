//! `BriefSink`: a sink that can be written to without waiting long for room.
#![tactic(auto)]

mod brief;

pub use brief::{Brief, BriefSink};
