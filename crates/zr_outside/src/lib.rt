//! The outside as the program sees it: where bytes come from and where they go, what time it is, and where links come from; and the
//! forms over std's readers and writers. Nothing of scripts or messages is known here.
#![tactic(auto)]

pub mod clock;
pub mod host;
pub mod log;
pub mod piece;
pub mod sink;
pub mod source;
pub mod std_streams;
