//! Batches on a stream of bytes: each stands behind its length. What stands in a batch is not known here.
#![tactic(auto)]

mod incoming;
mod laws;
mod put;

pub use incoming::{Incoming, MOST_IDLE, split_batch};
pub use laws::{streams_are_cut_once, streams_are_joined, written_batches_are_cut};
pub use put::{put_batch, put_parts};
