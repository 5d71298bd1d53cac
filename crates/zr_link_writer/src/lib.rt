//! The writer of a link: what a taker takes of the link's ring goes to a sink, several parcels in one write, with KEEP_ALIVEs where nothing goes.
#![tactic(auto)]

mod close;
mod end;
mod joined;
mod outlet;
mod step;
mod told;
mod turn;
mod turns;
mod writer;

pub use close::close_batch;
pub use end::WriterEnd;
pub use outlet::Outlet;
pub use turn::Turn;
pub use turns::WriterTurns;
pub use writer::Writer;
