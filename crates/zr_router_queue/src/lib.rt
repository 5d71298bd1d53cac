//! What a running router queues for its links: which lists of entries its history can be, what each of them queues for a link, and how an event is
//! packed, planned, entered and given to the links' rings.
#![tactic(auto)]

mod event;
mod link_batches;
mod link_end;
mod note;
mod pack;
mod plan;
mod queue;
mod same_sample;
mod scratch;
mod written;

pub use event::{enter, prepare};
pub use link_end::{Closing, LinkSender};
pub use note::{Queued, is_queued};
pub use plan::may_drop;
pub use queue::{LinkOf, parcels_stay_queued};
