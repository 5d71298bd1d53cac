//! Packing messages into batches: which messages a router may write, how each is written, and the batches of several. Between routers the texts of keys get
//! numbers. No link and no ring is known here.
#![tactic(auto)]

mod message;
mod naming;
mod packing;

pub use message::{FEW_BYTES, message_bytes, numbered_bytes};
pub use naming::{Mark, NamingOutbox};
pub use packing::pack;
