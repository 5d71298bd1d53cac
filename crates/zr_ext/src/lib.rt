//! Extensions of messages and bodies: chains of small values that a reader may not know. A known one is kept, an
//! unknown one is skipped, and refused where it is mandatory.
#![tactic(auto)]

mod ext;
mod header;
mod laws;
mod reading;
mod writing;

pub use ext::{Content, Ext, Form};
pub use laws::{chains_are_read, chains_have_one_reading, written_chains_are_read};
pub use reading::{read_chain, skip_chain, skip_content};
pub use writing::write_chain;
