//! Formats of the wire: what a format is, each way of putting formats together, and the laws of a format and its reader, as definitions. A
//! lemma for each way stands in `proofs/`, so the law of a message is put together as its format is. The code here is what each
//! message's code wants: the header byte, and extensions that a header tells.
#![tactic(auto)]

pub mod header;
mod reading;

pub use reading::read_extensions;
