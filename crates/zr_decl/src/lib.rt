//! Declarations and interests: what a client declares, what a router tells it, and the numbers that stand for key expressions.
#![tactic(auto)]

mod declared;
mod interest;
mod laws;
mod parts;
mod reading;
mod writing;

pub use declared::Declared;
pub use interest::{read_asked, read_interest};
pub use laws::{
    declarations_are_read, declarations_have_one_reading, interests_are_read,
    interests_have_one_reading, spelled_declarations_are_written, spelled_interests_are_written,
    written_declarations_are_read, written_interests_are_read, written_names_are_read,
};
pub use parts::{INTEREST, NODE_ID, QOS, TIMESTAMP};
pub use reading::{read_decl, read_declare, read_wire_key};
pub use writing::write_decl;
