//! Bytes of the wire from left to right: variable-length numbers, and byte strings behind their length.
//! Formats made of these stand in the crates above.
#![tactic(auto)]

mod byte_string;
mod cursor;
mod laws;
mod number;
mod put;
mod read_error;

pub use byte_string::ByteString;
pub use cursor::Cursor;
pub use laws::{
    have_one_reading, numbers_are_judged, numbers_are_read, texts_are_read, written_is_shortest,
};
pub use put::{all_or_nothing, put_bytes, put_zint};
pub use read_error::ReadError;
