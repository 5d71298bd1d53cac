//! Key expressions on the wire: a number that stands for a text that was declared before, and a suffix behind it.
#![tactic(auto)]

mod laws;
mod names;
mod reading;
mod scopes;
mod text;
mod writing;

pub use laws::{keys_are_read, keys_have_one_reading, names_are_heard, written_keys_are_read};
pub use names::{MOST_NAMES, Names};
pub use reading::{read_key, read_parts};
pub use scopes::{ScopeError, Scopes};
pub use writing::{D_KEYEXPR, DECLARE, write_key, write_name};
