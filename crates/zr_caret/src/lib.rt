//! How a line is shown that is wrong somewhere: its bytes, and a caret under the place.
#![tactic(auto)]

mod place;
mod put;

pub use place::place_of_word;
pub use put::{put_caret, put_shown};
