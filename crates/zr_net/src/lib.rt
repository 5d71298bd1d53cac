//! Network messages: samples, requests, replies and their ends, and by way of the crate below declarations and interests. Messages between routers stand
//! apart.
#![tactic(auto)]

mod exts;
mod laws;
mod parts;
mod reading;
mod writing;

pub use laws::{
    net_has_one_reading, net_is_read, spelled_net_is_written, written_names_are_read,
    written_net_is_read,
};
pub use parts::{REQUEST, RESPONSE};
pub use reading::read_net;
pub use writing::{write_front, write_net};
