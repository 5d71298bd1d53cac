//! Messages between routers: the link record of a router, and what its clients declare, one change at a time or as a snapshot. They are this
//! project's own, and stand in OAM messages of the Zenoh protocol.
#![tactic(auto)]

mod decl;
mod gathered;
mod laws;
mod parts;
mod reading;
mod record;
mod writing;

pub use laws::{oam_has_one_reading, oam_is_read, spelled_oam_is_written, written_oam_is_read};
pub use parts::OAM;
pub use reading::read_oam;
pub use writing::write_oam;
