//! What is to be served.

use zr_dial::Dial;
use zr_id::zid::Zid;

/// A router that is to run: its identifier, the address at which it listens, what it dials, in order, and whether its links have logs.
#[derive(Drop)]
pub struct ServePlan {
    pub id: Zid,
    pub listen: String,
    pub dials: Vec<Dial>,
    pub log: bool,
    /// Whether its administration space is open.
    pub admin: bool,
}
