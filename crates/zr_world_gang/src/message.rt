//! Samples of a share.

use zr_id::link::LinkNo;
use zr_id::zid::Zid;
use zr_msg::msg::Msg;

/// A sample that waits to be handled: from which link and neighbour, and its tag.
#[derive(Drop)]
pub struct Waiting {
    pub from: LinkNo,
    pub name: Zid,
    pub msg: Msg,
    pub tag: u64,
}

/// A sample that was sent to a router, with its tag.
#[derive(Drop)]
pub struct Sending {
    pub to: Zid,
    pub msg: Msg,
    pub tag: u64,
}
