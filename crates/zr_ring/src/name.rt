//! Which ring it is.

use zr_id::link::LinkNo;
use zr_id::zid::Zid;

/// The name of a ring: what a router queues for a link goes through it, where so many entries of the router's history came before the one that brought the
/// link up. So another link has a ring of another name, and so has one that came up earlier under the same number.
#[derive(Clone, Copy)]
pub struct RingName {
    pub router: Zid,
    pub link: LinkNo,
    pub since: u64,
}
