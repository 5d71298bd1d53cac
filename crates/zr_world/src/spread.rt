//! What a router has sent comes into the queues at its ends.

ghost use Rattle.std.specs.Prelude.{◌≡◌, OnOk};
ghost use Rattle.zr_world_ends.specs.Spread.{queued_on, all_queued_on};

use crate::router::WorldRouter;
use std::alloc::AllocError;
use zr_carrier::carrier::Carrier;
use zr_id::link::LinkNo;
use zr_id::zid::Zid;
use zr_msg::msg::Msg;
use zr_world_ends::ends::Ends;

/// Each message is queued for the neighbour of its link. The list of them is empty then, and keeps its memory.
pub fn spread<C: Carrier>(
    router: &WorldRouter,
    name: Zid,
    ends: &mut Ends<C>,
    out: &mut Vec<(LinkNo, Msg)>,
    tag: u64,
) -> Result<(), AllocError>
    ensures { OnOk result (ends.new ≡ all_queued_on router.now.node.links ends.old name out.old.items tag) }
{
    for (link, msg) in out.drain(..) {
        enqueue(router, name, ends, link, msg, tag)?;
    }
    Ok(())
}

fn enqueue<C: Carrier>(
    router: &WorldRouter,
    name: Zid,
    ends: &mut Ends<C>,
    link: LinkNo,
    msg: Msg,
    tag: u64,
) -> Result<(), AllocError>
    ensures { OnOk result (ends.new ≡ queued_on router.now.node.links ends.old name link msg tag) }
{
    match router.peer_at(link) {
        Some(peer) => ends.enqueue((name, peer.id), msg, tag),
        None => Ok(()),
    }
}
