//! What the router itself does with an event.

ghost use Rattle.std.specs.Prelude.{◌≡◌, false, Err};
ghost use Rattle.zr_node_spec.specs.Event.{MayCome};
ghost use Rattle.zr_router_core.specs.Done.{IsNodeDone, IsRoomy};

use crate::failure::HubFailure;
use std::alloc::Global;
use zr_id::link::LinkNo;
use zr_msg::error::NodeError;
use zr_msg::event::Event;
use zr_msg::msg::Msg;
use zr_node::node::Node;

/// The router handles an event. Memory has not run out before.
pub fn handle(
    alloc: Global,
    node: &mut Node,
    event: &Event,
    out: &mut Vec<(LinkNo, Msg)>,
) -> Result<(), HubFailure>
    requires awake { node.old.spent ≡ false }
    requires may_come { MayCome node.old event.now }
    ensures { IsNodeDone node.old event.now result node.new out.old.items out.new.items }
{
    match node.handle(alloc, event, out) {
        Ok(()) => Ok(()),
        Err(NodeError::NoMemory) => Err(HubFailure::NoMemory),
        Err(error) => Err(HubFailure::Refused(error)),
    }
}

/// Why an event isn't handled where memory ran out before the router was asked: it is refused, if that is found without memory.
pub fn lacking(node: &Node, event: &Event) -> HubFailure
    ensures { IsRoomy node.now event.now (Err result) }
{
    match node.refuses(event) {
        Some(error) => HubFailure::Refused(error),
        None => HubFailure::NoMemory,
    }
}
