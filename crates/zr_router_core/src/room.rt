//! Whether there are ids for all that clients want to be told of, asked before an event.

ghost use Rattle.std.specs.Prelude.{◌≡◌, false};
ghost use Rattle.zr_node_spec.specs.Event.{MayCome};
ghost use Rattle.zr_node_spec.specs.State.{tables};
ghost use Rattle.zr_told_spec.specs.Rows.{one_lacks_ids};
ghost use Rattle.zr_router_core.specs.Done.{IsRoomy, IsLasting, have_ids};

use crate::counts::{count_foreign, more_decls, most_interests};
use crate::failure::HubFailure;
use crate::handled::{handle, lacking};
use std::alloc::{AllocError, Global};
use zr_id::link::LinkNo;
use zr_msg::error::NodeError;
use zr_msg::event::Event;
use zr_msg::msg::Msg;
use zr_node::node::Node;
use zr_node_spec::tables::TablesView;
use zr_node_spec::tell::discard;
use zr_told::error::ToldError;
use zr_told::told::Told;

/// Whether there are ids for all that clients want to be told of after an event. Where they may be lacking it is found out on a copy of the
/// router: that takes more than 2^32 declarations and interests.
pub fn judge(alloc: Global, node: &Node, event: &Event) -> Result<(), HubFailure>
    requires awake { node.now.spent ≡ false }
    requires may_come { MayCome node.now event.now }
    ensures { IsRoomy node.now event.now result }
{
    if may_lack(node, event) {
        return match node.copy(alloc) {
            Ok(copy) => judge_copy(alloc, copy, event),
            Err(AllocError) => Err(lacking(node, event)),
        };
    }
    Ok(())
}

// Whether ids may be lacking after an event. A client wants to be told of each place at most once: of places of declarations, and for each of
// its interests of the three places of the interest's key, one a class.
fn may_lack(node: &Node, event: &Event) -> bool
    ensures { result ≡ false → have_ids node.now event.now }
{
    let interests = most_interests(node.clients()).saturating_add(1);
    let known = count_foreign(node.me(), node.logs(), node.rows().len() as u64);
    let places = known.saturating_add(more_decls(event));
    places.saturating_add(interests.saturating_mul(3)) > u32::MAX as u64
}

// The copy handles the event, and is asked then.
fn judge_copy(alloc: Global, mut node: Node, event: &Event) -> Result<(), HubFailure>
    requires awake { node.spent ≡ false }
    requires may_come { MayCome node event.now }
    ensures { IsRoomy node event.now result }
{
    let mut sent = Vec::new(alloc);
    let answer = judge_event(alloc, &mut node, event, &mut sent);
    discard(sent);
    node.discard();
    answer
}

fn judge_event(
    alloc: Global,
    node: &mut Node,
    event: &Event,
    sent: &mut Vec<(LinkNo, Msg)>,
) -> Result<(), HubFailure>
    requires awake { node.old.spent ≡ false }
    requires may_come { MayCome node.old event.now }
    ensures { IsRoomy node.old event.now result }
{
    match handle(alloc, node, event, sent) {
        Ok(()) => judge_ids(alloc, node),
        Err(HubFailure::Refused(error)) => Err(HubFailure::Refused(error)),
        Err(HubFailure::NoMemory) => Err(HubFailure::NoMemory),
    }
}

// Whether there are ids for all that clients want to be told of now.
fn judge_ids(alloc: Global, node: &mut Node) -> Result<(), HubFailure>
    ensures { IsLasting (one_lacks_ids (tables node.old) node.old.clients) result }
{
    let trees = node.take_trees(alloc)?;
    let mut sent = Vec::new(alloc);
    let answer = judge_told(alloc, &node.tables(&trees), &mut sent);
    discard(sent);
    node.put_trees(trees);
    answer
}

fn judge_told(
    alloc: Global,
    tables: &TablesView,
    sent: &mut Vec<(LinkNo, Msg)>,
) -> Result<(), HubFailure>
    ensures { IsLasting (one_lacks_ids tables.now tables.now.clients) result }
{
    let mut told = Told::new(alloc);
    match told.changed_all(alloc, tables, tables.local().clients(), sent) {
        Ok(()) => Ok(()),
        Err(ToldError::Worn) => Err(HubFailure::Refused(NodeError::Worn)),
        Err(ToldError::NoMemory) => Err(HubFailure::NoMemory),
    }
}
