//! The records that an event sends.

ghost use Rattle.std.specs.Prelude.{◌≡◌, ◌==◌, ◌&&◌, ◌++◌, ◌∷◌, [], not, true, IfOk, OnOk, OnErr};
ghost use Rattle.std.specs.Option.{option_copied};
ghost use Rattle.zr_graph.specs.Base.{is_newer};
ghost use Rattle.zr_graph.specs.Record.{record_of};
ghost use Rattle.zr_msg.specs.Peer.{PeerState};
ghost use Rattle.zr_node_spec.specs.Event.{Tells, TellsPrefix};
ghost use Rattle.zr_lists.specs.Prefix.{IsPrefixBehind};
ghost use Rattle.zr_node_spec.specs.Tables.{is_router, leads_to_router};
ghost use Rattle.zr_node_spec.specs.State.{NodeState};
ghost use Rattle.zr_node_spec.specs.Table.{joined, own_link, parted, sends_up, sends_parted, sends_state};
ghost use Rattle.zr_flood.specs.Flood.{AreOf, all_to, own_to_others, to_others};

use std::alloc::{AllocError, Global};
use zr_graph::base::Base;
use zr_id::link::LinkNo;
use zr_id::record::LinkRecord;
use zr_id::zid::Zid;
use zr_msg::msg::Msg;
use zr_msg::peer::{LinkPeer, Role};
use zr_msg::shared::Shared;
use zr_node_spec::tell::tell;
use zr_tree::same::find_record;

/// A link to a router has come up: each record goes to it, in ascending order of the routers, and the own one to every other router.
///
/// The base has the own record that lists the new link; `links` are the router's without it.
pub fn flood_up(
    alloc: Global,
    base: &Base,
    links: &[LinkPeer],
    up: LinkNo,
    out: &mut Vec<(LinkNo, Msg)>,
) -> Result<(), AllocError>
    ensures ok { (node : NodeState) (peer : PeerState) → AreOf node links.now → base.now ≡ joined node.base (own_link peer) → OnOk result (Tells (sends_up node up.0 peer Role.Router) out.old.items out.new.items) }
    ensures err { (node : NodeState) (peer : PeerState) → AreOf node links.now → base.now ≡ joined node.base (own_link peer) → OnErr result (TellsPrefix (sends_up node up.0 peer Role.Router) out.old.items out.new.items) }
{
    tell_all(alloc, base, up, out)?;
    tell_own(alloc, base, links, up, out)
}

/// A link to a router has gone down: the own record goes to every other router.
///
/// The base has the own record that lists the link no more; `links` may still have it.
pub fn flood_down(
    alloc: Global,
    base: &Base,
    links: &[LinkPeer],
    down: LinkNo,
    out: &mut Vec<(LinkNo, Msg)>,
) -> Result<(), AllocError>
    ensures ok { (node : NodeState) (peer : PeerState) → AreOf node links.now → base.now ≡ parted node.base peer.id → OnOk result (Tells (sends_parted node down.0 peer Role.Router) out.old.items out.new.items) }
    ensures err { (node : NodeState) (peer : PeerState) → AreOf node links.now → base.now ≡ parted node.base peer.id → OnErr result (TellsPrefix (sends_parted node down.0 peer Role.Router) out.old.items out.new.items) }
{
    tell_own(alloc, base, links, down, out)
}

/// A record that is newer than what the router had has come over a link from a router: it goes to every other one. It is not copied.
pub fn flood_newer(
    told: &Shared<LinkRecord>,
    links: &[LinkPeer],
    from: LinkNo,
    out: &mut Vec<(LinkNo, Msg)>,
) -> Result<(), AllocError>
    ensures ok { (node : NodeState) → AreOf node links.now → leads_to_router node.links from.0 ≡ true → is_newer node.base told.now ≡ true → OnOk result (Tells (sends_state node from.0 told.now) out.old.items out.new.items) }
    ensures err { (node : NodeState) → AreOf node links.now → leads_to_router node.links from.0 ≡ true → is_newer node.base told.now ≡ true → OnErr result (TellsPrefix (sends_state node from.0 told.now) out.old.items out.new.items) }
{
    tell_others(told, links, from, out)
}

/// The own record. A base always has one.
pub fn own_record(base: &Base) -> Option<&LinkRecord>
    ensures { option_copied result ≡ record_of base.now.records base.now.me }
{
    find_record(base.records(), &base.me())
}

// Each record goes to a new neighbour.
fn tell_all(
    alloc: Global,
    base: &Base,
    to: LinkNo,
    out: &mut Vec<(LinkNo, Msg)>,
) -> Result<(), AllocError>
    ensures ok { OnOk result (out.new.items ≡ out.old.items ++ all_to base.now to) }
    ensures err { OnErr result (IsPrefixBehind out.old.items (all_to base.now to) out.new.items) }
{
    for record in base.records() {
        tell_copy(alloc, record, to, out)?;
    }
    Ok(())
}

fn tell_copy(
    alloc: Global,
    state: &LinkRecord,
    to: LinkNo,
    out: &mut Vec<(LinkNo, Msg)>,
) -> Result<(), AllocError>
    ensures ok { OnOk result (out.new.items ≡ out.old.items ++ (to, Msg.State state.now) ∷ []) }
    ensures err { OnErr result (out.new.items ≡ out.old.items) }
{
    let links = shared(alloc, state)?;
    tell(to, Msg::State { links }, out)
}

fn shared(alloc: Global, state: &LinkRecord) -> Result<Shared<LinkRecord>, AllocError>
    ensures { IfOk result (λ s. s ≡ state.now) }
{
    Shared::new(alloc, state.copy(alloc)?)
}

// The own record goes to every other router. It is copied once.
fn tell_own(
    alloc: Global,
    base: &Base,
    links: &[LinkPeer],
    from: LinkNo,
    out: &mut Vec<(LinkNo, Msg)>,
) -> Result<(), AllocError>
    ensures ok { OnOk result (out.new.items ≡ out.old.items ++ own_to_others base.now links.now from.0) }
    ensures err { OnErr result (IsPrefixBehind out.old.items (own_to_others base.now links.now from.0) out.new.items) }
{
    match own_record(base) {
        Some(own) => {
            let own = shared(alloc, own)?;
            tell_others(&own, links, from, out)
        }
        None => Ok(()),
    }
}

// One record goes to every other router, shared by all messages.
fn tell_others(
    told: &Shared<LinkRecord>,
    links: &[LinkPeer],
    from: LinkNo,
    out: &mut Vec<(LinkNo, Msg)>,
) -> Result<(), AllocError>
    ensures ok { OnOk result (out.new.items ≡ out.old.items ++ to_others links.now from.0 (Msg.State told.now)) }
    ensures err { OnErr result (IsPrefixBehind out.old.items (to_others links.now from.0 (Msg.State told.now)) out.new.items) }
{
    for link in links {
        if is_other_router(link, from) {
            tell_shared(told, link.link, out)?;
        }
    }
    Ok(())
}

fn tell_shared(
    told: &Shared<LinkRecord>,
    link: LinkNo,
    out: &mut Vec<(LinkNo, Msg)>,
) -> Result<(), AllocError>
    ensures ok { OnOk result (out.new.items ≡ out.old.items ++ (link, Msg.State told.now) ∷ []) }
    ensures err { OnErr result (out.new.items ≡ out.old.items) }
{
    let links = told.copy()?;
    tell(link, Msg::State { links }, out)
}

fn is_other_router(link: &LinkPeer, from: LinkNo) -> bool
    ensures { result ≡ (not (link.now.link.0 == from.0) && is_router link.now.peer.role) }
{
    link.link.0 != from.0 && is_router(link.peer.role)
}

/// Whether a peer is a router.
pub fn is_router(role: Role) -> bool
    ensures { result ≡ is_router role }
{
    match role {
        Role::Client => false,
        Role::Router => true,
    }
}
