//! Whether a call is refused, as the tables stand.

ghost use Rattle.std.specs.Prelude.{◌≡◌, ◌≤◌, ◌&&◌, ◌||◌, nat_le, filter, length};
ghost use Rattle.zr_node_spec.specs.Tables.{is_router};
ghost use Rattle.zr_router.specs.Before.{message_refusal, open_refusal};
ghost use Rattle.zr_router.specs.Refusals as refusals;
ghost use Rattle.zr_router.specs.Refusals.{down_refusal, node_refusal, most_routers, most_sessions, peer_refusal};

use zr_access::Policy;
use zr_id::link::LinkNo;
use zr_msg::error::NodeError;
use zr_msg::msg::Msg;
use zr_msg::peer::{LinkPeer, Peer, Role};
use zr_msg::shared::Shared;
use zr_port::{DeliverError, DownError, UpError};
use zr_router_core::hub::Hub;
use zr_router_queue::Closing;
use zr_router_room::MOST_LINKS;
use zr_wire::admits;

/// How many sessions a router has at most. The numbers of its links are below that, so each has a bit among those of the writers that are to be woken.
pub(crate) const MOST_SESSIONS: u32 = MOST_LINKS;

/// How many sessions to routers a router has at most.
const MOST_ROUTERS: u32 = 16;

/// Why a peer is refused before the router is asked, if it is. `worn` says that the history is at its end.
pub(crate) fn refuses_peer(hub: &Hub, worn: bool, peer: &Peer) -> Option<UpError>
    ensures { result ≡ peer_refusal hub.now.node peer.now worn }
{
    let sessions = sessions(hub);
    let routers = routers(hub);
    if is_full(sessions, routers, peer.role) {
        return Some(UpError::Full { sessions, routers });
    }
    if is_twice(hub, peer) {
        return Some(UpError::Twice);
    }
    if worn {
        return Some(UpError::Worn);
    }
    None
}

// How many links are up.
fn sessions(hub: &Hub) -> u32
    ensures { result ≡ refusals.sessions hub.now.node }
{
    hub.links().len() as u32
}

// How many of them lead to routers.
fn routers(hub: &Hub) -> u32
    ensures { result ≡ refusals.routers hub.now.node }
{
    routers_among(hub.links()) as u32
}

// Whether there is no room for one more session with a peer of that role.
fn is_full(sessions: u32, routers: u32, role: Role) -> bool
    ensures { result ≡ (nat_le most_sessions sessions || (is_router role && nat_le most_routers routers)) }
{
    sessions >= MOST_SESSIONS || is_router(role) && routers >= MOST_ROUTERS
}

// Whether a link of that identifier is up, or it is the router's own.
#[tactic(auto, using(zr_lists::proofs::Options::there_changed))]
fn is_twice(hub: &Hub, peer: &Peer) -> bool
    ensures { result ≡ refusals.is_twice hub.now.node peer.now }
{
    hub.link_to(&peer.id).is_some() || peer.id == hub.me()
}

fn is_router(role: Role) -> bool
    ensures { result ≡ is_router role }
{
    match role {
        Role::Client => false,
        Role::Router => true,
    }
}

// How many of the links lead to routers.
fn routers_among(links: &[LinkPeer]) -> usize
    ensures count { result ≡ length (filter (λ l. is_router l.peer.role) links.now) }
    ensures bound { result ≤ length links.now }
{
    links.iter().filter(|l| is_router(l.peer.role)).count()
}

/// Why a link doesn't go down, if it is refused before the router is asked. `worn` says that the history is at its end.
pub(crate) fn refuses_down(hub: &Hub, worn: bool, link: LinkNo) -> Option<DownError>
    ensures { result ≡ down_refusal hub.now.node link worn }
{
    if hub.peer_at(link).is_none() {
        return Some(DownError::NotUp { link });
    }
    if worn {
        return Some(DownError::Worn);
    }
    None
}

/// Why a message over a link is refused before the router is asked, if it is: by which rules, who stands at the other end of the link, if it is up, and how
/// an event has closed it, if one has. `worn` says that the history is at its end.
pub(crate) fn refuses_message(
    policy: &Shared<Policy>,
    peer: Option<Peer>,
    closing: Option<Closing>,
    link: LinkNo,
    msg: &Msg,
    worn: bool,
) -> Option<DeliverError>
    ensures { result ≡ message_refusal policy.now peer closing link msg.now worn }
{
    let Some(peer) = peer else {
        return Some(DeliverError::NotUp { link });
    };
    if let Some(closing) = closing {
        return Some(DeliverError::Full {
            asked: closing.asked,
            free: closing.free,
        });
    }
    open_refusal(policy.get(), peer, msg, worn)
}

fn open_refusal(policy: &Policy, peer: Peer, msg: &Msg, worn: bool) -> Option<DeliverError>
    ensures { result ≡ open_refusal policy.now peer msg.now worn }
{
    if !admits(peer.role, msg) {
        return Some(DeliverError::Misplaced { role: peer.role });
    }
    if let Some(rule) = policy.denial(&peer, msg) {
        return Some(DeliverError::Denied { rule });
    }
    if worn {
        return Some(DeliverError::Worn);
    }
    None
}

/// What a refusal by the router is told as: where there are rules, what isn't declared may have been denied.
pub(crate) fn node_refusal(ruled: bool, error: NodeError) -> DeliverError
    ensures { result ≡ node_refusal ruled error }
{
    match error {
        NodeError::NotDeclared { id } => {
            if ruled {
                DeliverError::Ignored { id }
            } else {
                DeliverError::Node(error)
            }
        }
        NodeError::Gap { .. }
        | NodeError::TextLimit { .. }
        | NodeError::NumberTaken { .. }
        | NodeError::TooMany { .. }
        | NodeError::Worn
        | NodeError::Spent
        | NodeError::NoMemory => DeliverError::Node(error),
    }
}
