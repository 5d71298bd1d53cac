//! The peers of a router's links, in the order of their identifiers.

ghost use Rattle.std.specs.Prelude.{◌≡◌, [], IfOk, OnOk};
ghost use Rattle.std.specs.Cmp.Lexicographic.{slice_cmp};
ghost use Rattle.std.specs.Ordering.{nat_cmp};
ghost use Rattle.zr_lists.specs.Ascending.{IsAscending};
ghost use Rattle.zr_lists.specs.Place.{IsPlace};
ghost use Rattle.zr_router_glance.specs.Glance.{peers_of, with_peer};

use std::alloc::{AllocError, Global};
use zr_id::zid::Zid;
use zr_msg::peer::{LinkPeer, Peer};

/// The peers of these links, in ascending order of their identifiers.
pub fn peers_of(alloc: Global, links: &[LinkPeer]) -> Result<Vec<Peer>, AllocError>
    ensures { IfOk result (λ v. v.items ≡ peers_of links.now) }
{
    let mut peers = Vec::with_capacity(alloc, links.len())?;
    for link in links {
        put_peer(&mut peers, link.peer)?;
    }
    Ok(peers)
}

#[tactic(auto, using(crate::proofs::InOrder::still_ascends))]
fn put_peer(peers: &mut Vec<Peer>, peer: Peer) -> Result<(), AllocError>
    requires { IsAscending (slice_cmp nat_cmp) (λ p. p.id) peers.old.items }
    ensures peers { OnOk result (peers.new.items ≡ with_peer peers.old.items peer) }
    ensures in_order { OnOk result (IsAscending (slice_cmp nat_cmp) (λ p. p.id) peers.new.items) }
{
    let place = place_of(peers, &peer.id);
    put(peers, place, peer)
}

// The place of the peer of this identifier, or the place where it would stand.
fn place_of(peers: &[Peer], id: &Zid) -> Result<usize, usize>
    requires { IsAscending (slice_cmp nat_cmp) (λ p. p.id) peers.now }
    ensures { IsPlace (slice_cmp nat_cmp) (λ p. p.id) peers.now id.now result }
{
    peers.binary_search_by_key(id, |p| p.id)
}

fn put(peers: &mut Vec<Peer>, place: Result<usize, usize>, peer: Peer) -> Result<(), AllocError>
    requires { IsPlace (slice_cmp nat_cmp) (λ p. p.id) peers.old.items peer.id place }
    ensures { OnOk result (peers.new.items ≡ with_peer peers.old.items peer) }
{
    match place {
        Ok(at) => {
            peers[at] = peer;
            Ok(())
        }
        Err(at) => Ok(peers.insert(at, peer)?),
    }
}
