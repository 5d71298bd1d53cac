//! The links of a router that come up and go down.

ghost use Rattle.std.specs.Prelude.{◌≡◌, [], true, OnOk, OnErr, is_some};
ghost use Rattle.zr_node_spec.specs.Queries.{sends_ends};
ghost use Rattle.zr_node_spec.specs.Tables.{link_at};
ghost use Rattle.zr_node_spec.specs.Event.{IsFresh, Tells, TellsPrefix};
ghost use Rattle.zr_node_spec.specs.State.{NodeState, new_link};
ghost use Rattle.zr_node_spec.specs.Table.{own_link, with_link, without_link};
ghost use Rattle.zr_node.specs.Done.{IsDone, IsLeft};
ghost use Rattle.zr_node.specs.Steps.{with_links, with_table, ended_on, event_part, up_part, join_part, down_part, parting_part, asked_part, leave_part};

use super::Node;
use crate::asked::Asked;
use crate::failure::NodeFailure;
use crate::kept::forget;
use crate::own;
use std::alloc::{AllocError, Global};
use zr_flood::flood::{flood_down, flood_up};
use zr_id::link::LinkNo;
use zr_id::record::Linked;
use zr_msg::event::Event;
use zr_msg::msg::Msg;
use zr_msg::peer::{Peer, Role};
use zr_node_spec::tell::{append, discard};
use zr_query::answering::ends_of;

impl Node {
    // A link has come up.
    pub(super) fn up(
        &mut self,
        alloc: Global,
        link: LinkNo,
        peer: &Peer,
        out: &mut Vec<(LinkNo, Msg)>,
    ) -> Result<(), NodeFailure>
        requires { IsFresh self.old link peer.now }
        ensures { IsDone (up_part self.old link peer.now peer.now.role) result self.new out.old.items out.new.items }
    {
        match peer.role {
            Role::Client => Ok(self.add(link, peer)?),
            Role::Router => self.router_up(alloc, link, peer, out),
        }
    }

    // A link to a router has come up: records go out, and what a router has to know that has become a child in a tree.
    fn router_up(
        &mut self,
        alloc: Global,
        link: LinkNo,
        peer: &Peer,
        out: &mut Vec<(LinkNo, Msg)>,
    ) -> Result<(), NodeFailure>
        requires { IsFresh self.old link peer.now }
        ensures { IsDone (up_part self.old link peer.now Role.Router) result self.new out.old.items out.new.items }
    {
        let before = self.take_before(alloc)?;
        match self.join(alloc, link, peer, out) {
            Ok(()) => {
                self.add(link, peer)?;
                Ok(self.tell_new_children(alloc, before, out)?)
            }
            Err(failure) => Err(failure),
        }
    }

    // The own record lists the router of a link that has come up, and records go out.
    fn join(
        &mut self,
        alloc: Global,
        link: LinkNo,
        peer: &Peer,
        out: &mut Vec<(LinkNo, Msg)>,
    ) -> Result<(), NodeFailure>
        requires { IsFresh self.old link peer.now }
        ensures { IsDone (join_part self.old link peer.now) result self.new out.old.items out.new.items }
    {
        own::join(alloc, &mut self.base, &own_link(peer))?;
        forget(&mut self.family, &mut self.trees, &mut self.routes);
        Ok(flood_up(alloc, &self.base, self.links.as_slice(), link, out)?)
    }

    fn add(&mut self, link: LinkNo, peer: &Peer) -> Result<(), AllocError>
        requires { IsFresh self.old link peer.now }
        ensures { OnOk result (self.new ≡ with_links self.old (with_link self.old.links (new_link link peer.now))) }
    {
        self.routes.forget(); // they are of the links so far
        self.links.add(link, *peer)
    }

    // A link has gone down.
    pub(super) fn down(
        &mut self,
        alloc: Global,
        link: LinkNo,
        out: &mut Vec<(LinkNo, Msg)>,
    ) -> Result<(), NodeFailure>
        requires { is_some (link_at self.old.links link.0) ≡ true }
        ensures { IsDone (event_part self.old (Event.Down link)) result self.new out.old.items out.new.items }
    {
        let Some(peer) = self.peer_at(link) else {
            unreachable!()
        };
        match peer.role {
            Role::Client => self.client_down(alloc, link, out),
            Role::Router => {
                prove!(self.known.position(self.base.me()) <= u64::MAX); // so rows that stay are not refused
                self.router_down(alloc, link, &peer, out)
            }
        }
    }

    // A link to a client has gone down: all that the client had declared goes. The finals of the requests that end stand first, so what is
    // told of its declarations waits until then.
    fn client_down(
        &mut self,
        alloc: Global,
        link: LinkNo,
        out: &mut Vec<(LinkNo, Msg)>,
    ) -> Result<(), NodeFailure>
        ensures { IsDone (leave_part self.old link) result self.new out.old.items out.new.items }
    {
        let mut told = Vec::new(alloc);
        match self.change_rows(alloc, Asked::Leave { link }, &mut told) {
            Ok(()) => self.leave(alloc, link, told, out),
            Err(failure) => {
                discard(told);
                Err(failure)
            }
        }
    }

    // All that the client had declared is gone, of which this is to be told.
    fn leave(
        &mut self,
        alloc: Global,
        link: LinkNo,
        told: Vec<(LinkNo, Msg)>,
        out: &mut Vec<(LinkNo, Msg)>,
    ) -> Result<(), NodeFailure>
        ensures { (node : NodeState) → IsLeft (asked_part node (Asked.Leave link)) self.old [] told.items → IsDone (leave_part node link) result self.new out.old.items out.new.items }
    {
        match self.end_requests(alloc, link, out) {
            Ok(()) => {
                append(out, told)?;
                self.remove(link);
                Ok(())
            }
            Err(AllocError) => {
                discard(told);
                Err(NodeFailure::NoMemory)
            }
        }
    }

    // The branches of a link that has gone down end, and what was held for the requests that end by that goes out, each with its final.
    fn end_requests(
        &mut self,
        alloc: Global,
        link: LinkNo,
        out: &mut Vec<(LinkNo, Msg)>,
    ) -> Result<(), AllocError>
        ensures state { OnOk result (self.new ≡ with_table self.old (ended_on self.old link.0)) }
        ensures sends { OnOk result (Tells (sends_ends self.old.pending self.old.held link.0) out.old.items out.new.items) }
        ensures prefix { OnErr result (TellsPrefix (sends_ends self.old.pending self.old.held link.0) out.old.items out.new.items) }
    {
        ends_of(alloc, &mut self.pending, link, out)
    }

    // A link to a router has gone down: the finals of the requests that end go out, the own record, and what a router has to know that has become a child in a tree.
    fn router_down(
        &mut self,
        alloc: Global,
        link: LinkNo,
        peer: &Peer,
        out: &mut Vec<(LinkNo, Msg)>,
    ) -> Result<(), NodeFailure>
        ensures { IsDone (down_part self.old link.0 peer.now) result self.new out.old.items out.new.items }
    {
        let before = self.take_before(alloc)?;
        match self.part(alloc, link, peer, out) {
            Ok(()) => {
                self.remove(link);
                Ok(self.tell_new_children(alloc, before, out)?)
            }
            Err(failure) => Err(failure),
        }
    }

    // The own record lists the router of a link that has gone down no more: the finals of the requests that end go out, and that record.
    fn part(
        &mut self,
        alloc: Global,
        link: LinkNo,
        peer: &Peer,
        out: &mut Vec<(LinkNo, Msg)>,
    ) -> Result<(), NodeFailure>
        ensures { IsDone (parting_part self.old link.0 peer.now) result self.new out.old.items out.new.items }
    {
        own::part(alloc, &mut self.base, &peer.id)?;
        forget(&mut self.family, &mut self.trees, &mut self.routes);
        ends_of(alloc, &mut self.pending, link, out)?;
        Ok(flood_down(alloc, &self.base, self.links.as_slice(), link, out)?)
    }

    fn remove(&mut self, link: LinkNo)
        ensures { self.new ≡ with_links self.old (without_link self.old.links link.0) }
    {
        self.routes.forget(); // the link may stand on any of them
        self.links.remove(link);
    }
}

// The own link to a peer.
fn own_link(peer: &Peer) -> Linked
    ensures { result ≡ own_link peer.now }
{
    Linked {
        id: peer.id,
        weight: peer.weight,
    }
}
