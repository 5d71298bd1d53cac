//! `Hub`: a router with its clients, and what it does with each event.

ghost use Rattle.std.specs.Prelude.{◌≡◌, ◌<◌, ◌^◌, ◌↔◌, not, true, false, Some, List, length, IfOk, OnOk};
ghost use Rattle.std.specs.Option.{option_map};
ghost use Rattle.zr_local.specs.Clients.{AreByLink};
ghost use Rattle.zr_local.specs.Rows.{AreInOrder};
ghost use Rattle.zr_node_spec.specs.Tables.{link_at, link_to, free_link};
ghost use Rattle.zr_node_spec.specs.Early.{is_early};
ghost use Rattle.zr_node_spec.specs.Event.{AreLinks, MayCome};
ghost use Rattle.zr_told_spec.specs.Hub.{new_hub, hub_after, HubSends, HubSendsPrefix};
ghost use Rattle.zr_node.specs.Answer.{IsAnswered};
ghost use Rattle.zr_router_core.specs.Calm.{IsCalm};
ghost use Rattle.zr_router_core.specs.Done.{hub_refusal_of};

use crate::failure::HubFailure;
use crate::whole::on_event;
use std::alloc::{AllocError, Global};
use std::marker::Model;
use zr_graph::base::Base;
use zr_id::link::LinkNo;
use zr_id::zid::Zid;
use zr_local::interest::ClientInterests;
use zr_local::row::Row;
use zr_log::known::Known;
use zr_msg::error::NodeError;
use zr_msg::event::Event;
use zr_msg::msg::Msg;
use zr_msg::peer::{LinkPeer, Peer};
use zr_node::node::Node;
use zr_told::told::Told;
use zr_told_interested::interested::Interested;

/// A router, and of what each of its clients was told.
pub struct Hub {
    node: Node,
    told: Told,
    interested: Interested,
    // memory ran out at an earlier event, in the router or where its clients were told
    spent: bool,
}

// Written out, so that it is proved here, and not by each crate that lets one go.
impl Drop for Hub {
    fn drop(self) {
        let Self {
            node: _node,
            told: _told,
            interested: _interested,
            spent: _spent,
        } = self;
    }
}

impl Model for Hub {
    ghost use Rattle.std.specs.Prelude.{◌≡◌, false};
    ghost use Rattle.zr_told_spec.specs.Hub.{HubState, by_link};
    ghost use Rattle.zr_told_spec.specs.Rows.{map_on};
    ghost use Rattle.zr_told_interested.specs.ByKey.{IsOf};
    ghost use Rattle.zr_router_core.specs.Right.{IsSound, spent_as};

    ghost Value = { HubState };

    ghost view = { λ h. record { node = spent_as h.node h.spent; told = by_link h.node.links (λ k. map_on h.told k) } };

    ghost invariant = { λ h. h.spent ≡ false → IsSound h.node h.told × IsOf h.node.clients h.interested };
}

impl Hub {
    /// A router without links.
    pub fn new(alloc: Global, me: Zid) -> Result<Hub, AllocError>
        ensures { IfOk result (λ hub. hub ≡ new_hub me) }
    {
        Ok(Hub {
            node: Node::new(alloc, me)?,
            told: Told::new(alloc),
            interested: Interested::new(),
            spent: false,
        })
    }

    /// The router itself.
    pub fn me(&self) -> Zid
        ensures { result ≡ self.now.node.base.me }
    {
        self.node.me()
    }

    /// The links that are up, in ascending order of their numbers.
    pub fn links(&self) -> &[LinkPeer]
        ensures value { result.now ≡ self.now.node.links }
        ensures are_links { AreLinks self.now.node.base.me self.now.node.links }
        ensures few { length self.now.node.links < 2 ^ 32 }
    {
        self.node.links()
    }

    /// The newest record of each router that this one knows of, its own among them.
    pub fn base(&self) -> &Base
        ensures { result.now ≡ self.now.node.base }
    {
        self.node.base()
    }

    /// What the clients of its links have declared, by link, subscribers first, then by id.
    pub fn rows(&self) -> &[Row]
        ensures value { result.now ≡ self.now.node.rows }
        ensures in_order { AreInOrder self.now.node.rows }
    {
        self.node.rows()
    }

    /// The live interests of the clients of its links, by link, and of one client by id.
    pub fn clients(&self) -> &[ClientInterests]
        ensures value { result.now ≡ self.now.node.clients }
        ensures in_order { AreByLink self.now.node.clients }
    {
        self.node.clients()
    }

    /// What it knows of the change logs of all routers, its own among them.
    pub fn known(&self) -> &Known
        ensures { result.now ≡ self.now.node.known }
    {
        self.node.known()
    }

    /// The number of the link to a neighbour, if it is up.
    pub fn link_to(&self, neighbour: &Zid) -> Option<LinkNo>
        ensures { result ≡ option_map (λ l. l.link) (link_to self.now.node.links neighbour.now) }
    {
        self.node.link_to(neighbour)
    }

    /// Who stands at the other end of the link of this number, if it is up.
    pub fn peer_at(&self, link: LinkNo) -> Option<Peer>
        ensures { result ≡ option_map (λ l. l.peer) (link_at self.now.node.links link.0) }
    {
        self.node.peer_at(link)
    }

    /// The least number that no link has.
    pub fn free_link(&self) -> LinkNo
        ensures { result.0 ≡ free_link self.now.node.links }
    {
        self.node.free_link()
    }

    /// Whether memory has not run out. Then a sample changes nothing of the router, nobody is told anything of it, and it is taken.
    pub fn is_calm(&self) -> bool
        ensures calm { result ≡ true → IsCalm self.now }
        ensures exactly { result ≡ not self.now.node.spent }
    {
        !self.spent
    }

    /// Handles an event, and appends what it sends, each message with its link: what the router sends, and behind that on each link what its
    /// client is told of others' declarations.
    ///
    /// What is refused leaves everything as it was, and so does `Spent`, which comes where memory ran out at an earlier event. `Worn` comes
    /// too where a client wants to be told of more than there are ids. Where memory runs out, a prefix of what is to be sent is appended for
    /// each link, and the router is spent from now on: nothing is said of it, and of what its clients were told, any more. A refusal that is
    /// found without memory is the answer even so.
    pub fn handle(
        &mut self,
        alloc: Global,
        event: &Event,
        out: &mut Vec<(LinkNo, Msg)>,
    ) -> Result<(), NodeError>
        requires { MayCome self.old.node event.now }
        ensures state { OnOk result (self.new ≡ hub_after self.old event.now) }
        ensures sends { OnOk result (HubSends self.old event.now out.old.items out.new.items) }
        ensures refused { IsAnswered (hub_refusal_of self.old event.now) result }
        ensures spent { (result ≡ Err NodeError.Spent) ↔ (self.old.node.spent ≡ true) }
        ensures judged { result ≡ Err NodeError.NoMemory → is_early (hub_refusal_of self.old event.now) ≡ false }
        ensures unchanged { (e : NodeError) → hub_refusal_of self.old event.now ≡ Some e → result ≡ Err e → (self.new ≡ self.old) × (out.new.items ≡ out.old.items) }
        ensures memory { result ≡ Err NodeError.NoMemory → self.new.node.spent ≡ true }
        ensures prefix { result ≡ Err NodeError.NoMemory → HubSendsPrefix self.old event.now out.old.items out.new.items }
    {
        if self.spent {
            return Err(NodeError::Spent);
        }
        match on_event(
            alloc,
            &mut self.node,
            &mut self.told,
            &mut self.interested,
            event,
            out,
        ) {
            Ok(()) => Ok(()),
            Err(HubFailure::Refused(error)) => Err(error),
            Err(HubFailure::NoMemory) => {
                self.spent = true;
                Err(NodeError::NoMemory)
            }
        }
    }
}
