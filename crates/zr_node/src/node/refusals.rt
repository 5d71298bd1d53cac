//! Why an event is refused, as far as it is found without memory.

ghost use Rattle.std.specs.Prelude.{◌≡◌, List};
ghost use Rattle.zr_id.specs.declared.link.LinkNo.{LinkNo};
ghost use Rattle.zr_local.specs.declared.interest.Interest.{Interest};
ghost use Rattle.zr_node_spec.specs.Table.{live, row, key_of, refuses, refuses_from, refuses_declared, refuses_undeclared, refuses_noted, refuses_request, refuses_step_from};
ghost use Rattle.zr_node.specs.Answer.{IsFound};

use super::Node;
use crate::asked::told_as;
use crate::asking::refusal;
use crate::failure::known_as;
use zr_id::link::LinkNo;
use zr_id::zid::Zid;
use zr_key::key::KeyExpr;
use zr_msg::decl::{Decl, Kind};
use zr_msg::error::NodeError;
use zr_msg::event::Event;
use zr_msg::msg::Msg;
use zr_node_spec::kinds::able_kind;
use zr_pend_spec::branch::Asker;

impl Node {
    /// Why an event is refused, if it is and that is found without memory: so of each refusal but `Worn` and a snapshot's `TextLimit`. It is
    /// asked where there was no memory to go on.
    pub fn refuses(&self, event: &Event) -> Option<NodeError>
        ensures { IsFound (refuses self.now event.now) result }
    {
        match event {
            Event::Up { .. } | Event::Down { .. } => None, // but for a number that has no room
            Event::From { link, msg } => self.refuses_message(*link, msg),
        }
    }

    fn refuses_message(&self, link: LinkNo, msg: &Msg) -> Option<NodeError>
        ensures { IsFound (refuses_from self.now link.0 msg.now) result }
    {
        match msg {
            Msg::Sub { id, key } => self.refuses_declared(link, *id, Kind::Sub, key),
            Msg::Token { id, key } => self.refuses_declared(link, *id, Kind::Token, key),
            Msg::Able { id, key, complete } => {
                self.refuses_declared(link, *id, able_kind(*complete), key)
            }
            Msg::Unsub { id } => self.refuses_undeclared(link, *id, Kind::Sub),
            Msg::Untoken { id } => self.refuses_undeclared(link, *id, Kind::Token),
            Msg::Unable { id } => self.refuses_undeclared(link, *id, Kind::Able),
            Msg::Interest {
                id,
                future,
                key,
                ..
            } => self.refuses_noted(link, *id, *future, key),
            Msg::Request { id, .. } => self.refuses_asker(link, *id),
            Msg::Step {
                source,
                number,
                added,
                decl,
            } => self.refuses_step(link, *source, *number, *added, decl.get()),
            Msg::EndInterest { .. }
            | Msg::ToldSub { .. }
            | Msg::ToldToken { .. }
            | Msg::ToldAble { .. }
            | Msg::ToldUnsub { .. }
            | Msg::ToldUntoken { .. }
            | Msg::ToldUnable { .. }
            | Msg::ToldEnd { .. }
            | Msg::Push { .. }
            | Msg::Response { .. }
            | Msg::Final { .. }
            | Msg::State { .. } => None,
            Msg::Snap { .. } => None, // it is weighed as the set that is made of it
        }
    }

    // What the client of a link declares.
    pub(super) fn refuses_declared(
        &self,
        link: LinkNo,
        id: u32,
        kind: Kind,
        key: &KeyExpr,
    ) -> Option<NodeError>
        ensures { IsFound (refuses_declared self.now link.0 (row link.0 id kind key.now)) result }
    {
        if !self.leads_to_client(link) {
            return None;
        }
        told_as(id, self.local.refuses_declare(link, id, kind, key))
    }

    // What it takes back.
    fn refuses_undeclared(&self, link: LinkNo, id: u32, kind: Kind) -> Option<NodeError>
        ensures { IsFound (refuses_undeclared self.now link.0 (key_of link.0 id kind)) result }
    {
        if !self.leads_to_client(link) {
            return None;
        }
        told_as(id, self.local.refuses_undeclare(link, id, kind))
    }

    // An interest with such a key.
    pub(super) fn refuses_noted(
        &self,
        link: LinkNo,
        id: u32,
        future: bool,
        key: &Option<KeyExpr>,
    ) -> Option<NodeError>
        ensures { (i : Interest) → i.key ≡ key.now → IsFound (refuses_noted self.now link.0 id (live future i)) result }
    {
        if !future {
            return None; // it isn't live, and weighs nothing
        }
        if !self.leads_to_client(link) {
            return None;
        }
        told_as(id, self.local.refuses_interest(link, id, key))
    }

    // A request for who asks it, whatever links it goes over.
    fn refuses_asker(&self, link: LinkNo, number: u32) -> Option<NodeError>
        ensures { (links : List LinkNo) → IsFound (refuses_request self.now link.0 number links) result }
    {
        let from = Asker { link, number };
        refusal(&self.pending, from, self.leads_to_client(link))
    }

    // A change of another router's log.
    fn refuses_step(
        &self,
        link: LinkNo,
        source: Zid,
        number: u64,
        added: bool,
        decl: &Decl,
    ) -> Option<NodeError>
        ensures { IsFound (refuses_step_from self.now link.0 source number (record { added = added; decl = decl.now })) result }
    {
        if !self.leads_to_router(link) {
            return None;
        }
        known_as(self.known.refuses_step(source, number, added, decl))
    }
}
