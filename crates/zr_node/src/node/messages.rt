//! Messages at a router, by their groups.

ghost use Rattle.std.specs.Prelude.{◌≡◌};
ghost use Rattle.zr_msg.specs.Groups.{group_of};
ghost use Rattle.zr_node.specs.Done.{IsDone};
ghost use Rattle.zr_node.specs.Steps.{message_part};

use super::Node;
use crate::failure::NodeFailure;
use std::alloc::Global;
use zr_id::link::LinkNo;
use zr_msg::decl::Kind;
use zr_msg::msg::{Group, Msg};
use zr_node_spec::kinds::able_kind;

impl Node {
    // A message has come over a link.
    pub(super) fn on_message(
        &mut self,
        alloc: Global,
        link: LinkNo,
        msg: &Msg,
        out: &mut Vec<(LinkNo, Msg)>,
    ) -> Result<(), NodeFailure>
        ensures { IsDone (message_part self.old link.0 msg.now) result self.new out.old.items out.new.items }
    {
        match msg.group() {
            Group::Declared => self.on_declaration(alloc, link, msg, out),
            Group::Told => Ok(()),
            Group::Routed => self.on_routed(alloc, link, msg, out),
            Group::Flooded => self.on_flooded(alloc, link, msg, out),
        }
    }

    fn on_declaration(
        &mut self,
        alloc: Global,
        link: LinkNo,
        msg: &Msg,
        out: &mut Vec<(LinkNo, Msg)>,
    ) -> Result<(), NodeFailure>
        requires { group_of msg.now ≡ Group.Declared }
        ensures { IsDone (message_part self.old link.0 msg.now) result self.new out.old.items out.new.items }
    {
        match msg {
            Msg::Sub { id, key } => self.declare(alloc, link, *id, Kind::Sub, key, out),
            Msg::Unsub { id } => self.undeclare(alloc, link, *id, Kind::Sub, out),
            Msg::Token { id, key } => self.declare(alloc, link, *id, Kind::Token, key, out),
            Msg::Untoken { id } => self.undeclare(alloc, link, *id, Kind::Token, out),
            Msg::Able { id, key, complete } => {
                self.declare(alloc, link, *id, able_kind(*complete), key, out)
            }
            Msg::Unable { id } => self.undeclare(alloc, link, *id, Kind::Able, out),
            Msg::Interest {
                id,
                future,
                kinds,
                key,
                aggregate,
                ..
            } => self.interest(alloc, link, *future, *id, *kinds, key, *aggregate),
            Msg::EndInterest { id } => self.end_interest(link, *id),
            _ => unreachable!(),
        }
    }

    fn on_routed(
        &mut self,
        alloc: Global,
        link: LinkNo,
        msg: &Msg,
        out: &mut Vec<(LinkNo, Msg)>,
    ) -> Result<(), NodeFailure>
        requires { group_of msg.now ≡ Group.Routed }
        ensures { IsDone (message_part self.old link.0 msg.now) result self.new out.old.items out.new.items }
    {
        match msg {
            Msg::Push { tree, content } => self.push(alloc, link, *tree, content, out),
            Msg::Request {
                tree,
                id,
                target,
                content,
            } => self.request(alloc, link, *tree, *id, *target, content, out),
            Msg::Response { id, content } => self.response(link, *id, content, out),
            Msg::Final { id, extras } => self.end(link, *id, extras, out),
            _ => unreachable!(),
        }
    }

    fn on_flooded(
        &mut self,
        alloc: Global,
        link: LinkNo,
        msg: &Msg,
        out: &mut Vec<(LinkNo, Msg)>,
    ) -> Result<(), NodeFailure>
        requires { group_of msg.now ≡ Group.Flooded }
        ensures { IsDone (message_part self.old link.0 msg.now) result self.new out.old.items out.new.items }
    {
        match msg {
            Msg::State { links } => self.accept(alloc, link, links, out),
            Msg::Step {
                source,
                number,
                added,
                decl,
            } => self.step(alloc, link, msg, *source, *number, *added, decl.get(), out),
            Msg::Snap {
                source,
                number,
                decls,
            } => self.snap(alloc, link, msg, *source, *number, decls, out),
            _ => unreachable!(),
        }
    }
}
