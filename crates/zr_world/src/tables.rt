//! The world's tables, and the names in them. A refusal is found before anything is changed.

ghost use Rattle.std.specs.Prelude.{◌≡◌, is_some};
ghost use Rattle.zr_world.specs.Steps.{AppliesTo, Counts};

use crate::client::Client;
use crate::router::WorldRouter;
use std::alloc::Global;
use std::collections::BTreeMap;
use zr_carrier::carrier::Carrier;
use zr_id::link::LinkNo;
use zr_id::zid::Zid;
use zr_msg::decl::Kind;
use zr_msg::msg::Msg;
use zr_msg::peer::{Peer, Role, Weight};
use zr_script_spec::command::Act;
use zr_script_spec::error::ScriptError;
use zr_script_spec::report::ReportLine;
use zr_world_ends::ends::Ends;

/// How many steps all runs ask for at most.
const MOST_STEPS: u64 = 10_000_000;

/// Routers, clients and ends by name, and how many steps all runs so far asked for.
#[derive(Drop)]
pub struct WorldTables<C: Carrier> {
    pub alloc: Global,
    pub routers: BTreeMap<Zid, WorldRouter>,
    pub clients: BTreeMap<Zid, Client>,
    pub ends: Ends<C>,
    pub booked: u64,
    /// What a router has just sent, on its way into the queues. It is kept for its memory alone.
    pub out: Vec<(LinkNo, Msg)>,
}

impl<C: Carrier> WorldTables<C> {
    ghost use Rattle.zr_world_spec.specs.World.{empty_world, router_of, is_taken};
    ghost use Rattle.zr_world_spec.specs.Acts.{outcome, peer_of};
    ghost use Rattle.zr_world_spec.specs.Next.{next, book_step};
    ghost use Rattle.zr_law_calls.specs.Fitting.{IsFit};
    ghost use Rattle.zr_world.specs.Led.{IsLed};
    ghost use Rattle.zr_world.specs.State.{state_of};

    /// WorldTables in which nothing has come yet.
    pub fn new(alloc: Global, carrier: C) -> WorldTables<C>
        ensures { state_of result ≡ empty_world }
    {
        WorldTables {
            alloc,
            routers: BTreeMap::new(alloc),
            clients: BTreeMap::new(alloc),
            ends: Ends::new(alloc, carrier),
            booked: 0,
            out: Vec::new(alloc),
        }
    }

    /// Does an act of a line. What is told of it comes behind the report's lines.
    #[tactic(auto, unfolding(zr_world_spec::specs::Acts::outcome))]
    pub fn act(
        &mut self,
        line: u64,
        act: Act,
        report: &mut Vec<ReportLine>,
    ) -> Result<(), ScriptError>
        requires led { IsLed (state_of self.old) }
        requires fit { IsFit act }
        ensures { AppliesTo result (outcome (state_of self.old) line act) (state_of self.old) (state_of self.new) report.old.items report.new.items }
    {
        match act {
            Act::Router { id } => self.router(id),
            Act::Client { id, router } => self.client(line, id, router),
            Act::Link { one, other, weight } => self.link(one, other, weight),
            Act::Up { router, neighbour } => self.up(line, router, neighbour),
            Act::Break { router, neighbour } => self.break_link(router, neighbour),
            Act::Down { router, neighbour } => self.down(line, router, neighbour),
            Act::Sub { client, id, key } => self.declare(line, client, Kind::Sub, id, key),
            Act::Unsub { client, id } => self.undeclare(line, client, Kind::Sub, id),
            Act::Able {
                client,
                id,
                key,
                complete,
            } => self.able(line, client, id, key, complete),
            Act::Unable { client, id } => self.undeclare(line, client, Kind::Able, id),
            Act::Token { client, id, key } => self.declare(line, client, Kind::Token, id, key),
            Act::Untoken { client, id } => self.undeclare(line, client, Kind::Token, id),
            Act::Interest {
                client,
                id,
                mode,
                kinds,
                key,
                aggregate,
            } => self.interest(line, client, id, mode, kinds, key, aggregate),
            Act::Uninterest { client, id } => self.uninterest(line, client, id),
            Act::Publish { client, content } => self.publish(line, client, content),
            Act::Get {
                client,
                number,
                target,
                content,
            } => self.get(line, client, number, target, content),
            Act::Reply {
                client,
                number,
                content,
            } => self.reply(line, client, number, content),
            Act::End { client, number } => self.end(line, client, number),
            Act::Handle { router, from } => self.handle(router, from, report),
            Act::Take { router, to } => self.take(router, to, report),
            Act::Mark => self.mark(line, report),
            Act::Show { router } => self.show(router, report),
        }
    }

    /// The step that a run does next. None where no step is possible.
    pub fn next(&self) -> Option<Act>
        ensures { result ≡ next (state_of self.now) }
    {
        if let Some((router, from)) = self.ends.first_to_handle() {
            return Some(Act::Handle { router, from });
        }
        let (router, to) = self.ends.first_to_take()?;
        Some(Act::Take { router, to })
    }

    /// Counts the steps that a run asks for, where there is room for them.
    #[tactic(auto, unfolding(zr_world_spec::specs::Next::book_step))]
    pub fn book(&mut self, steps: u32) -> Result<(), ScriptError>
        ensures { Counts result (book_step (state_of self.old) steps) (state_of self.old) (state_of self.new) }
    {
        let sum = self.booked.saturating_add(u64::from(steps));
        if sum > MOST_STEPS {
            return Err(ScriptError::Limit);
        }
        self.booked = sum;
        Ok(())
    }

    /// Whether a router or a client has the name.
    pub fn is_taken(&self, name: &Zid) -> bool
        ensures { result ≡ is_taken (state_of self.now) name.now }
    {
        self.is_router(name) || self.clients.contains_key(name)
    }

    /// Whether a router has the name.
    pub fn is_router(&self, name: &Zid) -> bool
        ensures { result ≡ is_some (router_of (state_of self.now).routers name.now) }
    {
        self.routers.contains_key(name)
    }

    /// A neighbour by its name, and what the link to it weighs.
    pub fn peer_of(&self, name: Zid, weight: Weight) -> Peer
        ensures { result ≡ peer_of (state_of self.now) name weight }
    {
        let role = if self.is_router(&name) {
            Role::Router
        } else {
            Role::Client
        };
        Peer {
            id: name,
            role,
            weight: weight.get(),
        }
    }
}
