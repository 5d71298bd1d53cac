//! One router of the world: its tables, what its clients were told, and what all declarations and interests of its clients so far weigh.

ghost use Rattle.std.specs.Prelude.{◌≡◌, ◌+◌, ◌≤◌, nat_le, option_map, IfOk};
ghost use Rattle.zr_node_spec.specs.Event.{MayCome};
ghost use Rattle.zr_node_spec.specs.Tables.{link_at, link_to};
ghost use Rattle.zr_world_spec.specs.World.{new_router, weight_of, most_weight};
ghost use Rattle.zr_world_spec.specs.Acts.{hub_of, weighing, up_event};
ghost use Rattle.zr_world.specs.Hearing.{IsHeard, refusal};

use std::alloc::{AllocError, Global};
use std::marker::Model;
use zr_id::link::LinkNo;
use zr_id::zid::Zid;
use zr_log_set::weight::MOST_WEIGHT;
use zr_msg::error::NodeError;
use zr_msg::event::Event;
use zr_msg::msg::Msg;
use zr_msg::peer::Peer;
use zr_router_core::hub::Hub;
use zr_script_spec::error::ScriptError;

/// What a declaration or an interest weighs beside its key's text.
const DECLARATION_WEIGHT: u64 = 16;

/// A router of the world.
#[derive(Drop)]
pub struct WorldRouter {
    hub: Hub,
    weight: u64,
}

impl Model for WorldRouter {
    ghost use Rattle.zr_world_spec.specs.World.{RouterState};

    ghost Value = { RouterState };

    ghost view = { λ r. record { node = r.hub.node; told = r.hub.told; weight = r.weight } };
}

impl WorldRouter {
    /// A router without links.
    pub fn new(alloc: Global, name: Zid) -> Result<WorldRouter, AllocError>
        ensures { IfOk result (λ r. r ≡ new_router name) }
    {
        Ok(WorldRouter {
            hub: Hub::new(alloc, name)?,
            weight: 0,
        })
    }

    /// Its tables with what its clients were told, and what declarations and interests weigh.
    pub fn into_parts(self) -> (Hub, u64)
        ensures hub { result.0 ≡ hub_of self }
        ensures weight { result.1 ≡ self.weight }
    {
        (self.hub, self.weight)
    }

    /// The router of these parts.
    pub fn from_parts(hub: Hub, weight: u64) -> WorldRouter
        ensures { result ≡ record { node = hub.node; told = hub.told; weight = weight } }
    {
        WorldRouter { hub, weight }
    }

    /// Its tables, and what its clients were told.
    pub fn hub(&self) -> &Hub
        ensures { result.now ≡ hub_of self.now }
    {
        &self.hub
    }

    /// The number of the link to a neighbour, if it is up.
    pub fn link_to(&self, neighbour: &Zid) -> Option<LinkNo>
        ensures { result ≡ option_map (λ l. l.link) (link_to self.now.node.links neighbour.now) }
    {
        self.hub.link_to(neighbour)
    }

    /// Who stands at the other end of the link of this number, if it is up.
    pub fn peer_at(&self, link: LinkNo) -> Option<Peer>
        ensures { result ≡ option_map (λ l. l.peer) (link_at self.now.node.links link.0) }
    {
        self.hub.peer_at(link)
    }

    /// The event that the link to a neighbour has come up, under the least number that is free.
    pub fn up_event(&self, peer: Peer) -> Event
        ensures { result ≡ up_event self.now peer }
    {
        Event::Up {
            link: self.hub.free_link(),
            peer,
        }
    }

    /// The router hears of an event, and appends what it sends and tells its clients to what was there, which is nothing. `Limit` where it refuses the event;
    /// then nothing has changed.
    pub fn hear(
        &mut self,
        alloc: Global,
        event: &Event,
        out: &mut Vec<(LinkNo, Msg)>,
    ) -> Result<(), ScriptError>
        requires { MayCome self.old.node event.now }
        ensures { IsHeard result self.old self.new event.now out.new.items }
    {
        out.clear();
        match self.hub.handle(alloc, event, out) {
            Ok(()) => Ok(()),
            Err(e) => Err(refusal(e)),
        }
    }

    /// It hears that the link to a neighbour has come up, under the least number that is free.
    pub fn hear_up(
        &mut self,
        alloc: Global,
        peer: Peer,
        out: &mut Vec<(LinkNo, Msg)>,
    ) -> Result<(), ScriptError>
        requires { MayCome self.old.node (up_event self.old peer) }
        ensures { IsHeard result self.old self.new (up_event self.old peer) out.new.items }
    {
        let event = self.up_event(peer);
        self.hear(alloc, &event, out)
    }

    /// It hears that a link has gone down.
    pub fn hear_down(
        &mut self,
        alloc: Global,
        link: LinkNo,
        out: &mut Vec<(LinkNo, Msg)>,
    ) -> Result<(), ScriptError>
        requires { MayCome self.old.node (Event.Down link) }
        ensures { IsHeard result self.old self.new (Event.Down link) out.new.items }
    {
        self.hear(alloc, &Event::Down { link }, out)
    }

    /// Whether there is room for what one more declaration of this text weighs, or one more interest.
    pub fn has_room(&self, text: &[u8]) -> bool
        ensures { result ≡ nat_le (self.now.weight + weight_of text.now) most_weight }
    {
        let more = DECLARATION_WEIGHT.saturating_add(text.len() as u64);
        self.weight.saturating_add(more) <= MOST_WEIGHT
    }

    /// One more declaration of this text weighs on the router, or one more interest.
    pub fn weigh(&mut self, text: &[u8])
        requires { self.old.weight + weight_of text.now ≤ most_weight }
        ensures { self.new ≡ weighing self.old text.now }
    {
        self.weight += text.len() as u64 + DECLARATION_WEIGHT;
    }
}

// What a router's refusal is in a script. A router is spent only where it was out of memory before.
fn refusal(error: NodeError) -> ScriptError
    ensures { result ≡ refusal error }
{
    match error {
        NodeError::Spent | NodeError::NoMemory => ScriptError::NoMemory,
        NodeError::Gap { .. }
        | NodeError::NotDeclared { .. }
        | NodeError::TextLimit { .. }
        | NodeError::NumberTaken { .. }
        | NodeError::TooMany { .. }
        | NodeError::Worn => ScriptError::Limit,
    }
}
