//! `Share`: one router's part of a fan.

ghost use Rattle.std.specs.Prelude.{◌≡◌, ◌==◌, ◌&&◌, ◌∷◌, ◌++◌, [], List, true, Some, IfOk, OnOk, length, map, if◌then◌else◌};
ghost use Rattle.std.specs.Option.{option_map};
ghost use Rattle.zr_node_spec.specs.Event.{MayCome};
ghost use Rattle.zr_node_spec.specs.Tables.{is_router, link_at, link_to};
ghost use Rattle.zr_script_spec.specs.Report.{line_text};
ghost use Rattle.zr_msg.specs.declared.peer.LinkPeer.{LinkPeer};
ghost use Rattle.zr_told_spec.specs.Hub.{HubSends, hub_after};
ghost use Rattle.zr_world_spec.specs.Fan.{is_sample};
ghost use Rattle.zr_world_gang.specs.Shares.{HasHandled, all_over, heard, is_behind, last_behind, new_share, MayBeHandled, over, to_client, to_router, told, with_input, with_output};
ghost use Rattle.zr_world_gang.specs.Turns.{HasDone};

use crate::message::{Sending, Waiting};
use std::alloc::{AllocError, Global};
use std::marker::Model;
use std::mem;
use zr_id::link::LinkNo;
use zr_id::zid::Zid;
use zr_msg::event::Event;
use zr_msg::msg::Msg;
use zr_msg::peer::{Peer, Role};
use zr_router_core::hub::Hub;
use zr_script_spec::report::FanSteps;
use zr_world_lines::lines::Lines;
use zr_world_lines::order::in_order;

/// What each share does in a round.
#[derive(Clone, Copy, Debug, PartialEq, Eq)]
pub enum Turn {
    /// It handles its input.
    Handle,
    /// It tells its lines.
    Tell,
}

/// One router's part of a fan: what it is to handle, the oldest first, what it has sent to routers, and the lines of its steps.
#[derive(Drop)]
pub struct Share {
    name: Zid,
    hub: Hub,
    input: Vec<Waiting>,
    output: Vec<Sending>,
    handled: Lines,
    taken: Lines,
    sent: Lines,
    // those that are told, in order, and how many were of each kind
    lines: Lines,
    kinds: FanSteps,
}

impl Model for Share {
    ghost use Rattle.std.specs.List.{concat};
    ghost use Rattle.zr_world_gang.specs.Shares.{MayBeHandled, ShareState};

    ghost Value = { ShareState };

    ghost view = { λ s. record { name = s.name; hub = s.hub; input = s.input.items; output = s.output.items; handled = s.handled; taken = s.taken; sent = s.sent; lines = s.lines; text = concat s.lines; kinds = s.kinds } };

    ghost invariant = { λ s. MayBeHandled s.hub s.input.items };
}

impl Share {
    /// The share of a router, of which nothing is done yet.
    pub fn new(alloc: Global, name: Zid, hub: Hub) -> Share
        ensures { result ≡ new_share name hub }
    {
        Share {
            name,
            hub,
            input: Vec::new(alloc),
            output: Vec::new(alloc),
            handled: Lines::new(alloc),
            taken: Lines::new(alloc),
            sent: Lines::new(alloc),
            lines: Lines::new(alloc),
            kinds: FanSteps {
                handled: 0,
                taken: 0,
                sent: 0,
            },
        }
    }

    /// The router's name.
    pub fn name(&self) -> Zid
        ensures { result ≡ self.now.name }
    {
        self.name
    }

    /// The text of its lines, once they are told.
    pub fn text(&self) -> &[u8]
        ensures { result.now ≡ self.now.text }
    {
        self.lines.text()
    }

    /// Whether the first line that it has told is not below a text; so it is where there is none.
    pub fn is_behind(&self, last: &[u8]) -> bool
        ensures { result ≡ is_behind last.now self.now.lines }
    {
        match self.lines.first() {
            Some(line) => !line.cmp(&last).is_lt(),
            None => true,
        }
    }

    /// The last line that it has told, or the text before its lines where there is none.
    pub fn last_line<'a>(&'a self, last: &'a [u8]) -> &'a [u8]
        ensures { result.now ≡ last_behind last.now self.now.lines }
    {
        match self.lines.last() {
            Some(line) => line,
            None => last,
        }
    }

    /// How many steps were of each kind, once they are told.
    pub fn kinds(&self) -> FanSteps
        ensures { result ≡ self.now.kinds }
    {
        self.kinds
    }

    /// How many lines of each kind it has, which are not told yet.
    pub fn steps(&self) -> FanSteps
        ensures { result ≡ record { handled = length self.now.handled; taken = length self.now.taken; sent = length self.now.sent } }
    {
        FanSteps {
            handled: self.handled.len() as u64,
            taken: self.taken.len() as u64,
            sent: self.sent.len() as u64,
        }
    }

    /// How much it has to do in a turn.
    pub fn load(&self, turn: Turn) -> usize {
        match turn {
            Turn::Handle => self.input.len(),
            Turn::Tell => self.sent.len(),
        }
    }

    /// The router with its clients.
    pub fn into_hub(self) -> Hub
        ensures { result ≡ self.hub }
    {
        self.hub
    }

    /// Whether nothing waits.
    pub fn is_idle(&self) -> bool
        ensures idle { result ≡ (length self.now.input == 0 && length self.now.output == 0) }
        ensures may { MayBeHandled self.now.hub self.now.input }
    {
        self.input.is_empty() && self.output.is_empty()
    }

    /// A sample from a neighbour waits, behind all others. Out of memory too where there is no link to the neighbour.
    pub fn receive(&mut self, from: Zid, msg: Msg, tag: u64) -> Result<(), AllocError>
        requires { is_sample msg ≡ true }
        ensures { OnOk result ((l : LinkPeer) × (link_to self.old.hub.node.links from ≡ Some l) × (self.new ≡ with_input self.old (self.old.input ++ record { from = l.link; name = from; msg = msg; tag = tag } ∷ []))) }
    {
        let Some(link) = self.hub.link_to(&from) else {
            return Err(AllocError);
        };
        self.input.push(Waiting {
            from: link,
            name: from,
            msg,
            tag,
        })?;
        Ok(())
    }

    /// What was sent to routers, which is there no more.
    pub fn take_output(&mut self, alloc: Global) -> Vec<Sending>
        ensures taken { result.items ≡ self.old.output }
        ensures rest { self.new ≡ with_output self.old [] }
    {
        mem::replace(&mut self.output, Vec::new(alloc))
    }

    /// A message goes to a router.
    pub fn pass(&mut self, to: Zid, msg: Msg, tag: u64) -> Result<(), AllocError>
        ensures { OnOk result (self.new ≡ to_router self.old to msg tag) }
    {
        self.taken.add_taken(&self.name, &to, &msg, tag)?;
        self.output.push(Sending { to, msg, tag })?;
        Ok(())
    }

    /// A message is sent to a client.
    pub fn deliver(&mut self, to: Zid, msg: &Msg, tag: u64) -> Result<(), AllocError>
        ensures { OnOk result (self.new ≡ to_client self.old to msg.now tag) }
    {
        self.sent.add_taken(&self.name, &to, msg, tag)
    }

    /// It does its turn.
    pub fn work(&mut self, alloc: Global, turn: Turn) -> Result<(), AllocError>
        ensures { OnOk result (HasDone turn self.old self.new) }
    {
        match turn {
            Turn::Handle => self.handle(alloc),
            Turn::Tell => self.tell(alloc),
        }
    }

    // Its input is handled in order, and is empty then.
    fn handle(&mut self, alloc: Global) -> Result<(), AllocError>
        ensures { OnOk result (HasHandled (with_input self.old []) self.old.input self.new) }
    {
        let input = self.take_input(alloc);
        for waiting in input {
            self.handle_one(alloc, waiting)?;
        }
        Ok(())
    }

    fn take_input(&mut self, alloc: Global) -> Vec<Waiting>
        ensures taken { result.items ≡ self.old.input }
        ensures may { MayBeHandled self.old.hub result.items }
        ensures rest { self.new ≡ with_input self.old [] }
    {
        mem::replace(&mut self.input, Vec::new(alloc))
    }

    fn handle_one(&mut self, alloc: Global, waiting: Waiting) -> Result<(), AllocError>
        requires idle { self.old.input ≡ [] }
        requires may { MayCome self.old.hub.node (Event.From waiting.from waiting.msg) }
        ensures { OnOk result ((out : List (LinkNo × Msg)) × HubSends self.old.hub (Event.From waiting.from waiting.msg) [] out × (self.new ≡ all_over (heard self.old waiting) waiting.tag out)) }
    {
        let tag = waiting.tag;
        let out = self.hear(alloc, waiting)?;
        self.send_all(out, tag)
    }

    // The router handles a message: what it sends, and the line that tells it.
    #[tactic(auto, using(crate::proofs::Steps::none_waits))]
    fn hear(&mut self, alloc: Global, waiting: Waiting) -> Result<Vec<(LinkNo, Msg)>, AllocError>
        requires idle { self.old.input ≡ [] }
        requires may { MayCome self.old.hub.node (Event.From waiting.from waiting.msg) }
        ensures sends { IfOk result (λ v. HubSends self.old.hub (Event.From waiting.from waiting.msg) [] v.items) }
        ensures heard { IfOk result (λ v. self.new ≡ heard self.old waiting) }
    {
        self.handled
            .add_handled(&self.name, &waiting.name, &waiting.msg, waiting.tag)?;
        let event = Event::From {
            link: waiting.from,
            msg: waiting.msg,
        };
        let out = sent_by(alloc, &mut self.hub, &event);
        drop(event);
        out
    }

    // What the router sends goes over its links.
    fn send_all(&mut self, out: Vec<(LinkNo, Msg)>, tag: u64) -> Result<(), AllocError>
        ensures { OnOk result (self.new ≡ all_over self.old tag out.items) }
    {
        for (to, msg) in out {
            self.send(to, msg, tag)?;
        }
        Ok(())
    }

    // Who stands at the other end of a link, if it is up.
    fn peer_at(&self, link: LinkNo) -> Option<Peer>
        ensures { result ≡ option_map (λ l. l.peer) (link_at self.now.hub.node.links link.0) }
    {
        self.hub.peer_at(link)
    }

    fn send(&mut self, to: LinkNo, msg: Msg, tag: u64) -> Result<(), AllocError>
        ensures { OnOk result (self.new ≡ over self.old tag (link_at self.old.hub.node.links to.0) msg) }
    {
        match self.peer_at(to) {
            Some(peer) => self.send_to(&peer, msg, tag),
            None => Ok(()),
        }
    }

    fn send_to(&mut self, peer: &Peer, msg: Msg, tag: u64) -> Result<(), AllocError>
        ensures { OnOk result (self.new ≡ (if is_router peer.now.role then to_router self.old peer.now.id msg tag else to_client self.old peer.now.id msg tag)) }
    {
        match peer.role {
            Role::Router => self.pass(peer.id, msg, tag),
            Role::Client => self.deliver(peer.id, &msg, tag),
        }
    }

    // Its lines are told, in the order of their bytes.
    fn tell(&mut self, alloc: Global) -> Result<(), AllocError>
        ensures { OnOk result (self.new ≡ told self.old) }
    {
        self.kinds = self.steps();
        let handled = mem::replace(&mut self.handled, Lines::new(alloc));
        let taken = mem::replace(&mut self.taken, Lines::new(alloc));
        let sent = mem::replace(&mut self.sent, Lines::new(alloc));
        self.lines = in_order(alloc, &handled, &taken, &sent)?;
        Ok(())
    }
}

// What a router sends for an event that it handles.
fn sent_by(alloc: Global, hub: &mut Hub, event: &Event) -> Result<Vec<(LinkNo, Msg)>, AllocError>
    requires { MayCome hub.old.node event.now }
    ensures sends { IfOk result (λ v. HubSends hub.old event.now [] v.items) }
    ensures hub { IfOk result (λ v. hub.new ≡ hub_after hub.old event.now) }
{
    let mut out = Vec::new(alloc);
    match hub.handle(alloc, event, &mut out) {
        Ok(()) => Ok(out),
        Err(_) => Err(AllocError),
    }
}
