//! Messages move on: a router handles one, or one is taken from its queue.

ghost use Rattle.std.specs.Prelude.{◌≡◌, if◌then◌else◌, false, true, is_some, Some, IsSome, OnOk};
ghost use Rattle.zr_world_spec.specs.Acts.{received};
ghost use Rattle.zr_world_spec.specs.World.{changed, client_of, end_of, sent};
ghost use Rattle.zr_node_spec.specs.Event.{MayCome};
ghost use Rattle.zr_world.specs.Hearing.{IsHandled, message_of};
ghost use Rattle.zr_world.specs.Led.{MayGoTo};
ghost use Rattle.zr_world.specs.Steps.{AppliesTo};

use crate::client::Client;
use crate::router::WorldRouter;
use crate::sending::send;
use crate::spread::spread;
use crate::tables::WorldTables;
use std::alloc::{AllocError, Global};
use std::collections::BTreeMap;
use zr_carrier::carrier::Carrier;
use zr_id::link::LinkNo;
use zr_id::zid::Zid;
use zr_msg::event::Event;
use zr_msg::msg::Msg;
use zr_script_spec::error::ScriptError;
use zr_script_spec::report::ReportLine;
use zr_world_ends::end::Tagged;
use zr_world_ends::ends::Ends;

impl<C: Carrier> WorldTables<C> {
    ghost use Rattle.zr_world_spec.specs.World.{is_taken, router_of};
    ghost use Rattle.zr_world_spec.specs.Acts.{handle_step, take_step};
    ghost use Rattle.zr_world.specs.Led.{IsLed};
    ghost use Rattle.zr_world.specs.State.{state_of};

    /// A router handles the oldest message on the wire from a neighbour. What it sends has that message's tag. It refuses none.
    // A router has a link to just the neighbours to which its end is up, so who has none need not be asked for first.
    pub fn handle(
        &mut self,
        router: Zid,
        from: Zid,
        report: &mut Vec<ReportLine>,
    ) -> Result<(), ScriptError>
        requires { IsLed (state_of self.old) }
        ensures { AppliesTo result (handle_step (state_of self.old) router from) (state_of self.old) (state_of self.new) report.old.items report.new.items }
    {
        let Some(r) = self.routers.get_mut(&router) else {
            return Err(ScriptError::UnknownName);
        };
        let Some(link) = r.link_to(&from) else {
            return Err(self.unlinked(&from));
        };
        let x = self.ends.next_sent((router, from))?;
        let tag = x.tag;
        let msg = hear_message(self.alloc, r, link, x, &mut self.out)?;
        spread(r, router, &mut self.ends, &mut self.out, tag)?;
        report.push(ReportLine::Handled {
            router,
            from,
            msg,
            tag,
        })?;
        Ok(())
    }

    /// A router's oldest queued message goes onto the wire to the neighbour, or is sent to it where it is a client.
    // Each end is that of a router and a neighbour that are there, so only who finds no message asks for the names.
    pub fn take(
        &mut self,
        router: Zid,
        to: Zid,
        report: &mut Vec<ReportLine>,
    ) -> Result<(), ScriptError>
        requires { IsLed (state_of self.old) }
        ensures { AppliesTo result (take_step (state_of self.old) router to) (state_of self.old) (state_of self.new) report.old.items report.new.items }
    {
        let x = match self.ends.next_queued((router, to)) {
            Ok(x) => x,
            Err(e) => return Err(self.refusal_of(&router, &to, e)),
        };
        let tag = x.tag;
        let is_router = self.is_router(&to);
        deliver(
            &mut self.ends,
            &mut self.clients,
            is_router,
            (to, router),
            &x.msg,
            tag,
        )?;
        report.push(ReportLine::Taken {
            router,
            to,
            msg: x.msg,
            tag,
        })?;
        Ok(())
    }

    // Why a neighbour to which there is no link is refused.
    fn unlinked(&self, name: &Zid) -> ScriptError
        ensures { result ≡ (if is_taken (state_of self.now) name.now then ScriptError.NotLinked else ScriptError.UnknownName) }
    {
        if self.is_taken(name) {
            ScriptError::NotLinked
        } else {
            ScriptError::UnknownName
        }
    }

    // What is wrong with two names goes before what is wrong at their end.
    fn refusal_of(&self, router: &Zid, name: &Zid, error: ScriptError) -> ScriptError
        ensures { result ≡ (if is_some (router_of (state_of self.now).routers router.now) then (if is_taken (state_of self.now) name.now then error else ScriptError.UnknownName) else ScriptError.UnknownName) }
    {
        if self.is_router(router) && self.is_taken(name) {
            error
        } else {
            ScriptError::UnknownName
        }
    }
}

// A router hears of a message that has left the wire to its end.
fn hear_message(
    alloc: Global,
    router: &mut WorldRouter,
    link: LinkNo,
    x: Tagged,
    out: &mut Vec<(LinkNo, Msg)>,
) -> Result<Msg, ScriptError>
    requires { MayCome router.old.node (Event.From link x.msg) }
    ensures { IsHandled result router.old router.new link x out.new.items }
{
    let event = Event::From { link, msg: x.msg };
    match router.hear(alloc, &event, out) {
        Ok(()) => Ok(message_of(event)),
        Err(e) => Err(e),
    }
}

// A message goes to a neighbour, of which the router's end is the one named: onto the wire if it is a router, else to the client itself.
fn deliver<C: Carrier>(
    ends: &mut Ends<C>,
    clients: &mut BTreeMap<Zid, Client>,
    is_router: bool,
    at: (Zid, Zid),
    msg: &Msg,
    tag: u64,
) -> Result<(), AllocError>
    requires client { is_router ≡ false → is_some (end_of ends.old at) ≡ false }
    requires router { is_router ≡ true → MayGoTo ends.old at msg.now }
    ensures wire { OnOk result (ends.new ≡ changed ends.old at (λ s. sent s msg.now tag)) }
    ensures client { OnOk result (clients.new.entries ≡ received clients.old.entries at.0 msg.now (client_of clients.old.entries at.0)) }
{
    pass_on(ends, is_router, at, msg, tag)?;
    receive(clients, &at.0, msg)
}

// A message comes onto the wire to the end of a router. A client has no end of its own, so none is looked for.
fn pass_on<C: Carrier>(
    ends: &mut Ends<C>,
    is_router: bool,
    at: (Zid, Zid),
    msg: &Msg,
    tag: u64,
) -> Result<(), AllocError>
    requires client { is_router ≡ false → is_some (end_of ends.old at) ≡ false }
    requires router { is_router ≡ true → MayGoTo ends.old at msg.now }
    ensures { OnOk result (ends.new ≡ changed ends.old at (λ s. sent s msg.now tag)) }
{
    if is_router {
        return send(ends, at, msg, tag);
    }
    Ok(())
}

// A client is sent a message. A router is none of the clients.
#[tactic(auto, using(std::proofs::lemmas::Map::Steps::set_value_same))]
fn receive(clients: &mut BTreeMap<Zid, Client>, name: &Zid, msg: &Msg) -> Result<(), AllocError>
    ensures { OnOk result (clients.new.entries ≡ received clients.old.entries name.now msg.now (client_of clients.old.entries name.now)) }
{
    match clients.get_mut(name) {
        Some(client) => client.receive(msg),
        None => Ok(()),
    }
}

// The message of an event that brings one.
fn message_of(event: Event) -> Msg
    requires { IsSome (message_of event) }
    ensures { message_of event ≡ Some result }
{
    match event {
        Event::From { msg, .. } => msg,
        Event::Up { .. } | Event::Down { .. } => unreachable!(),
    }
}
