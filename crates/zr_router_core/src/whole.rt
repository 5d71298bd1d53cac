//! An event at a router and its clients.

ghost use Rattle.std.specs.Prelude.{◌≡◌, IfSome, None, OnOk};
ghost use Rattle.std.specs.Option.{option_map};
ghost use Rattle.zr_node_spec.specs.Event.{AreLinks, MayCome};
ghost use Rattle.zr_node_spec.specs.Table.{refuses};
ghost use Rattle.zr_told_interested.specs.ByKey.{IsOf};
ghost use Rattle.zr_router_core.specs.Lasting.{IsKnown, IsStillKnown, changes_interests};
ghost use Rattle.zr_told_spec.specs.Rows.{map_on};
ghost use Rattle.zr_router_core.specs.Done.{IsDone, answer_of, have_ids};
ghost use Rattle.zr_router_core.specs.Places.{AreKeys, changed_places};
ghost use Rattle.zr_router_core.specs.Right.{AreOrdered, IsBefore, IsSound};

use crate::failure::HubFailure;
use crate::handled::{handle, lacking};
use crate::places::changed_places;
use crate::quiet::{is_own, leaves_interests, tells_nobody};
use crate::room::judge;
use crate::tell::tell;
use std::alloc::{AllocError, Global};
use zr_id::link::LinkNo;
use zr_msg::event::Event;
use zr_msg::msg::Msg;
use zr_node::node::Node;
use zr_told::told::Told;
use zr_told_interested::interested::Interested;
use zr_told_spec::place::Place;

/// The router handles an event, and behind that its clients are told what it changed.
pub fn on_event(
    alloc: Global,
    node: &mut Node,
    told: &mut Told,
    interested: &mut Interested,
    event: &Event,
    out: &mut Vec<(LinkNo, Msg)>,
) -> Result<(), HubFailure>
    requires sound { IsSound node.old told.old }
    requires known { IsOf node.old.clients interested.old }
    requires may_come { MayCome node.old event.now }
    ensures done { IsDone node.old told.old event.now result node.new told.new out.old.items out.new.items }
    ensures sound { OnOk result (IsSound node.new told.new) }
    ensures known { IsKnown node.new.clients interested.new result }
{
    forget_changed(interested, node, event);
    if tells_nobody(node.clients(), event) {
        return handle(alloc, node, event, out);
    }
    know_order(node);
    match changed_places(alloc, node, event) {
        Ok(places) => on_change(alloc, node, told, interested, event, &places, out),
        Err(AllocError) => Err(lacking(node, event)),
    }
}

// It does nothing: a proof learns in which order a router keeps what it knows.
fn know_order(node: &Node)
    ensures ordered { AreOrdered node.now }
    ensures links { AreLinks node.now.base.me node.now.links }
{
    // Read, so that the proof knows that these ascend.
    let _links = node.links();
    let _rows = node.rows();
    let _logs = node.logs();
}

// What was found out of interests is forgotten where they change.
fn forget_changed(interested: &mut Interested, node: &Node, event: &Event)
    requires { IsOf node.now.clients interested.old }
    ensures { IsStillKnown node.now event.now interested.new }
{
    if !changes_interests(node, event) {
        return;
    }
    interested.clear();
}

fn changes_interests(node: &Node, event: &Event) -> bool
    ensures { result ≡ changes_interests node.now.clients event.now }
{
    is_own(event) || leaves_interests(node.clients(), event)
}

fn on_change(
    alloc: Global,
    node: &mut Node,
    told: &mut Told,
    interested: &mut Interested,
    event: &Event,
    places: &Option<Vec<Place>>,
    out: &mut Vec<(LinkNo, Msg)>,
) -> Result<(), HubFailure>
    requires before { IsBefore node.old event.now (λ k. map_on told.old k) }
    requires sound { IsSound node.old told.old }
    requires lasting { IsStillKnown node.old event.now interested.old }
    requires places { option_map (λ v. v.items) places.now ≡ changed_places node.old event.now }
    requires keys { IfSome places.now (λ v. AreKeys v.items) }
    ensures done { IsDone node.old told.old event.now result node.new told.new out.old.items out.new.items }
    ensures sound { OnOk result (IsSound node.new told.new) }
    ensures known { IsKnown node.new.clients interested.new result }
{
    match judge(alloc, node, event) {
        Ok(()) => on_judged(alloc, node, told, interested, event, places, out),
        Err(HubFailure::Refused(error)) => Err(HubFailure::Refused(error)),
        Err(HubFailure::NoMemory) => Err(HubFailure::NoMemory),
    }
}

fn on_judged(
    alloc: Global,
    node: &mut Node,
    told: &mut Told,
    interested: &mut Interested,
    event: &Event,
    places: &Option<Vec<Place>>,
    out: &mut Vec<(LinkNo, Msg)>,
) -> Result<(), HubFailure>
    requires before { IsBefore node.old event.now (λ k. map_on told.old k) }
    requires sound { IsSound node.old told.old }
    requires lasting { IsStillKnown node.old event.now interested.old }
    requires places { option_map (λ v. v.items) places.now ≡ changed_places node.old event.now }
    requires keys { IfSome places.now (λ v. AreKeys v.items) }
    requires ids { refuses node.old event.now ≡ None → have_ids node.old event.now }
    ensures done { IsDone node.old told.old event.now result node.new told.new out.old.items out.new.items }
    ensures sound { OnOk result (IsSound node.new told.new) }
    ensures known { IsKnown node.new.clients interested.new result }
{
    match handle(alloc, node, event, out) {
        Ok(()) => answer(tell(alloc, node, told, interested, event, places, out)),
        Err(HubFailure::Refused(error)) => Err(HubFailure::Refused(error)),
        Err(HubFailure::NoMemory) => Err(HubFailure::NoMemory),
    }
}

fn answer(told: Result<(), AllocError>) -> Result<(), HubFailure>
    ensures { result ≡ answer_of told }
{
    match told {
        Ok(()) => Ok(()),
        Err(AllocError) => Err(HubFailure::NoMemory),
    }
}
