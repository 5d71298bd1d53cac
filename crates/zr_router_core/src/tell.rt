//! What clients are told once the router has handled an event.

ghost use Rattle.std.specs.Prelude.{◌≡◌, ◌==◌, ◌++◌, ℕ, [], true, false, not, Some, None, IfOk, OnOk, OnErr, if◌then◌else◌};
ghost use Rattle.std.specs.Option.{option_copied, option_map};
ghost use Rattle.std.specs.Ordering.{nat_cmp};
ghost use Rattle.zr_lists.specs.Ascending.{at_key};
ghost use Rattle.zr_local.specs.Clients.{AreByLink, client_link, interests_on};
ghost use Rattle.zr_node_spec.specs.Tables.{is_router, leads_to_client, link_at};
ghost use Rattle.zr_lists.specs.Prefix.{IsPrefixBehind};
ghost use Rattle.zr_node_spec.specs.State.{tables};
ghost use Rattle.zr_told_spec.specs.Hub.{tells_with, told_with};
ghost use Rattle.zr_told_spec.specs.Rows.{AreAsWantedBut, AreListed, IsNoted, map_on, one_lacks_ids, others, sent_on, tells_all, told_on};
ghost use Rattle.zr_router_core.specs.Done.{IsToldOf};
ghost use Rattle.zr_told_interested.specs.ByKey.{IsOf};
ghost use Rattle.zr_told_interested.specs.Among.{AreFound};
ghost use Rattle.zr_router_core.specs.Lasting.{AreLinksAt};
ghost use Rattle.zr_router_core.specs.Ready.{IsButAt, IsReady, IsToTell, is_nowhere, is_own, is_own_msg, is_silent, still_told};

use crate::quiet::is_own;
use std::alloc::{AllocError, Global};
use zr_id::link::LinkNo;
use zr_key::key::KeyExpr;
use zr_local::interest::{ClientInterests, Interest, copied};
use zr_msg::event::Event;
use zr_msg::msg::{Kinds, Msg};
use zr_msg::peer::{LinkPeer, Role};
use zr_node::node::Node;
use zr_node_spec::tables::TablesView;
use zr_told::error::ToldError;
use zr_told::told::Told;
use zr_told_interested::interested::Interested;
use zr_told_spec::place::Place;

/// The clients are told what an event changed: at these places, or anywhere. The router has handled it.
pub fn tell(
    alloc: Global,
    node: &mut Node,
    told: &mut Told,
    interested: &mut Interested,
    event: &Event,
    places: &Option<Vec<Place>>,
    out: &mut Vec<(LinkNo, Msg)>,
) -> Result<(), AllocError>
    requires to_tell { IsToTell (tables node.old) event.now (option_map (λ v. v.items) places.now) (λ k. map_on told.old k) }
    requires known { IsOf node.old.clients interested.old }
    ensures same { node.new ≡ node.old }
    ensures told { IsToldOf (tables node.old) event.now result told.old told.new out.old.items out.new.items }
    ensures known { IsOf node.old.clients interested.new }
{
    forget(told, event);
    if is_silent(node.clients(), event, places) {
        return Ok(());
    }
    tell_lent(alloc, node, told, interested, event, places, out)
}

// So it is where some client may be told something, and what was told on a link that is down was forgotten.
fn tell_lent(
    alloc: Global,
    node: &mut Node,
    told: &mut Told,
    interested: &mut Interested,
    event: &Event,
    places: &Option<Vec<Place>>,
    out: &mut Vec<(LinkNo, Msg)>,
) -> Result<(), AllocError>
    requires ready { IsReady (tables node.old) event.now (option_map (λ v. v.items) places.now) (λ k. map_on told.old k) }
    requires known { IsOf node.old.clients interested.old }
    ensures same { node.new ≡ node.old }
    ensures told { IsToldOf (tables node.old) event.now result told.old told.new out.old.items out.new.items }
    ensures known { IsOf node.old.clients interested.new }
{
    let links = links_at(alloc, interested, node.clients(), event, places)?;
    let trees = node.take_trees(alloc)?;
    let tables = node.tables(&trees);
    let answer = tell_by(alloc, &tables, told, event, places, &links, out);
    node.put_trees(trees);
    answer
}

// Where it is known at which places declarations changed: the links of the clients that may be told of it. None are looked for where one client
// alone may be told anything.
fn links_at(
    alloc: Global,
    interested: &mut Interested,
    clients: &[ClientInterests],
    event: &Event,
    places: &Option<Vec<Place>>,
) -> Result<Vec<u32>, AllocError>
    requires by_link { AreByLink clients.now }
    requires known { IsOf clients.now interested.old }
    ensures known { IsOf clients.now interested.new }
    ensures links { IfOk result (λ v. is_own event.now ≡ false → AreLinksAt (option_map (λ v. v.items) places.now) clients.now v.items) }
{
    if is_own(event) {
        return Ok(Vec::new(alloc));
    }
    match places {
        Some(places) => interested.find(alloc, clients, places),
        None => Ok(Vec::new(alloc)),
    }
}

// The client of a link that is down is gone.
fn forget(told: &mut Told, event: &Event)
    ensures { (k : ℕ) → map_on told.new k ≡ still_told event.now (λ j. map_on told.old j) k }
{
    if let Event::Down { link } = event {
        told.leave(*link);
    }
}

// Whether no client is told anything: none has an interest or one that changes, or nothing that is declared changed.
fn is_silent(clients: &[ClientInterests], event: &Event, places: &Option<Vec<Place>>) -> bool
    ensures { result ≡ is_silent clients.now event.now (option_map (λ v. v.items) places.now) }
{
    !is_own(event) && (clients.is_empty() || is_nowhere(places))
}

fn is_nowhere(places: &Option<Vec<Place>>) -> bool
    ensures { result ≡ is_nowhere (option_map (λ v. v.items) places.now) }
{
    match places {
        Some(places) => places.is_empty(),
        None => false,
    }
}

fn tell_by(
    alloc: Global,
    tables: &TablesView,
    told: &mut Told,
    event: &Event,
    places: &Option<Vec<Place>>,
    links: &[u32],
    out: &mut Vec<(LinkNo, Msg)>,
) -> Result<(), AllocError>
    requires ready { IsReady tables.now event.now (option_map (λ v. v.items) places.now) (λ k. map_on told.old k) }
    requires links { is_own event.now ≡ false → AreLinksAt (option_map (λ v. v.items) places.now) tables.now.clients links.now }
    ensures { IsToldOf tables.now event.now result told.old told.new out.old.items out.new.items }
{
    if !is_own(event) {
        return tell_all(alloc, tables, told, places, links, out);
    }
    match event {
        Event::From { link, msg } => tell_own(alloc, tables, told, *link, msg, out),
        Event::Up { .. } | Event::Down { .. } => Ok(()),
    }
}

// A client has a new interest, or one ends: it alone is told anything.
fn tell_own(
    alloc: Global,
    tables: &TablesView,
    told: &mut Told,
    link: LinkNo,
    msg: &Msg,
    out: &mut Vec<(LinkNo, Msg)>,
) -> Result<(), AllocError>
    requires own { is_own_msg msg.now ≡ true }
    requires ready { IsReady tables.now (Event.From link msg.now) (Some []) (λ k. map_on told.old k) }
    ensures { IsToldOf tables.now (Event.From link msg.now) result told.old told.new out.old.items out.new.items }
{
    if !leads_to_client(tables, link) {
        return Ok(());
    }
    match msg {
        Msg::Interest {
            id,
            current,
            future,
            kinds,
            key,
            aggregate,
        } => {
            let interest = interest_of(alloc, *id, *kinds, key, *aggregate)?;
            tell_asking(alloc, tables, told, link, &interest, *current, *future, out)
        }
        _ => tell_ended(alloc, tables, told, link, out),
    }
}

fn interest_of(
    alloc: Global,
    id: u32,
    kinds: Kinds,
    key: &Option<KeyExpr>,
    aggregate: bool,
) -> Result<Interest, AllocError>
    ensures { IfOk result (λ i. i ≡ record { id = id; kinds = kinds; key = key.now; aggregate = aggregate }) }
{
    Ok(Interest {
        id,
        kinds,
        key: copied(alloc, key)?,
        aggregate,
    })
}

fn tell_asking(
    alloc: Global,
    tables: &TablesView,
    told: &mut Told,
    link: LinkNo,
    interest: &Interest,
    current: bool,
    future: bool,
    out: &mut Vec<(LinkNo, Msg)>,
) -> Result<(), AllocError>
    requires noted { IsNoted future interest.now (interests_on tables.now.clients link.0) }
    requires ids { one_lacks_ids tables.now tables.now.clients ≡ false }
    ensures map { OnOk result ((k : ℕ) → map_on told.new k ≡ (if link.0 == k then told_with tables.now (map_on told.old link.0) link.0 (Some (record { current = current; future = future; interest = interest.now })) else map_on told.old k)) }
    ensures sends { OnOk result (out.new.items ≡ out.old.items ++ sent_on link (tells_with tables.now (map_on told.old link.0) link.0 (Some (record { current = current; future = future; interest = interest.now })))) }
    ensures prefix { OnErr result (IsPrefixBehind out.old.items (sent_on link (tells_with tables.now (map_on told.old link.0) link.0 (Some (record { current = current; future = future; interest = interest.now })))) out.new.items) }
{
    let interests = interests_on(tables.local().clients(), link);
    match told.interest(
        alloc, tables, link, interests, interest, current, future, out,
    ) {
        Ok(()) => Ok(()),
        Err(ToldError::NoMemory) => Err(AllocError),
        Err(ToldError::Worn) => unreachable!(),
    }
}

fn tell_ended(
    alloc: Global,
    tables: &TablesView,
    told: &mut Told,
    link: LinkNo,
    out: &mut Vec<(LinkNo, Msg)>,
) -> Result<(), AllocError>
    requires { one_lacks_ids tables.now tables.now.clients ≡ false }
    ensures map { OnOk result ((k : ℕ) → map_on told.new k ≡ (if link.0 == k then told_with tables.now (map_on told.old link.0) link.0 None else map_on told.old k)) }
    ensures sends { OnOk result (out.new.items ≡ out.old.items ++ sent_on link (tells_with tables.now (map_on told.old link.0) link.0 None)) }
    ensures prefix { OnErr result (IsPrefixBehind out.old.items (sent_on link (tells_with tables.now (map_on told.old link.0) link.0 None)) out.new.items) }
{
    let interests = interests_on(tables.local().clients(), link);
    match told.changed(alloc, tables, link, interests, out) {
        Ok(()) => Ok(()),
        Err(ToldError::NoMemory) => Err(AllocError),
        Err(ToldError::Worn) => unreachable!(),
    }
}

// What is declared changed, and no interest did: each client is told of it.
fn tell_all(
    alloc: Global,
    tables: &TablesView,
    told: &mut Told,
    places: &Option<Vec<Place>>,
    links: &[u32],
    out: &mut Vec<(LinkNo, Msg)>,
) -> Result<(), AllocError>
    requires links { AreLinksAt (option_map (λ v. v.items) places.now) tables.now.clients links.now }
    requires changed { (k : ℕ) → IsButAt (option_map (λ v. v.items) places.now) (others tables.now k) (interests_on tables.now.clients k) (map_on told.old k) }
    requires ids { one_lacks_ids tables.now tables.now.clients ≡ false }
    ensures map { OnOk result ((k : ℕ) → map_on told.new k ≡ told_on tables.now tables.now.clients told.old k) }
    ensures sends { OnOk result (out.new.items ≡ out.old.items ++ tells_all tables.now tables.now.clients told.old) }
    ensures prefix { OnErr result (IsPrefixBehind out.old.items (tells_all tables.now tables.now.clients told.old) out.new.items) }
    ensures in_order { AreByLink tables.now.clients }
{
    match places {
        Some(places) => tell_at(alloc, tables, told, places, links, out),
        None => tell_anywhere(alloc, tables, told, out),
    }
}

fn tell_at(
    alloc: Global,
    tables: &TablesView,
    told: &mut Told,
    places: &[Place],
    links: &[u32],
    out: &mut Vec<(LinkNo, Msg)>,
) -> Result<(), AllocError>
    requires found { AreFound places.now links.now tables.now.clients }
    requires changed { AreAsWantedBut places.now tables.now tables.now.clients told.old }
    requires ids { one_lacks_ids tables.now tables.now.clients ≡ false }
    ensures map { OnOk result ((k : ℕ) → map_on told.new k ≡ told_on tables.now tables.now.clients told.old k) }
    ensures sends { OnOk result (out.new.items ≡ out.old.items ++ tells_all tables.now tables.now.clients told.old) }
    ensures prefix { OnErr result (IsPrefixBehind out.old.items (tells_all tables.now tables.now.clients told.old) out.new.items) }
    ensures in_order { AreByLink tables.now.clients }
{
    let clients = tables.local().clients();
    match told.changed_at(alloc, tables, clients, places, links, out) {
        Ok(()) => Ok(()),
        Err(ToldError::NoMemory) => Err(AllocError),
        Err(ToldError::Worn) => unreachable!(),
    }
}

fn tell_anywhere(
    alloc: Global,
    tables: &TablesView,
    told: &mut Told,
    out: &mut Vec<(LinkNo, Msg)>,
) -> Result<(), AllocError>
    requires listed { AreListed tables.now.clients told.old }
    requires ids { one_lacks_ids tables.now tables.now.clients ≡ false }
    ensures map { OnOk result ((k : ℕ) → map_on told.new k ≡ told_on tables.now tables.now.clients told.old k) }
    ensures sends { OnOk result (out.new.items ≡ out.old.items ++ tells_all tables.now tables.now.clients told.old) }
    ensures prefix { OnErr result (IsPrefixBehind out.old.items (tells_all tables.now tables.now.clients told.old) out.new.items) }
    ensures in_order { AreByLink tables.now.clients }
{
    match told.changed_all(alloc, tables, tables.local().clients(), out) {
        Ok(()) => Ok(()),
        Err(ToldError::NoMemory) => Err(AllocError),
        Err(ToldError::Worn) => unreachable!(),
    }
}

fn leads_to_client(tables: &TablesView, link: LinkNo) -> bool
    ensures { result ≡ leads_to_client tables.now.links link.0 }
{
    match link_at(tables.links(), link) {
        Some(l) => is_client(l.peer.role),
        None => false,
    }
}

fn link_at(links: &[LinkPeer], link: LinkNo) -> Option<LinkPeer>
    ensures { result ≡ link_at links.now link.0 }
{
    links.iter().copied().find(|l| l.link.0 == link.0)
}

fn is_client(role: Role) -> bool
    ensures { result ≡ not (is_router role) }
{
    match role {
        Role::Client => true,
        Role::Router => false,
    }
}

// The live interests of the client of a link.
fn interests_on(clients: &[ClientInterests], link: LinkNo) -> &[Interest]
    ensures { result.now ≡ interests_on clients.now link.0 }
{
    match client_on(clients, link) {
        Some(client) => client.interests.as_slice(),
        None => &[],
    }
}

fn client_on(clients: &[ClientInterests], link: LinkNo) -> Option<&ClientInterests>
    ensures { option_copied result ≡ at_key nat_cmp client_link clients.now link.0 }
{
    clients.iter().find(|c| c.link.0.cmp(&link.0).is_eq())
}
