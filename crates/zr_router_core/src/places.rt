//! Where an event changes what is declared.

ghost use Rattle.std.specs.Prelude.{◌≡◌, ◌++◌, ◌∷◌, [], Some, IfOk, IfSome, OnOk};
ghost use Rattle.std.specs.Option.{option_map};
ghost use Rattle.zr_graph.specs.Base.{is_newer};
ghost use Rattle.zr_local.specs.Rows.{AreInOrder};
ghost use Rattle.zr_node_spec.specs.Tables.{link_at};
ghost use Rattle.zr_node_spec.specs.Table.{key_of, row};
ghost use Rattle.zr_told_spec.specs.Place.{class_of, place_of};
ghost use Rattle.zr_router_core.specs.Places.{AreKeys, places_under, places_declared, places_on, places_from, places_parted, places_down, places_up, places_told, changed_places, some_places};

use std::alloc::{AllocError, Global};
use zr_graph::base::Base;
use zr_id::link::LinkNo;
use zr_id::record::LinkRecord;
use zr_key::key::KeyExpr;
use zr_local::row::{self, Key, Row};
use zr_msg::decl::{Decl, Kind};
use zr_msg::event::Event;
use zr_msg::msg::Msg;
use zr_msg::peer::Role;
use zr_node::node::Node;
use zr_node_spec::kinds::able_kind;
use zr_told::place::class_of;
use zr_told_spec::place::Place;
use zr_tree::same::find_record;

/// Where an event changes what is declared: at these places alone, or anywhere where there is no list of them.
pub fn changed_places(
    alloc: Global,
    node: &Node,
    event: &Event,
) -> Result<Option<Vec<Place>>, AllocError>
    ensures places { IfOk result (λ o. option_map (λ v. v.items) o ≡ changed_places node.now event.now) }
    ensures keys { IfOk result (λ o. IfSome o (λ v. AreKeys v.items)) }
{
    match event {
        Event::Up { peer, .. } => Ok(places_up(alloc, peer.role)),
        Event::Down { link } => places_down(alloc, node, *link),
        Event::From { link, msg } => places_from(alloc, node, *link, msg),
    }
}

fn places_up(alloc: Global, role: Role) -> Option<Vec<Place>>
    ensures places { option_map (λ v. v.items) result ≡ places_up role }
    ensures keys { IfSome result (λ v. AreKeys v.items) }
{
    match role {
        Role::Client => Some(Vec::new(alloc)),
        Role::Router => None,
    }
}

fn places_down(alloc: Global, node: &Node, link: LinkNo) -> Result<Option<Vec<Place>>, AllocError>
    ensures places { IfOk result (λ o. option_map (λ v. v.items) o ≡ places_down node.now.rows link.0 (link_at node.now.links link.0)) }
    ensures keys { IfOk result (λ o. IfSome o (λ v. AreKeys v.items)) }
{
    match node.peer_at(link) {
        Some(peer) => places_parted(alloc, node.rows(), link, peer.role),
        None => Ok(Some(Vec::new(alloc))),
    }
}

fn places_parted(
    alloc: Global,
    rows: &[Row],
    link: LinkNo,
    role: Role,
) -> Result<Option<Vec<Place>>, AllocError>
    ensures places { IfOk result (λ o. option_map (λ v. v.items) o ≡ places_parted rows.now link.0 role) }
    ensures keys { IfOk result (λ o. IfSome o (λ v. AreKeys v.items)) }
{
    match role {
        Role::Client => Ok(Some(places_on(alloc, rows, link)?)),
        Role::Router => Ok(None),
    }
}

fn places_from(
    alloc: Global,
    node: &Node,
    link: LinkNo,
    msg: &Msg,
) -> Result<Option<Vec<Place>>, AllocError>
    ensures places { IfOk result (λ o. option_map (λ v. v.items) o ≡ places_from node.now link.0 msg.now) }
    ensures keys { IfOk result (λ o. IfSome o (λ v. AreKeys v.items)) }
{
    let rows = node.rows();
    match msg {
        Msg::Sub { id, key } => some(places_declared(alloc, rows, link, *id, Kind::Sub, key)),
        Msg::Unsub { id } => some(places_under(alloc, rows, link, *id, Kind::Sub)),
        Msg::Able { id, key, complete } => {
            let kind = able_kind(*complete);
            some(places_declared(alloc, rows, link, *id, kind, key))
        }
        Msg::Unable { id } => some(places_under(alloc, rows, link, *id, Kind::Able)),
        Msg::Token { id, key } => some(places_declared(alloc, rows, link, *id, Kind::Token, key)),
        Msg::Untoken { id } => some(places_under(alloc, rows, link, *id, Kind::Token)),
        Msg::Step { decl, .. } => some(place_alone(alloc, decl.get())),
        Msg::State { links } => Ok(places_told(alloc, node.base(), links.get())),
        Msg::Snap { .. } => Ok(None),
        Msg::Interest { .. }
        | Msg::EndInterest { .. }
        | Msg::ToldSub { .. }
        | Msg::ToldAble { .. }
        | Msg::ToldUnsub { .. }
        | Msg::ToldUnable { .. }
        | Msg::ToldToken { .. }
        | Msg::ToldUntoken { .. }
        | Msg::ToldEnd { .. }
        | Msg::Push { .. }
        | Msg::Request { .. }
        | Msg::Response { .. }
        | Msg::Final { .. } => Ok(Some(Vec::new(alloc))),
    }
}

fn places_told(alloc: Global, base: &Base, told: &LinkRecord) -> Option<Vec<Place>>
    ensures places { option_map (λ v. v.items) result ≡ places_told base.now told.now }
    ensures keys { IfSome result (λ v. AreKeys v.items) }
{
    if is_newer(base, told) {
        None
    } else {
        Some(Vec::new(alloc))
    }
}

// Whether a record of another router is newer than what is known of it.
fn is_newer(base: &Base, told: &LinkRecord) -> bool
    ensures { result ≡ is_newer base.now told.now }
{
    if told.id() == base.me() {
        return false;
    }
    match find_record(base.records(), &told.id()) {
        Some(known) => known.seq() < told.seq(),
        None => true,
    }
}

fn some(places: Result<Vec<Place>, AllocError>) -> Result<Option<Vec<Place>>, AllocError>
    ensures { result ≡ some_places places }
{
    match places {
        Ok(places) => Ok(Some(places)),
        Err(error) => Err(error),
    }
}

// What a declaration replaces, and what it declares.
fn places_declared(
    alloc: Global,
    rows: &[Row],
    link: LinkNo,
    id: u32,
    kind: Kind,
    key: &KeyExpr,
) -> Result<Vec<Place>, AllocError>
    requires { AreInOrder rows.now }
    ensures places { IfOk result (λ v. v.items ≡ places_declared rows.now (row link.0 id kind key.now)) }
    ensures keys { IfOk result (λ v. AreKeys v.items) }
{
    let mut places = places_under(alloc, rows, link, id, kind)?;
    put_place(alloc, kind, key, &mut places)?;
    Ok(places)
}

// What the client of a link has declared under an id in this kind, if it has.
fn places_under(
    alloc: Global,
    rows: &[Row],
    link: LinkNo,
    id: u32,
    kind: Kind,
) -> Result<Vec<Place>, AllocError>
    requires { AreInOrder rows.now }
    ensures places { IfOk result (λ v. v.items ≡ places_under rows.now (key_of link.0 id kind)) }
    ensures keys { IfOk result (λ v. AreKeys v.items) }
{
    let mut places = Vec::new(alloc);
    if let Ok(at) = row::place_of(rows, Key::new(link, id, kind)) {
        let decl = &rows[at].decl;
        put_place(alloc, decl.kind, &decl.key, &mut places)?;
    }
    Ok(places)
}

// All that the client of a link has declared.
fn places_on(alloc: Global, rows: &[Row], link: LinkNo) -> Result<Vec<Place>, AllocError>
    ensures places { IfOk result (λ v. v.items ≡ places_on rows.now link.0) }
    ensures keys { IfOk result (λ v. AreKeys v.items) }
{
    let mut places = Vec::new(alloc);
    for row in rows {
        if row.link.0 == link.0 {
            put_place(alloc, row.decl.kind, &row.decl.key, &mut places)?;
        }
    }
    Ok(places)
}

fn place_alone(alloc: Global, decl: &Decl) -> Result<Vec<Place>, AllocError>
    ensures places { IfOk result (λ v. v.items ≡ place_of decl.now ∷ []) }
    ensures keys { IfOk result (λ v. AreKeys v.items) }
{
    let mut places = Vec::new(alloc);
    put_place(alloc, decl.kind, &decl.key, &mut places)?;
    Ok(places)
}

fn put_place(
    alloc: Global,
    kind: Kind,
    key: &KeyExpr,
    places: &mut Vec<Place>,
) -> Result<(), AllocError>
    ensures places { OnOk result (places.new.items ≡ places.old.items ++ record { class = class_of kind; key = key.now } ∷ []) }
    ensures keys { OnOk result (AreKeys places.old.items → AreKeys places.new.items) }
{
    // Read, so that the proof knows that the key is the text of an expression.
    let _text = key.text();
    let key = key.copy(alloc)?;
    let class = class_of(kind);
    places.push(Place { class, key })?;
    Ok(())
}
