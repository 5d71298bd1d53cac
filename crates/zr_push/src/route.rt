//! `Route`: the links over which a sample or a request on a key goes on in a tree.

ghost use Rattle.std.specs.Prelude.{◌≡◌, IfOk, IfSome, map, filter};
ghost use Rattle.zr_node_spec.specs.Queries.{tree_for};
ghost use Rattle.zr_node_spec.specs.Tables.{TableState};
ghost use Rattle.zr_push_sought.specs.Found.{TellClients};
ghost use Rattle.zr_push_sought.specs.Holders.{AreFound, HoldJust};
ghost use Rattle.zr_push_sought.specs.Pairs.{declared_by};
ghost use Rattle.zr_push_sought.specs.Sought.{by_meeting};
ghost use Rattle.zr_push.specs.Route.{goes_on, is_stop, route_of, stop_at, stops_from};

use std::alloc::{AllocError, Global};
use std::marker::Model;
use zr_id::link::LinkNo;
use zr_id::zid::Zid;
use zr_key::key::KeyExpr;
use zr_msg::peer::{LinkPeer, Role};
use zr_node_spec::tables::TablesView;
use zr_push_sought::client_rows::ClientRows;
use zr_push_sought::found::Found;
use zr_push_sought::holders::Holders;
use zr_push_sought::hops::Hops;
use zr_push_sought::search::has_declared;
use zr_push_sought::sought::Sought;

/// A link of a route, and who is at its other end.
#[derive(Clone, Copy)]
pub struct RouteLink {
    pub link: LinkNo,
    pub role: Role,
}

impl RouteLink {
    /// Whether what came over a link goes on to this stop: it doesn't go back to a client.
    pub fn takes_from(&self, from: LinkNo) -> bool
        ensures { result ≡ goes_on from.0 self.now self.now.role }
    {
        match self.role {
            Role::Client => self.link.0 != from.0,
            Role::Router => true,
        }
    }

    /// The tree that a message names to this stop: clients know of no trees.
    pub fn named(&self, tree: Zid) -> Option<Zid>
        ensures { result ≡ tree_for tree self.now.role }
    {
        match self.role {
            Role::Client => None,
            Role::Router => Some(tree),
        }
    }
}

/// The links over which a sample or a request on a key goes on in a tree, in their order. The client that it comes from is among them if
/// it has declared what is sought.
#[derive(Drop)]
pub struct Route {
    stops: Vec<RouteLink>,
}

impl Model for Route {
    ghost use Rattle.std.specs.Prelude.{List};
    ghost use Rattle.zr_push.specs.declared.route.RouteLink.{RouteLink};

    ghost Value = { List RouteLink };

    ghost view = { λ r. r.stops.items };
}

impl Route {
    /// The route in a tree to what is sought for a key.
    pub fn of(
        alloc: Global,
        tables: &TablesView,
        tree: Zid,
        sought: Sought,
        key: &KeyExpr,
    ) -> Result<Route, AllocError>
        ensures { IfOk result (λ r. r ≡ route_of tables.now tree sought key.now) }
    {
        Route::by(alloc, tables, tree, None, sought, key)
    }

    /// The same, by an index of who has declared something, if there is one by now, and memory to read it.
    pub fn found(
        alloc: Global,
        tables: &TablesView,
        holders: &mut Holders,
        tree: Zid,
        sought: Sought,
        key: &KeyExpr,
    ) -> Result<Route, AllocError>
        requires { HoldJust (declared_by tables.now) holders.old }
        ensures holders { HoldJust (declared_by tables.now) holders.new }
        ensures route { IfOk result (λ r. r ≡ route_of tables.now tree sought key.now) }
    {
        holders.prepare(alloc, tables, sought);
        match holders.find(alloc, tables, sought, key) {
            Some(found) => Route::by(alloc, tables, tree, Some(&found), sought, key),
            None => Route::of(alloc, tables, tree, sought, key),
        }
    }

    /// The same, where it may be known who has declared what meets the key. Otherwise all declarations are looked at.
    pub fn by(
        alloc: Global,
        tables: &TablesView,
        tree: Zid,
        found: Option<&Found>,
        sought: Sought,
        key: &KeyExpr,
    ) -> Result<Route, AllocError>
        requires { IfSome found (λ f. AreFound tables.now (by_meeting sought) key.now f.now) }
        ensures { IfOk result (λ r. r ≡ route_of tables.now tree sought key.now) }
    {
        let hops = Hops::to(alloc, tables, tree, found, sought, key)?;
        Ok(Route {
            stops: stops_on(alloc, tables, &hops, found, sought, key)?,
        })
    }

    /// The stops, in the order of their links.
    pub fn stops(&self) -> &[RouteLink]
        ensures { result.now ≡ self.now }
    {
        self.stops.as_slice()
    }

    /// The stops but for the client that a message has come from, in the order of their links.
    pub fn stops_from(&self, alloc: Global, from: LinkNo) -> Result<Vec<RouteLink>, AllocError>
        ensures { IfOk result (λ v. v.items ≡ stops_from self.now from.0) }
    {
        stops_from(alloc, self.stops.as_slice(), from)
    }
}

fn stops_from(
    alloc: Global,
    stops: &[RouteLink],
    from: LinkNo,
) -> Result<Vec<RouteLink>, AllocError>
    ensures { IfOk result (λ v. v.items ≡ stops_from stops.now from.0) }
{
    let mut left = Vec::new(alloc);
    for stop in stops {
        if stop.takes_from(from) {
            left.push(*stop)?;
        }
    }
    Ok(left)
}

// The stops at the links on the route, where these neighbours are those on the way.
fn stops_on(
    alloc: Global,
    tables: &TablesView,
    hops: &Hops,
    found: Option<&Found>,
    sought: Sought,
    key: &KeyExpr,
) -> Result<Vec<RouteLink>, AllocError>
    requires { IfSome found (λ f. TellClients (by_meeting sought) key.now tables.now.rows f.now.holders.items) }
    ensures { IfOk result (λ v. v.items ≡ map (λ l. stop_at l) (filter (λ l. is_stop tables.now hops.now sought key.now l l.peer.role) tables.now.links)) }
{
    let links = tables.links();
    let mut rows = ClientRows::of(tables.local());
    let mut stops = Vec::new(alloc);
    for link in links {
        if is_stop(&mut rows, hops, found, sought, key, link) {
            stops.push(stop_at(link))?;
        }
    }
    Ok(stops)
}

fn is_stop(
    rows: &mut ClientRows,
    hops: &Hops,
    found: Option<&Found>,
    sought: Sought,
    key: &KeyExpr,
    link: &LinkPeer,
) -> bool
    requires { IfSome found (λ f. TellClients (by_meeting sought) key.now rows.old f.now.holders.items) }
    ensures kept { rows.new ≡ rows.old }
    ensures stop { (t : TableState) → rows.old ≡ t.rows → result ≡ is_stop t hops.now sought key.now link.now link.now.peer.role }
{
    match link.peer.role {
        Role::Client => has_declared(rows, found, link.link, sought, key),
        Role::Router => hops.has(&link.peer.id),
    }
}

fn stop_at(link: &LinkPeer) -> RouteLink
    ensures { result ≡ stop_at link.now }
{
    RouteLink {
        link: link.link,
        role: link.peer.role,
    }
}
