//! Requests at a router: which are refused for who asks, and along which route one goes.

ghost use Rattle.std.specs.Prelude.{◌≡◌, ℕ, List, Option, Some, None, false, true, OnOk, OnErr};
ghost use Rattle.zr_node.specs.Requests.{refuses_asker};
ghost use Rattle.zr_push.specs.Routes.{AreRoutes};
ghost use Rattle.zr_push_sought.specs.Holders.{HoldJust};
ghost use Rattle.zr_push_sought.specs.Pairs.{declared_by};
ghost use Rattle.zr_pend_spec.specs.Pending.{asked};
ghost use Rattle.zr_node_spec.specs.Queries.{after_request, asked_links, gathering_if, has_no_number, sends_request};
ghost use Rattle.zr_node_spec.specs.Samples.{tree_of};
ghost use Rattle.zr_node_spec.specs.Tables.{AreNumbered, link_at};
ghost use Rattle.zr_node_spec.specs.Event.{Tells, TellsPrefix};

use std::alloc::Global;
use zr_id::link::LinkNo;
use zr_id::zid::Zid;
use zr_msg::content::Content;
use zr_msg::error::NodeError;
use zr_msg::msg::{Msg, Target};
use zr_msg::peer::LinkPeer;
use zr_node_spec::tables::TablesView;
use zr_pend::pending::Pending;
use zr_pend_spec::branch::Asker;
use zr_push::push::tree_of;
use zr_push::route::Route;
use zr_push::routes::Routes;
use zr_push_sought::holders::Holders;
use zr_push_sought::sought::sought_by;
use zr_query::asking::{RequestError, refuse, request};

/// How many requests a client has pending at most.
const MOST_PENDING: u32 = 4_096;

/// Why a request is refused for who asks: under its number one is pending, or the client has as many pending as it may.
pub fn refusal(pending: &Pending, from: Asker, is_client: bool) -> Option<NodeError>
    ensures { result ≡ refuses_asker pending.now.rows from is_client }
{
    if pending.asked(from.link, from.number) {
        return Some(NodeError::NumberTaken { id: from.number });
    }
    if is_client && pending.count(from.link) >= MOST_PENDING as u64 {
        return Some(NodeError::TooMany {
            pending: MOST_PENDING,
        });
    }
    None
}

/// A request of a link goes on in the tree that it stays in, or a final goes back at once where it stays in none.
pub fn ask(
    alloc: Global,
    tables: &TablesView,
    holders: &mut Holders,
    routes: &mut Routes,
    pending: &mut Pending,
    from: Asker,
    link: Option<LinkPeer>,
    named: Option<Zid>,
    target: Target,
    content: &Content,
    latest: bool,
    out: &mut Vec<(LinkNo, Msg)>,
) -> Result<(), RequestError>
    requires holders { HoldJust (declared_by tables.now) holders.old }
    requires routes { AreRoutes routes.old tables.now }
    requires numbered { AreNumbered tables.now.links }
    requires fresh { asked from pending.old.rows ≡ false }
    requires at { link_at tables.now.links from.link.0 ≡ link }
    ensures holders { HoldJust (declared_by tables.now) holders.new }
    ensures routes { AreRoutes routes.new tables.now }
    ensures sends { OnOk result (Tells (sends_request tables.now pending.old.rows from.link.0 named from.number target content.now) out.old.items out.new.items) }
    ensures rows { OnOk result (pending.new.rows ≡ after_request tables.now pending.old.rows from.link.0 named from.number target content.now.key) }
    ensures held { OnOk result (pending.new.held ≡ gathering_if pending.old.held latest from (asked_links tables.now from.link.0 named target content.now.key)) }
    ensures room { OnOk result (has_no_number pending.old.rows (asked_links tables.now from.link.0 named target content.now.key) ≡ false) }
    ensures full { result ≡ Err RequestError.NoNumber → has_no_number pending.old.rows (asked_links tables.now from.link.0 named target content.now.key) ≡ true }
    ensures unchanged { result ≡ Err RequestError.NoNumber → (pending.new ≡ pending.old) × (out.new.items ≡ out.old.items) }
    ensures prefix { OnErr result (TellsPrefix (sends_request tables.now pending.old.rows from.link.0 named from.number target content.now) out.old.items out.new.items) }
{
    match tree_for(tables, link, named) {
        Some(tree) => request_along(
            alloc, tables, holders, routes, pending, from, tree, target, content, latest, out,
        ),
        None => Ok(refuse(alloc, from, out)?),
    }
}

// The tree along which a request goes on, if it goes on.
fn tree_for(tables: &TablesView, link: Option<LinkPeer>, named: Option<Zid>) -> Option<Zid>
    ensures { result ≡ tree_of tables.now link named }
{
    tree_of(tables, link?, named)
}

// A request goes along the route of its tree, of what it seeks and of its key: one that is remembered, or else one that is worked out,
// and remembered.
fn request_along(
    alloc: Global,
    tables: &TablesView,
    holders: &mut Holders,
    routes: &mut Routes,
    pending: &mut Pending,
    from: Asker,
    tree: Zid,
    target: Target,
    content: &Content,
    latest: bool,
    out: &mut Vec<(LinkNo, Msg)>,
) -> Result<(), RequestError>
    requires holders { HoldJust (declared_by tables.now) holders.old }
    requires routes { AreRoutes routes.old tables.now }
    requires numbered { AreNumbered tables.now.links }
    requires fresh { asked from pending.old.rows ≡ false }
    ensures holders { HoldJust (declared_by tables.now) holders.new }
    ensures routes { AreRoutes routes.new tables.now }
    ensures sends { (named : Option (List ℕ)) → tree_of tables.now (link_at tables.now.links from.link.0) named ≡ Some tree → OnOk result (Tells (sends_request tables.now pending.old.rows from.link.0 named from.number target content.now) out.old.items out.new.items) }
    ensures rows { (named : Option (List ℕ)) → tree_of tables.now (link_at tables.now.links from.link.0) named ≡ Some tree → OnOk result (pending.new.rows ≡ after_request tables.now pending.old.rows from.link.0 named from.number target content.now.key) }
    ensures held { (named : Option (List ℕ)) → tree_of tables.now (link_at tables.now.links from.link.0) named ≡ Some tree → OnOk result (pending.new.held ≡ gathering_if pending.old.held latest from (asked_links tables.now from.link.0 named target content.now.key)) }
    ensures room { (named : Option (List ℕ)) → tree_of tables.now (link_at tables.now.links from.link.0) named ≡ Some tree → OnOk result (has_no_number pending.old.rows (asked_links tables.now from.link.0 named target content.now.key) ≡ false) }
    ensures full { (named : Option (List ℕ)) → tree_of tables.now (link_at tables.now.links from.link.0) named ≡ Some tree → result ≡ Err RequestError.NoNumber → has_no_number pending.old.rows (asked_links tables.now from.link.0 named target content.now.key) ≡ true }
    ensures unchanged { result ≡ Err RequestError.NoNumber → (pending.new ≡ pending.old) × (out.new.items ≡ out.old.items) }
    ensures prefix { (named : Option (List ℕ)) → tree_of tables.now (link_at tables.now.links from.link.0) named ≡ Some tree → OnErr result (TellsPrefix (sends_request tables.now pending.old.rows from.link.0 named from.number target content.now) out.old.items out.new.items) }
{
    let sought = sought_by(target);
    let key = content.key();
    if let Some(route) = routes.find(tree, sought, key) {
        return request(
            alloc, route, pending, from, tree, target, content, latest, out,
        );
    }
    let route = Route::found(alloc, tables, holders, tree, sought, key)?;
    request(
        alloc, &route, pending, from, tree, target, content, latest, out,
    )?;
    Ok(routes.remember(alloc, tree, sought, key, route)?)
}
