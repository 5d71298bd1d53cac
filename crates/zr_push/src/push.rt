//! A sample at a router: in which tree it stays, and what it sends.

ghost use Rattle.std.specs.Prelude.{◌≡◌, ◌++◌, ◌∷◌, [], Some, false, OnOk, OnErr};
ghost use Rattle.std.specs.Option.{option_map_or};
ghost use Rattle.zr_id.specs.Zid.{is_named};
ghost use Rattle.zr_node_spec.specs.Samples.{named_tree, tree_by, sends_push};
ghost use Rattle.zr_node_spec.specs.Tables.{AreNumbered, graph, link_at};
ghost use Rattle.zr_node_spec.specs.Event.{Tells, TellsPrefix};
ghost use Rattle.zr_lists.specs.Prefix.{IsPrefixBehind};
ghost use Rattle.zr_tree.specs.Tree.{parent};
ghost use Rattle.zr_push.specs.Route.{push_for, sent_along};
ghost use Rattle.zr_push.specs.Routes.{AreRoutes};
ghost use Rattle.zr_push_sought.specs.Holders.{HoldJust};
ghost use Rattle.zr_push_sought.specs.Pairs.{declared_by};

use crate::route::{Route, RouteLink};
use crate::routes::Routes;
use std::alloc::{AllocError, Global};
use zr_id::link::LinkNo;
use zr_id::zid::Zid;
use zr_msg::content::Content;
use zr_msg::msg::Msg;
use zr_msg::peer::{LinkPeer, Role};
use zr_node_spec::tables::TablesView;
use zr_node_spec::tell::tell;
use zr_push_sought::holders::Holders;
use zr_push_sought::sought::Sought;

/// A sample has come over a link of this router, naming a tree or none: it goes along the route of its key in the tree that it stays in, with
/// the tree to each router, and without it to each client but its publisher. A route that is remembered is not worked out again, and one that
/// is worked out is remembered.
pub fn push(
    alloc: Global,
    tables: &TablesView,
    holders: &mut Holders,
    routes: &mut Routes,
    from: LinkPeer,
    named: Option<Zid>,
    content: &Content,
    out: &mut Vec<(LinkNo, Msg)>,
) -> Result<(), AllocError>
    requires holders { HoldJust (declared_by tables.now) holders.old }
    requires routes { AreRoutes routes.old tables.now }
    ensures holders { HoldJust (declared_by tables.now) holders.new }
    ensures routes { AreRoutes routes.new tables.now }
    ensures ok { AreNumbered tables.now.links → link_at tables.now.links from.link.0 ≡ Some from → OnOk result (Tells (sends_push tables.now from.link.0 named content.now) out.old.items out.new.items) }
    ensures err { AreNumbered tables.now.links → link_at tables.now.links from.link.0 ≡ Some from → OnErr result (TellsPrefix (sends_push tables.now from.link.0 named content.now) out.old.items out.new.items) }
{
    let link = from.link;
    let Some(tree) = tree_of(tables, from, named) else {
        return Ok(());
    };
    let key = content.key();
    if let Some(route) = routes.find(tree, Sought::Subscribers, key) {
        return send_along(route.stops(), link, tree, content, out);
    }
    let route = Route::found(alloc, tables, holders, tree, Sought::Subscribers, key)?;
    send_along(route.stops(), link, tree, content, out)?;
    routes.remember(alloc, tree, Sought::Subscribers, key, route)
}

// A sample that has come over the link `from` goes on to these stops. Its content is not copied.
fn send_along(
    stops: &[RouteLink],
    from: LinkNo,
    tree: Zid,
    content: &Content,
    out: &mut Vec<(LinkNo, Msg)>,
) -> Result<(), AllocError>
    ensures ok { OnOk result (out.new.items ≡ out.old.items ++ sent_along stops.now from.0 tree content.now) }
    ensures err { OnErr result (IsPrefixBehind out.old.items (sent_along stops.now from.0 tree content.now) out.new.items) }
{
    for stop in stops {
        if stop.takes_from(from) {
            push_to(stop, tree, content, out)?;
        }
    }
    Ok(())
}

fn push_to(
    stop: &RouteLink,
    tree: Zid,
    content: &Content,
    out: &mut Vec<(LinkNo, Msg)>,
) -> Result<(), AllocError>
    ensures ok { OnOk result (out.new.items ≡ out.old.items ++ push_for tree content.now stop.now ∷ []) }
    ensures err { OnErr result (out.new.items ≡ out.old.items) }
{
    let tree = stop.named(tree);
    let content = content.copy()?;
    tell(stop.link, Msg::Push { tree, content }, out)
}

/// The tree along which a sample or a request from a link goes on, if it goes on: a client's along this router's own, and a router's along the one that
/// it names, where it comes from this router's parent there.
pub fn tree_of(tables: &TablesView, from: LinkPeer, named: Option<Zid>) -> Option<Zid>
    ensures { result ≡ tree_by tables.now from from.peer.role named }
{
    match from.peer.role {
        Role::Client => Some(tables.me()),
        Role::Router => named_tree(tables, from.peer.id, named),
    }
}

fn named_tree(tables: &TablesView, name: Zid, named: Option<Zid>) -> Option<Zid>
    ensures { result ≡ named_tree tables.now name named }
{
    let tree = named?;
    if is_parent(tables, tree, name) {
        Some(tree)
    } else {
        None
    }
}

fn is_parent(tables: &TablesView, tree: Zid, name: Zid) -> bool
    ensures { result ≡ option_map_or (λ p. is_named p name) (parent (graph tables.now) tree tables.now.base.me) false }
{
    match tables.trees().parent(tree, tables.me()) {
        Some(parent) => parent == name,
        None => false,
    }
}
