//! A request at a router: it goes on along its route, under a number of its own on each link, or a final goes back at once.

ghost use Rattle.std.specs.Prelude.{◌≡◌, ◌<◌, ◌++◌, ◌∷◌, [], ℕ, List, Option, None, true, false, length, map, IfOk, OnOk, OnErr};
ghost use Rattle.std.specs.List.{list_any};
ghost use Rattle.zr_pend_spec.specs.Pending.{asked, begun, differ, is_full, opened};
ghost use Rattle.zr_pend_spec.specs.Held.{begun_if};
ghost use Rattle.zr_pend_spec.specs.Row.{RowState};
ghost use Rattle.zr_msg.specs.Extras.{no_extras};
ghost use Rattle.zr_msg.specs.declared.content.Parts.{Parts};
ghost use Rattle.zr_node_spec.specs.Queries.{after_request, asked_links, asked_over, gathering_if, has_no_number, sends_request};
ghost use Rattle.zr_node_spec.specs.Samples.{tree_of};
ghost use Rattle.zr_node_spec.specs.Tables.{TableState, link_at};
ghost use Rattle.zr_node_spec.specs.Event.{Tells, TellsPrefix};
ghost use Rattle.zr_lists.specs.Prefix.{IsPrefixBehind};
ghost use Rattle.zr_query.specs.Answering.{final_sent};
ghost use Rattle.zr_query.specs.Asking.{IsRouteOf, all_asked, asked_of, each_asked, links_of, request_for, sent_by};

use crate::answering::send_final;
use std::alloc::{AllocError, Global};
use thiserror::Error;
use zr_id::link::LinkNo;
use zr_id::zid::Zid;
use zr_msg::content::Content;
use zr_msg::extras::Extras;
use zr_msg::msg::{Msg, Target};
use zr_msg::shared::Shared;
use zr_node_spec::tell::tell;
use zr_pend::pending::{PendError, Pending};
use zr_pend_spec::branch::Asker;
use zr_push::route::{Route, RouteLink};

/// Why a request doesn't go on.
#[derive(Debug, Drop, Error)]
pub enum RequestError {
    #[error("a link has every number pending")]
    NoNumber,
    #[error("out of memory")]
    NoMemory,
}

impl From<AllocError> for RequestError {
    ghost use Rattle.std.specs.Prelude.{◌≡◌};
    ghost use Rattle.zr_query.specs.declared.asking.RequestError.TheVariants.{NoMemory};

    ghost from_gives = { λ _ e. e ≡ NoMemory };

    fn from(_: AllocError) -> RequestError {
        RequestError::NoMemory
    }
}

/// A request has come over a link, in a tree: it goes on along the route, under the least number that isn't pending on each link, or a final
/// goes back at once where the route leads nowhere. Where it asks for the latest replies alone, replies to it are held from now on.
///
/// Where a link has no number left nothing has changed.
pub fn request(
    alloc: Global,
    route: &Route,
    pending: &mut Pending,
    from: Asker,
    tree: Zid,
    target: Target,
    content: &Content,
    latest: bool,
    out: &mut Vec<(LinkNo, Msg)>,
) -> Result<(), RequestError>
    requires apart { differ (asked_of route.now from.link.0) ≡ true }
    requires fresh { asked from pending.old.rows ≡ false }
    ensures sends { (t : TableState) (named : Option (List ℕ)) → IsRouteOf t from.link.0 named tree target content.now.key route.now → OnOk result (Tells (sends_request t pending.old.rows from.link.0 named from.number target content.now) out.old.items out.new.items) }
    ensures rows { (t : TableState) (named : Option (List ℕ)) → IsRouteOf t from.link.0 named tree target content.now.key route.now → OnOk result (pending.new.rows ≡ after_request t pending.old.rows from.link.0 named from.number target content.now.key) }
    ensures held { (t : TableState) (named : Option (List ℕ)) → IsRouteOf t from.link.0 named tree target content.now.key route.now → OnOk result (pending.new.held ≡ gathering_if pending.old.held latest from (asked_links t from.link.0 named target content.now.key)) }
    ensures room { (t : TableState) (named : Option (List ℕ)) → IsRouteOf t from.link.0 named tree target content.now.key route.now → OnOk result (has_no_number pending.old.rows (asked_links t from.link.0 named target content.now.key) ≡ false) }
    ensures full { (t : TableState) (named : Option (List ℕ)) → IsRouteOf t from.link.0 named tree target content.now.key route.now → result ≡ Err RequestError.NoNumber → has_no_number pending.old.rows (asked_links t from.link.0 named target content.now.key) ≡ true }
    ensures unchanged { result ≡ Err RequestError.NoNumber → (pending.new ≡ pending.old) × (out.new.items ≡ out.old.items) }
    ensures prefix { (t : TableState) (named : Option (List ℕ)) → IsRouteOf t from.link.0 named tree target content.now.key route.now → OnErr result (TellsPrefix (sends_request t pending.old.rows from.link.0 named from.number target content.now) out.old.items out.new.items) }
{
    let stops = route.stops_from(alloc, from.link)?;
    ask_or_end(
        alloc,
        stops.as_slice(),
        pending,
        from,
        tree,
        target,
        content,
        latest,
        out,
    )
}

/// A request has come that stays in no tree: a final goes back at once.
pub fn refuse(alloc: Global, from: Asker, out: &mut Vec<(LinkNo, Msg)>) -> Result<(), AllocError>
    ensures ok { (t : TableState) (rows : List RowState) (named : Option (List ℕ)) (target : Target) (content : Parts) → tree_of t (link_at t.links from.link.0) named ≡ None → OnOk result (Tells (sends_request t rows from.link.0 named from.number target content) out.old.items out.new.items) }
    ensures err { OnErr result (out.new.items ≡ out.old.items) }
{
    end_at_once(alloc, from, out)
}

// The request goes on to these stops, or a final goes back at once where there is none.
fn ask_or_end(
    alloc: Global,
    stops: &[RouteLink],
    pending: &mut Pending,
    from: Asker,
    tree: Zid,
    target: Target,
    content: &Content,
    latest: bool,
    out: &mut Vec<(LinkNo, Msg)>,
) -> Result<(), RequestError>
    requires apart { differ (links_of stops.now) ≡ true }
    requires fresh { asked from pending.old.rows ≡ false }
    ensures sends { OnOk result (out.new.items ≡ out.old.items ++ sent_by pending.old.rows from tree target content.now stops.now) }
    ensures rows { OnOk result (pending.new.rows ≡ asked_over pending.old.rows from (links_of stops.now)) }
    ensures held { OnOk result (pending.new.held ≡ gathering_if pending.old.held latest from (links_of stops.now)) }
    ensures room { OnOk result (list_any (λ l. is_full l pending.old.rows) (links_of stops.now) ≡ false) }
    ensures full { result ≡ Err RequestError.NoNumber → list_any (λ l. is_full l pending.old.rows) (links_of stops.now) ≡ true }
    ensures unchanged { result ≡ Err RequestError.NoNumber → (pending.new ≡ pending.old) × (out.new.items ≡ out.old.items) }
    ensures prefix { OnErr result (IsPrefixBehind out.old.items (sent_by pending.old.rows from tree target content.now stops.now) out.new.items) }
{
    if stops.is_empty() {
        return Ok(end_at_once(alloc, from, out)?);
    }
    ask(
        alloc, stops, pending, from, tree, target, content, latest, out,
    )
}

// The request goes on to these stops, of which there is one at least.
fn ask(
    alloc: Global,
    stops: &[RouteLink],
    pending: &mut Pending,
    from: Asker,
    tree: Zid,
    target: Target,
    content: &Content,
    latest: bool,
    out: &mut Vec<(LinkNo, Msg)>,
) -> Result<(), RequestError>
    requires some { 0 < length stops.now }
    requires apart { differ (links_of stops.now) ≡ true }
    requires fresh { asked from pending.old.rows ≡ false }
    ensures sends { OnOk result (out.new.items ≡ out.old.items ++ all_asked pending.old.rows tree target content.now stops.now) }
    ensures rows { OnOk result (pending.new.rows ≡ begun pending.old.rows from (links_of stops.now)) }
    ensures held { OnOk result (pending.new.held ≡ begun_if latest pending.old.held from) }
    ensures room { OnOk result (list_any (λ l. is_full l pending.old.rows) (links_of stops.now) ≡ false) }
    ensures full { result ≡ Err RequestError.NoNumber → list_any (λ l. is_full l pending.old.rows) (links_of stops.now) ≡ true }
    ensures unchanged { result ≡ Err RequestError.NoNumber → (pending.new ≡ pending.old) × (out.new.items ≡ out.old.items) }
    ensures prefix { OnErr result (IsPrefixBehind out.old.items (all_asked pending.old.rows tree target content.now stops.now) out.new.items) }
{
    let links = links_of(alloc, stops)?;
    let numbers = begin(pending, from, links.as_slice(), latest)?;
    Ok(ask_each(stops, numbers.as_slice(), tree, target, content, out)?)
}

fn links_of(alloc: Global, stops: &[RouteLink]) -> Result<Vec<LinkNo>, AllocError>
    ensures { IfOk result (λ v. v.items ≡ links_of stops.now) }
{
    stops.iter().map(|stop| stop.link).collect(alloc)
}

// The request is pending on these links from now on: the number that it has on each.
fn begin(
    pending: &mut Pending,
    from: Asker,
    links: &[LinkNo],
    latest: bool,
) -> Result<Vec<u32>, RequestError>
    requires some { 0 < length links.now }
    requires apart { differ links.now ≡ true }
    requires fresh { asked from pending.old.rows ≡ false }
    ensures numbers { IfOk result (λ ns. ns.items ≡ map (λ b. b.number) (opened pending.old.rows links.now)) }
    ensures rows { OnOk result (pending.new.rows ≡ begun pending.old.rows from links.now) }
    ensures held { OnOk result (pending.new.held ≡ begun_if latest pending.old.held from) }
    ensures room { OnOk result (list_any (λ l. is_full l pending.old.rows) links.now ≡ false) }
    ensures full { result ≡ Err RequestError.NoNumber → list_any (λ l. is_full l pending.old.rows) links.now ≡ true }
    ensures unchanged { OnErr result (pending.new ≡ pending.old) }
{
    match pending.begin(from.link, from.number, links, latest) {
        Ok(numbers) => Ok(numbers),
        Err(PendError::Many) => Err(RequestError::NoNumber),
        Err(PendError::NoMemory) => Err(RequestError::NoMemory),
        Err(PendError::Taken) => unreachable!(),
    }
}

// The request goes to each stop, under its number there.
fn ask_each(
    stops: &[RouteLink],
    numbers: &[u32],
    tree: Zid,
    target: Target,
    content: &Content,
    out: &mut Vec<(LinkNo, Msg)>,
) -> Result<(), AllocError>
    requires { length numbers.now ≡ length stops.now }
    ensures ok { OnOk result (out.new.items ≡ out.old.items ++ each_asked tree target content.now stops.now numbers.now) }
    ensures err { OnErr result (IsPrefixBehind out.old.items (each_asked tree target content.now stops.now numbers.now) out.new.items) }
{
    for (i, stop) in stops.iter().enumerate() {
        ask_at(stop, numbers[i], tree, target, content, out)?;
    }
    Ok(())
}

fn ask_at(
    stop: &RouteLink,
    id: u32,
    tree: Zid,
    target: Target,
    content: &Content,
    out: &mut Vec<(LinkNo, Msg)>,
) -> Result<(), AllocError>
    ensures ok { OnOk result (out.new.items ≡ out.old.items ++ request_for tree target content.now stop.now id ∷ []) }
    ensures err { OnErr result (out.new.items ≡ out.old.items) }
{
    let tree = stop.named(tree);
    let content = content.copy()?;
    let msg = Msg::Request {
        tree,
        id,
        target,
        content,
    };
    tell(stop.link, msg, out)
}

// The asker gets a final, without extensions.
fn end_at_once(alloc: Global, to: Asker, out: &mut Vec<(LinkNo, Msg)>) -> Result<(), AllocError>
    ensures ok { OnOk result (out.new.items ≡ out.old.items ++ final_sent no_extras to ∷ []) }
    ensures err { OnErr result (out.new.items ≡ out.old.items) }
{
    let none = Shared::new(alloc, Extras::none())?;
    send_final(to, none, out)
}
