//! What the children of a router in a tree are sent: changes and snapshots of the tree's router, and what a new child has to know.

ghost use Rattle.std.specs.Prelude.{◌≡◌, ◌++◌, ◌+◌, ◌<◌, ◌^◌, ℕ, List, true, length, map, IfOk, OnOk, OnErr};
ghost use Rattle.std.specs.List.{flat_map};
ghost use Rattle.zr_log.specs.Known.{position, is_next, is_newer};
ghost use Rattle.zr_log.specs.Log.{Change};
ghost use Rattle.zr_node_spec.specs.Changes.{changes_of, steps, sends_changes};
ghost use Rattle.zr_node_spec.specs.Snapshots.{snapshot, sends_step, sends_snap, sends_snapshots};
ghost use Rattle.zr_node_spec.specs.Tables.{TableState, AreNumbered, leads_to_router};
ghost use Rattle.zr_node_spec.specs.Event.{Tells, TellsPrefix};
ghost use Rattle.zr_lists.specs.Prefix.{IsPrefixBehind};
ghost use Rattle.zr_node_spec.specs.Each.{to_each};
ghost use Rattle.zr_flood.specs.Tell.{picked, all_to_each, children_among, leads_to_own_child, leads_to_new_child, to_new_children, GoesBy, HoldsAfter};

use crate::flood::is_router;
use std::alloc::{AllocError, Global};
use zr_id::link::LinkNo;
use zr_id::zid::Zid;
use zr_local::changes::Changes;
use zr_log::log::Log;
use zr_log_set::decl_set::copies_of;
use zr_msg::decl::{Decl, Decls};
use zr_msg::msg::Msg;
use zr_msg::peer::LinkPeer;
use zr_msg::shared::Shared;
use zr_node_spec::tell::{hand_out, tell_each};
use zr_tree::family::Family;

/// After an event that changed the records: each neighbour that has become a child in a router's tree is sent what is known of that
/// router's log, in ascending order of these routers. `before` are the children before the event. Each list of declarations is made once.
pub fn fresh_children(
    alloc: Global,
    links: &[LinkPeer],
    family: &Family,
    before: &Family,
    logs: &[Log],
    out: &mut Vec<(LinkNo, Msg)>,
) -> Result<(), AllocError>
    ensures ok { HoldsAfter before.now links.now family.now logs.now (λ t. OnOk result (Tells (sends_snapshots t before.now.records) out.old.items out.new.items)) }
    ensures err { HoldsAfter before.now links.now family.now logs.now (λ t. OnErr result (TellsPrefix (sends_snapshots t before.now.records) out.old.items out.new.items)) }
{
    tell_logs(alloc, links, family, before, logs, out)
}

/// A change or a snapshot of another router's log that is new here goes on to each child in that router's tree. It is not copied.
pub fn pass_on(
    alloc: Global,
    links: &[LinkPeer],
    family: &Family,
    source: Zid,
    msg: &Msg,
    out: &mut Vec<(LinkNo, Msg)>,
) -> Result<(), AllocError>
    ensures each { OnOk result (out.new.items ≡ out.old.items ++ to_each (children_among links.now family.now source) msg.now) }
    ensures some { OnErr result (IsPrefixBehind out.old.items (to_each (children_among links.now family.now source) msg.now) out.new.items) }
    ensures step { (t : TableState) (from number : ℕ) (c : Change) → GoesBy t links.now family.now → AreNumbered t.links → leads_to_router t.links from ≡ true → is_next t.known source number ≡ true → msg.now ≡ Msg.Step source number c.added c.decl → OnOk result (Tells (sends_step t from source number c) out.old.items out.new.items) }
    ensures step_prefix { (t : TableState) (from number : ℕ) (c : Change) → GoesBy t links.now family.now → AreNumbered t.links → leads_to_router t.links from ≡ true → is_next t.known source number ≡ true → msg.now ≡ Msg.Step source number c.added c.decl → OnErr result (TellsPrefix (sends_step t from source number c) out.old.items out.new.items) }
    ensures snap { (t : TableState) (from number : ℕ) (decls : List Decl) → GoesBy t links.now family.now → AreNumbered t.links → leads_to_router t.links from ≡ true → is_newer t.known source number ≡ true → msg.now ≡ Msg.Snap source number decls → OnOk result (Tells (sends_snap t from source number decls) out.old.items out.new.items) }
    ensures snap_prefix { (t : TableState) (from number : ℕ) (decls : List Decl) → GoesBy t links.now family.now → AreNumbered t.links → leads_to_router t.links from ≡ true → is_newer t.known source number ≡ true → msg.now ≡ Msg.Snap source number decls → OnErr result (TellsPrefix (sends_snap t from source number decls) out.old.items out.new.items) }
{
    tell_children(alloc, links, family, source, msg, out)
}

// A message goes to each child in the tree of a root.
fn tell_children(
    alloc: Global,
    links: &[LinkPeer],
    family: &Family,
    root: Zid,
    msg: &Msg,
    out: &mut Vec<(LinkNo, Msg)>,
) -> Result<(), AllocError>
    ensures ok { OnOk result (out.new.items ≡ out.old.items ++ to_each (children_among links.now family.now root) msg.now) }
    ensures err { OnErr result (IsPrefixBehind out.old.items (to_each (children_among links.now family.now root) msg.now) out.new.items) }
{
    let to = child_links(alloc, links, family, root)?;
    tell_each(alloc, &to, msg, out)
}

/// What became of the own clients' declarations goes to each child in the own tree, as changes of the own log: first what is gone, then
/// what came. Before them the log has `number` changes. Each declaration is copied once.
pub fn tell_changes(
    alloc: Global,
    links: &[LinkPeer],
    family: &Family,
    number: u64,
    changes: &Changes,
    out: &mut Vec<(LinkNo, Msg)>,
) -> Result<(), AllocError>
    requires { number + (length changes.now.gone.items + length changes.now.came.items) < 2 ^ 64 }
    ensures ok { (t : TableState) → GoesBy t links.now family.now → AreNumbered t.links → number ≡ position t.known t.base.me → OnOk result (Tells (sends_changes t (changes_of changes.now.gone.items changes.now.came.items)) out.old.items out.new.items) }
    ensures err { (t : TableState) → GoesBy t links.now family.now → AreNumbered t.links → number ≡ position t.known t.base.me → OnErr result (TellsPrefix (sends_changes t (changes_of changes.now.gone.items changes.now.came.items)) out.old.items out.new.items) }
{
    let me = family.me();
    let to = child_links(alloc, links, family, me)?;
    tell_both(alloc, &to, me, number, changes, out)
}

// The links that lead to a child in the tree of a root.
fn child_links(
    alloc: Global,
    links: &[LinkPeer],
    family: &Family,
    root: Zid,
) -> Result<Vec<LinkNo>, AllocError>
    ensures { IfOk result (λ v. v.items ≡ children_among links.now family.now root) }
{
    let mut to = Vec::new(alloc);
    for link in links {
        if leads_to_child(family, root, link) {
            to.push(link.link)?;
        }
    }
    Ok(to)
}

// The links that lead to a child in the tree of a root that wasn't one before.
fn new_child_links(
    alloc: Global,
    links: &[LinkPeer],
    family: &Family,
    before: &Family,
    root: Zid,
) -> Result<Vec<LinkNo>, AllocError>
    ensures { IfOk result (λ v. v.items ≡ picked (λ l. leads_to_new_child family.now before.now root l) links.now) }
{
    let mut to = Vec::new(alloc);
    for link in links {
        if leads_to_new_child(family, before, root, link) {
            to.push(link.link)?;
        }
    }
    Ok(to)
}

fn leads_to_child(family: &Family, root: Zid, link: &LinkPeer) -> bool
    ensures { result ≡ leads_to_own_child family.now root link.now }
{
    is_router(link.peer.role) && family.is_child(root, link.peer.id)
}

fn leads_to_new_child(family: &Family, before: &Family, root: Zid, link: &LinkPeer) -> bool
    ensures { result ≡ leads_to_new_child family.now before.now root link.now }
{
    is_router(link.peer.role)
        && family.is_child(root, link.peer.id)
        && !before.is_child(root, link.peer.id)
}

// What is known of each of these logs goes to each new child in its router's tree.
fn tell_logs(
    alloc: Global,
    links: &[LinkPeer],
    family: &Family,
    before: &Family,
    logs: &[Log],
    out: &mut Vec<(LinkNo, Msg)>,
) -> Result<(), AllocError>
    ensures ok { OnOk result (out.new.items ≡ out.old.items ++ flat_map (to_new_children links.now family.now before.now) logs.now) }
    ensures err { OnErr result (IsPrefixBehind out.old.items (flat_map (to_new_children links.now family.now before.now) logs.now) out.new.items) }
{
    for log in logs {
        tell_log(alloc, links, family, before, log, out)?;
    }
    Ok(())
}

fn tell_log(
    alloc: Global,
    links: &[LinkPeer],
    family: &Family,
    before: &Family,
    log: &Log,
    out: &mut Vec<(LinkNo, Msg)>,
) -> Result<(), AllocError>
    ensures ok { OnOk result (out.new.items ≡ out.old.items ++ to_new_children links.now family.now before.now log.now) }
    ensures err { OnErr result (IsPrefixBehind out.old.items (to_new_children links.now family.now before.now log.now) out.new.items) }
{
    let to = new_child_links(alloc, links, family, before, log.source)?;
    if to.is_empty() {
        return Ok(());
    }
    tell_snapshot(alloc, &to, log, out)
}

fn tell_snapshot(
    alloc: Global,
    to: &[LinkNo],
    log: &Log,
    out: &mut Vec<(LinkNo, Msg)>,
) -> Result<(), AllocError>
    ensures ok { OnOk result (out.new.items ≡ out.old.items ++ to_each to.now (snapshot log.now)) }
    ensures err { OnErr result (IsPrefixBehind out.old.items (to_each to.now (snapshot log.now)) out.new.items) }
{
    let msg = snapshot(alloc, log)?;
    hand_out(alloc, to, msg, out)
}

// What is known of a log, as a message.
fn snapshot(alloc: Global, log: &Log) -> Result<Msg, AllocError>
    ensures { IfOk result (λ m. m ≡ snapshot log.now) }
{
    let decls = decls_of(alloc, log)?;
    Ok(Msg::Snap {
        source: log.source,
        number: log.position,
        decls,
    })
}

fn decls_of(alloc: Global, log: &Log) -> Result<Decls, AllocError>
    ensures { IfOk result (λ ds. ds ≡ log.now.decls) }
{
    Decls::new(copies_of(alloc, log.decls.as_slice())?)
}

fn tell_both(
    alloc: Global,
    to: &[LinkNo],
    me: Zid,
    number: u64,
    changes: &Changes,
    out: &mut Vec<(LinkNo, Msg)>,
) -> Result<(), AllocError>
    requires { number + (length changes.now.gone.items + length changes.now.came.items) < 2 ^ 64 }
    ensures ok { OnOk result (out.new.items ≡ out.old.items ++ all_to_each to.now (steps me number (changes_of changes.now.gone.items changes.now.came.items))) }
    ensures err { OnErr result (IsPrefixBehind out.old.items (all_to_each to.now (steps me number (changes_of changes.now.gone.items changes.now.came.items))) out.new.items) }
{
    if to.is_empty() {
        return Ok(());
    }
    let gone = changes.gone.as_slice();
    tell_steps(alloc, to, me, number, false, gone, out)?;
    let then = number + gone.len() as u64;
    tell_steps(alloc, to, me, then, true, changes.came.as_slice(), out)
}

// Declarations go to each of these links as changes of the own log behind its first `number`.
fn tell_steps(
    alloc: Global,
    to: &[LinkNo],
    me: Zid,
    mut number: u64,
    added: bool,
    decls: &[Decl],
    out: &mut Vec<(LinkNo, Msg)>,
) -> Result<(), AllocError>
    requires { number + length decls.now < 2 ^ 64 }
    ensures ok { OnOk result (out.new.items ≡ out.old.items ++ all_to_each to.now (steps me number (map (λ d. record { added = added; decl = d }) decls.now))) }
    ensures err { OnErr result (IsPrefixBehind out.old.items (all_to_each to.now (steps me number (map (λ d. record { added = added; decl = d }) decls.now))) out.new.items) }
{
    for decl in decls {
        number += 1;
        tell_step(alloc, to, me, number, added, decl, out)?;
    }
    Ok(())
}

fn tell_step(
    alloc: Global,
    to: &[LinkNo],
    me: Zid,
    number: u64,
    added: bool,
    decl: &Decl,
    out: &mut Vec<(LinkNo, Msg)>,
) -> Result<(), AllocError>
    ensures ok { OnOk result (out.new.items ≡ out.old.items ++ to_each to.now (Msg.Step me number added decl.now)) }
    ensures err { OnErr result (IsPrefixBehind out.old.items (to_each to.now (Msg.Step me number added decl.now)) out.new.items) }
{
    let decl = Shared::new(alloc, decl.copy(alloc)?)?;
    let msg = Msg::Step {
        source: me,
        number,
        added,
        decl,
    };
    hand_out(alloc, to, msg, out)
}
