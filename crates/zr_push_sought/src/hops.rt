//! `Hops`: the neighbours on the way to some routers.

ghost use Rattle.std.specs.Prelude.{◌≡◌, ◌||◌, ℕ, List, [], false, IfOk, IfSome, OnOk};
ghost use Rattle.std.specs.Cmp.Lexicographic.{slice_cmp};
ghost use Rattle.std.specs.List.{list_any};
ghost use Rattle.std.specs.Option.{option_map_or};
ghost use Rattle.std.specs.Ordering.{nat_cmp};
ghost use Rattle.zr_graph.specs.Record.{has, IsAscending};
ghost use Rattle.zr_id.specs.Zid.{is_named};
ghost use Rattle.zr_push_sought.specs.Hops.{is_way_to, way_of};
ghost use Rattle.zr_push_sought.specs.Sought.{by_meeting, is_in_log, leads_to};
ghost use Rattle.zr_push_sought.specs.Found.{has_holder, TellSources};
ghost use Rattle.zr_node_spec.specs.Tables.{TableState};
ghost use Rattle.zr_lists.specs.Ascending.{put};
ghost use Rattle.zr_lists.specs.Place.{IsGap, IsPlace};
ghost use Rattle.zr_local.specs.declared.holder.Holder.TheVariants.{Source};

use crate::found::Found;
use crate::search::is_in_log;
use crate::sought::Sought;
use std::alloc::{AllocError, Global};
use std::marker::Model;
use zr_id::zid::Zid;
use zr_key::key::KeyExpr;
use zr_log::log::Log;
use zr_node_spec::tables::TablesView;
use zr_tree::way::Way;

/// Some neighbours, in ascending order.
#[derive(Drop)]
pub struct Hops {
    names: Vec<Zid>,
}

impl Model for Hops {
    ghost use Rattle.std.specs.Prelude.{List, ℕ};
    ghost use Rattle.zr_graph.specs.Record.{IsAscending};

    ghost Value = { List (List ℕ) };

    ghost view = { λ h. h.names.items };

    ghost invariant = { λ h. IsAscending h.names.items };
}

impl Hops {
    fn new(alloc: Global) -> Hops
        ensures { result ≡ [] }
    {
        Hops {
            names: Vec::new(alloc),
        }
    }

    /// The neighbours on the way in a tree to the routers that are reached and whose clients have declared what is sought.
    pub fn to(
        alloc: Global,
        tables: &TablesView,
        tree: Zid,
        found: Option<&Found>,
        sought: Sought,
        key: &KeyExpr,
    ) -> Result<Hops, AllocError>
        requires { IfSome found (λ f. TellSources (by_meeting sought) key.now tables.now.base.me tables.now.known.logs f.now.holders.items) }
        ensures { IfOk result (λ h. (name : List ℕ) → has h name ≡ leads_to tables.now tree sought key.now name) }
    {
        hops_to(
            alloc,
            tables,
            tree,
            found,
            sought,
            key,
            tables.known().logs(),
        )
    }

    /// Whether a neighbour is among them.
    pub fn has(&self, name: &Zid) -> bool
        ensures { result ≡ has self.now name.now }
    {
        place_of(&self.names, name).is_ok()
    }

    fn extend(&mut self, hop: Option<Zid>) -> Result<(), AllocError>
        ensures { (name : List ℕ) → OnOk result (has self.new name ≡ (option_map_or (λ y. is_named y name) hop false || has self.old name)) }
    {
        match hop {
            Some(name) => self.add(name),
            None => Ok(()),
        }
    }

    fn add(&mut self, name: Zid) -> Result<(), AllocError>
        ensures { OnOk result (self.new ≡ put (slice_cmp nat_cmp) (λ n. n) self.old name) }
    {
        match place_of(&self.names, &name) {
            Ok(_) => Ok(()),
            Err(at) => self.insert(at, name),
        }
    }

    fn insert(&mut self, at: usize, name: Zid) -> Result<(), AllocError>
        requires { IsGap (slice_cmp nat_cmp) (λ n. n) self.old name at }
        ensures { OnOk result (self.new ≡ put (slice_cmp nat_cmp) (λ n. n) self.old name) }
    {
        self.names.insert(at, name)?;
        Ok(())
    }
}

fn hops_to(
    alloc: Global,
    tables: &TablesView,
    tree: Zid,
    found: Option<&Found>,
    sought: Sought,
    key: &KeyExpr,
    logs: &[Log],
) -> Result<Hops, AllocError>
    requires { IfSome found (λ f. TellSources (by_meeting sought) key.now tables.now.base.me logs.now f.now.holders.items) }
    ensures { IfOk result (λ h. (name : List ℕ) → has h name ≡ list_any (is_way_to tables.now tree sought key.now name) logs.now) }
{
    let mut way = Way::of(tables.trees(), tree, tables.me());
    let mut hops = Hops::new(alloc);
    for log in logs {
        hops.extend(hop_to(&mut way, found, sought, key, log))?;
    }
    Ok(hops)
}

fn place_of(names: &[Zid], name: &Zid) -> Result<usize, usize>
    requires { IsAscending names.now }
    ensures { IsPlace (slice_cmp nat_cmp) (λ n. n) names.now name.now result }
{
    names.binary_search(name)
}

// The neighbour on the way to the router of a log, if it is reached and its clients have declared what is sought. The way is asked for
// first: there is none to this router itself, so its own log isn't gone through.
fn hop_to(
    way: &mut Way,
    found: Option<&Found>,
    sought: Sought,
    key: &KeyExpr,
    log: &Log,
) -> Option<Zid>
    requires { IfSome found (λ f. is_named log.now.source way.old.at ≡ false → has_holder f.now.holders.items (Source log.now.source) ≡ is_in_log (by_meeting sought) key.now log.now) }
    ensures kept { way.new ≡ way.old }
    ensures hop { (t : TableState) (tree name : List ℕ) → way.old ≡ way_of t tree → option_map_or (λ y. is_named y name) result false ≡ is_way_to t tree sought key.now name log.now }
{
    let hop = way.to(log.source)?;
    if is_in_log(log, found, sought, key) {
        Some(hop)
    } else {
        None
    }
}
