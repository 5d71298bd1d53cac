//! Phases begin, and routers' tables are told.

ghost use Rattle.std.specs.Prelude.{◌≡◌, ◌++◌, IfOk, OnOk, OnErr};
ghost use Rattle.zr_lists.specs.Prefix.{IsPrefixBehind};
ghost use Rattle.zr_world_spec.specs.Acts.{shown, shown_base, source_line};
ghost use Rattle.zr_world.specs.Show.{record_lines, parent_lines, parent_told, source_lines};
ghost use Rattle.zr_world.specs.Steps.{AppliesTo};

use crate::tables::WorldTables;
use std::alloc::{AllocError, Global};
use zr_carrier::carrier::Carrier;
use zr_graph::base::Base;
use zr_id::record::LinkRecord;
use zr_id::zid::Zid;
use zr_log::log::Log;
use zr_msg::decl::{Decl, Decls};
use zr_router_core::hub::Hub;
use zr_script_spec::error::ScriptError;
use zr_script_spec::report::ReportLine;
use zr_tree::trees::Trees;

impl<C: Carrier> WorldTables<C> {
    ghost use Rattle.zr_world_spec.specs.Acts.{mark_step, show_step};
    ghost use Rattle.zr_world_spec.specs.Sound.{IsSound};
    ghost use Rattle.zr_world.specs.State.{state_of};

    /// A phase begins, where the world is settled and its routers are joined.
    #[tactic(auto, unfolding(zr_world_spec::specs::Acts::mark_step))]
    pub fn mark(&mut self, line: u64, report: &mut Vec<ReportLine>) -> Result<(), ScriptError>
        requires { IsSound (state_of self.old) }
        ensures { AppliesTo result (mark_step (state_of self.old) line) (state_of self.old) (state_of self.new) report.old.items report.new.items }
    {
        if !self.is_settled() {
            return Err(ScriptError::NotSettled);
        }
        if !self.is_joined()? {
            return Err(ScriptError::NotJoined);
        }
        report.push(ReportLine::Mark { line })?;
        Ok(())
    }

    /// A router's tables: its records, its parent in the tree of each other router, and what it knows of each log.
    #[tactic(auto, unfolding(zr_world_spec::specs::Acts::show_step))]
    pub fn show(&mut self, router: Zid, report: &mut Vec<ReportLine>) -> Result<(), ScriptError>
        ensures { AppliesTo result (show_step (state_of self.old) router) (state_of self.old) (state_of self.new) report.old.items report.new.items }
    {
        let Some(r) = self.routers.get(&router) else {
            return Err(ScriptError::UnknownName);
        };
        report.push(ReportLine::Show { router })?;
        tell_tables(self.alloc, r.hub(), report)?;
        Ok(())
    }
}

fn tell_tables(alloc: Global, hub: &Hub, report: &mut Vec<ReportLine>) -> Result<(), AllocError>
    ensures told { OnOk result (report.new.items ≡ report.old.items ++ shown hub.now.node) }
    ensures err { OnErr result (IsPrefixBehind report.old.items (shown hub.now.node) report.new.items) }
{
    tell_base(alloc, hub.base(), report)?;
    tell_sources(alloc, hub.known().logs(), report)
}

fn tell_base(alloc: Global, base: &Base, report: &mut Vec<ReportLine>) -> Result<(), AllocError>
    ensures told { OnOk result (report.new.items ≡ report.old.items ++ shown_base base.now) }
    ensures err { OnErr result (IsPrefixBehind report.old.items (shown_base base.now) report.new.items) }
{
    tell_records(alloc, base.records(), report)?;
    tell_parents(alloc, base, report)
}

fn tell_records(
    alloc: Global,
    records: &[LinkRecord],
    report: &mut Vec<ReportLine>,
) -> Result<(), AllocError>
    ensures told { OnOk result (report.new.items ≡ report.old.items ++ record_lines records.now) }
    ensures err { OnErr result (IsPrefixBehind report.old.items (record_lines records.now) report.new.items) }
{
    for r in records {
        let record = r.copy(alloc)?;
        report.push(ReportLine::Record { record })?;
    }
    Ok(())
}

fn tell_parents(alloc: Global, base: &Base, report: &mut Vec<ReportLine>) -> Result<(), AllocError>
    ensures told { OnOk result (report.new.items ≡ report.old.items ++ parent_lines base.now.records base.now.me base.now.records) }
    ensures err { OnErr result (IsPrefixBehind report.old.items (parent_lines base.now.records base.now.me base.now.records) report.new.items) }
{
    let trees = Trees::of(alloc, base)?;
    let me = base.me();
    for r in base.records() {
        tell_parent(&trees, me, r.id(), report)?;
    }
    Ok(())
}

fn tell_parent(
    trees: &Trees,
    me: Zid,
    root: Zid,
    report: &mut Vec<ReportLine>,
) -> Result<(), AllocError>
    ensures told { OnOk result (report.new.items ≡ report.old.items ++ parent_told trees.now me root) }
    ensures err { OnErr result (report.new.items ≡ report.old.items) }
{
    if root != me {
        let parent = trees.parent(root, me);
        report.push(ReportLine::Parent { root, parent })?;
    }
    Ok(())
}

fn tell_sources(alloc: Global, logs: &[Log], report: &mut Vec<ReportLine>) -> Result<(), AllocError>
    ensures told { OnOk result (report.new.items ≡ report.old.items ++ source_lines logs.now) }
    ensures err { OnErr result (IsPrefixBehind report.old.items (source_lines logs.now) report.new.items) }
{
    for log in logs {
        let line = source_line(alloc, log)?;
        report.push(line)?;
    }
    Ok(())
}

fn source_line(alloc: Global, log: &Log) -> Result<ReportLine, AllocError>
    ensures { IfOk result (λ line. line ≡ source_line log.now) }
{
    Ok(ReportLine::Source {
        source: log.source,
        number: log.position,
        decls: Decls::new(copies(alloc, log.decls.as_slice())?)?,
    })
}

fn copies(alloc: Global, decls: &[Decl]) -> Result<Vec<Decl>, AllocError>
    ensures { IfOk result (λ v. v.items ≡ decls.now) }
{
    let mut copies = Vec::with_capacity(alloc, decls.len())?;
    for decl in decls {
        copies.push(decl.copy(alloc)?)?;
    }
    Ok(copies)
}
