//! What all others than the client of a link declare.

ghost use Rattle.std.specs.Prelude.{◌≡◌, ◌++◌, ◌∷◌, [], false, filter, IfOk, OnOk};
ghost use Rattle.std.specs.List.{flat_map};
ghost use Rattle.zr_local.specs.Rows.{decls_of, left};
ghost use Rattle.zr_told.specs.Tokens.{is_kept};
ghost use Rattle.zr_told_spec.specs.Rows.{is_source, others};

use crate::place::is_token;
use std::alloc::{AllocError, Global};
use zr_id::link::LinkNo;
use zr_local::row::Row;
use zr_log::log::Log;
use zr_msg::decl::Decl;
use zr_node_spec::tables::TablesView;

/// A copy of what the other clients of this router declare, and those of the routers that it reaches.
pub fn others(alloc: Global, tables: &TablesView, link: LinkNo) -> Result<Vec<Decl>, AllocError>
    ensures { IfOk result (λ ds. ds.items ≡ others tables.now link.0) }
{
    kept(alloc, tables, link, true)
}

/// The same without tokens.
pub fn others_but_tokens(
    alloc: Global,
    tables: &TablesView,
    link: LinkNo,
) -> Result<Vec<Decl>, AllocError>
    ensures { IfOk result (λ ds. ds.items ≡ filter (is_kept false) (others tables.now link.0)) }
{
    kept(alloc, tables, link, false)
}

// All of it, or all but tokens.
#[tactic(auto, using(crate::proofs::Found::kept_append))]
fn kept(
    alloc: Global,
    tables: &TablesView,
    link: LinkNo,
    tokens: bool,
) -> Result<Vec<Decl>, AllocError>
    ensures { IfOk result (λ ds. ds.items ≡ filter (is_kept tokens) (others tables.now link.0)) }
{
    let mut decls = Vec::new(alloc);
    put_rows(alloc, tables.local().rows(), link, tokens, &mut decls)?;
    put_logs(alloc, tables, tables.known().logs(), tokens, &mut decls)?;
    Ok(decls)
}

fn put_rows(
    alloc: Global,
    rows: &[Row],
    link: LinkNo,
    tokens: bool,
    decls: &mut Vec<Decl>,
) -> Result<(), AllocError>
    ensures { OnOk result (decls.new.items ≡ decls.old.items ++ filter (is_kept tokens) (decls_of (left rows.now link.0))) }
{
    for row in rows {
        if row.link.0 != link.0 {
            put_decl(alloc, &row.decl, tokens, decls)?;
        }
    }
    Ok(())
}

#[tactic(auto, using(crate::proofs::Found::kept_append))]
fn put_logs(
    alloc: Global,
    tables: &TablesView,
    logs: &[Log],
    tokens: bool,
    decls: &mut Vec<Decl>,
) -> Result<(), AllocError>
    ensures { OnOk result (decls.new.items ≡ decls.old.items ++ filter (is_kept tokens) (flat_map (λ l. l.decls) (filter (λ l. is_source tables.now l) logs.now))) }
{
    for log in logs {
        if is_source(tables, log) {
            put_decls(alloc, log.decls.as_slice(), tokens, decls)?;
        }
    }
    Ok(())
}

/// Whether a log is of another router that this one reaches.
pub fn is_source(tables: &TablesView, log: &Log) -> bool
    ensures { result ≡ is_source tables.now log.now }
{
    log.source != tables.me() && tables.trees().reached(tables.me(), log.source)
}

fn put_decls(
    alloc: Global,
    more: &[Decl],
    tokens: bool,
    decls: &mut Vec<Decl>,
) -> Result<(), AllocError>
    ensures { OnOk result (decls.new.items ≡ decls.old.items ++ filter (is_kept tokens) more.now) }
{
    for decl in more {
        put_decl(alloc, decl, tokens, decls)?;
    }
    Ok(())
}

fn put_decl(
    alloc: Global,
    decl: &Decl,
    tokens: bool,
    decls: &mut Vec<Decl>,
) -> Result<(), AllocError>
    ensures { OnOk result (decls.new.items ≡ decls.old.items ++ filter (is_kept tokens) (decl.now ∷ [])) }
{
    if tokens || !is_token(decl.kind) {
        decls.push(decl.copy(alloc)?)?;
    }
    Ok(())
}
