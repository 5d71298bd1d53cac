//! What others declare, each token once.

ghost use Rattle.std.specs.Prelude.{◌≡◌, ◌++◌, ◌||◌, ℕ, List, map, IfOk, OnOk};
ghost use Rattle.std.specs.List.{flat_map};
ghost use Rattle.zr_id.specs.Zid.{is_named};
ghost use Rattle.zr_token.specs.Tally.{reaches};
ghost use Rattle.zr_token.specs.declared.owner.Owner.TheVariants.{Source};
ghost use Rattle.zr_told.specs.Tokens.{AreAlike, IsTallied, has_source, log_pairs, pairs_of, row_pairs, sources};
ghost use Rattle.zr_told_spec.specs.Place.{token_on};
ghost use Rattle.zr_told_spec.specs.Rows.{others};

use crate::interest::asks;
use crate::others::{is_source, others, others_but_tokens};
use crate::place::is_token;
use std::alloc::{AllocError, Global};
use zr_id::link::LinkNo;
use zr_id::zid::Zid;
use zr_key::key::KeyExpr;
use zr_local::interest::Interest;
use zr_local::row::Row;
use zr_log::log::Log;
use zr_msg::decl::{Decl, Kind};
use zr_node_spec::tables::TablesView;
use zr_token::owner::Owner;
use zr_token::tally::Tally;
use zr_told_spec::place::Class;

/// What all others than the client of a link declare, for the answer to an interest of the client. Where that is in tokens that are declared
/// now, each key of tokens stands once, however many declare it.
pub fn others_for(
    alloc: Global,
    tables: &TablesView,
    link: LinkNo,
    interest: &Interest,
    current: bool,
) -> Result<Vec<Decl>, AllocError>
    ensures { IfOk result (λ ds. AreAlike ds.items (others tables.now link.0)) }
{
    if current && asks(interest.kinds, Class::Living) {
        others_once(alloc, tables, link)
    } else {
        others(alloc, tables, link)
    }
}

// Each key of tokens stands once.
fn others_once(alloc: Global, tables: &TablesView, link: LinkNo) -> Result<Vec<Decl>, AllocError>
    ensures { IfOk result (λ ds. AreAlike ds.items (others tables.now link.0)) }
{
    let tally = tally_of(alloc, tables)?;
    let mut keys = Vec::new(alloc);
    tally.alive(link, None, &mut keys)?;
    let mut decls = others_but_tokens(alloc, tables, link)?;
    put_tokens(keys, &mut decls)?;
    Ok(decls)
}

// The tokens of this router's clients, and of those of the routers that it reaches.
fn tally_of(alloc: Global, tables: &TablesView) -> Result<Tally, AllocError>
    ensures { IfOk result (λ t. IsTallied tables.now t) }
{
    let mut tally = Tally::new(alloc);
    add_rows(tables.local().rows(), &mut tally)?;
    add_logs(tables, tables.known().logs(), &mut tally)?;
    Ok(tally)
}

fn add_rows(rows: &[Row], tally: &mut Tally) -> Result<(), AllocError>
    ensures pairs { OnOk result (tally.new.pairs ≡ tally.old.pairs ++ row_pairs rows.now) }
    ensures reached { OnOk result (tally.new.reached ≡ tally.old.reached) }
{
    for row in rows {
        if is_token(row.decl.kind) {
            tally.add(Owner::Client(row.link), &row.decl.key)?;
        }
    }
    Ok(())
}

fn add_logs(tables: &TablesView, logs: &[Log], tally: &mut Tally) -> Result<(), AllocError>
    ensures pairs { OnOk result (tally.new.pairs ≡ tally.old.pairs ++ flat_map log_pairs (sources tables.now logs.now)) }
    ensures reached { OnOk result ((s : List ℕ) → reaches tally.new s ≡ (has_source (sources tables.now logs.now) s || reaches tally.old s)) }
{
    for log in logs {
        if is_source(tables, log) {
            add_log(log, tally)?;
        }
    }
    Ok(())
}

fn add_log(log: &Log, tally: &mut Tally) -> Result<(), AllocError>
    ensures pairs { OnOk result (tally.new.pairs ≡ tally.old.pairs ++ log_pairs log.now) }
    ensures reached { OnOk result ((s : List ℕ) → reaches tally.new s ≡ (is_named s log.now.source || reaches tally.old s)) }
{
    tally.reach(log.source, true)?;
    add_tokens(&log.source, log.decls.as_slice(), tally)
}

fn add_tokens(source: &Zid, decls: &[Decl], tally: &mut Tally) -> Result<(), AllocError>
    ensures pairs { OnOk result (tally.new.pairs ≡ tally.old.pairs ++ pairs_of (Source source.now) decls.now) }
    ensures reached { OnOk result (tally.new.reached ≡ tally.old.reached) }
{
    for decl in decls {
        if is_token(decl.kind) {
            tally.add(Owner::Source(*source), &decl.key)?;
        }
    }
    Ok(())
}

fn put_tokens(keys: Vec<KeyExpr>, decls: &mut Vec<Decl>) -> Result<(), AllocError>
    ensures { OnOk result (decls.new.items ≡ decls.old.items ++ map token_on keys.items) }
{
    for key in keys {
        decls.push(Decl {
            kind: Kind::Token,
            key,
        })?;
    }
    Ok(())
}
