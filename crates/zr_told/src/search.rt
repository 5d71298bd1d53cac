//! What is sought among all that others than the client of a link declare.

ghost use Rattle.std.specs.Prelude.{◌≡◌, filter};
ghost use Rattle.std.specs.List.{list_any, flat_map};
ghost use Rattle.std.specs.Option.{option_copied};
ghost use Rattle.zr_local.specs.Rows.{decls_of, left};
ghost use Rattle.zr_told.specs.Plan.{is_sought, may_be_complete};
ghost use Rattle.zr_told_spec.specs.Rows.{is_source, others};
ghost use Rattle.zr_told_spec.specs.Wanted.{asked, is_complete_at, wants};

use crate::interest::is_told_at;
use crate::others::is_source;
use crate::place::is_at;
use zr_id::link::LinkNo;
use zr_local::interest::{ClientInterests, Interest};
use zr_local::row::Row;
use zr_log::log::Log;
use zr_msg::decl::Decl;
use zr_node_spec::kinds::is_complete;
use zr_node_spec::tables::TablesView;
use zr_told_spec::place::{Class, Place};

/// Whether a client wants to be told of a place. Cost: a search of what others declare for each of its interests, up to the first that wants it.
pub fn is_wanted(tables: &TablesView, client: &ClientInterests, place: &Place) -> bool
    ensures { result ≡ wants (others tables.now client.now.link.0) client.now.interests place.now }
{
    one_asks(tables, client.link, client.interests.as_slice(), place)
}

fn one_asks(tables: &TablesView, link: LinkNo, interests: &[Interest], place: &Place) -> bool
    ensures { result ≡ wants (others tables.now link.0) interests.now place.now }
{
    for interest in interests {
        if is_asked(tables, link, interest, place) {
            return true;
        }
    }
    false
}

fn is_asked(tables: &TablesView, link: LinkNo, interest: &Interest, place: &Place) -> bool
    ensures { result ≡ asked (others tables.now link.0) interest.now place.now }
{
    is_found(tables, link, Some(interest), place)
}

/// Whether another than the client of a link declares a complete queryable at a place.
pub fn is_complete_at(tables: &TablesView, link: LinkNo, place: &Place) -> bool
    ensures { result ≡ is_complete_at (others tables.now link.0) place.now }
{
    may_be_complete(place.class) && is_found(tables, link, None, place)
}

// So nothing is sought among subscribers and tokens.
fn may_be_complete(class: Class) -> bool
    ensures { result ≡ may_be_complete class }
{
    match class {
        Class::Queryable => true,
        Class::Subscriber | Class::Living => false,
    }
}

// Whether others declare what an interest is told of at a place, or, for none, a complete queryable there.
#[tactic(auto, using(crate::proofs::Found::any_append))]
fn is_found(tables: &TablesView, link: LinkNo, interest: Option<&Interest>, place: &Place) -> bool
    ensures { result ≡ list_any (is_sought (option_copied interest.entry) place.now) (others tables.now link.0) }
{
    is_in_rows(tables.local().rows(), link, interest, place)
        || is_in_logs(tables, tables.known().logs(), interest, place)
}

fn is_in_rows(rows: &[Row], link: LinkNo, interest: Option<&Interest>, place: &Place) -> bool
    ensures { result ≡ list_any (is_sought (option_copied interest.entry) place.now) (decls_of (left rows.now link.0)) }
{
    for row in rows {
        if row.link.0 != link.0 && is_sought(interest, place, &row.decl) {
            return true;
        }
    }
    false
}

#[tactic(auto, using(crate::proofs::Found::any_append))]
fn is_in_logs(tables: &TablesView, logs: &[Log], interest: Option<&Interest>, place: &Place) -> bool
    ensures { result ≡ list_any (is_sought (option_copied interest.entry) place.now) (flat_map (λ l. l.decls) (filter (λ l. is_source tables.now l) logs.now)) }
{
    for log in logs {
        if is_source(tables, log) && is_in(log.decls.as_slice(), interest, place) {
            return true;
        }
    }
    false
}

fn is_in(decls: &[Decl], interest: Option<&Interest>, place: &Place) -> bool
    ensures { result ≡ list_any (is_sought (option_copied interest.entry) place.now) decls.now }
{
    for decl in decls {
        if is_sought(interest, place, decl) {
            return true;
        }
    }
    false
}

fn is_sought(interest: Option<&Interest>, place: &Place, decl: &Decl) -> bool
    ensures { result ≡ is_sought (option_copied interest.entry) place.now decl.now }
{
    match interest {
        Some(interest) => is_told_at(interest, place, decl),
        None => is_at(place, decl) && is_complete(decl.kind),
    }
}
