//! Whether what is sought was declared.

ghost use Rattle.std.specs.Prelude.{◌≡◌, ◌≤◌, ℕ, List, true, false, length, IfSome};
ghost use Rattle.std.specs.List.{list_any};
ghost use Rattle.std.specs.List.Sorted.{IsNonDecreasingBy, IsPartitionPoint};
ghost use Rattle.zr_node_spec.specs.Queries.{is_queryable, is_complete};
ghost use Rattle.zr_node_spec.specs.Samples.{is_subscriber};
ghost use Rattle.zr_push_sought.specs.Found.{has_holder, TellClients};
ghost use Rattle.zr_local.specs.declared.holder.Holder.TheVariants.{Source};
ghost use Rattle.zr_push_sought.specs.Pairs.{is_kind};
ghost use Rattle.zr_push_sought.specs.Sought.{by_meeting, is_sought, is_lower, has_declared, is_in_log};
ghost use Rattle.zr_push_sought.specs.declared.sought.Sought.{Sought};
ghost use Rattle.zr_log_set.specs.Decls.{IsSet};
ghost use Rattle.zr_msg.specs.Decl.{kind_rank};

use crate::client_rows::ClientRows;
use crate::found::Found;
use crate::sought::Sought;
use zr_id::link::LinkNo;
use zr_key::key::KeyExpr;
use zr_local::holder::Holder;
use zr_local::row::Row;
use zr_log::log::Log;
use zr_match::{covers, meets};
use zr_msg::decl::{Decl, Kind};
use zr_node_spec::kinds::is_complete;

/// Whether the client of a link has declared it. Where it is known who has declared what meets the key, no other client is looked at.
pub fn has_declared(
    rows: &mut ClientRows,
    found: Option<&Found>,
    link: LinkNo,
    sought: Sought,
    key: &KeyExpr,
) -> bool
    requires { IfSome found (λ f. TellClients (by_meeting sought) key.now rows.old f.now.holders.items) }
    ensures kept { rows.new ≡ rows.old }
    ensures has { result ≡ has_declared rows.old link.0 sought key.now }
{
    match found {
        Some(found) => {
            found.has(&Holder::Client(link)) && has_row_that_meets(rows, link, sought, key)
        }
        None => has_row(rows, link, sought, key),
    }
}

// The same of a client that has declared what meets the key: only of complete queryables more is asked.
fn has_row_that_meets(rows: &mut ClientRows, link: LinkNo, sought: Sought, key: &KeyExpr) -> bool
    requires { has_declared rows.old link.0 (by_meeting sought) key.now ≡ true }
    ensures kept { rows.new ≡ rows.old }
    ensures has { result ≡ has_declared rows.old link.0 sought key.now }
{
    match sought {
        Sought::Subscribers | Sought::Queryables => true,
        Sought::Complete => has_row(rows, link, sought, key),
    }
}

fn has_row(rows: &mut ClientRows, link: LinkNo, sought: Sought, key: &KeyExpr) -> bool
    ensures kept { rows.new ≡ rows.old }
    ensures has { result ≡ has_declared rows.old link.0 sought key.now }
{
    any_is_sought(rows.on(link), sought, key)
}

/// Whether the clients of a log's router have. Declarations of another kind are not looked at.
pub(crate) fn is_in_log(log: &Log, found: Option<&Found>, sought: Sought, key: &KeyExpr) -> bool
    requires { IfSome found (λ f. has_holder f.now.holders.items (Source log.now.source) ≡ is_in_log (by_meeting sought) key.now log.now) }
    ensures { result ≡ is_in_log sought key.now log.now }
{
    match found {
        Some(found) => {
            found.has(&Holder::Source(log.source)) && has_decl_that_meets(log, sought, key)
        }
        None => has_decl(log, sought, key),
    }
}

// The same of a log that has what meets the key.
fn has_decl_that_meets(log: &Log, sought: Sought, key: &KeyExpr) -> bool
    requires { is_in_log (by_meeting sought) key.now log.now ≡ true }
    ensures { result ≡ is_in_log sought key.now log.now }
{
    match sought {
        Sought::Subscribers | Sought::Queryables => true,
        Sought::Complete => has_decl(log, sought, key),
    }
}

fn has_decl(log: &Log, sought: Sought, key: &KeyExpr) -> bool
    ensures { result ≡ is_in_log sought key.now log.now }
{
    has_sought(of_kind(log.decls.as_slice(), sought), sought, key)
}

fn has_sought(decls: &[Decl], sought: Sought, key: &KeyExpr) -> bool
    ensures { result ≡ list_any (λ d. is_sought sought key.now d) decls.now }
{
    decls.iter().any(|decl| is_sought(sought, key, decl))
}

// The declarations of a log that may be sought. They are in the order of their kinds, so those of some kinds stand together.
fn of_kind(decls: &[Decl], sought: Sought) -> &[Decl]
    requires { IsSet decls.now }
    ensures { (key : List ℕ) → list_any (λ d. is_sought sought key d) result.now ≡ list_any (λ d. is_sought sought key d) decls.now }
{
    match sought {
        Sought::Subscribers => &decls[..lower(decls, Kind::Able)],
        Sought::Queryables => below_tokens(&decls[lower(decls, Kind::Able)..]),
        Sought::Complete => below_tokens(&decls[lower(decls, Kind::Full)..]),
    }
}

// Those before the tokens, which stand last and are never sought.
fn below_tokens(decls: &[Decl]) -> &[Decl]
    requires { IsNonDecreasingBy (λ d. kind_rank d.kind) decls.now }
    ensures { (sought : Sought) (key : List ℕ) → list_any (λ d. is_sought sought key d) result.now ≡ list_any (λ d. is_sought sought key d) decls.now }
{
    &decls[..lower(decls, Kind::Token)]
}

// How many declarations are of lower kinds than this one: they stand before the others.
fn lower(decls: &[Decl], kind: Kind) -> usize
    requires { IsNonDecreasingBy (λ d. kind_rank d.kind) decls.now }
    ensures within { result ≤ length decls.now }
    ensures parted { IsPartitionPoint (λ d. is_lower d.kind kind ≡ true) (λ d. is_lower d.kind kind ≡ false) decls.now result }
{
    decls.partition_point(|decl| is_lower(decl.kind, kind))
}

fn is_lower(one: Kind, other: Kind) -> bool
    ensures { result ≡ is_lower one other }
{
    one < other
}

fn any_is_sought(rows: &[Row], sought: Sought, key: &KeyExpr) -> bool
    ensures { result ≡ list_any (λ r. is_sought sought key.now r.decl) rows.now }
{
    rows.iter().any(|row| is_sought(sought, key, &row.decl))
}

fn is_sought(sought: Sought, key: &KeyExpr, decl: &Decl) -> bool
    ensures { result ≡ is_sought sought key.now decl.now }
{
    match sought {
        Sought::Subscribers => is_subscriber(decl.kind) && meets(&decl.key, key),
        Sought::Queryables => is_queryable(decl.kind) && meets(&decl.key, key),
        Sought::Complete => is_complete(decl.kind) && covers(&decl.key, key),
    }
}

/// Whether declarations of a kind are sought.
pub(crate) fn is_kind(sought: Sought, kind: Kind) -> bool
    ensures { result ≡ is_kind sought kind }
{
    match sought {
        Sought::Subscribers => is_subscriber(kind),
        Sought::Queryables => is_queryable(kind),
        Sought::Complete => is_complete(kind),
    }
}

fn is_subscriber(kind: Kind) -> bool
    ensures { result ≡ is_subscriber kind }
{
    match kind {
        Kind::Sub => true,
        Kind::Able | Kind::Full | Kind::Token => false,
    }
}

fn is_queryable(kind: Kind) -> bool
    ensures { result ≡ is_queryable kind }
{
    match kind {
        Kind::Sub | Kind::Token => false,
        Kind::Able | Kind::Full => true,
    }
}
