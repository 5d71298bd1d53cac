//! `Row`: what a client has declared under an id, and the order of rows.

ghost use Rattle.std.specs.Prelude.{◌≡◌, ◌<◌, ◌≤◌, length, slice_set, slice_index_or, IfOk, OnOk, OnErr};
ghost use Rattle.std.specs.List.{insert, remove};
ghost use Rattle.zr_local.specs.Owners.{once_more, once_less};
ghost use Rattle.zr_local.specs.Rows.{AreInOrder, id_kind, row_key, key_cmp, declared};
ghost use Rattle.zr_local.specs.declared.row.Row.{Row};
ghost use Rattle.zr_lists.specs.Place.{IsPlace};

use crate::owners::Owners;
use std::alloc::{AllocError, Global};
use std::cmp::Ordering;
use zr_id::link::LinkNo;
use zr_msg::decl::{Decl, Kind};

/// What the client of a link has declared under an id.
#[derive(Drop)]
pub struct Row {
    pub link: LinkNo,
    pub id: u32,
    pub decl: Decl,
}

/// Under what a client has declared. A subscriber, a queryable and a token may have the same id.
#[derive(Clone, Copy)]
pub struct Key {
    link: u32,
    kind: u32,
    id: u32,
}

impl Key {
    /// The key of what is of this kind: a queryable is complete or not under one id.
    pub fn new(link: LinkNo, id: u32, kind: Kind) -> Key
        ensures { result ≡ record { link = link.0; kind = id_kind kind; id = id } }
    {
        Key {
            link: link.0,
            kind: id_kind(kind),
            id,
        }
    }
}

fn id_kind(kind: Kind) -> u32
    ensures { result ≡ id_kind kind }
{
    match kind {
        Kind::Sub => 0,
        Kind::Able | Kind::Full => 1,
        Kind::Token => 2,
    }
}

/// The place of what is declared under a key, or the place where it would stand.
pub fn place_of(rows: &[Row], key: Key) -> Result<usize, usize>
    requires { AreInOrder rows.now }
    ensures { IsPlace key_cmp row_key rows.now (record { link = key.link; kind = key.kind; id = key.id }) result }
{
    rows.binary_search_by(|row| compare(row, &key))
}

fn compare(row: &Row, key: &Key) -> Ordering
    ensures { result ≡ key_cmp (row_key row.now) (record { link = key.now.link; kind = key.now.kind; id = key.now.id }) }
{
    let kinds = id_kind(row.decl.kind).cmp(&key.kind);
    let ids = row.id.cmp(&key.id);
    row.link.0.cmp(&key.link).then(kinds.then(ids))
}

/// Another row stands at the place, and who has its declaration is noted anew.
pub fn exchange(
    rows: &mut Vec<Row>,
    owners: &mut Owners,
    at: usize,
    row: Row,
) -> Result<(), AllocError>
    requires { at < length rows.old.items }
    ensures rows { OnOk result (rows.new.items ≡ slice_set rows.old.items at row) }
    ensures owners { (d : Row) → OnOk result (owners.new ≡ once_less (once_more owners.old row.decl) (slice_index_or rows.old.items at d).decl) }
    ensures rows_stay { OnErr result (rows.new.items ≡ rows.old.items) }
    ensures owners_stay { OnErr result (owners.new ≡ owners.old) }
{
    owners.add(&row.decl)?;
    owners.take(&rows[at].decl);
    rows[at] = row;
    Ok(())
}

/// A row more stands at the place, and its declaration has one row more.
pub fn insert(
    rows: &mut Vec<Row>,
    owners: &mut Owners,
    at: usize,
    row: Row,
) -> Result<(), AllocError>
    requires { at ≤ length rows.old.items }
    ensures rows { OnOk result (rows.new.items ≡ insert rows.old.items at row) }
    ensures owners { OnOk result (owners.new ≡ once_more owners.old row.decl) }
    ensures rows_stay { OnErr result (rows.new.items ≡ rows.old.items) }
    ensures owners_stay { OnErr result (owners.new ≡ owners.old) }
{
    rows.insert(at, row)?;
    if owners.add(&rows[at].decl).is_err() {
        rows.remove(at);
        return Err(AllocError);
    }
    Ok(())
}

/// The row at the place is gone, and its declaration has one row less.
pub fn remove(rows: &mut Vec<Row>, owners: &mut Owners, at: usize)
    requires { at < length rows.old.items }
    ensures rows { rows.new.items ≡ remove rows.old.items at }
    ensures owners { (d : Row) → owners.new ≡ once_less owners.old (slice_index_or rows.old.items at d).decl }
{
    owners.take(&rows[at].decl);
    rows.remove(at);
}

/// Second rows, equal to these.
pub fn copies_of(alloc: Global, rows: &[Row]) -> Result<Vec<Row>, AllocError>
    ensures { IfOk result (λ v. v.items ≡ rows.now) }
{
    let mut copies = Vec::with_capacity(alloc, rows.len())?;
    for row in rows {
        copies.push(copy_of(alloc, row)?)?;
    }
    Ok(copies)
}

fn copy_of(alloc: Global, row: &Row) -> Result<Row, AllocError>
    ensures { IfOk result (λ r. r ≡ row.now) }
{
    Ok(Row {
        link: row.link,
        id: row.id,
        decl: row.decl.copy(alloc)?,
    })
}
