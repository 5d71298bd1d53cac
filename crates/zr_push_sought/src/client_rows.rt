//! `ClientRows`: what the clients of a router have declared, asked for link by link.

ghost use Rattle.std.specs.Prelude.{◌≡◌, ◌<◌, ◌≤◌, true, false, nat_lt, nat_le, length, slice_index_or};
ghost use Rattle.std.specs.List.Sorted.{IsNonDecreasingBy, IsPartitionPoint};
ghost use Rattle.zr_local.specs.Owners.{on_link};
ghost use Rattle.zr_local.specs.Rows.{AreInOrder};
ghost use Rattle.zr_local.specs.declared.row.Row.{Row};

use std::marker::Model;
use zr_id::link::LinkNo;
use zr_local::local::Local;
use zr_local::row::Row;

/// What the clients of a router have declared. Links that are asked for in ascending order take one pass over the rows.
#[derive(Drop)]
pub struct ClientRows<'a> {
    rows: &'a [Row],
    // where the rows of a link are looked for first: behind those of the last one
    next: usize,
}

impl<'a> Model for ClientRows<'a> {
    ghost use Rattle.std.specs.Prelude.{List};
    ghost use Rattle.zr_local.specs.Rows.{AreInOrder};
    ghost use Rattle.zr_local.specs.declared.row.Row.{Row};

    ghost Value = { List Row };

    ghost view = { λ r. r.rows.now };

    ghost invariant = { λ r. AreInOrder r.rows.now };
}

impl<'a> ClientRows<'a> {
    /// All rows of a router.
    pub fn of(local: &'a Local) -> ClientRows<'a>
        ensures { result ≡ local.now.rows }
    {
        ClientRows {
            rows: local.rows(),
            next: 0,
        }
    }

    /// The rows of a link. They stand together.
    pub fn on(&mut self, link: LinkNo) -> &'a [Row]
        ensures kept { self.new ≡ self.old }
        ensures rows { result.now ≡ on_link self.old link.0 }
    {
        let rows = self.rows;
        let first = first_near(rows, self.next, link);
        let rest = &rows[first..];
        let count = count_on(rest, link);
        self.next = first + count;
        &rest[..count]
    }
}

// The place of the first row that is of this link or a later one; the search for it is spared where that is `near`.
fn first_near(rows: &[Row], near: usize, link: LinkNo) -> usize
    requires { AreInOrder rows.now }
    ensures within { result ≤ length rows.now }
    ensures parted { IsPartitionPoint (λ r. nat_lt r.link.0 link.0 ≡ true) (λ r. nat_lt r.link.0 link.0 ≡ false) rows.now result }
{
    if is_first(rows, near, link) {
        near
    } else {
        first_on(rows, link)
    }
}

fn first_on(rows: &[Row], link: LinkNo) -> usize
    requires { AreInOrder rows.now }
    ensures within { result ≤ length rows.now }
    ensures parted { IsPartitionPoint (λ r. nat_lt r.link.0 link.0 ≡ true) (λ r. nat_lt r.link.0 link.0 ≡ false) rows.now result }
{
    rows.partition_point(|row| row.link.0 < link.0)
}

fn is_first(rows: &[Row], at: usize, link: LinkNo) -> bool
    requires { AreInOrder rows.now }
    ensures within { result ≡ true → at ≤ length rows.now }
    ensures parted { result ≡ true → IsPartitionPoint (λ r. nat_lt r.link.0 link.0 ≡ true) (λ r. nat_lt r.link.0 link.0 ≡ false) rows.now at }
{
    if is_lower(rows, at, link) {
        return false;
    }
    at == 0 || is_lower(rows, at - 1, link)
}

// Whether the row at an index is of a lower link.
fn is_lower(rows: &[Row], at: usize, link: LinkNo) -> bool
    ensures yes { result ≡ true → (at < length rows.now) × ((d : Row) → (slice_index_or rows.now at d).link.0 < link.0) }
    ensures no { result ≡ false → (d : Row) → at < length rows.now → link.0 ≤ (slice_index_or rows.now at d).link.0 }
{
    at < rows.len() && rows[at].link.0 < link.0
}

// How many of these rows are of this link, where the first ones are of no lower one.
fn count_on(rows: &[Row], link: LinkNo) -> usize
    requires { IsNonDecreasingBy (λ r. r.link.0) rows.now }
    ensures within { result ≤ length rows.now }
    ensures parted { IsPartitionPoint (λ r. nat_le r.link.0 link.0 ≡ true) (λ r. nat_le r.link.0 link.0 ≡ false) rows.now result }
{
    let mut count = 0;
    while is_no_higher(rows, count, link) {
        count += 1;
    }
    count
}

// Whether the row at an index is of this link or a lower one.
fn is_no_higher(rows: &[Row], at: usize, link: LinkNo) -> bool
    ensures yes { result ≡ true → (at < length rows.now) × ((d : Row) → (slice_index_or rows.now at d).link.0 ≤ link.0) }
    ensures no { result ≡ false → (d : Row) → at < length rows.now → link.0 < (slice_index_or rows.now at d).link.0 }
{
    at < rows.len() && rows[at].link.0 <= link.0
}
