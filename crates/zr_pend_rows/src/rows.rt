//! All rows of a router: what a call of the table asks of them, and what it makes of them.

ghost use Rattle.std.specs.Prelude.{◌≡◌, ◌≤◌, ◌+◌, ◌++◌, true, false, None, Some, IsTrue, map, length, if◌then◌else◌, IfOk, IfSome};
ghost use Rattle.std.specs.Map.{remove_entry, set_value};
ghost use Rattle.std.specs.Option.{IsSomeAnd, option_and_then, option_map_or, option_to_list};
ghost use Rattle.std.specs.Ordering.{nat_cmp};
ghost use Rattle.std.specs.Vec.{vec_len, vec_capacity};
ghost use Rattle.std.specs.BTreeMap.{get, is_at, values};
ghost use Rattle.zr_pend_rows.specs.Ending.{all_ended, ended, finals_among, left};
ghost use Rattle.zr_pend_rows.specs.Tied.{ArePending};
ghost use Rattle.zr_pend_spec.specs.Row.{has, is_last, without};
ghost use Rattle.zr_pend_spec.specs.Pending.{IsSound, all_finished, all_orphaned, are_distinct, asker_of, branch, branches, final_to, finals, finished, is_pending};

use crate::places::Places;
use crate::row::Row;
use std::alloc::{AllocError, Global};
use std::collections::BTreeMap;
use zr_id::link::LinkNo;
use zr_pend_numbers::numbers::Numbers;
use zr_pend_spec::branch::{Asker, Branch};

/// The numbers of branches.
pub fn numbers_of(alloc: Global, branches: &[Branch]) -> Result<Vec<u32>, AllocError>
    ensures { IfOk result (λ ns. ns.items ≡ map (λ b. b.number) branches.now) }
{
    branches.iter().map(|b| b.number).collect(alloc)
}

/// The numbers that are pending on each link.
pub fn numbers_in(alloc: Global, rows: &BTreeMap<u64, Row>) -> Result<Numbers, AllocError>
    ensures { IfOk result (λ ns. ArePending ns (values rows.now)) }
{
    let mut numbers = Numbers::new(alloc);
    for row in rows.values() {
        numbers.put_each(alloc, row.branches())?;
    }
    Ok(numbers)
}

/// Who asked the row of a branch.
#[tactic(auto, using(crate::proofs::Ending::none_asked))]
pub fn asker_of(rows: &BTreeMap<u64, Row>, places: &Places, branch: Branch) -> Option<Asker>
    requires sound { IsSound (values rows.now) }
    ensures { result ≡ asker_of branch (values rows.now) }
{
    match place_of(rows, places.get(branch), branch) {
        Some(place) => asker_at(rows, place),
        None => None,
    }
}

fn asker_at(rows: &BTreeMap<u64, Row>, place: u64) -> Option<Asker>
    ensures { result ≡ option_and_then (λ r. r.asker) (get nat_cmp rows.now place) }
{
    match rows.get(&place) {
        Some(row) => row.asker(),
        None => None,
    }
}

/// Ends a branch: who gets the final, where there is one.
#[tactic(auto, using(zr_pend_spec::proofs::OneEnd::none_ends, zr_pend_spec::proofs::OneEnd::none_final))]
pub fn finish(rows: &mut BTreeMap<u64, Row>, places: &mut Places, branch: Branch) -> Option<Asker>
    requires sound { IsSound (values rows.old) }
    ensures asker { result ≡ final_to (values rows.old) branch }
    ensures rows { values rows.new ≡ finished (values rows.old) branch }
{
    let place = places.take(branch);
    match place_of(rows, place, branch) {
        Some(place) => end_at(rows, place, branch),
        None => None,
    }
}

/// Forgets what a link asked, and ends its branches, which have these numbers, one after another. Those who get a final are put
/// behind the askers.
#[tactic(auto, using(crate::proofs::Ending::orphaned_distinct, crate::proofs::Ending::dropped_left, crate::proofs::Ending::dropped_finals))]
pub fn drop_link(
    rows: &mut BTreeMap<u64, Row>,
    places: &mut Places,
    link: LinkNo,
    numbers: &[u32],
    askers: &mut Vec<Asker>,
)
    requires sound { IsSound (values rows.old) }
    requires room { vec_len askers.old + length numbers.now ≤ vec_capacity askers.old }
    ensures rows { values rows.new ≡ all_finished (all_orphaned link (values rows.old)) (map (λ n. branch link n) numbers.now) }
    ensures askers { askers.new.items ≡ askers.old.items ++ finals (all_orphaned link (values rows.old)) (map (λ n. branch link n) numbers.now) }
{
    orphan_all(rows, link);
    end_all(rows, places, link, numbers, askers);
    leave(rows);
    places.take_all(link, numbers);
}

// What a link asked has no asker any more.
fn orphan_all(rows: &mut BTreeMap<u64, Row>, link: LinkNo)
    ensures { values rows.new ≡ all_orphaned link (values rows.old) }
{
    rows.retain(|_, row| {
        row.orphan(link);
        true
    });
}

// Ends the branches of a link that have these numbers, one after another, and puts those who get a final behind the askers. Rows of which no
// branch is left stay.
fn end_all(
    rows: &mut BTreeMap<u64, Row>,
    places: &Places,
    link: LinkNo,
    numbers: &[u32],
    askers: &mut Vec<Asker>,
)
    requires distinct { are_distinct (branches (values rows.old)) ≡ true }
    requires room { vec_len askers.old + length numbers.now ≤ vec_capacity askers.old }
    ensures rows { values rows.new ≡ all_ended (values rows.old) (map (λ n. branch link n) numbers.now) }
    ensures askers { askers.new.items ≡ askers.old.items ++ finals_among (values rows.old) (map (λ n. branch link n) numbers.now) }
{
    for number in numbers {
        let branch = Branch {
            link,
            number: *number,
        };
        let asker = end_in(rows, places.get(branch), branch);
        tell(askers, asker);
    }
}

// Ends a branch in the row that has it, which stays: who gets the final, where there is one.
#[tactic(auto, using(crate::proofs::Ending::none_ended, zr_pend_spec::proofs::OneEnd::none_final))]
fn end_in(rows: &mut BTreeMap<u64, Row>, place: Option<u64>, branch: Branch) -> Option<Asker>
    requires distinct { are_distinct (branches (values rows.old)) ≡ true }
    ensures asker { result ≡ final_to (values rows.old) branch }
    ensures rows { values rows.new ≡ ended (values rows.old) branch }
{
    match place_of(rows, place, branch) {
        Some(place) => end_there(rows, place, branch),
        None => None,
    }
}

fn end_there(rows: &mut BTreeMap<u64, Row>, place: u64, branch: Branch) -> Option<Asker>
    requires distinct { are_distinct (branches (values rows.old)) ≡ true }
    requires has { IsSomeAnd (get nat_cmp rows.old place) (λ r. has branch r ≡ true) }
    ensures asker { result ≡ final_to (values rows.old) branch }
    ensures rows { values rows.new ≡ ended (values rows.old) branch }
{
    let asker = final_at(rows, place, branch);
    end_in_row(rows, place, branch);
    asker
}

fn final_at(rows: &BTreeMap<u64, Row>, place: u64, branch: Branch) -> Option<Asker>
    ensures { (r : Row) → get nat_cmp rows.now place ≡ Some r → result ≡ (if is_last branch r then r.asker else None) }
{
    match rows.get(&place) {
        Some(row) => final_of(row, branch),
        None => None,
    }
}

// Who gets a final when a branch of a row ends.
fn final_of(row: &Row, branch: Branch) -> Option<Asker>
    ensures { result ≡ (if is_last branch row.now then row.now.asker else None) }
{
    if row.is_last(branch) {
        row.asker()
    } else {
        None
    }
}

// Rows of which no branch is left go.
fn leave(rows: &mut BTreeMap<u64, Row>)
    ensures { values rows.new ≡ left (values rows.old) }
{
    rows.retain(|_, row| !row.is_done());
}

// The place of the row that has a branch: this one, or else where it is found.
fn place_of(rows: &BTreeMap<u64, Row>, place: Option<u64>, branch: Branch) -> Option<u64>
    ensures none { result ≡ None → is_pending branch (values rows.now) ≡ false }
    ensures has { IfSome result (λ place. IsSomeAnd (get nat_cmp rows.now place) (λ r. has branch r ≡ true)) }
{
    match place {
        Some(place) if stands_at(rows, place, branch) => Some(place),
        _ => search(rows, branch),
    }
}

fn stands_at(rows: &BTreeMap<u64, Row>, place: u64, branch: Branch) -> bool
    ensures { IsTrue result → IsSomeAnd (get nat_cmp rows.now place) (λ r. has branch r ≡ true) }
{
    match rows.get(&place) {
        Some(row) => row.has(branch),
        None => false,
    }
}

fn search(rows: &BTreeMap<u64, Row>, branch: Branch) -> Option<u64>
    ensures none { result ≡ None → is_pending branch (values rows.now) ≡ false }
    ensures has { IfSome result (λ place. IsSomeAnd (get nat_cmp rows.now place) (λ r. has branch r ≡ true)) }
{
    for (place, row) in rows {
        if row.has(branch) {
            return Some(*place);
        }
    }
    None
}

// Ends a branch in the row at this place, which has it: who gets the final, where there is one.
fn end_at(rows: &mut BTreeMap<u64, Row>, place: u64, branch: Branch) -> Option<Asker>
    requires sound { IsSound (values rows.old) }
    requires has { IsSomeAnd (get nat_cmp rows.old place) (λ r. has branch r ≡ true) }
    ensures asker { result ≡ final_to (values rows.old) branch }
    ensures rows { values rows.new ≡ finished (values rows.old) branch }
{
    if is_last_at(rows, place, branch) {
        return take_row(rows, place);
    }
    end_in_row(rows, place, branch);
    None
}

// The row at a place goes: who asked it.
fn take_row(rows: &mut BTreeMap<u64, Row>, place: u64) -> Option<Asker>
    ensures asker { result ≡ option_and_then (λ r. r.asker) (get nat_cmp rows.old place) }
    ensures rows { rows.new.entries ≡ remove_entry (is_at (nat_cmp place)) rows.old.entries }
{
    match rows.remove(&place) {
        Some(row) => row.asker(),
        None => None,
    }
}

fn is_last_at(rows: &BTreeMap<u64, Row>, place: u64, branch: Branch) -> bool
    ensures { result ≡ option_map_or (is_last branch) (get nat_cmp rows.now place) false }
{
    match rows.get(&place) {
        Some(row) => row.is_last(branch),
        None => false,
    }
}

// Ends a branch of the row at this place.
fn end_in_row(rows: &mut BTreeMap<u64, Row>, place: u64, branch: Branch)
    ensures { (r : Row) → get nat_cmp rows.old place ≡ Some r → rows.new.entries ≡ set_value (is_at (nat_cmp place)) rows.old.entries (without branch r) }
{
    if let Some(row) = rows.get_mut(&place) {
        row.end(branch);
    }
}

// There is room for one more.
fn tell(askers: &mut Vec<Asker>, asker: Option<Asker>)
    requires { vec_len askers.old + 1 ≤ vec_capacity askers.old }
    ensures items { askers.new.items ≡ askers.old.items ++ option_to_list asker }
    ensures room { vec_len askers.new + vec_capacity askers.old ≤ vec_len askers.old + 1 + vec_capacity askers.new }
{
    if let Some(asker) = asker {
        let _ = askers.push(asker);
    }
}
