use crate::failing::{Failing, rows};
use crate::networks::counts;
use crate::routers::{Case, goes};
use crate::serving;
use crate::talking::{Talk, across, at_once, usual};
use std::alloc::{AllocError, Global};
use std::sync::Wait;
use std::test::Fail;
use std::thread::Threads;

// The number of the first row by which a link ends otherwise; that of all where there is none.
fn first_wrong<R: Threads + Wait + Copy + Send + Sync + Drop + 'static>(
    rt: R,
    alloc: Global,
    rows: &'static [Failing],
) -> Result<usize, AllocError> {
    for i in 0..rows.len() {
        if !goes(rt, alloc, Case::Failing(&rows[i]))? {
            return Ok(i);
        }
    }
    Ok(rows.len())
}

#[test]
fn what_fails_outside_ends_as_the_table_says(rt: HostRuntime) -> Result<(), Fail> {
    let rows = rows();
    let wrong = first_wrong(rt, rt.alloc(), rows)?;
    assert!(rt; wrong == rows.len(), "row {wrong} of links");
    let served = serving::rows();
    let wrong = serving::first_wrong(rt, rt.alloc(), served)?;
    assert!(rt; wrong == served.len(), "row {wrong} of serving");
    assert!(rt; fails_in_turn(rt, rt.alloc())?);
    Ok(())
}

/// How many reads the script of three routers takes: its 228 bytes in pieces of 16, and its end.
const READS: u64 = 16;

// Whether each read and each write of the script of three routers fails it in turn.
fn fails_in_turn<R: Threads + Sync + Drop>(rt: R, alloc: Global) -> Result<bool, AllocError> {
    match counts(&rt, alloc)? {
        Some((reads, writes)) => Ok(reads == READS && writes > 0),
        None => Ok(false),
    }
}

fn goes_so<R: Threads + Wait + Copy + Send + Sync + Drop + 'static>(
    rt: R,
    alloc: Global,
    talk: &'static Talk,
) -> Result<bool, AllocError> {
    goes(rt, alloc, Case::Talk(talk))
}

#[test]
fn two_clients_of_a_router_talk_at_once(rt: HostRuntime) -> Result<(), Fail> {
    assert!(rt; goes_so(rt, rt.alloc(), usual())?);
    assert!(rt; goes_so(rt, rt.alloc(), at_once())?);
    Ok(())
}

fn goes_across<R: Threads + Wait + Copy + Send + Sync + Drop + 'static>(
    rt: R,
    alloc: Global,
    talk: &'static Talk,
) -> Result<bool, AllocError> {
    goes(rt, alloc, Case::Across(talk))
}

#[test]
fn clients_of_two_linked_routers_hear_each_other(rt: HostRuntime) -> Result<(), Fail> {
    assert!(rt; goes_across(rt, rt.alloc(), across())?);
    Ok(())
}
