//! What each change of an end does to the ends, and to the marks of the ends at which a step is possible.

ghost use Rattle.std.specs.Prelude.{◌≡◌, ◌∷◌, [], ◌*◌, ◌<◌, ◌≤◌, ◌==◌, cond, false, ℕ, List, length, IfOk, OnOk, OnErr};
ghost use Rattle.std.specs.List.{insert};
ghost use Rattle.std.specs.List.Sorted.{IsStrictlySortedBy};
ghost use Rattle.std.specs.Map.{keys_of};
ghost use Rattle.zr_world_spec.specs.World.{end_cmp};
ghost use Rattle.zr_world_ends.specs.Index.{IsIndexed, IsThere, has_mark};
ghost use Rattle.zr_world_ends.specs.Kept.{announced, broken, can_handle, can_take, emptied, lifted, lost, lowered, passed, queued};
ghost use Rattle.zr_world_ends.specs.Named.{change_at, put_at};
ghost use Rattle.zr_world_ends.specs.Steps.{Gives, from_kept};

use crate::end::{Tagged, WorldEnd};
use crate::kind::WireKind;
use crate::marks::{make_room, set};
use crate::places::{NamedEnd, find, place_of};
use std::alloc::{AllocError, Global};
use std::mem;
use zr_id::zid::Zid;
use zr_msg::msg::Msg;
use zr_script_spec::error::ScriptError;

/// A message of this kind comes onto the wire of an end.
pub fn announce(
    ends: &mut [NamedEnd],
    to_handle: &mut [u64],
    at: (Zid, Zid),
    kind: WireKind,
) -> Result<(), AllocError>
    requires ordered { IsStrictlySortedBy end_cmp (keys_of ends.old) }
    requires room { length ends.old ≤ 64 * length to_handle.old }
    ensures announced { OnOk result (ends.new ≡ change_at ends.old at (λ k. announced k kind)) }
    ensures err { OnErr result (ends.new ≡ ends.old) }
    ensures index { (to_take : List ℕ) → IsIndexed ends.old to_handle.old to_take → IsIndexed ends.new to_handle.new to_take }
{
    let Some(place) = find(ends, &at) else {
        return Ok(());
    };
    let end = &mut ends[place].1;
    let done = end.announce(kind);
    set(to_handle, place, end.can_handle());
    done
}

/// The oldest message on the wire of an end, where there is one, has left it.
pub fn pass(ends: &mut [NamedEnd], to_handle: &mut [u64], at: (Zid, Zid))
    requires ordered { IsStrictlySortedBy end_cmp (keys_of ends.old) }
    requires room { length ends.old ≤ 64 * length to_handle.old }
    ensures passed { ends.new ≡ change_at ends.old at passed }
    ensures index { (to_take : List ℕ) → IsIndexed ends.old to_handle.old to_take → IsIndexed ends.new to_handle.new to_take }
{
    let Some(place) = find(ends, &at) else {
        return;
    };
    let end = &mut ends[place].1;
    end.pass();
    set(to_handle, place, end.can_handle());
}

/// What was on the wire of an end is lost.
pub fn lose(ends: &mut [NamedEnd], to_handle: &mut [u64], at: (Zid, Zid))
    requires ordered { IsStrictlySortedBy end_cmp (keys_of ends.old) }
    requires room { length ends.old ≤ 64 * length to_handle.old }
    ensures lost { ends.new ≡ change_at ends.old at lost }
    ensures index { (to_take : List ℕ) → IsIndexed ends.old to_handle.old to_take → IsIndexed ends.new to_handle.new to_take }
{
    let Some(place) = find(ends, &at) else {
        return;
    };
    let end = &mut ends[place].1;
    end.lose();
    set(to_handle, place, end.can_handle());
}

/// A message comes into the queue of an end.
pub fn enqueue(
    ends: &mut [NamedEnd],
    to_take: &mut [u64],
    at: (Zid, Zid),
    msg: Msg,
    tag: u64,
) -> Result<(), AllocError>
    requires ordered { IsStrictlySortedBy end_cmp (keys_of ends.old) }
    requires room { length ends.old ≤ 64 * length to_take.old }
    ensures queued { OnOk result (ends.new ≡ change_at ends.old at (λ k. queued k msg tag)) }
    ensures err { OnErr result (ends.new ≡ ends.old) }
    ensures index { (to_handle : List ℕ) → IsIndexed ends.old to_handle to_take.old → IsIndexed ends.new to_handle to_take.new }
{
    let Some(place) = find(ends, &at) else {
        return Ok(());
    };
    let end = &mut ends[place].1;
    let done = end.enqueue(msg, tag);
    set(to_take, place, end.can_take());
    done
}

/// The oldest message in the queue of an end that is up, where the link is unbroken. It leaves the queue.
#[tactic(auto, unfolding(crate::specs::Steps::from_kept))]
pub fn next_queued(
    ends: &mut [NamedEnd],
    to_take: &mut [u64],
    at: (Zid, Zid),
) -> Result<Tagged, ScriptError>
    requires ordered { IsStrictlySortedBy end_cmp (keys_of ends.old) }
    requires room { length ends.old ≤ 64 * length to_take.old }
    ensures steps { Gives result (from_kept ends.old at) ends.old ends.new }
    ensures index { (to_handle : List ℕ) → IsIndexed ends.old to_handle to_take.old → IsIndexed ends.new to_handle to_take.new }
{
    let Some(place) = find(ends, &at) else {
        return Err(ScriptError::NotLinked);
    };
    let end = &mut ends[place].1;
    if !end.is_up() {
        return Err(ScriptError::NotLinked);
    }
    if !end.is_unbroken() {
        return Err(ScriptError::NotLinked);
    }
    let Some(x) = end.next_queued() else {
        return Err(ScriptError::NothingThere);
    };
    set(to_take, place, end.can_take());
    Ok(x)
}

/// An end comes up.
pub fn lift(ends: &mut [NamedEnd], to_handle: &mut [u64], to_take: &mut [u64], at: (Zid, Zid))
    requires ordered { IsStrictlySortedBy end_cmp (keys_of ends.old) }
    requires handle_room { length ends.old ≤ 64 * length to_handle.old }
    requires take_room { length ends.old ≤ 64 * length to_take.old }
    ensures lifted { ends.new ≡ change_at ends.old at lifted }
    ensures index { IsIndexed ends.old to_handle.old to_take.old → IsIndexed ends.new to_handle.new to_take.new }
{
    let Some(place) = find(ends, &at) else {
        return;
    };
    let end = &mut ends[place].1;
    end.lift();
    mark(end, to_handle, to_take, place);
}

/// An end goes down, and what was queued there is lost.
pub fn lower(ends: &mut [NamedEnd], to_handle: &mut [u64], to_take: &mut [u64], at: (Zid, Zid))
    requires ordered { IsStrictlySortedBy end_cmp (keys_of ends.old) }
    requires handle_room { length ends.old ≤ 64 * length to_handle.old }
    requires take_room { length ends.old ≤ 64 * length to_take.old }
    ensures lowered { ends.new ≡ change_at ends.old at lowered }
    ensures index { IsIndexed ends.old to_handle.old to_take.old → IsIndexed ends.new to_handle.new to_take.new }
{
    let Some(place) = find(ends, &at) else {
        return;
    };
    let end = &mut ends[place].1;
    end.lower();
    mark(end, to_handle, to_take, place);
}

/// The link of an end breaks, and what was on the wire is lost.
pub fn break_off(ends: &mut [NamedEnd], to_handle: &mut [u64], to_take: &mut [u64], at: (Zid, Zid))
    requires ordered { IsStrictlySortedBy end_cmp (keys_of ends.old) }
    requires handle_room { length ends.old ≤ 64 * length to_handle.old }
    requires take_room { length ends.old ≤ 64 * length to_take.old }
    ensures broken { ends.new ≡ change_at ends.old at broken }
    ensures index { IsIndexed ends.old to_handle.old to_take.old → IsIndexed ends.new to_handle.new to_take.new }
{
    let Some(place) = find(ends, &at) else {
        return;
    };
    let end = &mut ends[place].1;
    end.break_off();
    mark(end, to_handle, to_take, place);
}

/// An end comes, or another one takes its place. Nothing waits there.
pub fn put(
    ends: &mut Vec<NamedEnd>,
    to_handle: &mut Vec<u64>,
    to_take: &mut Vec<u64>,
    at: (Zid, Zid),
    new: WorldEnd,
) -> Result<(), AllocError>
    requires index { IsIndexed ends.old.items to_handle.old.items to_take.old.items }
    ensures put { OnOk result (ends.new.items ≡ put_at ends.old.items at new) }
    ensures err { OnErr result (ends.new.items ≡ ends.old.items) }
    ensures index { IsIndexed ends.new.items to_handle.new.items to_take.new.items }
{
    match place_of(ends, &at) {
        Ok(place) => {
            replace(ends, to_handle, to_take, place, &at, new);
            Ok(())
        }
        Err(place) => insert(ends, to_handle, to_take, place, (at, new)),
    }
}

/// All ends as they are; behind this nothing waits at any.
pub fn take_all(
    alloc: Global,
    ends: &mut Vec<NamedEnd>,
    to_handle: &mut [u64],
    to_take: &mut [u64],
) -> Result<Vec<NamedEnd>, AllocError>
    requires index { IsIndexed ends.old.items to_handle.old to_take.old }
    ensures taken { IfOk result (λ v. v.items ≡ ends.old.items) }
    ensures idle { IfOk result (λ v. ends.new.items ≡ emptied ends.old.items) }
    ensures index { IsIndexed ends.new.items to_handle.new to_take.new }
{
    let idle = idle_ends(alloc, ends)?;
    mark_all(&idle, to_handle, to_take);
    Ok(mem::replace(ends, idle))
}

// The same ends, at which nothing waits.
fn idle_ends(alloc: Global, ends: &[NamedEnd]) -> Result<Vec<NamedEnd>, AllocError>
    ensures { IfOk result (λ v. v.items ≡ emptied ends.now) }
{
    let mut idle = Vec::new(alloc);
    for named in ends {
        idle.push((named.0, named.1.idle(alloc)))?;
    }
    Ok(idle)
}

// Another end takes the place of one.
fn replace(
    ends: &mut [NamedEnd],
    to_handle: &mut [u64],
    to_take: &mut [u64],
    place: usize,
    at: &(Zid, Zid),
    new: WorldEnd,
)
    requires place { IsThere ends.old at.now place }
    requires index { IsIndexed ends.old to_handle.old to_take.old }
    ensures put { ends.new ≡ put_at ends.old at.now new }
    ensures index { IsIndexed ends.new to_handle.new to_take.new }
{
    let end = &mut ends[place].1;
    *end = new;
    mark(end, to_handle, to_take, place);
}

// A new end comes to a place, and the ends are marked anew.
fn insert(
    ends: &mut Vec<NamedEnd>,
    to_handle: &mut Vec<u64>,
    to_take: &mut Vec<u64>,
    place: usize,
    new: NamedEnd,
) -> Result<(), AllocError>
    requires place { place ≤ length ends.old.items }
    requires ordered { IsStrictlySortedBy end_cmp (keys_of (insert ends.old.items place new)) }
    requires index { IsIndexed ends.old.items to_handle.old.items to_take.old.items }
    ensures put { OnOk result (ends.new.items ≡ insert ends.old.items place new) }
    ensures err { OnErr result (ends.new.items ≡ ends.old.items) }
    ensures index { IsIndexed ends.new.items to_handle.new.items to_take.new.items }
{
    make_room(to_handle, ends.len())?;
    make_room(to_take, ends.len())?;
    ends.insert(place, new)?;
    mark_all(ends, to_handle, to_take);
    Ok(())
}

// The marks at a place say what is possible at this end.
fn mark(end: &WorldEnd, to_handle: &mut [u64], to_take: &mut [u64], place: usize)
    requires handle_room { place < 64 * length to_handle.old }
    requires take_room { place < 64 * length to_take.old }
    ensures handles { (q : ℕ) → has_mark to_handle.new q ≡ cond (q == place) (can_handle end.now) (has_mark to_handle.old q) }
    ensures handle_room { length to_handle.new ≡ length to_handle.old }
    ensures takes { (q : ℕ) → has_mark to_take.new q ≡ cond (q == place) (can_take end.now) (has_mark to_take.old q) }
    ensures take_room { length to_take.new ≡ length to_take.old }
{
    set(to_handle, place, end.can_handle());
    set(to_take, place, end.can_take());
}

fn mark_all(ends: &[NamedEnd], to_handle: &mut [u64], to_take: &mut [u64])
    requires ordered { IsStrictlySortedBy end_cmp (keys_of ends.now) }
    requires handle_room { length ends.now ≤ 64 * length to_handle.old }
    requires take_room { length ends.now ≤ 64 * length to_take.old }
    requires no_handle { (q : ℕ) → length ends.now ≤ q → has_mark to_handle.old q ≡ false }
    requires no_take { (q : ℕ) → length ends.now ≤ q → has_mark to_take.old q ≡ false }
    ensures { IsIndexed ends.now to_handle.new to_take.new }
{
    for (place, end) in ends.iter().enumerate() {
        mark(&end.1, to_handle, to_take, place);
    }
}
