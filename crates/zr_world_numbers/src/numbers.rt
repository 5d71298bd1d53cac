//! `ClientNumbers`: numbers in the order in which they came.

ghost use Rattle.std.specs.Prelude.{◌≡◌, ◌==◌, ◌++◌, ◌∷◌, ℕ, List, [], None, Some, IsTrue, not, filter, length, if◌then◌else◌, IfSome, OnOk, OnErr};
ghost use Rattle.std.specs.List.{list_any};
ghost use Rattle.std.specs.BTreeMap.{get, values};
ghost use Rattle.std.specs.Ordering.{nat_cmp};
ghost use Rattle.zr_world_numbers.specs.Index.{how_often, times_in};

use std::alloc::{AllocError, Global};
use std::collections::BTreeMap;
use std::marker::Model;
use zr_places::push;

/// ClientNumbers in the order in which they came.
///
/// To look for one, to add one, and to take one away that stands once takes time by the logarithm of how many there are.
#[derive(Debug, Drop)]
pub struct ClientNumbers {
    // the numbers by their places in the order in which they came
    items: BTreeMap<u64, u32>,
    index: BTreeMap<u32, Entry>,
}

// How often a number stands there, and the place of the last that came. The place is looked up and then looked at, so no clause speaks of it.
#[derive(Debug, Clone, Copy, Drop)]
struct Entry {
    times: usize,
    place: u64,
}

impl Model for ClientNumbers {
    ghost use Rattle.std.specs.Prelude.{ℕ, List};
    ghost use Rattle.std.specs.BTreeMap.{values};
    ghost use Rattle.zr_world_numbers.specs.Index.{IsIndex};

    ghost Value = { List ℕ };

    ghost view = { λ n. values n.items };

    ghost invariant = { λ n. IsIndex n.index.entries (values n.items) };
}

impl ClientNumbers {
    /// No number. It takes no memory.
    pub fn new(alloc: Global) -> ClientNumbers
        ensures { result ≡ [] }
    {
        ClientNumbers {
            items: BTreeMap::new(alloc),
            index: BTreeMap::new(alloc),
        }
    }

    /// How many there are.
    pub fn len(&self) -> usize
        ensures { result ≡ length self.now }
    {
        self.items.len()
    }

    /// Whether a number is among them.
    pub fn has(&self, number: u32) -> bool
        ensures { result ≡ list_any (λ n. n == number) self.now }
    {
        times_in(&self.index, number) > 0
    }

    /// A number comes.
    pub fn push(&mut self, number: u32) -> Result<(), AllocError>
        ensures { OnOk result (self.new ≡ self.old ++ number ∷ []) }
    {
        let place = push(&mut self.items, number)?;
        let times = times_in(&self.index, number) + 1;
        match enter(&mut self.index, number, Entry { times, place }) {
            Ok(()) => Ok(()),
            Err(_) => {
                take_last(&mut self.items);
                Err(AllocError)
            }
        }
    }

    /// A number goes, as often as it stands there.
    pub fn take(&mut self, number: u32)
        ensures { self.new ≡ filter (λ n. not (n == number)) self.old }
    {
        match leave(&mut self.index, number) {
            Some(entry) => take_from(&mut self.items, number, entry),
            None => {}
        }
    }
}

// How often the index says that a number stands there.
fn times_in(index: &BTreeMap<u32, Entry>, number: u32) -> usize
    ensures { result ≡ times_in index.now.entries number }
{
    match index.get(&number) {
        Some(entry) => entry.times,
        None => 0,
    }
}

// The number that came last goes.
fn take_last(items: &mut BTreeMap<u64, u32>)
    ensures { (ns : List ℕ) (n : ℕ) → values items.old ≡ ns ++ n ∷ [] → values items.new ≡ ns }
{
    items.pop_last();
}

// A number has this entry.
fn enter(index: &mut BTreeMap<u32, Entry>, number: u32, entry: Entry) -> Result<(), AllocError>
    ensures ok { OnOk result ((k : ℕ) → times_in index.new.entries k ≡ (if number == k then entry.times else times_in index.old.entries k)) }
    ensures err { OnErr result (index.new.entries ≡ index.old.entries) }
{
    index.insert(number, entry)?;
    Ok(())
}

// A number has no entry: the one that it had.
fn leave(index: &mut BTreeMap<u32, Entry>, number: u32) -> Option<Entry>
    ensures entry { IfSome result (λ e. e.times ≡ times_in index.old.entries number) }
    ensures none { result ≡ None → times_in index.old.entries number ≡ 0 }
    ensures unchanged { result ≡ None → index.new.entries ≡ index.old.entries }
    ensures others { (k : ℕ) → times_in index.new.entries k ≡ (if number == k then 0 else times_in index.old.entries k) }
{
    index.remove(&number)
}

// A number goes that stands there as often as its entry says.
fn take_from(items: &mut BTreeMap<u64, u32>, number: u32, entry: Entry)
    requires { entry.times ≡ how_often number (values items.old) }
    ensures { values items.new ≡ filter (λ n. not (n == number)) (values items.old) }
{
    if entry.times == 1 && stands_at(items, entry.place, number) {
        items.remove(&entry.place);
    } else {
        sweep(items, number);
    }
}

fn stands_at(items: &BTreeMap<u64, u32>, place: u64, number: u32) -> bool
    ensures { IsTrue result → get nat_cmp items.now place ≡ Some number }
{
    match items.get(&place) {
        Some(there) => *there == number,
        None => false,
    }
}

fn sweep(items: &mut BTreeMap<u64, u32>, number: u32)
    ensures { values items.new ≡ filter (λ n. not (n == number)) (values items.old) }
{
    items.retain(|_, there| *there != number);
}
