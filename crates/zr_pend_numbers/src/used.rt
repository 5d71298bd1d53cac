//! `Used`: the numbers that are in use on one link.

ghost use Rattle.std.specs.Prelude.{◌≡◌, ◌==◌, ◌≤◌, ◌<◌, ◌-◌, ◌^◌, ◌&&◌, ◌||◌, ℕ, [], true, false, not, length, slice_index_or, IfOk, IfErr, OnOk, OnErr};
ghost use Rattle.zr_pend_numbers.specs.Numbers.{is_in, rises};

use std::alloc::{AllocError, Global};
use std::collections::VecDeque;
use std::marker::Model;

/// Numbers in ascending order, each once. They stand in a ring: where the least goes, none moves, and elsewhere the fewer on one side do.
#[derive(Drop)]
pub struct Used {
    items: VecDeque<u32>,
}

impl Model for Used {
    ghost use Rattle.std.specs.Prelude.{◌≡◌, ℕ, List, true};
    ghost use Rattle.zr_pend_numbers.specs.Numbers.{rises};

    ghost Value = { List ℕ };

    ghost view = { λ u. u.items.items };

    ghost invariant = { λ u. rises 0 u.items.items ≡ true };
}

impl Used {
    /// None is in use. It takes no memory.
    pub fn new(alloc: Global) -> Used
        ensures { result ≡ [] }
    {
        Used {
            items: VecDeque::new(alloc),
        }
    }

    /// Whether a number is in use.
    pub fn has(&self, number: u32) -> bool
        ensures { result ≡ is_in number self.now }
    {
        has(&self.items, number)
    }

    /// How many are in use.
    pub fn count(&self) -> u64
        ensures count { result ≡ length self.now }
        ensures up { rises 0 self.now ≡ true }
    {
        self.items.len() as u64
    }

    /// The least number, from 1, that isn't in use.
    pub fn least_free(&self) -> u64
        ensures positive { 1 ≤ result }
        ensures free { is_in result self.now ≡ false }
        ensures least { (k : ℕ) → 1 ≤ k → k < result → is_in k self.now ≡ true }
    {
        first_gap(&self.items)
    }

    /// The numbers, in ascending order.
    pub fn to_vec(&self, alloc: Global) -> Result<Vec<u32>, AllocError>
        ensures items { IfOk result (λ ns. ns.items ≡ self.now) }
        ensures up { rises 0 self.now ≡ true }
    {
        self.items.iter().copied().collect(alloc)
    }

    /// A number is in use.
    pub fn put(&mut self, number: u32) -> Result<(), AllocError>
        ensures ok { OnOk result ((m : ℕ) → is_in m self.new ≡ (number == m || is_in m self.old)) }
        ensures err { OnErr result (self.new ≡ self.old) }
    {
        put(&mut self.items, number)
    }

    /// A number is in use no more.
    pub fn take(&mut self, number: u32)
        ensures { (m : ℕ) → is_in m self.new ≡ (not (number == m) && is_in m self.old) }
    {
        take(&mut self.items, number);
    }
}

#[tactic(auto, using(crate::proofs::Rising::in_here, crate::proofs::Rising::gap_free))]
fn has(numbers: &VecDeque<u32>, number: u32) -> bool
    requires { rises 0 numbers.now.items ≡ true }
    ensures { result ≡ is_in number numbers.now.items }
{
    match find(numbers, number) {
        Ok(_) => true,
        Err(_) => false,
    }
}

#[tactic(auto, using(crate::proofs::Rising::in_here, crate::proofs::Rising::put_again, crate::proofs::Rising::put_in, crate::proofs::Rising::put_rises))]
fn put(numbers: &mut VecDeque<u32>, number: u32) -> Result<(), AllocError>
    requires up { rises 0 numbers.old.items ≡ true }
    ensures up { rises 0 numbers.new.items ≡ true }
    ensures ok { OnOk result ((m : ℕ) → is_in m numbers.new.items ≡ (number == m || is_in m numbers.old.items)) }
    ensures err { OnErr result (numbers.new.items ≡ numbers.old.items) }
{
    match find(numbers, number) {
        Ok(_) => Ok(()),
        Err(at) => Ok(numbers.insert(at, number)?),
    }
}

#[tactic(auto, using(crate::proofs::Rising::gap_free, crate::proofs::Rising::take_in, crate::proofs::Rising::take_none, crate::proofs::Rising::take_rises))]
fn take(numbers: &mut VecDeque<u32>, number: u32)
    requires { rises 0 numbers.old.items ≡ true }
    ensures up { rises 0 numbers.new.items ≡ true }
    ensures others { (m : ℕ) → is_in m numbers.new.items ≡ (not (number == m) && is_in m numbers.old.items) }
{
    match find(numbers, number) {
        Ok(at) => {
            numbers.remove(at);
        }
        Err(_) => {}
    }
}

// Where a number stands, or else where it would.
fn find(numbers: &VecDeque<u32>, number: u32) -> Result<usize, usize>
    requires { rises 0 numbers.now.items ≡ true }
    ensures within { IfOk result (λ at. at < length numbers.now.items) }
    ensures here { IfOk result (λ at. slice_index_or numbers.now.items at 0 ≡ number) }
    ensures gap { IfErr result (λ at. at ≤ length numbers.now.items) }
    ensures below { IfErr result (λ at. (i : ℕ) → i < at → slice_index_or numbers.now.items i 0 < number) }
    ensures above { IfErr result (λ at. (i : ℕ) → at ≤ i → i < length numbers.now.items → number < slice_index_or numbers.now.items i 0) }
{
    numbers.binary_search(&number)
}

// The place at which a number stands, or else would.
fn place_of(numbers: &VecDeque<u32>, number: u32) -> usize
    requires { rises 0 numbers.now.items ≡ true }
    ensures within { result ≤ length numbers.now.items }
    ensures below { (i : ℕ) → i < result → slice_index_or numbers.now.items i 0 < number }
    ensures above { (i : ℕ) → result ≤ i → i < length numbers.now.items → number ≤ slice_index_or numbers.now.items i 0 }
{
    match find(numbers, number) {
        Ok(at) => at,
        Err(at) => at,
    }
}

// The least number, from 1, that isn't among these.
fn first_gap(numbers: &VecDeque<u32>) -> u64
    requires up { rises 0 numbers.now.items ≡ true }
    ensures positive { 1 ≤ result }
    ensures free { is_in result numbers.now.items ≡ false }
    ensures least { (k : ℕ) → 1 ≤ k → k < result → is_in k numbers.now.items ≡ true }
{
    gap_from(numbers, place_of(numbers, 1))
}

// The same, where the numbers from 1 on stand from this place on: up to it each stands at its own.
fn gap_from(numbers: &VecDeque<u32>, first: usize) -> u64
    requires up { rises 0 numbers.now.items ≡ true }
    requires within { first ≤ length numbers.now.items }
    requires below { (i : ℕ) → i < first → slice_index_or numbers.now.items i 0 < 1 }
    requires above { (i : ℕ) → first ≤ i → i < length numbers.now.items → 1 ≤ slice_index_or numbers.now.items i 0 }
    ensures positive { 1 ≤ result }
    ensures free { is_in result numbers.now.items ≡ false }
    ensures least { (k : ℕ) → 1 ≤ k → k < result → is_in k numbers.now.items ≡ true }
{
    let (mut from, mut left) = (first, numbers.len() - first);
    'halves: while left > 0 {
        let half = left / 2;
        let middle = from + half;
        if numbers[middle] as usize == middle - first + 1 {
            from = middle + 1;
            left -= half + 1;
        } else {
            left = half;
        }
    }
    (from - first) as u64 + 1
}
