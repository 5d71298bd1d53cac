//! `Numbers`: the numbers that are in use on each link.

ghost use Rattle.std.specs.Prelude.{◌≡◌, ◌==◌, ◌≤◌, ◌<◌, ◌-◌, ◌^◌, ◌&&◌, ◌||◌, ℕ, [], true, false, not, length, if◌then◌else◌, IfOk, OnOk, OnErr};
ghost use Rattle.std.specs.List.{list_all, list_any};
ghost use Rattle.zr_pend_numbers.specs.Numbers.{is_in, is_used, rises, used_on};
ghost use Rattle.zr_pend_spec.specs.Row.{is_branch};

use crate::used::Used;
use std::alloc::{AllocError, Global};
use std::collections::BTreeMap;
use std::marker::Model;
use zr_id::link::LinkNo;
use zr_pend_spec::branch::Branch;

/// The numbers that are in use on each link. To find one, the least free one or how many they are takes time by the logarithm of how many
/// there are.
#[derive(Drop)]
pub struct Numbers {
    links: BTreeMap<u32, Used>,
}

impl Model for Numbers {
    ghost use Rattle.zr_pend_numbers.specs.Numbers.{Uses};

    ghost Value = { Uses };

    ghost view = { λ n. n.links.entries };
}

impl Numbers {
    /// No number is in use. It takes no memory.
    pub fn new(alloc: Global) -> Numbers
        ensures { result ≡ [] }
    {
        Numbers {
            links: BTreeMap::new(alloc),
        }
    }

    /// Whether the number of a branch is in use on its link.
    pub fn has(&self, branch: Branch) -> bool
        ensures { result ≡ is_used self.now branch }
    {
        match self.links.get(&branch.link.0) {
            Some(used) => used.has(branch.number),
            None => false,
        }
    }

    /// How many numbers are in use on a link.
    pub fn count(&self, link: LinkNo) -> u64
        ensures count { result ≡ length (used_on self.now link.0) }
        ensures up { rises 0 (used_on self.now link.0) ≡ true }
    {
        match self.links.get(&link.0) {
            Some(used) => used.count(),
            None => 0,
        }
    }

    /// The least number, from 1, that isn't in use on a link.
    pub fn least_free(&self, link: LinkNo) -> u64
        ensures positive { 1 ≤ result }
        ensures free { is_in result (used_on self.now link.0) ≡ false }
        ensures least { (k : ℕ) → 1 ≤ k → k < result → is_in k (used_on self.now link.0) ≡ true }
    {
        match self.links.get(&link.0) {
            Some(used) => used.least_free(),
            None => 1,
        }
    }

    /// The numbers that are in use on a link, in ascending order.
    pub fn all_on(&self, alloc: Global, link: LinkNo) -> Result<Vec<u32>, AllocError>
        ensures items { IfOk result (λ ns. ns.items ≡ used_on self.now link.0) }
        ensures up { rises 0 (used_on self.now link.0) ≡ true }
    {
        match self.links.get(&link.0) {
            Some(used) => used.to_vec(alloc),
            None => Ok(Vec::new(alloc)),
        }
    }

    /// The numbers of these branches, which aren't in use, are in use on their links. Where memory runs out none of them is.
    pub fn put_all(&mut self, alloc: Global, branches: &[Branch]) -> Result<(), AllocError>
        requires { list_all (λ b. not (is_used self.old b)) branches.now ≡ true }
        ensures ok { OnOk result ((c : Branch) → is_used self.new c ≡ (list_any (λ b. is_branch c b) branches.now || is_used self.old c)) }
        ensures err { OnErr result ((c : Branch) → is_used self.new c ≡ is_used self.old c) }
    {
        let done = self.put_each(alloc, branches);
        if done.is_err() {
            self.take_all(branches);
        }
        done
    }

    /// The numbers of these branches are in use on their links. Where memory runs out some of them are.
    pub fn put_each(&mut self, alloc: Global, branches: &[Branch]) -> Result<(), AllocError>
        ensures ok { OnOk result ((c : Branch) → is_used self.new c ≡ (list_any (λ b. is_branch c b) branches.now || is_used self.old c)) }
        ensures others { (c : Branch) → list_any (λ b. is_branch c b) branches.now ≡ false → is_used self.new c ≡ is_used self.old c }
    {
        for branch in branches {
            self.put(alloc, *branch)?;
        }
        Ok(())
    }

    /// The numbers of these branches are in use no more.
    pub fn take_all(&mut self, branches: &[Branch])
        ensures { (c : Branch) → is_used self.new c ≡ (not (list_any (λ b. is_branch c b) branches.now) && is_used self.old c) }
    {
        for branch in branches {
            self.take(*branch);
        }
    }

    /// The number of a branch is in use on its link.
    pub fn put(&mut self, alloc: Global, branch: Branch) -> Result<(), AllocError>
        ensures ok { OnOk result ((c : Branch) → is_used self.new c ≡ (is_branch c branch || is_used self.old c)) }
        ensures err { OnErr result (self.new ≡ self.old) }
    {
        if let Some(used) = self.links.get_mut(&branch.link.0) {
            return used.put(branch.number);
        }
        let mut used = Used::new(alloc);
        used.put(branch.number)?;
        add(&mut self.links, branch.link, used)
    }

    /// The number of a branch is in use no more.
    pub fn take(&mut self, branch: Branch)
        ensures { (c : Branch) → is_used self.new c ≡ (not (is_branch c branch) && is_used self.old c) }
    {
        if let Some(used) = self.links.get_mut(&branch.link.0) {
            used.take(branch.number);
            return;
        }
    }

    /// None is in use on a link any more.
    pub fn forget(&mut self, link: LinkNo)
        ensures { (c : Branch) → is_used self.new c ≡ (not (c.link.0 == link.0) && is_used self.old c) }
    {
        self.links.remove(&link.0);
    }
}

// These numbers are in use on a link.
fn add(links: &mut BTreeMap<u32, Used>, link: LinkNo, used: Used) -> Result<(), AllocError>
    ensures ok { OnOk result ((k : ℕ) → used_on links.new.entries k ≡ (if link.0 == k then used else used_on links.old.entries k)) }
    ensures err { OnErr result (links.new.entries ≡ links.old.entries) }
{
    links.insert(link.0, used)?;
    Ok(())
}
