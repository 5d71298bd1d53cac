//! `Ids`: which ids of a link are in use.

ghost use Rattle.std.specs.Prelude.{◌≡◌, ◌≤◌, ◌<◌, ◌-◌, ◌^◌, ◌==◌, ◌||◌, ◌&&◌, not, true, ℕ, OnOk, OnErr};
ghost use Rattle.zr_told_spec.specs.Ids.{IsLeast};
ghost use Rattle.zr_told.specs.Ids.{is_given, none_given};

use std::alloc::{AllocError, Global};
use std::collections::BTreeSet;
use std::marker::Model;

/// Which ids are in use: all that were given and not freed. The least one that isn't in use is found without a search.
#[derive(Drop)]
pub struct Ids {
    // the first that was never given, 2^32 where all were
    next: u64,
    freed: BTreeSet<u32>,
}

impl Model for Ids {
    ghost use Rattle.zr_told.specs.Ids.{IdsState, AreIds};

    ghost Value = { IdsState };

    ghost view = { λ s. record { next = s.next; freed = s.freed.keys } };

    ghost invariant = { λ s. AreIds (record { next = s.next; freed = s.freed.keys }) };
}

impl Ids {
    /// No id is in use. Cost: no allocation.
    pub fn new(alloc: Global) -> Ids
        ensures { result ≡ none_given }
    {
        Ids {
            next: 1,
            freed: BTreeSet::new(alloc),
        }
    }

    /// All ids that are in use are below this one, which is at most 2^32.
    pub fn end(&self) -> u64
        ensures within { result ≤ 2 ^ 32 }
        ensures above { (n : ℕ) → is_given self.now n ≡ true → n < result }
    {
        self.next
    }

    /// The least id, from 1, that isn't in use.
    pub fn least(&self) -> u32
        requires { (n : ℕ) → IsLeast (is_given self.now) n → n ≤ 2 ^ 32 - 1 }
        ensures { IsLeast (is_given self.now) result }
    {
        match self.freed.first() {
            Some(id) => *id,
            None => self.next as u32,
        }
    }

    /// The least id that wasn't in use comes into use.
    pub fn give(&mut self)
        requires { (n : ℕ) → IsLeast (is_given self.old) n → n ≤ 2 ^ 32 - 1 }
        ensures { (n : ℕ) → IsLeast (is_given self.old) n → (k : ℕ) → is_given self.new k ≡ (n == k || is_given self.old k) }
    {
        match self.freed.pop_first() {
            Some(_) => (),
            None => self.next += 1,
        }
    }

    /// An id that was in use isn't any more.
    pub fn free(&mut self, id: u32) -> Result<(), AllocError>
        requires { is_given self.old id ≡ true }
        ensures ok { OnOk result ((k : ℕ) → is_given self.new k ≡ (is_given self.old k && not (id == k))) }
        ensures err { OnErr result (self.new ≡ self.old) }
    {
        self.freed.insert(id)?;
        Ok(())
    }
}
