//! `Table`: the pending requests of one router, in the order in which they began.

ghost use Rattle.std.specs.Prelude.{◌≡◌, ◌≤◌, ◌<◌, ◌+◌, ◌++◌, [], true, false, map, length, IfOk, OnOk, OnErr};
ghost use Rattle.std.specs.List.{list_any};
ghost use Rattle.std.specs.Vec.{vec_len, vec_capacity};
ghost use Rattle.zr_pend_spec.specs.Pending.{IsSound, ascending, asked, asker_of, begun, count, differ, dropped, final_to, finals_of_drop, finished, free_number, is_full, is_pending, numbers_on, opened};

use crate::askers::{as_branch, askers_in, enter, take_asker, take_askers, withdraw};
use crate::places::Places;
use crate::row::{Row, copies_of};
use crate::rows::{asker_of, drop_link, finish, numbers_in, numbers_of};
use std::alloc::{AllocError, Global};
use std::collections::BTreeMap;
use std::marker::Model;
use zr_id::link::LinkNo;
use zr_pend_numbers::numbers::Numbers;
use zr_pend_spec::branch::{Asker, Branch};
use zr_places::{next_place, put_last};

/// The pending requests of one router, in the order in which they began. Beside the rows it has which numbers are pending on each link, under
/// which numbers each link has asked, and where the row of each branch stands.
#[derive(Drop)]
pub struct Table {
    alloc: Global,
    rows: BTreeMap<u64, Row>,
    pending: Numbers,
    asked: Numbers,
    places: Places,
}

impl Model for Table {
    ghost use Rattle.std.specs.Prelude.{List};
    ghost use Rattle.std.specs.BTreeMap.{values};
    ghost use Rattle.zr_pend_spec.specs.Pending.{IsSound};
    ghost use Rattle.zr_pend_spec.specs.Row.{RowState};
    ghost use Rattle.zr_pend_rows.specs.Tied.{AreAsked, ArePending};

    ghost Value = { List RowState };

    ghost view = { λ t. values t.rows };

    ghost invariant = { λ t. IsSound (values t.rows) × ArePending t.pending (values t.rows) × AreAsked t.asked (values t.rows) };
}

impl Table {
    /// No request is pending. It takes no memory.
    pub fn new(alloc: Global) -> Table
        ensures { result ≡ [] }
    {
        Table {
            alloc,
            rows: BTreeMap::new(alloc),
            pending: Numbers::new(alloc),
            asked: Numbers::new(alloc),
            places: Places::new(alloc),
        }
    }

    /// The same rows once more.
    pub fn copy(&self, alloc: Global) -> Result<Table, AllocError>
        ensures { IfOk result (λ t. t ≡ self.now) }
    {
        let rows = copies_of(alloc, &self.rows)?;
        let places = Places::of(alloc, &rows)?;
        Ok(Table {
            alloc,
            rows,
            pending: numbers_in(alloc, &self.rows)?,
            asked: askers_in(alloc, &self.rows)?,
            places,
        })
    }

    /// Where its memory is from.
    pub fn allocator(&self) -> Global {
        self.alloc
    }

    /// Whether a row has this asker.
    pub fn asked(&self, from: Asker) -> bool
        ensures { result ≡ asked from self.now }
    {
        self.asked.has(as_branch(from))
    }

    /// How many rows a link has asked.
    pub fn count(&self, link: LinkNo) -> u64
        ensures { result ≡ count link self.now }
    {
        self.asked.count(link)
    }

    /// Who asked the row of a branch, where it is pending and its asker's link is up.
    #[tactic(auto, using(crate::proofs::Ending::none_asked))]
    pub fn asker_of(&self, branch: Branch) -> Option<Asker>
        ensures { result ≡ asker_of branch self.now }
    {
        if !self.has(branch) {
            return None;
        }
        asker_of(&self.rows, &self.places, branch)
    }

    /// Whether one of these links has every number pending.
    pub fn any_full(&self, to: &[LinkNo]) -> bool
        ensures { result ≡ list_any (λ l. is_full l self.now) to.now }
    {
        to.iter().any(|l| self.is_full(*l))
    }

    /// The numbers that are pending on a link, in ascending order.
    pub fn numbers_on(&self, link: LinkNo) -> Result<Vec<u32>, AllocError>
        ensures { IfOk result (λ ns. ns.items ≡ ascending (numbers_on link self.now)) }
    {
        self.pending.all_on(self.alloc, link)
    }

    /// A request goes to links of which none has every number pending: the number that it has on each, in their order.
    pub fn begin(&mut self, asker: Asker, to: &[LinkNo]) -> Result<Vec<u32>, AllocError>
        requires some { 0 < length to.now }
        requires differ { differ to.now ≡ true }
        requires fresh { asked asker self.old ≡ false }
        requires room { list_any (λ l. is_full l self.old) to.now ≡ false }
        ensures numbers { IfOk result (λ ns. ns.items ≡ map (λ b. b.number) (opened self.old to.now)) }
        ensures rows { OnOk result (self.new ≡ begun self.old asker to.now) }
        ensures unchanged { OnErr result (self.new ≡ self.old) }
    {
        let alloc = self.alloc;
        let branches = self.open(alloc, to)?;
        let numbers = numbers_of(alloc, branches.as_slice())?;
        let place = next_place(&self.rows)?;
        self.places.put(place, branches.as_slice())?;
        enter(
            &mut self.pending,
            &mut self.asked,
            alloc,
            asker,
            branches.as_slice(),
        )?;
        match put_last(&mut self.rows, place, Row::new(asker, branches)) {
            Ok(()) => Ok(numbers),
            Err(row) => {
                withdraw(&mut self.pending, &mut self.asked, asker, row.branches());
                Err(AllocError)
            }
        }
    }

    /// Ends a branch: who gets the final, where there is one.
    #[tactic(auto, using(zr_pend_spec::proofs::OneEnd::none_ends, zr_pend_spec::proofs::OneEnd::none_final))]
    pub fn finish(&mut self, branch: Branch) -> Option<Asker>
        ensures asker { result ≡ final_to self.old branch }
        ensures rows { self.new ≡ finished self.old branch }
    {
        if !self.has(branch) {
            return None;
        }
        self.pending.take(branch);
        let asker = finish(&mut self.rows, &mut self.places, branch);
        take_asker(&mut self.asked, asker);
        asker
    }

    /// A link went down: its branches, which have these numbers, end in that order, and what it asked has no asker any more. Those who get a final
    /// are put behind the askers.
    pub fn drop_link(&mut self, link: LinkNo, numbers: &[u32], askers: &mut Vec<Asker>)
        requires numbers { numbers.now ≡ ascending (numbers_on link self.old) }
        requires room { vec_len askers.old + length numbers.now ≤ vec_capacity askers.old }
        ensures rows { self.new ≡ dropped link self.old }
        ensures askers { askers.new.items ≡ askers.old.items ++ finals_of_drop link self.old }
    {
        let before = askers.len();
        drop_link(&mut self.rows, &mut self.places, link, numbers, askers);
        self.pending.forget(link);
        self.asked.forget(link);
        take_askers(&mut self.asked, &askers.as_slice()[before..]);
    }

    // Whether a branch is pending.
    fn has(&self, branch: Branch) -> bool
        ensures { result ≡ is_pending branch self.now }
    {
        self.pending.has(branch)
    }

    // The branches of a request that goes to these links.
    fn open(&self, alloc: Global, to: &[LinkNo]) -> Result<Vec<Branch>, AllocError>
        requires { list_any (λ l. is_full l self.now) to.now ≡ false }
        ensures { IfOk result (λ bs. bs.items ≡ opened self.now to.now) }
    {
        let mut branches = Vec::with_capacity(alloc, to.len())?;
        for link in to {
            let number = self.free_number(*link);
            branches.push(Branch {
                link: *link,
                number,
            })?;
        }
        Ok(branches)
    }

    // The least number that is free on a link.
    fn free_number(&self, link: LinkNo) -> u32
        requires { is_full link self.now ≡ false }
        ensures { result ≡ free_number link self.now }
    {
        self.pending.least_free(link) as u32
    }

    // Whether every number is pending on a link.
    fn is_full(&self, link: LinkNo) -> bool
        ensures { result ≡ is_full link self.now }
    {
        self.pending.count(link) >= u32::MAX as u64
    }
}
