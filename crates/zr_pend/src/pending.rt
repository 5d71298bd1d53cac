//! `Pending`: the requests that a router passed on and that have not ended, and the replies that it holds for them.

ghost use Rattle.std.specs.Prelude.{◌≡◌, ◌↔◌, ◌<◌, [], true, false, map, length, is_some, None, IfOk, OnOk, OnErr};
ghost use Rattle.std.specs.List.{list_any};
ghost use Rattle.std.specs.Option.{option_and_then, option_copied, option_map};
ghost use Rattle.zr_pend_spec.specs.Held.{PendingState, after_final_to, after_reply, begun_if, ending, gatherings_differ, gatherings_left, held_at_branch, held_for, held_of};
ghost use Rattle.zr_pend_spec.specs.Pending.{asked, count, asker_of, is_full, branch, opened, begun, differ, finished, final_to, dropped, finals_of_drop, IsSound};

use crate::gathering::Ended;
use crate::gatherings::Gatherings;
use crate::replies::Held;
use std::alloc::{AllocError, Global};
use std::marker::Model;
use thiserror::Error;
use zr_id::link::LinkNo;
use zr_key::key::KeyExpr;
use zr_pend_rows::table::Table;
use zr_pend_spec::branch::{Asker, Branch};

/// Why a request doesn't begin. The table is then as before.
#[derive(Clone, Copy, Debug, Drop, Error)]
pub enum PendError {
    #[error("this asker has a request of this number pending")]
    Taken,
    #[error("a link has every number pending")]
    Many,
    #[error("out of memory")]
    NoMemory,
}

/// The pending requests of one router, in the order in which they began, and the replies that it holds for those of them that ask for the
/// latest replies alone.
#[derive(Drop)]
pub struct Pending {
    rows: Table,
    gatherings: Gatherings,
}

impl Model for Pending {
    ghost use Rattle.std.specs.Prelude.{◌≡◌, true};
    ghost use Rattle.std.specs.List.{list_all};
    ghost use Rattle.zr_pend_spec.specs.Held.{PendingState};
    ghost use Rattle.zr_pend_spec.specs.Pending.{IsSound, asked};

    ghost Value = { PendingState };

    ghost view = { λ p. record { rows = p.rows; held = p.gatherings } };

    ghost invariant = { λ p. IsSound p.rows × (list_all (λ g. asked g.asker p.rows) p.gatherings ≡ true) };
}

impl Pending {
    /// A table without rows. It takes no memory.
    pub fn new(alloc: Global) -> Pending
        ensures { result ≡ record { rows = []; held = [] } }
    {
        Pending {
            rows: Table::new(alloc),
            gatherings: Gatherings::new(alloc),
        }
    }

    /// A second table with the same rows and replies.
    pub fn copy(&self, alloc: Global) -> Result<Pending, AllocError>
        ensures { IfOk result (λ p. p ≡ self.now) }
    {
        Ok(Pending {
            rows: self.rows.copy(alloc)?,
            gatherings: self.gatherings.copy(alloc)?,
        })
    }

    /// Puts in a request that goes to each of these links, and gives the number that it has on each, in their order: the least one,
    /// from 1, that isn't pending there. Replies to it are held where it asks for the latest ones alone.
    pub fn begin(
        &mut self,
        from: LinkNo,
        number: u32,
        to: &[LinkNo],
        latest: bool,
    ) -> Result<Vec<u32>, PendError>
        requires some { 0 < length to.now }
        requires differ { differ to.now ≡ true }
        ensures numbers { IfOk result (λ ns. ns.items ≡ map (λ b. b.number) (opened self.old.rows to.now)) }
        ensures rows { OnOk result (self.new.rows ≡ begun self.old.rows (record { link = from; number = number }) to.now) }
        ensures held { OnOk result (self.new.held ≡ begun_if latest self.old.held (record { link = from; number = number })) }
        ensures taken { (result ≡ Err PendError.Taken) ↔ (asked (record { link = from; number = number }) self.old.rows ≡ true) }
        ensures many { (result ≡ Err PendError.Many) ↔ (asked (record { link = from; number = number }) self.old.rows ≡ false) × (list_any (λ l. is_full l self.old.rows) to.now ≡ true) }
        ensures unchanged { OnErr result (self.new ≡ self.old) }
    {
        if self.asked(from, number) {
            return Err(PendError::Taken);
        }
        if self.any_full(to) {
            return Err(PendError::Many);
        }
        match self.pass_on(Asker { link: from, number }, to, latest) {
            Ok(numbers) => Ok(numbers),
            Err(_) => Err(PendError::NoMemory),
        }
    }

    /// Whether this link has asked a request of this number that is pending.
    pub fn asked(&self, link: LinkNo, number: u32) -> bool
        ensures { result ≡ asked (record { link = link; number = number }) self.now.rows }
    {
        self.rows.asked(Asker { link, number })
    }

    /// How many pending requests this link has asked.
    pub fn count(&self, link: LinkNo) -> u64
        ensures { result ≡ count link self.now.rows }
    {
        self.rows.count(link)
    }

    /// Who asked the request that has this number on this link, where it is pending and its asker's link is up.
    pub fn find(&self, link: LinkNo, number: u32) -> Option<Asker>
        ensures value { result ≡ asker_of (branch link number) self.now.rows }
        ensures sound { IsSound self.now.rows }
    {
        self.rows.asker_of(Branch { link, number })
    }

    /// What is held under a key for who asked the request that has this number on this link. It takes no memory.
    pub fn held(&self, link: LinkNo, number: u32, key: &KeyExpr) -> Option<&Held>
        ensures value { option_copied result ≡ option_and_then (λ a. held_of (held_for self.now.held a) key.now) (asker_of (branch link number) self.now.rows) }
        ensures differ { gatherings_differ self.now.held ≡ true }
    {
        if self.gatherings.is_empty() {
            return None;
        }
        let asker = self.rows.asker_of(Branch { link, number });
        self.gatherings.get_for(asker, key)
    }

    /// Holds a reply that came under this number of this link: whether it is held. It isn't where no such branch is pending, where who asked
    /// has gone or didn't ask for the latest replies alone, and where all that is held would weigh more than 67,108,864 with it.
    ///
    /// It takes its place where nothing is held for its key, or where it is later than what is.
    pub fn hold(
        &mut self,
        link: LinkNo,
        number: u32,
        reply: &Held,
        later: bool,
    ) -> Result<bool, AllocError>
        ensures answer { IfOk result (λ holds. holds ≡ is_some (held_at_branch self.old.rows self.old.held (branch link number) reply.now)) }
        ensures rows { self.new.rows ≡ self.old.rows }
        ensures held { OnOk result (self.new.held ≡ after_reply self.old.rows self.old.held (branch link number) reply.now later) }
        ensures unchanged { OnErr result (self.new ≡ self.old) }
    {
        if self.gatherings.is_empty() {
            return Ok(false);
        }
        let asker = self.rows.asker_of(Branch { link, number });
        self.gatherings.hold_for(asker, reply, later)
    }

    /// Ends the branch of this link and number. Where it was the last one of its request, the request goes, and its asker is given if it has
    /// one, with what was held for it.
    pub fn finish(&mut self, link: LinkNo, number: u32) -> Option<Ended>
        ensures ended { result ≡ option_map (λ a. ending self.old.held a) (final_to self.old.rows (branch link number)) }
        ensures rows { self.new.rows ≡ finished self.old.rows (branch link number) }
        ensures held { self.new.held ≡ after_final_to self.old.held (final_to self.old.rows (branch link number)) }
    {
        let asker = self.rows.finish(Branch { link, number });
        self.gatherings.take_for(asker)
    }

    /// The link went down: its branches end, in the order of their numbers, and what it asked has no asker any more, and no replies that are
    /// held.
    ///
    /// It gives the askers of the requests that end by that and have one, in that order, with what was held for each. Where memory runs out
    /// nothing is changed.
    pub fn drop_link(&mut self, link: LinkNo) -> Result<Vec<Ended>, AllocError>
        ensures ended { IfOk result (λ ended. ended.items ≡ map (λ a. ending self.old.held a) (finals_of_drop link self.old.rows)) }
        ensures rows { OnOk result (self.new.rows ≡ dropped link self.old.rows) }
        ensures held { OnOk result (self.new.held ≡ gatherings_left self.old.held link (finals_of_drop link self.old.rows)) }
        ensures unchanged { OnErr result (self.new ≡ self.old) }
    {
        let alloc = self.rows.allocator();
        let numbers = self.rows.numbers_on(link)?;
        let mut askers = Vec::with_capacity(alloc, numbers.len())?;
        let mut ended = Vec::with_capacity(alloc, numbers.len())?;
        self.rows.drop_link(link, numbers.as_slice(), &mut askers);
        self.gatherings.forget(link);
        self.gatherings.take_all(askers.as_slice(), &mut ended);
        Ok(ended)
    }

    // Whether one of these links has every number pending.
    fn any_full(&self, to: &[LinkNo]) -> bool
        ensures { result ≡ list_any (λ l. is_full l self.now.rows) to.now }
    {
        self.rows.any_full(to)
    }

    // A request goes to links of which none has every number pending.
    fn pass_on(&mut self, asker: Asker, to: &[LinkNo], latest: bool) -> Result<Vec<u32>, AllocError>
        requires some { 0 < length to.now }
        requires differ { differ to.now ≡ true }
        requires fresh { asked asker self.old.rows ≡ false }
        requires room { list_any (λ l. is_full l self.old.rows) to.now ≡ false }
        ensures numbers { IfOk result (λ ns. ns.items ≡ map (λ b. b.number) (opened self.old.rows to.now)) }
        ensures rows { OnOk result (self.new.rows ≡ begun self.old.rows asker to.now) }
        ensures held { OnOk result (self.new.held ≡ begun_if latest self.old.held asker) }
        ensures unchanged { OnErr result (self.new ≡ self.old) }
    {
        self.gatherings.begin_if(latest, asker)?;
        match self.rows.begin(asker, to) {
            Ok(numbers) => Ok(numbers),
            Err(error) => {
                drop(self.gatherings.take_for(Some(asker)));
                Err(error)
            }
        }
    }
}
