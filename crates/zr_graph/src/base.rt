//! The base of a router: which records it keeps, and how its own record changes.

ghost use Rattle.std.specs.Prelude.{◌≡◌, ◌-◌, ◌^◌, ◌↔◌, true, nat_lt, IfOk, OnOk, OnErr, if◌then◌else◌};
ghost use Rattle.zr_id.specs.Record.{are_links, linked_ids};
ghost use Rattle.zr_id.specs.Zid.{is_named};
ghost use Rattle.std.specs.Option.{option_copied};
ghost use Rattle.zr_graph.specs.Record.{has, has_edge, lists, record_of};
ghost use Rattle.zr_graph.specs.Base.{IsInOrder, is_newer, after_record, kept, relinked, own_seq, fresh};

use crate::place::{place_of, put};
use std::alloc::{AllocError, AllocFailed, Global};
use std::marker::Model;
use thiserror::Error;
use zr_id::record::{LinkRecord, Linked};
use zr_id::zid::Zid;

/// What became of a record that a base was given.
#[derive(Clone, Copy, Debug, PartialEq, Eq)]
pub enum Accepted {
    /// It is newer than what the base had, and is kept.
    Newer,
    /// It tells nothing new.
    Old,
}

/// Why the own record didn't change.
#[derive(Clone, Copy, Debug, Drop, Error)]
pub enum ChangeError {
    #[error("the own record has had its last number")]
    Worn,
    #[error("out of memory")]
    NoMemory,
}

impl From<AllocError> for ChangeError {
    ghost use Rattle.std.specs.Prelude.{◌≡◌};
    ghost use Rattle.zr_graph.specs.declared.base.ChangeError.TheVariants.{NoMemory};

    ghost from_gives = { λ _ e. e ≡ NoMemory };

    fn from(_: AllocError) -> ChangeError {
        ChangeError::NoMemory
    }
}

/// The newest record of each router that one router knows of, its own among them.
#[derive(Drop)]
pub struct Base {
    me: Zid,
    records: Vec<LinkRecord>,
}

impl Model for Base {
    ghost use Rattle.zr_graph.specs.Base.{BaseState, IsInOrder};

    ghost Value = { BaseState };

    ghost view = { λ b. record { me = b.me; records = b.records.items } };

    ghost invariant = { λ b. IsInOrder (record { me = b.me; records = b.records.items }) };
}

impl Base {
    /// The base of a router without links: its own record has number 0.
    pub fn new(alloc: Global, me: Zid) -> Result<Base, AllocError>
        ensures { IfOk result (λ b. b ≡ fresh me) }
    {
        let mut records = Vec::new(alloc);
        records.push(LinkRecord::new(me, 0, Vec::new(alloc)))?;
        Ok(Base { me, records })
    }

    /// A second base with the same records.
    pub fn copy(&self, alloc: Global) -> Result<Base, AllocError>
        ensures { IfOk result (λ b. b ≡ self.now) }
    {
        Ok(Base {
            me: self.me,
            records: copies_of(alloc, &self.records)?,
        })
    }

    /// The router whose base it is.
    pub fn me(&self) -> Zid
        ensures { result ≡ self.now.me }
    {
        self.me
    }

    /// Keeps a copy of another router's record where it is newer than what the base has.
    ///
    /// The own record is made by [`Base::change`] alone, so one that comes from outside is always old.
    pub fn accept(&mut self, links: &LinkRecord) -> Result<Accepted, AllocError>
        ensures answer { IfOk result (λ a. a ≡ (if is_newer self.old links.now then Accepted.Newer else Accepted.Old)) }
        ensures base { OnOk result (self.new ≡ after_record self.old links.now) }
        ensures unchanged { OnErr result (self.new ≡ self.old) }
    {
        if !self.is_newer(links) {
            return Ok(Accepted::Old);
        }
        let copy = links.copy(*self.records.allocator())?;
        self.keep(copy)?;
        Ok(Accepted::Newer)
    }

    /// Gives the own record its next number and these links, which go to strictly ascending routers and not to this one, as in each record.
    pub fn change(&mut self, links: &[Linked]) -> Result<(), ChangeError>
        requires { are_links self.old.me links.now ≡ true }
        ensures ok { OnOk result (self.new ≡ relinked self.old links.now) }
        ensures worn { (result ≡ Err ChangeError.Worn) ↔ (own_seq self.old ≡ 2 ^ 64 - 1) }
        ensures unchanged { OnErr result (self.new ≡ self.old) }
    {
        let seq = self.own_seq();
        if seq == u64::MAX {
            return Err(ChangeError::Worn);
        }
        let links = Vec::from_slice(*self.records.allocator(), links)?;
        self.keep(LinkRecord::new(self.me, seq + 1, links))?;
        Ok(())
    }

    /// Whether the records of these two routers list each other.
    pub fn edge(&self, a: Zid, b: Zid) -> bool
        ensures { result ≡ has_edge self.now.records a b }
    {
        self.lists(&a, &b) && self.lists(&b, &a)
    }

    /// The records in ascending order of their identifiers, the own one among them.
    pub fn records(&self) -> &[LinkRecord]
        ensures value { result.now ≡ self.now.records }
        ensures in_order { IsInOrder self.now }
    {
        self.records.as_slice()
    }

    fn lists(&self, from: &Zid, to: &Zid) -> bool
        ensures { result ≡ lists self.now.records from.now to.now }
    {
        match self.record_of(from) {
            Some(r) => has_link(r, to),
            None => false,
        }
    }

    fn is_newer(&self, links: &LinkRecord) -> bool
        ensures { result ≡ is_newer self.now links.now }
    {
        if is_of(links, &self.me) {
            return false;
        }
        match self.record_like(links) {
            Some(r) => is_older(r, links),
            None => true,
        }
    }

    // the record that the base has of the same router
    fn record_like(&self, links: &LinkRecord) -> Option<&LinkRecord>
        ensures { option_copied result ≡ record_of self.now.records links.now.id }
    {
        self.record_of(&links.id())
    }

    fn own_seq(&self) -> u64
        ensures { result ≡ own_seq self.now }
    {
        match self.record_of(&self.me) {
            Some(r) => r.seq(),
            None => 0,
        }
    }

    fn record_of(&self, id: &Zid) -> Option<&LinkRecord>
        ensures { option_copied result ≡ record_of self.now.records id.now }
    {
        match place_of(&self.records, id) {
            Ok(at) => Some(&self.records[at]),
            Err(_) => None,
        }
    }

    fn keep(&mut self, new: LinkRecord) -> Result<(), AllocError>
        ensures ok { OnOk result (self.new ≡ kept self.old new) }
        ensures err { OnErr result (self.new ≡ self.old) }
    {
        let place = place_of(&self.records, &new.id());
        put(&mut self.records, place, new)?;
        Ok(())
    }
}

/// Whether a record lists a router.
pub fn has_link(r: &LinkRecord, to: &Zid) -> bool
    ensures { result ≡ has (linked_ids r.now.links) to.now }
{
    for l in r.links() {
        if l.id == *to {
            return true;
        }
    }
    false
}

fn is_of(r: &LinkRecord, id: &Zid) -> bool
    ensures { result ≡ is_named r.now.id id.now }
{
    r.id() == *id
}

fn is_older(a: &LinkRecord, b: &LinkRecord) -> bool
    ensures { result ≡ nat_lt a.now.seq b.now.seq }
{
    a.seq() < b.seq()
}

/// Second records, equal to these.
pub fn copies_of(alloc: Global, records: &[LinkRecord]) -> Result<Vec<LinkRecord>, AllocError>
    ensures { IfOk result (λ v. v.items ≡ records.now) }
{
    let mut copies = Vec::with_capacity(alloc, records.len())?;
    for record in records {
        copies.push(record.copy(alloc)?)?;
    }
    Ok(copies)
}
