//! `Known`: the change logs of all routers, as far as one router knows them.

ghost use Rattle.std.specs.Prelude.{◌≡◌, ◌+◌, ◌<◌, false, if◌then◌else◌, None, IfOk, OnOk, OnErr};
ghost use Rattle.std.specs.Option.{option_copied};
ghost use Rattle.zr_id.specs.Zid.{is_named};
ghost use Rattle.zr_log.specs.Known.{AreInOrder, IsRefusedAs, sources, log_of, position, decls, with_log, nothing_known, after_own, refuses_own, is_next, is_newer, after_step, after_snap, refuses_step, refuses_snap, refusal, over_limit};
ghost use Rattle.zr_log.specs.Log.{changed, change_held};
ghost use Rattle.zr_log_set.specs.Decls.{IsSet};

use crate::error::KnownError;
use crate::log::{self, Log};
use crate::place;
use std::alloc::{AllocError, Global};
use std::marker::Model;
use zr_id::zid::Zid;
use zr_log_set::decl_set::DeclSet;
use zr_log_set::weight::is_over_limit;
use zr_msg::decl::Decl;

/// What became of a change or a snapshot.
#[derive(Clone, Copy, Debug)]
pub enum Taken {
    /// It tells something new, and is taken over.
    New,
    /// It is known, or of the own log.
    Old,
}

/// What one router knows of the change logs of all routers, its own among them.
#[derive(Drop)]
pub struct Known {
    me: Zid,
    // the routers of the logs, in the same order
    names: Vec<Zid>,
    logs: Vec<Log>,
}

impl Model for Known {
    ghost use Rattle.std.specs.Prelude.{◌≡◌, map};
    ghost use Rattle.zr_log.specs.Known.{KnownState, AreInOrder};

    ghost Value = { KnownState };

    ghost view = { λ k. record { me = k.me; logs = k.logs.items } };

    ghost invariant = { λ k. AreInOrder (record { me = k.me; logs = k.logs.items }) × (k.names.items ≡ map (λ l. l.source) k.logs.items) };
}

impl Known {
    /// Nothing is known yet. It takes no memory.
    pub fn new(alloc: Global, me: Zid) -> Known
        ensures { result ≡ nothing_known me }
    {
        Known {
            me,
            names: Vec::new(alloc),
            logs: Vec::new(alloc),
        }
    }

    /// The same logs once more.
    pub fn copy(&self, alloc: Global) -> Result<Known, AllocError>
        ensures { IfOk result (λ k. k ≡ self.now) }
    {
        Ok(Known {
            me: self.me,
            names: Vec::from_slice(alloc, &self.names)?,
            logs: log::copies_of(alloc, &self.logs)?,
        })
    }

    /// The routers of whose logs a change is known, in ascending order.
    pub fn sources(&self) -> &[Zid]
        ensures { result.now ≡ sources self.now }
    {
        self.names.as_slice()
    }

    /// What is known of each of these routers, in the same order.
    pub fn logs(&self) -> &[Log]
        ensures value { result.now ≡ self.now.logs }
        ensures in_order { AreInOrder self.now }
    {
        self.logs.as_slice()
    }

    /// How many changes of a router's log are known: 0 of one of which nothing is known.
    pub fn position(&self, source: Zid) -> u64
        ensures { result ≡ position self.now source }
    {
        match self.log_of(&source) {
            Some(log) => log.position,
            None => 0,
        }
    }

    /// What a router's clients declare after these changes, in ascending order.
    pub fn decls(&self, source: Zid) -> &[Decl]
        ensures value { result.now ≡ decls self.now source }
        ensures set { IsSet result.now }
        ensures in_order { AreInOrder self.now }
    {
        let _known = &self.logs; // read, so that the proof knows that they are in order
        match self.log_of(&source) {
            Some(log) => log.decls.as_slice(),
            None => &[],
        }
    }

    /// Adds a change to the own log, and gives its number.
    pub fn own(&mut self, added: bool, decl: &Decl) -> Result<u64, KnownError>
        ensures number { IfOk result (λ n. n ≡ position self.old self.old.me + 1) }
        ensures known { OnOk result (self.new ≡ after_own self.old (record { added = added; decl = decl.now })) }
        ensures refused { refuses_own self.old ≡ refusal result }
        ensures unchanged { OnErr result (self.new ≡ self.old) }
    {
        let me = self.me;
        let has = self.position(me);
        if has == u64::MAX {
            return Err(KnownError::Worn);
        }
        self.change(me, has + 1, added, decl)?;
        Ok(has + 1)
    }

    /// Takes over a change of another router's log where it is the next one.
    pub fn step(
        &mut self,
        source: Zid,
        number: u64,
        added: bool,
        decl: &Decl,
    ) -> Result<Taken, KnownError>
        ensures answer { IfOk result (λ t. t ≡ (if is_next self.old source number then Taken.New else Taken.Old)) }
        ensures known { OnOk result (self.new ≡ after_step self.old source number (record { added = added; decl = decl.now })) }
        ensures refused { refuses_step self.old source number (record { added = added; decl = decl.now }) ≡ refusal result }
        ensures unchanged { OnErr result (self.new ≡ self.old) }
    {
        let has = self.position(source);
        if source == self.me || number <= has {
            return Ok(Taken::Old);
        }
        if let Some(refused) = self.refuses_behind(has, source, number, added, decl) {
            return Err(refused);
        }
        self.change(source, number, added, decl)?;
        Ok(Taken::New)
    }

    /// Why a change of another router's log would be refused, if it would be. It takes no memory.
    pub fn refuses_step(
        &self,
        source: Zid,
        number: u64,
        added: bool,
        decl: &Decl,
    ) -> Option<KnownError>
        ensures { result ≡ refuses_step self.now source number (record { added = added; decl = decl.now }) }
    {
        let has = self.position(source);
        if source == self.me || number <= has {
            return None;
        }
        self.refuses_behind(has, source, number, added, decl)
    }

    /// Takes over a snapshot of another router's log where it is beyond what is known. The declarations may come in any order.
    pub fn snap(&mut self, source: Zid, number: u64, decls: &[Decl]) -> Result<Taken, KnownError>
        ensures answer { IfOk result (λ t. t ≡ (if is_newer self.old source number then Taken.New else Taken.Old)) }
        ensures known { OnOk result (self.new ≡ after_snap self.old source number decls.now) }
        ensures refused { IsRefusedAs (refuses_snap self.old source number decls.now) result }
        ensures unchanged { OnErr result (self.new ≡ self.old) }
    {
        if source == self.me || number <= self.position(source) {
            return Ok(Taken::Old);
        }
        let set = DeclSet::of(*self.logs.allocator(), decls)?;
        within(0, set.weight())?;
        self.keep(source, number, set)?;
        Ok(Taken::New)
    }

    fn log_of(&self, source: &Zid) -> Option<&Log>
        ensures { option_copied result ≡ log_of self.now source.now }
    {
        match place::place_of(&self.logs, source) {
            Ok(at) => Some(&self.logs[at]),
            Err(_) => None,
        }
    }

    fn held(&self, source: &Zid, added: bool, decl: &Decl) -> u64
        ensures { result ≡ change_held (decls self.now source.now) (record { added = added; decl = decl.now }) }
    {
        match self.log_of(source) {
            Some(log) => log::held(&log.decls, added, decl),
            None => 0,
        }
    }

    // why a change beyond what is known of another router's log is refused
    fn refuses_behind(
        &self,
        has: u64,
        source: Zid,
        number: u64,
        added: bool,
        decl: &Decl,
    ) -> Option<KnownError>
        requires other { is_named source self.now.me ≡ false }
        requires has { has ≡ position self.now source }
        requires beyond { has < number }
        ensures refused { result ≡ refuses_step self.now source number (record { added = added; decl = decl.now }) }
        ensures next { result ≡ None → number ≡ has + 1 }
    {
        if number - has > 1 {
            return Some(KnownError::Gap {
                source,
                has,
                came: number,
            });
        }
        over_limit(self.held(&source, added, decl), log::more(added, decl))
    }

    // the log of a router has one change more, of this number
    fn change(
        &mut self,
        source: Zid,
        number: u64,
        added: bool,
        decl: &Decl,
    ) -> Result<(), AllocError>
        requires { 0 < number }
        ensures ok { OnOk result (self.new ≡ with_log self.old source number (changed (decls self.old source) (record { added = added; decl = decl.now }))) }
        ensures err { OnErr result (self.new ≡ self.old) }
    {
        if let Ok(at) = place::place_of(&self.logs, &source) {
            place::change_at(&mut self.logs, at, number, added, decl)?;
            return Ok(());
        }
        let mut set = DeclSet::new(*self.logs.allocator());
        log::change(&mut set, added, decl)?;
        self.keep(source, number, set)
    }

    fn keep(&mut self, source: Zid, number: u64, set: DeclSet) -> Result<(), AllocError>
        requires { 0 < number }
        ensures ok { OnOk result (self.new ≡ with_log self.old source number set) }
        ensures err { OnErr result (self.new ≡ self.old) }
    {
        let place = place::place_of(&self.logs, &source);
        let new = Log {
            source,
            position: number,
            decls: set,
        };
        place::put(&mut self.names, &mut self.logs, place, new)?;
        Ok(())
    }
}

// whether a set may weigh so much
fn within(held: u64, more: u64) -> Result<(), KnownError>
    ensures { over_limit held more ≡ refusal result }
{
    match over_limit(held, more) {
        Some(refused) => Err(refused),
        None => Ok(()),
    }
}

fn over_limit(held: u64, more: u64) -> Option<KnownError>
    ensures { result ≡ over_limit held more }
{
    if is_over_limit(held, more) {
        return Some(KnownError::TextLimit { held, more });
    }
    None
}
