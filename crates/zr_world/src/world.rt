//! `World`: what the acts of a script make, one after another.

ghost use Rattle.std.specs.Prelude.{◌≡◌, ◌+◌, ◌<◌, ◌≤◌, ◌||◌, true, false, is_some, IfSome};
ghost use Rattle.zr_world_spec.specs.Acts.{outcome};
ghost use Rattle.zr_world_spec.specs.Fan.{are_many, are_long};
ghost use Rattle.zr_world_spec.specs.Next.{next, book_step, fan_step};
ghost use Rattle.zr_world_spec.specs.Sound.{IsSound};
ghost use Rattle.zr_world_spec.specs.World.{router_of};
ghost use Rattle.zr_law_calls.specs.Fitting.{IsFit};
ghost use Rattle.zr_law_numbers.specs.Calls.{most_commands};
ghost use Rattle.zr_world_ends.specs.Carried.{AreOnWires};
ghost use Rattle.zr_world.specs.Living.{Applies, Books, IsPassed, IsPossible, new_world};
ghost use Rattle.zr_world.specs.Steps.{is_out_of_memory};

use crate::tables::WorldTables;
use std::alloc::Global;
use std::marker::Model;
use std::thread::Threads;
use zr_carrier::carrier::Carrier;
use zr_carrier::plain::Plain;
use zr_id::zid::Zid;
use zr_script_spec::command::Act;
use zr_script_spec::error::ScriptError;
use zr_script_spec::report::ReportLine;
use zr_world_gang::gang::Gang;

/// How many acts are applied at most.
const MOST_COMMANDS: u64 = 100_000_000;

/// The routers and clients of a script, and the ends of their links with what waits there.
pub struct World<C: Carrier> {
    tables: WorldTables<C>,
    applied: u64,
    spent: bool,
}

// Written out, so that it is proved here, and not by each crate that lets one go.
impl<C: Carrier> Drop for World<C> {
    fn drop(self) {
        let Self {
            tables: _tables,
            applied: _applied,
            spent: _spent,
        } = self;
    }
}

impl<C: Carrier> Model for World<C> {
    ghost use Rattle.std.specs.Prelude.{◌≡◌, false};
    ghost use Rattle.zr_law_calls.specs.Reached.{IsFitReached};
    ghost use Rattle.zr_world.specs.Living.{Living};
    ghost use Rattle.zr_world.specs.State.{state_of};

    ghost Value = { Living };

    ghost view = { λ w. record { state = state_of w.tables; applied = w.applied; spent = w.spent } };

    ghost invariant = { λ w. w.spent ≡ false → IsFitReached (state_of w.tables) w.applied };
}

impl World<Plain> {
    /// A world in which nothing has come yet, with messages on its wires as they are.
    pub fn new(alloc: Global) -> World<Plain>
        ensures { result ≡ new_world }
    {
        World::over(alloc, Plain::new(alloc))
    }
}

impl<C: Carrier> World<C> {
    /// A world in which nothing has come yet, with a carrier for the messages on its wires.
    pub fn over(alloc: Global, carrier: C) -> World<C>
        ensures { result ≡ new_world }
    {
        World {
            tables: WorldTables::new(alloc, carrier),
            applied: 0,
            spent: false,
        }
    }

    /// What carries the messages on the wires, for who wants to look at its bytes.
    pub fn carrier(&self) -> &C
        ensures { AreOnWires (C.wire result.now) self.now.state.ends }
    {
        self.tables.ends.carrier()
    }

    /// The step that a run does next: the `handle` of the first router and neighbour, by name, at which a message waits to be handled, else
    /// the `take` of the first at which one waits to be taken. None where no step is possible. By the definitions the step is accepted; `apply`
    /// does so while fewer than 100,000,000 acts were applied. Of a spent world nothing is said.
    pub fn next(&self) -> Option<Act>
        ensures step { self.now.spent ≡ false → result ≡ next self.now.state }
        ensures possible { self.now.spent ≡ false → IfSome result (λ step. IsPossible self.now.state step) }
        ensures sound { self.now.spent ≡ false → IsSound self.now.state }
    {
        self.tables.next()
    }

    /// Whether a router has the name.
    pub fn is_router(&self, name: &Zid) -> bool
        ensures { result ≡ is_some (router_of self.now.state.routers name.now) }
    {
        self.tables.is_router(name)
    }

    /// Counts the steps that a run asks for. The refusal `Limit` leaves the world as it was.
    pub fn book(&mut self, steps: u32) -> Result<(), ScriptError>
        ensures books { self.old.spent ≡ false → Books result (book_step self.old.state steps) self.old self.new }
        ensures sound { self.new.spent ≡ false → IsSound self.new.state }
        ensures spent { self.old.spent ≡ true → (result ≡ Err ScriptError.NoMemory) × (self.new ≡ self.old) }
    {
        if self.spent {
            return Err(ScriptError::NoMemory);
        }
        self.tables.book(steps)
    }

    /// Does an act of a line, and appends what is reported of it. What a client sends by it may be passed on; lines ask for no other acts.
    ///
    /// A refusal is the first that applies, and leaves the world as it was: `BadWords` of a link from a router to itself, `UnknownName`,
    /// `NameTaken`, `NotLinked`, `AlreadyLinked`, `NothingThere`, `NotAsked`, `NotSettled`, `NotJoined`, `Limit`. `Limit` comes only where the act would
    /// pass a limit of its own. Once 100,000,000 acts were applied, each further one is answered `Limit`, whatever it asks. After `NoMemory`, by which
    /// a prefix of the act's lines is appended, the world is spent, and answers `NoMemory` from then on.
    pub fn apply(
        &mut self,
        line: u64,
        act: Act,
        report: &mut Vec<ReportLine>,
    ) -> Result<(), ScriptError>
        requires { IsFit act }
        ensures applies { self.old.spent ≡ false → self.old.applied < most_commands → Applies result (outcome self.old.state line act) (self.old.applied + 1) self.old self.new report.old.items report.new.items }
        ensures full { self.old.spent ≡ false → most_commands ≤ self.old.applied → (result ≡ Err ScriptError.Limit) × (self.new ≡ self.old) × (report.new.items ≡ report.old.items) }
        ensures limits { result ≡ Err ScriptError.Limit → IsPassed self.old act }
        ensures sound { self.new.spent ≡ false → IsSound self.new.state }
        ensures spent { self.old.spent ≡ true → (result ≡ Err ScriptError.NoMemory) × (self.new ≡ self.old) × (report.new.items ≡ report.old.items) }
    {
        if self.spent {
            return Err(ScriptError::NoMemory);
        }
        if self.applied >= MOST_COMMANDS {
            return Err(ScriptError::Limit);
        }
        let done = self.tables.act(line, act, report);
        self.applied += u64::from(done.is_ok());
        self.spent = is_out_of_memory(&done);
        done
    }

    /// All samples under way go to their ends, the routers being handled by a gang, and one line that tells their steps is appended. They count as no act.
    ///
    /// A refusal is the first that applies, and leaves the world as it was: `NotSettled`, `NotSamples` where not only samples are under way, and `Limit`
    /// where they are too many or too long. After `NoMemory` the world is spent, and answers `NoMemory` from then on.
    pub fn fan<R: Threads + Sync, G: Gang>(
        &mut self,
        line: u64,
        rt: &R,
        gang: &mut G,
        report: &mut Vec<ReportLine>,
    ) -> Result<(), ScriptError>
        ensures applies { self.old.spent ≡ false → Applies result (fan_step self.old.state line) self.old.applied self.old self.new report.old.items report.new.items }
        ensures limits { result ≡ Err ScriptError.Limit → (are_many self.old.state || are_long self.old.state) ≡ true }
        ensures sound { self.new.spent ≡ false → IsSound self.new.state }
        ensures spent { self.old.spent ≡ true → (result ≡ Err ScriptError.NoMemory) × (self.new ≡ self.old) × (report.new.items ≡ report.old.items) }
    {
        if self.spent {
            return Err(ScriptError::NoMemory);
        }
        let done = self.tables.fan(line, rt, gang, report);
        self.spent = is_out_of_memory(&done);
        done
    }
}

// Whether memory ran out.
fn is_out_of_memory(done: &Result<(), ScriptError>) -> bool
    ensures { result ≡ is_out_of_memory done.now }
{
    matches!(done, Err(ScriptError::NoMemory))
}
