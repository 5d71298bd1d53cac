//! `Runner`: a script's run so far. It is fed pieces of the script, and writes the report of each line that ends, or counts it.

ghost use Rattle.std.specs.Prelude.{◌≡◌, ◌==◌, ◌+◌, ◌^◌, ◌<◌, ◌≤◌, ◌∷◌, ◌++◌, [], false, length, take, position, is_none, OnOk, OnErr};
ghost use Rattle.std.specs.List.{fold};
ghost use Rattle.zr_script_spec.specs.Lines.{most_bytes, most_kept, ended_lines, open_line, parts, unless_empty};
ghost use Rattle.zr_script_spec.specs.Report.{line_text};
ghost use Rattle.zr_law_calls.specs.Fitting.{IsFit};
ghost use Rattle.zr_law_numbers.specs.Calls.{most_commands};
ghost use Rattle.zr_world_spec.specs.Accepted.{accepted_from};
ghost use Rattle.zr_world_spec.specs.Next.{applied, book_step, fan_step, next};
ghost use Rattle.zr_world_spec.specs.Run.{on_line};
ghost use Rattle.zr_outside.specs.Counts.{Rose, RoseOnlyBy};
ghost use Rattle.zr_outside.specs.Told.{Appends, AppendsPrefix};
ghost use Rattle.zr_world.specs.Living.{Books};
ghost use Rattle.zr_netrun_report.specs.Waiting.{most_pending};
ghost use Rattle.zr_netrun_lines.specs.Kept.{begun, fresh, run_behind, run_by, seen, writes, IsKeptIf, KeepsRefused, StepsOn, Turns, refused_line};
ghost use Rattle.zr_netrun_lines.specs.Counted.{acts_by, step_by, CountsOn};
ghost use Rattle.zr_netrun_lines.specs.Possible.{RunsGo, StepsGo};
ghost use Rattle.zr_netrun_lines.specs.Within.{HasRoom, OneMore};

use std::alloc::{AllocError, Global};
use std::marker::Model;
use std::mem;
use std::thread::Threads;
use zr_carrier::carrier::Carrier;
use zr_law_carried::line_acts_fit;
use zr_netrun_report::counts::Counts;
use zr_netrun_report::waiting::{tell_lines, write_if_enough, write_out};
use zr_outside::sink::{Sink, WriteFailed};
use zr_script::line::{MOST_LINE, read_line};
use zr_script::text::line_text;
use zr_script_spec::command::{Act, Command};
use zr_script_spec::error::ScriptError;
use zr_script_spec::report::ReportLine;
use zr_world::world::World;
use zr_world_gang::gang::Gang;

/// How much of a line that has not ended is kept: one byte more than a line may have, which tells that it has too many.
const MOST_KEPT: usize = MOST_LINE + 1;

/// Why a run stops before the script's end.
#[derive(Clone, Copy, Debug, PartialEq, Eq)]
pub enum RunStop {
    /// The last line that ended is refused.
    Refused(ScriptError),
    /// Memory ran out.
    NoMemory,
    /// A write failed.
    WriteFault,
}

/// A script's run so far, over what carries the messages of its network.
pub struct Runner<C: Carrier> {
    alloc: Global,
    world: World<C>,
    number: u64,
    line: Vec<u8>,
    // the report lines of an act: kept for their memory alone
    report: Vec<ReportLine>,
    pending: Vec<u8>,
    counts: Option<Counts>,
}

// Written out, so that it is proved here, and not by each crate that lets one go.
impl<C: Carrier> Drop for Runner<C> {
    fn drop(self) {
        let Self {
            alloc: _alloc,
            world: _world,
            number: _number,
            line: _line,
            report: _report,
            pending: _pending,
            counts: _counts,
        } = self;
    }
}

impl<C: Carrier> Model for Runner<C> {
    ghost use Rattle.std.specs.Prelude.{◌≡◌, ◌≤◌, ◌<◌, ◌∷◌, [], length};
    ghost use Rattle.zr_script_spec.specs.Lines.{most_kept, parts};
    ghost use Rattle.zr_netrun_report.specs.Waiting.{most_pending};
    ghost use Rattle.zr_netrun_lines.specs.Kept.{Kept};
    ghost use Rattle.zr_netrun_lines.specs.Within.{IsWithin};

    ghost Value = { Kept };

    ghost view = { λ r. record { world = r.world; number = r.number; line = r.line.items; pending = r.pending.items; counts = r.counts } };

    ghost invariant = { λ r. (length r.line.items ≤ most_kept) × (parts r.line.items ≡ r.line.items ∷ []) × (length r.pending.items < most_pending) × IsWithin r.world r.number };
}

impl<C: Carrier> Runner<C> {
    /// The run of no script yet. Its report is counted where there are counts to begin with, and else it is written. Wires that the
    /// carrier has already are never looked at.
    pub fn new(alloc: Global, counts: Option<Counts>, carrier: C) -> Runner<C>
        ensures { result ≡ begun counts }
    {
        Runner {
            alloc,
            world: World::over(alloc, carrier),
            number: 0,
            line: Vec::new(alloc),
            report: Vec::new(alloc),
            pending: Vec::new(alloc),
            counts,
        }
    }

    /// How many lines have ended; where one was refused it is the last.
    pub fn number(&self) -> u64
        ensures { result ≡ self.now.number }
    {
        self.number
    }

    /// What is kept of the line that has not ended, and where a line was refused of that line: its first 4,097 bytes.
    pub fn line(&self) -> &[u8]
        ensures { result.now ≡ self.now.line }
    {
        self.line.as_slice()
    }

    /// What was counted of the report, where it is counted.
    pub fn counts(&self) -> Option<Counts>
        ensures { result ≡ self.now.counts }
    {
        self.counts
    }

    /// A piece of the script has come: the lines that end in it are applied, their report is written, and the rest is kept. Between two
    /// acts less than 64 KiB of the report wait.
    pub fn feed<R: Threads + Sync, G: Gang, K: Sink>(
        &mut self,
        rt: &R,
        gang: &mut G,
        piece: &[u8],
        out: &mut K,
    ) -> Result<(), RunStop>
        requires alive { self.old.world.spent ≡ false }
        requires goes { StepsGo (fresh self.old) }
        requires room { self.old.number + length piece.now ≤ most_bytes }
        ensures turn { Turns result (fold on_line (fresh self.old) (ended_lines (self.old.line ++ piece.now))) (take most_kept (open_line (self.old.line ++ piece.now))) self.old.pending self.new (seen (writes self.old) (K.held out.old)) (seen (writes self.old) (K.held out.new)) }
        ensures counts { OnOk result (CountsOn (accepted_from (fresh self.old) (ended_lines (self.old.line ++ piece.now))) self.old self.new) }
        ensures flushed { OnOk result (self.new.pending ≡ []) }
        ensures refused { KeepsRefused result (refused_line (fresh self.old) (ended_lines (self.old.line ++ piece.now))) self.new }
        ensures fault { result ≡ Err RunStop.WriteFault → Rose (K.faults out.old) (K.faults out.new) }
        ensures only { RoseOnlyBy RunStop.WriteFault result (K.faults out.old) (K.faults out.new) }
        ensures count { self.new.number ≤ self.old.number + length piece.now }
        ensures later { K.faults out.old ≤ K.faults out.new }
    {
        self.feed_lines(rt, gang, piece, out)?;
        self.flush(out)
    }

    /// The script has ended: what was kept is its last line, unless that has no bytes.
    pub fn finish<R: Threads + Sync, G: Gang, K: Sink>(
        &mut self,
        rt: &R,
        gang: &mut G,
        out: &mut K,
    ) -> Result<(), RunStop>
        requires alive { self.old.world.spent ≡ false }
        requires goes { StepsGo (fresh self.old) }
        requires room { self.old.number ≤ most_bytes }
        ensures turn { Turns result (fold on_line (fresh self.old) (unless_empty self.old.line)) [] self.old.pending self.new (seen (writes self.old) (K.held out.old)) (seen (writes self.old) (K.held out.new)) }
        ensures counts { OnOk result (CountsOn (accepted_from (fresh self.old) (unless_empty self.old.line)) self.old self.new) }
        ensures flushed { OnOk result (self.new.pending ≡ []) }
        ensures refused { KeepsRefused result (refused_line (fresh self.old) (unless_empty self.old.line)) self.new }
        ensures fault { result ≡ Err RunStop.WriteFault → Rose (K.faults out.old) (K.faults out.new) }
        ensures only { RoseOnlyBy RunStop.WriteFault result (K.faults out.old) (K.faults out.new) }
        ensures later { K.faults out.old ≤ K.faults out.new }
    {
        self.end_last_line(rt, gang, out)?;
        self.flush(out)
    }

    /// Writes what waits. After a failure nothing waits any more, of which a prefix was written.
    pub fn flush<K: Sink>(&mut self, out: &mut K) -> Result<(), RunStop>
        ensures written { self.new ≡ record { world = self.old.world; number = self.old.number; line = self.old.line; pending = []; counts = self.old.counts } }
        ensures ok { OnOk result (Appends self.old.pending (K.held out.old) (K.held out.new)) }
        ensures err { OnErr result ((result ≡ Err RunStop.WriteFault) × AppendsPrefix self.old.pending (K.held out.old) (K.held out.new)) }
        ensures fault { OnErr result (Rose (K.faults out.old) (K.faults out.new)) }
        ensures only { RoseOnlyBy RunStop.WriteFault result (K.faults out.old) (K.faults out.new) }
        ensures later { K.faults out.old ≤ K.faults out.new }
    {
        write_out(&mut self.pending, out)?;
        Ok(())
    }

    // The lines that end in a piece are applied, and the rest is kept.
    fn feed_lines<R: Threads + Sync, G: Gang, K: Sink>(
        &mut self,
        rt: &R,
        gang: &mut G,
        piece: &[u8],
        out: &mut K,
    ) -> Result<(), RunStop>
        requires alive { self.old.world.spent ≡ false }
        requires goes { StepsGo (fresh self.old) }
        requires room { self.old.number + length piece.now ≤ most_bytes }
        ensures turn { Turns result (fold on_line (fresh self.old) (ended_lines (self.old.line ++ piece.now))) (take most_kept (open_line (self.old.line ++ piece.now))) self.old.pending self.new (seen (writes self.old) (K.held out.old)) (seen (writes self.old) (K.held out.new)) }
        ensures counts { OnOk result (CountsOn (accepted_from (fresh self.old) (ended_lines (self.old.line ++ piece.now))) self.old self.new) }
        ensures refused { KeepsRefused result (refused_line (fresh self.old) (ended_lines (self.old.line ++ piece.now))) self.new }
        ensures fault { result ≡ Err RunStop.WriteFault → Rose (K.faults out.old) (K.faults out.new) }
        ensures only { RoseOnlyBy RunStop.WriteFault result (K.faults out.old) (K.faults out.new) }
        ensures count { self.new.number ≤ self.old.number + length piece.now }
        ensures later { K.faults out.old ≤ K.faults out.new }
    {
        // Read, so that the proof knows that no line ends in what is kept.
        let _open = &self.line;
        let mut rest = piece;
        while let Some(place) = line_end(rest) {
            self.end_line(rt, gang, &rest[..place], out)?;
            rest = &rest[place + 1..];
        }
        self.keep_part(rest)
    }

    // What was kept is the last line, unless it has no bytes.
    fn end_last_line<R: Threads + Sync, G: Gang, K: Sink>(
        &mut self,
        rt: &R,
        gang: &mut G,
        out: &mut K,
    ) -> Result<(), RunStop>
        requires alive { self.old.world.spent ≡ false }
        requires goes { StepsGo (fresh self.old) }
        requires room { self.old.number ≤ most_bytes }
        ensures turn { Turns result (fold on_line (fresh self.old) (unless_empty self.old.line)) [] self.old.pending self.new (seen (writes self.old) (K.held out.old)) (seen (writes self.old) (K.held out.new)) }
        ensures counts { OnOk result (CountsOn (accepted_from (fresh self.old) (unless_empty self.old.line)) self.old self.new) }
        ensures refused { KeepsRefused result (refused_line (fresh self.old) (unless_empty self.old.line)) self.new }
        ensures fault { result ≡ Err RunStop.WriteFault → Rose (K.faults out.old) (K.faults out.new) }
        ensures only { RoseOnlyBy RunStop.WriteFault result (K.faults out.old) (K.faults out.new) }
        ensures later { K.faults out.old ≤ K.faults out.new }
    {
        if self.line.is_empty() {
            return Ok(());
        }
        let line = mem::replace(&mut self.line, Vec::new(self.alloc));
        self.apply_line(rt, gang, &line, out)
    }

    // A line has ended, of which this is the last part.
    #[tactic(auto, using(crate::proofs::Runs::command_kept))]
    fn end_line<R: Threads + Sync, G: Gang, K: Sink>(
        &mut self,
        rt: &R,
        gang: &mut G,
        part: &[u8],
        out: &mut K,
    ) -> Result<(), RunStop>
        requires alive { self.old.world.spent ≡ false }
        requires goes { StepsGo (fresh self.old) }
        requires room { self.old.number ≤ most_bytes }
        requires open { parts part.now ≡ part.now ∷ [] }
        ensures turn { Turns result (on_line (fresh self.old) (self.old.line ++ part.now)) [] self.old.pending self.new (seen (writes self.old) (K.held out.old)) (seen (writes self.old) (K.held out.new)) }
        ensures counts { OnOk result (CountsOn (accepted_from (fresh self.old) ((self.old.line ++ part.now) ∷ [])) self.old self.new) }
        ensures refused { KeepsRefused result (self.old.line ++ part.now) self.new }
        ensures fault { result ≡ Err RunStop.WriteFault → Rose (K.faults out.old) (K.faults out.new) }
        ensures only { RoseOnlyBy RunStop.WriteFault result (K.faults out.old) (K.faults out.new) }
        ensures count { self.new.number ≤ self.old.number + 1 }
        ensures later { K.faults out.old ≤ K.faults out.new }
    {
        if self.line.is_empty() {
            return self.apply_line(rt, gang, part, out);
        }
        self.keep_part(part)?;
        let line = mem::replace(&mut self.line, Vec::new(self.alloc));
        self.apply_line(rt, gang, &line, out)
    }

    // A line has ended. What it asks is done; where it is refused it is kept, as far as it matters. `on_line` stands apart from this, so that
    // whatever refuses a line there leads here.
    fn apply_line<R: Threads + Sync, G: Gang, K: Sink>(
        &mut self,
        rt: &R,
        gang: &mut G,
        line: &[u8],
        out: &mut K,
    ) -> Result<(), RunStop>
        requires alive { self.old.world.spent ≡ false }
        requires goes { StepsGo (fresh self.old) }
        requires room { self.old.number ≤ most_bytes }
        requires open { parts line.now ≡ line.now ∷ [] }
        ensures turn { Turns result (on_line (fresh self.old) line.now) self.old.line self.old.pending self.new (seen (writes self.old) (K.held out.old)) (seen (writes self.old) (K.held out.new)) }
        ensures counts { OnOk result (CountsOn (accepted_from (fresh self.old) (line.now ∷ [])) self.old self.new) }
        ensures refused { KeepsRefused result line.now self.new }
        ensures fault { result ≡ Err RunStop.WriteFault → Rose (K.faults out.old) (K.faults out.new) }
        ensures only { RoseOnlyBy RunStop.WriteFault result (K.faults out.old) (K.faults out.new) }
        ensures count { self.new.number ≤ self.old.number + 1 }
        ensures later { K.faults out.old ≤ K.faults out.new }
    {
        let done = self.on_line(rt, gang, line, out);
        self.keep_refused(line, done)
    }

    // A line has ended: it is counted, and what it asks is done.
    fn on_line<R: Threads + Sync, G: Gang, K: Sink>(
        &mut self,
        rt: &R,
        gang: &mut G,
        line: &[u8],
        out: &mut K,
    ) -> Result<(), RunStop>
        requires alive { self.old.world.spent ≡ false }
        requires goes { StepsGo (fresh self.old) }
        requires room { self.old.number ≤ most_bytes }
        ensures turn { Turns result (on_line (fresh self.old) line.now) self.old.line self.old.pending self.new (seen (writes self.old) (K.held out.old)) (seen (writes self.old) (K.held out.new)) }
        ensures counts { OnOk result (CountsOn (accepted_from (fresh self.old) (line.now ∷ [])) self.old self.new) }
        ensures fault { result ≡ Err RunStop.WriteFault → Rose (K.faults out.old) (K.faults out.new) }
        ensures only { RoseOnlyBy RunStop.WriteFault result (K.faults out.old) (K.faults out.new) }
        ensures count { self.new.number ≤ self.old.number + 1 }
        ensures later { K.faults out.old ≤ K.faults out.new }
    {
        // A law: it does nothing, and brings its clause.
        line_acts_fit();
        self.count_line();
        match read_line(self.alloc, line)? {
            None => Ok(()),
            Some(Command::Act { act }) => self.do_act(act, out),
            Some(Command::Run { steps }) => self.run(steps, out),
            Some(Command::Fan) => self.fan(rt, gang, out),
        }
    }

    // One more line has ended. This stands apart, so that what follows has to do with a whole runner.
    fn count_line(&mut self)
        requires room { self.old.number ≤ most_bytes }
        ensures counted { self.new ≡ record { world = self.old.world; number = self.old.number + 1; line = self.old.line; pending = self.old.pending; counts = self.old.counts } }
        ensures room { self.old.world.spent ≡ false → HasRoom self.new }
        ensures few { self.old.world.spent ≡ false → self.new.world.applied < most_commands }
    {
        self.number += 1;
    }

    // An act is applied; what it reports is counted, or waits, and is written once enough waits.
    fn do_act<K: Sink>(&mut self, act: Act, out: &mut K) -> Result<(), RunStop>
        requires alive { self.old.world.spent ≡ false }
        requires fit { IsFit act }
        requires room { HasRoom self.old }
        requires few { self.old.world.applied < most_commands }
        ensures turn { Turns result (run_by self.old act) self.old.line self.old.pending self.new (seen (writes self.old) (K.held out.old)) (seen (writes self.old) (K.held out.new)) }
        ensures counts { OnOk result (CountsOn (acts_by self.old (Command.Act act)) self.old self.new) }
        ensures more { OnOk result (OneMore self.old.world self.new.world) }
        ensures waits { length self.new.pending < most_pending }
        ensures fault { result ≡ Err RunStop.WriteFault → Rose (K.faults out.old) (K.faults out.new) }
        ensures only { RoseOnlyBy RunStop.WriteFault result (K.faults out.old) (K.faults out.new) }
        ensures count { self.new.number ≡ self.old.number }
        ensures later { K.faults out.old ≤ K.faults out.new }
    {
        self.report.clear();
        self.world.apply(self.number, act, &mut self.report)?;
        tell_lines(
            &mut self.counts,
            &self.world,
            &self.report,
            &mut self.pending,
        )?;
        write_if_enough(&mut self.pending, out)?;
        Ok(())
    }

    // All samples under way go to their ends; the one line that tells it is counted, or waits, and is written once enough waits.
    fn fan<R: Threads + Sync, G: Gang, K: Sink>(
        &mut self,
        rt: &R,
        gang: &mut G,
        out: &mut K,
    ) -> Result<(), RunStop>
        requires alive { self.old.world.spent ≡ false }
        ensures turn { Turns result (run_behind self.old (fan_step self.old.world.state self.old.number)) self.old.line self.old.pending self.new (seen (writes self.old) (K.held out.old)) (seen (writes self.old) (K.held out.new)) }
        ensures counts { OnOk result (CountsOn (acts_by self.old Command.Fan) self.old self.new) }
        ensures fault { result ≡ Err RunStop.WriteFault → Rose (K.faults out.old) (K.faults out.new) }
        ensures only { RoseOnlyBy RunStop.WriteFault result (K.faults out.old) (K.faults out.new) }
        ensures count { self.new.number ≡ self.old.number }
        ensures later { K.faults out.old ≤ K.faults out.new }
    {
        self.report.clear();
        self.world.fan(self.number, rt, gang, &mut self.report)?;
        tell_lines(
            &mut self.counts,
            &self.world,
            &self.report,
            &mut self.pending,
        )?;
        write_if_enough(&mut self.pending, out)?;
        Ok(())
    }

    // The steps of a run are done one by one, and what waits is written between them: a run of any length takes no more memory than
    // one step and what may wait.
    fn run<K: Sink>(&mut self, steps: u32, out: &mut K) -> Result<(), RunStop>
        requires alive { self.old.world.spent ≡ false }
        requires goes { RunsGo self.old.world.state }
        requires room { HasRoom self.old }
        requires short { self.old.number ≤ most_bytes + 1 }
        ensures turn { Turns result (run_behind self.old (applied self.old.world.state self.old.number (Command.Run steps))) self.old.line self.old.pending self.new (seen (writes self.old) (K.held out.old)) (seen (writes self.old) (K.held out.new)) }
        ensures counts { OnOk result (CountsOn (acts_by self.old (Command.Run steps)) self.old self.new) }
        ensures fault { result ≡ Err RunStop.WriteFault → Rose (K.faults out.old) (K.faults out.new) }
        ensures only { RoseOnlyBy RunStop.WriteFault result (K.faults out.old) (K.faults out.new) }
        ensures count { self.new.number ≡ self.old.number }
        ensures later { K.faults out.old ≤ K.faults out.new }
    {
        self.count_steps(steps)?;
        for done in 0..steps {
            if !self.do_next_step(out)? {
                return self.end_run(done, out);
            }
        }
        self.end_run(steps, out)
    }

    // The steps that a run asks for are counted, which is all for which it may be refused. This stands apart for the proof alone: of an answer
    // of a field that is passed on within a longer method too little is known.
    fn count_steps(&mut self, steps: u32) -> Result<(), ScriptError>
        requires alive { self.old.world.spent ≡ false }
        ensures books { Books result (book_step self.old.world.state steps) self.old.world self.new.world }
        ensures rest { self.new ≡ record { world = self.new.world; number = self.old.number; line = self.old.line; pending = self.old.pending; counts = self.old.counts } }
    {
        self.world.book(steps)
    }

    // The next step of a run is done, where one is possible; the answer says whether it was.
    #[tactic(auto, using(crate::proofs::Counting::no_step_counts, crate::proofs::Counting::one_step_counts))]
    fn do_next_step<K: Sink>(&mut self, out: &mut K) -> Result<bool, RunStop>
        requires alive { self.old.world.spent ≡ false }
        requires room { HasRoom self.old }
        requires few { self.old.world.applied < most_commands }
        ensures steps { StepsOn (next self.old.world.state) result self.old self.new (seen (writes self.old) (K.held out.old)) (seen (writes self.old) (K.held out.new)) }
        ensures counts { OnOk result (CountsOn (step_by self.old (next self.old.world.state)) self.old self.new) }
        ensures more { OnOk result (OneMore self.old.world self.new.world) }
        ensures fault { result ≡ Err RunStop.WriteFault → Rose (K.faults out.old) (K.faults out.new) }
        ensures only { RoseOnlyBy RunStop.WriteFault result (K.faults out.old) (K.faults out.new) }
        ensures count { self.new.number ≡ self.old.number }
        ensures later { K.faults out.old ≤ K.faults out.new }
    {
        match self.world.next() {
            None => Ok(false),
            Some(step) => {
                self.do_act(step, out)?;
                Ok(true)
            }
        }
    }

    // A run has ended: its last line says how many steps it did, and whether no step is possible any more.
    fn end_run<K: Sink>(&mut self, done: u32, out: &mut K) -> Result<(), RunStop>
        requires alive { self.old.world.spent ≡ false }
        ensures turn { Turns result (run_behind self.old (Ok (ReportLine.Ran done (is_none (next self.old.world.state)) ∷ [], self.old.world.state))) self.old.line self.old.pending self.new (seen (writes self.old) (K.held out.old)) (seen (writes self.old) (K.held out.new)) }
        ensures counts { (self.new.counts ≡ self.old.counts) × (self.new.world ≡ self.old.world) }
        ensures fault { result ≡ Err RunStop.WriteFault → Rose (K.faults out.old) (K.faults out.new) }
        ensures only { RoseOnlyBy RunStop.WriteFault result (K.faults out.old) (K.faults out.new) }
        ensures count { self.new.number ≡ self.old.number }
        ensures later { K.faults out.old ≤ K.faults out.new }
    {
        let quiet = is_quiet(&self.world);
        put_end(done, quiet, &mut self.pending)?;
        write_if_enough(&mut self.pending, out)?;
        Ok(())
    }

    // Where a line was refused it is kept, as far as it matters.
    fn keep_refused(&mut self, line: &[u8], done: Result<(), RunStop>) -> Result<(), RunStop>
        requires { parts line.now ≡ line.now ∷ [] }
        ensures kept { IsKeptIf done result line.now self.old self.new }
        ensures count { self.new.number ≡ self.old.number }
    {
        match done {
            Err(RunStop::Refused(_)) => {
                self.line.clear();
                self.keep_part(line)?;
                done
            }
            _ => done,
        }
    }

    // What has come of a line is kept, as far as it matters.
    fn keep_part(&mut self, part: &[u8]) -> Result<(), RunStop>
        requires { parts part.now ≡ part.now ∷ [] }
        ensures ok { OnOk result (self.new ≡ record { world = self.old.world; number = self.old.number; line = take most_kept (self.old.line ++ part.now); pending = self.old.pending; counts = self.old.counts }) }
        ensures err { OnErr result (result ≡ Err RunStop.NoMemory) }
        ensures count { self.new.number ≡ self.old.number }
    {
        let room = MOST_KEPT - self.line.len();
        let count = room.min(part.len());
        self.line.extend_from_slice(&part[..count])?;
        Ok(())
    }
}

impl From<AllocError> for RunStop {
    ghost use Rattle.std.specs.Prelude.{◌≡◌};
    ghost use Rattle.zr_netrun_lines.specs.declared.runner.RunStop.TheVariants.{NoMemory};

    ghost from_gives = { λ _ e. e ≡ NoMemory };

    fn from(_e: AllocError) -> RunStop {
        RunStop::NoMemory
    }
}

impl From<WriteFailed> for RunStop {
    ghost use Rattle.std.specs.Prelude.{◌≡◌};
    ghost use Rattle.zr_netrun_lines.specs.declared.runner.RunStop.TheVariants.{WriteFault};

    ghost from_gives = { λ _ e. e ≡ WriteFault };

    fn from(_e: WriteFailed) -> RunStop {
        RunStop::WriteFault
    }
}

impl From<ScriptError> for RunStop {
    ghost use Rattle.std.specs.Prelude.{◌≡◌};
    ghost use Rattle.zr_netrun_lines.specs.Kept.{stop_of};

    ghost from_gives = { λ error stop. stop ≡ stop_of error };

    fn from(error: ScriptError) -> RunStop {
        match error {
            ScriptError::NoMemory => RunStop::NoMemory,
            refusal => RunStop::Refused(refusal),
        }
    }
}

// The place of the first line end.
fn line_end(bytes: &[u8]) -> Option<usize>
    ensures { result ≡ position (λ b. b == 10) bytes.now }
{
    bytes.iter().position(|b| *b == b'\n')
}

// Whether a run does no further step.
fn is_quiet<C: Carrier>(world: &World<C>) -> bool
    requires { world.now.spent ≡ false }
    ensures { result ≡ is_none (next world.now.state) }
{
    world.next().is_none()
}

// The last line of a run waits behind what waited. Where memory runs out nothing more waits. This stands apart for the proof alone: a report
// line that is let go within a method leaves a case there for each of its variants.
fn put_end(done: u32, quiet: bool, pending: &mut Vec<u8>) -> Result<(), AllocError>
    ensures ok { OnOk result (pending.new.items ≡ pending.old.items ++ line_text (ReportLine.Ran done quiet)) }
    ensures err { OnErr result (pending.new.items ≡ pending.old.items) }
{
    line_text(&ReportLine::Ran { steps: done, quiet }, pending)
}
