//! `Counts`: what a summary tells of a report.

ghost use Rattle.std.specs.Prelude.{◌≡◌, ◌++◌, OnOk};
ghost use Rattle.zr_netrun_report.specs.Counted.{no_counts, with_kinds, with_line, with_lines, with_taken};
ghost use Rattle.zr_netrun_report.specs.Summary.{count_text, summary_text};

use itoa::Buffer;
use std::alloc::AllocError;
use zr_carrier::carrier::Carrier;
use zr_script_spec::report::{FanSteps, ReportLine};
use zr_world::world::World;

/// How many lines of a report are of each kind that a summary tells. A count stands still at 2^64 - 1.
#[derive(Clone, Copy, Debug, PartialEq, Eq)]
pub struct Counts {
    /// Messages that routers have handled.
    pub handled: u64,
    /// Messages of routers that went onto the wire to a router.
    pub taken: u64,
    /// Messages of routers that were sent to a client.
    pub sent: u64,
    /// Phases that have begun.
    pub marks: u64,
}

impl Counts {
    /// Nothing is counted yet.
    pub fn new() -> Counts
        ensures { result ≡ no_counts }
    {
        Counts {
            handled: 0,
            taken: 0,
            sent: 0,
            marks: 0,
        }
    }

    /// Counts report lines of this world.
    pub fn add<C: Carrier>(&mut self, report: &[ReportLine], world: &World<C>)
        ensures { self.new ≡ with_lines world.now.state.routers self.old report.now }
    {
        for line in report {
            self.add_line(line, world);
        }
    }

    fn add_line<C: Carrier>(&mut self, line: &ReportLine, world: &World<C>)
        ensures { self.new ≡ with_line world.now.state.routers self.old line.now }
    {
        match line {
            ReportLine::Handled { .. } => self.handled = self.handled.saturating_add(1),
            ReportLine::Taken { to, .. } => self.add_taken(world.is_router(to)),
            ReportLine::Fanned { kinds, .. } => self.add_fan(kinds),
            ReportLine::Mark { .. } => self.marks = self.marks.saturating_add(1),
            ReportLine::Ran { .. }
            | ReportLine::Show { .. }
            | ReportLine::Record { .. }
            | ReportLine::Parent { .. }
            | ReportLine::Source { .. } => {}
        }
    }

    fn add_fan(&mut self, kinds: &FanSteps)
        ensures { self.new ≡ with_kinds self.old kinds.now }
    {
        self.handled = self.handled.saturating_add(kinds.handled);
        self.taken = self.taken.saturating_add(kinds.taken);
        self.sent = self.sent.saturating_add(kinds.sent);
    }

    fn add_taken(&mut self, by_router: bool)
        ensures { self.new ≡ with_taken by_router self.old }
    {
        if by_router {
            self.taken = self.taken.saturating_add(1);
        } else {
            self.sent = self.sent.saturating_add(1);
        }
    }

    /// Appends the four lines of the summary.
    pub fn put_summary(&self, out: &mut Vec<u8>) -> Result<(), AllocError>
        ensures { OnOk result (out.new.items ≡ out.old.items ++ summary_text self.now) }
    {
        put_count(b"handled", self.handled, out)?;
        put_count(b"taken", self.taken, out)?;
        put_count(b"sent", self.sent, out)?;
        put_count(b"marks", self.marks, out)
    }
}

fn put_count(word: &[u8], count: u64, out: &mut Vec<u8>) -> Result<(), AllocError>
    ensures { OnOk result (out.new.items ≡ out.old.items ++ count_text word.now count) }
{
    let mut buffer = Buffer::new();
    out.extend_from_slice(word)?;
    out.extend_from_slice(b" ")?;
    out.extend_from_slice(buffer.format(count).as_bytes())?;
    out.extend_from_slice(b"\n")
}
