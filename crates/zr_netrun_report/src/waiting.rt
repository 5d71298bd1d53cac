//! What waits of a report: its lines are counted, or else their texts wait, and are written once enough wait.

ghost use Rattle.std.specs.Prelude.{◌≡◌, ◌<◌, ◌≤◌, ◌++◌, [], true, length, nat_le, is_none, OnOk, OnErr};
ghost use Rattle.std.specs.List.{flat_map};
ghost use Rattle.std.specs.Option.{option_map};
ghost use Rattle.zr_script_spec.specs.Report.{line_text};
ghost use Rattle.zr_outside.specs.Counts.{Rose};
ghost use Rattle.zr_outside.specs.Told.{Appends, AppendsPrefix};
ghost use Rattle.zr_netrun_report.specs.Counted.{with_lines};
ghost use Rattle.zr_netrun_report.specs.Waiting.{most_pending, Written};

use crate::counts::Counts;
use std::alloc::AllocError;
use zr_carrier::carrier::Carrier;
use zr_outside::sink::{Sink, WriteFailed, write_all};
use zr_script::text::line_text;
use zr_script_spec::report::ReportLine;
use zr_world::world::World;

/// How much of a report waits at most between two acts: behind an act that leaves more, all of it is written.
const MOST_PENDING: usize = 65_536;

/// Report lines of this world are counted, where there are counts; else their texts wait behind what waited. Where memory runs out nothing
/// more waits.
pub fn tell_lines<C: Carrier>(
    counts: &mut Option<Counts>,
    world: &World<C>,
    report: &[ReportLine],
    pending: &mut Vec<u8>,
) -> Result<(), AllocError>
    ensures counts { counts.new ≡ option_map (λ c. with_lines world.now.state.routers c report.now) counts.old }
    ensures ok { OnOk result (is_none counts.old ≡ true → pending.new.items ≡ pending.old.items ++ flat_map line_text report.now) }
    ensures err { OnErr result (pending.new.items ≡ pending.old.items) }
{
    match counts {
        Some(counts) => {
            counts.add(report, world);
            Ok(())
        }
        None => put_lines(report, pending),
    }
}

// The texts of report lines wait behind what waited. Where memory runs out nothing more waits.
fn put_lines(report: &[ReportLine], pending: &mut Vec<u8>) -> Result<(), AllocError>
    ensures ok { OnOk result (pending.new.items ≡ pending.old.items ++ flat_map line_text report.now) }
    ensures err { OnErr result (pending.new.items ≡ pending.old.items) }
{
    let before = pending.len();
    for line in report {
        if line_text(line, pending).is_err() {
            pending.truncate(before);
            return Err(AllocError);
        }
    }
    Ok(())
}

/// What waits is written. After a failure nothing waits any more, of which a prefix was written.
pub fn write_out<K: Sink>(pending: &mut Vec<u8>, out: &mut K) -> Result<(), WriteFailed>
    ensures empty { pending.new.items ≡ [] }
    ensures ok { OnOk result (Appends pending.old.items (K.held out.old) (K.held out.new)) }
    ensures err { OnErr result (AppendsPrefix pending.old.items (K.held out.old) (K.held out.new)) }
    ensures fault { OnErr result (Rose (K.faults out.old) (K.faults out.new)) }
    ensures quiet { OnOk result (K.faults out.new ≡ K.faults out.old) }
    ensures later { K.faults out.old ≤ K.faults out.new }
{
    let written = write_all(out, pending);
    pending.clear();
    written
}

/// What waits is written, where it is 64 KiB or more. After a failure nothing waits any more, of which a prefix was written.
pub fn write_if_enough<K: Sink>(pending: &mut Vec<u8>, out: &mut K) -> Result<(), WriteFailed>
    ensures waits { length pending.new.items < most_pending }
    ensures ok { OnOk result (Written pending.old.items pending.new.items (K.held out.old) (K.held out.new)) }
    ensures err { OnErr result (AppendsPrefix pending.old.items (K.held out.old) (K.held out.new)) }
    ensures fault { OnErr result (Rose (K.faults out.old) (K.faults out.new)) }
    ensures quiet { OnOk result (K.faults out.new ≡ K.faults out.old) }
    ensures later { K.faults out.old ≤ K.faults out.new }
{
    if is_enough(pending) {
        return write_out(pending, out);
    }
    Ok(())
}

fn is_enough(pending: &[u8]) -> bool
    ensures { result ≡ nat_le most_pending (length pending.now) }
{
    pending.len() >= MOST_PENDING
}
