//! `run_script`: a script from a source, its report or the summary of it to a sink, and why it is refused to another sink.

ghost use Rattle.std.specs.Prelude.{◌≡◌, ◌<◌, ◌≤◌, ◌⊎◌, IfOk};
ghost use Rattle.zr_outside.specs.Counts.{Rose};
ghost use Rattle.zr_outside.specs.Piece.{IsReadToEnd};
ghost use Rattle.zr_world_spec.specs.Run.{start};
ghost use Rattle.zr_netrun_lines.specs.Possible.{StepsGo};
ghost use Rattle.zr_netrun_lines.specs.Kept.{begun, seen, writes};
ghost use Rattle.zr_netrun.specs.Told.{Tells, Complains};
ghost use Rattle.zr_netrun.specs.Clauses.{OfRead, IsSummedUp, ReportsBeforeReads, WritesAsAsked};
ghost use Rattle.zr_netrun.specs.Ended.{IsEnded, TellsFailedWrites};
ghost use Rattle.zr_netrun.specs.Judged.{refusal_told};
ghost use Rattle.zr_netrun.specs.Counted.{CountsFromNone, IsRun, TellsSummary};

use crate::options::NetOptions;
use crate::status::Status;
use std::alloc::{AllocError, Global};
use std::thread::Threads;
use zr_carrier::carrier::Carrier;
use zr_law_numbers::steps_are_possible;
use zr_netrun_batches::batches::Batches;
use zr_netrun_lines::runner::{RunStop, Runner};
use zr_netrun_report::counts::Counts;
use zr_netrun_report::nowhere::Nowhere;
use zr_outside::piece::{Piece, next_piece};
use zr_outside::sink::{Sink, write_all};
use zr_outside::source::Source;
use zr_script::text::refused_text;
use zr_script_explain::explain;
use zr_script_spec::error::ScriptError;
use zr_world_gang::gang::Gang;

/// How many bytes a script has at most.
pub const MOST_BYTES: usize = 67_108_864;

/// What is told of a script that has more.
const TOO_LONG: &[u8] = b"script too long\n";

/// How many bytes are asked for in a read.
const MOST_A_READ: usize = 65_536;

/// Reads a script to its end, applies its lines as they come, and writes each report line before the next read; or, where a summary is
/// asked for, counts them, and writes nothing but the summary once the script has ended and no line was refused.
///
/// A refused line ends the run: `err` then has `line N: NUMBER NAME`, and its explanation behind it where that is asked for. So does a
/// script of more than 67,108,864 bytes, none of whose lines within them is refused: `err` has `script too long`. A status of fault comes
/// only where that count rose in this call, and a read or a write that fails ends the run by that status. Where a read fails no write has, and
/// what had ended is reported (`prompt`). A line `fan` is given the gang and what starts its threads; neither changes what is written.
/// What goes to a router goes in real frames through real sessions, cut into pieces.
pub fn run_script<R: Threads + Sync, G: Gang, S: Source, K: Sink, E: Sink>(
    rt: &R,
    gang: &mut G,
    alloc: Global,
    options: NetOptions,
    input: &mut S,
    out: &mut K,
    err: &mut E,
) -> Status
    ensures writes { WritesAsAsked options (S.left input.old) (S.left input.new) (IsReadToEnd (S.ends input.old) (S.ends input.new) (S.quiets input.old) (S.quiets input.new)) result (K.held out.old) (K.held out.new) (E.held err.old) (E.held err.new) }
    ensures ends { IsEnded (IsReadToEnd (S.ends input.old) (S.ends input.new) (S.quiets input.old) (S.quiets input.new)) result (S.faults input.old) (S.faults input.new) (K.faults out.old) (K.faults out.new) (E.faults err.old) (E.faults err.new) }
    ensures only { S.faults input.old < S.faults input.new → result ≡ Status.ReadFault }
    ensures only_write { TellsFailedWrites result (K.faults out.old) (K.faults out.new) (E.faults err.old) (E.faults err.new) }
    ensures prompt { ReportsBeforeReads options (S.left input.old) (S.left input.new) (K.held out.old) (K.held out.new) (S.faults input.old) (S.faults input.new) (K.faults out.old) (K.faults out.new) }
{
    let carrier = Batches::new(alloc);
    run_script_over(rt, gang, alloc, options, carrier, input, out, err)
}

/// The same over any carrier of the network's messages. Wires that it has already are never looked at.
#[tactic(auto, using(crate::proofs::Starting::from_start, crate::proofs::Asked::writes_report, crate::proofs::Asked::writes_summary))]
pub fn run_script_over<R: Threads + Sync, G: Gang, C: Carrier, S: Source, K: Sink, E: Sink>(
    rt: &R,
    gang: &mut G,
    alloc: Global,
    options: NetOptions,
    carrier: C,
    input: &mut S,
    out: &mut K,
    err: &mut E,
) -> Status
    ensures writes { WritesAsAsked options (S.left input.old) (S.left input.new) (IsReadToEnd (S.ends input.old) (S.ends input.new) (S.quiets input.old) (S.quiets input.new)) result (K.held out.old) (K.held out.new) (E.held err.old) (E.held err.new) }
    ensures ends { IsEnded (IsReadToEnd (S.ends input.old) (S.ends input.new) (S.quiets input.old) (S.quiets input.new)) result (S.faults input.old) (S.faults input.new) (K.faults out.old) (K.faults out.new) (E.faults err.old) (E.faults err.new) }
    ensures only { S.faults input.old < S.faults input.new → result ≡ Status.ReadFault }
    ensures only_write { TellsFailedWrites result (K.faults out.old) (K.faults out.new) (E.faults err.old) (E.faults err.new) }
    ensures prompt { ReportsBeforeReads options (S.left input.old) (S.left input.new) (K.held out.old) (K.held out.new) (S.faults input.old) (S.faults input.new) (K.faults out.old) (K.faults out.new) }
{
    if options.summary {
        return sum_up(rt, gang, alloc, options, carrier, input, out, err);
    }
    steps_are_possible();
    let mut runner = Runner::new(alloc, None, carrier);
    run_lines(rt, gang, alloc, options, &mut runner, input, out, err)
}

// The report is counted and goes nowhere; at the script's end the summary is written.
#[tactic(auto, using(crate::proofs::Starting::from_start))]
fn sum_up<R: Threads + Sync, G: Gang, C: Carrier, S: Source, K: Sink, E: Sink>(
    rt: &R,
    gang: &mut G,
    alloc: Global,
    options: NetOptions,
    carrier: C,
    input: &mut S,
    out: &mut K,
    err: &mut E,
) -> Status
    ensures summed_up { OfRead (S.left input.old) (S.left input.new) (IsSummedUp options.explain (IsReadToEnd (S.ends input.old) (S.ends input.new) (S.quiets input.old) (S.quiets input.new)) result (K.held out.old) (K.held out.new) (E.held err.old) (E.held err.new)) }
    ensures ends { IsEnded (IsReadToEnd (S.ends input.old) (S.ends input.new) (S.quiets input.old) (S.quiets input.new)) result (S.faults input.old) (S.faults input.new) (K.faults out.old) (K.faults out.new) (E.faults err.old) (E.faults err.new) }
    ensures only { S.faults input.old < S.faults input.new → result ≡ Status.ReadFault }
    ensures only_write { TellsFailedWrites result (K.faults out.old) (K.faults out.new) (E.faults err.old) (E.faults err.new) }
{
    steps_are_possible();
    let mut runner = Runner::new(alloc, Some(Counts::new()), carrier);
    match run_lines(
        rt,
        gang,
        alloc,
        options,
        &mut runner,
        input,
        &mut Nowhere,
        err,
    ) {
        Status::Done => tell_summary(alloc, runner.counts(), out),
        status => status,
    }
}

fn tell_summary<K: Sink>(alloc: Global, counts: Option<Counts>, out: &mut K) -> Status
    ensures tells { TellsSummary result counts (K.held out.old) (K.held out.new) }
    ensures write { result ≡ Status.WriteFault → Rose (K.faults out.old) (K.faults out.new) }
    ensures later { K.faults out.old ≤ K.faults out.new }
    ensures only_write { K.faults out.old < K.faults out.new → result ≡ Status.WriteFault }
{
    let Some(counts) = counts else {
        return Status::Done;
    };
    let mut text = Vec::new(alloc);
    if counts.put_summary(&mut text).is_err() {
        return Status::NoMemory;
    }
    match write_all(out, &text) {
        Ok(()) => Status::Done,
        Err(_) => Status::WriteFault,
    }
}

// Reads a script to its end, and applies its lines as they come, by a runner to which none has come yet.
fn run_lines<R: Threads + Sync, G: Gang, C: Carrier, S: Source, K: Sink, E: Sink>(
    rt: &R,
    gang: &mut G,
    alloc: Global,
    options: NetOptions,
    runner: &mut Runner<C>,
    input: &mut S,
    out: &mut K,
    err: &mut E,
) -> Status
    requires possible { StepsGo start }
    requires begins { runner.old ≡ begun runner.old.counts }
    requires counts { CountsFromNone runner.old.counts }
    ensures mode { result ≡ Status.Done → writes runner.new ≡ writes runner.old }
    ensures report { OfRead (S.left input.old) (S.left input.new) (IsRun options.explain (IsReadToEnd (S.ends input.old) (S.ends input.new) (S.quiets input.old) (S.quiets input.new)) result (seen (writes runner.old) (K.held out.old)) (seen (writes runner.old) (K.held out.new)) (E.held err.old) (E.held err.new) runner.new) }
    ensures ends { IsEnded (IsReadToEnd (S.ends input.old) (S.ends input.new) (S.quiets input.old) (S.quiets input.new)) result (S.faults input.old) (S.faults input.new) (K.faults out.old) (K.faults out.new) (E.faults err.old) (E.faults err.new) }
    ensures only { S.faults input.old < S.faults input.new → result ≡ Status.ReadFault }
    ensures only_write { TellsFailedWrites result (K.faults out.old) (K.faults out.new) (E.faults err.old) (E.faults err.new) }
{
    let mut piece = [0; MOST_A_READ];
    let mut total: usize = 0;
    'reading: loop {
        match next_piece(input, &mut piece) {
            Piece::Bytes(count) => {
                let used = count.min(MOST_BYTES - total);
                total += used;
                match runner.feed(rt, gang, &piece[..used], out) {
                    Ok(()) => {}
                    Err(stop) => return tell(alloc, options, runner, stop, out, err),
                }
                if used < count {
                    return complain(TOO_LONG, err);
                }
            }
            Piece::End => break,
            Piece::Failed => return Status::ReadFault,
        }
    }
    match runner.finish(rt, gang, out) {
        Ok(()) => Status::Done,
        Err(stop) => tell(alloc, options, runner, stop, out, err),
    }
}

// A run has stopped: what waits is written, and then why its last line is refused, where it is.
fn tell<C: Carrier, K: Sink, E: Sink>(
    alloc: Global,
    options: NetOptions,
    runner: &mut Runner<C>,
    stop: RunStop,
    out: &mut K,
    err: &mut E,
) -> Status
    ensures tells { Tells stop result (refusal_told options.explain runner.old.number runner.old.line) runner.old.pending (K.held out.old) (K.held out.new) (E.held err.old) (E.held err.new) }
    ensures stops { (result ≡ Status.Done) → ⊥ }
    ensures write { result ≡ Status.WriteFault → (stop ≡ RunStop.WriteFault) ⊎ (Rose (K.faults out.old) (K.faults out.new) ⊎ Rose (E.faults err.old) (E.faults err.new)) }
    ensures out_later { K.faults out.old ≤ K.faults out.new }
    ensures err_later { E.faults err.old ≤ E.faults err.new }
    ensures fault { stop ≡ RunStop.WriteFault → result ≡ Status.WriteFault }
    ensures only_write { TellsFailedWrites result (K.faults out.old) (K.faults out.new) (E.faults err.old) (E.faults err.new) }
{
    match stop {
        RunStop::NoMemory => Status::NoMemory,
        RunStop::WriteFault => Status::WriteFault,
        RunStop::Refused(error) => {
            if runner.flush(out).is_err() {
                return Status::WriteFault;
            }
            tell_refusal(alloc, options, runner, error, err)
        }
    }
}

// Why a line is refused, which is the last that has ended, and its explanation where that is asked for.
fn refusal_told<C: Carrier>(
    alloc: Global,
    options: NetOptions,
    runner: &Runner<C>,
    error: ScriptError,
) -> Result<Vec<u8>, AllocError>
    ensures { IfOk result (λ text. text.items ≡ refusal_told options.explain runner.now.number runner.now.line error) }
{
    let mut text = Vec::new(alloc);
    refused_text(runner.number(), error, &mut text)?;
    if options.explain {
        let explanation = explain(alloc, runner.line(), error)?;
        text.extend_from_slice(explanation.as_slice())?;
    }
    Ok(text)
}

fn tell_refusal<C: Carrier, E: Sink>(
    alloc: Global,
    options: NetOptions,
    runner: &Runner<C>,
    error: ScriptError,
    err: &mut E,
) -> Status
    ensures tells { Complains result (refusal_told options.explain runner.now.number runner.now.line error) (E.held err.old) (E.held err.new) }
    ensures write { result ≡ Status.WriteFault → Rose (E.faults err.old) (E.faults err.new) }
    ensures later { E.faults err.old ≤ E.faults err.new }
    ensures only_write { E.faults err.old < E.faults err.new → result ≡ Status.WriteFault }
{
    match refusal_told(alloc, options, runner, error) {
        Ok(text) => complain(&text, err),
        Err(_) => Status::NoMemory,
    }
}

// What is wrong with the script is told.
fn complain<E: Sink>(text: &[u8], err: &mut E) -> Status
    ensures tells { Complains result text.now (E.held err.old) (E.held err.new) }
    ensures stops { (result ≡ Status.Done) → ⊥ }
    ensures write { result ≡ Status.WriteFault → Rose (E.faults err.old) (E.faults err.new) }
    ensures memory { result ≡ Status.NoMemory → ⊥ }
    ensures later { E.faults err.old ≤ E.faults err.new }
    ensures only_write { E.faults err.old < E.faults err.new → result ≡ Status.WriteFault }
{
    match write_all(err, text) {
        Ok(()) => Status::Refused,
        Err(_) => Status::WriteFault,
    }
}
