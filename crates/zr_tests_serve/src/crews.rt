ghost use Rattle.std.specs.Prelude.{◌≡◌, IfOk};

use std::alloc::{AllocError, Global};
use std::sync::Wait;
use std::test::Fail;
use std::thread::Threads;
use zr_outside::sink::Sink;
use zr_outside::source::{Got, Source};
use zr_outside_crew::{Crew, Job};
use zr_outside_mem::gate::{Gate, GateSink, GateSource, Part};
use zr_outside_mem::mem_sink::MemSink;

/// A source of one byte, which comes once a byte went through the gate.
fn source_of(alloc: Global, gate: &Gate) -> Result<GateSource, AllocError> {
    let part = Part {
        after: 1,
        bytes: vec![in alloc; 9]?,
    };
    Ok(GateSource::new(gate.share()?, vec![in alloc; part]?))
}

/// Waits for nothing, and writes one byte.
#[derive(Drop)]
struct Putter {
    sink: GateSink<MemSink>,
    number: u8,
}

/// Reads from a source until it gives bytes, and then does as a putter.
#[derive(Drop)]
struct Relay {
    source: GateSource,
    putter: Putter,
}

impl Job<u8, ()> for Putter {
    ghost told = { λ p. p.number };
}

impl Job<u8, ()> for Relay {
    ghost told = { λ r. r.putter.number };
}

// A job that writes through a gate and is told as this number.
fn put_through(alloc: Global, to: &Gate, number: u8) -> Result<Putter, AllocError>
    ensures { IfOk result (λ p. p.number ≡ number) }
{
    let sink = GateSink::new(MemSink::new(alloc, Vec::new(alloc)), to.share()?);
    Ok(Putter { sink, number })
}

const MOST_READS: u64 = 100_000_000_000;

fn pass_on(job: Relay) {
    let Relay { mut source, putter } = job;
    for _ in 0..MOST_READS {
        let mut into = [0u8; 1];
        if let Got::Bytes(_) = source.read(&mut into) {
            begin(putter);
            return;
        }
    }
}

fn begin(job: Putter) {
    let Putter { mut sink, .. } = job;
    let _ = sink.write(&[9]);
}

// Starts a job that passes a byte on from one gate to the other; whether it was started.
fn relays<R: Threads + Wait + Drop + 'static>(
    alloc: Global,
    from: &Gate,
    to: &Gate,
    crew: &mut Crew<R, u8>,
    number: u8,
) -> Result<bool, AllocError> {
    let source = source_of(alloc, from)?;
    let job = Relay {
        source,
        putter: put_through(alloc, to, number)?,
    };
    Ok(crew.start(job, number, |job: Relay| pass_on(job)).is_ok())
}

// Starts a job that writes a byte through a gate; whether it was started.
fn begins<R: Threads + Wait + Drop + 'static>(
    alloc: Global,
    gate: &Gate,
    crew: &mut Crew<R, u8>,
    number: u8,
) -> Result<bool, AllocError> {
    let job = put_through(alloc, gate, number)?;
    Ok(crew.start(job, number, |job: Putter| begin(job)).is_ok())
}

// Starts a job that waits for what a second one writes, that one, and a third; whether the first two were started and the third refused.
fn started<R: Threads + Wait + Drop + 'static>(
    alloc: Global,
    first: &Gate,
    second: &Gate,
    crew: &mut Crew<R, u8>,
) -> Result<bool, AllocError> {
    let relayed = relays(alloc, first, second, crew, 1)?;
    let begun = begins(alloc, first, crew, 2)?;
    let refused = !relays(alloc, first, second, crew, 3)?;
    Ok(relayed && begun && refused)
}

// Whether both gates let a byte through, and the crew tells both jobs.
fn has_run<R: Threads + Wait + Drop + 'static>(
    first: &Gate,
    second: &Gate,
    crew: &Crew<R, u8>,
) -> bool {
    first.count() == 1 && second.count() == 1 && crew.told().unwrap_or(&[]) == [1, 2].as_slice()
}

// Whether a crew with room for two jobs starts two, refuses a third, and runs both at once.
fn runs_two<R: Threads + Wait + Drop + 'static>(rt: R, alloc: Global) -> Result<bool, AllocError> {
    let first = Gate::new(alloc)?;
    let second = Gate::new(alloc)?;
    let mut crew: Crew<R, u8> = Crew::telling(rt, alloc, vec![in alloc; 2]?)?;
    let started = started(alloc, &first, &second, &mut crew)?;
    crew.wait();
    Ok(started && has_run(&first, &second, &crew))
}

#[test]
fn a_crew_runs_its_jobs_at_once(rt: HostRuntime) -> Result<(), Fail> {
    assert!(rt; runs_two(rt, rt.alloc())?);
    Ok(())
}
