//! The world of a script over wires that carry bytes: what is on a wire behind its acts.

ghost use Rattle.zr_law_calls.specs.Fitting.{IsFit};

use crate::row::name;
use std::alloc::{AllocError, Global};
use std::test::Fail;
use zr_law_carried::line_acts_fit;
use zr_netrun_batches::batches::Batches;
use zr_script::line::read_line;
use zr_script_spec::command::{Act, Command};
use zr_world::world::World;

/// The number of each line: nothing here looks at it.
const LINE: u64 = 1;

/// Two routers hear of each other, and 01 of a subscription at 02. Then 01 takes a sample on its way to 02.
static LINES: [&str; 19] = [
    "router 01",
    "router 02",
    "link 01 02",
    "up 01 02",
    "up 02 01",
    "client c1 01",
    "client c2 02",
    "sub c2 1 a/b",
    "handle 02 c2",
    "take 01 02",
    "handle 02 01",
    "take 02 01",
    "handle 01 02",
    "take 02 01",
    "handle 01 02",
    "mark",
    "put c1 a/b hi",
    "handle 01 c1",
    "take 01 02",
];

/// The batch of the sample behind its length. A FRAME with the second number of this way, since the record of 01 had the first; a DECLARE of the number 1
/// for `a/b`; a PUSH under that number along the tree of 01, with the PUT of `hi`.
const BATCH: &[u8] = b"\x13\x00\x25\x01\x1e\x20\x01\x00\x03a/b\xdd\x01\x57\x01\x01\x01\x02hi";

// The lines. A proof writes out a static at each step of a function that names it, so this one takes few.
fn lines() -> &'static [&'static str] {
    &LINES
}

// Whether the world takes the act.
fn is_applied(alloc: Global, world: &mut World<Batches>, act: Act) -> bool
    requires { IsFit act }
{
    let mut report = Vec::new(alloc);
    world.apply(LINE, act, &mut report).is_ok()
}

// Whether the line asks for an act that the world takes.
fn is_taken(alloc: Global, world: &mut World<Batches>, line: &[u8]) -> bool {
    // A law: it does nothing, and brings its clause.
    line_acts_fit();
    match read_line(alloc, line) {
        Ok(Some(Command::Act { act })) => is_applied(alloc, world, act),
        _ => false,
    }
}

// The number of the first line that isn't taken; that of all where there is none.
fn first_wrong(alloc: Global, world: &mut World<Batches>, lines: &[&str]) -> usize {
    for i in 0..lines.len() {
        if !is_taken(alloc, world, lines[i].as_bytes()) {
            return i;
        }
    }
    lines.len()
}

// Whether just the batch is on the wire from 01 to 02.
fn is_on_wire(wires: &Batches) -> Result<bool, AllocError> {
    let (from, to) = (name(1)?, name(2)?);
    match wires.bytes(from, to) {
        Some(bytes) => Ok(bytes == BATCH),
        None => Ok(false),
    }
}

#[test]
fn a_sample_goes_to_a_router_as_the_format_says(rt: HostRuntime) -> Result<(), Fail> {
    let lines = lines();
    let mut world = World::over(rt.alloc(), Batches::new(rt.alloc()));
    let wrong = first_wrong(rt.alloc(), &mut world, lines);
    assert!(rt; wrong == lines.len(), "line {wrong}");
    assert!(rt; is_on_wire(world.carrier())?);
    Ok(())
}
