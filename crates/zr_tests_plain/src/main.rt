//! `net` over wires that keep messages as they are. The program's own wires carry bytes; `tests/program` judges each row of a script with both.
#![tactic(auto)]

use std::alloc::AllocError;
use std::process::ExitCode;
use std::{env, io};
use zr_carrier::plain::Plain;
use zr_netrun::netrun::run_script_over;
use zr_netrun::options::NetOptions;
use zr_netrun::status::Status;
use zr_outside::std_streams::{ReadSource, WriteSink};
use zr_world_gang::one_by_one::OneByOne;

fn main(rt: HostRuntime) -> ExitCode {
    let alloc = rt.alloc();
    let Ok(words) = words(&rt) else {
        return ExitCode::from(Status::NoMemory.number());
    };
    let options = options_of(&words);
    let mut input = ReadSource::new(rt.stdin());
    let mut out = WriteSink::new(rt.stdout());
    let mut err = WriteSink::new(rt.stderr());
    let plain = Plain::new(alloc);
    let mut gang = OneByOne;
    let status = run_script_over(
        &rt, &mut gang, alloc, options, plain, &mut input, &mut out, &mut err,
    );
    ExitCode::from(status.number())
}

// The words, none where they can't be read.
fn words(rt: &HostRuntime) -> Result<Vec<String>, AllocError> {
    match env::args(rt) {
        Ok(words) => words.collect(rt.alloc()),
        Err(e) if e.kind() == io::ErrorKind::OutOfMemory => Err(AllocError),
        Err(_) => Ok(Vec::new(rt.alloc())),
    }
}

fn options_of(words: &[String]) -> NetOptions {
    NetOptions {
        summary: has(words, "--summary"),
        explain: has(words, "--explain"),
    }
}

fn has(words: &[String], wanted: &str) -> bool {
    words.iter().any(|word| word.as_str() == wanted)
}
