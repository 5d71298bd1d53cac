//! The program: its words, its real sources, sinks and links, and the status with which it ends.
//! What it promises stands at `run`.
#![tactic(auto)]

mod answer;
mod asked;
mod edge;
mod run;

use crate::edge::{
    collect_words, end, explain_words, has_option, is_serve, with_identifier, without_name,
};
use crate::run::run;
use std::alloc::AllocError;
use std::process::ExitCode;
use std::random::RandomSource;
use std::{env, io};
use zr_netrun::status::Status;
use zr_outside::std_streams::{ReadSource, WriteSink};
use zr_outside_crew::Crew;
use zr_tcp::TcpHost;

fn main(rt: HostRuntime) -> ExitCode {
    let alloc = rt.alloc();
    let mut err = WriteSink::new(rt.stderr());
    let words = match identified_words(&rt) {
        Ok(words) => words,
        Err(status) => return end(status, &mut err),
    };
    let mut input = ReadSource::new(rt.stdin());
    let mut out = WriteSink::new(rt.stdout());
    let Ok(mut host) = TcpHost::new(rt, alloc, rt.stderr(), has_option(&words, "--log")) else {
        return end(Status::NoMemory, &mut err);
    };
    if is_serve(&words) {
        host.start();
    }
    let Ok(mut crew) = Crew::new(rt, alloc) else {
        return end(Status::NoMemory, &mut err);
    };
    let status = run(
        rt,
        alloc,
        without_name(&words),
        &mut input,
        &mut out,
        &mut err,
        &mut host,
        &mut crew,
    );
    if status == Status::Words {
        explain_words(alloc, &words, &mut err);
    }
    end(status, &mut err)
}

// The program's words. A router that is asked for without an identifier is given a random one, since a new process is to have a new one.
fn identified_words(rt: &HostRuntime) -> Result<Vec<String>, Status> {
    let Ok(words) = words(rt) else {
        return Err(Status::NoMemory);
    };
    if !is_serve(&words) || has_option(&words, "--id") {
        return Ok(words);
    }
    let mut random = [0u8; 16];
    if rt.fill_bytes(&mut random).is_err() {
        return Err(Status::HostFault);
    }
    match with_identifier(rt.alloc(), words, random) {
        Ok(words) => Ok(words),
        Err(_) => Err(Status::NoMemory),
    }
}

// The program's words, its name the first of them. One that is not UTF-8 is none that the program takes: then there are none, not even the name.
fn words(rt: &HostRuntime) -> Result<Vec<String>, AllocError> {
    match env::args(rt) {
        Ok(words) => collect_words(rt.alloc(), words),
        Err(e) if e.kind() == io::ErrorKind::OutOfMemory => Err(AllocError),
        Err(_) => Ok(Vec::new(rt.alloc())),
    }
}
