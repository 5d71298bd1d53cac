//! A host in memory, and its calls as letters.

use rand_chacha::ChaCha20Rng;
use rand_core::SeedableRng;
use std::alloc::{AllocError, Global};
use std::test::Fail;
use zr_outside::host::{Answer, Call, Host};
use zr_outside::sink::Sink;
use zr_outside_mem::mem_clock::MemClock;
use zr_outside_mem::mem_host::MemHost;
use zr_outside_mem::mem_sink::MemSink;
use zr_outside_mem::mem_source::MemSource;

pub type TestHost = MemHost<MemSource, MemSink, ChaCha20Rng>;

/// A source of these bytes, one a read.
pub fn source(alloc: Global, bytes: Vec<u8>) -> MemSource {
    MemSource::new(bytes, 1, Vec::new(alloc), Vec::new(alloc))
}

fn nothing(alloc: Global) -> MemSource {
    source(alloc, Vec::new(alloc))
}

pub fn sink(alloc: Global) -> MemSink {
    MemSink::new(alloc, Vec::new(alloc))
}

/// A host without links. Its random words are those of ChaCha under 32 bytes 07.
pub fn no_host<K: Sink + Drop>(alloc: Global) -> MemHost<MemSource, K, ChaCha20Rng> {
    let words = ChaCha20Rng::from_seed([7; 32]);
    MemHost::new(alloc, MemClock::new(0, 100), words)
}

// Adds two links that come and one that is dialled; whether there was memory for them.
fn has_links(alloc: Global, host: &mut TestHost) -> bool {
    let first = host.accepts(nothing(alloc), sink(alloc)).is_ok();
    let second = host.accepts(nothing(alloc), sink(alloc)).is_ok();
    let dialled = host.dials(nothing(alloc), sink(alloc)).is_ok();
    first && second && dialled
}

/// A host with two links that come and one that is dialled, where the accepts with these numbers fail or are quiet.
pub fn host(alloc: Global, failing: &[u64], quiet: &[u64]) -> Result<TestHost, AllocError> {
    let failing = failing.to_vec(alloc)?;
    let quiet = quiet.to_vec(alloc)?;
    let mut host = no_host(alloc);
    let has_links = has_links(alloc, &mut host);
    if has_links {
        Ok(host.troubled(failing, quiet))
    } else {
        Err(AllocError)
    }
}

// Whether the calls are those of the letters: what each was and what it gave.
fn are_calls(calls: &[Call], letters: &[u8]) -> bool {
    if calls.len() != letters.len() {
        return false;
    }
    for i in 0..calls.len() {
        if letter(&calls[i]) != letters[i] {
            return false;
        }
    }
    true
}

fn letter(call: &Call) -> u8 {
    match call {
        Call::Listen { is_listening, .. } => { if *is_listening { b'L' } else { b'l' } }
        Call::Dial { is_link, .. } => { if *is_link { b'D' } else { b'd' } }
        Call::Accept { answer } => match answer {
            Answer::Link => b'A',
            Answer::Quiet => b'q',
            Answer::End => b'e',
            Answer::Failed => b'f',
        },
    }
}

fn accepts(host: &mut TestHost) {
    for _ in 0..5u32 {
        let _ = host.accept();
    }
}

fn dials(host: &mut TestHost, address: &str) -> bool {
    host.dial(address).is_some()
}

fn has_words(host: &mut TestHost) -> bool {
    host.words().is_some()
}

// Whether it listens, dials once, accepts two links, is quiet and fails where it is to, gives its words once, and tells its calls.
fn is_in_order(host: &mut TestHost) -> bool {
    let is_listening = host.listen("here");
    let is_link = dials(host, "there");
    let is_lost = !dials(host, "nowhere");
    accepts(host);
    let has_words_once = has_words(host) && !has_words(host);
    is_listening
        && is_link
        && is_lost
        && has_words_once
        && are_calls(host.calls().unwrap_or(&[]), b"LDdAqfAe")
}

#[test]
fn a_host_in_memory_tells_its_calls(rt: HostRuntime) -> Result<(), Fail> {
    let mut host = host(rt.alloc(), &[2], &[1])?;
    assert!(rt; is_in_order(&mut host));
    Ok(())
}
