//! A pipe in memory: what is written to its one end is read from its other one.

ghost use Rattle.std.specs.Prelude.{◌≤◌, length};

use std::alloc::{AllocError, Global};
use std::sync::atomic::{AtomicBool, Ordering};
use std::sync::{Arc, Mutex, Wait};
use std::thread;
use zr_outside::sink::{Put, Sink};
use zr_outside::source::{Got, Source};

/// What has been written, and whether more may come. Threads share it.
#[derive(Drop)]
pub struct Pipe {
    bytes: Arc<Mutex<Vec<u8>>>,
    is_closed: Arc<AtomicBool>,
}

impl Pipe {
    pub fn new(alloc: Global) -> Result<Pipe, AllocError> {
        Ok(Pipe {
            bytes: Arc::new(alloc, Mutex::new(Vec::new(alloc)))?,
            is_closed: Arc::new(alloc, AtomicBool::new(false))?,
        })
    }

    /// The end that writes.
    pub fn sink<R: Wait + Drop>(&self, rt: R) -> Result<PipeSink<R>, AllocError> {
        let bytes = Arc::try_clone(&self.bytes)?;
        Ok(PipeSink {
            rt,
            bytes,
            faults: 0,
        })
    }

    /// The end that reads.
    pub fn source<R: Wait + Drop>(&self, rt: R) -> Result<PipeSource<R>, AllocError> {
        let bytes = Arc::try_clone(&self.bytes)?;
        let is_closed = Arc::try_clone(&self.is_closed)?;
        Ok(PipeSource {
            rt,
            bytes,
            is_closed,
            at: 0,
            reads: 0,
            quiets: 0,
            ends: 0,
        })
    }

    /// Nothing more comes behind what was written.
    pub fn close(&self) {
        self.is_closed.store(true, Ordering::SeqCst);
    }
}

/// The end of a pipe that writes.
#[derive(Drop)]
pub struct PipeSink<R: Wait + Drop> {
    rt: R,
    bytes: Arc<Mutex<Vec<u8>>>,
    faults: u64,
}

impl<R: Wait + Drop> Sink for PipeSink<R> {
    ghost use Rattle.std.specs.Prelude.{None};

    ghost held = { λ _. None };

    ghost faults = { λ s. s.faults };

    fn write(&mut self, from: &[u8]) -> Put {
        let taken = self.bytes.lock(&self.rt).extend_from_slice(from).is_ok();
        if taken {
            return Put::Took(from.len());
        }
        self.faults = self.faults.saturating_add(1);
        Put::Failed
    }
}

/// The end of a pipe that reads: quiet where nothing has come and more may come. It tells nothing of what is left.
#[derive(Drop)]
pub struct PipeSource<R: Wait + Drop> {
    rt: R,
    bytes: Arc<Mutex<Vec<u8>>>,
    is_closed: Arc<AtomicBool>,
    at: usize,
    reads: u64,
    quiets: u64,
    ends: u64,
}

// Copies what is held from a place on, as much as there is room for; the number of these bytes.
fn copy_from(held: &[u8], at: usize, into: &mut [u8]) -> usize
    ensures { result ≤ length into.old }
{
    let count = into.len().min(held.len().saturating_sub(at));
    if count == 0 {
        return 0;
    }
    into[..count].copy_from_slice(&held[at..at + count]);
    count
}

impl<R: Wait + Drop> PipeSource<R> {
    // Reads what has come; the number of these bytes.
    fn take(&self, into: &mut [u8]) -> usize
        ensures { result ≤ length into.old }
    {
        let held = self.bytes.lock(&self.rt);
        copy_from(held.as_slice(), self.at, into)
    }
}

impl<R: Wait + Drop> Source for PipeSource<R> {
    ghost use Rattle.std.specs.Prelude.{None};

    ghost left = { λ _. None };

    ghost reads = { λ s. s.reads };

    ghost faults = { λ _. 0 };

    ghost quiets = { λ s. s.quiets };

    ghost ends = { λ s. s.ends };

    fn read(&mut self, into: &mut [u8]) -> Got {
        self.reads = self.reads.saturating_add(1);
        // asked first: what is written before a pipe is closed is read
        let is_closed = self.is_closed.load(Ordering::SeqCst);
        let count = self.take(into);
        if count > 0 {
            self.at = self.at.saturating_add(count);
            return Got::Bytes(count);
        }
        if is_closed {
            self.ends = self.ends.saturating_add(1);
            return Got::End;
        }
        self.quiets = self.quiets.saturating_add(1);
        thread::yield_now();
        Got::Quiet
    }
}
