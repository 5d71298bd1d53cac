//! Sinks and logs in memory that a test looks at once threads have had them.

use crate::wire::joined;
use std::alloc::{AllocError, Global};
use std::sync::{Arc, Mutex, Wait};
use std::thread;
use zr_outside::log::Log;
use zr_outside::sink::{Put, Sink};
use zr_outside_brief::{Brief, BriefSink};
use zr_outside_mem::mem_log::MemLog;
use zr_outside_mem::mem_sink::MemSink;

/// How often a writer's log is looked at until its thread has told its end. Another thread may go first between two looks.
const MOST_LOOKS: u64 = 100_000_000;

/// A sink in memory that others look at.
#[derive(Drop)]
pub struct SeenSink<R: Wait + Drop> {
    rt: R,
    sink: Arc<Mutex<MemSink>>,
    faults: u64,
}

impl<R: Wait + Drop> Sink for SeenSink<R> {
    ghost use Rattle.std.specs.Prelude.{None};

    ghost held = { λ _. None };

    ghost faults = { λ s. s.faults };

    fn write(&mut self, from: &[u8]) -> Put {
        let put = self.sink.lock(&self.rt).write(from);
        if let Put::Failed = put {
            self.faults = self.faults.saturating_add(1);
        }
        put
    }
}

impl<R: Wait + Drop> BriefSink for SeenSink<R> {
    fn write_briefly(&mut self, from: &[u8]) -> Brief {
        match self.write(from) {
            Put::Took(count) => Brief::Took(count),
            Put::Failed => Brief::Failed,
        }
    }
}

/// A log in memory that others look at.
#[derive(Drop)]
pub struct SeenLog<R: Wait + Drop> {
    rt: R,
    log: Arc<Mutex<MemLog>>,
    lost: u64,
}

impl<R: Wait + Drop> Log for SeenLog<R> {
    ghost use Rattle.std.specs.Prelude.{None};

    ghost held = { λ _. None };

    ghost lost = { λ l. l.lost };

    fn tell(&mut self, line: &str) {
        self.log.lock(&self.rt).tell(line);
    }

    fn lose(&mut self) {
        self.lost = self.lost.saturating_add(1);
    }
}

/// What is to be seen of a link once its threads have ended: the lines of its reader's log and of its writer's, and what it was written.
#[derive(Clone, Copy)]
pub struct Want {
    pub reader: &'static str,
    pub writer: &'static str,
    pub written: &'static [&'static [u8]],
}

/// What the threads of a link leave.
#[derive(Drop)]
pub struct Seen {
    sink: Arc<Mutex<MemSink>>,
    reader: Arc<Mutex<MemLog>>,
    writer: Arc<Mutex<MemLog>>,
}

impl Seen {
    /// Nothing yet. The writes with these numbers, counted from 0, are to fail.
    pub fn new(alloc: Global, failing: &[u64]) -> Result<Seen, AllocError> {
        let sink = MemSink::new(alloc, failing.to_vec(alloc)?);
        Ok(Seen {
            sink: Arc::new(alloc, Mutex::new(sink))?,
            reader: Arc::new(alloc, Mutex::new(MemLog::new(alloc)))?,
            writer: Arc::new(alloc, Mutex::new(MemLog::new(alloc)))?,
        })
    }

    pub fn sink<R: Wait + Drop>(&self, rt: R) -> Result<SeenSink<R>, AllocError> {
        let sink = Arc::try_clone(&self.sink)?;
        Ok(SeenSink {
            rt,
            sink,
            faults: 0,
        })
    }

    pub fn reader_log<R: Wait + Drop>(&self, rt: R) -> Result<SeenLog<R>, AllocError> {
        seen_log(rt, &self.reader)
    }

    pub fn writer_log<R: Wait + Drop>(&self, rt: R) -> Result<SeenLog<R>, AllocError> {
        seen_log(rt, &self.writer)
    }

    /// Whether the link's threads leave this. The reader's has ended; that of its writer is waited for.
    pub fn is<R: Wait>(&self, rt: &R, alloc: Global, want: &Want) -> Result<bool, AllocError> {
        let is_ended = comes_to(rt, &self.writer, want.writer.as_bytes());
        let written = self.is_written(rt, alloc, want.written)?;
        Ok(is_ended && is_told(rt, &self.reader, want.reader.as_bytes()) && written)
    }

    /// Whether just these bytes were written.
    pub fn is_written<R: Wait>(
        &self,
        rt: &R,
        alloc: Global,
        parts: &[&[u8]],
    ) -> Result<bool, AllocError> {
        let want = joined(alloc, parts)?;
        Ok(is_held(rt, &self.sink, want.as_slice()))
    }
}

fn seen_log<R: Wait + Drop>(rt: R, log: &Arc<Mutex<MemLog>>) -> Result<SeenLog<R>, AllocError> {
    let log = Arc::try_clone(log)?;
    Ok(SeenLog { rt, log, lost: 0 })
}

fn is_held<R: Wait>(rt: &R, sink: &Arc<Mutex<MemSink>>, want: &[u8]) -> bool {
    sink.lock(rt).bytes() == want
}

fn is_told<R: Wait>(rt: &R, log: &Arc<Mutex<MemLog>>, want: &[u8]) -> bool {
    log.lock(rt).bytes() == want
}

// Whether a log comes to have just these lines.
fn comes_to<R: Wait>(rt: &R, log: &Arc<Mutex<MemLog>>, want: &[u8]) -> bool {
    for _ in 0..MOST_LOOKS {
        if is_told(rt, log, want) {
            return true;
        }
        thread::yield_now();
    }
    false
}
