//! The lines that wait for the error output.

use crate::line::{Severity, stamped};
use std::alloc::{AllocError, Global};
use std::io::{Stderr, Write};
use std::sync::{Arc, Mutex, Wait};
use std::thread::{Parker, Threads};
use std::time::{Clock, Duration};
use std::{mem, thread};

/// How many lines may wait: four for each of the streams that may be open.
const MOST_LINES: usize = 1_024;

/// How long the thread that writes rests, unless a line wakes it.
const REST_MS: u64 = 1_000;

/// Lines on their way to the error output. Who tells one never waits for it: a thread of its own writes them, a line in one write.
#[derive(Drop)]
pub(crate) struct LogQueue {
    waiting: Mutex<Waiting>,
    bell: Parker,
}

/// The lines that wait, and how many behind them were left out. None is put behind one that was left out until these are taken.
#[derive(Drop)]
struct Waiting {
    lines: Vec<String>,
    left_out: u64,
}

impl Waiting {
    fn none(alloc: Global) -> Waiting {
        Waiting {
            lines: Vec::new(alloc),
            left_out: 0,
        }
    }

    fn is_empty(&self) -> bool {
        self.lines.is_empty() && self.left_out == 0
    }

    fn put(&mut self, line: Option<String>) {
        if !self.is_put(line) {
            self.left_out = self.left_out.saturating_add(1);
        }
    }

    fn is_put(&mut self, line: Option<String>) -> bool {
        if self.left_out > 0 || self.lines.len() >= MOST_LINES {
            return false;
        }
        match line {
            Some(line) => self.lines.push(line).is_ok(),
            None => false,
        }
    }
}

impl LogQueue {
    /// No line waits.
    pub(crate) fn new(alloc: Global) -> Result<Arc<LogQueue>, AllocError> {
        let none = LogQueue {
            waiting: Mutex::new(Waiting::none(alloc)),
            bell: Parker::new(),
        };
        Ok(Arc::new(alloc, none)?)
    }

    /// Puts a line behind those that wait; where there is no room it is left out and counted, and so is one for which there was no memory.
    pub(crate) fn put<R: Wait>(&self, rt: &R, line: Option<String>) {
        self.waiting.lock(rt).put(line);
        self.bell.unpark();
    }

    /// Starts the thread that writes the lines. It ends with the process. Where there can be none, no line is written.
    pub(crate) fn start<R: Threads + Wait + Clock + Copy + Send + Drop + 'static>(
        rt: R,
        alloc: Global,
        queue: &Arc<LogQueue>,
        err: Stderr,
    ) {
        if let Ok(theirs) = Arc::try_clone(queue) {
            let _ = thread::spawn(&rt, move || theirs.write_on(&rt, alloc, err));
        }
    }

    fn write_on<R: Wait + Clock>(&self, rt: &R, alloc: Global, mut err: Stderr) {
        for _ in rt.forever() {
            let waiting = self.take(rt, alloc);
            if waiting.is_empty() {
                self.bell.park_timeout(rt, Duration::from_millis(REST_MS));
            } else {
                write(rt, alloc, &waiting, &mut err);
            }
        }
    }

    fn take<R: Wait>(&self, rt: &R, alloc: Global) -> Waiting {
        mem::replace(&mut *self.waiting.lock(rt), Waiting::none(alloc))
    }
}

// Where nobody reads the error output, nobody is to be told.
fn write<R: Clock>(rt: &R, alloc: Global, waiting: &Waiting, err: &mut Stderr) {
    for line in &waiting.lines {
        let _ = err.write_all(line.as_bytes());
    }
    let count = waiting.left_out;
    if count > 0 {
        if let Ok(text) = format!(in alloc; "{count} lines were left out\n") {
            if let Ok(line) = stamped(rt, alloc, Severity::Warn, text.as_str()) {
                let _ = err.write_all(line.as_bytes());
            }
        }
    }
}
