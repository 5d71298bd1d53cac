//! The log of a link on the error output.

ghost use Rattle.std.specs.Prelude.{None};

use crate::line::{Severity, stamped};
use crate::queue::LogQueue;
use std::alloc::{AllocError, Global};
use std::net::SocketAddr;
use std::sync::{Arc, Wait};
use std::time::Clock;
use zr_outside::log::Log;

/// What the lines of a link that was given up contain.
const GIVEN_UP: [&str; 5] = [
    "closed here, ",
    " failed",
    "refused ",
    "out of memory",
    "no thread could be started",
];

/// Tells lines on the error output, each behind the time, a severity and the address of the link's peer. Telling one never waits for who reads them.
#[derive(Drop)]
pub struct ErrorLog<R: Wait + Clock + Drop> {
    rt: R,
    alloc: Global,
    queue: Option<Arc<LogQueue>>,
    address: Option<SocketAddr>,
    // how many lines there was no memory for; the queue counts those for which it had no room
    lost: u64,
}

impl<R: Wait + Clock + Drop> ErrorLog<R> {
    /// The log of a link to this address; none where the system doesn't tell it.
    pub(crate) fn new(
        rt: R,
        alloc: Global,
        queue: &Arc<LogQueue>,
        address: Option<SocketAddr>,
    ) -> ErrorLog<R> {
        ErrorLog {
            rt,
            alloc,
            queue: Arc::try_clone(queue).ok(),
            address,
            lost: 0,
        }
    }

    fn addressed(&self, line: &str) -> Result<String, AllocError> {
        let text = match self.address {
            Some(address) => format!(in self.alloc; "link {address}: {line}")?,
            None => format!(in self.alloc; "link: {line}")?,
        };
        stamped(&self.rt, self.alloc, severity(line), text.as_str())
    }

    // A line, or one more that the queue is to count as left out.
    fn put(&self, line: Option<String>) {
        if let Some(queue) = &self.queue {
            queue.put(&self.rt, line);
        }
    }
}

impl<R: Wait + Clock + Drop> Log for ErrorLog<R> {
    ghost held = { λ _. None };

    ghost lost = { λ l. l.lost };

    fn tell(&mut self, line: &str) {
        if self.queue.is_none() {
            self.lose();
            return;
        }
        match self.addressed(line) {
            Ok(text) => self.put(Some(text)),
            Err(_) => self.lose(),
        }
    }

    fn lose(&mut self) {
        self.lost = self.lost.saturating_add(1);
        self.put(None);
    }
}

fn severity(line: &str) -> Severity {
    if GIVEN_UP.iter().any(|words| line.contains(*words)) {
        Severity::Warn
    } else {
        Severity::Info
    }
}
