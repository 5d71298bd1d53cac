//! What is told without a log too, a line a second at most: peers that the router refuses, and connections that it closes at once.

use crate::clock::SystemClock;
use crate::line::{Severity, stamped};
use crate::queue::LogQueue;
use std::alloc::{AllocError, Global};
use std::net::{SocketAddr, TcpStream};
use std::sync::{Arc, Mutex, Wait};
use std::{mem, time};
use zr_outside::clock::Clock;

/// How long it is quiet behind a line.
const QUIET_MS: u64 = 1_000;

/// The batch of a CLOSE of the whole session, behind its length, up to its reason.
const CLOSE: [u8; 3] = [2, 0, 0x23];

/// The reason of a peer whose identifier is up already.
const TWICE: u8 = 4;

/// Counts what a line may tell of, a line a second at most.
#[derive(Drop)]
pub(crate) struct Seldom<R: time::Clock + Drop> {
    clock: SystemClock<R>,
    count: u64,
    quiet_until: u64,
}

/// Tells of peers that are refused. Where the links have logs, these tell each of them.
#[derive(Drop)]
pub(crate) struct Refusals<R: time::Clock + Drop> {
    alloc: Global,
    has_log: bool,
    queue: Arc<LogQueue>,
    seldom: Mutex<Seldom<R>>,
}

impl<R: time::Clock + Drop> Seldom<R> {
    /// Nothing has come yet.
    pub(crate) fn new(rt: R) -> Seldom<R> {
        Seldom {
            clock: SystemClock::new(rt),
            count: 0,
            quiet_until: 0,
        }
    }

    /// One more has come: how many have since the last line, if there may be one now.
    pub(crate) fn next(&mut self) -> Option<u64> {
        self.count = self.count.saturating_add(1);
        let now = self.clock.now();
        if now < self.quiet_until {
            return None;
        }
        self.quiet_until = now.saturating_add(QUIET_MS);
        Some(mem::replace(&mut self.count, 0))
    }
}

impl<R: Wait + time::Clock + Copy + Drop> Refusals<R> {
    /// No peer was refused yet.
    pub(crate) fn new(
        rt: R,
        alloc: Global,
        queue: &Arc<LogQueue>,
        has_log: bool,
    ) -> Result<Arc<Refusals<R>>, AllocError> {
        let none = Refusals {
            alloc,
            has_log,
            queue: Arc::try_clone(queue)?,
            seldom: Mutex::new(Seldom::new(rt)),
        };
        Ok(Arc::new(alloc, none)?)
    }

    /// These bytes were written to a stream: where they refuse its peer, that is told.
    pub(crate) fn wrote(&self, rt: &R, bytes: &[u8], stream: &TcpStream) {
        if self.has_log {
            return;
        }
        if let Some(why) = refusal(bytes) {
            if let Some(count) = self.seldom.lock(rt).next() {
                self.queue.put(rt, self.line(rt, count, stream.peer_addr().ok(), why).ok());
            }
        }
    }

    fn line(
        &self,
        rt: &R,
        count: u64,
        peer: Option<SocketAddr>,
        why: &str,
    ) -> Result<String, AllocError> {
        let text = match peer {
            Some(address) => format!(in self.alloc;
                "peers refused: {count}, the last one {address}: {why}\n"
            )?,
            None => format!(in self.alloc; "peers refused: {count}, the last one: {why}\n")?,
        };
        stamped(rt, self.alloc, Severity::Warn, text.as_str())
    }
}

// Why bytes refuse a peer, where they do: they are a CLOSE with a reason that is given before a link comes up.
fn refusal(bytes: &[u8]) -> Option<&'static str> {
    match bytes.strip_prefix(&CLOSE) {
        Some([1]) => Some("its version or its role is not spoken"),
        Some([3]) => Some("there are as many sessions as may be"),
        Some([TWICE]) => Some("its identifier is up already"),
        _ => None,
    }
}

/// Whether bytes that a peer has written refuse this router as one that is up already.
pub(crate) fn refuses_twice(bytes: &[u8]) -> bool {
    match bytes.strip_prefix(&CLOSE) {
        Some([TWICE]) => true,
        _ => false,
    }
}
