//! A host in memory.

ghost use Rattle.std.specs.Prelude.{◌≡◌, Some};
ghost use Rattle.zr_outside_mem.specs.Calls.{streams_of};

use crate::mem_calls::Calls;
use crate::mem_clock::MemClock;
use crate::mem_log::MemLog;
use rand_core::Rng;
use std::alloc::{AllocError, Global};
use std::collections::VecDeque;
use zr_outside::host::{Accepted, Answer, Call, Host};
use zr_outside::sink::Sink;
use zr_outside::source::Source;

/// A link in memory: where its bytes come from and where they go.
#[derive(Drop)]
pub struct MemLink<S, K> {
    pub source: S,
    pub sink: K,
}

/// Gives the links that it holds, clocks that begin alike, logs of their own, and one generator. It tells its calls as long as it has memory for them.
#[derive(Drop)]
pub struct MemHost<S: Source + Drop, K: Sink + Drop, W: Rng + Drop> {
    alloc: Global,
    accepted: VecDeque<MemLink<S, K>>,
    dialled: VecDeque<MemLink<S, K>>,
    clock: MemClock,
    words: Option<W>,
    can_listen: bool,
    failing: Vec<u64>,
    quiet: Vec<u64>,
    calls: Calls,
    accepts: u64,
    faults: u64,
    quiets: u64,
    ends: u64,
    lost_dials: u64,
}

impl<S: Source + Drop, K: Sink + Drop, W: Rng + Drop> MemHost<S, K, W> {
    /// A host that can listen, without links.
    pub fn new(alloc: Global, clock: MemClock, words: W) -> MemHost<S, K, W> {
        MemHost {
            alloc,
            accepted: VecDeque::new(alloc),
            dialled: VecDeque::new(alloc),
            clock,
            words: Some(words),
            can_listen: true,
            failing: Vec::new(alloc),
            quiet: Vec::new(alloc),
            calls: Calls::new(alloc),
            accepts: 0,
            faults: 0,
            quiets: 0,
            ends: 0,
            lost_dials: 0,
        }
    }

    /// It can't listen.
    pub fn deaf(mut self) -> MemHost<S, K, W> {
        self.can_listen = false;
        self
    }

    /// The accepts with these numbers, counted from 0, fail or are quiet.
    pub fn troubled(mut self, failing: Vec<u64>, quiet: Vec<u64>) -> MemHost<S, K, W> {
        self.failing = failing;
        self.quiet = quiet;
        self
    }

    /// One more link that it accepts, after those before. Accepting ends behind the last.
    pub fn accepts(&mut self, source: S, sink: K) -> Result<(), AllocError> {
        self.accepted.push_back(MemLink { source, sink })?;
        Ok(())
    }

    /// One more link that a dial gives, after those before. A dial behind the last is lost.
    pub fn dials(&mut self, source: S, sink: K) -> Result<(), AllocError> {
        self.dialled.push_back(MemLink { source, sink })?;
        Ok(())
    }

    /// Its calls so far, where it had memory for them.
    pub fn calls(&self) -> Option<&[Call]> {
        self.calls.get()
    }
}

impl<S: Source + Send + Drop, K: Sink + Send + Drop, W: Rng + Drop> Host for MemHost<S, K, W> {
    type In = S;

    type Out = K;

    type Time = MemClock;

    type Log = MemLog;

    type Words = W;

    ghost faults = { λ h. h.faults };

    ghost quiets = { λ h. h.quiets };

    ghost ends = { λ h. h.ends };

    ghost lost_dials = { λ h. h.lost_dials };

    ghost calls = { λ h. h.calls };

    ghost generators = { λ h. Some (streams_of (λ w. W.stream w) h.words) };

    fn listen(&mut self, address: &str) -> bool {
        let is_listening = self.can_listen;
        if !is_listening {
            self.faults = self.faults.saturating_add(1);
        }
        self.calls.listened(self.alloc, address, is_listening);
        is_listening
    }

    fn accept(&mut self) -> Accepted<S, K> {
        let call = self.accepts;
        self.accepts = self.accepts.saturating_add(1);
        if self.failing.contains(&call) {
            self.faults = self.faults.saturating_add(1);
            self.calls.accepted(Answer::Failed);
            return Accepted::Failed;
        }
        if self.quiet.contains(&call) {
            self.quiets = self.quiets.saturating_add(1);
            self.calls.accepted(Answer::Quiet);
            return Accepted::Quiet;
        }
        let Some(link) = self.accepted.pop_front() else {
            self.ends = self.ends.saturating_add(1);
            self.calls.accepted(Answer::End);
            return Accepted::End;
        };
        self.calls.accepted(Answer::Link);
        Accepted::Link(link.source, link.sink)
    }

    fn dial(&mut self, address: &str) -> Option<(S, K)> {
        let Some(link) = self.dialled.pop_front() else {
            self.lost_dials = self.lost_dials.saturating_add(1);
            self.calls.dialled(self.alloc, address, false);
            return None;
        };
        self.calls.dialled(self.alloc, address, true);
        Some((link.source, link.sink))
    }

    fn time(&mut self) -> MemClock {
        self.clock
    }

    fn log(&mut self, alloc: Global, _link: &S) -> MemLog {
        MemLog::new(alloc)
    }

    fn words(&mut self) -> Option<W> {
        let words = self.words.take();
        if words.is_none() {
            self.faults = self.faults.saturating_add(1);
        }
        words
    }
}
