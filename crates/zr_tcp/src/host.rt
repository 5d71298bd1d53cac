//! A host over TCP.

ghost use Rattle.std.specs.Prelude.{◌≡◌, ℕ, List, None, true, is_none, IfSome};
ghost use Rattle.rand_chacha.specs.ChaCha.{of_seed};
ghost use Rattle.zr_outside.specs.Counts.{Counted};

use crate::clock::SystemClock;
use crate::door::{Came, Door};
use crate::log::ErrorLog;
use crate::random::SystemRandom;
use crate::stream::{TcpSink, TcpSource};
use rand_chacha::ChaCha20Rng;
use rand_core::{SeedableRng, TryRng};
use std::alloc::{AllocError, Global};
use std::io::Stderr;
use std::net::{Net, TcpListener, TcpStream};
use std::random::RandomSource;
use std::sync::Wait;
use std::thread::Threads;
use std::time;
use zr_outside::host::{Accepted, Host};

/// Listens, accepts and dials over TCP. Its accepts never end. Its random words have a seed from a source of its own, by default the system.
#[derive(Drop)]
pub struct TcpHost<
    R: Net<Listener = TcpListener, Stream = TcpStream> + Wait + time::Clock + Drop,
    S: TryRng + Drop,
> {
    rt: R,
    door: Door<R>,
    random: S,
    faults: u64,
    quiets: u64,
    lost_dials: u64,
}

impl<
    R: Net<Listener = TcpListener, Stream = TcpStream>
        + Threads
        + Wait
        + time::Clock
        + Copy
        + Send
        + Drop
        + 'static,
    S: TryRng + Drop,
> TcpHost<R, S> {
    /// Starts the threads by which it serves: one writes its lines, one resolves names, and one accepts. They end with the process.
    pub fn start(&self) {
        self.door.start();
    }
}

impl<
    R: Net<Listener = TcpListener, Stream = TcpStream>
        + RandomSource
        + Wait
        + time::Clock
        + Copy
        + Drop,
> TcpHost<R, SystemRandom<R>> {
    /// A host that doesn't listen yet, and is to be started before it does. The logs of its links tell on the error output; where there are such logs, it
    /// tells there too at which address it listens, and why a dial failed.
    pub fn new(
        rt: R,
        alloc: Global,
        err: Stderr,
        has_log: bool,
    ) -> Result<TcpHost<R, SystemRandom<R>>, AllocError> {
        Ok(TcpHost {
            rt,
            door: Door::new(rt, alloc, err, has_log)?,
            random: SystemRandom::new(rt),
            faults: 0,
            quiets: 0,
            lost_dials: 0,
        })
    }
}

impl<
    R: Net<Listener = TcpListener, Stream = TcpStream> + Wait + time::Clock + Copy + Send + Drop,
    S: TryRng + Drop,
> Host for TcpHost<R, S> {
    type In = TcpSource;

    type Out = TcpSink<R>;

    type Time = SystemClock<R>;

    type Log = ErrorLog<R>;

    type Words = ChaCha20Rng;

    ghost faults = { λ h. h.faults };

    ghost quiets = { λ h. h.quiets };

    ghost ends = { λ _. 0 };

    ghost lost_dials = { λ h. h.lost_dials };

    ghost calls = { λ _. None };

    ghost generators = { λ _. None };

    fn listen(&mut self, address: &str) -> bool {
        if self.door.listen(address) {
            return true;
        }
        self.faults = self.faults.saturating_add(1);
        false
    }

    fn accept(&mut self) -> Accepted<TcpSource, TcpSink<R>> {
        match self.door.next() {
            Came::Link(source, sink) => Accepted::Link(source, sink),
            Came::Nothing => {
                self.quiets = self.quiets.saturating_add(1);
                Accepted::Quiet
            }
            Came::Fault => {
                self.faults = self.faults.saturating_add(1);
                Accepted::Failed
            }
        }
    }

    fn dial(&mut self, address: &str) -> Option<(TcpSource, TcpSink<R>)> {
        match self.door.dial(address) {
            Some(link) => Some(link),
            None => {
                self.lost_dials = self.lost_dials.saturating_add(1);
                None
            }
        }
    }

    fn time(&mut self) -> SystemClock<R> {
        SystemClock::new(self.rt)
    }

    fn log(&mut self, alloc: Global, link: &TcpSource) -> ErrorLog<R> {
        self.door.log(alloc, link)
    }

    fn words(&mut self) -> Option<ChaCha20Rng>
        ensures failed { Counted self.old.faults self.new.faults (is_none result ≡ true) }
        ensures others { (self.new.quiets ≡ self.old.quiets) × (self.new.lost_dials ≡ self.old.lost_dials) }
        ensures seeded { IfSome result (λ words. (seed : List ℕ) × (words ≡ of_seed seed) × S.may_fill self.old.random seed self.new.random) }
    {
        let words = ChaCha20Rng::try_from_rng(&mut self.random).ok();
        if words.is_none() {
            self.faults = self.faults.saturating_add(1);
        }
        words
    }
}
