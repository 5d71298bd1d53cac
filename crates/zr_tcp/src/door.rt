//! Where links come from over TCP: a listener, dials, and the streams that are open.

use crate::address::Resolver;
use crate::clock::SystemClock;
use crate::line::{Severity, stamped};
use crate::log::ErrorLog;
use crate::place::Places;
use crate::porch::{Porch, accepted};
use crate::queue::LogQueue;
use crate::reason::Reason;
use crate::refusals::{Refusals, Seldom};
use crate::stream::{TcpSink, TcpSource, ends_of};
use std::alloc::{AllocError, Global};
use std::io::{ErrorKind, Stderr, Write};
use std::net::{Net, SocketAddr, TcpListener, TcpStream};
use std::sync::{Arc, Wait};
use std::thread::Threads;
use std::time::Duration;
use std::{io, thread, time};
use zr_outside::clock::Clock;

/// How long accepting rests where the system lacks descriptors, memory or a network.
const LACK_MS: u64 = 100;

/// How long a dial waits for each address to answer. Nothing is accepted meanwhile, so it is well below the lease with which peers give up.
const MOST_DIAL_S: u64 = 3;

/// The codes of Linux for an accept that failed for a while, though the listener is sound (accept(2)): EPERM, ENOMEM, ENFILE, EMFILE, ENONET,
/// EPROTO, ENOPROTOOPT, EOPNOTSUPP, ENETDOWN, ENETUNREACH, ENOBUFS, EHOSTDOWN, EHOSTUNREACH.
const LACKING: [i32; 13] = [1, 12, 23, 24, 64, 71, 92, 95, 100, 101, 105, 112, 113];

/// A listener and the streams that are open, at most so many at a time: what is one too many is closed at once, unless one on which no session opens gives
/// way to it. It tells on the error output why it can't listen, and what it closes.
#[derive(Drop)]
pub(crate) struct Door<
    R: Net<Listener = TcpListener, Stream = TcpStream> + Wait + time::Clock + Drop,
> {
    rt: R,
    alloc: Global,
    err: Stderr,
    has_log: bool,
    is_listening: bool,
    listener: Option<TcpListener>,
    porch: Arc<Porch>,
    places: Places,
    queue: Arc<LogQueue>,
    resolver: Arc<Resolver>,
    refusals: Arc<Refusals<R>>,
    clock: SystemClock<R>,
    closed: Seldom<R>,
}

/// What an accept came to.
pub(crate) enum Came<R: time::Clock + Drop> {
    Link(TcpSource, TcpSink<R>),
    Nothing,
    Fault,
}

impl<
    R: Net<Listener = TcpListener, Stream = TcpStream>
        + Threads
        + Wait
        + time::Clock
        + Copy
        + Send
        + Drop
        + 'static,
> Door<R> {
    /// Starts the threads that write its lines, resolve names and accept.
    pub(crate) fn start(&self) {
        Porch::start(self.rt, &self.porch);
        LogQueue::start(self.rt, self.alloc, &self.queue, self.err);
        Resolver::start(self.rt, self.alloc, &self.resolver);
    }
}

impl<R: Net<Listener = TcpListener, Stream = TcpStream> + Wait + time::Clock + Copy + Drop> Door<
    R,
> {
    /// It doesn't listen yet.
    pub(crate) fn new(
        rt: R,
        alloc: Global,
        err: Stderr,
        has_log: bool,
    ) -> Result<Door<R>, AllocError> {
        let queue = LogQueue::new(alloc)?;
        Ok(Door {
            rt,
            alloc,
            err,
            has_log,
            is_listening: false,
            listener: None,
            porch: Porch::new(alloc)?,
            places: Places::new(alloc),
            refusals: Refusals::new(rt, alloc, &queue, has_log)?,
            queue,
            resolver: Resolver::new(alloc)?,
            clock: SystemClock::new(rt),
            closed: Seldom::new(rt),
        })
    }

    /// Begins to listen; false where it can't, which it tells.
    pub(crate) fn listen(&mut self, address: &str) -> bool {
        match self.listening(address) {
            Ok(listener) => {
                if self.has_log {
                    self.tell_listening(&listener);
                }
                self.open(listener);
                true
            }
            Err(reason) => {
                self.tell_unheard(address, reason);
                false
            }
        }
    }

    /// A link to an address; none where that can't be, which it tells the log.
    pub(crate) fn dial(&mut self, address: &str) -> Option<(TcpSource, TcpSink<R>)> {
        match self.connected(address) {
            Ok((source, sink)) => Some((source, sink)),
            Err(reason) => {
                if self.has_log {
                    self.tell_undialled(address, reason);
                }
                None
            }
        }
    }

    /// The log of a link.
    pub(crate) fn log(&self, alloc: Global, link: &TcpSource) -> ErrorLog<R> {
        ErrorLog::new(self.rt, alloc, &self.queue, link.peer())
    }

    fn listening(&self, address: &str) -> Result<TcpListener, Reason> {
        let found = self.resolver.addresses(&self.rt, self.alloc, address)?;
        Ok(TcpListener::bind(&self.rt, found.as_slice())?)
    }

    // Without a thread that accepts, who asks for the next connection accepts it.
    fn open(&mut self, listener: TcpListener) {
        self.is_listening = true;
        if self.porch.has_thread() {
            self.porch.open(&self.rt, listener);
        } else {
            self.listener = Some(listener);
        }
    }

    /// What the next accept comes to. With a thread that accepts it comes to nothing where there is none for a second.
    pub(crate) fn next(&mut self) -> Came<R> {
        if !self.is_listening {
            return Came::Fault;
        }
        self.tell_refused();
        match self.accepted() {
            // a peer that went at once, one too many, or a system out of descriptors or memory, is no fault of the listener
            Some(Ok(stream)) => match self.ends(stream, None) {
                Ok((source, sink)) => Came::Link(source, sink),
                Err(reason) => {
                    self.tell_closed(reason);
                    Came::Nothing
                }
            },
            Some(Err(e)) => self.lost(&e),
            None => Came::Nothing,
        }
    }

    fn accepted(&self) -> Option<io::Result<TcpStream>> {
        match &self.listener {
            Some(listener) => Some(accepted(listener)),
            None => self.porch.next(&self.rt),
        }
    }

    // What an accept that failed comes to.
    fn lost(&self, e: &io::Error) -> Came<R> {
        match e.kind() {
            ErrorKind::Interrupted
            | ErrorKind::WouldBlock
            | ErrorKind::ConnectionAborted
            | ErrorKind::ConnectionReset => Came::Nothing,
            _ if is_lack(e) => {
                thread::sleep(&self.rt, Duration::from_millis(LACK_MS));
                Came::Nothing
            }
            _ => Came::Fault,
        }
    }

    // Both ends of a stream, if there may be one more.
    fn ends(
        &mut self,
        stream: TcpStream,
        dialled: Option<SocketAddr>,
    ) -> Result<(TcpSource, TcpSink<R>), Reason> {
        let place = self.places.take(self.alloc, self.clock.now(), dialled)?;
        match ends_of(self.rt, stream, &place, &self.refusals) {
            Ok(ends) => Ok(ends),
            Err(reason) => {
                place.end_reading();
                place.end_writing();
                Err(reason)
            }
        }
    }

    fn connected(&mut self, address: &str) -> Result<(TcpSource, TcpSink<R>), Reason> {
        match self.stream_to(address) {
            Ok(stream) => {
                let dialled = stream.peer_addr().ok();
                self.ends(stream, dialled)
            }
            Err(reason) => Err(reason),
        }
    }

    // Tries each address for which the text stands.
    fn stream_to(&self, address: &str) -> Result<TcpStream, Reason> {
        let most = Duration::from_secs(MOST_DIAL_S);
        let mut last = Reason::NoSuchHost;
        for address in self.resolver.addresses(&self.rt, self.alloc, address)? {
            match TcpStream::connect_timeout(&self.rt, &address, most) {
                Ok(stream) => return Ok(stream),
                Err(e) => last = Reason::from(e),
            }
        }
        Err(last)
    }

    // Tells at once why it can't listen at an address: the router ends.
    fn tell_unheard(&self, address: &str, reason: Reason) {
        let why = reason.text();
        if let Ok(line) = format!(in self.alloc; "listen {address}: {why}\n") {
            let mut err = self.err;
            // where nobody reads the error output, nobody is to be told
            let _ = err.write_all(line.as_bytes());
        }
    }

    // Tells the log why an address can't be dialled: the router goes on.
    fn tell_undialled(&self, address: &str, reason: Reason) {
        let why = reason.text();
        if let Ok(text) = format!(in self.alloc; "dial {address}: {why}\n") {
            self.put(Severity::Warn, text.as_str());
        }
    }

    fn tell_listening(&self, listener: &TcpListener) {
        if let Ok(address) = listener.local_addr() {
            if let Ok(text) = format!(in self.alloc; "listening on {address}\n") {
                self.put(Severity::Info, text.as_str());
            }
        }
    }

    // Tells, with a log and without, where this router has dialled and was refused as one that is up already: a former life of it may be up there still.
    fn tell_refused(&self) {
        if let Some(address) = self.places.next_refused() {
            if let Ok(text) = format!(in self.alloc;
                "dial {address}: refused, this identifier is up there: start with a fresh one if it was in use before\n"
            ) {
                self.put(Severity::Warn, text.as_str());
            }
        }
    }

    // Tells of connections that were closed at once, a line a second at most.
    fn tell_closed(&mut self, reason: Reason) {
        let Some(count) = self.closed.next() else {
            return;
        };
        let why = reason.text();
        if let Ok(text) = format!(in self.alloc; "connections closed at once: {count}, {why}\n") {
            self.put(Severity::Warn, text.as_str());
        }
    }

    fn put(&self, severity: Severity, text: &str) {
        let line = stamped(&self.rt, self.alloc, severity, text).ok();
        self.queue.put(&self.rt, line);
    }
}

fn is_lack(e: &io::Error) -> bool {
    match e.raw_os_error() {
        Some(code) => LACKING.contains(&code),
        None => false,
    }
}
