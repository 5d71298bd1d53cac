//! The connections that come, as a thread of its own accepts them.

use std::alloc::{AllocError, Global};
use std::net::{Net, TcpListener, TcpStream};
use std::sync::atomic::{AtomicBool, Ordering};
use std::sync::{Arc, Mutex, Wait};
use std::thread::{Parker, Threads};
use std::time::Duration;
use std::{io, thread};

/// How long who waits here rests, unless it is woken.
const REST_MS: u64 = 1_000;

/// Accepts on a thread of its own, so that who asks for the next connection waits for a second at most. One is accepted at a time: the others wait in the
/// system until it has been taken.
#[derive(Drop)]
pub(crate) struct Porch {
    has_thread: AtomicBool,
    listener: Mutex<Option<TcpListener>>,
    came: Mutex<Option<io::Result<TcpStream>>>,
    inner: Parker,
    outer: Parker,
}

impl Porch {
    /// Nothing is accepted yet.
    pub(crate) fn new(alloc: Global) -> Result<Arc<Porch>, AllocError> {
        let closed = Porch {
            has_thread: AtomicBool::new(false),
            listener: Mutex::new(None),
            came: Mutex::new(None),
            inner: Parker::new(),
            outer: Parker::new(),
        };
        Ok(Arc::new(alloc, closed)?)
    }

    /// Starts the thread that accepts, if there can be one. It ends with the process.
    pub(crate) fn start<
        R: Net<Listener = TcpListener, Stream = TcpStream>
            + Threads
            + Wait
            + Copy
            + Send
            + Drop
            + 'static,
    >(rt: R, porch: &Arc<Porch>) {
        if let Ok(theirs) = Arc::try_clone(porch) {
            let is_started = thread::spawn(&rt, move || theirs.accept_on(&rt)).is_ok();
            porch.has_thread.store(is_started, Ordering::SeqCst);
        }
    }

    /// Whether its thread has been started.
    pub(crate) fn has_thread(&self) -> bool {
        self.has_thread.load(Ordering::SeqCst)
    }

    /// Its thread accepts at this listener from now on.
    pub(crate) fn open<R: Wait>(&self, rt: &R, listener: TcpListener) {
        *self.listener.lock(rt) = Some(listener);
        self.outer.unpark();
    }

    /// What the next accept came to, if there was one within a second.
    pub(crate) fn next<R: Wait>(&self, rt: &R) -> Option<io::Result<TcpStream>> {
        let came = self.take(rt);
        if came.is_some() {
            return came;
        }
        self.inner.park_timeout(rt, Duration::from_millis(REST_MS));
        self.take(rt)
    }

    fn take<R: Wait>(&self, rt: &R) -> Option<io::Result<TcpStream>> {
        let came = self.came.lock(rt).take();
        self.outer.unpark();
        came
    }

    fn accept_on<R: Wait>(&self, rt: &R) {
        let mut listener = None;
        for _ in rt.forever() {
            match &listener {
                Some(open) if self.is_free(rt) => self.put(rt, accepted(open)),
                Some(_) => self.rest(rt),
                None => {
                    listener = self.listener.lock(rt).take();
                    if listener.is_none() {
                        self.rest(rt);
                    }
                }
            }
        }
    }

    fn rest<R: Wait>(&self, rt: &R) {
        self.outer.park_timeout(rt, Duration::from_millis(REST_MS));
    }

    fn is_free<R: Wait>(&self, rt: &R) -> bool {
        self.came.lock(rt).is_none()
    }

    fn put<R: Wait>(&self, rt: &R, came: io::Result<TcpStream>) {
        *self.came.lock(rt) = Some(came);
        self.inner.unpark();
    }
}

/// What one accept comes to.
pub(crate) fn accepted(listener: &TcpListener) -> io::Result<TcpStream> {
    let (stream, _) = listener.accept()?;
    Ok(stream)
}
