//! The streams that are open, and what the two ends of one share.

use crate::reason::Reason;
use std::alloc::{AllocError, Global};
use std::net::SocketAddr;
use std::sync::Arc;
use std::sync::atomic::{AtomicBool, Ordering};

/// How many streams may be open: twice the sessions that a router may have, so that there is room for those on which none has opened. Each takes two
/// descriptors, of which a process usually has 1,024.
const MOST_STREAMS: usize = 256;

/// How long a stream keeps its place against others though no session opens on it: the lease that this router tells.
const MOST_UNOPENED_MS: u64 = 10_000;

/// The streams that are open, in the order in which they came.
#[derive(Drop)]
pub(crate) struct Places {
    taken: Vec<Arc<Place>>,
}

/// What the two ends of a stream share: when it came, where it was dialled if it was, which end is gone, whether a session has opened, whether its peer has
/// refused this router as one that is up already, and whether it is to give way to another stream.
#[derive(Drop)]
pub(crate) struct Place {
    came: u64,
    dialled: Option<SocketAddr>,
    is_refused: AtomicBool,
    is_unread: AtomicBool,
    is_unwritten: AtomicBool,
    has_opened: AtomicBool,
    gives_way: AtomicBool,
}

impl Places {
    /// No stream is open.
    pub(crate) fn new(alloc: Global) -> Places {
        Places {
            taken: Vec::new(alloc),
        }
    }

    /// A place for a stream that comes now. Where all are taken, the first one on which no session opens in time gives its place up.
    pub(crate) fn take(
        &mut self,
        alloc: Global,
        now: u64,
        dialled: Option<SocketAddr>,
    ) -> Result<Arc<Place>, Reason> {
        self.taken.retain(|place| !place.is_free());
        if self.taken.len() >= MOST_STREAMS && !self.make_way(now) {
            return Err(Reason::TooMany);
        }
        match self.take_next(alloc, now, dialled) {
            Ok(place) => Ok(place),
            Err(_) => Err(Reason::NoMemory),
        }
    }

    fn take_next(
        &mut self,
        alloc: Global,
        now: u64,
        dialled: Option<SocketAddr>,
    ) -> Result<Arc<Place>, AllocError> {
        let place = Arc::new(alloc, Place::new(now, dialled))?;
        let theirs = Arc::try_clone(&place)?;
        self.taken.push(place)?;
        Ok(theirs)
    }

    /// Where this router has dialled and was refused as one that is up already, if so and this wasn't answered before.
    pub(crate) fn next_refused(&self) -> Option<SocketAddr> {
        for place in &self.taken {
            if let Some(address) = place.take_refused() {
                return Some(address);
            }
        }
        None
    }

    fn make_way(&mut self, now: u64) -> bool {
        match self.taken.iter().position(|place| place.is_late(now)) {
            Some(at) => {
                self.taken.remove(at).give_way();
                true
            }
            None => false,
        }
    }
}

impl Place {
    fn new(now: u64, dialled: Option<SocketAddr>) -> Place {
        Place {
            came: now,
            dialled,
            is_refused: AtomicBool::new(false),
            is_unread: AtomicBool::new(false),
            is_unwritten: AtomicBool::new(false),
            has_opened: AtomicBool::new(false),
            gives_way: AtomicBool::new(false),
        }
    }

    /// Nothing is read from the stream any more.
    pub(crate) fn end_reading(&self) {
        self.is_unread.store(true, Ordering::SeqCst);
    }

    /// Whether nothing is read from the stream any more.
    pub(crate) fn is_unread(&self) -> bool {
        self.is_unread.load(Ordering::SeqCst)
    }

    /// Nothing is written to the stream any more.
    pub(crate) fn end_writing(&self) {
        self.is_unwritten.store(true, Ordering::SeqCst);
    }

    /// A session has opened on the stream.
    pub(crate) fn open(&self) {
        self.has_opened.store(true, Ordering::SeqCst);
    }

    /// Whether a session has opened on the stream.
    pub(crate) fn has_opened(&self) -> bool {
        self.has_opened.load(Ordering::SeqCst)
    }

    /// Whether the stream is to end, as another one has its place.
    pub(crate) fn gives_way(&self) -> bool {
        self.gives_way.load(Ordering::SeqCst)
    }

    /// The peer has refused this router as one that is up already.
    pub(crate) fn refuse(&self) {
        self.is_refused.store(true, Ordering::SeqCst);
    }

    fn take_refused(&self) -> Option<SocketAddr> {
        if self.dialled.is_some() && self.is_refused.swap(false, Ordering::SeqCst) {
            self.dialled
        } else {
            None
        }
    }

    fn give_way(&self) {
        self.gives_way.store(true, Ordering::SeqCst);
    }

    fn is_free(&self) -> bool {
        self.is_unread() && self.is_unwritten.load(Ordering::SeqCst)
    }

    fn is_late(&self, now: u64) -> bool {
        !self.has_opened() && now.saturating_sub(self.came) >= MOST_UNOPENED_MS
    }
}
