//! A TCP stream as a source and a sink.

ghost use Rattle.std.specs.Prelude.{◌≡◌, ◌≤◌, None, length};
ghost use Rattle.zr_outside_brief.specs.Brief.{IsWithin};

use crate::clock::SystemClock;
use crate::grace::Grace;
use crate::place::Place;
use crate::reason::Reason;
use crate::refusals::{Refusals, refuses_twice};
use std::io::{self, ErrorKind, Read, Write};
use std::net::{Shutdown, SocketAddr, TcpStream};
use std::sync::{Arc, Wait};
use std::time::{Clock, Duration};
use zr_outside::sink::{Put, Sink};
use zr_outside::source::{Got, Source};
use zr_outside_brief::{Brief, BriefSink};

/// How long a read waits for bytes before it is quiet, until a session has opened: the stream may have to give way.
const QUIET_MS: u64 = 100;

/// How long it waits then, where only the peer's lease runs.
const OPEN_QUIET_MS: u64 = 1_000;

/// How long a write waits for a peer that reads nothing before it fails: the lease that this router tells.
const MOST_WRITE_MS: u64 = 10_000;

/// How long each try of a write waits for room. The system rounds this up to one or two of its ticks. A thread that has others to serve tries once. The link's
/// writer tries again, since Linux wakes a write that waits only once a third of the stream's send buffer is free. Over a fast network that is a megabyte and
/// more, so seconds if the peer reads slowly. A new try takes what room there is.
const TRY_MS: u64 = 1;

/// How often a write is tried at most, whatever the clock tells.
const MOST_TRIES: u32 = 10_000;

/// How many writes a session takes to open: one for each answer to its peer. A peer that sends less than both messages is written less.
const WRITES_TO_OPEN: u32 = 2;

/// The reading end of a stream. Once it is dropped the writing end has its grace period left.
pub struct TcpSource {
    stream: TcpStream,
    place: Arc<Place>,
    is_patient: bool,
    reads: u64,
    faults: u64,
    quiets: u64,
    ends: u64,
}

/// The writing end of a stream. As it is dropped the peer reads the end, behind all that was written; where a write has failed, the reading end reads it too.
pub struct TcpSink<R: Clock + Drop> {
    rt: R,
    stream: TcpStream,
    refusals: Arc<Refusals<R>>,
    place: Arc<Place>,
    grace: Grace<R>,
    writes: u32,
    faults: u64,
}

/// Both ends of a stream, each with a descriptor of its own.
pub(crate) fn ends_of<R: Clock + Copy + Drop>(
    rt: R,
    stream: TcpStream,
    place: &Arc<Place>,
    refusals: &Arc<Refusals<R>>,
) -> Result<(TcpSource, TcpSink<R>), Reason> {
    stream.set_nodelay(true)?;
    stream.set_read_timeout(Some(Duration::from_millis(QUIET_MS)))?;
    stream.set_write_timeout(Some(Duration::from_millis(TRY_MS)))?;
    let other = stream.try_clone()?;
    let read = Arc::try_clone(place)?;
    let written = Arc::try_clone(place)?;
    let graced = Arc::try_clone(place)?;
    let refusals = Arc::try_clone(refusals)?;
    let source = TcpSource {
        stream,
        place: read,
        is_patient: false,
        reads: 0,
        faults: 0,
        quiets: 0,
        ends: 0,
    };
    let sink = TcpSink {
        rt,
        stream: other,
        refusals,
        place: written,
        grace: Grace::new(graced, SystemClock::new(rt)),
        writes: 0,
        faults: 0,
    };
    Ok((source, sink))
}

impl TcpSource {
    /// The address of the peer, where the system tells it.
    pub(crate) fn peer(&self) -> Option<SocketAddr> {
        self.stream.peer_addr().ok()
    }

    // Once a session has opened a read waits longer. Where the system doesn't let it, it goes on as before.
    fn be_patient(&mut self)
        ensures { (self.new.reads ≡ self.old.reads) × (self.new.faults ≡ self.old.faults) × (self.new.quiets ≡ self.old.quiets) × (self.new.ends ≡ self.old.ends) }
    {
        if !self.is_patient && self.place.has_opened() {
            self.is_patient = true;
            let _ = self
                .stream
                .set_read_timeout(Some(Duration::from_millis(OPEN_QUIET_MS)));
        }
    }

    // So many bytes were read: a router that was dialled may refuse this one by them.
    fn note(&self, read: &[u8], count: usize) {
        if let Some(bytes) = read.get(..count) {
            if refuses_twice(bytes) {
                self.place.refuse();
            }
        }
    }
}

impl<R: Clock + Drop> TcpSink<R> {
    fn count_write(&mut self)
        ensures { self.new.faults ≡ self.old.faults }
    {
        self.writes = self.writes.saturating_add(1);
        if self.writes == WRITES_TO_OPEN {
            self.place.open();
        }
    }
}

impl Drop for TcpSource {
    fn drop(self) {
        let TcpSource {
            stream: _,
            place,
            is_patient: _,
            reads: _,
            faults: _,
            quiets: _,
            ends: _,
        } = self;
        place.end_reading();
    }
}

impl<R: Clock + Drop> Drop for TcpSink<R> {
    fn drop(self) {
        let TcpSink {
            rt: _,
            stream,
            refusals: _,
            place,
            grace: _,
            writes: _,
            faults,
        } = self;
        // a link to which nothing can be written is to go down, though its peer may still send
        let how = if faults == 0 {
            Shutdown::Write
        } else {
            Shutdown::Both
        };
        // where the peer has gone there is nobody to be told
        let _ = stream.shutdown(how);
        place.end_writing();
    }
}

impl Source for TcpSource {
    ghost left = { λ _. None };

    ghost reads = { λ s. s.reads };

    ghost faults = { λ s. s.faults };

    ghost quiets = { λ s. s.quiets };

    ghost ends = { λ s. s.ends };

    fn read(&mut self, into: &mut [u8]) -> Got {
        self.reads = self.reads.saturating_add(1);
        if self.place.gives_way() {
            self.ends = self.ends.saturating_add(1);
            return Got::End;
        }
        self.be_patient();
        match self.stream.read(into) {
            Ok(0) => {
                self.ends = self.ends.saturating_add(1);
                Got::End
            }
            Ok(count) => {
                self.note(into, count);
                Got::Bytes(count)
            }
            Err(e) => match e.kind() {
                ErrorKind::WouldBlock | ErrorKind::Interrupted => {
                    self.quiets = self.quiets.saturating_add(1);
                    Got::Quiet
                }
                _ => {
                    self.faults = self.faults.saturating_add(1);
                    Got::Failed
                }
            },
        }
    }
}

impl<R: Wait + Clock + Copy + Drop> Sink for TcpSink<R> {
    ghost held = { λ _. None };

    ghost faults = { λ s. s.faults };

    fn write(&mut self, from: &[u8]) -> Put {
        let began = SystemClock::new(self.rt);
        match written(&mut self.stream, &mut self.grace, &began, from) {
            0 => {
                self.faults = self.faults.saturating_add(1);
                Put::Failed
            }
            count => {
                self.count_write();
                self.refusals.wrote(&self.rt, from, &self.stream);
                Put::Took(count)
            }
        }
    }
}

impl<R: Wait + Clock + Copy + Drop> BriefSink for TcpSink<R> {
    // In the grace period a write may fail for want of room, so it is left to those that wait.
    fn write_briefly(&mut self, from: &[u8]) -> Brief {
        if self.grace.is_due() {
            return Brief::Full;
        }
        let brief = taken_briefly(&mut self.stream, from);
        match brief {
            Brief::Took(_) => self.count_write(),
            Brief::Full => (),
            Brief::Failed => self.faults = self.faults.saturating_add(1),
        }
        brief
    }
}

// How many bytes the stream took, and 0 where the write failed. In the grace period one that didn't take all has failed, having waited as long as a write may,
// and so has each behind the period. The clock began with the write.
fn written<R: Clock + Drop>(
    stream: &mut TcpStream,
    grace: &mut Grace<R>,
    began: &SystemClock<R>,
    from: &[u8],
) -> usize
    ensures { result ≤ length from.now }
{
    if grace.is_over() {
        return 0;
    }
    let count = taken(stream, began, from);
    if count < from.len() && grace.is_due() {
        return 0;
    }
    count
}

// What the stream took in one try.
fn taken_briefly(stream: &mut TcpStream, from: &[u8]) -> Brief
    ensures { IsWithin (length from.now) result }
{
    match stream.write(from) {
        Ok(0) => Brief::Full,
        Ok(count) => Brief::Took(count),
        Err(e) => match e.kind() {
            ErrorKind::WouldBlock | ErrorKind::TimedOut | ErrorKind::Interrupted => Brief::Full,
            _ => Brief::Failed,
        },
    }
}

// How many bytes the stream took, and 0 where it took none.
fn taken<R: Clock + Drop>(stream: &mut TcpStream, began: &SystemClock<R>, from: &[u8]) -> usize
    ensures { result ≤ length from.now }
{
    let mut rest = from;
    for _ in 0..MOST_TRIES {
        match stream.write(rest) {
            Ok(count) => rest = rest.get(count..).unwrap_or(&[]),
            Err(e) if may_try_again(&e) => (),
            Err(_) => break,
        }
        if rest.is_empty() || began.elapsed() >= MOST_WRITE_MS {
            break;
        }
    }
    from.len().saturating_sub(rest.len())
}

// Whether a write that has failed so is tried again: it has waited, or a signal broke it off.
fn may_try_again(e: &io::Error) -> bool {
    match e.kind() {
        ErrorKind::WouldBlock | ErrorKind::Interrupted => true,
        _ => false,
    }
}
