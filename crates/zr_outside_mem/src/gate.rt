//! A gate between a sink and a source: what the one has written lets the other go on. For tests of what runs at once.

ghost use Rattle.std.specs.Prelude.{◌≡◌, ◌≤◌, None, vec_len};

use std::alloc::{AllocError, Global};
use std::sync::Arc;
use std::sync::atomic::{AtomicU64, Ordering};
use zr_outside::sink::{Put, Sink};
use zr_outside::source::{Got, Source};
use zr_outside_brief::{Brief, BriefSink};

/// Counts the bytes that were written through it. It is shared by threads.
#[derive(Drop)]
pub struct Gate {
    count: Arc<AtomicU64>,
}

impl Gate {
    /// A gate through which nothing went yet.
    pub fn new(alloc: Global) -> Result<Gate, AllocError> {
        Ok(Gate {
            count: Arc::new(alloc, AtomicU64::new(0))?,
        })
    }

    /// The same gate for one more owner.
    pub fn share(&self) -> Result<Gate, AllocError> {
        Ok(Gate {
            count: Arc::try_clone(&self.count)?,
        })
    }

    /// How many bytes went through it so far.
    pub fn count(&self) -> u64 {
        self.count.load(Ordering::SeqCst)
    }
}

/// Writes to a sink, and counts at a gate what it took.
#[derive(Drop)]
pub struct GateSink<K: Sink + Drop> {
    sink: K,
    gate: Gate,
}

impl<K: Sink + Drop> GateSink<K> {
    /// The sink behind the gate.
    pub fn new(sink: K, gate: Gate) -> GateSink<K> {
        GateSink { sink, gate }
    }
}

impl<K: Sink + Drop> Sink for GateSink<K> {
    ghost held = { λ s. K.held s.sink };

    ghost faults = { λ s. K.faults s.sink };

    fn write(&mut self, from: &[u8]) -> Put {
        let put = self.sink.write(from);
        if let Put::Took(count) = put {
            self.gate.count.fetch_add(count as u64, Ordering::SeqCst);
        }
        put
    }
}

impl<K: BriefSink + Drop> BriefSink for GateSink<K> {
    fn write_briefly(&mut self, from: &[u8]) -> Brief {
        let brief = self.sink.write_briefly(from);
        if let Brief::Took(count) = brief {
            self.gate.count.fetch_add(count as u64, Ordering::SeqCst);
        }
        brief
    }
}

/// Some bytes, which come once so many bytes went through a gate.
#[derive(Drop)]
pub struct Part {
    pub after: u64,
    pub bytes: Vec<u8>,
}

/// Gives its parts in order, each once its gate has let so many bytes through; until then it is quiet, and once between two parts. It tells
/// nothing of what is left.
#[derive(Drop)]
pub struct GateSource {
    gate: Gate,
    parts: Vec<Part>,
    part: usize,
    at: usize,
    reads: u64,
    quiets: u64,
    ends: u64,
}

impl GateSource {
    /// A source of these parts. An empty part at the end holds back the end.
    pub fn new(gate: Gate, parts: Vec<Part>) -> GateSource {
        GateSource {
            gate,
            parts,
            part: 0,
            at: 0,
            reads: 0,
            quiets: 0,
            ends: 0,
        }
    }
}

impl Source for GateSource {
    ghost left = { λ _. None };

    ghost reads = { λ s. s.reads };

    ghost faults = { λ _. 0 };

    ghost quiets = { λ s. s.quiets };

    ghost ends = { λ s. s.ends };

    fn read(&mut self, into: &mut [u8]) -> Got {
        self.reads = self.reads.saturating_add(1);
        let Some(part) = self.parts.get(self.part) else {
            self.ends = self.ends.saturating_add(1);
            return Got::End;
        };
        let left = part.bytes.len().saturating_sub(self.at);
        // looked at once: a gate that opens between two looks must not pass by a part that wasn't given
        let is_open = self.gate.count() >= part.after;
        if is_open && left > 0 {
            let count = into.len().min(left);
            into[..count].copy_from_slice(&part.bytes[self.at..self.at + count]);
            self.at += count;
            return Got::Bytes(count);
        }
        if is_open {
            self.part += 1;
            self.at = 0;
        }
        self.quiets = self.quiets.saturating_add(1);
        Got::Quiet
    }
}
