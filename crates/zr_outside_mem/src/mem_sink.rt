//! A sink that keeps its bytes in memory, some of whose writes fail.

ghost use Rattle.std.specs.Prelude.{◌≡◌, ℕ, ◌<◌, ◌++◌, true, Some, [], length};

use std::alloc::Global;
use zr_outside::sink::{Put, Sink};
use zr_outside_brief::{Brief, BriefSink};

/// Keeps what is written. The writes with these numbers, counted from 0, fail. A brief write takes no more bytes than there is room for.
#[derive(Drop)]
pub struct MemSink {
    bytes: Vec<u8>,
    calls: u64,
    failing: Vec<u64>,
    faults: u64,
    room: usize,
}

impl MemSink {
    ghost use Rattle.zr_outside_mem.specs.Memory.{sink_held, failing_writes, room_of, writes_of};

    /// A sink without bytes.
    pub fn new(alloc: Global, failing: Vec<u64>) -> MemSink
        ensures empty { sink_held result ≡ [] }
        ensures failing { failing_writes result ≡ failing.items }
        ensures fresh { writes_of result ≡ 0 }
    {
        MemSink {
            bytes: Vec::new(alloc),
            calls: 0,
            failing,
            faults: 0,
            room: usize::MAX,
        }
    }

    /// The same sink, of which each brief write takes so many bytes at most.
    pub fn with_room(self, room: usize) -> MemSink
        ensures same { (sink_held result ≡ sink_held self) × (failing_writes result ≡ failing_writes self) × (writes_of result ≡ writes_of self) }
        ensures room { room_of result ≡ room }
    {
        let MemSink {
            bytes,
            calls,
            failing,
            faults,
            room: _room,
        } = self;
        MemSink {
            bytes,
            calls,
            failing,
            faults,
            room,
        }
    }

    /// The bytes that were written.
    pub fn bytes(&self) -> &[u8]
        ensures { result.now ≡ sink_held self.now }
    {
        self.bytes.as_slice()
    }
}

impl Sink for MemSink {
    ghost use Rattle.zr_outside.specs.Counts.{Counted};
    ghost use Rattle.zr_outside.specs.Sink.{Writes, IsFailed, OnTook};
    ghost use Rattle.zr_outside_mem.specs.Memory.{sink_held, failing_writes, writes_of, is_among};

    ghost held = { λ s. Some s.bytes.items };

    ghost faults = { λ s. s.faults };

    fn write(&mut self, from: &[u8]) -> Put
        requires { 0 < length from.now }
        ensures bytes { Writes result from.now (Some (sink_held self.old)) (Some (sink_held self.new)) }
        ensures failed { Counted self.old.faults self.new.faults (IsFailed result) }
        ensures failing { is_among (writes_of self.old) (failing_writes self.old) ≡ true → result ≡ Put.Failed }
        ensures whole { OnTook result (sink_held self.new ≡ sink_held self.old ++ from.now) }
    {
        let call = self.calls;
        self.calls = self.calls.saturating_add(1);
        if self.failing.contains(&call) || self.bytes.extend_from_slice(from).is_err() {
            self.faults = self.faults.saturating_add(1);
            return Put::Failed;
        }
        Put::Took(from.len())
    }
}

impl BriefSink for MemSink {
    ghost use Rattle.zr_outside.specs.Counts.{Counted};
    ghost use Rattle.zr_outside_brief.specs.Brief.{IsFailed, IsWithin, WritesBriefly};
    ghost use Rattle.zr_outside_mem.specs.Memory.{failing_writes, is_among, room_of, sink_held, writes_of};

    fn write_briefly(&mut self, from: &[u8]) -> Brief
        requires { 0 < length from.now }
        ensures bytes { WritesBriefly result from.now (Some (sink_held self.old)) (Some (sink_held self.new)) }
        ensures failed { Counted self.old.faults self.new.faults (IsFailed result) }
        ensures failing { is_among (writes_of self.old) (failing_writes self.old) ≡ true → 0 < room_of self.old → result ≡ Brief.Failed }
        ensures room { IsWithin (room_of self.old) result }
    {
        let count = from.len().min(self.room);
        if count == 0 {
            return Brief::Full;
        }
        match self.write(&from[..count]) {
            Put::Took(count) => Brief::Took(count),
            Put::Failed => Brief::Failed,
        }
    }
}
