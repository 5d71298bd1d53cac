//! A source over bytes in memory, some of whose reads fail or are quiet.

ghost use Rattle.std.specs.Prelude.{◌≡◌, ℕ, ◌≤◌, ◌<◌, ◌↔◌, true, false, Some, drop, vec_len, length};

use zr_outside::source::{Got, Source};

/// Gives its bytes in order. The reads with these numbers, counted from 0, fail or are quiet.
#[derive(Drop)]
pub struct MemSource {
    bytes: Vec<u8>,
    at: usize,
    most: usize,
    calls: u64,
    failing: Vec<u64>,
    quiet: Vec<u64>,
    faults: u64,
    quiets: u64,
    ends: u64,
    ghost in_range: { at ≤ vec_len bytes },
}

impl MemSource {
    ghost use Rattle.zr_outside_mem.specs.Memory.{source_left, most_a_read, failing_reads, quiet_reads, reads_of};

    /// A source of these bytes, which gives at most `most` of them a read (1 where that is 0).
    pub fn new(bytes: Vec<u8>, most: usize, failing: Vec<u64>, quiet: Vec<u64>) -> MemSource
        ensures holds { source_left result ≡ bytes.items }
        ensures most { most_a_read result ≡ most }
        ensures failing { failing_reads result ≡ failing.items }
        ensures quiet { quiet_reads result ≡ quiet.items }
        ensures fresh { reads_of result ≡ 0 }
    {
        MemSource {
            bytes,
            at: 0,
            most,
            calls: 0,
            failing,
            quiet,
            faults: 0,
            quiets: 0,
            ends: 0,
        }
    }
}

impl Source for MemSource {
    ghost use Rattle.zr_outside.specs.Counts.{Counted, RoseBy};
    ghost use Rattle.zr_outside.specs.Source.{GetsNext, IsFailed, IsQuiet, IsEnd};
    ghost use Rattle.zr_outside_mem.specs.Memory.{source_left, most_a_read, failing_reads, quiet_reads, reads_of, is_among, GivesAtMost};

    ghost left = { λ s. Some (drop s.at s.bytes.items) };

    ghost reads = { λ s. s.calls };

    ghost faults = { λ s. s.faults };

    ghost quiets = { λ s. s.quiets };

    ghost ends = { λ s. s.ends };

    fn read(&mut self, into: &mut [u8]) -> Got
        requires { 0 < length into.old }
        ensures bytes { GetsNext result into.old into.new (Some (source_left self.old)) (Some (source_left self.new)) }
        ensures counted { RoseBy 1 (reads_of self.old) (reads_of self.new) }
        ensures failed { Counted self.old.faults self.new.faults (IsFailed result) }
        ensures quiet { Counted self.old.quiets self.new.quiets (IsQuiet result) }
        ensures ended { Counted self.old.ends self.new.ends (IsEnd result) }
        ensures most { GivesAtMost (most_a_read self.old) result }
        ensures failing { (result ≡ Got.Failed) ↔ (is_among (reads_of self.old) (failing_reads self.old) ≡ true) }
        ensures silent { is_among (reads_of self.old) (failing_reads self.old) ≡ false → ((result ≡ Got.Quiet) ↔ (is_among (reads_of self.old) (quiet_reads self.old) ≡ true)) }
    {
        let call = self.calls;
        self.calls = self.calls.saturating_add(1);
        if self.failing.contains(&call) {
            self.faults = self.faults.saturating_add(1);
            return Got::Failed;
        }
        if self.quiet.contains(&call) {
            self.quiets = self.quiets.saturating_add(1);
            return Got::Quiet;
        }
        let count = into
            .len()
            .min(self.bytes.len() - self.at)
            .min(self.most.max(1));
        if count == 0 {
            self.ends = self.ends.saturating_add(1);
            return Got::End;
        }
        into[..count].copy_from_slice(&self.bytes[self.at..self.at + count]);
        self.at += count;
        Got::Bytes(count)
    }
}
