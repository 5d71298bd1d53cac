//! A client that falls silent.

use zr_outside::source::{Got, Source};

/// How many bytes an opening has, and a KEEP_ALIVE.
const OPENING_BYTES: u64 = 44;

const KEEP_ALIVE_BYTES: u64 = 3;

/// When a silent client is heard after its opening, in milliseconds.
const HEARD: [u64; 2] = [8_000, 16_000];

/// Gives a byte a read, where each read takes a millisecond: its opening at once, and then KEEP_ALIVEs that end at the moments of `HEARD`. All other reads are
/// quiet. It tells nothing of what is left.
#[derive(Drop)]
pub struct SilentSource {
    bytes: Vec<u8>,
    at: usize,
    reads: u64,
    quiets: u64,
    ends: u64,
}

impl SilentSource {
    pub fn new(bytes: Vec<u8>) -> SilentSource {
        SilentSource {
            bytes,
            at: 0,
            reads: 0,
            quiets: 0,
            ends: 0,
        }
    }
}

// Whether a silent client is heard at this moment.
fn is_heard(moment: u64) -> bool {
    if moment <= OPENING_BYTES {
        return true;
    }
    for end in HEARD {
        if moment <= end && end - moment < KEEP_ALIVE_BYTES {
            return true;
        }
    }
    false
}

impl Source for SilentSource {
    ghost use Rattle.std.specs.Prelude.{None};

    ghost left = { λ _. None };

    ghost reads = { λ s. s.reads };

    ghost faults = { λ _. 0 };

    ghost quiets = { λ s. s.quiets };

    ghost ends = { λ s. s.ends };

    fn read(&mut self, into: &mut [u8]) -> Got {
        // the clock is asked once before the first read, so that one is at moment 1
        self.reads = self.reads.saturating_add(1);
        if !is_heard(self.reads) {
            self.quiets = self.quiets.saturating_add(1);
            return Got::Quiet;
        }
        let Some(byte) = self.bytes.get(self.at) else {
            self.ends = self.ends.saturating_add(1);
            return Got::End;
        };
        into[0] = *byte;
        self.at += 1;
        Got::Bytes(1)
    }
}
