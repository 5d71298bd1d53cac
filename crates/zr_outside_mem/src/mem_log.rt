//! A log in memory.

ghost use Rattle.std.specs.Prelude.{◌≡◌, ℕ, List, Some, []};

use std::alloc::Global;
use zr_outside::log::Log;

/// Keeps the lines that it is told, as long as it has memory for them, and counts those that it lost.
#[derive(Drop)]
pub struct MemLog {
    bytes: Vec<u8>,
    lost: u64,
}

impl MemLog {
    ghost use Rattle.zr_outside_mem.specs.Memory.{log_held};

    /// A log without lines.
    pub fn new(alloc: Global) -> MemLog
        ensures { log_held result ≡ [] }
    {
        MemLog {
            bytes: Vec::new(alloc),
            lost: 0,
        }
    }

    /// The lines that it was told.
    pub fn bytes(&self) -> &[u8]
        ensures { result.now ≡ log_held self.now }
    {
        self.bytes.as_slice()
    }
}

impl Log for MemLog {
    ghost held = { λ l. Some l.bytes.items };

    ghost lost = { λ l. l.lost };

    fn tell(&mut self, line: &str) {
        if self.bytes.extend_from_slice(line.as_bytes()).is_err() {
            self.lose();
        }
    }

    fn lose(&mut self) {
        self.lost = self.lost.saturating_add(1);
    }
}
