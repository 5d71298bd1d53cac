//! Random bytes of the system.

use rand_core::TryRng;
use std::io;
use std::random::RandomSource;

/// The system as a source of random bytes. Nothing is known of them.
#[derive(Drop)]
pub struct SystemRandom<R: RandomSource + Drop> {
    rt: R,
}

impl<R: RandomSource + Drop> SystemRandom<R> {
    /// The system's source.
    pub(crate) fn new(rt: R) -> SystemRandom<R> {
        SystemRandom { rt }
    }
}

impl<R: RandomSource + Drop> TryRng for SystemRandom<R> {
    type Error = io::Error;

    fn try_next_u32(&mut self) -> Result<u32, io::Error> {
        let mut bytes = [0; 4];
        self.rt.fill_bytes(&mut bytes)?;
        Ok(u32::from_le_bytes(bytes))
    }

    fn try_next_u64(&mut self) -> Result<u64, io::Error> {
        let mut bytes = [0; 8];
        self.rt.fill_bytes(&mut bytes)?;
        Ok(u64::from_le_bytes(bytes))
    }

    fn try_fill_bytes(&mut self, dst: &mut [u8]) -> Result<(), io::Error> {
        self.rt.fill_bytes(dst)
    }
}
