//! A sink over bytes that threads share, so that they can be looked at once its link has ended.

use std::alloc::{AllocError, Global};
use std::sync::{Arc, Mutex, Wait};
use zr_outside::sink::{Put, Sink};
use zr_outside_brief::{Brief, BriefSink};

/// Appends to bytes that threads share.
#[derive(Drop)]
pub struct SharedSink<R: Wait + Drop> {
    rt: R,
    bytes: Arc<Mutex<Vec<u8>>>,
    faults: u64,
}

impl<R: Wait + Drop> SharedSink<R> {
    pub fn new(rt: R, bytes: &Arc<Mutex<Vec<u8>>>) -> Result<SharedSink<R>, AllocError> {
        let bytes = Arc::try_clone(bytes)?;
        Ok(SharedSink {
            rt,
            bytes,
            faults: 0,
        })
    }
}

impl<R: Wait + Drop> Sink for SharedSink<R> {
    ghost use Rattle.std.specs.Prelude.{None};

    ghost held = { λ _. None };

    ghost faults = { λ s. s.faults };

    fn write(&mut self, from: &[u8]) -> Put {
        let taken = self.bytes.lock(&self.rt).extend_from_slice(from).is_ok();
        if taken {
            return Put::Took(from.len());
        }
        self.faults = self.faults.saturating_add(1);
        Put::Failed
    }
}

impl<R: Wait + Drop> BriefSink for SharedSink<R> {
    fn write_briefly(&mut self, from: &[u8]) -> Brief {
        match self.write(from) {
            Put::Took(count) => Brief::Took(count),
            Put::Failed => Brief::Failed,
        }
    }
}

pub fn no_bytes(alloc: Global) -> Result<Arc<Mutex<Vec<u8>>>, AllocError> {
    let bytes = Arc::new(alloc, Mutex::new(Vec::new(alloc)))?;
    Ok(bytes)
}

pub fn hold<R: Wait>(rt: &R, bytes: &Arc<Mutex<Vec<u8>>>, want: &[u8]) -> bool {
    bytes.lock(rt).as_slice() == want
}
