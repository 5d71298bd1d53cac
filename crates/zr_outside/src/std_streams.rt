//! A reader of std as a source and a writer of std as a sink. They tell of their bytes what the reader or the writer tells.

ghost use Rattle.std.specs.Prelude.{◌≡◌};

use crate::sink::{Put, Sink};
use crate::source::{Got, Source};
use std::io::{Read, Write};

/// A reader of std as a source.
#[derive(Drop)]
pub struct ReadSource<R: Read + Drop> {
    reader: R,
    reads: u64,
    faults: u64,
    ends: u64,
}

impl<R: Read + Drop> ReadSource<R> {
    ghost use Rattle.zr_outside.specs.Streams.{reader_of, read_faults, read_ends};

    /// The reader as a source.
    pub fn new(reader: R) -> ReadSource<R>
        ensures holds { reader_of result ≡ reader }
        ensures counts { (read_faults result ≡ 0) × (read_ends result ≡ 0) }
    {
        ReadSource {
            reader,
            reads: 0,
            faults: 0,
            ends: 0,
        }
    }
}

impl<R: Read + Drop> Source for ReadSource<R> {
    ghost left = { λ s. R.remaining s.reader };

    ghost reads = { λ s. s.reads };

    ghost faults = { λ s. s.faults };

    ghost quiets = { λ _. 0 };

    ghost ends = { λ s. s.ends };

    fn read(&mut self, into: &mut [u8]) -> Got {
        self.reads = self.reads.saturating_add(1);
        match self.reader.read(into) {
            Ok(0) => {
                self.ends = self.ends.saturating_add(1);
                Got::End
            }
            Ok(count) => Got::Bytes(count),
            Err(_) => {
                self.faults = self.faults.saturating_add(1);
                Got::Failed
            }
        }
    }
}

/// A writer of std as a sink. A write that takes nothing has failed.
#[derive(Drop)]
pub struct WriteSink<W: Write + Drop> {
    writer: W,
    faults: u64,
}

impl<W: Write + Drop> WriteSink<W> {
    ghost use Rattle.zr_outside.specs.Streams.{writer_of, write_faults};

    /// The writer as a sink.
    pub fn new(writer: W) -> WriteSink<W>
        ensures holds { writer_of result ≡ writer }
        ensures counts { write_faults result ≡ 0 }
    {
        WriteSink { writer, faults: 0 }
    }
}

impl<W: Write + Drop> Sink for WriteSink<W> {
    ghost held = { λ s. W.contents s.writer };

    ghost faults = { λ s. s.faults };

    fn write(&mut self, from: &[u8]) -> Put {
        match self.writer.write(from) {
            Ok(0) | Err(_) => {
                self.faults = self.faults.saturating_add(1);
                Put::Failed
            }
            Ok(count) => Put::Took(count),
        }
    }
}
