//! How a writer ends.

ghost use Rattle.std.specs.Prelude.{◌≡◌};
ghost use Rattle.zr_link_writer.specs.Ends.{end_of_stop};

/// How a writer ended.
#[derive(Clone, Copy, PartialEq, Eq)]
pub enum WriterEnd {
    /// The ring's end was taken, with this reason, and all was written.
    Done(Option<u8>),
    /// A write failed.
    WriteFault,
    /// It has asked the taker as often as it may.
    Turns,
    /// Memory ran out.
    NoMemory,
}

/// Why a writer stops before the ring's end.
#[derive(Clone, Copy)]
pub(crate) enum Stop {
    Fault,
    NoMemory,
}

impl Stop {
    pub(crate) fn end(self) -> WriterEnd
        ensures { result ≡ end_of_stop self }
    {
        match self {
            Stop::Fault => WriterEnd::WriteFault,
            Stop::NoMemory => WriterEnd::NoMemory,
        }
    }
}
