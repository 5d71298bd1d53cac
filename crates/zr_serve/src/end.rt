//! How serving ends.

/// How serving ended.
#[derive(Clone, Copy, PartialEq, Eq)]
pub enum ServeEnd {
    /// No more links come.
    Done,
    /// Memory ran out: here, or in the router.
    NoMemory,
    /// A write of the output or of the error output failed.
    WriteFault,
    /// The host can't listen, can't accept any more, or has no random words.
    HostFault,
}
