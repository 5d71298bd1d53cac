//! What a step of the inner client came to, and how it ends.

use zr_port::{DeliverError, UpError};

/// Why the inner client isn't opened, or doesn't go on.
#[derive(Clone, Copy, Debug)]
pub enum AdminError {
    /// Its link didn't come up.
    Up(UpError),
    /// What it declares was refused, or an answer that was due.
    Deliver(DeliverError),
    /// Memory ran out for what it works with. That `up` and `deliver` want for memory is told by them.
    NoMemory,
}

/// What a step came to.
#[derive(Clone, Copy, Debug)]
pub enum Stepped {
    /// There was nothing to be taken.
    Idle,
    /// A part of a message was taken.
    Part,
    /// The requests of a parcel were answered, with so many replies and a final for each.
    Answered { replies: u64 },
    /// The ring has ended.
    Ended,
}

/// How the inner client ended.
#[derive(Clone, Copy, Debug)]
pub enum AdminEnd {
    /// Its ring has ended.
    Ended,
    /// A step was refused.
    Refused(AdminError),
    /// It has made all its steps.
    Turns,
}
