//! Why the system didn't give what was asked of it.

use std::alloc::AllocError;
use std::io;
use std::io::ErrorKind;

/// Why an address can't be listened at or dialled, or a stream not be kept.
#[derive(Clone, Copy)]
pub(crate) enum Reason {
    NotAnAddress,
    NoSuchHost,
    InUse,
    NotHere,
    Denied,
    Refused,
    NoRoute,
    TimedOut,
    HungUp,
    TooMany,
    NoMemory,
    /// The system has another one.
    Other,
}

impl Reason {
    /// In an operator's words.
    pub(crate) fn text(self) -> &'static str {
        match self {
            Reason::NotAnAddress => "not an address",
            Reason::NoSuchHost => "no such host",
            Reason::InUse => "address in use",
            Reason::NotHere => "not an address of this machine",
            Reason::Denied => "permission denied",
            Reason::Refused => "refused",
            Reason::NoRoute => "no route",
            Reason::TimedOut => "timed out",
            Reason::HungUp => "the peer hung up",
            Reason::TooMany => "too many connections",
            Reason::NoMemory => "out of memory",
            Reason::Other => "the system can't",
        }
    }
}

impl From<io::Error> for Reason {
    fn from(e: io::Error) -> Reason {
        match e.kind() {
            ErrorKind::InvalidInput => Reason::NotAnAddress,
            ErrorKind::AddrInUse => Reason::InUse,
            ErrorKind::AddrNotAvailable => Reason::NotHere,
            ErrorKind::PermissionDenied => Reason::Denied,
            ErrorKind::ConnectionRefused => Reason::Refused,
            ErrorKind::HostUnreachable | ErrorKind::NetworkUnreachable | ErrorKind::NetworkDown =>
                Reason::NoRoute,
            ErrorKind::TimedOut | ErrorKind::WouldBlock => Reason::TimedOut,
            ErrorKind::ConnectionReset | ErrorKind::ConnectionAborted | ErrorKind::NotConnected =>
                Reason::HungUp,
            ErrorKind::OutOfMemory => Reason::NoMemory,
            _ => Reason::Other,
        }
    }
}

impl From<AllocError> for Reason {
    fn from(_: AllocError) -> Reason {
        Reason::NoMemory
    }
}
