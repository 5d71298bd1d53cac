//! Why reading doesn't go on.

ghost use Rattle.std.specs.Prelude.{◌≡◌};
ghost use Rattle.zr_session.specs.Done.{stop_of_read, stop_of_channel};

use crate::fate::End;
use std::alloc::AllocError;
use zr_bytes::ReadError;
use zr_frame::ChannelError;
use zr_open::Reason;

/// Why a part of a stream is not read on.
#[derive(Clone, Copy)]
pub enum ReadStop {
    /// The session has ended.
    Ended(End),
    NoMemory,
}

/// Bytes that spell nothing, or a message that is out of place.
pub(crate) const INVALID: ReadStop = ReadStop::Ended(End::Closed(Reason::Invalid));

pub(crate) fn stop_of_read(e: ReadError) -> ReadStop
    ensures { result ≡ stop_of_read e }
{
    match e {
        ReadError::NoMemory => ReadStop::NoMemory,
        ReadError::Short
        | ReadError::TooBig
        | ReadError::UnknownId
        | ReadError::Mandatory
        | ReadError::BadText
        | ReadError::BadKey
        | ReadError::UnknownScope
        | ReadError::Extra => INVALID,
    }
}

pub(crate) fn stop_of_channel(e: ChannelError) -> ReadStop
    ensures { result ≡ stop_of_channel e }
{
    match e {
        ChannelError::NoMemory => ReadStop::NoMemory,
        ChannelError::OutOfTurn | ChannelError::TooLong => INVALID,
    }
}

impl From<AllocError> for ReadStop {
    ghost use Rattle.std.specs.Prelude.{◌≡◌};
    ghost use Rattle.zr_session.specs.declared.stop.ReadStop.TheVariants.{NoMemory};

    ghost from_gives = { λ _ e. e ≡ NoMemory };

    fn from(_e: AllocError) -> ReadStop {
        ReadStop::NoMemory
    }
}
