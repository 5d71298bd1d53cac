//! A transport message as a value.

use zr_bytes::ByteString;
use zr_id::zid::Zid;

/// The sizes that an opening proposes.
#[derive(Clone, Copy, Debug, PartialEq, Eq)]
pub struct Sizes {
    /// The low four bits of the resolutions: of frame numbers in bits 0 and 1, of request ids in bits 2 and 3, each 0 to
    /// 3 for 8, 16, 32 and 64 bits.
    pub bits: u8,
    /// The most bytes of a batch.
    pub batch: u16,
}

/// A transport message (Zenoh protocol 1.0, "Transport messages").
#[derive(Debug, Drop)]
pub enum Trans {
    /// INIT, and its answer.
    Init {
        answer: bool,
        /// The version byte of the protocol.
        version: u8,
        /// Two bits: 0 router, 1 peer, 2 client.
        role: u8,
        id: Zid,
        /// Without them frame numbers and request ids have 32 bits, and a batch 65,535 bytes at most.
        sizes: Option<Sizes>,
        /// Of an answer.
        cookie: Option<ByteString>,
        /// The value of extension 9, this profile's own: 1 where the sender is a router that tells others its links.
        speaks: Option<u64>,
    },
    /// OPEN, and its answer.
    Open {
        answer: bool,
        /// The lease is in seconds, and in milliseconds else.
        seconds: bool,
        /// As it is spelled.
        lease: u64,
        /// The number of the sender's first frame.
        number: u64,
        /// The one of the answer to INIT, but in an answer to OPEN.
        cookie: Option<ByteString>,
    },
    Close {
        /// The whole session ends, and not the link alone.
        session: bool,
        reason: u8,
    },
    KeepAlive,
    /// The head of a frame. Its network messages follow.
    Frame {
        reliable: bool,
        number: u64,
    },
    /// A part of a network message.
    Fragment {
        reliable: bool,
        /// More parts follow.
        more: bool,
        number: u64,
        piece: ByteString,
    },
}
