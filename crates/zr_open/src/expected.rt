//! Where an opening stands, and what a message makes of it.

use zr_frame::Outbox;
use zr_msg::peer::Peer;
use zr_trans::Trans;

/// The message that an opening waits for.
#[derive(Clone, Copy)]
pub enum Expected {
    /// INIT, at the accepting end.
    Init,
    /// OPEN, at the accepting end, from the peer of the INIT that was answered.
    Open { peer: Peer, outbox: Outbox },
    /// The answer to INIT, at the dialling end.
    InitAnswer,
    /// The answer to OPEN, at the dialling end.
    OpenAnswer { peer: Peer, outbox: Outbox },
}

/// A session that is open.
#[derive(Drop)]
pub struct Opened {
    pub peer: Peer,
    /// What this end sends by.
    pub outbox: Outbox,
    /// The number of the peer's first frame.
    pub first: u64,
    /// How long the peer may be silent, in milliseconds.
    pub lease: u64,
    /// The answer to OPEN, at the accepting end: it is sent once the peer is taken.
    pub answer: Option<Trans>,
}

/// What an expected message led to.
#[derive(Drop)]
pub enum Progress {
    /// The answer is sent, and then another message is expected.
    Answers { expected: Expected, answer: Trans },
    Opened(Opened),
}
