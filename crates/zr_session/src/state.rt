//! Whether a session goes on.

use crate::fate::End;
use crate::phase::Phase;
use zr_bytes::ByteString;

/// Where a session stands between two calls.
#[derive(Drop)]
pub enum State {
    Running(Phase),
    /// It has ended so. The answer to OPEN is owed still, where there is one and the peer was not confirmed.
    Ended { how: End, owed: ByteString },
    /// Memory ran out.
    Spent,
}
