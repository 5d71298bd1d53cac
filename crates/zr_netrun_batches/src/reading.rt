//! A session reads on along its wire.

ghost use Rattle.std.specs.Prelude.{◌≡◌, ◌+◌, ◌%◌, ◌++◌, [], OnOk};
ghost use Rattle.zr_netrun_batches.specs.Coming.{GoesOn, Hears, messages_in};

use crate::tape::Tape;
use std::alloc::AllocError;
use std::collections::VecDeque;
use zr_msg::msg::Msg;
use zr_session::{Fed, Session, SessionEvent};

/// The longest piece that a session is fed, in bytes. They are of 1 byte, then of 2, up to this, and then of 1 again.
const MOST_PIECE: usize = 64;

/// The moment at which all bytes of a script come, in milliseconds.
pub const NOW: u64 = 0;

/// Feeds a session until it has given a message, or the wire is empty. `last` is how long the piece before was.
pub fn read_on(
    session: &mut Session,
    wire: &mut Tape,
    fed: &mut Fed,
    ready: &mut VecDeque<Msg>,
    last: &mut usize,
) -> Result<(), AllocError>
    ensures goes { OnOk result (GoesOn session.old wire.old ready.old.items session.new wire.new ready.new.items) }
    ensures whole { OnOk result (ready.new.items ≡ [] → wire.new ≡ []) }
{
    'pieces: while !wire.is_empty() {
        if !ready.is_empty() {
            return Ok(());
        }
        *last = next_length(*last);
        let piece = wire.front(*last);
        let count = piece.len();
        feed(session, piece, fed, ready)?;
        wire.pass(count);
    }
    Ok(())
}

// How many bytes the next piece has at most: one more than the last, and 1 behind the longest.
fn next_length(last: usize) -> usize
    ensures { result ≡ last % 64 + 1 }
{
    last % MOST_PIECE + 1
}

// Feeds a session a piece, and puts the messages that it gives behind others.
fn feed(
    session: &mut Session,
    piece: &[u8],
    fed: &mut Fed,
    ready: &mut VecDeque<Msg>,
) -> Result<(), AllocError>
    ensures { OnOk result (Hears session.old session.new piece.now ready.old.items ready.new.items) }
{
    fed.events.clear();
    session.feed(piece, NOW, fed)?;
    put_messages(&mut fed.events, ready)
}

fn put_messages(events: &mut Vec<SessionEvent>, ready: &mut VecDeque<Msg>) -> Result<(), AllocError>
    ensures { OnOk result (ready.new.items ≡ ready.old.items ++ messages_in events.old.items) }
{
    for event in events.drain(..) {
        match event {
            SessionEvent::Message(msg) => ready.push_back(msg)?,
            SessionEvent::Opened(_, _) => {}
        }
    }
    Ok(())
}
