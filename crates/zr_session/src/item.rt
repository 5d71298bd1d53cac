//! One message of a batch.

ghost use Rattle.std.specs.Prelude.{◌≡◌};
ghost use Rattle.zr_session.specs.Stream.{item_of, trans_item, network_item, opens_frame};
ghost use Rattle.zr_session.specs.Done.{Reads};
ghost use Rattle.zr_trans.specs.Reading.{trans_of};

use crate::carried::{begins_network, read_carried};
use crate::event::Fed;
use crate::opening::on_trans;
use crate::phase::{Established, Phase};
use crate::stop::{INVALID, ReadStop, stop_of_read};
use crate::why::why;
use std::alloc::Global;
use zr_bytes::Cursor;
use zr_open::Opening;
use zr_trans::{Trans, read_trans};

/// Reads the message at the front, where a frame is open or not, and does what it asks for. The answer is whether a frame is open
/// behind it. Where this end closes the session for the message, `cause` is told why, in words.
pub(crate) fn read_item(
    alloc: Global,
    opening: &Opening,
    phase: &mut Phase,
    in_frame: bool,
    c: &mut Cursor<'_>,
    out: &mut Fed,
    cause: &mut Option<String>,
) -> Result<bool, ReadStop>
    ensures { Reads result (item_of opening.now phase.old in_frame c.old) phase.new c.new out.old out.new }
{
    let bytes = c.as_slice();
    match read_one(alloc, opening, phase, in_frame, c, out) {
        Ok(in_frame) => Ok(in_frame),
        Err(stop) => {
            *cause = why(alloc, stop, phase, in_frame, bytes);
            Err(stop)
        }
    }
}

fn read_one(
    alloc: Global,
    opening: &Opening,
    phase: &mut Phase,
    in_frame: bool,
    c: &mut Cursor<'_>,
    out: &mut Fed,
) -> Result<bool, ReadStop>
    ensures { Reads result (item_of opening.now phase.old in_frame c.old) phase.new c.new out.old out.new }
{
    if in_frame && begins_network(c.as_slice()) {
        network(alloc, phase, c, out)
    } else {
        transport(alloc, opening, phase, c, out)
    }
}

fn transport(
    alloc: Global,
    opening: &Opening,
    phase: &mut Phase,
    c: &mut Cursor<'_>,
    out: &mut Fed,
) -> Result<bool, ReadStop>
    ensures { Reads result (trans_item opening.now phase.old (trans_of c.old)) phase.new c.new out.old out.new }
{
    let t = match read_trans(alloc, c) {
        Ok(t) => t,
        Err(e) => return Err(stop_of_read(e)),
    };
    let in_frame = opens_frame(&t);
    match on_trans(alloc, opening, phase, t, out) {
        Ok(()) => Ok(in_frame),
        Err(e) => Err(e),
    }
}

/// A network message of the frame that is open.
fn network(
    alloc: Global,
    phase: &mut Phase,
    c: &mut Cursor<'_>,
    out: &mut Fed,
) -> Result<bool, ReadStop>
    ensures { Reads result (network_item phase.old c.old) phase.new c.new out.old out.new }
{
    match phase {
        Phase::Opening(_) => Err(INVALID),
        Phase::Established(session) => carried(alloc, session, c, out),
    }
}

fn carried(
    alloc: Global,
    session: &mut Established,
    c: &mut Cursor<'_>,
    out: &mut Fed,
) -> Result<bool, ReadStop>
    ensures { Reads result (network_item (Phase.Established session.old) c.old) (Phase.Established session.new) c.new out.old out.new }
{
    let message = match read_carried(alloc, c, session.role, &session.keys) {
        Ok(message) => message,
        Err(e) => return Err(stop_of_read(e)),
    };
    match session.on_carried(message, out) {
        Ok(()) => Ok(true),
        Err(e) => Err(e),
    }
}

fn opens_frame(t: &Trans) -> bool
    ensures { result ≡ opens_frame t.now }
{
    match t {
        Trans::Frame { .. } => true,
        Trans::Init { .. }
        | Trans::Open { .. }
        | Trans::Close { .. }
        | Trans::KeepAlive
        | Trans::Fragment { .. } => false,
    }
}
