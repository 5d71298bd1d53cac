//! The batches of a piece.

ghost use Rattle.std.specs.Prelude.{◌≡◌, ◌++◌, ◌<◌, [], IfSome};
ghost use Rattle.zr_frame_batch.specs.Framing.{BeginsWith, lacks};
ghost use Rattle.zr_session.specs.Done.{Takes};

use crate::batch::read_batch;
use crate::event::Fed;
use crate::phase::Phase;
use crate::stop::ReadStop;
use std::alloc::{AllocError, Global};
use zr_frame_batch::{Incoming, split_batch};
use zr_open::Opening;

/// The batch at the front of a piece where nothing is kept and the batch is whole, and the bytes behind it.
fn ahead<'a>(kept: &Incoming, piece: &'a [u8]) -> Option<(&'a [u8], &'a [u8])>
    ensures { IfSome result (λ x. (kept.now ≡ []) × BeginsWith piece.now x.0.now x.1.now) }
{
    if kept.is_empty() {
        split_batch(piece)
    } else {
        None
    }
}

/// Reads the batches of what is kept and a piece.
pub(crate) fn take_piece(
    alloc: Global,
    opening: &Opening,
    phase: &mut Phase,
    kept: &mut Incoming,
    piece: &[u8],
    out: &mut Fed,
    cause: &mut Option<String>,
) -> Result<(), ReadStop>
    requires { 0 < lacks kept.old }
    ensures stream { Takes result opening.now phase.old (kept.old ++ piece.now) phase.new kept.new out.old out.new }
    ensures partial { 0 < lacks kept.new }
{
    let mut rest = piece;
    'pieces: while !rest.is_empty() {
        if let Some((batch, more)) = ahead(kept, rest) {
            match read_batch(alloc, opening, phase, batch, out, cause) {
                Ok(()) => {}
                Err(e) => return Err(e),
            }
            rest = more;
            continue;
        }
        rest = match kept.take(rest) {
            Ok(more) => more,
            Err(AllocError) => return Err(ReadStop::NoMemory),
        };
        if let Some(batch) = kept.batch() {
            let read = read_batch(alloc, opening, phase, batch, out, cause);
            kept.clear();
            match read {
                Ok(()) => {}
                Err(e) => return Err(e),
            }
        }
    }
    Ok(())
}
