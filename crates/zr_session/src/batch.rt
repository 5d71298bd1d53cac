//! A batch, message by message.

ghost use Rattle.std.specs.Prelude.{◌≡◌};
ghost use Rattle.zr_session.specs.Stream.{on_batch};
ghost use Rattle.zr_session.specs.Done.{Goes};

use crate::event::Fed;
use crate::item::read_item;
use crate::phase::Phase;
use crate::stop::{INVALID, ReadStop};
use std::alloc::Global;
use zr_bytes::Cursor;
use zr_open::Opening;

/// Reads a batch up to its first fault, of which `cause` is told.
pub(crate) fn read_batch(
    alloc: Global,
    opening: &Opening,
    phase: &mut Phase,
    batch: &[u8],
    out: &mut Fed,
    cause: &mut Option<String>,
) -> Result<(), ReadStop>
    ensures { Goes result (on_batch opening.now phase.old batch.now) phase.new out.old out.new }
{
    let mut c = Cursor::new(batch);
    let mut in_frame = false;
    // Each message takes a byte at least.
    'items: for _ in 0..batch.len() {
        if c.left() == 0 {
            return Ok(());
        }
        in_frame = match read_item(alloc, opening, phase, in_frame, &mut c, out, cause) {
            Ok(in_frame) => in_frame,
            Err(e) => return Err(e),
        };
    }
    if c.left() == 0 { Ok(()) } else { Err(INVALID) }
}
