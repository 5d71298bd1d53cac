//! The CLOSE of a session as one batch.

ghost use Rattle.std.specs.Prelude.{◌≡◌, Some};
ghost use Rattle.zr_link_writer.specs.Parts.{close_bytes};

/// The header of a CLOSE of the whole session (Zenoh protocol 1.0, "CLOSE").
const CLOSE: u8 = 0x23;

/// A CLOSE of the whole session with this reason, as a batch behind its length.
pub fn close_batch(reason: u8) -> [u8; 4]
    ensures { result ≡ close_bytes (Some (Some reason)) }
{
    [0x02, 0x00, CLOSE, reason]
}
