//! The laws of messages between routers, over their definitions alone.

ghost use Rattle.zr_oam.specs.Laws.{OamIsRead, OamHasOneReading, WrittenOamIsRead, SpelledOamIsWritten};

/// A message is read exactly where the bytes begin with one, and refused exactly for its first fault.
pub fn oam_is_read()
    ensures { OamIsRead }
{}

/// No message begins another one.
pub fn oam_has_one_reading()
    ensures { OamHasOneReading }
{}

/// What is written is read again.
pub fn written_oam_is_read()
    ensures { WrittenOamIsRead }
{}

/// Each message that has a spelling can be written.
pub fn spelled_oam_is_written()
    ensures { SpelledOamIsWritten }
{}
