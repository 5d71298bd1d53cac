//! The laws of network messages, over their definitions alone.

ghost use Rattle.zr_net.specs.Laws.{NetIsRead, NetHasOneReading, WrittenNetIsRead, WrittenNamesAreRead, SpelledNetIsWritten};

/// A message is read exactly where the bytes begin with one, and refused exactly for its first fault.
pub fn net_is_read()
    ensures { NetIsRead }
{}

/// No message begins another one.
pub fn net_has_one_reading()
    ensures { NetHasOneReading }
{}

/// What is written is read again.
pub fn written_net_is_read()
    ensures { WrittenNetIsRead }
{}

/// What declares a number is read again.
pub fn written_names_are_read()
    ensures { WrittenNamesAreRead }
{}

/// Each message that has a spelling can be written.
pub fn spelled_net_is_written()
    ensures { SpelledNetIsWritten }
{}
