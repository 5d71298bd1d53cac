//! The laws of transport messages, over their definitions alone.

ghost use Rattle.zr_trans.specs.Laws.{MessagesAreRead, MessagesHaveOneReading, WrittenMessagesAreRead};

/// A message is read exactly where the bytes begin with one, and refused exactly for its first fault.
pub fn messages_are_read()
    ensures { MessagesAreRead }
{}

/// No message begins another one.
pub fn messages_have_one_reading()
    ensures { MessagesHaveOneReading }
{}

/// What is written is read again.
pub fn written_messages_are_read()
    ensures { WrittenMessagesAreRead }
{}
