//! The laws of numbered keys, over their definitions alone.

ghost use Rattle.zr_wirekey.specs.Laws.{KeysAreRead, KeysHaveOneReading, NamesAreHeard, WrittenKeysAreRead};

/// A key is read exactly where the bytes begin with one, and refused exactly for its first fault.
pub fn keys_are_read()
    ensures { KeysAreRead }
{}

/// No key begins another one.
pub fn keys_have_one_reading()
    ensures { KeysHaveOneReading }
{}

/// What is written is read again.
pub fn written_keys_are_read()
    ensures { WrittenKeysAreRead }
{}

/// What the sender has given numbers, the receiver of its declarations knows.
pub fn names_are_heard()
    ensures { NamesAreHeard }
{}
