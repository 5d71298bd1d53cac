//! The laws of the formats of this crate, over their definitions alone.

ghost use Rattle.zr_bytes.specs.Laws.{NumbersAreRead, NumbersAreJudged, TextsAreRead, WritesShortest, HaveOneReading};

/// A number is read exactly where the bytes begin with it.
pub fn numbers_are_read()
    ensures { NumbersAreRead }
{}

/// A number of a type is read exactly where the bytes begin with it and it fits.
pub fn numbers_are_judged()
    ensures { NumbersAreJudged }
{}

/// A byte string is read exactly where the bytes begin with it and it is within its limit.
pub fn texts_are_read()
    ensures { TextsAreRead }
{}

/// What is written spells its value, in the fewest bytes.
pub fn written_is_shortest()
    ensures { WritesShortest }
{}

/// No spelling begins another one.
pub fn have_one_reading()
    ensures { HaveOneReading }
{}
