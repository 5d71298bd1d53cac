//! The laws of bodies, over their definitions alone.

ghost use Rattle.zr_body.specs.Laws.{BodiesAreRead, BodiesHaveOneReading};

/// A body is read exactly where the bytes begin with one, refused exactly for its first fault, and what is passed on is
/// read again.
pub fn bodies_are_read()
    ensures { BodiesAreRead }
{}

/// No body begins another one.
pub fn bodies_have_one_reading()
    ensures { BodiesHaveOneReading }
{}
