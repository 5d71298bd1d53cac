//! The laws of declarations and interests, over their definitions alone.

ghost use Rattle.zr_decl.specs.Laws.{DeclarationsAreRead, DeclarationsHaveOneReading, WrittenDeclarationsAreRead, WrittenNamesAreRead, InterestsAreRead, InterestsHaveOneReading, WrittenInterestsAreRead, SpelledDeclarationsAreWritten, SpelledInterestsAreWritten};

/// A declaration is read exactly where the bytes begin with one, and refused exactly for its first fault.
pub fn declarations_are_read()
    ensures { DeclarationsAreRead }
{}

/// No declaration begins another one.
pub fn declarations_have_one_reading()
    ensures { DeclarationsHaveOneReading }
{}

/// What is written is read again; what a router tells is read as the declaration that it tells.
pub fn written_declarations_are_read()
    ensures { WrittenDeclarationsAreRead }
{}

/// What declares a number is read again.
pub fn written_names_are_read()
    ensures { WrittenNamesAreRead }
{}

/// An interest is read exactly where the bytes begin with one, and refused exactly for its first fault.
pub fn interests_are_read()
    ensures { InterestsAreRead }
{}

/// No interest begins another one.
pub fn interests_have_one_reading()
    ensures { InterestsHaveOneReading }
{}

/// What is written is read again.
pub fn written_interests_are_read()
    ensures { WrittenInterestsAreRead }
{}

/// Each declaration that has a spelling can be written.
pub fn spelled_declarations_are_written()
    ensures { SpelledDeclarationsAreWritten }
{}

/// Each interest that has a spelling can be written.
pub fn spelled_interests_are_written()
    ensures { SpelledInterestsAreWritten }
{}
