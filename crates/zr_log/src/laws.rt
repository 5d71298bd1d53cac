//! Laws of change logs, for the proofs of the crates above.

ghost use Rattle.zr_log.specs.Laws.{KnownStays, KnownGrows, KnownAreSets};

/// What is known stays so when the log grows.
pub fn known_stays()
    ensures { KnownStays }
{}

/// The next change leads from what is known before it to what is known after it.
pub fn known_grows()
    ensures { KnownGrows }
{}

/// What is known is a set.
pub fn known_are_sets()
    ensures { KnownAreSets }
{}
