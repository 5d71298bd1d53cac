//! The laws of chains, over their definitions alone.

ghost use Rattle.zr_ext.specs.Laws.{ChainsAreRead, ChainsHaveOneReading, WritesChains};

/// A chain is read exactly where the bytes begin with one, and refused exactly for its first fault.
pub fn chains_are_read()
    ensures { ChainsAreRead }
{}

/// No chain begins another one.
pub fn chains_have_one_reading()
    ensures { ChainsHaveOneReading }
{}

/// What is written spells the extensions, and is read again.
pub fn written_chains_are_read()
    ensures { WritesChains }
{}
