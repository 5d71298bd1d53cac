//! The law of the caret: a call that does nothing, whose contract is the law.

ghost use Rattle.zr_script_explain.specs.Carets.{CaretsAreUnderFaults};

/// The caret of a line that is refused whatever the network is stands under what makes the line wrong: a first word that is no command, a word that doesn't
/// fit the command, a key that is none, a byte that no line may have there, or the first byte too many.
pub fn carets_are_under_faults()
    ensures { CaretsAreUnderFaults }
{}
