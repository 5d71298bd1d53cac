//! Laws of what is told of faulty rules: each is a call that does nothing, whose contract is the law.

ghost use Rattle.zr_rules.specs.Carets.{CaretsAreUnderWrongKeys, CaretsAreUnderWrongWords};

/// Where the words of a line fit no form, the caret is under the first one with which none does, or that is too much, or
/// that the line lacks.
pub fn carets_are_under_wrong_words()
    ensures { CaretsAreUnderWrongWords }
{}

/// Where a line is refused for its key, the caret is under a word that is no expression.
pub fn carets_are_under_wrong_keys()
    ensures { CaretsAreUnderWrongKeys }
{}
