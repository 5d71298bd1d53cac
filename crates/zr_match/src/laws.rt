//! Laws of meeting and covering: each is a call that does nothing, whose contract is the law.

ghost use Rattle.zr_match.specs.Laws.{MeetingHasText, TestsAreRight, CoveringIsInclusion, InclusionIsCovering, CoveringIsInclusionOfTexts, FreshIsThere};

/// The tests that definitions above cite say what meeting and covering mean.
pub fn tests_are_right()
    ensures { TestsAreRight }
{}

/// An expression matches each key of those that it covers.
pub fn covering_is_inclusion()
    ensures { CoveringIsInclusion }
{}

/// An expression covers each one without `**` whose keys it matches.
pub fn inclusion_is_covering()
    ensures { InclusionIsCovering }
{}

/// Unicode has a character more than an expression uses.
pub fn fresh_is_there()
    ensures { FreshIsThere }
{}

/// Expressions that meet have a key of characters in common.
pub fn meeting_has_text()
    ensures { MeetingHasText }
{}

/// A text covers each one without `**` whose keys of characters it matches, and no other.
pub fn covering_is_inclusion_of_texts()
    ensures { CoveringIsInclusionOfTexts }
{}
