//! What the key texts of a script mean.

ghost use Rattle.zr_law_samples.specs.Keys.{AnsweringIsCovering, AnsweringIsMeeting, AskingIsMeeting, KeysAreTexts};

/// Each key of an accepted command is the canonical text of an expression.
pub fn keys_are_texts()
    ensures { KeysAreTexts }
{}

/// Where the one broker sends a sample to a subscription, some key is matched by both expressions, and the other way round.
pub fn asking_is_meeting()
    ensures { AskingIsMeeting }
{}

/// Where the one broker asks a queryable, some key is matched by both expressions, and the other way round.
pub fn answering_is_meeting()
    ensures { AnsweringIsMeeting }
{}

/// Where it asks one of the complete ones alone, that one is complete and covers what is asked, and the other way round.
pub fn answering_is_covering()
    ensures { AnsweringIsCovering }
{}
