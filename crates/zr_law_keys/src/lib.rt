//! Laws of key expressions as texts: bytes and characters say the same. A law is a call that does nothing, whose contract is the law.
#![tactic(auto)]

ghost use Rattle.zr_law_keys.specs.Laws.{MatchingIsOfCharacters, MeetingIsOfCharacters};

/// A text matches, byte by byte, the keys that its characters match.
pub fn matching_is_of_characters()
    ensures { MatchingIsOfCharacters }
{}

/// Two texts meet, byte by byte, where some key of characters is matched by the characters of both.
pub fn meeting_is_of_characters()
    ensures { MeetingIsOfCharacters }
{}
