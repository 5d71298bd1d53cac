//! Laws of reading key expressions: each is a call that does nothing, whose contract is the law.

ghost use Rattle.zr_key.specs.Laws.{IsReading, ReadsEach, ReplacingKeepsKeys, ReadingKeepsKeys, ReadingIsSettled, BytesAreCharacters};

/// What is read is the canonical form of what was spelled.
pub fn reading_is_canonical()
    ensures { IsReading }
{}

/// Each text that spells an expression, is UTF-8 and is short enough, is read.
pub fn each_expression_is_read()
    ensures { ReadsEach }
{}

/// Each of the four replacements keeps the keys that an expression matches.
pub fn replacing_keeps_keys()
    ensures { ReplacingKeepsKeys }
{}

/// An expression matches exactly the keys that its canonical form matches.
pub fn reading_keeps_keys()
    ensures { ReadingKeepsKeys }
{}

/// A canonical text is read as itself.
pub fn canonical_is_settled()
    ensures { ReadingIsSettled }
{}

/// What is said of bytes is said of characters.
pub fn bytes_are_characters()
    ensures { BytesAreCharacters }
{}
