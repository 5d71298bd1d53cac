//! The forms of the usage line.

ghost use Rattle.zr_top_words.specs.Forms.{FormsAreTaken};

/// Words in a form of the usage line, with values in range, are taken for what they say. It does nothing.
pub fn forms_are_taken()
    ensures { FormsAreTaken }
{}
