//! `explain`: the three lines that explain a refused line.

ghost use Rattle.std.specs.Prelude.{◌≡◌, IfOk};
ghost use Rattle.zr_script_explain.specs.Carets.{CaretsAreUnderFaults};
ghost use Rattle.zr_script_explain.specs.Explained.{explanation};

use crate::causes::put_cause;
use crate::laws::carets_are_under_faults;
use crate::places::place;
use std::alloc::{AllocError, Global};
use zr_caret::{put_caret, put_shown};
use zr_script::word::words_of;
use zr_script_spec::error::ScriptError;

/// The text that explains why a line is refused: the line as it was read, a caret under the word that is wrong, and a sentence with the cause. The clause
/// `carets` says of a line that is refused whatever the network is that the caret stands under what makes it wrong.
pub fn explain(alloc: Global, line: &[u8], error: ScriptError) -> Result<Vec<u8>, AllocError>
    ensures text { IfOk result (λ text. text.items ≡ explanation line.now error) }
    ensures carets { CaretsAreUnderFaults }
{
    carets_are_under_faults(); // a law, which does nothing
    let words = words_of(alloc, line)?;
    let place = place(line, words.as_slice(), error);
    let mut text = Vec::new(alloc);
    put_shown(line, &mut text)?;
    text.extend_from_slice(b"\n")?;
    put_caret(place, &mut text)?;
    put_cause(alloc, line, words.as_slice(), error, &mut text)?;
    text.extend_from_slice(b"\n")?;
    Ok(text)
}
