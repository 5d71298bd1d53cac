//! Words of a line, each appended as it is shown, with texts around them.

ghost use Rattle.std.specs.Prelude.{◌≡◌, ◌++◌, map, OnOk};
ghost use Rattle.zr_script_explain.specs.Causes.{of_two, told};

use crate::forms::word_at;
use std::alloc::AllocError;
use zr_caret::put_shown;

/// The word of this number, as it is shown.
pub(crate) fn put_told(number: usize, words: &[&[u8]], text: &mut Vec<u8>) -> Result<(), AllocError>
    ensures { OnOk result (text.new.items ≡ text.old.items ++ told number (map (λ w. w.now) words.now)) }
{
    put_shown(word_at(number, words), text)
}

/// A text, and a word behind it.
pub(crate) fn put_one(
    before: &[u8],
    number: usize,
    words: &[&[u8]],
    text: &mut Vec<u8>,
) -> Result<(), AllocError>
    ensures { OnOk result (text.new.items ≡ text.old.items ++ (before.now ++ told number (map (λ w. w.now) words.now))) }
{
    text.extend_from_slice(before)?;
    put_told(number, words, text)
}

/// Two words, with texts around them.
pub(crate) fn put_two(
    before: &[u8],
    one: usize,
    between: &[u8],
    other: usize,
    behind: &[u8],
    words: &[&[u8]],
    text: &mut Vec<u8>,
) -> Result<(), AllocError>
    ensures { OnOk result (text.new.items ≡ text.old.items ++ of_two before.now one between.now other behind.now (map (λ w. w.now) words.now)) }
{
    put_one(before, one, words, text)?;
    put_one(between, other, words, text)?;
    text.extend_from_slice(behind)
}
