//! Bytes as they are shown, and the line with the caret, each appended to a text.

ghost use Rattle.std.specs.Prelude.{◌≡◌, ◌++◌, replicate, OnOk};
ghost use Rattle.zr_caret.specs.Shown.{caret_line, shown, shown_byte};

use std::alloc::AllocError;

/// What stands in the place of a byte that is not printable.
const UNPRINTABLE: u8 = b'?';

/// Bytes, of which those that are not printable ASCII are shown as `?`.
pub fn put_shown(bytes: &[u8], text: &mut Vec<u8>) -> Result<(), AllocError>
    ensures { OnOk result (text.new.items ≡ text.old.items ++ shown bytes.now) }
{
    for byte in bytes {
        text.push(shown_byte(*byte))?;
    }
    Ok(())
}

fn shown_byte(byte: u8) -> u8
    ensures { result ≡ shown_byte byte }
{
    if (b' '..=b'~').contains(&byte) {
        byte
    } else {
        UNPRINTABLE
    }
}

/// A caret behind so many spaces, and a line end.
pub fn put_caret(place: usize, text: &mut Vec<u8>) -> Result<(), AllocError>
    ensures { OnOk result (text.new.items ≡ text.old.items ++ caret_line place) }
{
    put_spaces(place, text)?;
    text.extend_from_slice(b"^")?;
    text.extend_from_slice(b"\n")
}

fn put_spaces(count: usize, text: &mut Vec<u8>) -> Result<(), AllocError>
    ensures { OnOk result (text.new.items ≡ text.old.items ++ replicate count 32) }
{
    'spaces: for _ in 0..count {
        text.push(b' ')?;
    }
    Ok(())
}
