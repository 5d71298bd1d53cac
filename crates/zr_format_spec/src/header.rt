//! The header byte of a message or a declaration.

ghost use Rattle.std.specs.Prelude.{◌≡◌};
ghost use Rattle.zr_format_spec.specs.Writing.{writes_header};

/// The id in a header.
pub const ID: u8 = 0x1F;
/// A message's own first flag.
pub const FIRST: u8 = 0x20;
/// A message's own second flag.
pub const SECOND: u8 = 0x40;
/// Extensions follow, in each message.
pub const EXTENSIONS: u8 = 0x80;

/// The header of this id, with the flags that are set.
pub fn header_byte(id: u8, first: bool, second: bool, extended: bool) -> u8
    ensures { result ≡ writes_header id first second extended }
{
    let first = if first { FIRST } else { 0 };
    let second = if second { SECOND } else { 0 };
    let extended = if extended { EXTENSIONS } else { 0 };
    id | first | second | extended
}
