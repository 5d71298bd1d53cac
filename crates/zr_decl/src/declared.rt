//! What a declaration comes to.

use zr_bytes::ByteString;
use zr_msg::msg::Msg;

/// What a DECLARE tells its reader.
#[derive(Drop)]
pub enum Declared {
    /// A message for the router.
    Told(Msg),
    /// A number stands for this text from now on. The text need not be an expression by itself.
    Number(u16, ByteString),
    /// A number stands for nothing any more.
    Unnumber(u16),
    /// Nothing: the end of what an interest asked for.
    Ignored,
}
