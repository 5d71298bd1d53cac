//! A text that one side of a session declared.

ghost use Rattle.std.specs.Prelude.{◌≡◌, Ok, IfOk, IfSome};
ghost use Rattle.zr_key.specs.Key.{read_key};
ghost use Rattle.zr_wirekey.specs.Spelling.{IsReadAs, IsReadAs-prop};

use std::alloc::{AllocError, Global};
use std::marker::Model;
use zr_bytes::ByteString;
use zr_key::key::{KeyError, KeyExpr};

/// A text, and the expression that it is by itself, so that it is read once. Contracts see the bytes.
#[derive(Drop)]
pub(crate) struct Text {
    bytes: ByteString,
    // none where the text is no expression by itself
    key: Option<KeyExpr>,
    ghost read: { IsReadAs bytes key } by { IsReadAs-prop bytes key },
}

impl Model for Text {
    ghost use Rattle.std.specs.Prelude.{List, ℕ};

    ghost Value = { List ℕ };

    ghost view = { λ t. t.bytes };
}

impl Text {
    /// A copy of these bytes.
    pub fn new(alloc: Global, bytes: &[u8]) -> Result<Text, AllocError>
        ensures { IfOk result (λ t. t ≡ bytes.now) }
    {
        let key = expression(alloc, bytes)?;
        Ok(Text {
            bytes: ByteString::from_slice(alloc, bytes)?,
            key,
        })
    }

    /// The bytes.
    pub fn as_slice(&self) -> &[u8]
        ensures { result.now ≡ self.now }
    {
        self.bytes.as_slice()
    }

    /// The expression that the text is by itself, if it is one.
    pub fn key(&self) -> Option<&KeyExpr>
        ensures { IfSome result (λ key. read_key self.now ≡ Ok key.now) }
    {
        self.key.as_ref()
    }
}

// The expression that the bytes spell, if they spell one.
fn expression(alloc: Global, bytes: &[u8]) -> Result<Option<KeyExpr>, AllocError>
    ensures { IfOk result (λ key. IsReadAs bytes.now key) }
{
    match KeyExpr::read(alloc, bytes) {
        Ok(key) => Ok(Some(key)),
        Err(KeyError::NoMemory) => Err(AllocError),
        Err(_) => Ok(None),
    }
}
