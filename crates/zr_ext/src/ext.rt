//! An extension of a message or a body.

ghost use Rattle.std.specs.Prelude.{◌≡◌};
ghost use Rattle.zr_ext.specs.Header.{form_of, content_number, same_form};

use zr_bytes::ByteString;

/// How the content of an extension is encoded.
#[derive(Clone, Copy, Debug)]
pub enum Form {
    Unit,
    Number,
    Bytes,
}

impl Form {
    pub(crate) fn is(self, other: Form) -> bool
        ensures { result ≡ same_form self other }
    {
        matches!(
            (self, other),
            (Form::Unit, Form::Unit) | (Form::Number, Form::Number) | (Form::Bytes, Form::Bytes)
        )
    }
}

/// What an extension says: nothing, a number, or at most 2^32 - 1 bytes.
#[derive(Debug, Drop)]
pub enum Content {
    Unit,
    Number(u64),
    Bytes(ByteString),
}

impl Content {
    pub fn form(&self) -> Form
        ensures { result ≡ form_of self.now }
    {
        match self {
            Content::Unit => Form::Unit,
            Content::Number(_) => Form::Number,
            Content::Bytes(_) => Form::Bytes,
        }
    }

    /// The number, where it is one.
    pub fn number(&self) -> Option<u64>
        ensures { result ≡ content_number self.now }
    {
        match self {
            Content::Number(value) => Some(*value),
            Content::Unit | Content::Bytes(_) => None,
        }
    }
}

/// An extension. Its id is below 16; an unknown one that is mandatory is not skipped.
#[derive(Debug, Drop)]
pub struct Ext {
    pub id: u8,
    pub mandatory: bool,
    pub content: Content,
}
