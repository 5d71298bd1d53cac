//! Bytes that a value of the wire keeps.

ghost use Rattle.std.specs.Prelude.{◌≡◌, ◌++◌, IfOk, OnOk, OnErr};

use std::alloc::{AllocError, Global};
use std::marker::Model;

/// Contracts see it as the list of its bytes. It is made from a `Vec`, and gives it back, without taking memory.
#[derive(Debug, Drop)]
pub struct ByteString {
    bytes: Vec<u8>,
}

impl Model for ByteString {
    ghost use Rattle.std.specs.Prelude.{List, ℕ};

    ghost Value = { List ℕ };

    ghost view = { λ b. b.bytes.items };
}

impl ByteString {
    /// The bytes of a vector.
    pub fn new(bytes: Vec<u8>) -> ByteString
        ensures { result ≡ bytes.items }
    {
        ByteString { bytes }
    }

    /// A copy of these bytes.
    pub fn from_slice(alloc: Global, bytes: &[u8]) -> Result<ByteString, AllocError>
        ensures { IfOk result (λ b. b ≡ bytes.now) }
    {
        Ok(ByteString {
            bytes: bytes.to_vec(alloc)?,
        })
    }

    /// The bytes.
    pub fn as_slice(&self) -> &[u8]
        ensures { result.now ≡ self.now }
    {
        &self.bytes
    }

    /// Appends bytes. Where memory runs out nothing is appended.
    pub fn append(&mut self, more: &[u8]) -> Result<(), AllocError>
        ensures ok { OnOk result (self.new ≡ self.old ++ more.now) }
        ensures err { OnErr result (self.new ≡ self.old) }
    {
        self.bytes.extend_from_slice(more)
    }

    /// The vector that holds the bytes.
    pub fn into_vec(self) -> Vec<u8>
        ensures { result.items ≡ self }
    {
        self.bytes
    }

    /// Another copy.
    pub fn copy(&self, alloc: Global) -> Result<ByteString, AllocError>
        ensures { IfOk result (λ b. b ≡ self.now) }
    {
        ByteString::from_slice(alloc, &self.bytes)
    }
}
