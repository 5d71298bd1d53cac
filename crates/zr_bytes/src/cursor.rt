//! A place in a slice of bytes, from which values are read one after another.

ghost use Rattle.std.specs.Prelude.{◌≡◌, ◌^◌, [], length};
ghost use Rattle.zr_bytes.specs.Reading.{Reads, ReadsBy, byte_of, number_of, number_below, text_of};

use crate::number::{below, byte_at, text_at, zint_at};
use crate::read_error::ReadError;
use std::marker::Model;

/// Contracts see a cursor as the bytes that are left. No call takes memory or copies bytes, and a refusal leaves the
/// cursor where it stood.
#[derive(Drop)]
pub struct Cursor<'a> {
    bytes: &'a [u8],
}

impl<'a> Model for Cursor<'a> {
    ghost use Rattle.std.specs.Prelude.{List, ℕ};

    ghost Value = { List ℕ };

    ghost view = { λ c. c.bytes.now };
}

impl<'a> Cursor<'a> {
    /// A cursor at the front of the bytes.
    pub fn new(bytes: &'a [u8]) -> Cursor<'a>
        ensures { result ≡ bytes.now }
    {
        Cursor { bytes }
    }

    /// How many bytes are left.
    pub fn left(&self) -> usize
        ensures { result ≡ length self.now }
    {
        self.bytes.len()
    }

    /// Another cursor at the same place, to read ahead.
    pub fn fork(&self) -> Cursor<'a>
        ensures { result ≡ self.now }
    {
        Cursor { bytes: self.bytes }
    }

    /// All that is left, with the cursor where it stands.
    pub fn as_slice(&self) -> &'a [u8]
        ensures { result.now ≡ self.now }
    {
        self.bytes
    }

    /// Hands out all that is left.
    pub fn rest(&mut self) -> &'a [u8]
        ensures value { result.now ≡ self.old }
        ensures after { self.new ≡ [] }
    {
        let (rest, none) = self.bytes.split_at(self.bytes.len());
        self.bytes = none;
        rest
    }

    /// One byte.
    pub fn u8(&mut self) -> Result<u8, ReadError>
        ensures { Reads result (byte_of self.old) self.old self.new }
    {
        let (byte, rest) = byte_at(self.bytes)?;
        self.bytes = rest;
        Ok(byte)
    }

    /// A number of up to nine bytes, of which the ninth gives all its eight bits. Spellings longer than need be are read.
    pub fn zint(&mut self) -> Result<u64, ReadError>
        ensures { Reads result (number_of self.old) self.old self.new }
    {
        let (value, rest) = zint_at(self.bytes)?;
        self.bytes = rest;
        Ok(value)
    }

    /// A number below 2^8.
    pub fn z8(&mut self) -> Result<u8, ReadError>
        ensures { Reads result (number_below (2 ^ 8) self.old) self.old self.new }
    {
        let (value, rest) = below(self.bytes, 1 << 8)?;
        self.bytes = rest;
        Ok(value as u8)
    }

    /// A number below 2^16.
    pub fn z16(&mut self) -> Result<u16, ReadError>
        ensures { Reads result (number_below (2 ^ 16) self.old) self.old self.new }
    {
        let (value, rest) = below(self.bytes, 1 << 16)?;
        self.bytes = rest;
        Ok(value as u16)
    }

    /// A number below 2^32.
    pub fn z32(&mut self) -> Result<u32, ReadError>
        ensures { Reads result (number_below (2 ^ 32) self.old) self.old self.new }
    {
        let (value, rest) = below(self.bytes, 1 << 32)?;
        self.bytes = rest;
        Ok(value as u32)
    }

    /// A byte string behind its length. The length is judged first: it is too big above `limit`.
    pub fn bytes(&mut self, limit: u64) -> Result<&'a [u8], ReadError>
        ensures { ReadsBy (λ text. text.now) result (text_of limit self.old) self.old self.new }
    {
        let (text, rest) = text_at(self.bytes, limit)?;
        self.bytes = rest;
        Ok(text)
    }
}
