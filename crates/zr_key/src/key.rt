//! `KeyExpr`: a key expression that was read, and why a text is none.

ghost use Rattle.std.specs.Prelude.{◌≡◌, ◌==◌, ◌||◌, not, true, false, IfOk, MatchOption};
ghost use Rattle.std.specs.List.{position};
ghost use Rattle.std.specs.Str.{IsUtf8, is_utf8};
ghost use Rattle.std.specs.String.{string_bytes};
ghost use Rattle.zr_key.specs.Key.{Answers, read_key, IsKeyText, is_plain_text, plain_prefix_len};

use crate::canonical::canonical_text;
use crate::faults::fault;
use std::alloc::{AllocError, Global};
use std::marker::Model;
use thiserror::Error;

/// How many bytes the text of an expression has at most (this profile's limit).
pub const MOST_BYTES: usize = 2048;

/// A key expression in its canonical form (Zenoh key expressions RFC): chunks joined by `/`, none empty, with no `#` or `?`. A chunk `*` stands
/// for any one chunk, a chunk `**` for any number of them, and `$*` within a chunk for any characters. A chunk that begins with `@` is
/// verbatim: it has no `$*`, and no wildcard matches it.
#[derive(Debug)]
pub struct KeyExpr {
    text: String,
    // how many bytes stand before the first wildcard, which is asked at each comparison
    plain_prefix: usize,
}

// Written out, so that it is proved here, and not by each crate that lets one go.
impl Drop for KeyExpr {
    fn drop(self) {
        let Self {
            text: _text,
            plain_prefix: _plain_prefix,
        } = self;
    }
}

/// Why a text is no key expression. The first that applies is answered: `Empty`, `TooLong`, `NotUtf8`, and then, for the first
/// faulty chunk from the left, `EmptyChunk`, else `BadChar`, else `BadStar`.
#[derive(Clone, Copy, Debug, PartialEq, Eq, Error)]
pub enum KeyError {
    #[error("no bytes")]
    Empty,
    #[error("a chunk is empty")]
    EmptyChunk,
    #[error("a chunk has `#` or `?`")]
    BadChar,
    #[error("`*` or `$` stands where it may not")]
    BadStar,
    #[error("not UTF-8")]
    NotUtf8,
    #[error("more than 2,048 bytes")]
    TooLong,
    #[error("out of memory")]
    NoMemory,
}

impl From<AllocError> for KeyError {
    ghost use Rattle.std.specs.Prelude.{◌≡◌};
    ghost use Rattle.zr_key.specs.declared.key.KeyError.TheVariants.{NoMemory};

    ghost from_gives = { λ _ e. e ≡ NoMemory };

    fn from(_e: AllocError) -> KeyError {
        KeyError::NoMemory
    }
}

impl Model for KeyExpr {
    ghost use Rattle.std.specs.Prelude.{ℕ, List};
    ghost use Rattle.std.specs.String.{string_bytes};

    ghost Value = { List ℕ };

    ghost view = { λ k. string_bytes k.text };

    ghost use Rattle.std.specs.Prelude.{◌≡◌};
    ghost use Rattle.zr_key.specs.Key.{IsKeyText, plain_prefix_len};

    ghost invariant = { λ k. IsKeyText (string_bytes k.text) × (k.plain_prefix ≡ plain_prefix_len (string_bytes k.text)) };
}

impl KeyExpr {
    /// The canonical form of the expression that a text spells.
    pub fn read(alloc: Global, bytes: &[u8]) -> Result<KeyExpr, KeyError>
        ensures { Answers result (read_key bytes.now) }
    {
        if bytes.is_empty() {
            return Err(KeyError::Empty);
        }
        if bytes.len() > MOST_BYTES {
            return Err(KeyError::TooLong);
        }
        if !is_utf8(bytes) {
            return Err(KeyError::NotUtf8);
        }
        match fault(bytes) {
            Some(e) => Err(e),
            None => {
                let text = text_of(canonical_text(alloc, bytes)?);
                let plain_prefix = plain_prefix_len(text.as_bytes());
                Ok(KeyExpr { text, plain_prefix })
            }
        }
    }

    /// The canonical text of the expression.
    pub fn text(&self) -> &str
        ensures value { result.now ≡ self.now }
        ensures key { IsKeyText self.now }
    {
        self.text.as_str()
    }

    /// Whether the expression is a key: it has no wildcard.
    pub fn is_plain(&self) -> bool
        ensures { result ≡ is_plain_text self.now }
    {
        self.plain_prefix == self.text().len()
    }

    /// How many bytes of the text stand before its first wildcard: all of them, where it has none.
    pub fn plain_prefix_len(&self) -> usize
        ensures { result ≡ plain_prefix_len self.now }
    {
        self.plain_prefix
    }

    /// The same expression again.
    pub fn copy(&self, alloc: Global) -> Result<KeyExpr, AllocError>
        ensures { IfOk result (λ k. k ≡ self.now) }
    {
        Ok(KeyExpr {
            text: String::from_str(alloc, self.text.as_str())?,
            plain_prefix: self.plain_prefix,
        })
    }
}

impl PartialEq for KeyExpr {
    ghost use Rattle.std.specs.Prelude.{nat_eq};
    ghost use Rattle.std.specs.Cmp.{partial_equiv_from_equiv};
    ghost use Rattle.std.specs.Cmp.Lexicographic.{pointwise, nat_list_eq_equiv};

    ghost eq = { pointwise nat_eq };

    ghost laws = { partial_equiv_from_equiv nat_list_eq_equiv };

    fn eq(&self, other: &KeyExpr) -> bool {
        self.text.as_bytes() == other.text.as_bytes()
    }
}

impl Eq for KeyExpr {
    ghost use Rattle.std.specs.Cmp.Lexicographic.{nat_list_eq_equiv};

    ghost laws = { nat_list_eq_equiv };
}

fn is_utf8(bytes: &[u8]) -> bool
    ensures { result ≡ is_utf8 bytes.now }
{
    str::from_utf8(bytes).is_ok()
}

// The bytes as text.
fn text_of(bytes: Vec<u8>) -> String
    requires { IsUtf8 bytes.items }
    ensures { string_bytes result ≡ bytes.items }
{
    match String::from_utf8(bytes) {
        Ok(text) => text,
        Err(_) => unreachable!(),
    }
}

fn plain_prefix_len(text: &[u8]) -> usize
    ensures { result ≡ plain_prefix_len text.now }
{
    first_star(text).unwrap_or(text.len())
}

fn first_star(text: &[u8]) -> Option<usize>
    ensures { result ≡ position (λ b. b == 42 || b == 36) text.now }
{
    text.iter().position(|b| *b == b'*' || *b == b'$')
}
