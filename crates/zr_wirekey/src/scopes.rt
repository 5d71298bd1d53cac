//! The texts that one side of a session declared, by their numbers.

ghost use Rattle.std.specs.Prelude.{◌≡◌, ◌<◌, ◌↔◌, ℕ, List, OnOk, OnErr, IfSome, [], Some, Ok, option_copied, option_map, unwrap_or, length};
ghost use Rattle.std.specs.Map.{lookup};
ghost use Rattle.zr_key.specs.Key.{read_key};
ghost use Rattle.zr_wirekey.specs.Scopes.{Texts, is_number, text_at, declared, undeclared, bytes_of};

use crate::text::Text;
use std::alloc::{AllocError, AllocFailed, Global};
use std::collections::BTreeMap;
use std::marker::Model;
use thiserror::Error;
use zr_key::key::KeyExpr;

/// How many bytes the texts of one side have at most, together (this profile's limit).
pub const MOST_BYTES: usize = 1_048_576;

/// Why a text was not declared.
#[derive(Clone, Copy, Debug, PartialEq, Eq, Error)]
pub enum ScopeError {
    #[error("the declared texts pass 1,048,576 bytes")]
    Limit,
    #[error("out of memory")]
    NoMemory,
}

impl From<AllocError> for ScopeError {
    ghost use Rattle.std.specs.Prelude.{◌≡◌};
    ghost use Rattle.zr_wirekey.specs.declared.scopes.ScopeError.TheVariants.{NoMemory};

    ghost from_gives = { λ _ e. e ≡ NoMemory };

    fn from(_e: AllocError) -> ScopeError {
        ScopeError::NoMemory
    }
}

impl<T: Drop> From<AllocFailed<T>> for ScopeError {
    ghost use Rattle.std.specs.Prelude.{◌≡◌};
    ghost use Rattle.zr_wirekey.specs.declared.scopes.ScopeError.TheVariants.{NoMemory};

    ghost from_gives = { λ _ e. e ≡ NoMemory };

    fn from(_e: AllocFailed<T>) -> ScopeError {
        ScopeError::NoMemory
    }
}

/// Contracts see it as the list of numbers with their texts, in ascending order of the numbers.
#[derive(Drop)]
pub struct Scopes {
    alloc: Global,
    texts: BTreeMap<u16, Text>,
    // how many bytes the texts have together
    bytes: usize,
}

impl Model for Scopes {
    ghost use Rattle.zr_wirekey.specs.Scopes.{Texts, IsCounted};

    ghost Value = { Texts };

    ghost view = { λ s. s.texts.entries };

    ghost invariant = { λ s. IsCounted s.texts.entries s.bytes };
}

impl Scopes {
    /// No texts.
    pub fn new(alloc: Global) -> Scopes
        ensures { result ≡ [] }
    {
        Scopes {
            alloc,
            texts: BTreeMap::new(alloc),
            bytes: 0,
        }
    }

    /// The text that a number stands for. Number 0 is the empty text.
    pub fn text(&self, number: u16) -> Option<&[u8]>
        ensures { option_copied result ≡ text_at self.now number }
    {
        if number == 0 {
            return Some(&[]);
        }
        Some(self.texts.get(&number)?.as_slice())
    }

    /// The expression that the text of a number is by itself, if it is one.
    pub fn key(&self, number: u16) -> Option<&KeyExpr>
        ensures { IfSome result (λ key. (text : List ℕ) × (text_at self.now number ≡ Some text) × (read_key text ≡ Ok key.now)) }
    {
        if number == 0 {
            return None;
        }
        self.texts.get(&number)?.key()
    }

    /// Declares a text under a number, in the place of an earlier one. A refusal changes nothing.
    pub fn declare(&mut self, number: u16, text: &[u8]) -> Result<(), ScopeError>
        ensures ok { OnOk result (self.new ≡ declared self.old number text.now) }
        ensures limit { (result ≡ Err ScopeError.Limit) ↔ (1048576 < bytes_of (declared self.old number text.now)) }
        ensures err { OnErr result (self.new ≡ self.old) }
    {
        let bytes = self.bytes - length_at(&self.texts, number) + text.len();
        if bytes > MOST_BYTES {
            return Err(ScopeError::Limit);
        }
        let text = Text::new(self.alloc, text)?;
        self.texts.insert(number, text)?;
        self.bytes = bytes;
        Ok(())
    }

    /// Forgets the text of a number, if it has one.
    pub fn undeclare(&mut self, number: u16)
        ensures { self.new ≡ undeclared self.old number }
    {
        if let Some(text) = self.texts.remove(&number) {
            self.bytes -= text.as_slice().len();
        }
    }
}

/// How many bytes the text of a number has, if it has one.
fn length_at(texts: &BTreeMap<u16, Text>, number: u16) -> usize
    ensures { result ≡ unwrap_or (option_map (λ text. length text) (lookup (is_number number) texts.now.entries)) 0 }
{
    match texts.get(&number) {
        Some(text) => text.as_slice().len(),
        None => 0,
    }
}
