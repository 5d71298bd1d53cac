//! The texts to which one end of a session has given numbers.

ghost use Rattle.std.specs.Prelude.{◌≡◌, ◌+◌, ◌<◌, ◌++◌, ◌∷◌, ℕ, List, [], true, None, take, length, IfOk, OnOk, OnErr};
ghost use Rattle.zr_wirekey.specs.Names.{has_room, number_of};

use crate::scopes::MOST_BYTES;
use std::alloc::{AllocError, Global};
use std::collections::BTreeMap;
use std::marker::Model;
use zr_bytes::ByteString;

/// How many numbers one end gives at most (this profile's limit).
pub const MOST_NAMES: usize = 4_096;

/// Contracts see it as the list of the texts, in the order of their numbers from 1 on.
#[derive(Drop)]
pub struct Names {
    alloc: Global,
    texts: Vec<ByteString>,
    // the number of each text
    numbers: BTreeMap<Vec<u8>, u16>,
    // how many bytes the texts have together
    bytes: usize,
}

impl Model for Names {
    ghost use Rattle.std.specs.Map.{lookup};
    ghost use Rattle.zr_wirekey.specs.Names.{NameList, is_text};
    ghost use Rattle.zr_wirekey.specs.Numbering.{IsNumbering};

    ghost Value = { NameList };

    ghost view = { λ n. n.texts.items };

    ghost invariant = { λ n. IsNumbering n.texts.items (λ text. lookup (λ k. is_text text k.items) n.numbers.entries) n.bytes };
}

impl Names {
    /// No text has a number.
    pub fn new(alloc: Global) -> Names
        ensures { result ≡ [] }
    {
        Names {
            alloc,
            texts: Vec::new(alloc),
            numbers: BTreeMap::new(alloc),
            bytes: 0,
        }
    }

    /// How many texts have a number.
    pub fn count(&self) -> usize
        ensures { result ≡ length self.now }
    {
        self.texts.len()
    }

    /// The number that stands for a text, if one does.
    pub fn number(&self, text: &[u8]) -> Option<u16>
        ensures { result ≡ number_of self.now text.now }
    {
        self.numbers.get(text).copied()
    }

    /// Whether one more text gets a number.
    pub fn has_room(&self, text: &[u8]) -> bool
        ensures { result ≡ has_room self.now text.now }
    {
        self.texts.len() < MOST_NAMES && text.len() <= MOST_BYTES - self.bytes
    }

    /// Gives the next number to a text that has none, where there is room for it. Where memory runs out nothing changes.
    pub fn give(&mut self, text: &[u8]) -> Result<u16, AllocError>
        requires new { number_of self.old text.now ≡ None }
        requires room { has_room self.old text.now ≡ true }
        ensures names { OnOk result (self.new ≡ self.old ++ text.now ∷ []) }
        ensures number { IfOk result (λ n. n ≡ length self.old + 1) }
        ensures err { OnErr result (self.new ≡ self.old) }
    {
        let number = self.texts.len() as u16 + 1;
        let kept = ByteString::from_slice(self.alloc, text)?;
        let copy = ByteString::from_slice(self.alloc, text)?;
        self.texts.reserve(1)?;
        self.numbers.insert(copy.into_vec(), number)?;
        self.texts.push_reserved(kept);
        self.bytes += text.len();
        Ok(number)
    }

    /// Forgets the texts behind the first ones, of which there are so many.
    pub fn keep_first(&mut self, count: usize)
        ensures { self.new ≡ take count self.old }
    {
        'texts: while self.count() > count {
            self.forget_last();
        }
    }

    // Forgets the last text, of some that have numbers.
    fn forget_last(&mut self)
        requires { 0 < length self.old }
        ensures { (text : List ℕ) × (self.old ≡ self.new ++ text ∷ []) }
    {
        if let Some(text) = self.texts.pop() {
            self.bytes -= text.as_slice().len();
            self.numbers.remove(text.as_slice());
        }
    }
}
