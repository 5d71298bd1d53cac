//! The words of a line, and what one word spells: an identifier, a number, a target, a mode, kinds, a key, a payload.

ghost use Rattle.std.specs.Prelude.{◌≡◌, ◌==◌, ◌&&◌, ◌+◌, ◌*◌, ◌-◌, ◌^◌, not, nat_lt, Some, None, map, IfOk, if◌then◌else◌};
ghost use Rattle.std.specs.List.{list_all};
ghost use Rattle.std.specs.Option.{option_copied};
ghost use Rattle.zr_script_spec.specs.Step.{IsSaid};
ghost use Rattle.zr_script_spec.specs.Words.{words, is_word, is_clean, is_space, is_printable, is_digit, is_number, value_of, number_at, weight_at, zid_at, target_at, mode_at, kinds_at, key_at, optional_key_at, payload_at};

use std::alloc::{AllocError, Global};
use zr_id::zid::Zid;
use zr_key::key::{KeyError, KeyExpr};
use zr_msg::msg::{Kinds, QUERYABLES, SUBSCRIBERS, TOKENS, Target};
use zr_msg::peer::Weight;
use zr_script_spec::command::Mode;
use zr_script_spec::error::ScriptError;

/// The most that a link weighs.
const MOST_WEIGHT: u32 = 65_535;

/// The words of a line, parted by one or more spaces.
pub fn words_of(alloc: Global, line: &[u8]) -> Result<Vec<&[u8]>, AllocError>
    ensures { IfOk result (λ v. map (λ w. w.now) v.items ≡ words line.now) }
{
    line.split(|b| *b == b' ')
        .filter(|word| !word.is_empty())
        .collect(alloc)
}

/// Whether a line has printable bytes alone, and neither begins nor ends with a space.
pub fn is_clean(line: &[u8]) -> bool
    ensures { result ≡ is_clean line.now }
{
    are_printable(line) && !is_space(line.first()) && !is_space(line.last())
}

/// Whether a name is this word.
pub fn is_word(name: &[u8], word: &[u8]) -> bool
    ensures { result ≡ is_word name.now word.now }
{
    // most words differ in length, which is told without a call
    name.len() == word.len() && name == word
}

/// The identifier that a word names.
pub fn zid(word: &[u8]) -> Result<Zid, ScriptError>
    ensures { IsSaid result (zid_at word.now) }
{
    match Zid::from_hex(word) {
        Ok(id) => Ok(id),
        Err(_) => Err(ScriptError::BadWords),
    }
}

/// The number that a word spells.
pub fn number(word: &[u8]) -> Result<u32, ScriptError>
    ensures { IsSaid result (number_at word.now) }
{
    if !is_number(word) {
        return Err(ScriptError::BadWords);
    }
    match value(word) {
        Some(n) => Ok(n),
        None => Err(ScriptError::BadWords),
    }
}

/// The weight that a word spells: a number from 1 to 65,535.
#[tactic(auto, using(crate::proofs::Digits::not_small))]
pub fn weight(word: &[u8]) -> Result<Weight, ScriptError>
    ensures { IsSaid result (weight_at word.now) }
{
    if !is_number(word) {
        return Err(ScriptError::BadWords);
    }
    match value(word) {
        Some(n) if n > 0 && n <= MOST_WEIGHT => Ok(Weight::new(n as u16)),
        _ => Err(ScriptError::BadWords),
    }
}

/// Which queryables a word asks.
pub fn target(word: &[u8]) -> Result<Target, ScriptError>
    ensures { IsSaid result (target_at word.now) }
{
    if word == b"best".as_slice() {
        Ok(Target::Best)
    } else if word == b"all".as_slice() {
        Ok(Target::All)
    } else if word == b"complete".as_slice() {
        Ok(Target::Complete)
    } else {
        Err(ScriptError::BadWords)
    }
}

/// Of which declarations a word asks to be told.
pub fn mode(word: &[u8]) -> Result<Mode, ScriptError>
    ensures { IsSaid result (mode_at word.now) }
{
    if word == b"now".as_slice() {
        Ok(Mode::Now)
    } else if word == b"later".as_slice() {
        Ok(Mode::Later)
    } else if word == b"both".as_slice() {
        Ok(Mode::Both)
    } else {
        Err(ScriptError::BadWords)
    }
}

/// Of which kinds of declarations.
pub fn kinds(word: &[u8]) -> Result<Kinds, ScriptError>
    ensures { IsSaid result (kinds_at word.now) }
{
    if word == b"sub".as_slice() {
        Ok(Kinds(SUBSCRIBERS))
    } else if word == b"able".as_slice() {
        Ok(Kinds(QUERYABLES))
    } else if word == b"all".as_slice() {
        Ok(Kinds(SUBSCRIBERS | QUERYABLES))
    } else if word == b"token".as_slice() {
        Ok(Kinds(TOKENS))
    } else {
        Err(ScriptError::BadWords)
    }
}

/// The key expression of an interest, which may have none.
pub fn optional_key(alloc: Global, word: &[u8]) -> Result<Option<KeyExpr>, ScriptError>
    ensures { IsSaid result (optional_key_at word.now) }
{
    if word == b"-".as_slice() {
        return Ok(None);
    }
    let key = key(alloc, word)?;
    Ok(Some(key))
}

/// The key expression that a word spells.
pub fn key(alloc: Global, word: &[u8]) -> Result<KeyExpr, ScriptError>
    ensures { IsSaid result (key_at word.now) }
{
    match KeyExpr::read(alloc, word) {
        Ok(key) => Ok(key),
        Err(KeyError::NoMemory) => Err(ScriptError::NoMemory),
        Err(_) => Err(ScriptError::BadKey),
    }
}

/// The payload that a word spells.
pub fn payload(word: &[u8]) -> &[u8]
    ensures { result.now ≡ payload_at word.now }
{
    if word == b"-".as_slice() { &[] } else { word }
}

fn are_printable(line: &[u8]) -> bool
    ensures { result ≡ list_all is_printable line.now }
{
    line.iter().all(|b| (b' '..=b'~').contains(b))
}

fn is_space(byte: Option<&u8>) -> bool
    ensures { result ≡ is_space (option_copied byte.entry) }
{
    match byte {
        Some(b) => *b == b' ',
        None => false,
    }
}

/// Whether a word is decimal digits without leading zeros.
pub fn is_number(word: &[u8]) -> bool
    ensures { result ≡ is_number word.now }
{
    match word {
        [] => false,
        [digit] => digit.is_ascii_digit(),
        [first, ..] => *first != b'0' && are_digits(word),
    }
}

fn are_digits(word: &[u8]) -> bool
    ensures { result ≡ list_all is_digit word.now }
{
    word.iter().all(|b| b.is_ascii_digit())
}

/// The value of some digits, where it fits.
pub fn value(word: &[u8]) -> Option<u32>
    ensures { result ≡ (if nat_lt (value_of word.now) (2 ^ 32) then Some (value_of word.now) else None) }
{
    let mut n: u64 = 0;
    for b in word {
        n = n * 10 + u64::from(b.saturating_sub(b'0'));
        if n > u64::from(u32::MAX) {
            return None;
        }
    }
    Some(n as u32)
}
