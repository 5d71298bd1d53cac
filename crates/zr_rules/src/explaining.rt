//! `put_explanation`: where a faulty line of rules is wrong.

ghost use Rattle.std.specs.Prelude.{◌≡◌, ◌++◌, not, map, position, IfOk, OnOk};
ghost use Rattle.std.specs.Option.{option_copied};
ghost use Rattle.zr_access.specs.Text.{is_readable, is_space, is_word, words};
ghost use Rattle.zr_rules.specs.Explained.{bad_default, bad_rule, bad_word, cause, explanation, is_client, is_verb, line_at, place, place_of_bytes, place_of_space};

use std::alloc::{AllocError, Global};
use zr_access::{MOST_LINE, PolicyFault};
use zr_caret::{place_of_word, put_caret, put_shown};
use zr_id::zid::Zid;
use zr_lists::cut;

/// Appends the line as it was read, a caret under what is wrong, and what is expected there.
pub(crate) fn put_explanation(
    alloc: Global,
    line: &[u8],
    fault: PolicyFault,
    text: &mut Vec<u8>,
) -> Result<(), AllocError>
    ensures { OnOk result (text.new.items ≡ text.old.items ++ explanation line.now fault) }
{
    let place = place(alloc, line, fault)?;
    put_shown(line, text)?;
    text.extend_from_slice(b"\n")?;
    put_caret(place, text)?;
    text.extend_from_slice(cause(fault))?;
    text.extend_from_slice(b"\n")
}

fn cause(fault: PolicyFault) -> &'static [u8]
    ensures { result.now ≡ cause fault }
{
    match fault {
        PolicyFault::BadWords => {
            b"a line is allow or deny with a client, an act and a key, or default with allow or deny"
        }
        PolicyFault::BadKey => b"this is no key expression",
        PolicyFault::Misplaced => b"nothing may stand behind the default",
        PolicyFault::TooLong => b"a line has at most 4096 bytes, and there are at most 4096 lines",
    }
}

// How many bytes stand in front of what is wrong.
fn place(alloc: Global, line: &[u8], fault: PolicyFault) -> Result<usize, AllocError>
    ensures { IfOk result (λ at. at ≡ place line.now fault) }
{
    match fault {
        PolicyFault::BadWords => place_of_bad_words(alloc, line),
        PolicyFault::BadKey => Ok(place_of_word(3, line)),
        PolicyFault::Misplaced => Ok(0),
        PolicyFault::TooLong => Ok(if line.len() > MOST_LINE { MOST_LINE } else { 0 }),
    }
}

// A control character, a space at one end, or the first word that is wrong.
fn place_of_bad_words(alloc: Global, line: &[u8]) -> Result<usize, AllocError>
    ensures { IfOk result (λ at. at ≡ place line.now PolicyFault.BadWords) }
{
    if let Some(place) = place_of_bytes(line) {
        return Ok(place);
    }
    let words = words_of(alloc, line)?;
    Ok(place_of_word(bad_word(words.as_slice()), line))
}

fn place_of_bytes(line: &[u8]) -> Option<usize>
    ensures { result ≡ place_of_bytes (position (λ b. not (is_readable b)) line.now) line.now }
{
    match odd_byte(line) {
        Some(place) => Some(place),
        None => place_of_space(line),
    }
}

fn odd_byte(line: &[u8]) -> Option<usize>
    ensures { result ≡ position (λ b. not (is_readable b)) line.now }
{
    line.iter().position(|b| !(*b >= b' ' && *b != 127))
}

// Where a line begins or else ends with a space.
fn place_of_space(line: &[u8]) -> Option<usize>
    ensures { result ≡ place_of_space line.now }
{
    if is_space(line.first()) {
        Some(0)
    } else if is_space(line.last()) {
        Some(line.len().saturating_sub(1))
    } else {
        None
    }
}

fn is_space(byte: Option<&u8>) -> bool
    ensures { result ≡ is_space (option_copied byte.entry) }
{
    match byte {
        Some(b) => *b == b' ',
        None => false,
    }
}

// The words of a line, parted by one or more spaces.
fn words_of(alloc: Global, line: &[u8]) -> Result<Vec<&[u8]>, AllocError>
    ensures { IfOk result (λ v. map (λ w. w.now) v.items ≡ words line.now) }
{
    line.split(|b| *b == b' ')
        .filter(|word| !word.is_empty())
        .collect(alloc)
}

// The number of the first word that fits no rule; one that is missing has a number behind the last one.
fn bad_word(words: &[&[u8]]) -> usize
    ensures { result ≡ bad_word (map (λ w. w.now) words.now) }
{
    match words {
        [] => 0,
        [first, more @ ..] => {
            if is_word(first, b"default") {
                bad_default(more)
            } else if is_verb(first) {
                bad_rule(more)
            } else {
                0
            }
        }
    }
}

// `default` has one word behind it.
fn bad_default(more: &[&[u8]]) -> usize
    ensures { result ≡ bad_default (map (λ w. w.now) more.now) }
{
    match more {
        [] | [_] => 1,
        _ => 2,
    }
}

// A rule has a client, an act and a key behind its first word.
fn bad_rule(more: &[&[u8]]) -> usize
    ensures { result ≡ bad_rule (map (λ w. w.now) more.now) }
{
    match more {
        [] => 1,
        [_] => 2,
        [_, _] => 3,
        [client, _, _] => { if is_client(client) { 2 } else { 1 } }
        _ => 4,
    }
}

fn is_verb(word: &[u8]) -> bool
    ensures { result ≡ is_verb word.now }
{
    is_word(word, b"allow") || is_word(word, b"deny")
}

fn is_client(word: &[u8]) -> bool
    ensures { result ≡ is_client word.now }
{
    is_word(word, b"*") || Zid::from_hex(word).is_ok()
}

fn is_word(a: &[u8], b: &[u8]) -> bool
    ensures { result ≡ is_word a.now b.now }
{
    a == b
}

/// The line of this number, counted from 1, without its end; no bytes where there is none.
pub(crate) fn line_at(number: u64, bytes: &[u8]) -> &[u8]
    ensures { result.now ≡ line_at number bytes.now }
{
    let mut left = number;
    let mut rest = bytes;
    'lines: loop {
        let (line, more) = cut(rest, b'\n');
        if left <= 1 {
            return line;
        }
        match more {
            Some(behind) => {
                rest = behind;
                left -= 1;
            }
            None => return &[],
        }
    }
}
