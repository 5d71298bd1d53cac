//! Where a refused line is wrong: at which word, or at which byte.

ghost use Rattle.std.specs.Prelude.{◌≡◌, map, slice_get};
ghost use Rattle.zr_script_spec.specs.Words.{is_space};
ghost use Rattle.zr_script_explain.specs.Places.{bad_word, has_all, interest_word, is_count, is_first_good, is_interest_bad, is_kind, is_mode, is_name, is_query_bad, is_target, is_time_bad, is_weight, is_weight_bad, later_word, linked_word, odd_byte, place, place_of_byte, place_of_limit, place_of_space, query_word, taken_word, unknown_word};

use crate::forms::{
    gives_number, is_interest, is_of_client, is_query, is_reply, key_number, links, most_behind,
    word_at, words_behind,
};
use zr_caret::place_of_word;
use zr_id::zid::Zid;
use zr_script::line::MOST_LINE;
use zr_script::word::{is_clean, is_number, is_word, value};
use zr_script_spec::error::ScriptError;

/// The place of the word that is wrong, or of the byte where a byte is wrong, in a line of these words.
pub(crate) fn place(line: &[u8], words: &[&[u8]], error: ScriptError) -> usize
    ensures { result ≡ place line.now (map (λ w. w.now) words.now) error }
{
    let name = word_at(0, words);
    match error {
        ScriptError::UnknownCommand => place_of_word(0, line),
        ScriptError::BadWords => place_in_words(line, words),
        ScriptError::BadKey => place_of_word(key_number(name), line),
        ScriptError::UnknownName => place_of_word(unknown_word(name), line),
        ScriptError::NameTaken => place_of_word(taken_word(name), line),
        ScriptError::NotLinked => place_of_word(linked_word(name), line),
        ScriptError::AlreadyLinked => place_of_word(2, line),
        ScriptError::NothingThere => place_of_word(2, line),
        ScriptError::NotAsked => place_of_word(2, line),
        ScriptError::NotSettled => place_of_word(0, line),
        ScriptError::NotSamples => place_of_word(0, line),
        ScriptError::NotJoined => place_of_word(0, line),
        ScriptError::Limit => place_of_limit(line, name),
        ScriptError::NoMemory => 0,
    }
}

fn place_in_words(line: &[u8], words: &[&[u8]]) -> usize
    ensures { result ≡ place line.now (map (λ w. w.now) words.now) ScriptError.BadWords }
{
    if is_clean(line) {
        place_of_word(bad_word(words), line)
    } else {
        place_of_byte(line)
    }
}

fn place_of_limit(line: &[u8], name: &[u8]) -> usize
    ensures { result ≡ place_of_limit line.now name.now }
{
    if line.len() > MOST_LINE {
        return MOST_LINE;
    }
    place_of_word(if is_word(name, b"run") { 1 } else { 0 }, line)
}

fn unknown_word(name: &[u8]) -> usize
    ensures { result ≡ unknown_word name.now }
{
    if is_word(name, b"client") { 2 } else { 1 }
}

fn taken_word(name: &[u8]) -> usize
    ensures { result ≡ taken_word name.now }
{
    if gives_number(name) { 2 } else { 1 }
}

fn linked_word(name: &[u8]) -> usize
    ensures { result ≡ linked_word name.now }
{
    if is_of_client(name) { 1 } else { 2 }
}

// The first word that is not what its command takes there.
fn bad_word(words: &[&[u8]]) -> usize
    ensures { result ≡ bad_word (map (λ w. w.now) words.now) }
{
    if !has_all(words) {
        most_behind(word_at(0, words)) + 1
    } else if is_first_good(words) {
        later_word(words)
    } else {
        1
    }
}

// The word that is wrong where the first one is good.
fn later_word(words: &[&[u8]]) -> usize
    ensures { result ≡ later_word (map (λ w. w.now) words.now) }
{
    if is_query_bad(words) {
        query_word(words)
    } else if is_time_bad(words) {
        5
    } else if is_interest_bad(words) {
        interest_word(words)
    } else if is_weight_bad(words) {
        3
    } else {
        2
    }
}

// The word that is wrong where client and number of a `get` are as they must be.
fn query_word(words: &[&[u8]]) -> usize
    ensures { result ≡ query_word (map (λ w. w.now) words.now) }
{
    if is_target(word_at(4, words)) { 5 } else { 4 }
}

// The word that is wrong where client and number of an `interest` are as they must be.
fn interest_word(words: &[&[u8]]) -> usize
    ensures { result ≡ interest_word (map (λ w. w.now) words.now) }
{
    if !is_mode(word_at(3, words)) {
        3
    } else if !is_kind(word_at(4, words)) {
        4
    } else {
        6
    }
}

/// Whether a word of a `get` behind its number is wrong, where some word behind the first is.
pub(crate) fn is_query_bad(words: &[&[u8]]) -> bool
    ensures { result ≡ is_query_bad (map (λ w. w.now) words.now) }
{
    is_query(word_at(0, words)) && is_count(word_at(2, words))
}

/// Whether it is the time of a `reply` that is wrong, where some word behind the first is.
pub(crate) fn is_time_bad(words: &[&[u8]]) -> bool
    ensures { result ≡ is_time_bad (map (λ w. w.now) words.now) }
{
    is_reply(word_at(0, words)) && is_count(word_at(2, words))
}

/// Whether a word of an `interest` behind its number is wrong, where some word behind the first is.
pub(crate) fn is_interest_bad(words: &[&[u8]]) -> bool
    ensures { result ≡ is_interest_bad (map (λ w. w.now) words.now) }
{
    is_interest(word_at(0, words)) && is_count(word_at(2, words))
}

/// Whether a weight stands behind the two routers of a `link` that is none.
pub(crate) fn is_weight_bad(words: &[&[u8]]) -> bool
    ensures { result ≡ is_weight_bad (map (λ w. w.now) words.now) }
{
    links(word_at(0, words))
        && is_name(word_at(2, words))
        && words.len() > 3
        && !is_weight(word_at(3, words))
}

#[tactic(auto, using(zr_script::proofs::Digits::not_small))]
fn is_weight(word: &[u8]) -> bool
    ensures { result ≡ is_weight word.now }
{
    if !is_number(word) {
        return false;
    }
    match value(word) {
        Some(n) => n > 0 && n <= 65_535,
        None => false,
    }
}

/// Whether a word is a target.
pub(crate) fn is_target(word: &[u8]) -> bool
    ensures { result ≡ is_target word.now }
{
    is_word(word, b"best") || is_word(word, b"all") || is_word(word, b"complete")
}

/// Whether a word tells of which declarations an interest is to be told.
pub(crate) fn is_mode(word: &[u8]) -> bool
    ensures { result ≡ is_mode word.now }
{
    is_word(word, b"now") || is_word(word, b"later") || is_word(word, b"both")
}

/// Whether a word tells of which kinds of declarations an interest is to be told.
pub(crate) fn is_kind(word: &[u8]) -> bool
    ensures { result ≡ is_kind word.now }
{
    is_word(word, b"sub")
        || is_word(word, b"able")
        || is_word(word, b"token")
        || is_word(word, b"all")
}

/// Whether a line has as many words as its command takes.
pub(crate) fn has_all(words: &[&[u8]]) -> bool
    ensures { result ≡ has_all (map (λ w. w.now) words.now) }
{
    let name = word_at(0, words);
    words_behind(name) + 1 <= words.len() && words.len() <= most_behind(name) + 1
}

/// Whether the first word behind the command's name is as it must be.
pub(crate) fn is_first_good(words: &[&[u8]]) -> bool
    ensures { result ≡ is_first_good (map (λ w. w.now) words.now) }
{
    if is_word(word_at(0, words), b"run") {
        is_count(word_at(1, words))
    } else {
        is_name(word_at(1, words))
    }
}

/// Whether a word names a router or a client.
pub(crate) fn is_name(word: &[u8]) -> bool
    ensures { result ≡ is_name word.now }
{
    Zid::from_hex(word).is_ok()
}

fn is_count(word: &[u8]) -> bool
    ensures { result ≡ is_count word.now }
{
    is_number(word) && value(word).is_some()
}

// Where a line is not clean: at its first byte that is not printable, or else at a space with which it begins or ends.
fn place_of_byte(line: &[u8]) -> usize
    ensures { result ≡ place_of_byte (odd_byte line.now) line.now }
{
    match odd_byte(line) {
        Some(place) => place,
        None => place_of_space(line),
    }
}

fn place_of_space(line: &[u8]) -> usize
    ensures { result ≡ place_of_space line.now }
{
    if begins_with_space(line) {
        0
    } else {
        line.len().saturating_sub(1)
    }
}

/// Whether a line begins with a space.
pub(crate) fn begins_with_space(line: &[u8]) -> bool
    ensures { result ≡ is_space (slice_get line.now 0) }
{
    match line {
        [] => false,
        [byte, ..] => *byte == b' ',
    }
}

/// The place of the first byte that is not printable.
pub(crate) fn odd_byte(line: &[u8]) -> Option<usize>
    ensures { result ≡ odd_byte line.now }
{
    line.iter().position(|b| !(b' '..=b'~').contains(b))
}
