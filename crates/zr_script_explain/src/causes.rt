//! What is said of a refused line: a sentence with the cause.

ghost use Rattle.std.specs.Prelude.{◌≡◌, ◌++◌, [], map, OnOk};
ghost use Rattle.zr_key.specs.Key.{read_key};
ghost use Rattle.zr_script_explain.specs.Places.{odd_byte};
ghost use Rattle.zr_script_explain.specs.Causes.{already_cause, asked_cause, byte_cause, cause, command_cause, fault_cause, first_cause, form_cause, interest_cause, key_cause, later_cause, limit_cause, link_cause, name_cause, nothing_cause, number_cause, odd_cause, of_two, query_cause, second_cause, space_cause, taken_cause, told, unknown_cause, weight_cause, words_cause};

use crate::forms::{
    declares, ends_interest, form, is_interest, is_numbered, is_of_client, is_query, key_number,
    undeclares, word_at,
};
use crate::places::{
    begins_with_space, has_all, is_first_good, is_interest_bad, is_kind, is_mode, is_name,
    is_query_bad, is_target, is_time_bad, is_weight_bad, odd_byte,
};
use crate::put::{put_one, put_told, put_two};
use std::alloc::{AllocError, Global};
use zr_caret::put_shown;
use zr_key::key::{KeyError, KeyExpr};
use zr_script::line::MOST_LINE;
use zr_script::word::{is_clean, is_word};
use zr_script_spec::error::ScriptError;

/// The cause why a line of these words is refused.
pub(crate) fn put_cause(
    alloc: Global,
    line: &[u8],
    words: &[&[u8]],
    error: ScriptError,
    text: &mut Vec<u8>,
) -> Result<(), AllocError>
    ensures { OnOk result (text.new.items ≡ text.old.items ++ cause line.now (map (λ w. w.now) words.now) error) }
{
    let name = word_at(0, words);
    match error {
        ScriptError::UnknownCommand => put_command_cause(words, text),
        ScriptError::BadWords => put_bad_words(line, words, text),
        ScriptError::BadKey => put_key_cause(alloc, word_at(key_number(name), words), text),
        ScriptError::UnknownName => put_unknown_cause(words, text),
        ScriptError::NameTaken => put_taken_cause(words, text),
        ScriptError::NotLinked => put_link_cause(words, text),
        ScriptError::AlreadyLinked => put_already_cause(words, text),
        ScriptError::NothingThere => put_nothing_cause(words, text),
        ScriptError::NotAsked => put_asked_cause(words, text),
        ScriptError::NotSettled => text.extend_from_slice(b"the network is not settled"),
        ScriptError::NotSamples => text.extend_from_slice(b"not only samples are under way"),
        ScriptError::NotJoined => text.extend_from_slice(b"the routers are not joined"),
        ScriptError::Limit => text.extend_from_slice(limit_cause(line.len() > MOST_LINE, name)),
        ScriptError::NoMemory => Ok(()),
    }
}

fn put_command_cause(words: &[&[u8]], text: &mut Vec<u8>) -> Result<(), AllocError>
    ensures { OnOk result (text.new.items ≡ text.old.items ++ command_cause (map (λ w. w.now) words.now)) }
{
    match words {
        [] => text.extend_from_slice(b"the line has spaces alone"),
        [name, ..] => {
            put_shown(name, text)?;
            text.extend_from_slice(b" is no command")
        }
    }
}

fn put_bad_words(line: &[u8], words: &[&[u8]], text: &mut Vec<u8>) -> Result<(), AllocError>
    ensures { OnOk result (text.new.items ≡ text.old.items ++ cause line.now (map (λ w. w.now) words.now) ScriptError.BadWords) }
{
    if is_clean(line) {
        put_words_cause(words, text)
    } else {
        text.extend_from_slice(byte_cause(line))
    }
}

fn byte_cause(line: &[u8]) -> &'static [u8]
    ensures { result.now ≡ byte_cause (odd_byte line.now) line.now }
{
    match odd_byte(line) {
        Some(place) => odd_cause(&line[place..]),
        None => space_cause(line),
    }
}

// By the rest of a line from its first byte on that is not printable.
fn odd_cause(rest: &[u8]) -> &'static [u8]
    ensures { result.now ≡ odd_cause rest.now }
{
    if rest == b"\r".as_slice() {
        b"a carriage return at the end of the line"
    } else {
        b"a byte that is not printable ASCII"
    }
}

fn space_cause(line: &[u8]) -> &'static [u8]
    ensures { result.now ≡ space_cause line.now }
{
    if begins_with_space(line) {
        b"a space at the start of the line"
    } else {
        b"a space at the end of the line"
    }
}

fn put_words_cause(words: &[&[u8]], text: &mut Vec<u8>) -> Result<(), AllocError>
    ensures { OnOk result (text.new.items ≡ text.old.items ++ words_cause (map (λ w. w.now) words.now)) }
{
    if !has_all(words) {
        put_form(word_at(0, words), text)
    } else if is_first_good(words) {
        put_later_cause(words, text)
    } else {
        put_first_cause(words, text)
    }
}

fn put_form(name: &[u8], text: &mut Vec<u8>) -> Result<(), AllocError>
    ensures { OnOk result (text.new.items ≡ text.old.items ++ form_cause name.now) }
{
    put_both(b"the form is ", form(name), text)
}

// Two texts, one behind the other.
fn put_both(before: &[u8], behind: &[u8], text: &mut Vec<u8>) -> Result<(), AllocError>
    ensures { OnOk result (text.new.items ≡ text.old.items ++ (before.now ++ behind.now)) }
{
    text.extend_from_slice(before)?;
    text.extend_from_slice(behind)
}

fn put_first_cause(words: &[&[u8]], text: &mut Vec<u8>) -> Result<(), AllocError>
    ensures { OnOk result (text.new.items ≡ text.old.items ++ first_cause (map (λ w. w.now) words.now)) }
{
    if is_word(word_at(0, words), b"run") {
        put_number_cause(1, words, text)
    } else {
        put_name_cause(1, words, text)
    }
}

fn put_later_cause(words: &[&[u8]], text: &mut Vec<u8>) -> Result<(), AllocError>
    ensures { OnOk result (text.new.items ≡ text.old.items ++ later_cause (map (λ w. w.now) words.now)) }
{
    if is_query_bad(words) {
        put_query_cause(words, text)
    } else if is_time_bad(words) {
        put_number_cause(5, words, text)
    } else if is_interest_bad(words) {
        put_interest_cause(words, text)
    } else if is_weight_bad(words) {
        put_weight_cause(words, text)
    } else {
        put_second_cause(words, text)
    }
}

fn put_interest_cause(words: &[&[u8]], text: &mut Vec<u8>) -> Result<(), AllocError>
    ensures { OnOk result (text.new.items ≡ text.old.items ++ interest_cause (map (λ w. w.now) words.now)) }
{
    if !is_mode(word_at(3, words)) {
        put_word(3, b" is no mode, which is now, later or both", words, text)
    } else if !is_kind(word_at(4, words)) {
        put_word(
            4,
            b" is no kind, which is sub, able, token or all",
            words,
            text,
        )
    } else {
        put_word(
            6,
            b" is not aggregate, which alone may stand behind the key",
            words,
            text,
        )
    }
}

// A word, and a text behind it.
fn put_word(
    number: usize,
    behind: &[u8],
    words: &[&[u8]],
    text: &mut Vec<u8>,
) -> Result<(), AllocError>
    ensures { OnOk result (text.new.items ≡ text.old.items ++ (told number (map (λ w. w.now) words.now) ++ behind.now)) }
{
    put_told(number, words, text)?;
    text.extend_from_slice(behind)
}

fn put_query_cause(words: &[&[u8]], text: &mut Vec<u8>) -> Result<(), AllocError>
    ensures { OnOk result (text.new.items ≡ text.old.items ++ query_cause (map (λ w. w.now) words.now)) }
{
    if is_target(word_at(4, words)) {
        put_word(
            5,
            b" is not latest, which alone may stand behind the target",
            words,
            text,
        )
    } else {
        put_word(
            4,
            b" is no target, which is best, all or complete",
            words,
            text,
        )
    }
}

fn put_weight_cause(words: &[&[u8]], text: &mut Vec<u8>) -> Result<(), AllocError>
    ensures { OnOk result (text.new.items ≡ text.old.items ++ weight_cause (map (λ w. w.now) words.now)) }
{
    put_word(
        3,
        b" is no weight, which is a number from 1 to 65535",
        words,
        text,
    )
}

fn put_second_cause(words: &[&[u8]], text: &mut Vec<u8>) -> Result<(), AllocError>
    ensures { OnOk result (text.new.items ≡ text.old.items ++ second_cause (map (λ w. w.now) words.now)) }
{
    let name = word_at(0, words);
    if is_numbered(name) {
        put_number_cause(2, words, text)
    } else if is_name(word_at(2, words)) {
        text.extend_from_slice(b"no router is linked to itself")
    } else {
        put_name_cause(2, words, text)
    }
}

fn put_name_cause(number: usize, words: &[&[u8]], text: &mut Vec<u8>) -> Result<(), AllocError>
    ensures { OnOk result (text.new.items ≡ text.old.items ++ name_cause number (map (λ w. w.now) words.now)) }
{
    put_word(
        number,
        b" is no identifier, which is 2 to 32 lower-case hexadecimal digits, an even number of them, not all 0",
        words,
        text,
    )
}

fn put_number_cause(number: usize, words: &[&[u8]], text: &mut Vec<u8>) -> Result<(), AllocError>
    ensures { OnOk result (text.new.items ≡ text.old.items ++ number_cause number (map (λ w. w.now) words.now)) }
{
    put_word(
        number,
        b" is no number, which is decimal digits without leading zeros, at most 4294967295",
        words,
        text,
    )
}

#[tactic(auto, using(crate::proofs::Keys::told_of))]
fn put_key_cause(alloc: Global, word: &[u8], text: &mut Vec<u8>) -> Result<(), AllocError>
    ensures { OnOk result (text.new.items ≡ text.old.items ++ key_cause (read_key word.now)) }
{
    match KeyExpr::read(alloc, word) {
        Ok(_) => Ok(()),
        Err(fault) => put_fault_cause(fault, text),
    }
}

fn put_fault_cause(fault: KeyError, text: &mut Vec<u8>) -> Result<(), AllocError>
    ensures told { OnOk result (text.new.items ≡ text.old.items ++ fault_cause fault) }
    ensures memory { OnOk result ((fault ≡ KeyError.NoMemory) → ⊥) }
{
    match fault {
        KeyError::Empty => text.extend_from_slice(b"a key without bytes"),
        KeyError::EmptyChunk => text.extend_from_slice(b"empty chunk in a key"),
        KeyError::BadChar => text.extend_from_slice(b"# or ? in a key"),
        KeyError::BadStar => text.extend_from_slice(b"* or $ in a key where none may stand"),
        KeyError::NotUtf8 => text.extend_from_slice(b"a key that is not UTF-8"),
        KeyError::TooLong => text.extend_from_slice(b"a key of more than 2048 bytes"),
        KeyError::NoMemory => Err(AllocError),
    }
}

fn put_unknown_cause(words: &[&[u8]], text: &mut Vec<u8>) -> Result<(), AllocError>
    ensures { OnOk result (text.new.items ≡ text.old.items ++ unknown_cause (map (λ w. w.now) words.now)) }
{
    let name = word_at(0, words);
    if is_word(name, b"client") {
        put_one(b"no router is named ", 2, words, text)
    } else if is_word(name, b"show") {
        put_one(b"no router is named ", 1, words, text)
    } else if is_word(name, b"link") {
        put_either(b"no router is named ", b", or none is named ", words, text)
    } else if undeclares(name) {
        put_either(
            b"no client is named ",
            b", or it has not declared id ",
            words,
            text,
        )
    } else if ends_interest(name) {
        put_either(
            b"no client is named ",
            b", or it has no interest ",
            words,
            text,
        )
    } else if is_of_client(name) {
        put_one(b"no client is named ", 1, words, text)
    } else {
        put_either(
            b"no router is named ",
            b", or nobody is named ",
            words,
            text,
        )
    }
}

// The two words behind the command's name, with a text behind each.
fn put_pair(
    between: &[u8],
    behind: &[u8],
    words: &[&[u8]],
    text: &mut Vec<u8>,
) -> Result<(), AllocError>
    ensures { OnOk result (text.new.items ≡ text.old.items ++ of_two [] 1 between.now 2 behind.now (map (λ w. w.now) words.now)) }
{
    put_two(b"", 1, between, 2, behind, words, text)
}

// The two words behind the command's name, with a text before each.
fn put_either(
    before: &[u8],
    between: &[u8],
    words: &[&[u8]],
    text: &mut Vec<u8>,
) -> Result<(), AllocError>
    ensures { OnOk result (text.new.items ≡ text.old.items ++ of_two before.now 1 between.now 2 [] (map (λ w. w.now) words.now)) }
{
    put_two(before, 1, between, 2, b"", words, text)
}

fn put_taken_cause(words: &[&[u8]], text: &mut Vec<u8>) -> Result<(), AllocError>
    ensures { OnOk result (text.new.items ≡ text.old.items ++ taken_cause (map (λ w. w.now) words.now)) }
{
    let name = word_at(0, words);
    if declares(name) {
        put_two(b"id ", 2, b" is already declared by ", 1, b"", words, text)
    } else if is_interest(name) {
        put_two(
            b"id ",
            2,
            b" is that of an interest of ",
            1,
            b"",
            words,
            text,
        )
    } else if is_query(name) {
        put_two(
            b"number ",
            2,
            b" is that of a query of ",
            1,
            b" whose final was not sent yet",
            words,
            text,
        )
    } else {
        put_one(b"a router or a client is already named ", 1, words, text)
    }
}

fn put_link_cause(words: &[&[u8]], text: &mut Vec<u8>) -> Result<(), AllocError>
    ensures { OnOk result (text.new.items ≡ text.old.items ++ link_cause (map (λ w. w.now) words.now)) }
{
    let name = word_at(0, words);
    if is_of_client(name) {
        put_one(b"the link of ", 1, words, text)?;
        text.extend_from_slice(b" is broken")
    } else if is_word(name, b"up") || is_word(name, b"break") {
        put_pair(b" has no link to ", b", or it is broken", words, text)
    } else if is_word(name, b"down") {
        put_pair(
            b" has no broken link to ",
            b" that it holds for up",
            words,
            text,
        )
    } else if is_word(name, b"handle") {
        put_pair(b" has no link to ", b" that it holds for up", words, text)
    } else {
        put_pair(
            b" has no link to ",
            b" that it holds for up, or it is broken",
            words,
            text,
        )
    }
}

fn put_already_cause(words: &[&[u8]], text: &mut Vec<u8>) -> Result<(), AllocError>
    ensures { OnOk result (text.new.items ≡ text.old.items ++ already_cause (map (λ w. w.now) words.now)) }
{
    if is_word(word_at(0, words), b"link") {
        put_pair(b" and ", b" are already linked", words, text)
    } else {
        put_pair(b" holds its link to ", b" for up already", words, text)
    }
}

fn put_nothing_cause(words: &[&[u8]], text: &mut Vec<u8>) -> Result<(), AllocError>
    ensures { OnOk result (text.new.items ≡ text.old.items ++ nothing_cause (map (λ w. w.now) words.now)) }
{
    if is_word(word_at(0, words), b"handle") {
        put_either(b"nothing waits at ", b" on the wire from ", words, text)
    } else {
        put_either(b"nothing waits at ", b" in the queue for ", words, text)
    }
}

fn put_asked_cause(words: &[&[u8]], text: &mut Vec<u8>) -> Result<(), AllocError>
    ensures { OnOk result (text.new.items ≡ text.old.items ++ asked_cause (map (λ w. w.now) words.now)) }
{
    put_pair(b" was not sent request ", b", or has ended it", words, text)
}

fn limit_cause(long: bool, name: &[u8]) -> &'static [u8]
    ensures { result.now ≡ limit_cause long name.now }
{
    if long {
        b"a line of more than 4096 bytes"
    } else if is_word(name, b"router") {
        b"more than 64 routers"
    } else if is_word(name, b"client") {
        b"more than 1024 clients"
    } else if is_word(name, b"link") {
        b"more than 512 links between routers"
    } else if is_word(name, b"run") {
        b"more than 10000000 steps of all runs together"
    } else if is_word(name, b"fan") {
        b"more than 2000 samples under way, or more than 1048576 bytes of keys and bodies"
    } else if is_query(name) {
        b"more than 4096 open queries of a client"
    } else {
        b"declarations and interests of the clients of a router weigh more than 4194304"
    }
}
