//! The parts of a message's text: identifiers, numbers, and the words that stand for what may be left out.

ghost use Rattle.std.specs.Prelude.{◌≡◌, ◌++◌, codes, OnOk, OnErr};
ghost use Rattle.std.specs.Fmt.{decimal};
ghost use Rattle.zr_msg.specs.Kinds.{in_subs, in_ables, in_tokens};
ghost use Rattle.zr_script_spec.specs.Report.{line_end, id_text, optional_id_text, payload_text, key_text, interest_text, mode_text, kinds_text, if_so, able_text, target_text, kind_text, sign_text};
ghost use Rattle.zr_bytes.specs.Writing.{KeepsFront};

use itoa::{Buffer, write_digits};
use std::alloc::AllocError;
use zr_id::zid::{MOST_BYTES, Zid};
use zr_key::key::KeyExpr;
use zr_msg::decl::Kind;
use zr_msg::msg::{Kinds, QUERYABLES, SUBSCRIBERS, TOKENS, Target};

/// How many digits the text of an identifier has at most.
const MOST_DIGITS: usize = 2 * MOST_BYTES;

/// How many bytes stand before the digits of a tag: a space and a sign.
const TAG_SIGN_LENGTH: usize = 2;

/// How many digits a tag has at most, as a number of 64 bits.
const MOST_TAG_DIGITS: usize = 20;

/// Where the digits of a tag end, behind its sign.
const TAG_END: usize = TAG_SIGN_LENGTH + MOST_TAG_DIGITS;

/// Appends an identifier. Its digits are put together on the stack: a report line takes no memory but its own.
pub fn put_id(id: &Zid, out: &mut Vec<u8>) -> Result<(), AllocError>
    ensures ok { OnOk result (out.new.items ≡ out.old.items ++ id_text id.now) }
    ensures err { OnErr result (KeepsFront out.old.items out.new.items) }
{
    let bytes = id.bytes();
    let mut digits = [0; MOST_DIGITS];
    let digits = &mut digits[..2 * bytes.len()];
    match hex::encode_to_slice(bytes, digits) {
        Ok(()) => out.extend_from_slice(digits),
        Err(_) => unreachable!(),
    }
}

/// Appends the decimal digits of a number.
pub fn put_number(number: u64, out: &mut Vec<u8>) -> Result<(), AllocError>
    ensures ok { OnOk result (out.new.items ≡ out.old.items ++ decimal number) }
    ensures err { OnErr result (KeepsFront out.old.items out.new.items) }
{
    let mut buffer = Buffer::new();
    out.extend_from_slice(buffer.format(number).as_bytes())
}

/// Appends some words and an identifier.
pub fn put_named(words: &[u8], id: &Zid, out: &mut Vec<u8>) -> Result<(), AllocError>
    ensures ok { OnOk result (out.new.items ≡ out.old.items ++ (words.now ++ id_text id.now)) }
    ensures err { OnErr result (KeepsFront out.old.items out.new.items) }
{
    out.extend_from_slice(words)?;
    put_id(id, out)
}

/// Appends some words and a number.
pub fn put_numbered(words: &[u8], number: u64, out: &mut Vec<u8>) -> Result<(), AllocError>
    ensures ok { OnOk result (out.new.items ≡ out.old.items ++ (words.now ++ decimal number)) }
    ensures err { OnErr result (KeepsFront out.old.items out.new.items) }
{
    out.extend_from_slice(words)?;
    put_number(number, out)
}

/// Appends a space and a word.
pub fn put_word(word: &[u8], out: &mut Vec<u8>) -> Result<(), AllocError>
    ensures ok { OnOk result (out.new.items ≡ out.old.items ++ (codes " " ++ word.now)) }
    ensures err { OnErr result (KeepsFront out.old.items out.new.items) }
{
    out.extend_from_slice(b" ")?;
    out.extend_from_slice(word)
}

/// Appends the tag of a message, with a space and a sign before it, and the end of its line. They are put together on the stack, and so
/// appended at once.
pub fn put_tag(tag: u64, out: &mut Vec<u8>) -> Result<(), AllocError>
    ensures ok { OnOk result (out.new.items ≡ out.old.items ++ (codes " #" ++ decimal tag ++ line_end)) }
    ensures err { OnErr result (KeepsFront out.old.items out.new.items) }
{
    let mut text = [b'\n'; TAG_END + 1];
    let start = write_digits(tag, &mut text, TAG_END) - TAG_SIGN_LENGTH;
    text[start + 1] = b'#';
    text[start] = b' ';
    out.extend_from_slice(&text[start..])
}

/// Appends an identifier; `-` where there is none.
pub fn put_optional_id(id: &Option<Zid>, out: &mut Vec<u8>) -> Result<(), AllocError>
    ensures ok { OnOk result (out.new.items ≡ out.old.items ++ optional_id_text id.now) }
    ensures err { OnErr result (KeepsFront out.old.items out.new.items) }
{
    match id {
        None => out.extend_from_slice(b"-"),
        Some(id) => put_id(id, out),
    }
}

/// Appends a payload; `-` where it is empty.
pub fn put_payload(payload: &[u8], out: &mut Vec<u8>) -> Result<(), AllocError>
    ensures ok { OnOk result (out.new.items ≡ out.old.items ++ payload_text payload.now) }
    ensures err { OnErr result (KeepsFront out.old.items out.new.items) }
{
    match payload {
        [] => out.extend_from_slice(b"-"),
        bytes => out.extend_from_slice(bytes),
    }
}

/// Appends the key of an interest; `-` where it has none.
pub fn put_key(key: &Option<KeyExpr>, out: &mut Vec<u8>) -> Result<(), AllocError>
    ensures ok { OnOk result (out.new.items ≡ out.old.items ++ key_text key.now) }
    ensures err { OnErr result (KeepsFront out.old.items out.new.items) }
{
    match key {
        None => out.extend_from_slice(b"-"),
        Some(key) => out.extend_from_slice(key.text().as_bytes()),
    }
}

/// Appends the interest that a told message answers; `-` where it answers none.
pub fn put_interest(interest: Option<u32>, out: &mut Vec<u8>) -> Result<(), AllocError>
    ensures ok { OnOk result (out.new.items ≡ out.old.items ++ interest_text interest) }
    ensures err { OnErr result (KeepsFront out.old.items out.new.items) }
{
    match interest {
        None => out.extend_from_slice(b"-"),
        Some(id) => put_number(u64::from(id), out),
    }
}

/// What of the present and the future an interest asks.
pub fn mode_text(current: bool, future: bool) -> &'static [u8]
    ensures { result.now ≡ mode_text current future }
{
    if current {
        if future { b"both" } else { b"now" }
    } else if future {
        b"later"
    } else {
        b"-"
    }
}

/// The kinds of declarations in which an interest is.
pub fn kinds_text(kinds: Kinds) -> &'static [u8]
    ensures { result.now ≡ kinds_text kinds }
{
    let (subs, ables, tokens) = (in_subs(kinds), in_ables(kinds), in_tokens(kinds));
    match (subs, ables, tokens) {
        (true, true, false) => b"all",
        (true, false, false) => b"sub",
        (false, true, false) => b"able",
        (false, false, true) => b"token",
        _ => b"-",
    }
}

fn in_subs(kinds: Kinds) -> bool
    ensures { result ≡ in_subs kinds }
{
    kinds.0 & SUBSCRIBERS != 0
}

fn in_ables(kinds: Kinds) -> bool
    ensures { result ≡ in_ables kinds }
{
    kinds.0 & QUERYABLES != 0
}

fn in_tokens(kinds: Kinds) -> bool
    ensures { result ≡ in_tokens kinds }
{
    kinds.0 & TOKENS != 0
}

/// The word behind an interest that is told one declaration for many, with the space before it.
pub fn aggregate_text(aggregate: bool) -> &'static [u8]
    ensures { result.now ≡ if_so aggregate (codes "aggregate") }
{
    if aggregate { b" aggregate" } else { b"" }
}

/// The word of a queryable, complete or not.
pub fn able_text(complete: bool) -> &'static [u8]
    ensures { result.now ≡ able_text complete }
{
    if complete { b"full" } else { b"able" }
}

/// The word of a queryable that is told, complete or not, behind the word for all that is told.
pub fn told_able_text(complete: bool) -> &'static [u8]
    ensures { result.now ≡ codes "told " ++ able_text complete }
{
    if complete { b"told full" } else { b"told able" }
}

/// Which queryables a request asks, with the space before it.
pub fn target_text(target: Target) -> &'static [u8]
    ensures { result.now ≡ codes " " ++ target_text target }
{
    match target {
        Target::Best => b" best",
        Target::All => b" all",
        Target::Complete => b" complete",
    }
}

/// The word of a declaration's kind, with the spaces before and behind it.
pub fn kind_text(kind: Kind) -> &'static [u8]
    ensures { result.now ≡ codes " " ++ kind_text kind ++ codes " " }
{
    match kind {
        Kind::Sub => b" sub ",
        Kind::Able => b" able ",
        Kind::Full => b" full ",
        Kind::Token => b" token ",
    }
}

/// The word behind a request for the latest replies alone, with the space before it.
pub fn latest_text(latest: bool) -> &'static [u8]
    ensures { result.now ≡ if_so latest (codes "latest") }
{
    if latest { b" latest" } else { b"" }
}

/// Whether a declaration was added or removed, with the space before it.
pub fn sign_text(added: bool) -> &'static [u8]
    ensures { result.now ≡ codes " " ++ sign_text added }
{
    if added { b" +" } else { b" -" }
}
