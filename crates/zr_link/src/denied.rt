//! The line that tells of a message that the rules deny.

ghost use Rattle.std.specs.Prelude.{◌≡◌, ◌++◌, Some, IfOk, IfSome, OnOk, is_some, take};
ghost use Rattle.std.specs.Option.{option_copied};
ghost use Rattle.std.specs.String.{string_bytes};
ghost use Rattle.zr_access.specs.Messages.{deed_of, peer_denial, sample_act};
ghost use Rattle.zr_caret.specs.Shown.{shown};
ghost use Rattle.zr_link.specs.Denied.{IsDenial, act_text, close_text, deed_text, denied_line, key_text, left_text, most_key};

use crate::log::put_peer;
use itoa::Buffer;
use std::alloc::{AllocError, Global};
use zr_access::Policy;
use zr_body::Body;
use zr_caret::put_shown;
use zr_key::key::KeyExpr;
use zr_msg::msg::Msg;
use zr_msg::peer::Peer;

/// How many bytes of a key a line shows at most.
const MOST_KEY: usize = 200;

/// How many of these messages the rules deny to their sender.
pub(crate) fn count_denied(policy: &Policy, peer: &Peer, messages: &[Msg]) -> u64 {
    messages
        .iter()
        .filter(|msg| is_denied(policy, peer, msg))
        .count() as u64
}

fn is_denied(policy: &Policy, peer: &Peer, msg: &Msg) -> bool
    ensures { result ≡ is_some (peer_denial policy.now peer.now msg.now) }
{
    policy.denial(peer, msg).is_some()
}

/// The line that tells of the first of these messages that the rules deny to their sender, and that so many denials before were left out; none where
/// there is no memory for it.
#[tactic(auto, using(crate::proofs::Logged::is_denial))]
pub(crate) fn first_line(
    alloc: Global,
    policy: &Policy,
    peer: &Peer,
    messages: &[Msg],
    left_out: u64,
) -> Option<String>
    ensures { IfSome result (λ s. IsDenial policy.now peer.now (string_bytes s)) }
{
    let msg = messages.iter().find(|msg| is_denied(policy, peer, msg))?;
    let rule = policy.denial(peer, msg)?;
    match denied_line(alloc, peer, msg, rule, left_out) {
        Ok(line) => Some(line),
        Err(_) => None,
    }
}

// The line of a denial: whose message it was, what it asked for, the line of the rule that denies it, and how many before it were left out.
fn denied_line(
    alloc: Global,
    peer: &Peer,
    msg: &Msg,
    rule: u32,
    left_out: u64,
) -> Result<String, AllocError>
    ensures { IfOk result (λ s. string_bytes s ≡ denied_line peer.now (deed_of msg.now) rule left_out) }
{
    let mut buffer = Buffer::new();
    let mut line = String::from_str(alloc, "denied, ")?;
    put_peer(alloc, peer, &mut line)?;
    line.push_str(": ")?;
    put_deed(alloc, msg, &mut line)?;
    line.push_str(", rule ")?;
    line.push_str(buffer.format(rule))?;
    put_left(left_out, &mut line)?;
    line.push_str("\n")?;
    Ok(line)
}

// How many denials before were left out, if any were.
fn put_left(left_out: u64, line: &mut String) -> Result<(), AllocError>
    ensures { OnOk result (string_bytes line.new ≡ string_bytes line.old ++ left_text left_out) }
{
    if left_out == 0 {
        return Ok(());
    }
    let mut buffer = Buffer::new();
    line.push_str("; left out before it: ")?;
    line.push_str(buffer.format(left_out))
}

// What a message asks for, as rules name it, and on which key. Of what rules judge none it is nothing.
fn put_deed(alloc: Global, msg: &Msg, line: &mut String) -> Result<(), AllocError>
    ensures { OnOk result (string_bytes line.new ≡ string_bytes line.old ++ deed_text (deed_of msg.now)) }
{
    match msg {
        Msg::Sub { key, .. } => put_act(alloc, "sub", Some(key), line),
        Msg::Token { key, .. } => put_act(alloc, "token", Some(key), line),
        Msg::Able { key, .. } => put_act(alloc, "able", Some(key), line),
        Msg::Interest { key, .. } => put_act(alloc, "interest", key.as_ref(), line),
        Msg::Push { content, .. } => {
            put_act(
                alloc,
                sample_word(content.body()),
                Some(content.key()),
                line,
            )
        }
        Msg::Request { content, .. } => put_act(alloc, "get", Some(content.key()), line),
        Msg::Response { content, .. } => put_act(alloc, "reply", Some(content.key()), line),
        Msg::Unsub { .. }
        | Msg::Untoken { .. }
        | Msg::Unable { .. }
        | Msg::EndInterest { .. }
        | Msg::ToldSub { .. }
        | Msg::ToldAble { .. }
        | Msg::ToldUnsub { .. }
        | Msg::ToldUnable { .. }
        | Msg::ToldToken { .. }
        | Msg::ToldUntoken { .. }
        | Msg::ToldEnd { .. }
        | Msg::Final { .. }
        | Msg::State { .. }
        | Msg::Step { .. }
        | Msg::Snap { .. } => Ok(()),
    }
}

fn sample_word(body: &Body) -> &'static str
    ensures { result.now ≡ act_text (sample_act body.now) }
{
    if body.is_del() { "del" } else { "put" }
}

fn put_act(
    alloc: Global,
    act: &str,
    key: Option<&KeyExpr>,
    line: &mut String,
) -> Result<(), AllocError>
    ensures { OnOk result (string_bytes line.new ≡ string_bytes line.old ++ (act.now ++ key_text (option_copied key.entry))) }
{
    line.push_str(act)?;
    match key {
        Some(key) => put_key(alloc, key.text().as_bytes(), line),
        None => Ok(()),
    }
}

// A key in quotes: its first bytes, where it is long.
fn put_key(alloc: Global, key: &[u8], line: &mut String) -> Result<(), AllocError>
    ensures { OnOk result (string_bytes line.new ≡ string_bytes line.old ++ key_text (Some key.now)) }
{
    let shown = shown(alloc, front(key))?;
    line.push_str(" \"")?;
    line.push_str(shown.as_str())?;
    line.push_str(close(key))
}

// As much of a key as a line shows.
#[tactic(auto, using(std::proofs::lemmas::List::take_min))]
fn front(key: &[u8]) -> &[u8]
    ensures { result.now ≡ take most_key key.now }
{
    &key[..MOST_KEY.min(key.len())]
}

fn close(key: &[u8]) -> &'static str
    ensures { result.now ≡ close_text key.now }
{
    if key.len() > MOST_KEY { "\".." } else { "\"" }
}

// Bytes as a line shows them, which are ASCII.
fn shown(alloc: Global, bytes: &[u8]) -> Result<String, AllocError>
    ensures { IfOk result (λ s. string_bytes s ≡ shown bytes.now) }
{
    let mut text = Vec::new(alloc);
    put_shown(bytes, &mut text)?;
    match String::from_utf8(text) {
        Ok(text) => Ok(text),
        Err(_) => Err(AllocError),
    }
}
