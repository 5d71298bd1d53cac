//! Queries for the latest replies alone: what the one broker sends their clients, and what these were sent.

ghost use Rattle.std.specs.Prelude.{◌≡◌, ◌==◌, ◌&&◌, ◌||◌, ◌++◌, not, IfOk, OnOk, filter, map};
ghost use Rattle.std.specs.Cmp.Lexicographic.{slice_cmp};
ghost use Rattle.std.specs.List.{starts_with};
ghost use Rattle.std.specs.Option.{option_copied};
ghost use Rattle.std.specs.Ordering.{is_eq, is_lt, nat_cmp};
ghost use Rattle.zr_lists.specs.Ascending.{before_key, behind_key};
ghost use Rattle.zr_body.specs.Latest.{is_later};
ghost use Rattle.zr_pend_spec.specs.Best.{key_body};
ghost use Rattle.zr_pend_spec.specs.Held.{gathered, held_of, held_with, put_reply, takes_place};
ghost use Rattle.zr_guarantee.specs.Latest.{all_replies, best, said_if, sent_in_turn};
ghost use Rattle.zr_guarantee.specs.Queries.{is_said_to};
ghost use Rattle.zr_guarantee.specs.Sent.{told_to};
ghost use Rattle.zr_tests_judge.specs.Judge.{acts_of, is_nothing};
ghost use Rattle.zr_tests_judge.specs.Same.{is_same_key_body};

use crate::queries::{Asked, Saying, Talk, is_said_to, turn};
use crate::sent::{Reply, Told, behind_finals, replies_in, up_to_final};
use std::alloc::{AllocError, Global};
use std::cmp::Ordering;
use std::marker::Model;
use zr_body::{Body, is_later};
use zr_key::key::KeyExpr;
use zr_msg::content::Content;

/// What was replied. Contracts see it as the content.
#[derive(Drop)]
pub struct Said<'a> {
    pub content: &'a Content,
}

impl<'a> Model for Said<'a> {
    ghost use Rattle.zr_msg.specs.declared.content.Parts.{Parts};

    ghost Value = { Parts };

    ghost view = { λ s. s.content.now };
}

/// What of a reply is told: its key and its body.
#[derive(Drop)]
pub struct KeyBody<'a> {
    pub key: &'a KeyExpr,
    pub body: &'a Body,
}

impl<'a> Model for KeyBody<'a> {
    ghost use Rattle.std.specs.Prelude.{ℕ, List};

    ghost Value = { List ℕ × List ℕ };

    ghost view = { λ t. (t.key.now, t.body.now) };
}

impl<'a> PartialEq for KeyBody<'a> {
    ghost use Rattle.zr_tests_judge.specs.Same.{is_same_key_body};
    ghost use Rattle.zr_tests_judge.specs.Equal.{key_body_laws};

    ghost eq = { is_same_key_body };

    ghost laws = { key_body_laws };

    fn eq(&self, other: &KeyBody<'a>) -> bool {
        self.key == other.key && self.body.as_slice() == other.body.as_slice()
    }
}

/// The best of all that was replied to a query.
pub fn best<'a>(
    alloc: Global,
    talk: &Talk<'a>,
    q: &Asked<'_>,
) -> Result<Vec<KeyBody<'a>>, AllocError>
    ensures { IfOk result (λ v. v.items ≡ best (acts_of talk.now) talk.now.report q.now) }
{
    let replies = all_replies(alloc, talk, q)?;
    let held = gathered(alloc, replies.as_slice())?;
    keys_and_bodies(alloc, held.as_slice())
}

/// What the client of a query was sent under its number in its turn, of all that it was told.
pub fn sent_in_turn<'a>(
    alloc: Global,
    talk: &Talk<'_>,
    q: &Asked<'_>,
    told: &[Told<'a>],
) -> Result<Vec<KeyBody<'a>>, AllocError>
    requires { told.now ≡ told_to talk.now.report q.now.client }
    ensures { IfOk result (λ v. v.items ≡ sent_in_turn (acts_of talk.now) talk.now.report q.now) }
{
    let behind = behind_finals(q.number, turn(talk, q).saturating_sub(1), told);
    let replies = replies_in(alloc, up_to_final(q.number, behind))?;
    of_number(alloc, q.number, replies.as_slice())
}

// All that clients have replied to a query.
fn all_replies<'a>(
    alloc: Global,
    talk: &Talk<'a>,
    q: &Asked<'_>,
) -> Result<Vec<Said<'a>>, AllocError>
    ensures { IfOk result (λ v. v.items ≡ all_replies (acts_of talk.now) talk.now.report q.now) }
{
    let mut replies = Vec::new(alloc);
    for s in &talk.said {
        if let Some(r) = said_to(alloc, talk, q, s)? {
            replies.push(r)?;
        }
    }
    Ok(replies)
}

// The reply that is said, if it is said to the query.
fn said_to<'a>(
    alloc: Global,
    talk: &Talk<'_>,
    q: &Asked<'_>,
    s: &Saying<'a>,
) -> Result<Option<Said<'a>>, AllocError>
    ensures { IfOk result (λ r. r ≡ said_if (is_said_to (acts_of talk.now) talk.now.report q.now.line s.now) s.now.reply) }
{
    let Some(content) = s.reply else {
        return Ok(None);
    };
    if is_said_to(alloc, talk, q.line, s)? {
        Ok(Some(Said { content }))
    } else {
        Ok(None)
    }
}

// What is left of replies that come one after another: of each key the latest.
fn gathered<'a>(alloc: Global, replies: &[Said<'a>]) -> Result<Vec<Said<'a>>, AllocError>
    ensures { IfOk result (λ v. v.items ≡ gathered replies.now) }
{
    let mut held = Vec::new(alloc);
    for reply in replies {
        held = held_with(alloc, held, reply)?;
    }
    Ok(held)
}

fn held_with<'a>(
    alloc: Global,
    held: Vec<Said<'a>>,
    reply: &Said<'a>,
) -> Result<Vec<Said<'a>>, AllocError>
    ensures { IfOk result (λ v. v.items ≡ held_with held.entry.items reply.now) }
{
    if takes_place(held.as_slice(), reply) {
        put_reply(alloc, held.as_slice(), reply)
    } else {
        Ok(held)
    }
}

fn takes_place(held: &[Said<'_>], reply: &Said<'_>) -> bool
    ensures { result ≡ takes_place (λ c. is_later reply.now.body c.body) held.now reply.now }
{
    match held_of(held, reply.content.key()) {
        Some(other) => is_later(reply.content.body(), other.content.body()),
        None => true,
    }
}

// What is held for a key.
fn held_of<'b, 'a>(held: &'b [Said<'a>], key: &KeyExpr) -> Option<&'b Said<'a>>
    ensures { option_copied result ≡ held_of held.now key.now }
{
    held.iter().find(|r| is_same_key(r.content.key(), key))
}

// The replies with one more, in place of that of its key.
fn put_reply<'a>(
    alloc: Global,
    held: &[Said<'a>],
    reply: &Said<'a>,
) -> Result<Vec<Said<'a>>, AllocError>
    ensures { IfOk result (λ v. v.items ≡ put_reply held.now reply.now) }
{
    let mut put = Vec::new(alloc);
    add_before(held, reply.content.key(), &mut put)?;
    put.push(Said {
        content: reply.content,
    })?;
    add_behind(held, reply.content.key(), &mut put)?;
    Ok(put)
}

fn add_before<'a>(
    held: &[Said<'a>],
    key: &KeyExpr,
    out: &mut Vec<Said<'a>>,
) -> Result<(), AllocError>
    ensures { OnOk result (out.new.items ≡ out.old.items ++ before_key (slice_cmp nat_cmp) (λ c. c.key) held.now key.now) }
{
    for r in held {
        if is_before(r.content.key(), key) {
            out.push(Said { content: r.content })?;
        }
    }
    Ok(())
}

fn add_behind<'a>(
    held: &[Said<'a>],
    key: &KeyExpr,
    out: &mut Vec<Said<'a>>,
) -> Result<(), AllocError>
    ensures { OnOk result (out.new.items ≡ out.old.items ++ behind_key (slice_cmp nat_cmp) (λ c. c.key) held.now key.now) }
{
    for r in held {
        if is_before(key, r.content.key()) {
            out.push(Said { content: r.content })?;
        }
    }
    Ok(())
}

// The replies under a number, by key and body.
fn of_number<'a>(
    alloc: Global,
    number: u32,
    replies: &[Reply<'a>],
) -> Result<Vec<KeyBody<'a>>, AllocError>
    ensures { IfOk result (λ v. v.items ≡ map (λ r. key_body r.content) (filter (λ r. r.number == number) replies.now)) }
{
    let mut told = Vec::new(alloc);
    for r in replies {
        if r.number == number {
            told.push(key_body(r.content))?;
        }
    }
    Ok(told)
}

fn keys_and_bodies<'a>(alloc: Global, replies: &[Said<'a>]) -> Result<Vec<KeyBody<'a>>, AllocError>
    ensures { IfOk result (λ v. v.items ≡ map key_body replies.now) }
{
    let mut told = Vec::new(alloc);
    for r in replies {
        told.push(key_body(r.content))?;
    }
    Ok(told)
}

fn key_body<'a>(content: &'a Content) -> KeyBody<'a>
    ensures { result ≡ key_body content.now }
{
    KeyBody {
        key: content.key(),
        body: content.body(),
    }
}

fn is_before(a: &KeyExpr, b: &KeyExpr) -> bool
    ensures { result ≡ is_lt (slice_cmp nat_cmp a.now b.now) }
{
    a.text().as_bytes().cmp(b.text().as_bytes()) == Ordering::Less
}

/// Whether two keys are one.
pub fn is_same_key(a: &KeyExpr, b: &KeyExpr) -> bool
    ensures { result ≡ is_eq (slice_cmp nat_cmp a.now b.now) }
{
    a.text().as_bytes().cmp(b.text().as_bytes()) == Ordering::Equal
}

/// Whether two bodies are one.
pub fn is_same_body(a: &Body, b: &Body) -> bool
    ensures { result ≡ is_eq (slice_cmp nat_cmp a.now b.now) }
{
    a.as_slice().cmp(b.as_slice()) == Ordering::Equal
}

/// Whether what was sent begins what is due, and is the whole where it is to be.
pub fn agree(due: &[KeyBody<'_>], sent: &[KeyBody<'_>], is_whole: bool) -> bool
    ensures { result ≡ (starts_with is_same_key_body due.now sent.now && (not is_whole || starts_with is_same_key_body sent.now due.now)) }
{
    due.starts_with(sent) && (!is_whole || sent.starts_with(due))
}

/// Whether nothing was sent.
pub fn is_nothing(sent: &[KeyBody<'_>]) -> bool
    ensures { result ≡ is_nothing sent.now }
{
    sent.is_empty()
}
