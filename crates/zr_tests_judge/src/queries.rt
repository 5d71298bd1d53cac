//! Queries, what clients say to their requests, and so what replies each asker is to have and when its final.

ghost use Rattle.std.specs.Prelude.{◌≡◌, ◌==◌, ◌++◌, ◌&&◌, IfOk, OnOk, is_none, is_some};
ghost use Rattle.std.specs.List.{list_any};
ghost use Rattle.std.specs.Option.{option_copied, option_map};
ghost use Rattle.zr_id.specs.Zid.{is_named};
ghost use Rattle.zr_guarantee.specs.Names.{client_in};
ghost use Rattle.zr_guarantee.specs.Queries.{asked_in, asks, ended_before, has_ended, is_end, is_finished, is_said_to, is_under, queries, query_at, query_of, replies, reply_of, saying_in, sayings, times_asked, times_ended, turn};
ghost use Rattle.zr_guarantee.specs.Latest.{asks_latest, has_content, is_what_is_said, may_come};
ghost use Rattle.zr_tests_judge.specs.Judge.{acts_of};

use crate::broker::{Carried, is_for};
use crate::judge::Case;
use crate::latest::{is_same_body, is_same_key};
use crate::sent::{Reply, requests_to};
use std::alloc::{AllocError, Global};
use std::marker::Model;
use zr_body::latest;
use zr_id::zid::Zid;
use zr_msg::content::Content;
use zr_msg::msg::Target;
use zr_script_spec::command::Act;
use zr_script_spec::report::ReportLine;

/// A query that a line asks: the client that asks it, its number there, which queryables it asks, and what it is.
#[derive(Drop)]
pub struct Asked<'a> {
    pub line: u64,
    pub client: &'a Zid,
    pub number: u32,
    pub target: Target,
    pub content: &'a Content,
}

impl<'a> Model for Asked<'a> {
    ghost use Rattle.zr_guarantee.specs.Queries.{Asked};

    ghost Value = { Asked };

    ghost view = { λ q. record { line = q.line; client = q.client.now; number = q.number; target = q.target; content = q.content.now } };
}

/// What a client says to the request that it was sent under a number: a reply, or none where it ends the request.
#[derive(Drop)]
pub struct Saying<'a> {
    pub line: u64,
    pub client: &'a Zid,
    pub number: u32,
    pub reply: Option<&'a Content>,
}

impl<'a> Model for Saying<'a> {
    ghost use Rattle.std.specs.Option.{option_copied};
    ghost use Rattle.zr_guarantee.specs.Queries.{Saying};

    ghost Value = { Saying };

    ghost view = { λ s. record { line = s.line; client = s.client.now; number = s.number; reply = option_copied s.reply } };
}

/// A case, lent, with all queries and all that clients say in it. Contracts see the case alone.
#[derive(Drop)]
pub struct Talk<'a> {
    pub before: &'a [(u64, Act)],
    pub mark: u64,
    pub phase: &'a [(u64, Act)],
    pub report: &'a [ReportLine],
    pub quiet: bool,
    pub asked: Vec<Asked<'a>>,
    pub said: Vec<Saying<'a>>,
}

impl<'a> Model for Talk<'a> {
    ghost use Rattle.std.specs.Prelude.{◌≡◌, ◌++◌};
    ghost use Rattle.zr_guarantee.specs.Queries.{queries, sayings};
    ghost use Rattle.zr_tests_judge.specs.Judge.{Judged};

    ghost Value = { Judged };

    ghost view = { λ t. record { before = t.before.now; mark = t.mark; phase = t.phase.now; report = t.report.now; quiet = t.quiet } };

    ghost invariant = { λ t. (t.asked.items ≡ queries (t.before.now ++ t.phase.now)) × (t.said.items ≡ sayings (t.before.now ++ t.phase.now)) };
}

impl<'a> Talk<'a> {
    /// The case with its queries, and with what clients say in it.
    pub fn new(alloc: Global, case: &'a Case) -> Result<Talk<'a>, AllocError>
        ensures { IfOk result (λ t. t ≡ case.now) }
    {
        let before = case.before.as_slice();
        let phase = case.phase.as_slice();
        Ok(Talk {
            before,
            mark: case.mark,
            phase,
            report: case.report.as_slice(),
            quiet: case.quiet,
            asked: all_queries(alloc, before, phase)?,
            said: all_sayings(alloc, before, phase)?,
        })
    }
}

#[tactic(auto, using(crate::proofs::Parts::queries_of_both))]
fn all_queries<'a>(
    alloc: Global,
    before: &'a [(u64, Act)],
    phase: &'a [(u64, Act)],
) -> Result<Vec<Asked<'a>>, AllocError>
    ensures { IfOk result (λ v. v.items ≡ queries (before.now ++ phase.now)) }
{
    let mut asked = Vec::new(alloc);
    add_queries(before, &mut asked)?;
    add_queries(phase, &mut asked)?;
    Ok(asked)
}

#[tactic(auto, using(crate::proofs::Parts::sayings_of_both))]
fn all_sayings<'a>(
    alloc: Global,
    before: &'a [(u64, Act)],
    phase: &'a [(u64, Act)],
) -> Result<Vec<Saying<'a>>, AllocError>
    ensures { IfOk result (λ v. v.items ≡ sayings (before.now ++ phase.now)) }
{
    let mut said = Vec::new(alloc);
    add_sayings(before, &mut said)?;
    add_sayings(phase, &mut said)?;
    Ok(said)
}

/// The queries of the acts are added.
pub fn add_queries<'a>(acts: &'a [(u64, Act)], out: &mut Vec<Asked<'a>>) -> Result<(), AllocError>
    ensures { OnOk result (out.new.items ≡ out.old.items ++ queries acts.now) }
{
    for x in acts {
        if let Some(q) = asked_in(x.0, &x.1) {
            out.push(q)?;
        }
    }
    Ok(())
}

/// What clients say in the acts is added.
pub fn add_sayings<'a>(acts: &'a [(u64, Act)], out: &mut Vec<Saying<'a>>) -> Result<(), AllocError>
    ensures { OnOk result (out.new.items ≡ out.old.items ++ sayings acts.now) }
{
    for x in acts {
        if let Some(s) = saying_in(x.0, &x.1) {
            out.push(s)?;
        }
    }
    Ok(())
}

fn asked_in<'a>(line: u64, act: &'a Act) -> Option<Asked<'a>>
    ensures { result ≡ asked_in line act.now }
{
    match act {
        Act::Get {
            client,
            number,
            target,
            content,
        } => Some(Asked {
            line,
            client,
            number: *number,
            target: *target,
            content,
        }),
        _ => None,
    }
}

fn saying_in<'a>(line: u64, act: &'a Act) -> Option<Saying<'a>>
    ensures { result ≡ saying_in line act.now }
{
    match act {
        Act::Reply {
            client,
            number,
            content,
        } => Some(Saying {
            line,
            client,
            number: *number,
            reply: Some(content),
        }),
        Act::End { client, number } => Some(Saying {
            line,
            client,
            number: *number,
            reply: None,
        }),
        _ => None,
    }
}

// A query is this client's, under this number.
fn is_under(client: &Zid, number: u32, q: &Asked<'_>) -> bool
    ensures { result ≡ is_under client.now number q.now }
{
    client == q.client && q.number == number
}

/// How many queries a client has asked under a number.
pub fn times_asked(talk: &Talk<'_>, client: &Zid, number: u32) -> usize
    ensures { result ≡ times_asked (acts_of talk.now) client.now number }
{
    talk.asked
        .iter()
        .filter(|q| is_under(client, number, q))
        .count()
}

/// How many its client had asked under its number once it had asked this query.
pub fn turn(talk: &Talk<'_>, q: &Asked<'_>) -> usize
    ensures { result ≡ turn (acts_of talk.now) q.now }
{
    talk.asked
        .iter()
        .filter(|p| is_under(q.client, q.number, p) && p.line <= q.line)
        .count()
}

// A client's end of a request under a number.
fn is_end(client: &Zid, number: u32, s: &Saying<'_>) -> bool
    ensures { result ≡ is_end client.now number s.now }
{
    client == s.client && s.number == number && s.reply.is_none()
}

/// How many requests a client has ended under a number.
pub fn times_ended(talk: &Talk<'_>, client: &Zid, number: u32) -> usize
    ensures { result ≡ times_ended (acts_of talk.now) client.now number }
{
    talk.said
        .iter()
        .filter(|s| is_end(client, number, s))
        .count()
}

// How many requests a client had ended under a number before a line.
fn ended_before(talk: &Talk<'_>, client: &Zid, number: u32, line: u64) -> usize
    ensures { result ≡ ended_before (acts_of talk.now) client.now number line }
{
    talk.said
        .iter()
        .filter(|s| is_end(client, number, s) && s.line < line)
        .count()
}

// The line of the query to which something is said.
fn query_of(alloc: Global, talk: &Talk<'_>, s: &Saying<'_>) -> Result<Option<u64>, AllocError>
    ensures { IfOk result (λ line. line ≡ query_of (acts_of talk.now) talk.now.report s.now) }
{
    let requests = requests_to(alloc, talk.report, s.client, s.number)?;
    let place = ended_before(talk, s.client, s.number, s.line);
    Ok(requests.get(place).copied())
}

/// Whether something is said to the query of a line.
pub fn is_said_to(
    alloc: Global,
    talk: &Talk<'_>,
    line: u64,
    s: &Saying<'_>,
) -> Result<bool, AllocError>
    ensures { IfOk result (λ answer. answer ≡ is_said_to (acts_of talk.now) talk.now.report line s.now) }
{
    match query_of(alloc, talk, s)? {
        Some(query) => Ok(query == line),
        None => Ok(false),
    }
}

/// The replies of a replier to a query so far, in their order.
pub fn replies<'a>(
    alloc: Global,
    talk: &Talk<'a>,
    q: &Asked<'_>,
    replier: &Zid,
) -> Result<Vec<Reply<'a>>, AllocError>
    ensures { IfOk result (λ v. v.items ≡ replies (acts_of talk.now) talk.now.report q.now replier.now) }
{
    let mut replies = Vec::new(alloc);
    for s in &talk.said {
        if let Some(r) = reply_of(alloc, talk, q, replier, s)? {
            replies.push(r)?;
        }
    }
    Ok(replies)
}

// The reply that is said, if it is one of the replier to the query.
fn reply_of<'a>(
    alloc: Global,
    talk: &Talk<'_>,
    q: &Asked<'_>,
    replier: &Zid,
    s: &Saying<'a>,
) -> Result<Option<Reply<'a>>, AllocError>
    ensures { IfOk result (λ r. r ≡ reply_of (acts_of talk.now) talk.now.report q.now replier.now s.now s.now.reply) }
{
    let Some(content) = s.reply else {
        return Ok(None);
    };
    if replier != s.client || !is_said_to(alloc, talk, q.line, s)? {
        return Ok(None);
    }
    Ok(Some(Reply {
        line: s.line,
        number: q.number,
        content,
    }))
}

// Whether a client has ended its request of a query.
fn has_ended(
    alloc: Global,
    talk: &Talk<'_>,
    q: &Asked<'_>,
    client: &Zid,
) -> Result<bool, AllocError>
    ensures { IfOk result (λ answer. answer ≡ has_ended (acts_of talk.now) talk.now.report q.now client.now) }
{
    for s in &talk.said {
        if is_end_of(alloc, talk, q, client, s)? {
            return Ok(true);
        }
    }
    Ok(false)
}

// Whether it is the client's end of its request of the query.
fn is_end_of(
    alloc: Global,
    talk: &Talk<'_>,
    q: &Asked<'_>,
    client: &Zid,
    s: &Saying<'_>,
) -> Result<bool, AllocError>
    ensures { IfOk result (λ answer. answer ≡ (is_named client.now s.now.client && (is_none s.now.reply && is_said_to (acts_of talk.now) talk.now.report q.now.line s.now))) }
{
    if client != s.client || s.reply.is_some() {
        return Ok(false);
    }
    is_said_to(alloc, talk, q.line, s)
}

// Whether a query asks a client.
fn asks(alloc: Global, acts: &[(u64, Act)], q: &Asked<'_>, client: &Zid) -> Result<bool, AllocError>
    ensures { IfOk result (λ answer. answer ≡ asks acts.now q.now client.now) }
{
    let carried = Carried::Query {
        target: q.target,
        content: q.content,
    };
    is_for(alloc, acts, q.client, client, &carried)
}

/// Whether all clients that a query asks have ended their requests.
pub fn is_finished(alloc: Global, talk: &Talk<'_>, q: &Asked<'_>) -> Result<bool, AllocError>
    ensures { IfOk result (λ answer. answer ≡ is_finished talk.now.before (acts_of talk.now) talk.now.report q.now) }
{
    let before = talk.before;
    for x in before {
        if let Act::Client { id, .. } = &x.1 {
            if asks(alloc, before, q, id)? && !has_ended(alloc, talk, q, id)? {
                return Ok(false);
            }
        }
    }
    Ok(true)
}

// The query that a client asked under a number after so many others.
fn query_at<'b, 'a>(
    talk: &'b Talk<'a>,
    client: &Zid,
    number: u32,
    turns: usize,
) -> Option<&'b Asked<'a>>
    ensures { option_copied result ≡ query_at (acts_of talk.now) client.now number turns }
{
    let mut left = turns;
    for q in &talk.asked {
        if is_under(client, number, q) {
            if left == 0 {
                return Some(q);
            }
            left -= 1;
        }
    }
    None
}

/// Whether a reply may come to a client behind so many finals of its number: a client has said it, to the query that this one has asked
/// under that number after so many others.
pub fn may_come(
    alloc: Global,
    talk: &Talk<'_>,
    client: &Zid,
    turns: usize,
    reply: &Reply<'_>,
) -> Result<bool, AllocError>
    ensures { IfOk result (λ answer. answer ≡ may_come (acts_of talk.now) talk.now.report client.now turns reply.now) }
{
    match query_at(talk, client, reply.number, turns) {
        Some(q) => is_said(alloc, talk, q, reply),
        None => Ok(false),
    }
}

// Whether a client has said a reply, to this query.
fn is_said(
    alloc: Global,
    talk: &Talk<'_>,
    q: &Asked<'_>,
    reply: &Reply<'_>,
) -> Result<bool, AllocError>
    ensures { IfOk result (λ answer. answer ≡ list_any (λ s. is_said_to (acts_of talk.now) talk.now.report q.now.line s && is_what_is_said q.now reply.now s) (sayings (acts_of talk.now))) }
{
    for s in &talk.said {
        if is_said_so(alloc, talk, q, reply, s)? {
            return Ok(true);
        }
    }
    Ok(false)
}

// Whether it is this reply that is said, to this query.
fn is_said_so(
    alloc: Global,
    talk: &Talk<'_>,
    q: &Asked<'_>,
    reply: &Reply<'_>,
    s: &Saying<'_>,
) -> Result<bool, AllocError>
    ensures { IfOk result (λ answer. answer ≡ (is_said_to (acts_of talk.now) talk.now.report q.now.line s.now && is_what_is_said q.now reply.now s.now)) }
{
    Ok(is_said_to(alloc, talk, q.line, s)? && is_what_is_said(q, reply, s))
}

// Whether a reply is what is said: it comes from that line, or to a query for the latest it has that key and body.
fn is_what_is_said(q: &Asked<'_>, reply: &Reply<'_>, s: &Saying<'_>) -> bool
    ensures { result ≡ is_what_is_said q.now reply.now s.now }
{
    if asks_latest(q) {
        has_content(reply.content, s.reply)
    } else {
        s.line == reply.line && s.reply.is_some()
    }
}

fn has_content(content: &Content, said: Option<&Content>) -> bool
    ensures { result ≡ has_content content.now (option_copied said.entry) }
{
    match said {
        Some(said) => {
            is_same_key(content.key(), said.key()) && is_same_body(content.body(), said.body())
        }
        None => false,
    }
}

/// Whether a query asks for the latest replies alone.
pub fn asks_latest(q: &Asked<'_>) -> bool
    ensures { result ≡ asks_latest q.now }
{
    latest(q.content.body())
}
