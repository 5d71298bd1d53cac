//! The judgement of replies and finals, and of requests under a number.

ghost use Rattle.std.specs.Prelude.{◌≡◌, ◌==◌, ◌&&◌, ◌||◌, not, IfOk, [], true, filter};
ghost use Rattle.std.specs.List.{list_all, list_any, starts_with};
ghost use Rattle.std.specs.Option.{option_map_or};
ghost use Rattle.zr_guarantee.specs.Queries.{sayings, turn};
ghost use Rattle.zr_guarantee.specs.Latest.{all_may_come, asks_latest, may_come};
ghost use Rattle.zr_guarantee.specs.Sent.{behind_finals, finals_in, replies_in, reply_in, told_to};
ghost use Rattle.zr_tests_judge.specs.Same.{is_same_reply};
ghost use Rattle.zr_tests_judge.specs.Judge.{acts_of, answers_hold, best_holds, contents_hold, finals_hold, is_answered, is_final_sent, is_none_left, query_holds, replier_holds, replies_hold, requests_hold};

use crate::judge::is_router;
use crate::latest::{self, is_nothing};
use crate::queries::{
    Asked, Talk, add_queries, asks_latest, is_finished, may_come, replies, times_asked,
    times_ended, turn,
};
use crate::sent::{
    Reply, Told, behind_finals, finals_in, replies_in, reply_in, requests_to, told_to,
};
use std::alloc::{AllocError, Global};
use zr_id::zid::Zid;
use zr_msg::msg::Msg;
use zr_script_spec::report::ReportLine;

/// Whether replies and finals come as one broker sends them, and requests one at a time under each number.
pub fn is_answered(alloc: Global, talk: &Talk<'_>) -> Result<bool, AllocError>
    ensures { IfOk result (λ answer. answer ≡ is_answered talk.now) }
{
    let mut asked = Vec::new(alloc);
    add_queries(talk.phase, &mut asked)?;
    let queries = queries_hold(alloc, talk, asked.as_slice())?;
    Ok(queries && all_answers_hold(alloc, talk, talk.report)?)
}

// Whether each of these queries is answered as one broker answers it.
fn queries_hold(alloc: Global, talk: &Talk<'_>, asked: &[Asked<'_>]) -> Result<bool, AllocError>
    ensures { IfOk result (λ answer. answer ≡ list_all (λ q. query_holds talk.now q) asked.now) }
{
    for q in asked {
        if !query_holds(alloc, talk, q)? {
            return Ok(false);
        }
    }
    Ok(true)
}

// Whether no reply and no final came to a client that is none of its own, and no request before its turn, by these lines of the report.
fn all_answers_hold(
    alloc: Global,
    talk: &Talk<'_>,
    report: &[ReportLine],
) -> Result<bool, AllocError>
    ensures { IfOk result (λ answer. answer ≡ list_all (λ x. answers_hold talk.now x) report.now) }
{
    for x in report {
        if !answers_hold(alloc, talk, x)? {
            return Ok(false);
        }
    }
    Ok(true)
}

// The final is sent only where all that are asked have ended, and it is where they have and nothing is under way.
fn query_holds(alloc: Global, talk: &Talk<'_>, q: &Asked<'_>) -> Result<bool, AllocError>
    ensures { IfOk result (λ answer. answer ≡ query_holds talk.now q.now) }
{
    if !contents_hold(alloc, talk, q)? {
        return Ok(false);
    }
    let told = told_to_asker(alloc, talk, q)?;
    let is_final_sent = is_final_sent(talk, q, told.as_slice());
    let have_ended = is_finished(alloc, talk, q)?;
    Ok((!is_final_sent || have_ended) && (!(talk.quiet && have_ended) || is_final_sent))
}

// Whether the replies to a query come as they are to.
fn contents_hold(alloc: Global, talk: &Talk<'_>, q: &Asked<'_>) -> Result<bool, AllocError>
    ensures { IfOk result (λ answer. answer ≡ contents_hold (asks_latest q.now) talk.now q.now) }
{
    if asks_latest(q) {
        best_holds(alloc, talk, q)
    } else {
        repliers_hold(alloc, talk, q)
    }
}

// Of a query for the latest what was sent is nothing before the end, begins the best, and is the whole where its final was sent or nothing is under way.
fn best_holds(alloc: Global, talk: &Talk<'_>, q: &Asked<'_>) -> Result<bool, AllocError>
    ensures { IfOk result (λ answer. answer ≡ best_holds talk.now q.now) }
{
    let told = told_to_asker(alloc, talk, q)?;
    let told = told.as_slice();
    let due = latest::best(alloc, talk, q)?;
    let sent = latest::sent_in_turn(alloc, talk, q, told)?;
    let sent = sent.as_slice();
    let have_ended = is_finished(alloc, talk, q)?;
    if !have_ended && !is_nothing(sent) {
        return Ok(false);
    }
    let is_whole = is_final_sent(talk, q, told) || (talk.quiet && have_ended);
    Ok(latest::agree(due.as_slice(), sent, is_whole))
}

fn repliers_hold(alloc: Global, talk: &Talk<'_>, q: &Asked<'_>) -> Result<bool, AllocError>
    ensures { IfOk result (λ answer. answer ≡ list_all (λ s. replier_holds talk.now q.now s.client) (sayings (acts_of talk.now))) }
{
    for s in &talk.said {
        if !replier_holds(alloc, talk, q, s.client)? {
            return Ok(false);
        }
    }
    Ok(true)
}

// Of a replier what was sent begins what is due, it is the whole where the final was sent or nothing is under way, and none is behind the final.
fn replier_holds(
    alloc: Global,
    talk: &Talk<'_>,
    q: &Asked<'_>,
    replier: &Zid,
) -> Result<bool, AllocError>
    ensures { IfOk result (λ answer. answer ≡ replier_holds talk.now q.now replier.now) }
{
    let told = told_to_asker(alloc, talk, q)?;
    let told = told.as_slice();
    let due = replies(alloc, talk, q, replier)?;
    let due = due.as_slice();
    let sent = sent_of_query(alloc, due, told)?;
    let behind = replies_behind(alloc, talk, q, due, told)?;
    let is_whole = is_whole(talk, q, told);
    Ok(agree(due, sent.as_slice(), behind.as_slice(), is_whole))
}

// All messages that the client of a query was sent.
fn told_to_asker<'a>(
    alloc: Global,
    talk: &Talk<'a>,
    q: &Asked<'_>,
) -> Result<Vec<Told<'a>>, AllocError>
    ensures { IfOk result (λ v. v.items ≡ told_to talk.now.report q.now.client) }
{
    told_to(alloc, talk.report, q.client)
}

fn agree(due: &[Reply<'_>], sent: &[Reply<'_>], behind: &[Reply<'_>], is_whole: bool) -> bool
    ensures { result ≡ (starts_with is_same_reply due.now sent.now && ((not is_whole || starts_with is_same_reply sent.now due.now) && is_none_left behind.now)) }
{
    due.starts_with(sent) && (!is_whole || sent.starts_with(due)) && is_none_left(behind)
}

fn is_none_left(replies: &[Reply<'_>]) -> bool
    ensures { result ≡ is_none_left replies.now }
{
    replies.is_empty()
}

// Whether its client is to have all replies of a query by now, where it was told this.
fn is_whole(talk: &Talk<'_>, q: &Asked<'_>, told: &[Told<'_>]) -> bool
    requires { told.now ≡ told_to talk.now.report q.now.client }
    ensures { result ≡ (is_final_sent talk.now q.now || talk.now.quiet) }
{
    is_final_sent(talk, q, told) || talk.quiet
}

// Whether the client of a query was sent its final, where it was told this.
fn is_final_sent(talk: &Talk<'_>, q: &Asked<'_>, told: &[Told<'_>]) -> bool
    requires { told.now ≡ told_to talk.now.report q.now.client }
    ensures { result ≡ is_final_sent talk.now q.now }
{
    turn(talk, q) <= finals_in(q.number, told)
}

// The replies among some messages that are of the lines of those that are due.
fn sent_of_query<'a>(
    alloc: Global,
    due: &[Reply<'_>],
    told: &[Told<'a>],
) -> Result<Vec<Reply<'a>>, AllocError>
    ensures { IfOk result (λ v. v.items ≡ filter (λ r. list_any (λ d. d.line == r.line) due.now) (replies_in told.now)) }
{
    let mut sent = replies_in(alloc, told)?;
    keep_due(due, &mut sent);
    Ok(sent)
}

// The same among the messages behind the final of a query.
fn replies_behind<'a>(
    alloc: Global,
    talk: &Talk<'_>,
    q: &Asked<'_>,
    due: &[Reply<'_>],
    told: &[Told<'a>],
) -> Result<Vec<Reply<'a>>, AllocError>
    ensures { IfOk result (λ v. v.items ≡ filter (λ r. list_any (λ d. d.line == r.line) due.now) (replies_in (behind_finals q.now.number (turn (acts_of talk.now) q.now) told.now))) }
{
    let behind = behind_finals(q.number, turn(talk, q), told);
    sent_of_query(alloc, due, behind)
}

fn keep_due(due: &[Reply<'_>], sent: &mut Vec<Reply<'_>>)
    ensures { sent.new.items ≡ filter (λ r. list_any (λ d. d.line == r.line) due.now) sent.old.items }
{
    sent.retain(|r| is_line_of(due, r.line));
}

fn is_line_of(due: &[Reply<'_>], line: u64) -> bool
    ensures { result ≡ list_any (λ d. d.line == line) due.now }
{
    due.iter().any(|d| d.line == line)
}

fn answers_hold(alloc: Global, talk: &Talk<'_>, line: &ReportLine) -> Result<bool, AllocError>
    ensures { IfOk result (λ answer. answer ≡ answers_hold talk.now line.now) }
{
    let ReportLine::Taken { to, msg, .. } = line else {
        return Ok(true);
    };
    if is_router(talk.before, to) {
        return Ok(true);
    }
    Ok(
        replies_hold(alloc, talk, to)?
            && requests_hold(alloc, talk, to, msg)?
            && finals_hold(alloc, talk, to, msg)?,
    )
}

// No reply came to a client that is none of its own.
fn replies_hold(alloc: Global, talk: &Talk<'_>, receiver: &Zid) -> Result<bool, AllocError>
    ensures { IfOk result (λ answer. answer ≡ replies_hold talk.now receiver.now) }
{
    let told = told_to(alloc, talk.report, receiver)?;
    all_may_come(alloc, talk, receiver, told.as_slice())
}

// Whether each reply among some messages may come behind those before it.
fn all_may_come(
    alloc: Global,
    talk: &Talk<'_>,
    receiver: &Zid,
    told: &[Told<'_>],
) -> Result<bool, AllocError>
    ensures { IfOk result (λ answer. answer ≡ all_may_come (acts_of talk.now) talk.now.report receiver.now [] told.now) }
{
    for place in 0..told.len() {
        if !comes_rightly(alloc, talk, receiver, &told[..place], &told[place])? {
            return Ok(false);
        }
    }
    Ok(true)
}

// Whether a message, if it is a reply, may come behind others.
fn comes_rightly(
    alloc: Global,
    talk: &Talk<'_>,
    receiver: &Zid,
    behind: &[Told<'_>],
    x: &Told<'_>,
) -> Result<bool, AllocError>
    ensures { IfOk result (λ answer. answer ≡ option_map_or (λ r. may_come (acts_of talk.now) talk.now.report receiver.now (finals_in r.number behind.now) r) (reply_in x.now.tag x.now.msg) true) }
{
    match reply_in(x.tag, x.msg) {
        Some(reply) => {
            let turns = finals_in(reply.number, behind);
            may_come(alloc, talk, receiver, turns, &reply)
        }
        None => Ok(true),
    }
}

// If the message is a request, its client has ended all that came under its number but one at most.
fn requests_hold(
    alloc: Global,
    talk: &Talk<'_>,
    receiver: &Zid,
    msg: &Msg,
) -> Result<bool, AllocError>
    ensures { IfOk result (λ answer. answer ≡ requests_hold talk.now receiver.now msg.now) }
{
    let Msg::Request { id, .. } = msg else {
        return Ok(true);
    };
    let requests = requests_to(alloc, talk.report, receiver, *id)?;
    Ok(requests.len().saturating_sub(1) <= times_ended(talk, receiver, *id))
}

// If the message is a final, no more came under its number than queries were asked.
fn finals_hold(
    alloc: Global,
    talk: &Talk<'_>,
    receiver: &Zid,
    msg: &Msg,
) -> Result<bool, AllocError>
    ensures { IfOk result (λ answer. answer ≡ finals_hold talk.now receiver.now msg.now) }
{
    let Msg::Final { id, .. } = msg else {
        return Ok(true);
    };
    let told = told_to(alloc, talk.report, receiver)?;
    Ok(finals_in(*id, told.as_slice()) <= times_asked(talk, receiver, *id))
}
