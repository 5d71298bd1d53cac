//! What clients were sent, by the report alone.

ghost use Rattle.std.specs.Prelude.{◌≡◌, ◌++◌, IfOk, OnOk, filter, is_some};
ghost use Rattle.std.specs.Option.{option_map};
ghost use Rattle.zr_guarantee.specs.Broker.{is_line_of};
ghost use Rattle.zr_guarantee.specs.Sent.{behind_finals, carried_by, finals_in, is_final, is_request, item_of, replies_in, reply_in, requests_to, sent_to, told_in, told_to, up_to_final};
ghost use Rattle.zr_tests_judge.specs.Given.{carried_of};

use crate::broker::{Carried, Item, is_line_of};
use crate::same::is_same_content;
use std::alloc::{AllocError, Global};
use std::marker::Model;
use zr_id::zid::Zid;
use zr_msg::content::Content;
use zr_msg::msg::Msg;
use zr_script_spec::command::Act;
use zr_script_spec::report::ReportLine;

/// A message that a client was sent, with the number of the line that its tag names.
#[derive(Drop)]
pub struct Told<'a> {
    pub msg: &'a Msg,
    pub tag: u64,
}

impl<'a> Model for Told<'a> {
    ghost use Rattle.zr_guarantee.specs.Sent.{Told};

    ghost Value = { Told };

    ghost view = { λ t. record { msg = t.msg.now; tag = t.tag } };
}

/// A reply: the number of the line that gives it, the number of the query under which its client is sent it, and what was replied.
#[derive(Drop)]
pub struct Reply<'a> {
    pub line: u64,
    pub number: u32,
    pub content: &'a Content,
}

impl<'a> Model for Reply<'a> {
    ghost use Rattle.zr_guarantee.specs.Item.{Reply};

    ghost Value = { Reply };

    ghost view = { λ r. record { line = r.line; number = r.number; content = r.content.now } };
}

impl<'a> PartialEq for Reply<'a> {
    ghost use Rattle.zr_tests_judge.specs.Same.{is_same_reply};
    ghost use Rattle.zr_tests_judge.specs.Equal.{reply_laws};

    ghost eq = { is_same_reply };

    ghost laws = { reply_laws };

    fn eq(&self, other: &Reply<'a>) -> bool {
        self.line == other.line
            && self.number == other.number
            && is_same_content(self.content, other.content)
    }
}

/// All messages that the receiver was sent, in order.
pub fn told_to<'a>(
    alloc: Global,
    report: &'a [ReportLine],
    receiver: &Zid,
) -> Result<Vec<Told<'a>>, AllocError>
    ensures { IfOk result (λ v. v.items ≡ told_to report.now receiver.now) }
{
    let mut told = Vec::new(alloc);
    for x in report {
        if let Some(t) = told_in(receiver, x) {
            told.push(t)?;
        }
    }
    Ok(told)
}

// The message that a report line says was sent to the receiver, if it says so.
fn told_in<'a>(receiver: &Zid, line: &'a ReportLine) -> Option<Told<'a>>
    ensures { result ≡ told_in receiver.now line.now }
{
    match line {
        ReportLine::Taken { to, msg, tag, .. } if receiver == to => Some(Told { msg, tag: *tag }),
        _ => None,
    }
}

/// What the receiver was sent of the publisher's lines in a phase.
pub fn sent<'a>(
    alloc: Global,
    phase: &[(u64, Act)],
    report: &'a [ReportLine],
    publisher: &Zid,
    receiver: &Zid,
) -> Result<Vec<Item<'a>>, AllocError>
    ensures { IfOk result (λ v. v.items ≡ filter (λ i. is_line_of phase.now publisher.now i.line) (sent_to report.now receiver.now)) }
{
    let told = told_to(alloc, report, receiver)?;
    let mut sent = Vec::new(alloc);
    for x in &told {
        add_sent(phase, publisher, x, &mut sent)?;
    }
    Ok(sent)
}

/// Whether a message is a sample or a request.
pub fn is_carried(msg: &Msg) -> bool
    ensures { result ≡ is_some (carried_by msg.now) }
{
    match msg {
        Msg::Push { .. } | Msg::Request { .. } => true,
        _ => false,
    }
}

fn carried_by<'a>(msg: &'a Msg) -> Option<Carried<'a>>
    ensures { option_map carried_of result ≡ carried_by msg.now }
{
    match msg {
        Msg::Push { content, .. } => Some(Carried::Sample { content }),
        Msg::Request {
            target,
            content,
            ..
        } => Some(Carried::Query {
            target: *target,
            content,
        }),
        _ => None,
    }
}

fn add_sent<'a>(
    phase: &[(u64, Act)],
    publisher: &Zid,
    told: &Told<'a>,
    out: &mut Vec<Item<'a>>,
) -> Result<(), AllocError>
    ensures { OnOk result (out.new.items ≡ out.old.items ++ filter (λ i. is_line_of phase.now publisher.now i.line) (item_of told.now.msg told.now.tag)) }
{
    if is_line_of(phase, publisher, told.tag) {
        if let Some(carried) = carried_by(told.msg) {
            out.push(Item {
                line: told.tag,
                carried,
            })?;
        }
    }
    Ok(())
}

/// The lines of the queries whose requests the receiver was sent under a number, in order.
pub fn requests_to(
    alloc: Global,
    report: &[ReportLine],
    receiver: &Zid,
    number: u32,
) -> Result<Vec<u64>, AllocError>
    ensures { IfOk result (λ v. v.items ≡ requests_to report.now receiver.now number) }
{
    let told = told_to(alloc, report, receiver)?;
    let mut lines = Vec::new(alloc);
    for x in &told {
        if is_request(number, x.msg) {
            lines.push(x.tag)?;
        }
    }
    Ok(lines)
}

/// The replies among some messages, in order.
pub fn replies_in<'a>(alloc: Global, told: &[Told<'a>]) -> Result<Vec<Reply<'a>>, AllocError>
    ensures { IfOk result (λ v. v.items ≡ replies_in told.now) }
{
    let mut replies = Vec::new(alloc);
    for x in told {
        if let Some(r) = reply_in(x.tag, x.msg) {
            replies.push(r)?;
        }
    }
    Ok(replies)
}

/// The reply that a message is, if it is one.
pub fn reply_in<'a>(tag: u64, msg: &'a Msg) -> Option<Reply<'a>>
    ensures { result ≡ reply_in tag msg.now }
{
    match msg {
        Msg::Response { id, content } => Some(Reply {
            line: tag,
            number: *id,
            content,
        }),
        _ => None,
    }
}

/// How many finals of a number are among some messages.
pub fn finals_in(number: u32, told: &[Told<'_>]) -> usize
    ensures { result ≡ finals_in number told.now }
{
    told.iter().filter(|x| is_final(number, x.msg)).count()
}

/// The messages behind the first so many finals of a number.
pub fn behind_finals<'b, 'a>(number: u32, count: usize, told: &'b [Told<'a>]) -> &'b [Told<'a>]
    ensures { result.now ≡ behind_finals number count told.now }
{
    let mut left = count;
    let mut rest = told;
    while left > 0 {
        let [x, more @ ..] = rest else {
            return rest;
        };
        if is_final(number, x.msg) {
            left -= 1;
        }
        rest = more;
    }
    rest
}

/// The messages up to the next final of a number.
pub fn up_to_final<'b, 'a>(number: u32, told: &'b [Told<'a>]) -> &'b [Told<'a>]
    ensures { result.now ≡ up_to_final number told.now }
{
    for place in 0..told.len() {
        let x = &told[place];
        if is_final(number, x.msg) {
            return &told[..place + 1];
        }
    }
    told
}

fn is_request(number: u32, msg: &Msg) -> bool
    ensures { result ≡ is_request number msg.now }
{
    match msg {
        Msg::Request { id, .. } => *id == number,
        _ => false,
    }
}

fn is_final(number: u32, msg: &Msg) -> bool
    ensures { result ≡ is_final number msg.now }
{
    match msg {
        Msg::Final { id, .. } => *id == number,
        _ => false,
    }
}
