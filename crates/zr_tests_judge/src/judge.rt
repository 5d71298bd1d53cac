//! The judgement.

ghost use Rattle.std.specs.Prelude.{◌≡◌, IfOk};
ghost use Rattle.std.specs.List.{list_all};
ghost use Rattle.zr_guarantee.specs.Names.{brings_router, is_router};
ghost use Rattle.zr_tests_judge.specs.Judge.{Judges, is_right, pair_holds, holds_for_client, holds_for_receiver, holds_for_all, holds_for_publisher, may_be_sent, is_delivered, judgement};

use crate::answers::is_answered;
use crate::broker::{due, is_line, publisher};
use crate::queries::Talk;
use crate::sent::{is_carried, sent};
use std::alloc::{AllocError, Global};
use std::marker::Model;
use zr_id::zid::Zid;
use zr_script_spec::command::Act;
use zr_script_spec::report::ReportLine;

/// What is judged.
#[derive(Drop)]
pub struct Case {
    /// The accepted acts before a mark, each with the number of its line.
    pub before: Vec<(u64, Act)>,
    /// The number of the mark's line.
    pub mark: u64,
    /// The accepted acts after it.
    pub phase: Vec<(u64, Act)>,
    /// The report so far.
    pub report: Vec<ReportLine>,
    /// Whether nothing is under way.
    pub quiet: bool,
}

impl Model for Case {
    ghost use Rattle.zr_tests_judge.specs.Judge.{Judged};

    ghost Value = { Judged };

    ghost view = { λ c. record { before = c.before.items; mark = c.mark; phase = c.phase.items; report = c.report.items; quiet = c.quiet } };
}

/// Whether the network refines one broker.
pub fn refines(alloc: Global, case: &Case) -> Result<bool, AllocError>
    ensures { IfOk result (λ answer. Judges answer case.now) }
{
    judgement(alloc, case)
}

fn judgement(alloc: Global, case: &Case) -> Result<bool, AllocError>
    ensures { IfOk result (λ answer. answer ≡ judgement case.now) }
{
    if !is_delivered(alloc, case)? {
        return Ok(false);
    }
    is_answered(alloc, &Talk::new(alloc, case)?)
}

// Whether samples and requests come as one broker sends them.
fn is_delivered(alloc: Global, case: &Case) -> Result<bool, AllocError>
    ensures { IfOk result (λ answer. answer ≡ is_delivered case.now) }
{
    Ok(holds_for_publishers(alloc, case, case.phase.as_slice())? && may_all_be_sent(case))
}

fn holds_for_publishers(alloc: Global, case: &Case, acts: &[(u64, Act)]) -> Result<bool, AllocError>
    ensures { IfOk result (λ answer. answer ≡ list_all (λ x. holds_for_publisher case.now x.1) acts.now) }
{
    for x in acts {
        if !holds_for_publisher(alloc, case, &x.1)? {
            return Ok(false);
        }
    }
    Ok(true)
}

fn holds_for_publisher(alloc: Global, case: &Case, act: &Act) -> Result<bool, AllocError>
    ensures { IfOk result (λ answer. answer ≡ holds_for_publisher case.now act.now) }
{
    match publisher(act) {
        Some(client) => holds_for_all(alloc, case, client),
        None => Ok(true),
    }
}

fn holds_for_all(alloc: Global, case: &Case, publisher: &Zid) -> Result<bool, AllocError>
    ensures { IfOk result (λ answer. answer ≡ holds_for_all case.now publisher.now) }
{
    let clients = holds_for_clients(alloc, case, publisher, case.before.as_slice())?;
    let reported = holds_for_reported(alloc, case, publisher, case.report.as_slice())?;
    Ok(clients && reported)
}

fn holds_for_clients(
    alloc: Global,
    case: &Case,
    publisher: &Zid,
    acts: &[(u64, Act)],
) -> Result<bool, AllocError>
    ensures { IfOk result (λ answer. answer ≡ list_all (λ x. holds_for_client case.now publisher.now x.1) acts.now) }
{
    for x in acts {
        if !holds_for_client(alloc, case, publisher, &x.1)? {
            return Ok(false);
        }
    }
    Ok(true)
}

fn holds_for_reported(
    alloc: Global,
    case: &Case,
    publisher: &Zid,
    report: &[ReportLine],
) -> Result<bool, AllocError>
    ensures { IfOk result (λ answer. answer ≡ list_all (λ x. holds_for_receiver case.now publisher.now x) report.now) }
{
    for x in report {
        if !holds_for_receiver(alloc, case, publisher, x)? {
            return Ok(false);
        }
    }
    Ok(true)
}

fn holds_for_client(
    alloc: Global,
    case: &Case,
    publisher: &Zid,
    act: &Act,
) -> Result<bool, AllocError>
    ensures { IfOk result (λ answer. answer ≡ holds_for_client case.now publisher.now act.now) }
{
    match act {
        Act::Client { id, .. } => pair_holds(alloc, case, publisher, id),
        _ => Ok(true),
    }
}

fn holds_for_receiver(
    alloc: Global,
    case: &Case,
    publisher: &Zid,
    line: &ReportLine,
) -> Result<bool, AllocError>
    ensures { IfOk result (λ answer. answer ≡ holds_for_receiver case.now publisher.now line.now) }
{
    match line {
        ReportLine::Taken { to, .. } => pair_holds(alloc, case, publisher, to),
        _ => Ok(true),
    }
}

fn pair_holds(
    alloc: Global,
    case: &Case,
    publisher: &Zid,
    receiver: &Zid,
) -> Result<bool, AllocError>
    ensures { IfOk result (λ answer. answer ≡ pair_holds case.now publisher.now receiver.now) }
{
    if is_router(case.before.as_slice(), receiver) {
        return Ok(true);
    }
    is_right(alloc, case, publisher, receiver)
}

fn is_right(alloc: Global, case: &Case, publisher: &Zid, receiver: &Zid) -> Result<bool, AllocError>
    ensures { IfOk result (λ answer. answer ≡ is_right case.now publisher.now receiver.now) }
{
    let before = case.before.as_slice();
    let phase = case.phase.as_slice();
    let sent = sent(alloc, phase, case.report.as_slice(), publisher, receiver)?;
    let due = due(alloc, before, phase, publisher, receiver)?;
    let sent = sent.as_slice();
    let due = due.as_slice();
    Ok(due.starts_with(sent) && (!case.quiet || sent.starts_with(due)))
}

/// Whether a router has this name.
pub fn is_router(before: &[(u64, Act)], name: &Zid) -> bool
    ensures { result ≡ is_router before.now name.now }
{
    before.iter().any(|x| brings_router(name, &x.1))
}

fn brings_router(name: &Zid, act: &Act) -> bool
    ensures { result ≡ brings_router name.now act.now }
{
    match act {
        Act::Router { id } => name == id,
        _ => false,
    }
}

fn may_all_be_sent(case: &Case) -> bool
    ensures { result ≡ list_all (λ x. may_be_sent case.now x) case.now.report }
{
    case.report.iter().all(|x| may_be_sent(case, x))
}

fn may_be_sent(case: &Case, line: &ReportLine) -> bool
    ensures { result ≡ may_be_sent case.now line.now }
{
    match line {
        ReportLine::Taken { msg, tag, .. } if is_carried(msg) => {
            *tag < case.mark || is_line(case.phase.as_slice(), *tag)
        }
        _ => true,
    }
}
