//! Scripts with samples and with queries: the judge at each moment of their phase, and at forged reports.
//!
//! The lines are those of the language of scripts, and what is sent is written as the line that brings such a message. What else routers do,
//! and who takes a step, is nothing to the judge: so a `run` stands for the steps before the mark, and the steps of a phase are lines of their own.

use crate::latest::{FORGED_LATEST, LATEST_QUERY, TRUE_LATEST};
use crate::row::{act_of, message, name};
use std::alloc::{AllocError, Global};
use std::test::Fail;
use zr_body::Body;
use zr_key::key::KeyExpr;
use zr_msg::content::Content;
use zr_msg::extras::Extras;
use zr_msg::msg::Msg;
use zr_script_spec::command::Act;
use zr_script_spec::report::ReportLine;
use zr_tests_judge::judge::{Case, refines};

/// A script: its lines before the mark, and those behind it.
pub(crate) struct Script {
    pub(crate) before: &'static [&'static str],
    pub(crate) phase: &'static [&'static str],
}

/// A message that is sent: the router that sends it, to whom, the number of the line that it comes from, and a line that brings one like it.
pub(crate) type Sent = (u8, u8, u64, &'static str);

/// How many lines of the phase are done, what was sent, whether nothing is under way, and what there is to see.
pub(crate) type Row = (usize, &'static [Sent], bool, &'static str);

/// A script, rows at which the network refines one broker, and rows at which it doesn't.
type Table = (Script, &'static [Row], &'static [Row]);

/// In place of a line: the sample `put c1 a/b h` with another priority.
const URGENT: &str = "";

const SAMPLE_PHASE: &[&str] = &["put c1 a/b h", "handle 0a c1", "take 0a c2"];

// A subscriber, and one sample for it.
const SAMPLE: Script = Script {
    before: &[
        "router 0a",
        "client c1 0a",
        "client c2 0a",
        "sub c2 1 a/*",
        "handle 0a c2",
    ],
    phase: SAMPLE_PHASE,
};

// What the script leads to, and reports that tell of nothing else.
const TRUE_SAMPLES: &[Row] = &[
    (0, &[], true, "at the mark"),
    (1, &[], false, "published"),
    (2, &[], false, "handled"),
    (3, &[(0x0a, 0xc2, 7, "put c1 a/b h")], true, "at the end"),
    (
        2,
        &[(0x0a, 0xc2, 5, "put c1 a/b o")],
        false,
        "from before the mark",
    ),
    (
        2,
        &[(0x0a, 0x0a, 7, "put c1 a/b h")],
        false,
        "what a router is sent goes on",
    ),
];

const FORGED_SAMPLES: &[Row] = &[
    (
        3,
        &[(0x0a, 0xc2, 7, "put c1 a/b o")],
        false,
        "another payload",
    ),
    (
        3,
        &[(0x0a, 0xc1, 7, "put c1 a/b h")],
        false,
        "the publisher hears itself",
    ),
    (
        3,
        &[(0x0a, 0xee, 7, "put c1 a/b h")],
        false,
        "sent to no client",
    ),
    (
        3,
        &[(0x0a, 0xc2, 8, "put c1 a/b h")],
        false,
        "a sample of no line",
    ),
    (
        3,
        &[
            (0x0a, 0xc2, 7, "put c1 a/b h"),
            (0x0a, 0xc2, 7, "put c1 a/b h"),
        ],
        false,
        "sent twice",
    ),
    (3, &[], true, "never sent"),
    (3, &[(0x0a, 0xc2, 7, URGENT)], true, "another priority"),
    (3, &[(0x0a, 0xc2, 7, "put c1 a/c h")], true, "another key"),
    (3, &[(0x0a, 0xc2, 7, "del c1 a/b")], true, "a deletion"),
];

// The same script, but that the subscriber takes something back: what it had declared, or what it had not.
const TAKEN_BACK: Script = Script {
    before: &[
        "router 0a",
        "client c1 0a",
        "client c2 0a",
        "sub c2 1 a/*",
        "handle 0a c2",
        "unsub c2 1",
    ],
    phase: SAMPLE_PHASE,
};

const NOT_TAKEN_BACK: Script = Script {
    before: &[
        "router 0a",
        "client c1 0a",
        "client c2 0a",
        "sub c2 1 a/*",
        "handle 0a c2",
        "unsub c2 2",
    ],
    phase: SAMPLE_PHASE,
};

const SENT_ALL_THE_SAME: &[Row] = &[(
    3,
    &[(0x0a, 0xc2, 8, "put c1 a/b h")],
    true,
    "the sample is sent",
)];

// A queryable, and one query for it.
const QUERY: Script = Script {
    before: &[
        "router 0a",
        "client c1 0a",
        "client c2 0a",
        "able c2 1 a/*",
        "handle 0a c2",
    ],
    phase: &[
        "get c1 5 a/b all",
        "handle 0a c1",
        "take 0a c2",
        "reply c2 1 a/b r",
        "handle 0a c2",
        "take 0a c1",
        "end c2 1",
        "handle 0a c2",
        "take 0a c1",
    ],
};

const ASKS: Sent = (0x0a, 0xc2, 7, "get c1 1 a/b all");

const REPLIES: Sent = (0x0a, 0xc1, 10, "reply c2 5 a/b r");

const ENDS: Sent = (0x0a, 0xc1, 13, "end c2 5");

/// The end, told as a reply.
const REPLIES_ON_END: Sent = (0x0a, 0xc1, 13, "reply c2 5 a/b r");

const TRUE_ANSWERS: &[Row] = &[
    (0, &[], true, "at the mark"),
    (1, &[], false, "asked"),
    (2, &[], false, "handled"),
    (3, &[ASKS], true, "the request is sent"),
    (4, &[ASKS], false, "replied"),
    (5, &[ASKS], false, "the reply is handled"),
    (6, &[ASKS, REPLIES], true, "the reply is sent"),
    (7, &[ASKS, REPLIES], false, "ended"),
    (8, &[ASKS, REPLIES], false, "the end is handled"),
    (9, &[ASKS, REPLIES, ENDS], true, "at the end"),
];

const FORGED_ANSWERS: &[Row] = &[
    (3, &[], true, "the request is never sent"),
    (3, &[ASKS, ASKS], false, "a request is sent twice"),
    (
        3,
        &[(0x0a, 0xc2, 5, "get c1 1 a/b all"), ASKS],
        false,
        "a request under a number of which one from before the mark has not ended",
    ),
    (
        3,
        &[(0x0a, 0xc1, 7, "get c1 1 a/b all")],
        false,
        "the asker is asked",
    ),
    (6, &[ASKS], true, "the reply is never sent"),
    (6, &[ASKS, REPLIES, REPLIES], false, "a reply is sent twice"),
    (
        6,
        &[ASKS, (0x0a, 0xc1, 10, "reply c2 5 a/b q")],
        false,
        "another reply",
    ),
    (
        6,
        &[ASKS, (0x0a, 0xc1, 10, "reply c2 1 a/b r")],
        false,
        "under another number",
    ),
    (
        6,
        &[ASKS, (0x0a, 0xc2, 10, "reply c2 5 a/b r")],
        false,
        "to another client",
    ),
    (
        6,
        &[ASKS, REPLIES_ON_END],
        false,
        "of a line that is no reply",
    ),
    (
        6,
        &[ASKS, REPLIES, ENDS],
        false,
        "a final before all have ended",
    ),
    (9, &[ASKS, REPLIES], true, "the final is never sent"),
    (9, &[ASKS, ENDS, REPLIES], false, "a reply behind the final"),
    (9, &[ASKS, REPLIES, ENDS, ENDS], false, "two finals"),
    (
        9,
        &[ASKS, REPLIES, REPLIES_ON_END, ENDS],
        false,
        "an end told as a reply",
    ),
    (
        9,
        &[ASKS, REPLIES, ENDS, REPLIES_ON_END],
        true,
        "an end told as a reply behind the final",
    ),
];

// The publisher and a client that subscribes to nothing are at the first of two routers, and the subscriber at the second.
const TWO_ROUTERS: Script = Script {
    before: &[
        "router 01",
        "router 02",
        "client c1 01",
        "client c3 01",
        "client c2 02",
        "link 01 02",
        "up 01 02",
        "up 02 01",
        "sub c2 1 a/*",
        "run 1000",
    ],
    phase: &[
        "put c1 a/b x",
        "handle 01 c1",
        "take 01 02",
        "handle 02 01",
        "take 02 c2",
    ],
};

const TO_SECOND: Sent = (0x01, 0x02, 12, "put c1 a/b x");

const TO_SUBSCRIBER: Sent = (0x02, 0xc2, 12, "put c1 a/b x");

// The report that the network gives of these lines stands in `tests/program`.
const TRUE_OF_TWO: &[Row] = &[
    (1, &[], false, "published"),
    (2, &[], false, "handled by the first router"),
    (3, &[TO_SECOND], false, "on the link"),
    (4, &[TO_SECOND], false, "handled by the second router"),
    (5, &[TO_SECOND, TO_SUBSCRIBER], true, "at the end"),
];

// None of these may be added to its report.
const ADDED: &[Row] = &[
    (
        5,
        &[TO_SECOND, TO_SUBSCRIBER, TO_SUBSCRIBER],
        true,
        "the sample once more",
    ),
    (
        5,
        &[TO_SECOND, TO_SUBSCRIBER, (0x02, 0xc2, 12, "put c1 a/b y")],
        true,
        "another value",
    ),
    (
        5,
        &[TO_SECOND, TO_SUBSCRIBER, (0x01, 0xc1, 12, "put c1 a/b x")],
        true,
        "to the publisher",
    ),
    (
        5,
        &[TO_SECOND, TO_SUBSCRIBER, (0x01, 0xc3, 12, "put c1 a/b x")],
        true,
        "to who has not subscribed",
    ),
    (
        5,
        &[TO_SECOND, TO_SUBSCRIBER, (0x02, 0xc2, 13, "put c1 a/b x")],
        true,
        "of a line that is no sample",
    ),
];

// The publisher is at the first of three routers in a line, the client that subscribes to nothing at the second, and the subscriber at the
// third. Of two samples the first is under way when the second is published.
const THREE_ROUTERS: Script = Script {
    before: &[
        "router 01",
        "router 02",
        "router 03",
        "client c1 01",
        "client c3 02",
        "client c2 03",
        "link 01 02",
        "link 02 03",
        "up 01 02",
        "up 02 01",
        "up 02 03",
        "up 03 02",
        "sub c2 1 a/*",
        "run 1000",
    ],
    phase: &[
        "put c1 a/b x",
        "put c1 a/b y",
        "handle 01 c1",
        "handle 01 c1",
        "take 01 02",
        "handle 02 01",
        "take 01 02",
        "handle 02 01",
        "take 02 03",
        "handle 03 02",
        "take 02 03",
        "handle 03 02",
        "take 03 c2",
        "take 03 c2",
    ],
};

const X_TO_SECOND: Sent = (0x01, 0x02, 16, "put c1 a/b x");

const Y_TO_SECOND: Sent = (0x01, 0x02, 17, "put c1 a/b y");

const X_TO_THIRD: Sent = (0x02, 0x03, 16, "put c1 a/b x");

const Y_TO_THIRD: Sent = (0x02, 0x03, 17, "put c1 a/b y");

const X_TO_SUBSCRIBER: Sent = (0x03, 0xc2, 16, "put c1 a/b x");

const Y_TO_SUBSCRIBER: Sent = (0x03, 0xc2, 17, "put c1 a/b y");

// As above its report stands in `tests/program`. The last rows are reports that end too early, while something is under way.
const TRUE_OF_THREE: &[Row] = &[
    (1, &[], false, "the first is published"),
    (2, &[], false, "the second is published"),
    (3, &[], false, "the first router handles the first"),
    (4, &[], false, "and the second"),
    (5, &[X_TO_SECOND], false, "the first is on a link"),
    (6, &[X_TO_SECOND], false, "the second router handles it"),
    (
        7,
        &[X_TO_SECOND, Y_TO_SECOND],
        false,
        "the second is on a link",
    ),
    (
        8,
        &[X_TO_SECOND, Y_TO_SECOND],
        false,
        "the second router handles it",
    ),
    (
        9,
        &[X_TO_SECOND, Y_TO_SECOND, X_TO_THIRD],
        false,
        "the first is on the second link",
    ),
    (
        10,
        &[X_TO_SECOND, Y_TO_SECOND, X_TO_THIRD],
        false,
        "the third router handles it",
    ),
    (
        11,
        &[X_TO_SECOND, Y_TO_SECOND, X_TO_THIRD, Y_TO_THIRD],
        false,
        "the second is on the second link",
    ),
    (
        12,
        &[X_TO_SECOND, Y_TO_SECOND, X_TO_THIRD, Y_TO_THIRD],
        false,
        "the third router handles it",
    ),
    (
        13,
        &[
            X_TO_SECOND,
            Y_TO_SECOND,
            X_TO_THIRD,
            Y_TO_THIRD,
            X_TO_SUBSCRIBER,
        ],
        false,
        "the first is sent",
    ),
    (
        14,
        &[
            X_TO_SECOND,
            Y_TO_SECOND,
            X_TO_THIRD,
            Y_TO_THIRD,
            X_TO_SUBSCRIBER,
            Y_TO_SUBSCRIBER,
        ],
        true,
        "at the end",
    ),
    (
        14,
        &[
            X_TO_SECOND,
            Y_TO_SECOND,
            X_TO_THIRD,
            Y_TO_THIRD,
            X_TO_SUBSCRIBER,
        ],
        false,
        "the second is not sent yet",
    ),
    (2, &[X_TO_SUBSCRIBER], false, "the first, before its turn"),
];

const FORGED_OF_THREE: &[Row] = &[
    (2, &[Y_TO_SUBSCRIBER], false, "the second without the first"),
    (
        14,
        &[
            X_TO_SECOND,
            Y_TO_SECOND,
            X_TO_THIRD,
            Y_TO_THIRD,
            X_TO_SUBSCRIBER,
        ],
        true,
        "the second is never sent",
    ),
];

static SAMPLES: Table = (SAMPLE, TRUE_SAMPLES, FORGED_SAMPLES);

static TAKEN: Table = (TAKEN_BACK, &[], SENT_ALL_THE_SAME);

static NOT_TAKEN: Table = (NOT_TAKEN_BACK, SENT_ALL_THE_SAME, &[]);

static ANSWERS: Table = (QUERY, TRUE_ANSWERS, FORGED_ANSWERS);

static LATEST: Table = (LATEST_QUERY, TRUE_LATEST, FORGED_LATEST);

static OF_TWO: Table = (TWO_ROUTERS, TRUE_OF_TWO, ADDED);

static OF_THREE: Table = (THREE_ROUTERS, TRUE_OF_THREE, FORGED_OF_THREE);

// A proof writes out a static at each step of a function that names it. So each table is named by a function that takes few.
fn samples() -> &'static Table {
    &SAMPLES
}

fn taken() -> &'static Table {
    &TAKEN
}

fn not_taken() -> &'static Table {
    &NOT_TAKEN
}

fn answers() -> &'static Table {
    &ANSWERS
}

fn latest() -> &'static Table {
    &LATEST
}

fn of_two() -> &'static Table {
    &OF_TWO
}

fn of_three() -> &'static Table {
    &OF_THREE
}

// Appends the act of a line, if it is one.
fn put_act(
    alloc: Global,
    number: u64,
    line: &str,
    acts: &mut Vec<(u64, Act)>,
) -> Result<(), AllocError> {
    match act_of(alloc, line.as_bytes())? {
        Some(act) => Ok(acts.push((number, act))?),
        None => Ok(()),
    }
}

// Appends the acts of the first lines, so many at most, of which the first has this number.
fn put_acts(
    alloc: Global,
    first: u64,
    lines: &[&str],
    most: usize,
    acts: &mut Vec<(u64, Act)>,
) -> Result<(), AllocError> {
    for i in 0..lines.len().min(most) {
        put_act(alloc, first.saturating_add(i as u64), lines[i], acts)?;
    }
    Ok(())
}

// The sample of the first script with another priority.
fn urgent(alloc: Global) -> Result<Msg, AllocError> {
    let body = Body::put(alloc, b"h".as_slice())?;
    let Ok(key) = KeyExpr::read(alloc, b"a/b".as_slice()) else {
        return Err(AllocError);
    };
    let mut extras = Extras::none();
    extras.qos = Some(1);
    Ok(Msg::Push {
        tree: None,
        content: Content::new(alloc, key, extras, body)?,
    })
}

fn sent_message(alloc: Global, line: &str) -> Result<Msg, AllocError> {
    if line.is_empty() {
        urgent(alloc)
    } else {
        message(alloc, line.as_bytes(), 0)
    }
}

fn put_line(alloc: Global, sent: &Sent, report: &mut Vec<ReportLine>) -> Result<(), AllocError> {
    let (router, to, tag, line) = *sent;
    let router = name(router)?;
    let to = name(to)?;
    let msg = sent_message(alloc, line)?;
    Ok(report.push(ReportLine::Taken {
        router,
        to,
        msg,
        tag,
    })?)
}

// Appends the mark and the lines of what was sent.
fn put_report(
    alloc: Global,
    mark: u64,
    sent: &[Sent],
    report: &mut Vec<ReportLine>,
) -> Result<(), AllocError> {
    report.push(ReportLine::Mark { line: mark })?;
    for i in 0..sent.len() {
        put_line(alloc, &sent[i], report)?;
    }
    Ok(())
}

// The number of the mark's line.
fn mark_of(script: &Script) -> u64 {
    (script.before.len() as u64).saturating_add(1)
}

// Brings what is judged at a row.
fn fill(
    alloc: Global,
    script: &Script,
    row: &Row,
    before: &mut Vec<(u64, Act)>,
    phase: &mut Vec<(u64, Act)>,
    report: &mut Vec<ReportLine>,
) -> Result<(), AllocError> {
    let mark = mark_of(script);
    put_acts(alloc, 1, script.before, usize::MAX, before)?;
    put_acts(alloc, mark.saturating_add(1), script.phase, row.0, phase)?;
    put_report(alloc, mark, row.1, report)
}

// Whether the judge takes a row for true.
fn holds_at(alloc: Global, script: &Script, row: &Row) -> Result<bool, AllocError> {
    let mut before = Vec::new(alloc);
    let mut phase = Vec::new(alloc);
    let mut report = Vec::new(alloc);
    let filled = fill(alloc, script, row, &mut before, &mut phase, &mut report);
    let case = Case {
        before,
        mark: mark_of(script),
        phase,
        report,
        quiet: row.2,
    };
    match filled {
        Ok(()) => refines(alloc, &case),
        Err(error) => Err(error),
    }
}

// What there is to see at the first row of which the judge says otherwise; nothing where there is none.
fn wrong_of(
    alloc: Global,
    script: &Script,
    rows: &[Row],
    want: bool,
) -> Result<&'static str, AllocError> {
    for i in 0..rows.len() {
        if holds_at(alloc, script, &rows[i])? != want {
            return Ok(rows[i].3);
        }
    }
    Ok("")
}

// The same of the rows of a table.
fn wrong_in(alloc: Global, table: &Table) -> Result<&'static str, AllocError> {
    let wrong = wrong_of(alloc, &table.0, table.1, true)?;
    if wrong.is_empty() {
        wrong_of(alloc, &table.0, table.2, false)
    } else {
        Ok(wrong)
    }
}

// The same of some tables.
fn first_wrong(alloc: Global, tables: [&Table; 7]) -> Result<&'static str, AllocError> {
    for i in 0..tables.len() {
        let wrong = wrong_in(alloc, tables[i])?;
        if !wrong.is_empty() {
            return Ok(wrong);
        }
    }
    Ok("")
}

#[test]
fn the_judge_tells_each_moment_from_forged_reports(rt: HostRuntime) -> Result<(), Fail> {
    let tables = [
        samples(),
        taken(),
        not_taken(),
        answers(),
        latest(),
        of_two(),
        of_three(),
    ];
    let wrong = first_wrong(rt.alloc(), tables)?;
    assert!(rt; wrong.is_empty(), "{wrong}");
    Ok(())
}
