//! Calls on one router, one after the other, and what comes to its links.

use crate::calls::{Call, MANY, OWN, Start, Told, first_wrong};
use crate::desk::Say;
use std::alloc::{AllocError, Global};
use std::sync::Wait;
use std::test::Fail;
use zr_msg::peer::Role;

/// A call and its answer.
type Row = (Call, Told);

static FULL_OF_CLIENTS: [Row; 9] = [
    (Call::Clients(128), Told::Ok),
    (Call::Client(9), Told::Sessions(128, 0)),
    (Call::Router(9), Told::Sessions(128, 0)),
    (Call::Client(MANY), Told::Sessions(128, 0)),
    (Call::Down(5, None), Told::Ok),
    (Call::Client(MANY), Told::Twice),
    (Call::Router(OWN), Told::Twice),
    (Call::Client(105), Told::Link(5)),
    (Call::Client(9), Told::Sessions(128, 0)),
];

static FULL_OF_ROUTERS: [Row; 8] = [
    (Call::Routers(16), Told::Ok),
    (Call::Router(9), Told::Sessions(16, 16)),
    (Call::Router(MANY), Told::Sessions(16, 16)),
    (Call::Client(MANY), Told::Twice),
    (Call::Client(OWN), Told::Twice),
    (Call::Client(9), Told::Link(16)),
    (Call::Router(10), Told::Sessions(17, 16)),
    (Call::Client(9), Told::Twice),
];

/// A ring of 256 slots that nobody empties: a sample is dropped, and one that asks not to be closes the link.
static NOBODY_TAKES: [Row; 13] = [
    (Call::Client(10), Told::Link(0)),
    (Call::Client(11), Told::Link(1)),
    (Call::Say(1, Say::Sub), Told::Ok),
    (Call::Samples(0, 256), Told::Ok),
    (Call::Say(0, Say::Sample), Told::Ok),
    (Call::Say(0, Say::Express), Told::Ok),
    (Call::Say(0, Say::Keep), Told::Ok),
    (Call::Say(1, Say::Sample), Told::Full(1, 0)),
    (Call::Say(0, Say::Sample), Told::Ok),
    (Call::Take(1), Told::Ended(256, Some(0))),
    (Call::Say(1, Say::Sub), Told::Full(1, 0)),
    (Call::Down(1, Some(3)), Told::Ok),
    (Call::Take(1), Told::Ended(0, Some(0))),
];

/// A router's ring of 1,024 slots, which gets this router's record as its link comes up, and at each change of the other link.
static RECORDS: [Row; 8] = [
    (Call::Router(11), Told::Link(0)),
    (Call::Blinks(12, 511), Told::Ok),
    (Call::Router(12), Told::Link(1)),
    (Call::Say(0, Say::Along), Told::Ok),
    (Call::Down(1, None), Told::Ok),
    (Call::Say(0, Say::Along), Told::Full(1, 0)),
    (Call::Take(0), Told::Ended(1_024, Some(0))),
    (Call::Down(0, None), Told::Ok),
];

/// All parcels of a sample are given, or none.
static ALL_OR_NONE: [Row; 9] = [
    (Call::Client(10), Told::Link(0)),
    (Call::ClientAt(11, Start::Small), Told::Link(1)),
    (Call::Say(1, Say::Sub), Told::Ok),
    (Call::Samples(0, 253), Told::Ok),
    (Call::Say(0, Say::Long), Told::Ok),
    (Call::Say(0, Say::Sample), Told::Ok),
    (Call::Say(0, Say::LongKeep), Told::Ok),
    (Call::Say(1, Say::Sample), Told::Full(4, 2)),
    (Call::Take(1), Told::Ended(254, Some(0))),
];

/// A sample that is dropped takes no frame number.
static DROPPED: [Row; 8] = [
    (Call::Client(10), Told::Link(0)),
    (Call::Client(11), Told::Link(1)),
    (Call::Say(1, Say::Sub), Told::Ok),
    (Call::Samples(0, 257), Told::Ok),
    (Call::Take(1), Told::Parcels(256)),
    (Call::Say(0, Say::Sample), Told::Ok),
    (
        Call::Next(
            1,
            &[
                0x25, 0x80, 0x02, 0x3D, 0x00, 0x03, 0x61, 0x2F, 0x62, 0x01, 0x02, 0x68, 0x69,
            ],
        ),
        Told::Ok,
    ),
    (Call::Take(1), Told::Parcels(0)),
];

/// What comes to two subscribers whose frames begin at 5 and at the last number. The second sample has its quality of service.
static BYTES: [Row; 13] = [
    (Call::Client(10), Told::Link(0)),
    (Call::ClientAt(11, Start::Five), Told::Link(1)),
    (Call::ClientAt(12, Start::Last), Told::Link(2)),
    (Call::Say(1, Say::Sub), Told::Ok),
    (Call::Say(2, Say::Sub), Told::Ok),
    (Call::Say(0, Say::Sample), Told::Ok),
    (
        Call::Next(
            1,
            &[
                0x25, 0x05, 0x3D, 0x00, 0x03, 0x61, 0x2F, 0x62, 0x01, 0x02, 0x68, 0x69,
            ],
        ),
        Told::Ok,
    ),
    (
        Call::Next(
            2,
            &[
                0x25, 0xFF, 0xFF, 0xFF, 0x7F, 0x3D, 0x00, 0x03, 0x61, 0x2F, 0x62, 0x01, 0x02, 0x68,
                0x69,
            ],
        ),
        Told::Ok,
    ),
    (Call::Say(0, Say::Keep), Told::Ok),
    (
        Call::Next(
            1,
            &[
                0x25, 0x06, 0xBD, 0x00, 0x03, 0x61, 0x2F, 0x62, 0x21, 0x08, 0x01, 0x02, 0x68, 0x69,
            ],
        ),
        Told::Ok,
    ),
    (
        Call::Next(
            2,
            &[
                0x25, 0x00, 0xBD, 0x00, 0x03, 0x61, 0x2F, 0x62, 0x21, 0x08, 0x01, 0x02, 0x68, 0x69,
            ],
        ),
        Told::Ok,
    ),
    (Call::Take(1), Told::Parcels(0)),
    (Call::Take(0), Told::Parcels(0)),
];

/// Links that go down, and the numbers of those that come up.
static NUMBERS: [Row; 17] = [
    (Call::Say(0, Say::Sample), Told::NotUp(0)),
    (Call::Down(0, None), Told::NotUp(0)),
    (Call::Client(10), Told::Link(0)),
    (Call::Client(11), Told::Link(1)),
    (Call::Client(12), Told::Link(2)),
    (Call::Say(3, Say::Sample), Told::NotUp(3)),
    (Call::Down(1, Some(3)), Told::Ok),
    (Call::Take(1), Told::Ended(0, Some(3))),
    (Call::Say(1, Say::Sub), Told::NotUp(1)),
    (Call::Down(1, None), Told::NotUp(1)),
    (Call::Client(13), Told::Link(1)),
    (Call::Client(14), Told::Link(3)),
    (Call::Down(0, None), Told::Ok),
    (Call::Take(0), Told::Ended(0, None)),
    (Call::Down(2, None), Told::Ok),
    (Call::Router(11), Told::Link(0)),
    (Call::Client(10), Told::Link(2)),
];

/// What each role may send.
static ROLES: [Row; 9] = [
    (Call::Client(10), Told::Link(0)),
    (Call::Router(11), Told::Link(1)),
    (Call::Say(0, Say::Told), Told::Misplaced(Role::Client)),
    (Call::Say(0, Say::Along), Told::Misplaced(Role::Client)),
    (Call::Say(1, Say::Told), Told::Misplaced(Role::Router)),
    (Call::Say(1, Say::Sub), Told::Misplaced(Role::Router)),
    (Call::Say(1, Say::Sample), Told::Misplaced(Role::Router)),
    (Call::Say(0, Say::Sample), Told::Ok),
    (Call::Say(1, Say::Along), Told::Ok),
];

/// The record of router 0b, which has a link to router 01.
const LINKS: &[u8] = &[
    0x5F, 0x81, 0xB4, 0x01, 0x06, 0x01, 0x0B, 0x01, 0x01, 0x01, 0x01,
];

/// The first change of router 0b's log: a client subscribes to `a/b`.
const FIRST: &[u8] = &[
    0x5F, 0x82, 0xB4, 0x01, 0x09, 0x01, 0x01, 0x0B, 0x01, 0x00, 0x03, 0x61, 0x2F, 0x62,
];

/// The second one: no client does any more.
const SECOND: &[u8] = &[
    0x5F, 0x82, 0xB4, 0x01, 0x09, 0x02, 0x01, 0x0B, 0x02, 0x00, 0x03, 0x61, 0x2F, 0x62,
];

/// A router that becomes a child is told what this router's clients declare, and then each change. What it tells itself decides where samples go.
/// What is taken back and isn't declared is refused, and so is a change that comes too early.
static CHILD: [Row; 17] = [
    (Call::Router(11), Told::Link(0)),
    (Call::Client(10), Told::Link(1)),
    (Call::Say(1, Say::Sub), Told::Ok),
    (Call::Take(0), Told::Parcels(1)),
    (Call::Say(0, Say::Tells(LINKS)), Told::Ok),
    (
        Call::Next(
            0,
            &[
                0x25, 0x01, 0x5F, 0x82, 0xB4, 0x01, 0x0A, 0x00, 0x01, 0x01, 0x01, 0x01, 0x00, 0x03,
                0x61, 0x2F, 0x62,
            ],
        ),
        Told::Ok,
    ),
    (Call::Say(1, Say::Unsub), Told::Ok),
    (
        Call::Next(
            0,
            &[
                0x25, 0x02, 0x5F, 0x82, 0xB4, 0x01, 0x09, 0x02, 0x01, 0x01, 0x02, 0x00, 0x03, 0x61,
                0x2F, 0x62,
            ],
        ),
        Told::Ok,
    ),
    (Call::Say(1, Say::Unsub), Told::NotDeclared(1)),
    (Call::Say(0, Say::Tells(SECOND)), Told::Gap(0, 2)),
    (Call::Take(0), Told::Parcels(0)),
    (Call::Say(0, Say::Tells(FIRST)), Told::Ok),
    (Call::Say(1, Say::Sample), Told::Ok),
    (Call::Take(0), Told::Parcels(1)),
    (Call::Say(0, Say::Tells(SECOND)), Told::Ok),
    (Call::Say(1, Say::Sample), Told::Ok),
    (Call::Take(0), Told::Parcels(0)),
];

/// Rules for the table below: of these the first denies what the second client declares, and the second what it publishes.
const RULES: &[u8] = b"deny 0b sub a/*\ndeny 0b put **\nallow * * **\ndefault deny\n";

static RULED: [Row; 12] = [
    (Call::Client(0x0a), Told::Link(0)),
    (Call::Client(0x0b), Told::Link(1)),
    (Call::Say(1, Say::Sub), Told::Denied(1)),
    (Call::Say(1, Say::Unsub), Told::Ignored(1)),
    (Call::Say(0, Say::Sub), Told::Ok),
    (Call::Say(1, Say::Sample), Told::Denied(2)),
    (Call::Take(0), Told::Parcels(0)),
    (Call::Say(1, Say::Told), Told::Misplaced(Role::Client)),
    (Call::Say(0, Say::Sample), Told::Ok),
    (Call::Say(0, Say::Unsub), Told::Ok),
    (Call::Say(0, Say::Unsub), Told::Ignored(1)),
    (Call::Say(2, Say::Sub), Told::NotUp(2)),
];

/// Rules under which nobody subscribes to what is secret, nor is alive there.
const SECRET_RULES: &[u8] =
    b"allow 0a put robot/**\ndeny * put **\ndeny * sub secret/*\ndeny * token secret/*\n";

static SECRET: [Row; 6] = [
    (Call::Client(0x0c), Told::Link(0)),
    (Call::Say(0, Say::Secret), Told::Denied(3)),
    (Call::Say(0, Say::Unsecret), Told::Ignored(4)),
    (Call::Say(0, Say::SecretToken), Told::Denied(4)),
    (Call::Say(0, Say::UnsecretToken), Told::Ignored(4)),
    (Call::Say(0, Say::Final), Told::Ok),
];

/// How many tables there are.
const TABLES: usize = 12;

fn rules(number: usize) -> &'static [u8] {
    match number {
        10 => RULES,
        11 => SECRET_RULES,
        _ => b"",
    }
}

fn table(number: usize) -> &'static [Row] {
    match number {
        0 => &FULL_OF_CLIENTS,
        1 => &FULL_OF_ROUTERS,
        2 => &NOBODY_TAKES,
        3 => &RECORDS,
        4 => &ALL_OR_NONE,
        5 => &DROPPED,
        6 => &BYTES,
        7 => &NUMBERS,
        8 => &ROLES,
        9 => &CHILD,
        10 => &RULED,
        _ => &SECRET,
    }
}

// The first table that a new router answers otherwise, and the number of the row.
fn first_other<R: Wait + Copy + Drop>(
    rt: R,
    alloc: Global,
) -> Result<Option<(usize, usize)>, AllocError> {
    for number in 0..TABLES {
        let rows = table(number);
        let wrong = first_wrong(rt, alloc, rules(number), rows)?;
        if wrong != rows.len() {
            return Ok(Some((number, wrong)));
        }
    }
    Ok(None)
}

#[test]
fn a_router_answers_as_its_tables_say(rt: HostRuntime) -> Result<(), Fail> {
    let other = first_other(rt, rt.alloc())?;
    assert!(rt; other.is_none(), "table and row {other:?}");
    Ok(())
}
