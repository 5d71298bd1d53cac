//! What one router refuses, and what it does with messages that no client of a script sends.

ghost use Rattle.std.specs.Prelude.{◌≡◌, true};
ghost use Rattle.zr_node_spec.specs.Event.{IsFresh, MayCome};

use crate::row::{message, name};
use std::alloc::{AllocError, Global};
use std::test::Fail;
use zr_id::link::LinkNo;
use zr_key::key::KeyExpr;
use zr_msg::decl::{Decl, Kind};
use zr_msg::error::NodeError;
use zr_msg::event::Event;
use zr_msg::msg::Msg;
use zr_msg::peer::{Peer, Role};
use zr_msg::shared::Shared;
use zr_node::node::Node;
use zr_node_spec::tell::discard;

/// The link of the client that asks and subscribes. The next two are those of clients that answer.
const ASKER: u32 = 0;

/// The link to another router, the last one.
const ROUTER: u32 = 3;

/// The name of the peer at link 0; the others have the next ones.
const FIRST_PEER: u8 = 0x01;

/// The name of the other router.
const OTHER: u8 = 0x04;

/// How many requests a client has pending at most.
const MOST_PENDING: u32 = 4_096;

/// How many declarations of 2,048 bytes each weigh as much as all of a router's clients may.
const MOST_LONG: u32 = 2_048;

/// What comes in at a link.
#[derive(Clone, Copy)]
enum Step {
    /// The link comes up.
    Up,
    /// A message like the one that this line brings.
    Line(&'static str),
    /// A subscriber on a long key, under number 1.
    LongSub,
    /// The change of this number of the other router's log: it has got a subscriber.
    Change(u64),
}

/// A message that a router sends: its link, and its number there.
#[derive(Clone, Copy)]
enum Sent {
    Request(u32, u32),
    Response(u32, u32),
    Final(u32, u32),
}

/// What a router does with what comes.
#[derive(Clone, Copy)]
enum Answer {
    /// It takes it, and sends whatever it is.
    Any,
    /// It sends just this, in this order.
    Sends(&'static [Sent]),
    /// It refuses it: the number is taken, so many are pending, so much is held and so much would come, or of the other router's log so much is had
    /// and a later entry came.
    Taken(u32),
    TooMany(u32),
    TextLimit(u64, u64),
    Gap(u64, u64),
}

/// A link, what comes in there, how often, each time under the next number, and what the router does each time.
type Row = (u32, Step, u32, Answer);

/// The links come up.
static UP: [Row; 4] = [
    (0, Step::Up, 1, Answer::Any),
    (1, Step::Up, 1, Answer::Any),
    (2, Step::Up, 1, Answer::Any),
    (ROUTER, Step::Up, 1, Answer::Any),
];

/// What there is to see at a router with all links up, and what comes to it.
type Table = (&'static str, &'static [Row]);

static TABLES: [Table; 4] = [
    (
        "who has ended a request replies to it no more, whatever it says",
        &[
            (1, Step::Line("able c2 1 a"), 1, Answer::Sends(&[])),
            (2, Step::Line("able c3 1 a"), 1, Answer::Sends(&[])),
            (
                ASKER,
                Step::Line("get c1 9 a all"),
                1,
                Answer::Sends(&[Sent::Request(1, 1), Sent::Request(2, 1)]),
            ),
            (
                1,
                Step::Line("reply c2 1 a x"),
                1,
                Answer::Sends(&[Sent::Response(ASKER, 9)]),
            ),
            (1, Step::Line("end c2 1"), 1, Answer::Sends(&[])),
            (1, Step::Line("reply c2 1 a x"), 1, Answer::Sends(&[])),
            (
                2,
                Step::Line("reply c3 1 a x"),
                1,
                Answer::Sends(&[Sent::Response(ASKER, 9)]),
            ),
            (
                2,
                Step::Line("end c3 1"),
                1,
                Answer::Sends(&[Sent::Final(ASKER, 9)]),
            ),
        ],
    ),
    (
        "a number that is pending is taken, and a client has so many pending at most",
        &[
            (1, Step::Line("able c2 1 a"), 1, Answer::Any),
            (ASKER, Step::Line("get c1 0 a all"), 8, Answer::Any),
            (ASKER, Step::Line("get c1 7 a all"), 1, Answer::Taken(7)),
            (
                ASKER,
                Step::Line("get c1 8 a all"),
                MOST_PENDING - 8,
                Answer::Any,
            ),
            (
                ASKER,
                Step::Line("get c1 4096 a all"),
                1,
                Answer::TooMany(MOST_PENDING),
            ),
        ],
    ),
    (
        "declarations weigh so much at most",
        &[
            (ASKER, Step::LongSub, MOST_LONG, Answer::Any),
            (
                ASKER,
                Step::Line("sub c1 2049 a"),
                1,
                Answer::TextLimit(4_194_304, 17),
            ),
        ],
    ),
    (
        "no change of a log may be left out",
        &[
            (ROUTER, Step::Change(2), 1, Answer::Gap(0, 2)),
            (ROUTER, Step::Change(1), 1, Answer::Any),
            (ROUTER, Step::Change(2), 1, Answer::Any),
        ],
    ),
];

// Each declaration weighs 16 with its key, so these 2,032 digits weigh 2,048.
fn long_sub(alloc: Global, more: u32) -> Result<Msg, AllocError> {
    let line = format!(in alloc; "sub c1 1 {more:02032}")?;
    message(alloc, line.as_bytes(), more)
}

fn change(alloc: Global, number: u64) -> Result<Msg, AllocError> {
    let source = name(OTHER)?;
    let Ok(key) = KeyExpr::read(alloc, b"a".as_slice()) else {
        return Err(AllocError);
    };
    let kind = Kind::Sub;
    let decl = Shared::new(alloc, Decl { kind, key })?;
    Ok(Msg::Step {
        source,
        number,
        added: true,
        decl,
    })
}

fn message_at(alloc: Global, step: Step, more: u32) -> Result<Msg, AllocError> {
    match step {
        Step::Up => Err(AllocError),
        Step::Line(line) => message(alloc, line.as_bytes(), more),
        Step::LongSub => long_sub(alloc, more),
        Step::Change(number) => change(alloc, number),
    }
}

// Who stands at a link.
fn peer(link: u32) -> Result<Peer, AllocError> {
    let id = name(FIRST_PEER.wrapping_add((link % 256) as u8))?;
    let role = if link == ROUTER {
        Role::Router
    } else {
        Role::Client
    };
    Ok(Peer {
        id,
        role,
        weight: 1,
    })
}

fn event(alloc: Global, link: u32, step: Step, more: u32) -> Result<Event, AllocError> {
    let at = LinkNo(link);
    if matches!(step, Step::Up) {
        let peer = peer(link)?;
        return Ok(Event::Up { link: at, peer });
    }
    let msg = message_at(alloc, step, more)?;
    Ok(Event::From { link: at, msg })
}

// Whether an event may come: a link that is to come up is a fresh one, and any other is up.
fn may_come(node: &Node, event: &Event) -> bool
    ensures { result ≡ true → MayCome node.now event.now }
{
    match event {
        Event::Up { link, peer } => is_fresh(node, *link, *peer),
        Event::Down { link } | Event::From { link, .. } => node.peer_at(*link).is_some(),
    }
}

fn is_fresh(node: &Node, link: LinkNo, peer: Peer) -> bool
    ensures { result ≡ true → IsFresh node.now link peer }
{
    node.peer_at(link).is_none() && node.link_to(&peer.id).is_none() && peer.id != node.me()
}

// The router's refusal of an event, if it refuses it. One that may not come is told as if the router were spent.
fn refusal(
    alloc: Global,
    node: &mut Node,
    event: &Event,
    out: &mut Vec<(LinkNo, Msg)>,
) -> Option<NodeError> {
    if may_come(node, event) {
        node.handle(alloc, event, out).err()
    } else {
        Some(NodeError::Spent)
    }
}

// Whether this is the message that is sent there.
fn is_sent(link: LinkNo, msg: &Msg, want: Sent) -> bool {
    match (msg, want) {
        (Msg::Request { id, .. }, Sent::Request(at, number)) => link.0 == at && *id == number,
        (Msg::Response { id, .. }, Sent::Response(at, number)) => link.0 == at && *id == number,
        (Msg::Final { id, .. }, Sent::Final(at, number)) => link.0 == at && *id == number,
        _ => false,
    }
}

// Whether just this is sent, in this order.
fn are_sent(out: &[(LinkNo, Msg)], want: &[Sent]) -> bool {
    if out.len() != want.len() {
        return false;
    }
    for i in 0..out.len() {
        if !is_sent(out[i].0, &out[i].1, want[i]) {
            return false;
        }
    }
    true
}

// Whether a refusal is the one that an answer tells of.
fn is_refusal(answer: Answer, error: NodeError) -> bool {
    match (answer, error) {
        (Answer::Taken(want), NodeError::NumberTaken { id }) => id == want,
        (Answer::TooMany(want), NodeError::TooMany { pending }) => pending == want,
        (Answer::TextLimit(weight, further), NodeError::TextLimit { held, more }) => {
            held == weight && more == further
        }
        (Answer::Gap(count, number), NodeError::Gap { router, has, came }) => {
            router.bytes() == [OTHER].as_slice() && has == count && came == number
        }
        _ => false,
    }
}

fn is_answer(answer: Answer, refused: Option<NodeError>, out: &[(LinkNo, Msg)]) -> bool {
    match (answer, refused) {
        (Answer::Any, None) => true,
        (Answer::Sends(want), None) => are_sent(out, want),
        (_, Some(error)) => is_refusal(answer, error),
        _ => false,
    }
}

// Brings one step, and tells whether the router answers it so.
fn comes(
    alloc: Global,
    node: &mut Node,
    link: u32,
    step: Step,
    more: u32,
    answer: Answer,
) -> Result<bool, AllocError> {
    let event = event(alloc, link, step, more)?;
    let mut out = Vec::new(alloc);
    let refused = refusal(alloc, node, &event, &mut out);
    let answered = is_answer(answer, refused, &out);
    discard(out);
    Ok(answered)
}

// Whether a row is so.
fn is_so(alloc: Global, node: &mut Node, row: &Row) -> Result<bool, AllocError> {
    let (link, step, count, answer) = *row;
    for more in 0..count {
        if !comes(alloc, node, link, step, more, answer)? {
            return Ok(false);
        }
    }
    Ok(true)
}

// Whether rows are so, where they come one after the other.
fn are_so(alloc: Global, node: &mut Node, rows: &[Row]) -> Result<bool, AllocError> {
    for i in 0..rows.len() {
        if !is_so(alloc, node, &rows[i])? {
            return Ok(false);
        }
    }
    Ok(true)
}

// The same behind the links, which come up first.
fn are_all_so(alloc: Global, node: &mut Node, rows: &[Row]) -> Result<bool, AllocError> {
    Ok(are_so(alloc, node, &UP)? && are_so(alloc, node, rows)?)
}

fn router(alloc: Global) -> Result<Node, AllocError> {
    let me = name(0xff)?;
    Node::new(alloc, me)
}

// The same at a new router.
fn are_right(alloc: Global, rows: &[Row]) -> Result<bool, AllocError> {
    let mut node = router(alloc)?;
    let answer = are_all_so(alloc, &mut node, rows);
    node.discard();
    answer
}

// The tables. A proof writes out a static at each step of a function that names it, so this one takes few.
fn tables() -> &'static [Table] {
    &TABLES
}

// What there is to see at the first table that isn't right; nothing where there is none.
fn first_wrong(alloc: Global, tables: &[Table]) -> Result<&'static str, AllocError> {
    for i in 0..tables.len() {
        let (name, rows) = tables[i];
        if !are_right(alloc, rows)? {
            return Ok(name);
        }
    }
    Ok("")
}

#[test]
fn a_router_answers_as_its_tables_say(rt: HostRuntime) -> Result<(), Fail> {
    let wrong = first_wrong(rt.alloc(), tables())?;
    assert!(rt; wrong.is_empty(), "{wrong}");
    Ok(())
}

#[test]
fn a_message_has_64_bytes_at_most(rt: HostRuntime) {
    assert!(rt; size_of::<Msg>() <= 64);
}
