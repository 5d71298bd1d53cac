//! Routers of a fan: rounds of one thread and of several give what the steps of a run give, and two workers run at once.

ghost use Rattle.std.specs.Prelude.{◌≡◌, true};
ghost use Rattle.zr_node_spec.specs.Event.{IsFresh, MayCome};
ghost use Rattle.zr_world_spec.specs.Fan.{is_sample};

use std::alloc::{AllocError, Global};
use std::sync::Arc;
use std::sync::atomic::{AtomicU64, Ordering};
use std::thread::Threads;
use zr_body::Body;
use zr_fan::threaded::Threaded;
use zr_fan::watch::{Unwatched, Watch};
use zr_id::link::LinkNo;
use zr_id::zid::Zid;
use zr_key::key::KeyExpr;
use zr_msg::content::Content;
use zr_msg::event::Event;
use zr_msg::extras::Extras;
use zr_msg::msg::Msg;
use zr_msg::peer::{Peer, Role};
use zr_router_core::hub::Hub;
use zr_world_gang::gang::Gang;
use zr_world_gang::message::Sending;
use zr_world_gang::one_by_one::OneByOne;
use zr_world_gang::share::{Share, Turn};

/// The link of a router's client, and the link to the other router.
const CLIENT: u32 = 0;

const ROUTER: u32 = 1;

/// How often two routers that were linked hear each other, till none has more to say.
const MOST_TURNS: u32 = 16;

/// How often worker 0 looks whether worker 1 has come.
const MOST_LOOKS: u64 = 100_000_000;

/// The bodies of the samples that a client has published, the oldest first, and their tags.
type Samples = &'static [(u8, u64)];

/// The router's name, that of its client, the key to which that one subscribes, that on which it publishes, and what.
type Side = (u8, u8, u8, u8, Samples);

static SIDES: [Side; 2] = [
    (0x01, 0xC1, b'b', b'a', &[(b'y', 11), (b'x', 12)]),
    (0x02, 0xC2, b'a', b'b', &[(b'z', 13)]),
];

/// What each share is behind each round: how many messages its router has handled, how many went to the other router and how many to its client, whether it
/// is idle, and the lines of these steps in the order of their bytes. Then come the samples for the other router, in the order in which they were sent.
static TOLD: &str = "01: 2 2 0 false
01 < c1: put - a x #12
01 < c1: put - a y #11
01 > 02: put 01 a x #12
01 > 02: put 01 a y #11
02: 1 1 0 false
02 < c2: put - b z #13
02 > 01: put 02 b z #13
01 to 02 #11
01 to 02 #12
02 to 01 #13
01: 1 0 1 true
01 < 02: put 02 b z #13
01 > c1: put - b z #13
02: 2 0 2 true
02 < 01: put 01 a x #12
02 < 01: put 01 a y #11
02 > c2: put - a x #12
02 > c2: put - a y #11
";

// ---- the routers

fn named(byte: u8) -> Result<Zid, AllocError> {
    match Zid::from_bytes(&[byte]) {
        Ok(id) => Ok(id),
        Err(_) => Err(AllocError),
    }
}

fn key(alloc: Global, byte: u8) -> Result<KeyExpr, AllocError> {
    match KeyExpr::read(alloc, &[byte]) {
        Ok(key) => Ok(key),
        Err(_) => Err(AllocError),
    }
}

fn sample(alloc: Global, on: u8, payload: u8) -> Result<Msg, AllocError> {
    let key = key(alloc, on)?;
    let body = Body::put(alloc, &[payload])?;
    let content = Content::new(alloc, key, Extras::none(), body)?;
    Ok(Msg::Push {
        tree: None,
        content,
    })
}

// Whether an event may come: a link that is to come up is a fresh one, and any other is up.
fn may_come(hub: &Hub, event: &Event) -> bool
    ensures { result ≡ true → MayCome hub.now.node event.now }
{
    match event {
        Event::Up { link, peer } => is_fresh(hub, *link, *peer),
        Event::Down { link } | Event::From { link, .. } => hub.peer_at(*link).is_some(),
    }
}

fn is_fresh(hub: &Hub, link: LinkNo, peer: Peer) -> bool
    ensures { result ≡ true → IsFresh hub.now.node link peer }
{
    hub.peer_at(link).is_none() && hub.link_to(&peer.id).is_none() && peer.id != hub.me()
}

// What a router sends for an event. One that may not come, or is refused, is told as out of memory.
fn hear(
    alloc: Global,
    hub: &mut Hub,
    event: &Event,
    out: &mut Vec<(LinkNo, Msg)>,
) -> Result<(), AllocError> {
    if may_come(hub, event) && hub.handle(alloc, event, out).is_ok() {
        Ok(())
    } else {
        Err(AllocError)
    }
}

// What a router sends as a link comes up.
fn up(
    alloc: Global,
    hub: &mut Hub,
    link: u32,
    id: Zid,
    role: Role,
) -> Result<Vec<(LinkNo, Msg)>, AllocError> {
    let peer = Peer {
        id,
        role,
        weight: 1,
    };
    let event = Event::Up {
        link: LinkNo(link),
        peer,
    };
    let mut out = Vec::new(alloc);
    hear(alloc, hub, &event, &mut out)?;
    Ok(out)
}

// What a router sends for messages that come over a link.
fn hear_all(
    alloc: Global,
    hub: &mut Hub,
    link: u32,
    messages: Vec<(LinkNo, Msg)>,
) -> Result<Vec<(LinkNo, Msg)>, AllocError> {
    let mut out = Vec::new(alloc);
    for (_, msg) in messages {
        let event = Event::From {
            link: LinkNo(link),
            msg,
        };
        hear(alloc, hub, &event, &mut out)?;
    }
    Ok(out)
}

// A router, whose client has subscribed.
fn router(alloc: Global, side: &Side) -> Result<Hub, AllocError> {
    let mut hub = Hub::new(alloc, named(side.0)?)?;
    let mut declared = up(alloc, &mut hub, CLIENT, named(side.1)?, Role::Client)?;
    let key = key(alloc, side.2)?;
    declared.push((LinkNo(CLIENT), Msg::Sub { id: 1, key }))?;
    hear_all(alloc, &mut hub, CLIENT, declared)?;
    Ok(hub)
}

// Two routers are linked, and hear what each sends to the other.
fn join(alloc: Global, one: &mut Hub, other: &mut Hub) -> Result<(), AllocError> {
    let mut to_other = up(alloc, one, ROUTER, other.me(), Role::Router)?;
    let mut to_one = up(alloc, other, ROUTER, one.me(), Role::Router)?;
    for _ in 0..MOST_TURNS {
        let more = hear_all(alloc, one, ROUTER, to_one)?;
        to_one = hear_all(alloc, other, ROUTER, to_other)?;
        to_other = more;
    }
    Ok(())
}

// ---- their shares

fn is_sample(msg: &Msg) -> bool
    ensures { result ≡ true → is_sample msg.now ≡ true }
{
    matches!(msg, Msg::Push { .. })
}

// A sample waits; anything else is told as out of memory.
fn receive(share: &mut Share, from: Zid, msg: Msg, tag: u64) -> Result<(), AllocError> {
    if is_sample(&msg) {
        share.receive(from, msg, tag)
    } else {
        Err(AllocError)
    }
}

// The share of a router, at which the samples of its client wait.
fn share_of(alloc: Global, hub: Hub, side: &Side) -> Result<Share, AllocError> {
    let mut share = Share::new(alloc, hub.me(), hub);
    for (payload, tag) in side.4 {
        let msg = sample(alloc, side.3, *payload)?;
        receive(&mut share, named(side.1)?, msg, *tag)?;
    }
    Ok(share)
}

fn shares(alloc: Global, sides: &[Side; 2]) -> Result<Vec<Share>, AllocError> {
    let [one, other] = sides;
    let mut first = router(alloc, one)?;
    let mut second = router(alloc, other)?;
    join(alloc, &mut first, &mut second)?;
    let mut shares = Vec::new(alloc);
    shares.push(share_of(alloc, first, one)?)?;
    shares.push(share_of(alloc, second, other)?)?;
    Ok(shares)
}

// ---- rounds

fn put_share(alloc: Global, share: &Share, text: &mut Vec<u8>) -> Result<(), AllocError> {
    let name = share.name().text(alloc)?;
    let kinds = share.kinds();
    let (handled, taken, sent) = (kinds.handled, kinds.taken, kinds.sent);
    let idle = share.is_idle();
    let head = format!(in alloc; "{name}: {handled} {taken} {sent} {idle}\n")?;
    text.extend_from_slice(head.as_bytes())?;
    text.extend_from_slice(share.text())
}

fn put_sending(
    alloc: Global,
    from: &Zid,
    sending: &Sending,
    text: &mut Vec<u8>,
) -> Result<(), AllocError> {
    let from = from.text(alloc)?;
    let to = sending.to.text(alloc)?;
    let tag = sending.tag;
    let line = format!(in alloc; "{from} to {to} #{tag}\n")?;
    text.extend_from_slice(line.as_bytes())
}

// What one share has sent waits at the other one.
fn carry(
    alloc: Global,
    one: &mut Share,
    other: &mut Share,
    text: &mut Vec<u8>,
) -> Result<(), AllocError> {
    let from = one.name();
    for sending in one.take_output(alloc) {
        put_sending(alloc, &from, &sending, text)?;
        let Sending { to: _, msg, tag } = sending;
        receive(other, from, msg, tag)?;
    }
    Ok(())
}

// What two shares are, and what they have sent, which waits at the other one now.
fn exchange(alloc: Global, shares: &mut [Share], text: &mut Vec<u8>) -> Result<(), AllocError> {
    for share in shares.iter() {
        put_share(alloc, share, text)?;
    }
    match shares {
        [one, other] => {
            carry(alloc, one, other, text)?;
            carry(alloc, other, one, text)
        }
        _ => Err(AllocError),
    }
}

// A round of each turn.
fn both_turns<R: Threads + Sync, G: Gang>(
    rt: &R,
    alloc: Global,
    gang: &mut G,
    shares: Vec<Share>,
    text: &mut Vec<u8>,
) -> Result<Vec<Share>, AllocError> {
    let shares = gang.round(rt, alloc, Turn::Handle, shares)?;
    let mut shares = gang.round(rt, alloc, Turn::Tell, shares)?;
    exchange(alloc, &mut shares, text)?;
    Ok(shares)
}

// The names of the routers that shares give back, in order.
fn names(alloc: Global, shares: Vec<Share>) -> Result<Vec<u8>, AllocError> {
    let mut names = Vec::new(alloc);
    for share in shares {
        let hub = share.into_hub();
        names.extend_from_slice(hub.me().bytes())?;
    }
    Ok(names)
}

// Whether two rounds of a gang tell this text, and give the routers back in order.
fn tells<R: Threads + Sync, G: Gang>(
    rt: &R,
    alloc: Global,
    gang: &mut G,
    sides: &[Side; 2],
    told: &str,
) -> Result<bool, AllocError> {
    let mut text = Vec::new(alloc);
    let shares = shares(alloc, sides)?;
    let shares = both_turns(rt, alloc, gang, shares, &mut text)?;
    let shares = both_turns(rt, alloc, gang, shares, &mut text)?;
    let names = names(alloc, shares)?;
    Ok(text.as_slice() == told.as_bytes() && names.as_slice() == [1, 2].as_slice())
}

fn several_tell<R: Threads + Sync>(rt: &R, alloc: Global) -> Result<bool, AllocError> {
    let mut gang = Threaded::new(2, Box::new(alloc, Unwatched)?);
    tells(rt, alloc, &mut gang, &SIDES, TOLD)
}

#[test]
fn one_thread_does_the_steps(rt: HostRuntime) {
    let alloc = rt.alloc();
    assert_eq!(&rt; tells(&rt, alloc, &mut OneByOne, &SIDES, TOLD), Ok(true));
}

#[test]
fn two_threads_do_the_steps(rt: HostRuntime) {
    let alloc = rt.alloc();
    assert_eq!(&rt; several_tell(&rt, alloc), Ok(true));
}

// ---- two workers

// Holds worker 0 until worker 1 has taken a share, and counts where it has.
#[derive(Drop)]
struct Meeting {
    came: Arc<AtomicU64>,
    met: Arc<AtomicU64>,
}

impl Watch for Meeting {
    fn enter(&self, worker: u32) {
        if worker != 0 {
            self.came.store(1, Ordering::SeqCst);
            return;
        }
        for _ in 0..MOST_LOOKS {
            if self.came.load(Ordering::SeqCst) == 1 {
                self.met.fetch_add(1, Ordering::SeqCst);
                return;
            }
        }
    }
}

// The share of a router without links.
fn share(alloc: Global, name: u8) -> Result<Share, AllocError> {
    let name = named(name)?;
    Ok(Share::new(alloc, name, Hub::new(alloc, name)?))
}

// How often worker 0 has met worker 1 in a round of two shares: once, where two workers run at once. The shares are given back in order, else it is never.
fn meetings<R: Threads + Sync>(rt: &R, alloc: Global) -> Result<u64, AllocError> {
    let met = Arc::new(alloc, AtomicU64::new(0))?;
    let meeting = Meeting {
        came: Arc::new(alloc, AtomicU64::new(0))?,
        met: Arc::try_clone(&met)?,
    };
    let mut shares = Vec::new(alloc);
    shares.push(share(alloc, 1)?)?;
    shares.push(share(alloc, 2)?)?;
    let mut gang = Threaded::new(2, Box::new(alloc, meeting)?);
    let done = gang.round(rt, alloc, Turn::Handle, shares)?;
    let names = names(alloc, done)?;
    if names.as_slice() == [1, 2].as_slice() {
        Ok(met.load(Ordering::SeqCst))
    } else {
        Ok(0)
    }
}

#[test]
fn two_workers_run_at_once(rt: HostRuntime) {
    let alloc = rt.alloc();
    assert_eq!(&rt; meetings(&rt, alloc), Ok(1));
}
