//! Calls on a router, and what they answer as plain values.
ghost use Rattle.std.specs.Prelude.{◌≡◌, []};
ghost use Rattle.zr_hist.specs.Words.{kept_name, list_of, name, pass_name};

use crate::desk::{Hand, Say};
use crate::note::are_bytes;
use std::alloc::{AllocError, Global};
use std::marker::Brand;
use std::sync::Wait;
use zr_access::Policy;
use zr_frame::Outbox;
use zr_hist::{History, Kept, Pass};
use zr_id::zid::Zid;
use zr_msg::error::NodeError;
use zr_msg::peer::{Peer, Role};
use zr_msg::shared::Shared;
use zr_outside_mem::mem_sink::MemSink;
use zr_port::{DeliverError, DownError, Entry, Naming, UpError};
use zr_ring::{Taker, Took};
use zr_router::Router;
use zr_router_queue::Queued;

/// The router's own identifier.
pub const OWN: u8 = 1;

/// More takes than any ring has parcels.
const MOST_TAKES: u64 = 2_048;

/// The identifier of the first of many peers.
pub const MANY: u8 = 100;

/// A call. Peers are told by their identifiers, and `Take` and `Next` by how many links came up before theirs.
#[derive(Clone, Copy)]
pub enum Call {
    Client(u8),
    ClientAt(u8, Start),
    Router(u8),
    /// So many come up at once, with the identifiers from `MANY` on.
    Clients(u8),
    Routers(u8),
    /// A router comes up and goes down so many times.
    Blinks(u8, u32),
    Say(u32, Say),
    /// So many samples.
    Samples(u32, u32),
    Down(u32, Option<u8>),
    /// Takes all that is there.
    Take(usize),
    /// Takes one parcel, which has these bytes.
    Next(usize, &'static [u8]),
}

/// What a link sends by: the longest batches and number 0, number 5, the last one of 28 bits, or batches of 64 bytes.
#[derive(Clone, Copy)]
pub enum Start {
    Zero,
    Five,
    Last,
    Small,
}

/// What is answered: of parcels how many there were, and the reason of the end where it came behind them.
#[derive(Clone, Copy, PartialEq, Eq)]
pub enum Told {
    Ok,
    Link(u32),
    Sessions(u32, u32),
    Twice,
    NotUp(u32),
    Misplaced(Role),
    Full(u64, u32),
    NotDeclared(u32),
    /// The line of the rule that denies.
    Denied(u32),
    Ignored(u32),
    /// So many entries of the log are known, and this one came.
    Gap(u64, u64),
    Parcels(u64),
    Ended(u64, Option<u8>),
    Other,
}

/// A router, one pass of its history, and the takers of the links that came up, in turn.
#[derive(Drop)]
struct Bench<B: Naming, R: Wait + Drop> {
    alloc: Global,
    router: Router<B, R, MemSink>,
    hand: Hand<B>,
    takers: Vec<Taker<Queued>>,
}

impl<B: Naming, R: Wait + Drop> Bench<B, R> {
    fn up(&mut self, id: u8, role: Role, start: Start) -> Told {
        let Ok(peer) = peer(id, role) else {
            return Told::Other;
        };
        match self.hand.up(&self.router, peer, outbox(start)) {
            Ok((link, taker)) => keep(&mut self.takers, taker, Told::Link(link.0)),
            Err(error) => up_refused(error),
        }
    }

    // So many peers come up.
    fn many(&mut self, count: u8, role: Role) -> Told {
        for number in 0..count {
            let told = self.up(MANY.wrapping_add(number), role, Start::Zero);
            if !is_link(told) {
                return told;
            }
        }
        Told::Ok
    }

    // A router comes up and goes down so many times.
    fn blinks(&mut self, id: u8, count: u32) -> Told {
        for _ in 0..count {
            let told = self.up(id, Role::Router, Start::Zero);
            let Told::Link(link) = told else {
                return told;
            };
            self.down(link, None);
        }
        Told::Ok
    }

    fn say(&mut self, link: u32, say: Say) -> Told {
        match self.hand.deliver(self.alloc, &self.router, link, say) {
            Ok(()) => Told::Ok,
            Err(error) => undelivered(error),
        }
    }

    // So many samples; the first answer that is a refusal, if there is one.
    fn samples(&mut self, link: u32, count: u32) -> Told {
        for _ in 0..count {
            let told = self.say(link, Say::Sample);
            if told != Told::Ok {
                return told;
            }
        }
        Told::Ok
    }

    fn down(&mut self, link: u32, reason: Option<u8>) -> Told {
        match self.hand.down(&self.router, link, reason) {
            Ok(()) => Told::Ok,
            Err(DownError::NotUp { link }) => Told::NotUp(link.0),
            Err(DownError::Worn) | Err(DownError::NoMemory) => Told::Other,
        }
    }

    fn answer(&mut self, call: Call) -> Told {
        match call {
            Call::Client(id) => self.up(id, Role::Client, Start::Zero),
            Call::ClientAt(id, start) => self.up(id, Role::Client, start),
            Call::Router(id) => self.up(id, Role::Router, Start::Zero),
            Call::Clients(count) => self.many(count, Role::Client),
            Call::Routers(count) => self.many(count, Role::Router),
            Call::Blinks(id, count) => self.blinks(id, count),
            Call::Say(link, say) => self.say(link, say),
            Call::Samples(link, count) => self.samples(link, count),
            Call::Down(link, reason) => self.down(link, reason),
            Call::Take(at) => taken(&mut self.takers, at, None),
            Call::Next(at, bytes) => taken(&mut self.takers, at, Some(bytes)),
        }
    }
}

pub fn peer(id: u8, role: Role) -> Result<Peer, AllocError> {
    match Zid::from_bytes(&[id]) {
        Ok(id) => Ok(Peer {
            id,
            role,
            weight: 1,
        }),
        Err(_) => Err(AllocError),
    }
}

// Keeps a taker behind the others; what is told then, where there is memory for it.
fn keep(takers: &mut Vec<Taker<Queued>>, taker: Taker<Queued>, told: Told) -> Told {
    if takers.push(taker).is_ok() {
        told
    } else {
        Told::Other
    }
}

pub fn outbox(start: Start) -> Outbox {
    match start {
        Start::Zero => Outbox::new(65_535, 2, 0),
        Start::Five => Outbox::new(65_535, 2, 5),
        Start::Last => Outbox::new(65_535, 2, 268_435_455),
        Start::Small => Outbox::new(64, 2, 0),
    }
}

fn up_refused(error: UpError) -> Told {
    match error {
        UpError::Full { sessions, routers } => Told::Sessions(sessions, routers),
        UpError::Twice => Told::Twice,
        UpError::Worn | UpError::NoMemory => Told::Other,
    }
}

fn undelivered(error: DeliverError) -> Told {
    match error {
        DeliverError::NotUp { link } => Told::NotUp(link.0),
        DeliverError::Misplaced { role } => Told::Misplaced(role),
        DeliverError::Full { asked, free } => Told::Full(asked, free),
        DeliverError::Denied { rule } => Told::Denied(rule),
        DeliverError::Ignored { id } => Told::Ignored(id),
        DeliverError::Node(NodeError::NotDeclared { id }) => Told::NotDeclared(id),
        DeliverError::Node(NodeError::Gap { has, came, .. }) => Told::Gap(has, came),
        _ => Told::Other,
    }
}

fn is_link(told: Told) -> bool {
    matches!(told, Told::Link(_))
}

// Takes all that is there for a link, or one parcel that is to have these bytes.
fn taken(takers: &mut [Taker<Queued>], at: usize, bytes: Option<&[u8]>) -> Told {
    match (takers.get_mut(at), bytes) {
        (Some(taker), Some(bytes)) => next_of(taker, bytes),
        (Some(taker), None) => all_of(taker),
        (None, _) => Told::Other,
    }
}

// Takes all that is there.
fn all_of(taker: &mut Taker<Queued>) -> Told {
    for count in 0..MOST_TAKES {
        match taker.take() {
            Took::Parcel(_) => {}
            Took::Ended(reason) => return Told::Ended(count, reason),
            Took::Nothing => return Told::Parcels(count),
        }
    }
    Told::Other
}

// Takes one parcel, which is to have these bytes.
fn next_of(taker: &mut Taker<Queued>, bytes: &[u8]) -> Told {
    match taker.take() {
        Took::Parcel(parcel) if are_bytes(&parcel.bytes, bytes) => Told::Ok,
        Took::Parcel(_) | Took::Ended(_) | Took::Nothing => Told::Other,
    }
}

// The number of the first row that isn't so, where the rows come one after the other; that of all where there is none.
fn wrong<B: Naming, R: Wait + Drop>(bench: &mut Bench<B, R>, rows: &[(Call, Told)]) -> usize {
    for i in 0..rows.len() {
        let (call, want) = rows[i];
        if bench.answer(call) != want {
            return i;
        }
    }
    rows.len()
}

// The same for a router of this history.
fn wrong_at<B: Naming, R: Wait + Drop>(
    rt: R,
    alloc: Global,
    me: Zid,
    policy: Shared<Policy>,
    history: History<Entry>,
    kept: Kept<Entry>,
    pass: Pass<Entry>,
    rows: &[(Call, Told)],
) -> Result<usize, AllocError>
    requires history { name history ≡ B.history }
    requires kept { (kept_name kept ≡ B.history) × (list_of kept ≡ []) }
    requires pass { pass_name pass ≡ B.history }
    requires own { me ≡ B.me }
    requires ruled { policy ≡ B.policy }
{
    let hand = Hand::new(pass);
    let mut bench = Bench {
        alloc,
        router: Router::<B, R, MemSink>::new(rt, alloc, me, policy, history, kept)?,
        hand,
        takers: Vec::new(alloc),
    };
    Ok(wrong(&mut bench, rows))
}

/// The number of the first row that a new router under these rules answers otherwise, where the rows come one after the other; that of all where there is
/// none.
pub fn first_wrong<R: Wait + Drop>(
    rt: R,
    alloc: Global,
    rules: &[u8],
    rows: &[(Call, Told)],
) -> Result<usize, AllocError> {
    let Ok(policy) = Policy::read(alloc, rules) else {
        return Err(AllocError);
    };
    let Ok(me) = Zid::from_bytes(&[OWN]) else {
        return Err(AllocError);
    };
    let policy = Shared::new(alloc, policy)?;
    let (history, kept, pass) = History::<Entry>::new(alloc)?;
    wrong_at::<Brand, R>(rt, alloc, me, policy, history, kept, pass, rows)
}
