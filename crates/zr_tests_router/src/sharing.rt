//! Two threads work on one router, each on a link of its own and by a pass of its own.
ghost use Rattle.std.specs.Prelude.{◌≡◌, []};
ghost use Rattle.zr_hist.specs.Words.{kept_name, list_of, name, pass_name};

use crate::calls::{OWN, Start, outbox, peer};
use crate::desk::{Hand, Say};
use std::alloc::{AllocError, Global};
use std::marker::Brand;
use std::sync::Wait;
use std::sync::atomic::{AtomicBool, Ordering};
use std::test::Fail;
use std::thread;
use std::thread::{Threads, join};
use zr_access::Policy;
use zr_hist::{History, Kept, Pass};
use zr_id::zid::Zid;
use zr_msg::peer::Role;
use zr_msg::shared::Shared;
use zr_outside_mem::mem_sink::MemSink;
use zr_port::{DeliverError, Entry, Naming};
use zr_ring::{Bytes, Taker, Took};
use zr_router::Router;
use zr_router_queue::Queued;

/// How many samples each thread delivers.
const SAMPLES: u32 = 120;

/// How many parcels the ring of a client has room for.
const SLOTS: u32 = 256;

/// The links of the clients that publish, and of the one that subscribes.
const ONE: u32 = 0;

const TWO: u32 = 1;

const SUBSCRIBER: u32 = 2;

/// The identifier of the client at link 0; the others have the next ones.
const FIRST_CLIENT: u8 = 11;

// Delivers samples, and counts those that were.
fn publish<B: Naming, R: Wait + Drop>(
    alloc: Global,
    router: &Router<B, R, MemSink>,
    hand: &mut Hand<B>,
    link: u32,
) -> u32 {
    let mut count = 0u32;
    for _ in 0..SAMPLES {
        if hand.deliver(alloc, router, link, Say::Sample).is_ok() {
            count = count.saturating_add(1);
        }
    }
    count
}

// Takes a parcel; whether it came at this place, with the place's number as its frame's.
fn is_next(taker: &mut Taker<Queued>, place: u32) -> bool {
    match taker.take() {
        Took::Parcel(p) => p.place == u64::from(place) && is_frame(place, &p.bytes),
        Took::Ended(_) | Took::Nothing => false,
    }
}

// Takes what is there: how many parcels came at the next place.
fn in_order(taker: &mut Taker<Queued>) -> u32 {
    let mut count = 0u32;
    for _ in 0..2 * SAMPLES + 1 {
        if is_next(taker, count) {
            count = count.saturating_add(1);
        }
    }
    count
}

// Whether bytes are a frame of this number, below 16,384, with a sample.
fn is_frame(number: u32, bytes: &Bytes) -> bool {
    let (head, body) = bytes.parts();
    let low = (number % 128) as u8;
    body.starts_with(&[0x3D])
        && if number < 128 {
            head == [0x25, low].as_slice()
        } else {
            head == [0x25, 0x80 | low, (number / 128 % 128) as u8].as_slice()
        }
}

// A client comes up; its taker, where it has the next link.
fn client<B: Naming, R: Wait + Drop>(
    router: &Router<B, R, MemSink>,
    hand: &mut Hand<B>,
    link: u32,
) -> Result<Taker<Queued>, AllocError> {
    let id = FIRST_CLIENT.wrapping_add((link % 256) as u8);
    match hand.up(router, peer(id, Role::Client)?, outbox(Start::Zero)) {
        Ok((up, taker)) if up.0 == link => Ok(taker),
        Ok(_) | Err(_) => Err(AllocError),
    }
}

// Two clients come up that publish, and one that subscribes, whose taker comes back.
fn clients<B: Naming, R: Wait + Drop>(
    alloc: Global,
    router: &Router<B, R, MemSink>,
    hand: &mut Hand<B>,
) -> Result<Taker<Queued>, AllocError> {
    let _one = client(router, hand, ONE)?;
    let _two = client(router, hand, TWO)?;
    let taker = client(router, hand, SUBSCRIBER)?;
    if hand.deliver(alloc, router, SUBSCRIBER, Say::Sub).is_ok() {
        Ok(taker)
    } else {
        Err(AllocError)
    }
}

// How many samples of two threads were delivered.
fn publish_both<B: Naming + Send + Sync, R: Threads + Wait + Copy + Send + Sync + Drop>(
    rt: R,
    alloc: Global,
    router: &Router<B, R, MemSink>,
    hand: &mut Hand<B>,
    other: &mut Hand<B>,
) -> (u32, u32) {
    join(
        &rt,
        || publish(alloc, router, hand, ONE),
        || publish(alloc, router, other, TWO),
    )
}

// Fills the subscriber's ring: so many samples, one for which there is no room, and one that may not be dropped, which closes its link; how many of
// these were delivered, and whether its link is refused for the full ring then.
fn fill<B: Naming, R: Wait + Drop>(
    alloc: Global,
    router: &Router<B, R, MemSink>,
    hand: &mut Hand<B>,
    is_full: &AtomicBool,
) -> (u32, u32) {
    let mut count = 0u32;
    for _ in 0..SLOTS + 1 {
        if hand.deliver(alloc, router, ONE, Say::Sample).is_ok() {
            count = count.saturating_add(1);
        }
    }
    if hand.deliver(alloc, router, ONE, Say::Keep).is_ok() {
        count = count.saturating_add(1);
    }
    let refused = hand.deliver(alloc, router, SUBSCRIBER, Say::Sample);
    is_full.store(true, Ordering::SeqCst);
    (count, u32::from(is_closed(refused)))
}

// Whether a link is refused since an event had one parcel for it, and its ring no room.
fn is_closed(delivered: Result<(), DeliverError>) -> bool {
    matches!(delivered, Err(DeliverError::Full { asked: 1, free: 0 }))
}

// Holds the taker and asks it for nothing until the ring is full; how many parcels it gives then, and whether the end with reason 0 comes behind them.
fn hold<W: Wait>(rt: &W, taker: &mut Taker<Queued>, is_full: &AtomicBool) -> (u32, u32) {
    for _ in rt.forever() {
        if is_full.load(Ordering::SeqCst) {
            break;
        }
        thread::yield_now();
    }
    for count in 0..SLOTS + 1 {
        match taker.take() {
            Took::Parcel(_) => {}
            Took::Ended(reason) => return (count, u32::from(reason == Some(0))),
            Took::Nothing => return (count, 0),
        }
    }
    (SLOTS + 1, 0)
}

// One thread fills the ring, and another one holds the taker.
fn fill_beside<B: Naming + Send + Sync, R: Threads + Wait + Copy + Send + Sync + Drop>(
    rt: R,
    alloc: Global,
    router: &Router<B, R, MemSink>,
    hand: &mut Hand<B>,
    taker: &mut Taker<Queued>,
) -> [u32; 4] {
    let is_full = AtomicBool::new(false);
    let (filled, held) = join(
        &rt,
        || fill(alloc, router, hand, &is_full),
        || hold(&rt, taker, &is_full),
    );
    [filled.0, filled.1, held.0, held.1]
}

// The same, how many the subscriber got, and whether it gets a further one once the passes are joined. Then its ring is filled.
fn share_at<B: Naming + Send + Sync, R: Threads + Wait + Copy + Send + Sync + Drop>(
    rt: R,
    alloc: Global,
    router: &Router<B, R, MemSink>,
    hand: &mut Hand<B>,
) -> Result<([u32; 4], [u32; 4]), AllocError> {
    let mut taker = clients(alloc, router, hand)?;
    let mut other = hand.split(router);
    let (first, second) = publish_both(rt, alloc, router, hand, &mut other);
    hand.join(router, other);
    let got = in_order(&mut taker);
    let further = hand.deliver(alloc, router, TWO, Say::Sample).is_ok() && is_next(&mut taker, got);
    let shared = [first, second, got, u32::from(further)];
    Ok((shared, fill_beside(rt, alloc, router, hand, &mut taker)))
}

// The same at a router of this history.
fn share<B: Naming + Send + Sync, R: Threads + Wait + Copy + Send + Sync + Drop>(
    rt: R,
    alloc: Global,
    me: Zid,
    policy: Shared<Policy>,
    history: History<Entry>,
    kept: Kept<Entry>,
    pass: Pass<Entry>,
) -> Result<([u32; 4], [u32; 4]), AllocError>
    requires history { name history ≡ B.history }
    requires kept { (kept_name kept ≡ B.history) × (list_of kept ≡ []) }
    requires pass { pass_name pass ≡ B.history }
    requires own { me ≡ B.me }
    requires ruled { policy ≡ B.policy }
{
    let mut hand = Hand::new(pass);
    let router = Router::<B, R, MemSink>::new(rt, alloc, me, policy, history, kept)?;
    share_at(rt, alloc, &router, &mut hand)
}

fn shared<R: Threads + Wait + Copy + Send + Sync + Drop>(
    rt: R,
    alloc: Global,
) -> Result<([u32; 4], [u32; 4]), AllocError> {
    let Ok(me) = Zid::from_bytes(&[OWN]) else {
        return Err(AllocError);
    };
    let policy = Shared::new(alloc, Policy::open(alloc))?;
    let (history, kept, pass) = History::<Entry>::new(alloc)?;
    share::<Brand, R>(rt, alloc, me, policy, history, kept, pass)
}

#[test]
fn two_threads_share_a_router(rt: HostRuntime) -> Result<(), Fail> {
    let (shared, filled) = shared(rt, rt.alloc())?;
    assert!(rt; shared == [SAMPLES, SAMPLES, 2 * SAMPLES, 1]);
    assert!(rt; filled == [SLOTS + 2, 1, SLOTS, 1]);
    Ok(())
}
