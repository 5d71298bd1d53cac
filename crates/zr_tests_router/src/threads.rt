//! One thread appends to a history and gives a parcel for each entry, another takes the parcels and looks at the history.
ghost use Rattle.std.specs.Prelude.{◌≡◌};
ghost use Rattle.zr_hist.specs.Words.{IsKeptOf, IsPassOf, kept_name, name, pass_name};

use crate::giving::Giving;
use crate::note::{Anything, are_bytes};
use std::alloc::Global;
use std::marker::{Brand, PhantomData};
use std::sync::Wait;
use std::thread;
use std::thread::{Threads, join};
use zr_hist::{History, Kept, Pass};
use zr_ring::{Bytes, Taker, Took};

/// How many parcels go from thread to thread.
pub const PARCELS: u64 = 100_000;

/// Names one history, so that what each thread has is known to be of the same.
pub trait Named {
    ghost use Rattle.atomic_table.specs.Seated.{TableId};

    ghost table: { TableId };
}

impl Named for Brand {
    ghost use Rattle.zr_tests_router.specs.Queue.{no_table};

    ghost table = { no_table };
}

/// What both threads see.
#[derive(Drop)]
struct Shared<H: Named> {
    history: History<u64>,
    of: PhantomData<H>,
    ghost here: { name history ≡ H.table },
}

/// What the thread has that appends and gives.
#[derive(Drop)]
struct Adding<H: Named> {
    kept: Kept<u64>,
    pass: Pass<u64>,
    giving: Giving,
    of: PhantomData<H>,
    ghost here: { (kept_name kept ≡ H.table) × (pass_name pass ≡ H.table) },
}

/// What the thread has that takes and looks.
#[derive(Drop)]
struct Taking<H: Named> {
    pass: Pass<u64>,
    of: PhantomData<H>,
    ghost here: { pass_name pass ≡ H.table },
}

impl<H: Named> Shared<H> {
    // Appends an entry; whether there was room for it.
    fn append(&self, adding: &mut Adding<H>, entry: u64) -> bool {
        self.history
            .append(&mut adding.kept, &mut adding.pass, &entry)
            .is_ok()
    }

    // The length of the history. It goes through no lock.
    fn look(&self, taking: &mut Taking<H>) -> u64 {
        self.history.look(&mut taking.pass)
    }
}

// Gives a parcel as soon as there is room for it.
fn give<W: Wait>(rt: &W, alloc: Global, giving: &mut Giving, byte: u8) {
    for _ in rt.forever() {
        if giving.give(alloc, &[byte]).unwrap_or(false) {
            return;
        }
        thread::yield_now();
    }
}

// A parcel for each entry, once that is in the history.
fn add_all<H: Named, W: Wait>(rt: &W, alloc: Global, shared: &Shared<H>, adding: &mut Adding<H>) {
    for entry in 0..PARCELS {
        if shared.append(adding, entry) {
            give(rt, alloc, &mut adding.giving, (entry % 256) as u8);
        }
    }
}

/// What a take brings: the parcel of the next place, which is right or wrong, something else, or nothing yet.
#[derive(Clone, Copy)]
enum Came {
    Right,
    Wrong,
    Other,
    Nothing,
}

// Whether a parcel has the byte of its entry, and the history that entry.
fn is_right(place: u64, bytes: &Bytes, entries: u64) -> bool {
    are_bytes(bytes, &[(place % 256) as u8]) && place < entries
}

fn take_one<H: Named>(
    taker: &mut Taker<Anything>,
    shared: &Shared<H>,
    taking: &mut Taking<H>,
    place: u64,
) -> Came {
    match taker.take() {
        Took::Parcel(p) if p.place == place => {
            if is_right(place, &p.bytes, shared.look(taking)) {
                Came::Right
            } else {
                Came::Wrong
            }
        }
        Took::Parcel(_) | Took::Ended(_) => Came::Other,
        Took::Nothing => Came::Nothing,
    }
}

// How many parcels came at the next place, and how many of these were right.
fn take_all<H: Named, W: Wait>(
    rt: &W,
    taker: &mut Taker<Anything>,
    shared: &Shared<H>,
    taking: &mut Taking<H>,
) -> (u64, u64) {
    let mut got = 0u64;
    let mut right = 0u64;
    for _ in rt.forever() {
        if got >= PARCELS {
            break;
        }
        match take_one(taker, shared, taking, got) {
            Came::Right => {
                got = got.wrapping_add(1);
                right = right.wrapping_add(1);
            }
            Came::Wrong => got = got.wrapping_add(1),
            Came::Other => break,
            Came::Nothing => thread::yield_now(),
        }
    }
    (got, right)
}

/// Appends and gives in one thread, and takes what was given in another.
pub fn relay<H: Named + Send + Sync, W: Threads + Wait + Sync>(
    rt: &W,
    alloc: Global,
    history: History<u64>,
    kept: Kept<u64>,
    pass: Pass<u64>,
    giving: Giving,
    taker: &mut Taker<Anything>,
) -> (u64, u64)
    requires named { name history ≡ H.table }
    requires of { IsKeptOf history kept × IsPassOf history pass }
{
    let mut pass = pass;
    let mut taking = Taking {
        pass: history.split(&mut pass),
        of: PhantomData,
    };
    let mut adding = Adding {
        kept,
        pass,
        giving,
        of: PhantomData,
    };
    let shared = Shared::<H> {
        history,
        of: PhantomData,
    };
    at_once(rt, alloc, &shared, &mut adding, taker, &mut taking)
}

fn at_once<H: Named + Send + Sync, W: Threads + Wait + Sync>(
    rt: &W,
    alloc: Global,
    shared: &Shared<H>,
    adding: &mut Adding<H>,
    taker: &mut Taker<Anything>,
    taking: &mut Taking<H>,
) -> (u64, u64) {
    let ((), taken) = join(
        rt,
        || add_all(rt, alloc, shared, adding),
        || take_all(rt, taker, shared, taking),
    );
    taken
}
