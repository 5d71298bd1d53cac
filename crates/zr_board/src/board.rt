//! `Board`: a place for each number that a link may have.

ghost use Rattle.std.specs.Prelude.{◌≡◌, ℕ, length, IfOk};

use crate::shared::SharedOutlet;
use std::alloc::{AllocError, Global};
use std::sync::{Arc, Mutex, Wait};
use std::thread::Parker;
use std::time::Duration;
use zr_id::link::LinkNo;
use zr_outside_brief::BriefSink;
use zr_ring::Note;

/// To how many links a thread writes itself. Where more got something it wakes their writers, which run on other processors.
const MOST_WRITTEN: u32 = 2;

/// The links of a router by their numbers: of each the outlet, once its writer has posted it, and the bell of a link without an outlet.
pub struct Board<K: BriefSink + Drop, N: Note + Drop> {
    places: Vec<Place<K, N>>,
}

// Written out, so that it is proved here, and not by each crate that lets one go.
impl<K: BriefSink + Drop, N: Note + Drop> Drop for Board<K, N> {
    fn drop(self) {
        let Self { places: _places } = self;
    }
}

#[derive(Drop)]
struct Place<K: BriefSink + Drop, N: Note + Drop> {
    bell: Parker,
    slot: Mutex<Slot<K, N>>,
}

// The links that have a number one after another are told apart by turns. Nobody has the lock for longer than a look takes.
#[derive(Drop)]
struct Slot<K: BriefSink + Drop, N: Note + Drop> {
    turn: u64,
    outlet: Option<Arc<SharedOutlet<K, N>>>,
}

impl<K: BriefSink + Drop, N: Note + Drop> Board<K, N> {
    ghost use Rattle.zr_board.specs.Board.{places_of};

    /// A board with so many places, all of them free.
    pub fn new(alloc: Global, count: u32) -> Result<Board<K, N>, AllocError>
        ensures { IfOk result (λ b. places_of b ≡ count) }
    {
        let mut places = Vec::with_capacity(alloc, count as usize)?;
        for _ in 0..count {
            places.push(Place::free())?;
        }
        Ok(Board { places })
    }

    /// Rests until something is queued for a link without an outlet, or for so many milliseconds.
    pub fn rest<R: Wait>(&self, rt: &R, link: LinkNo, most_ms: u64) {
        if let Some(place) = self.places.get(link.0 as usize) {
            place.bell.park_timeout(rt, Duration::from_millis(most_ms));
        }
    }

    /// Something was queued for these links, a bit for each. Where they are few it is written, as far as that can be done at once. Else, and where
    /// something is left, their writers are woken.
    pub fn serve<R: Wait>(&self, rt: &R, links: u128) {
        let are_few = links.count_ones() <= MOST_WRITTEN;
        let mut rest = links;
        for _ in 0..u128::BITS {
            if rest == 0 {
                break;
            }
            if let Some(place) = self.places.get(rest.trailing_zeros() as usize) {
                place.serve(rt, are_few);
            }
            rest &= rest - 1;
        }
    }

    /// The turn of the link that has come up under this number. The outlet of the former one is let go.
    pub fn next_turn<R: Wait>(&self, rt: &R, link: LinkNo) -> u64 {
        match self.places.get(link.0 as usize) {
            Some(place) => place.next_turn(rt),
            None => 0,
        }
    }

    /// The outlet of the link that has the number in this turn. Where another one has it by now nothing is posted.
    pub fn post<R: Wait>(&self, rt: &R, link: LinkNo, turn: u64, outlet: Arc<SharedOutlet<K, N>>) {
        self.put(rt, link, turn, Some(outlet));
    }

    /// The writer of the link that has the number in this turn has ended.
    pub fn withdraw<R: Wait>(&self, rt: &R, link: LinkNo, turn: u64) {
        self.put(rt, link, turn, None);
    }

    fn put<R: Wait>(
        &self,
        rt: &R,
        link: LinkNo,
        turn: u64,
        outlet: Option<Arc<SharedOutlet<K, N>>>,
    ) {
        if let Some(place) = self.places.get(link.0 as usize) {
            place.put(rt, turn, outlet);
        }
    }
}

impl<K: BriefSink + Drop, N: Note + Drop> Place<K, N> {
    fn free() -> Place<K, N> {
        Place {
            bell: Parker::new(),
            slot: Mutex::new(Slot {
                turn: 0,
                outlet: None,
            }),
        }
    }

    // Something was queued for the link: it is written, where this thread may do so, or its writer is woken.
    fn serve<R: Wait>(&self, rt: &R, may_write: bool) {
        match self.shared(rt) {
            Some(outlet) => {
                if may_write {
                    outlet.serve();
                } else {
                    outlet.wake();
                }
            }
            None => self.bell.unpark(),
        }
    }

    fn shared<R: Wait>(&self, rt: &R) -> Option<Arc<SharedOutlet<K, N>>> {
        let slot = self.slot.lock(rt);
        let outlet = slot.shared();
        drop(slot);
        outlet
    }

    fn put<R: Wait>(&self, rt: &R, turn: u64, outlet: Option<Arc<SharedOutlet<K, N>>>) {
        let mut slot = self.slot.lock(rt);
        let former = slot.put(turn, outlet);
        drop(slot);
        drop(former); // with the lock free, since it may be the last to have the outlet
    }

    fn next_turn<R: Wait>(&self, rt: &R) -> u64 {
        let mut slot = self.slot.lock(rt);
        let (turn, former) = slot.next();
        drop(slot);
        // The writer of the former link is woken, since nobody finds its bell here any more.
        if let Some(former) = former {
            former.wake();
        }
        turn
    }
}

impl<K: BriefSink + Drop, N: Note + Drop> Slot<K, N> {
    // What isn't there any more, or isn't put.
    fn put(
        &mut self,
        turn: u64,
        outlet: Option<Arc<SharedOutlet<K, N>>>,
    ) -> Option<Arc<SharedOutlet<K, N>>> {
        if self.turn != turn {
            return outlet;
        }
        let former = self.outlet.take();
        self.outlet = outlet;
        former
    }

    // The next link has the number, and the outlet of the former one isn't there any more.
    fn next(&mut self) -> (u64, Option<Arc<SharedOutlet<K, N>>>) {
        self.turn = self.turn.wrapping_add(1);
        (self.turn, self.outlet.take())
    }

    fn shared(&self) -> Option<Arc<SharedOutlet<K, N>>> {
        match &self.outlet {
            Some(outlet) => Arc::try_clone(outlet).ok(),
            None => None,
        }
    }
}
