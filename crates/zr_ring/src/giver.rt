//! The end that gives parcels. It may stand under a lock: none of its calls waits or asks for memory.
ghost use Rattle.std.specs.Prelude.{◌≡◌, ◌+◌, ◌-◌, ◌^◌, ◌<◌, ◌≤◌, ◌++◌, true, false, length};
ghost use Rattle.std.specs.List.{AllByRecursion};
ghost use Rattle.zr_ring.specs.Ends as ends;
ghost use Rattle.zr_ring.specs.Ends.{given, known_taken, giver_loads, IsSameGivingEnd};
ghost use Rattle.zr_ring.specs.Items.{most_parcels, ends_given, GoOnFrom, ones};

use crate::ends::GivingEnd;
use crate::parcel::{Ending, Item, Note, Parcel};
use crate::taker::{Taker, Took};

// The most parcels that a ring is given, so that every place has room in a word, and so has the count given with the end included.
const MOST_PARCELS: u64 = u64::MAX - 1;

/// It gives parcels, and at last an end.
pub struct Giver<N: Note + Drop> {
    pub(crate) ring: GivingEnd<Item<N>>,
    pub(crate) slots: u32,
    pub(crate) free: u32,
    ghost sized: { ring.slots ≡ slots + 1 },
    ghost last: { ring.going ≡ false → 0 < ring.count },
    ghost room: { ring.count - ends_given ring.going + free ≤ ring.seat.me.0.giver.known + slots },
    ghost small: { ring.count - ends_given ring.going + free ≤ most_parcels },
}

// Written out, so that it is proved here, and not by each crate that lets one go.
impl<N: Note + Drop> Drop for Giver<N> {
    fn drop(self) {
        let Self {
            ring: _ring,
            slots: _slots,
            free: _free,
        } = self;
    }
}

impl<N: Note + Drop> Giver<N> {
    ghost use Rattle.std.specs.Prelude.{◌↔◌, ◌∷◌, [], None, is_err, All, OnOk, IfErr, nat_lt};
    ghost use mathlib.Core.List.{IsPrefix};
    ghost use Rattle.zr_ring.specs.Content.{end};
    ghost use Rattle.zr_ring.specs.Items.{AddsEnd, end_of, free_of, free_places};
    ghost use Rattle.zr_ring.specs.Giver.{sent, giver_name, is_going, number, slots_of, free_slots, taken_loaded, free_calls, IsSameGiver};
    ghost use Rattle.zr_ring.specs.Taker.{taken, given_loaded, take_calls, IsPair, IsSameTaker, Tells, is_nothing};

    /// Loads the count taken. The answer is the free slots known from now on.
    pub fn free(&mut self) -> u32
        ensures same { IsSameGiver self.old self.new × (sent self.new ≡ sent self.old) × (is_going self.new ≡ is_going self.old) }
        ensures answer { result ≡ free_places (slots_of self.old) (number self.old) (taken_loaded self.new) }
        ensures kept { free_slots self.new ≡ result }
        ensures loaded { (taken_loaded self.old ≤ taken_loaded self.new) × (taken_loaded self.new ≤ length (sent self.old)) }
        ensures called { free_calls self.new ≡ free_calls self.old + 1 }
    {
        let number = self.number();
        let taken = self.ring.load_taken();
        let free = u64::from(self.slots).saturating_sub(number.saturating_sub(taken));
        self.free = free.min(MOST_PARCELS - number) as u32;
        self.free
    }

    /// Gives all of them or none: they come back exactly where they are more than the free slots known.
    pub fn give(&mut self, parcels: Vec<Parcel<N>>) -> Result<(), Vec<Parcel<N>>>
        requires going { is_going self.old ≡ true }
        requires places { GoOnFrom (number self.old) parcels.items }
        requires fits { All (λ p. N.fits (giver_name self.old) p.note) parcels.items }
        ensures refused { is_err result ≡ nat_lt (free_slots self.old) (length parcels.items) }
        ensures same { IsSameGiver self.old self.new × (is_going self.new ≡ true) }
        ensures loaded { (taken_loaded self.new ≡ taken_loaded self.old) × (free_calls self.new ≡ free_calls self.old) }
        ensures given { OnOk result (sent self.new ≡ sent self.old ++ ones parcels.items) }
        ensures free { OnOk result (free_slots self.new + length parcels.items ≡ free_slots self.old) }
        ensures back { IfErr result (λ v. (v ≡ parcels) × (self.new ≡ self.old)) }
    {
        let count = parcels.len();
        if count > self.free as usize {
            return Err(parcels);
        }
        give_all(&mut self.ring, parcels);
        self.free -= count as u32;
        Ok(())
    }

    /// Gives one, for which a slot is known to be free.
    pub fn give_one(&mut self, parcel: Parcel<N>)
        requires going { is_going self.old ≡ true }
        requires place { parcel.place ≡ number self.old }
        requires fits { N.fits (giver_name self.old) parcel.note }
        requires room { 0 < free_slots self.old }
        ensures same { IsSameGiver self.old self.new × (is_going self.new ≡ true) }
        ensures loaded { (taken_loaded self.new ≡ taken_loaded self.old) × (free_calls self.new ≡ free_calls self.old) }
        ensures given { sent self.new ≡ sent self.old ++ ones (parcel ∷ []) }
        ensures free { free_slots self.new + 1 ≡ free_slots self.old }
    {
        self.ring.put(Item::One(parcel));
        self.free -= 1;
    }

    /// Gives the end. There is always a slot for it.
    pub fn end(&mut self, reason: Option<u8>, note: N)
        requires going { is_going self.old ≡ true }
        requires vouched { N.vouches note (end reason) (number self.old) }
        requires fits { N.fits (giver_name self.old) note }
        ensures same { IsSameGiver self.old self.new × (is_going self.new ≡ false) }
        ensures given { AddsEnd (sent self.old) (sent self.new) reason note }
        ensures free { free_slots self.new ≡ free_slots self.old }
        ensures loaded { (taken_loaded self.new ≡ taken_loaded self.old) × (free_calls self.new ≡ free_calls self.old) }
    {
        let place = self.ring.count;
        self.ring.put_last(Item::Last(Ending {
            place,
            reason,
            note,
        }));
    }

    /// Loads both counts beside the taker, which shows that it took a prefix of what was given. The answer is how many slots are free.
    pub fn free_beside(&mut self, taker: &mut Taker<N>) -> u32
        requires { IsPair self.old taker.old }
        ensures same { IsSameGiver self.old self.new × (sent self.new ≡ sent self.old) × (is_going self.new ≡ is_going self.old) }
        ensures taker { IsSameTaker taker.old taker.new × (taken taker.new ≡ taken taker.old) }
        ensures prefix { IsPrefix (taken taker.old) (sent self.old) }
        ensures answer { result ≡ free_of (slots_of self.old) (number self.old) (length (taken taker.old)) }
        ensures loaded { (taken_loaded self.new ≡ length (taken taker.old)) × (given_loaded taker.new ≡ length (sent self.old)) }
        ensures free { free_slots self.new ≡ free_slots self.old }
        ensures called { (free_calls self.new ≡ free_calls self.old) × (take_calls taker.new ≡ take_calls taker.old) }
    {
        let number = self.number();
        let taken = self.ring.load_beside(&mut taker.ring);
        u64::from(self.slots).saturating_sub(number.saturating_sub(taken)) as u32
    }

    /// A take between two calls of `free_beside`: it shows what `take` answers right after `free_beside`. That is Nothing exactly where
    /// all that was given is taken, and no end is among it.
    #[tactic(auto, using(crate::proofs::Items::tells_beside))]
    pub fn take_beside(&mut self, taker: &mut Taker<N>) -> Took<N>
        requires { IsPair self.old taker.old }
        ensures same { IsSameGiver self.old self.new × (sent self.new ≡ sent self.old) × (is_going self.new ≡ is_going self.old) }
        ensures taker { IsSameTaker taker.old taker.new }
        ensures prefix { IsPrefix (taken taker.new) (sent self.old) }
        ensures tells { Tells result (taken taker.old) (taken taker.new) (length (sent self.old)) }
        ensures nothing { (is_nothing result ≡ true) ↔ ((taken taker.old ≡ sent self.old) × (end_of (sent self.old) ≡ None)) }
        ensures free { free_slots self.new ≡ free_slots self.old }
        ensures called { (free_calls self.new ≡ free_calls self.old) × (take_calls taker.new ≡ take_calls taker.old + 1) }
    {
        self.free_beside(taker);
        let took = taker.take();
        self.free_beside(taker);
        took
    }

    // How many parcels were given.
    fn number(&self) -> u64
        ensures { result ≡ number self.now }
    {
        if self.ring.going {
            self.ring.count
        } else {
            self.ring.count - 1
        }
    }
}

// Gives them all. There is room for one slot more than there are parcels.
fn give_all<N: Note + Drop>(ring: &mut GivingEnd<Item<N>>, parcels: Vec<Parcel<N>>)
    requires going { ring.old.going ≡ true }
    requires places { GoOnFrom (length (given ring.old)) parcels.items }
    requires fits { AllByRecursion (λ p. N.fits (ends.giver_name ring.old) p.note) parcels.items }
    requires room { length (given ring.old) + length parcels.items < known_taken ring.old + ring.old.slots }
    requires small { length (given ring.old) + length parcels.items < 2 ^ 64 }
    ensures same { IsSameGivingEnd ring.old ring.new × (ring.new.going ≡ true) }
    ensures given { given ring.new ≡ given ring.old ++ ones parcels.items }
    ensures known { (known_taken ring.new ≡ known_taken ring.old) × (giver_loads ring.new ≡ giver_loads ring.old) }
{
    let mut rest = parcels.into_iter();
    while let Some(parcel) = rest.next() {
        ring.put(Item::One(parcel));
    }
    rest.destroy_empty();
}
