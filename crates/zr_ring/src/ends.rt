//! The two ends of a ring of anything that has a place: two words, and slots of which each end holds one at a time.
ghost use Rattle.std.specs.Prelude.{◌≡◌, ◌≢◌, ℕ, ◌+◌, ◌%◌, ◌^◌, ◌<◌, [], ◌∷◌, length, true, false, None};
ghost use Rattle.std.specs.Arc.{arc_value};
ghost use Rattle.zr_ring.specs.Rule.{all_words, giver_view, taker_view, end_view};

use crate::name::RingName;
use crate::rule::{HasPlace, RingRule, View};
use crate::steps::{
    Begin, Give, GiveLast, JoinGiver, LoadGivenBeside, LoadTaken, LoadTakenBeside, Look, SeeGiven,
    SplitGiver, Take,
};
use atomic_table::{Seat, Table};
use std::alloc::{AllocError, Global};
use std::sync::Arc;

// The indexes of the two words, and how many words there are. They lie 128 bytes apart, so that they share no cache line.
const GIVEN: usize = 16;

const TAKEN: usize = 32;

const WORDS: usize = 48;

type RingTable<X> = Table<Option<X>, View<X>, RingName, RingRule, Global>;

type RingSeat<X> = Seat<Option<X>, View<X>>;

/// The end that gives. It holds the slot of the next place, empty, until the last one was given.
#[derive(Drop)]
pub(crate) struct GivingEnd<X: HasPlace + Drop> {
    table: Arc<RingTable<X>, Global>,
    pub(crate) seat: RingSeat<X>,
    pub(crate) slots: u64,
    pub(crate) count: u64,
    pub(crate) going: bool,
    ghost seated: { (seat.table_id ≡ (arc_value table).shared.table_id) × (seat.table_id.words ≡ all_words) × (seat.table_id.slots ≡ slots) × (0 < slots) },
    ghost counted: { count ≡ length seat.me.0.giver.list },
    ghost knows: { seat.me.0 ≡ giver_view (end_view seat.me.0.giver.name going seat.me.0.giver.list seat.me.0.giver.known seat.me.0.giver.loads) },
    ghost holds: { (going ≡ true → seat.me.1 ≡ (count % slots, None) ∷ []) × (going ≡ false → seat.me.1 ≡ []) },
}

/// The end that takes. Between two calls it holds no slot.
#[derive(Drop)]
pub(crate) struct TakingEnd<X: HasPlace + Drop> {
    table: Arc<RingTable<X>, Global>,
    pub(crate) seat: RingSeat<X>,
    slots: u64,
    pub(crate) count: u64,
    ghost seated: { (seat.table_id ≡ (arc_value table).shared.table_id) × (seat.table_id.words ≡ all_words) × (seat.table_id.slots ≡ slots) × (0 < slots) },
    ghost counted: { count ≡ length seat.me.0.taker.list },
    ghost knows: { seat.me ≡ (taker_view (end_view seat.me.0.taker.name false seat.me.0.taker.list seat.me.0.taker.known seat.me.0.taker.loads), []) },
}

impl<X: HasPlace + Drop> GivingEnd<X> {
    ghost use Rattle.std.specs.Prelude.{◌++◌, ◌≤◌, IfOk};
    ghost use mathlib.Core.List.{IsPrefix};
    ghost use Rattle.zr_ring.specs.Ends.{given, known_taken, giver_loads, giver_name, taken, known_given, taker_loads, taker_name, AreEnds, IsSameGivingEnd, IsSameTakingEnd};

    /// Two ends of a new ring of this name.
    pub(crate) fn pair(
        alloc: Global,
        slots: u64,
        name: RingName,
    ) -> Result<(GivingEnd<X>, TakingEnd<X>), AllocError>
        requires { (0 < slots) × (slots < 2 ^ 33) }
        ensures pair { IfOk result (λ r. AreEnds r.0 r.1 × (r.0.slots ≡ slots)) }
        ensures name { IfOk result (λ r. (giver_name r.0 ≡ name) × (taker_name r.1 ≡ name)) }
        ensures giving { IfOk result (λ r. (given r.0 ≡ []) × (known_taken r.0 ≡ 0) × (giver_loads r.0 ≡ 0) × (r.0.going ≡ true)) }
        ensures taking { IfOk result (λ r. (taken r.1 ≡ []) × (known_given r.1 ≡ 0) × (taker_loads r.1 ≡ 0)) }
    {
        let (table, mut seat) = Table::vacant(alloc, &[0; WORDS], slots as usize, &name)?;
        let mut giver = table.shared.split_seat::<SplitGiver>(&mut seat);
        table.shared.load::<Begin>(&mut giver, GIVEN);
        let table = Arc::new(alloc, table)?;
        let other = Arc::try_clone(&table)?;
        let giving = GivingEnd {
            table,
            seat: giver,
            slots,
            count: 0,
            going: true,
        };
        let taking = TakingEnd {
            table: other,
            seat,
            slots,
            count: 0,
        };
        Ok((giving, taking))
    }

    /// Loads the count taken.
    pub(crate) fn load_taken(&mut self) -> u64
        ensures same { IsSameGivingEnd self.old self.new × (given self.new ≡ given self.old) × (self.new.going ≡ self.old.going) }
        ensures known { (result ≡ known_taken self.new) × (known_taken self.old ≤ result) × (result ≤ length (given self.old)) }
        ensures loads { giver_loads self.new ≡ giver_loads self.old + 1 }
    {
        self.table.shared.load::<LoadTaken>(&mut self.seat, TAKEN)
    }

    /// Gives one item. One slot more has to be known to be free, which the giver then holds.
    pub(crate) fn put(&mut self, x: X)
        requires going { self.old.going ≡ true }
        requires room { length (given self.old) + 1 < known_taken self.old + self.old.slots }
        requires place { X.stands (giver_name self.old) (length (given self.old)) x }
        requires small { length (given self.old) + 1 < 2 ^ 64 }
        ensures same { IsSameGivingEnd self.old self.new × (self.new.going ≡ true) }
        ensures given { given self.new ≡ given self.old ++ x ∷ [] }
        ensures known { (known_taken self.new ≡ known_taken self.old) × (giver_loads self.new ≡ giver_loads self.old) }
    {
        let slot = (self.count % self.slots) as usize;
        self.table.shared.exchange(&mut self.seat, slot, Some(x));
        self.table
            .shared
            .store::<Give>(&mut self.seat, GIVEN, self.count + 1);
        self.count += 1;
    }

    /// Gives the last item, and holds no slot any more.
    pub(crate) fn put_last(&mut self, x: X)
        requires going { self.old.going ≡ true }
        requires place { X.stands (giver_name self.old) (length (given self.old)) x }
        requires small { length (given self.old) + 1 < 2 ^ 64 }
        ensures same { IsSameGivingEnd self.old self.new × (self.new.going ≡ false) }
        ensures given { given self.new ≡ given self.old ++ x ∷ [] }
        ensures known { (known_taken self.new ≡ known_taken self.old) × (giver_loads self.new ≡ giver_loads self.old) }
    {
        let slot = (self.count % self.slots) as usize;
        self.table.shared.exchange(&mut self.seat, slot, Some(x));
        self.table
            .shared
            .store::<GiveLast>(&mut self.seat, GIVEN, self.count + 1);
        self.count += 1;
        self.going = false;
    }

    /// Loads both counts beside the other end: the giver's view goes to the seat of the taker, which so compares the two, and back.
    pub(crate) fn load_beside(&mut self, other: &mut TakingEnd<X>) -> u64
        requires { AreEnds self.old other.old }
        ensures same { IsSameGivingEnd self.old self.new × (given self.new ≡ given self.old) × (self.new.going ≡ self.old.going) }
        ensures other { IsSameTakingEnd other.old other.new × (taken other.new ≡ taken other.old) }
        ensures loads { (giver_loads self.new ≡ giver_loads self.old) × (taker_loads other.new ≡ taker_loads other.old) }
        ensures prefix { IsPrefix (taken other.old) (given self.old) }
        ensures taken { (result ≡ length (taken other.old)) × (known_taken self.new ≡ result) × (known_taken self.old ≤ result) }
        ensures given { known_given other.new ≡ length (given self.old) }
    {
        let shared = &self.table.shared;
        let piece = shared.split_seat::<SplitGiver>(&mut self.seat);
        shared.join_seat::<JoinGiver>(&mut other.seat, piece);
        shared.load::<LoadGivenBeside>(&mut other.seat, GIVEN);
        let taken = shared.load::<LoadTakenBeside>(&mut other.seat, TAKEN);
        let piece = shared.split_seat::<SplitGiver>(&mut other.seat);
        shared.join_seat::<JoinGiver>(&mut self.seat, piece);
        taken
    }
}

impl<X: HasPlace + Drop> TakingEnd<X> {
    ghost use Rattle.std.specs.Prelude.{◌++◌, ◌≤◌, IfSome, IfNone};
    ghost use Rattle.zr_ring.specs.Ends.{taken, known_given, taker_loads, taker_name, IsSameTakingEnd};

    /// Takes the next item, where the count given says that there is one.
    pub(crate) fn take(&mut self) -> Option<X>
        ensures same { IsSameTakingEnd self.old self.new × (taker_loads self.new ≡ taker_loads self.old + 1) }
        ensures known { (known_given self.old ≤ known_given self.new) × (length (taken self.old) ≤ known_given self.new) }
        ensures some { IfSome result (λ x. X.stands (taker_name self.old) (length (taken self.old)) x × (taken self.new ≡ taken self.old ++ x ∷ []) × (length (taken self.old) < known_given self.new)) }
        ensures none { IfNone result ((taken self.new ≡ taken self.old) × (known_given self.new ≡ length (taken self.old))) }
    {
        let given = self.table.shared.load::<SeeGiven>(&mut self.seat, GIVEN);
        if given == self.count {
            return None;
        }
        let slot = (self.count % self.slots) as usize;
        let item = self.table.shared.exchange(&mut self.seat, slot, None);
        self.table
            .shared
            .store::<Take>(&mut self.seat, TAKEN, self.count + 1);
        self.count += 1;
        item
    }

    /// Loads the count given, and takes nothing.
    pub(crate) fn look(&mut self)
        ensures same { IsSameTakingEnd self.old self.new × (taker_loads self.new ≡ taker_loads self.old + 1) }
        ensures taken { (taken self.new ≡ taken self.old) × (known_given self.old ≤ known_given self.new) }
    {
        self.table.shared.load::<Look>(&mut self.seat, GIVEN);
    }
}
