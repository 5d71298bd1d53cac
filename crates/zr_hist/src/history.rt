//! A history, and each step on it: a `Kept` is asked for by those that have to see the list whole.
ghost use Rattle.std.specs.Prelude.{◌≡◌, List, [], ◌∷◌, length};
ghost use Rattle.zr_hist.specs.Rule.{kept_view, pass_view, appending_view, first_view};

use crate::kept::Kept;
use crate::pass::Pass;
use crate::rule::{OneList, View};
use crate::steps::{Append, Compare, JoinPass, LendRight, Look, LookBeside, NewPass, ReturnRight};
use atomic_table::{Badge, Seat, Table};
use std::alloc::{AllocError, Global};
use std::mem;
use thiserror::Error;

// Index of the word that counts the entries.
const COUNT: usize = 0;

/// The list has as many entries as its word can count.
#[derive(Clone, Copy, Debug, PartialEq, Eq, Drop, Error)]
#[error("the history is full")]
pub struct Worn;

/// A list of entries that only grows. It is shared by reference; who may append has its `Kept`.
pub struct History<E: Drop> {
    pub(crate) table: Table<E, View<E>, (), OneList, Global>,
    ghost one_word: { (table.shared.table_id.words ≡ 1) × (table.shared.table_id.slots ≡ 0) },
}

// Written out, so that it is proved here, and not by each crate that lets one go.
impl<E: Drop> Drop for History<E> {
    fn drop(self) {
        let Self { table: _table } = self;
    }
}

impl<E: Drop> History<E> {
    ghost use Rattle.std.specs.Prelude.{◌+◌, ◌<◌, ◌++◌, IfOk, OnOk, OnErr, is_err, ◌==◌};
    ghost use mathlib.Core.List.{IsPrefix};
    ghost use Rattle.zr_hist.specs.Rule.{longer, IsSublist};
    ghost use Rattle.zr_hist.specs.Words.{most_entries, list_of, seen, mine, looks};
    ghost use Rattle.zr_hist.specs.Words.{IsKeptOf, IsPassOf, IsSameKept, IsSamePass, IsSeatOf, IsBadgeOf, IsSameSeat};

    /// An empty history, what stands for its list, and the first pass. No other call asks for memory.
    pub fn new(alloc: Global) -> Result<(History<E>, Kept<E>, Pass<E>), AllocError>
        ensures of { IfOk result (λ r. IsKeptOf r.0 r.1 × IsPassOf r.0 r.2) }
        ensures list { IfOk result (λ r. list_of r.1 ≡ []) }
        ensures pass { IfOk result (λ r. (seen r.2 ≡ []) × (mine r.2 ≡ []) × (looks r.2 ≡ 0)) }
    {
        let (table, mut seat) = Table::of_words(alloc, &[0], &())?;
        let first = table.shared.split_seat::<NewPass>(&mut seat);
        let kept = Kept {
            count: 0,
            badge: seat.into_badge(),
        };
        Ok((History { table }, kept, Pass { seat: first }))
    }

    /// Appends an entry. The answer is its place, which is the list's length before. A history with `most_entries` entries refuses, and
    /// there too the pass has seen the list.
    pub fn append(&self, kept: &mut Kept<E>, pass: &mut Pass<E>, entry: &E) -> Result<u64, Worn>
        requires kept { IsKeptOf self.now kept.old }
        requires pass { IsPassOf self.now pass.old }
        ensures same { IsSameKept kept.old kept.new × IsSamePass pass.old pass.new }
        ensures worn { is_err result ≡ (length (list_of kept.old) == most_entries) }
        ensures place { IfOk result (λ n. n ≡ length (list_of kept.old)) }

        ensures list { OnOk result (list_of kept.new ≡ list_of kept.old ++ entry.now ∷ []) }
        ensures mine { OnOk result (mine pass.new ≡ mine pass.old ++ entry.now ∷ []) }
        ensures unchanged { OnErr result ((list_of kept.new ≡ list_of kept.old) × (mine pass.new ≡ mine pass.old)) }

        ensures seen { seen pass.new ≡ list_of kept.new }
        ensures prefix { IsPrefix (seen pass.old) (list_of kept.old) }
        ensures in_order { IsSublist (mine pass.new) (seen pass.new) }
        ensures looked { looks pass.new ≡ looks pass.old + 1 }
    {
        if kept.is_full() {
            self.look_beside(kept, pass);
            return Err(Worn);
        }
        let place = kept.count;
        self.lend_right(&mut kept.badge, &mut pass.seat);
        self.table
            .shared
            .compare_exchange_with::<Append>(&mut pass.seat, COUNT, place, place + 1, entry);
        kept.badge = self.return_right(&mut pass.seat);
        kept.count = place + 1;
        Ok(place)
    }

    /// Appends an entry to a list that isn't full, which `Kept::is_full` tells. The pass has then seen the list.
    pub fn note(&self, kept: &mut Kept<E>, pass: &mut Pass<E>, entry: &E)
        requires kept { IsKeptOf self.now kept.old }
        requires pass { IsPassOf self.now pass.old }
        requires room { length (list_of kept.old) < most_entries }
        ensures same { IsSameKept kept.old kept.new × IsSamePass pass.old pass.new }
        ensures prefix { IsPrefix (seen pass.old) (list_of kept.old) }
        ensures list { list_of kept.new ≡ list_of kept.old ++ entry.now ∷ [] }
        ensures mine { mine pass.new ≡ mine pass.old ++ entry.now ∷ [] }
        ensures seen { seen pass.new ≡ list_of kept.new }
    {
        match self.append(kept, pass, entry) {
            Ok(_) => (),
            Err(_) => unreachable!(),
        }
    }

    /// The length of the list at a moment within this call; the pass has then seen that list. It waits for nobody.
    pub fn look(&self, pass: &mut Pass<E>) -> u64
        requires { IsPassOf self.now pass.old }
        ensures same { IsSamePass pass.old pass.new × (mine pass.new ≡ mine pass.old) }
        ensures count { result ≡ length (seen pass.new) }
        ensures prefix { IsPrefix (seen pass.old) (seen pass.new) }
        ensures in_order { IsSublist (mine pass.new) (seen pass.new) }
        ensures looked { looks pass.new ≡ looks pass.old + 1 }
    {
        self.table.shared.load::<Look>(&mut pass.seat, COUNT)
    }

    /// As `look`, beside what stands for the list: the pass has then seen the list whole.
    pub fn look_beside(&self, kept: &mut Kept<E>, pass: &mut Pass<E>) -> u64
        requires kept { IsKeptOf self.now kept.old }
        requires pass { IsPassOf self.now pass.old }
        ensures same { IsSameKept kept.old kept.new × IsSamePass pass.old pass.new × (mine pass.new ≡ mine pass.old) }
        ensures list { list_of kept.new ≡ list_of kept.old }
        ensures count { result ≡ length (list_of kept.old) }
        ensures seen { seen pass.new ≡ list_of kept.old }
        ensures prefix { IsPrefix (seen pass.old) (list_of kept.old) }
        ensures in_order { IsSublist (mine pass.new) (seen pass.new) }
        ensures looked { looks pass.new ≡ looks pass.old + 1 }
    {
        self.lend_right(&mut kept.badge, &mut pass.seat);
        let count = self.table.shared.load::<LookBeside>(&mut pass.seat, COUNT);
        kept.badge = self.return_right(&mut pass.seat);
        count
    }

    /// A new pass that has seen as much and appended nothing.
    pub fn split(&self, pass: &mut Pass<E>) -> Pass<E>
        requires { IsPassOf self.now pass.old }
        ensures same { IsSamePass pass.old pass.new }
        ensures unchanged { (seen pass.new ≡ seen pass.old) × (mine pass.new ≡ mine pass.old) × (looks pass.new ≡ looks pass.old) }
        ensures of { IsPassOf self.now result }
        ensures new { (seen result ≡ seen pass.old) × (mine result ≡ []) × (looks result ≡ 0) }
    {
        let seat = self.table.shared.split_seat::<NewPass>(&mut pass.seat);
        Pass { seat }
    }

    /// The pass has then seen the longer of what the two had seen. The entries of the other stay in the list.
    pub fn join(&self, pass: &mut Pass<E>, other: Pass<E>)
        requires pass { IsPassOf self.now pass.old }
        requires other { IsPassOf self.now other }
        ensures same { IsSamePass pass.old pass.new × (mine pass.new ≡ mine pass.old) × (looks pass.new ≡ looks pass.old) }
        ensures seen { seen pass.new ≡ longer (seen pass.old) (seen other) }
        ensures prefixes { IsPrefix (seen pass.old) (seen pass.new) × IsPrefix (seen other) (seen pass.new) }
    {
        let Pass { seat } = other;
        self.table
            .shared
            .join_seat::<JoinPass>(&mut pass.seat, seat);
        self.table.shared.load::<Compare>(&mut pass.seat, COUNT);
    }

    /// Ends the history. The answer is the length of its list.
    pub fn close(self, mut kept: Kept<E>, pass: Pass<E>) -> u64
        requires kept { IsKeptOf self kept }
        requires pass { IsPassOf self pass }
        ensures count { result ≡ length (list_of kept) }
        ensures prefix { IsPrefix (seen pass) (list_of kept) }
    {
        let Pass { mut seat } = pass;
        self.lend_right(&mut kept.badge, &mut seat);
        let History { table } = self;
        let closed = table.close_with(seat);
        let count = closed.word(COUNT);
        closed.free();
        count
    }

    // A step changes the view of one seat. So the right to append goes to the pass for the one step that changes both the list and
    // what the pass knows, and then goes back.
    fn lend_right(&self, badge: &mut Badge<View<E>>, seat: &mut Seat<E, View<E>>)
        requires of { IsBadgeOf self.now badge.old × IsSeatOf self.now seat.old }
        requires badge { badge.old.views ≡ kept_view (first_view badge.old.views).list ∷ [] }
        requires seat { seat.old.me ≡ (pass_view seat.old.me.0.seen seat.old.me.0.mine seat.old.me.0.looks, []) }
        ensures same { IsSameSeat seat.old seat.new }
        ensures lent { seat.new.me ≡ (appending_view seat.old.me.0.seen seat.old.me.0.mine seat.old.me.0.looks (first_view badge.old.views).list, []) }
    {
        let holder = mem::replace(badge, Badge::blank()).into_seat();
        self.table.shared.join_seat::<LendRight>(seat, holder);
    }

    fn return_right(&self, seat: &mut Seat<E, View<E>>) -> Badge<View<E>>
        requires of { IsSeatOf self.now seat.old }
        requires seat { seat.old.me ≡ (appending_view seat.old.me.0.seen seat.old.me.0.mine seat.old.me.0.looks seat.old.me.0.list, []) }
        ensures same { IsSameSeat seat.old seat.new × IsBadgeOf self.now result }
        ensures seat { seat.new.me ≡ (pass_view seat.old.me.0.seen seat.old.me.0.mine seat.old.me.0.looks, []) }
        ensures badge { result.views ≡ kept_view seat.old.me.0.list ∷ [] }
    {
        self.table
            .shared
            .split_seat::<ReturnRight>(seat)
            .into_badge()
    }
}
