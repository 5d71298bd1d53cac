//! `Book`: of what one client was told.

ghost use Rattle.std.specs.Prelude.{◌≡◌, ◌≤◌, ◌+◌, [], ◌∷◌, ◌++◌, ◌&&◌, ◌||◌, not, nat_lt, length, is_some, Some, None, IfOk, OnOk, OnErr};
ghost use Rattle.std.specs.List.{fold};
ghost use Rattle.std.specs.BTreeMap.{insert_entry};
ghost use Rattle.std.specs.Map.{keys_of, remove_entry};
ghost use Rattle.zr_lists.specs.Prefix.{IsPrefixBehind};
ghost use Rattle.zr_told_spec.specs.Place.{place_cmp, same, Ascends};
ghost use Rattle.zr_told_spec.specs.declared.place.Place.{Place};
ghost use Rattle.zr_told_spec.specs.declared.entry.Entry.{Entry};
ghost use Rattle.zr_told.specs.Plan.{count_new, fit, put_mark, unwanted, forgotten, marked_gone, marked_fresh};
ghost use Rattle.zr_told_spec.specs.Rows.{most_id, sent_on};
ghost use Rattle.zr_told_spec.specs.Told.{at, is_told, id_at, id_for, declares, undeclares, undeclared, declared, entered};

use crate::ids::Ids;
use crate::mark::{Mark, put_copy};
use std::alloc::{AllocError, Global};
use std::collections::BTreeMap;
use std::marker::Model;
use zr_id::link::LinkNo;
use zr_msg::msg::Msg;
use zr_told_spec::entry::Entry;
use zr_told_spec::place::{Class, Place};

/// What one client is to be told: the places that are undeclared, and those that are declared, each with its completeness.
#[derive(Drop)]
pub struct Plan {
    pub gone: Vec<Place>,
    pub fresh: Vec<(Place, bool)>,
}

const UNWANTED: Mark = Mark {
    wanted: false,
    complete: false,
    again: false,
};

/// Of what one client was told, and which ids of its link are in use.
#[derive(Drop)]
pub struct Book {
    entries: BTreeMap<Place, Entry>,
    ids: Ids,
}

impl Model for Book {
    ghost use Rattle.zr_told.specs.Plan.{AreNumbered};
    ghost use Rattle.zr_told_spec.specs.Told.{ToldMap};

    ghost Value = { ToldMap };

    ghost view = { λ b. b.entries.entries };

    ghost invariant = { λ b. AreNumbered b.entries.entries b.ids };
}

impl Book {
    /// The client was told nothing. Cost: no allocation.
    pub fn new(alloc: Global) -> Book
        ensures { result ≡ [] }
    {
        Book {
            entries: BTreeMap::new(alloc),
            ids: Ids::new(alloc),
        }
    }

    /// All that the client was told, marked as not wanted.
    pub fn unwanted(&self, alloc: Global) -> Result<BTreeMap<Place, Mark>, AllocError>
        ensures { IfOk result (λ ms. ms.entries ≡ fold (put_mark unwanted) [] (keys_of self.now)) }
    {
        let mut marks = BTreeMap::new(alloc);
        for place in self.entries.keys() {
            put_copy(alloc, place, UNWANTED, &mut marks)?;
        }
        Ok(marks)
    }

    /// What these marks come to.
    pub fn plan(&self, alloc: Global, marks: &BTreeMap<Place, Mark>) -> Result<Plan, AllocError>
        ensures gone { IfOk result (λ p. p.gone.items ≡ marked_gone self.now marks.now.entries) }
        ensures fresh { IfOk result (λ p. p.fresh.items ≡ marked_fresh self.now marks.now.entries) }
        ensures ascends { Ascends self.now }
        ensures marks_ascend { Ascends marks.now.entries }
        ensures small { IfOk result (λ _. (p : Place) → (e : Entry) → at self.now p ≡ Some e → e.id ≤ most_id) }
    {
        // Read, so that the proof knows that both maps ascend, and how large an id may be.
        let _bounds = (self.entries.len(), marks.len(), self.ids.end());
        let gone = self.gone(alloc, marks)?;
        let fresh = self.fresh(alloc, marks)?;
        Ok(Plan { gone, fresh })
    }

    fn gone(&self, alloc: Global, marks: &BTreeMap<Place, Mark>) -> Result<Vec<Place>, AllocError>
        ensures { IfOk result (λ ps. ps.items ≡ marked_gone self.now marks.now.entries) }
    {
        let mut gone = Vec::new(alloc);
        for (place, mark) in marks.iter() {
            if self.is_gone(place, *mark) {
                put_place(alloc, place, &mut gone)?;
            }
        }
        Ok(gone)
    }

    // Whether the client was told of a place that is marked as not wanted.
    fn is_gone(&self, place: &Place, mark: Mark) -> bool
        ensures { result ≡ (not mark.wanted && is_some (at self.now place.now)) }
    {
        !mark.wanted && self.entries.contains_key(place)
    }

    /// What is marked as wanted and wasn't told so, or is to be told again.
    pub fn fresh(
        &self,
        alloc: Global,
        marks: &BTreeMap<Place, Mark>,
    ) -> Result<Vec<(Place, bool)>, AllocError>
        ensures marks_ascend { Ascends marks.now.entries }
        ensures fresh { IfOk result (λ ws. ws.items ≡ marked_fresh self.now marks.now.entries) }
    {
        let mut fresh = Vec::new(alloc);
        for (place, mark) in marks.iter() {
            if self.is_fresh(place, *mark) {
                put_fresh(alloc, place, mark.complete, &mut fresh)?;
            }
        }
        Ok(fresh)
    }

    // Whether a place that is marked is to be told.
    fn is_fresh(&self, place: &Place, mark: Mark) -> bool
        ensures { result ≡ (mark.wanted && (mark.again || not (is_told self.now (place.now, mark.complete)))) }
    {
        mark.wanted && (mark.again || !self.is_told(place, mark.complete))
    }

    // Whether the client was told of a place, and with this completeness.
    fn is_told(&self, place: &Place, complete: bool) -> bool
        ensures { result ≡ is_told self.now (place.now, complete) }
    {
        match self.entry_at(place) {
            Some(entry) => entry.complete == complete,
            None => false,
        }
    }

    /// Whether more places than there are ids are told once the client is told what is planned.
    pub fn lacks_ids(&self, plan: &Plan) -> Result<bool, AllocError>
        ensures { IfOk result (λ b. b ≡ nat_lt (most_id + length plan.now.gone.items) (length self.now + count_new self.now plan.now.fresh.items)) }
    {
        let all = self.told_and_new(&plan.fresh)?;
        Ok(all > u32::MAX as u64 + plan.gone.len() as u64)
    }

    fn told_and_new(&self, fresh: &[(Place, bool)]) -> Result<u64, AllocError>
        ensures { IfOk result (λ n. n ≡ length self.now + count_new self.now fresh.now) }
    {
        let new = self.count_new(fresh)?;
        let told = self.entries.len() as u64;
        told.checked_add(new).ok_or(AllocError)
    }

    fn count_new(&self, fresh: &[(Place, bool)]) -> Result<u64, AllocError>
        ensures { IfOk result (λ n. n ≡ count_new self.now fresh.now) }
    {
        let mut count: u64 = 0;
        for wanted in fresh {
            if self.is_new(&wanted.0) {
                count = one_more(count)?;
            }
        }
        Ok(count)
    }

    // Whether the client wasn't told of a place.
    fn is_new(&self, place: &Place) -> bool
        ensures { result ≡ not (is_some (at self.now place.now)) }
    {
        !self.entries.contains_key(place)
    }

    /// The client of a link is told what is planned: first all undeclarations, then all declarations. Out of memory, a prefix of that was told.
    pub fn tell(
        &mut self,
        alloc: Global,
        link: LinkNo,
        interest: Option<u32>,
        plan: &Plan,
        out: &mut Vec<(LinkNo, Msg)>,
    ) -> Result<(), AllocError>
        requires { fit most_id (forgotten self.old plan.now.gone.items) plan.now.fresh.items }
        ensures map { OnOk result (self.new ≡ fold entered (forgotten self.old plan.now.gone.items) plan.now.fresh.items) }
        ensures out { OnOk result (out.new.items ≡ out.old.items ++ sent_on link (undeclared self.old plan.now.gone.items ++ declared interest (forgotten self.old plan.now.gone.items) plan.now.fresh.items)) }
        ensures err { OnErr result (IsPrefixBehind out.old.items (sent_on link (undeclared self.old plan.now.gone.items ++ declared interest (forgotten self.old plan.now.gone.items) plan.now.fresh.items)) out.new.items) }
    {
        self.undeclare_all(link, &plan.gone, out)?;
        self.forget_all(&plan.gone)?;
        self.declare_all(alloc, link, interest, &plan.fresh, out)
    }

    fn undeclare_all(
        &self,
        link: LinkNo,
        places: &[Place],
        out: &mut Vec<(LinkNo, Msg)>,
    ) -> Result<(), AllocError>
        ensures ok { OnOk result (out.new.items ≡ out.old.items ++ sent_on link (undeclared self.now places.now)) }
        ensures err { OnErr result (IsPrefixBehind out.old.items (sent_on link (undeclared self.now places.now)) out.new.items) }
    {
        for place in places {
            say(link, undeclares(self.id_at(place), place.class), out)?;
        }
        Ok(())
    }

    // The id under which the client was told of a place, 0 where it wasn't.
    fn id_at(&self, place: &Place) -> u32
        ensures { result ≡ id_at self.now place.now }
    {
        match self.entry_at(place) {
            Some(entry) => entry.id,
            None => 0,
        }
    }

    fn forget_all(&mut self, places: &[Place]) -> Result<(), AllocError>
        ensures { OnOk result (self.new ≡ forgotten self.old places.now) }
    {
        for place in places {
            self.forget(place)?;
        }
        Ok(())
    }

    // The client isn't told of the place any more, and its id is free.
    fn forget(&mut self, place: &Place) -> Result<(), AllocError>
        ensures { OnOk result (self.new ≡ remove_entry (same place.now) self.old) }
    {
        let Some(entry) = self.entry_at(place) else {
            return Ok(());
        };
        self.ids.free(entry.id)?;
        self.entries.remove(place);
        Ok(())
    }

    fn declare_all(
        &mut self,
        alloc: Global,
        link: LinkNo,
        interest: Option<u32>,
        fresh: &[(Place, bool)],
        out: &mut Vec<(LinkNo, Msg)>,
    ) -> Result<(), AllocError>
        requires { fit most_id self.old fresh.now }
        ensures map { OnOk result (self.new ≡ fold entered self.old fresh.now) }
        ensures out { OnOk result (out.new.items ≡ out.old.items ++ sent_on link (declared interest self.old fresh.now)) }
        ensures err { OnErr result (IsPrefixBehind out.old.items (sent_on link (declared interest self.old fresh.now)) out.new.items) }
    {
        for wanted in fresh {
            let id = self.enter(alloc, &wanted.0, wanted.1)?;
            say_declared(alloc, link, id, wanted, interest, out)?;
        }
        Ok(())
    }

    // The client is told of a place, under its old id or else the least that isn't in use.
    fn enter(&mut self, alloc: Global, place: &Place, complete: bool) -> Result<u32, AllocError>
        requires { id_for self.old place.now ≤ most_id }
        ensures id { IfOk result (λ n. n ≡ id_for self.old place.now) }
        ensures map { OnOk result (self.new ≡ entered self.old (place.now, complete)) }
    {
        match self.entry_at(place) {
            Some(entry) => self.enter_again(alloc, place, entry, complete),
            None => self.enter_new(alloc, place, complete),
        }
    }

    fn enter_again(
        &mut self,
        alloc: Global,
        place: &Place,
        entry: Entry,
        complete: bool,
    ) -> Result<u32, AllocError>
        requires { at self.old place.now ≡ Some entry }
        ensures id { IfOk result (λ n. n ≡ id_for self.old place.now) }
        ensures map { OnOk result (self.new ≡ entered self.old (place.now, complete)) }
    {
        let again = Entry { complete, ..entry };
        put_entry(alloc, place, again, &mut self.entries)?;
        Ok(entry.id)
    }

    fn enter_new(&mut self, alloc: Global, place: &Place, complete: bool) -> Result<u32, AllocError>
        requires new { at self.old place.now ≡ None }
        requires id { id_for self.old place.now ≤ most_id }
        ensures id { IfOk result (λ n. n ≡ id_for self.old place.now) }
        ensures map { OnOk result (self.new ≡ entered self.old (place.now, complete)) }
    {
        let id = self.ids.least();
        put_entry(alloc, place, Entry { id, complete }, &mut self.entries)?;
        self.ids.give();
        Ok(id)
    }

    // How the client was told of a place.
    fn entry_at(&self, place: &Place) -> Option<Entry>
        ensures { result ≡ at self.now place.now }
    {
        self.entries.get(place).copied()
    }
}

fn one_more(count: u64) -> Result<u64, AllocError>
    ensures { IfOk result (λ n. n ≡ count + 1) }
{
    count.checked_add(1).ok_or(AllocError)
}

fn put_place(alloc: Global, place: &Place, places: &mut Vec<Place>) -> Result<(), AllocError>
    ensures { OnOk result (places.new.items ≡ places.old.items ++ place.now ∷ []) }
{
    places.push(place.copy(alloc)?)?;
    Ok(())
}

fn put_fresh(
    alloc: Global,
    place: &Place,
    complete: bool,
    fresh: &mut Vec<(Place, bool)>,
) -> Result<(), AllocError>
    ensures { OnOk result (fresh.new.items ≡ fresh.old.items ++ (place.now, complete) ∷ []) }
{
    fresh.push((place.copy(alloc)?, complete))?;
    Ok(())
}

fn put_entry(
    alloc: Global,
    place: &Place,
    entry: Entry,
    entries: &mut BTreeMap<Place, Entry>,
) -> Result<(), AllocError>
    ensures ok { OnOk result (entries.new.entries ≡ insert_entry place_cmp entries.old.entries place.now entry) }
    ensures err { OnErr result (entries.new.entries ≡ entries.old.entries) }
{
    entries.insert(place.copy(alloc)?, entry)?;
    Ok(())
}

/// A message goes to the client of a link, behind what was sent before; out of memory, nothing more does.
pub fn say(link: LinkNo, msg: Msg, out: &mut Vec<(LinkNo, Msg)>) -> Result<(), AllocError>
    ensures ok { OnOk result (out.new.items ≡ out.old.items ++ (link, msg) ∷ []) }
    ensures err { OnErr result (out.new.items ≡ out.old.items) }
{
    out.push((link, msg))?;
    Ok(())
}

/// A client is told of a place, and whether as complete.
pub fn say_declared(
    alloc: Global,
    link: LinkNo,
    id: u32,
    wanted: &(Place, bool),
    interest: Option<u32>,
    out: &mut Vec<(LinkNo, Msg)>,
) -> Result<(), AllocError>
    ensures ok { OnOk result (out.new.items ≡ out.old.items ++ (link, declares id wanted.now.0.class wanted.now.0.key wanted.now.1 interest) ∷ []) }
    ensures err { OnErr result (out.new.items ≡ out.old.items) }
{
    let msg = declares(alloc, id, &wanted.0, wanted.1, interest)?;
    say(link, msg, out)
}

fn undeclares(id: u32, class: Class) -> Msg
    ensures { result ≡ undeclares id class }
{
    match class {
        Class::Subscriber => Msg::ToldUnsub { id },
        Class::Queryable => Msg::ToldUnable { id },
        Class::Living => Msg::ToldUntoken { id },
    }
}

fn declares(
    alloc: Global,
    id: u32,
    place: &Place,
    complete: bool,
    interest: Option<u32>,
) -> Result<Msg, AllocError>
    ensures { IfOk result (λ m. m ≡ declares id place.now.class place.now.key complete interest) }
{
    let key = place.key.copy(alloc)?;
    Ok(match place.class {
        Class::Subscriber => Msg::ToldSub { id, key, interest },
        Class::Queryable => Msg::ToldAble {
            id,
            key,
            complete,
            interest,
        },
        Class::Living => Msg::ToldToken { id, key, interest },
    })
}
