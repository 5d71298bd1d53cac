//! Marks on all places of which a client was told or is to be told.

ghost use Rattle.std.specs.Prelude.{◌≡◌, [], ◌∷◌, if◌then◌else◌, IfOk, OnOk};
ghost use Rattle.zr_told_spec.specs.Place.{place_of};
ghost use Rattle.zr_told_spec.specs.Wanted.{fits, told_as, wanted};
ghost use Rattle.std.specs.List.{fold};
ghost use Rattle.std.specs.Option.{option_copied};
ghost use Rattle.zr_told.specs.Plan.{updated, put_mark, is_wanted, with_again, with_complete, mark_wanted, mark_again, mark_complete, mark_answered, marks_of};

use crate::book::Book;
use crate::interest::{fits, told_as};
use crate::mark::{Mark, put};
use crate::place::{class_of, place_of};
use std::alloc::{AllocError, Global};
use std::collections::BTreeMap;
use zr_local::interest::Interest;
use zr_msg::decl::Decl;
use zr_node_spec::kinds::is_complete;
use zr_told_spec::place::Place;

/// The marks on each place of which a client was told, or wants to be told of what others declare. Of one of its interests it may be told all.
pub fn marks_of(
    alloc: Global,
    book: &Book,
    others: &[Decl],
    interests: &[Interest],
    answered: Option<&Interest>,
) -> Result<BTreeMap<Place, Mark>, AllocError>
    ensures { IfOk result (λ ms. ms.entries ≡ marks_of book.now others.now interests.now (option_copied answered.entry)) }
{
    let mut marks = book.unwanted(alloc)?;
    mark_all(alloc, others, interests, answered, &mut marks)?;
    Ok(marks)
}

// What is wanted, what is told again and what is complete is marked.
fn mark_all(
    alloc: Global,
    others: &[Decl],
    interests: &[Interest],
    answered: Option<&Interest>,
    marks: &mut BTreeMap<Place, Mark>,
) -> Result<(), AllocError>
    ensures { OnOk result (marks.new.entries ≡ mark_complete others.now (mark_answered others.now (fold (mark_wanted others.now) marks.old.entries interests.now) (option_copied answered.entry))) }
{
    mark_each(alloc, others, interests, marks)?;
    mark_answered(alloc, others, answered, marks)?;
    mark_complete(alloc, others, marks)
}

fn mark_each(
    alloc: Global,
    others: &[Decl],
    interests: &[Interest],
    marks: &mut BTreeMap<Place, Mark>,
) -> Result<(), AllocError>
    ensures { OnOk result (marks.new.entries ≡ fold (mark_wanted others.now) marks.old.entries interests.now) }
{
    for interest in interests {
        mark_wanted(alloc, others, interest, marks)?;
    }
    Ok(())
}

fn mark_wanted(
    alloc: Global,
    others: &[Decl],
    interest: &Interest,
    marks: &mut BTreeMap<Place, Mark>,
) -> Result<(), AllocError>
    ensures { OnOk result (marks.new.entries ≡ mark_wanted others.now marks.old.entries interest.now) }
{
    for decl in others {
        mark_if_wanted(alloc, decl, interest, marks)?;
    }
    Ok(())
}

fn mark_if_wanted(
    alloc: Global,
    decl: &Decl,
    interest: &Interest,
    marks: &mut BTreeMap<Place, Mark>,
) -> Result<(), AllocError>
    ensures { OnOk result (marks.new.entries ≡ (if fits interest.now (place_of decl.now) then put_mark is_wanted marks.old.entries (told_as interest.now (place_of decl.now)) else marks.old.entries)) }
{
    let class = class_of(decl.kind);
    if !fits(interest, class, &decl.key) {
        return Ok(());
    }
    let place = told_as(alloc, interest, class, &decl.key)?;
    put(place, WANTED, marks)
}

const WANTED: Mark = Mark {
    wanted: true,
    complete: false,
    again: false,
};

fn mark_answered(
    alloc: Global,
    others: &[Decl],
    answered: Option<&Interest>,
    marks: &mut BTreeMap<Place, Mark>,
) -> Result<(), AllocError>
    ensures { OnOk result (marks.new.entries ≡ mark_answered others.now marks.old.entries (option_copied answered.entry)) }
{
    match answered {
        Some(interest) => mark_again(alloc, others, interest, marks),
        None => Ok(()),
    }
}

fn mark_again(
    alloc: Global,
    others: &[Decl],
    interest: &Interest,
    marks: &mut BTreeMap<Place, Mark>,
) -> Result<(), AllocError>
    ensures { OnOk result (marks.new.entries ≡ mark_again others.now marks.old.entries interest.now) }
{
    for decl in others {
        mark_if_again(alloc, decl, interest, marks)?;
    }
    Ok(())
}

fn mark_if_again(
    alloc: Global,
    decl: &Decl,
    interest: &Interest,
    marks: &mut BTreeMap<Place, Mark>,
) -> Result<(), AllocError>
    ensures { OnOk result (marks.new.entries ≡ (if fits interest.now (place_of decl.now) then updated with_again marks.old.entries (told_as interest.now (place_of decl.now)) else marks.old.entries)) }
{
    let class = class_of(decl.kind);
    if !fits(interest, class, &decl.key) {
        return Ok(());
    }
    let place = told_as(alloc, interest, class, &decl.key)?;
    put_again(place, marks)
}

fn put_again(place: Place, marks: &mut BTreeMap<Place, Mark>) -> Result<(), AllocError>
    ensures { OnOk result (marks.new.entries ≡ updated with_again marks.old.entries place) }
{
    match marks.get(&place).copied() {
        Some(mark) => put(
            place,
            Mark {
                again: true,
                ..mark
            },
            marks,
        ),
        None => Ok(()),
    }
}

fn mark_complete(
    alloc: Global,
    others: &[Decl],
    marks: &mut BTreeMap<Place, Mark>,
) -> Result<(), AllocError>
    ensures { OnOk result (marks.new.entries ≡ mark_complete others.now marks.old.entries) }
{
    for decl in others {
        if is_complete(decl.kind) {
            put_complete(place_of(alloc, decl)?, marks)?;
        }
    }
    Ok(())
}

fn put_complete(place: Place, marks: &mut BTreeMap<Place, Mark>) -> Result<(), AllocError>
    ensures { OnOk result (marks.new.entries ≡ updated with_complete marks.old.entries place) }
{
    match marks.get(&place).copied() {
        Some(mark) => put(
            place,
            Mark {
                complete: true,
                ..mark
            },
            marks,
        ),
        None => Ok(()),
    }
}

/// What one interest wants of what others declare, each place with its completeness.
pub fn wanted_places(
    alloc: Global,
    others: &[Decl],
    interest: &Interest,
) -> Result<Vec<(Place, bool)>, AllocError>
    ensures { IfOk result (λ ws. ws.items ≡ wanted others.now (interest.now ∷ [])) }
{
    let mut marks = BTreeMap::new(alloc);
    mark_wanted(alloc, others, interest, &mut marks)?;
    mark_complete(alloc, others, &mut marks)?;
    Book::new(alloc).fresh(alloc, &marks)
}
