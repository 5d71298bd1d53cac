//! What one client is to be told, by marks on all places or on those that changed.

ghost use Rattle.std.specs.Prelude.{◌≡◌, ◌+◌, ◌≤◌, ℕ, nat_lt, length, true, false, Some, IfOk, OnOk, Err};
ghost use Rattle.std.specs.Option.{option_copied};
ghost use Rattle.zr_told_spec.specs.Place.{Ascends};
ghost use Rattle.zr_told.specs.Plan.{IsPlan, count_new, is_answered, marked_gone, marked_fresh};
ghost use Rattle.zr_told_spec.specs.Rows.{IsAsWantedBut, most_id, lacks_ids, others};
ghost use Rattle.zr_told_spec.specs.Told.{at};
ghost use Rattle.zr_told_spec.specs.Wanted.{wanted};
ghost use Rattle.zr_told_spec.specs.declared.entry.Entry.{Entry};
ghost use Rattle.zr_told_spec.specs.declared.place.Place.{Place};

use crate::book::{Book, Plan};
use crate::error::ToldError;
use crate::mark::Mark;
use crate::marks::marks_of;
use crate::touched::marks_at;
use std::alloc::Global;
use std::collections::BTreeMap;
use zr_id::link::LinkNo;
use zr_local::interest::{ClientInterests, Interest};
use zr_msg::decl::Decl;
use zr_node_spec::tables::TablesView;
use zr_told_spec::place::Place;

/// What the client of a link is to be told.
#[derive(Drop)]
pub struct LinkPlan {
    pub link: LinkNo,
    pub plan: Plan,
}

/// What a client is to be told where this is what others declare. Of one of its interests it may be told all.
pub fn plan_of(
    alloc: Global,
    book: &Book,
    others: &[Decl],
    interests: &[Interest],
    answered: Option<&Interest>,
) -> Result<Plan, ToldError>
    ensures plan { IfOk result (λ p. IsPlan (is_answered others.now (option_copied answered.entry)) (wanted others.now interests.now) book.now p) }
    ensures ids { OnOk result (lacks_ids others.now interests.now ≡ false) }
    ensures worn { result ≡ Err ToldError.Worn → lacks_ids others.now interests.now ≡ true }
{
    let marks = marks_of(alloc, book, others, interests, answered)?;
    plan_by(alloc, book, &marks)
}

/// What a client is to be told where declarations changed at some places. All declarations are those after the change.
pub fn plan_at(
    alloc: Global,
    book: &Book,
    tables: &TablesView,
    client: &ClientInterests,
    places: &[Place],
) -> Result<Plan, ToldError>
    requires { IsAsWantedBut places.now (others tables.now client.now.link.0) client.now.interests book.now }
    ensures plan { IfOk result (λ p. IsPlan (λ q. false) (wanted (others tables.now client.now.link.0) client.now.interests) book.now p) }
    ensures ids { OnOk result (lacks_ids (others tables.now client.now.link.0) client.now.interests ≡ false) }
    ensures worn { result ≡ Err ToldError.Worn → lacks_ids (others tables.now client.now.link.0) client.now.interests ≡ true }
{
    let marks = marks_at(alloc, tables, client, places)?;
    plan_by(alloc, book, &marks)
}

// What marks come to, where ids last.
fn plan_by(alloc: Global, book: &Book, marks: &BTreeMap<Place, Mark>) -> Result<Plan, ToldError>
    ensures gone { IfOk result (λ p. p.gone.items ≡ marked_gone book.now marks.now.entries) }
    ensures fresh { IfOk result (λ p. p.fresh.items ≡ marked_fresh book.now marks.now.entries) }
    ensures small { IfOk result (λ _. (p : Place) → (e : Entry) → at book.now p ≡ Some e → e.id ≤ most_id) }
    ensures ids { OnOk result (nat_lt (most_id + length (marked_gone book.now marks.now.entries)) (length book.now + count_new book.now (marked_fresh book.now marks.now.entries)) ≡ false) }
    ensures worn { result ≡ Err ToldError.Worn → nat_lt (most_id + length (marked_gone book.now marks.now.entries)) (length book.now + count_new book.now (marked_fresh book.now marks.now.entries)) ≡ true }
    ensures ascends { Ascends book.now }
    ensures marks_ascend { Ascends marks.now.entries }
{
    let plan = book.plan(alloc, marks)?;
    if book.lacks_ids(&plan)? {
        return Err(ToldError::Worn);
    }
    Ok(plan)
}
