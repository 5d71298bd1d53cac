//! Marks on the places that changed declarations may touch.

ghost use Rattle.std.specs.Prelude.{◌≡◌, IfOk, OnOk};
ghost use Rattle.std.specs.List.{fold, list_any};
ghost use Rattle.std.specs.Option.{option_copied};
ghost use Rattle.std.specs.Ordering.{nat_cmp};
ghost use Rattle.zr_lists.specs.Ascending.{at_key};
ghost use Rattle.zr_lists.specs.Place.{IsPlace};
ghost use Rattle.zr_local.specs.Clients.{AreByLink, client_link};
ghost use Rattle.zr_told.specs.Touched.{touched_on};
ghost use Rattle.zr_told.specs.Plan.{mark_at, mark_here, mark_fitting, marks_at};
ghost use Rattle.zr_told_spec.specs.Rows.{is_touched, others};
ghost use Rattle.zr_told_spec.specs.Wanted.{fits};

use crate::interest::{fits, told_as};
use crate::mark::{Mark, put};
use crate::search::{is_complete_at, is_wanted};
use std::alloc::{AllocError, Global};
use std::collections::BTreeMap;
use zr_local::interest::{ClientInterests, Interest};
use zr_node_spec::tables::TablesView;
use zr_told_spec::place::Place;

/// The client of a link, if it has an interest that fits one of these places.
pub fn touched_on<'a>(
    places: &[Place],
    clients: &'a [ClientInterests],
    link: u32,
) -> Option<&'a ClientInterests>
    requires { AreByLink clients.now }
    ensures { option_copied result ≡ touched_on places.now clients.now link }
{
    let client = client_on(clients, link)?;
    if is_touched(places, client.interests.as_slice()) {
        Some(client)
    } else {
        None
    }
}

// The client of a link, if it has interests.
fn client_on(clients: &[ClientInterests], link: u32) -> Option<&ClientInterests>
    requires { AreByLink clients.now }
    ensures { option_copied result ≡ at_key nat_cmp client_link clients.now link }
{
    match place_on(clients, link) {
        Ok(at) => Some(&clients[at]),
        Err(_) => None,
    }
}

fn place_on(clients: &[ClientInterests], link: u32) -> Result<usize, usize>
    requires { AreByLink clients.now }
    ensures { IsPlace nat_cmp client_link clients.now link result }
{
    clients.binary_search_by_key(&link, |client| client.link.0)
}

// Whether a client has an interest that fits one of these places.
fn is_touched(places: &[Place], interests: &[Interest]) -> bool
    ensures { result ≡ is_touched places.now interests.now }
{
    for place in places {
        if one_fits(place, interests) {
            return true;
        }
    }
    false
}

fn one_fits(place: &Place, interests: &[Interest]) -> bool
    ensures { result ≡ list_any (λ i. fits i place.now) interests.now }
{
    for interest in interests {
        if fits(interest, place.class, &place.key) {
            return true;
        }
    }
    false
}

/// The marks on the places that changed declarations touch: those places that an interest fits, and where it is told of them.
pub fn marks_at(
    alloc: Global,
    tables: &TablesView,
    client: &ClientInterests,
    places: &[Place],
) -> Result<BTreeMap<Place, Mark>, AllocError>
    ensures { IfOk result (λ ms. ms.entries ≡ marks_at (others tables.now client.now.link.0) client.now.interests places.now) }
{
    let mut marks = BTreeMap::new(alloc);
    for place in places {
        mark_touched(alloc, tables, client, place, &mut marks)?;
    }
    Ok(marks)
}

fn mark_touched(
    alloc: Global,
    tables: &TablesView,
    client: &ClientInterests,
    place: &Place,
    marks: &mut BTreeMap<Place, Mark>,
) -> Result<(), AllocError>
    ensures { OnOk result (marks.new.entries ≡ fold (mark_fitting (others tables.now client.now.link.0) client.now.interests place.now) marks.old.entries client.now.interests) }
{
    let interests = client.interests.as_slice();
    for interest in interests {
        mark_fitting(alloc, tables, client, place, interest, marks)?;
    }
    Ok(())
}

fn mark_fitting(
    alloc: Global,
    tables: &TablesView,
    client: &ClientInterests,
    place: &Place,
    interest: &Interest,
    marks: &mut BTreeMap<Place, Mark>,
) -> Result<(), AllocError>
    ensures { OnOk result (marks.new.entries ≡ mark_fitting (others tables.now client.now.link.0) client.now.interests place.now marks.old.entries interest.now) }
{
    if !fits(interest, place.class, &place.key) {
        return Ok(());
    }
    mark_changed(alloc, tables, client, place, marks)?;
    let told = told_as(alloc, interest, place.class, &place.key)?;
    mark_here(tables, client, told, marks)
}

fn mark_changed(
    alloc: Global,
    tables: &TablesView,
    client: &ClientInterests,
    place: &Place,
    marks: &mut BTreeMap<Place, Mark>,
) -> Result<(), AllocError>
    ensures { OnOk result (marks.new.entries ≡ mark_here (others tables.now client.now.link.0) client.now.interests marks.old.entries place.now) }
{
    mark_here(tables, client, place.copy(alloc)?, marks)
}

fn mark_here(
    tables: &TablesView,
    client: &ClientInterests,
    place: Place,
    marks: &mut BTreeMap<Place, Mark>,
) -> Result<(), AllocError>
    ensures { OnOk result (marks.new.entries ≡ mark_here (others tables.now client.now.link.0) client.now.interests marks.old.entries place) }
{
    if marks.contains_key(&place) {
        return Ok(());
    }
    let mark = mark_at(tables, client, &place);
    put(place, mark, marks)
}

fn mark_at(tables: &TablesView, client: &ClientInterests, place: &Place) -> Mark
    ensures { result ≡ mark_at (others tables.now client.now.link.0) client.now.interests place.now }
{
    Mark {
        wanted: is_wanted(tables, client, place),
        complete: is_complete_at(tables, client.link, place),
        again: false,
    }
}
