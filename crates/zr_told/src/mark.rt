//! `Mark`: what is to be looked at of what a client was told.

ghost use Rattle.std.specs.Prelude.{◌≡◌, OnOk};
ghost use Rattle.zr_told.specs.Plan.{put_mark};

use std::alloc::{AllocError, Global};
use std::collections::BTreeMap;
use zr_told_spec::place::Place;

/// Of a place that an event may have touched: whether it is wanted, whether as complete, and whether it is told even if it was told so.
#[derive(Clone, Copy)]
pub struct Mark {
    pub wanted: bool,
    pub complete: bool,
    pub again: bool,
}

/// A copy of a place is marked.
pub fn put_copy(
    alloc: Global,
    place: &Place,
    mark: Mark,
    marks: &mut BTreeMap<Place, Mark>,
) -> Result<(), AllocError>
    ensures { OnOk result (marks.new.entries ≡ put_mark mark marks.old.entries place.now) }
{
    put(place.copy(alloc)?, mark, marks)
}

/// A place is marked.
pub fn put(place: Place, mark: Mark, marks: &mut BTreeMap<Place, Mark>) -> Result<(), AllocError>
    ensures { OnOk result (marks.new.entries ≡ put_mark mark marks.old.entries place) }
{
    marks.insert(place, mark)?;
    Ok(())
}
