//! Ends in order, by router and then by neighbour: the place of one.

ghost use Rattle.std.specs.Prelude.{◌≡◌, None, IfSome, IfNone};
ghost use Rattle.std.specs.List.Sorted.{IsStrictlySortedBy};
ghost use Rattle.std.specs.Map.{keys_of};
ghost use Rattle.zr_lists.specs.Place.{IsPlace};
ghost use Rattle.zr_world_spec.specs.World.{end_cmp};
ghost use Rattle.zr_world_ends.specs.Index.{IsThere};
ghost use Rattle.zr_world_ends.specs.Named.{at_end};

use crate::end::WorldEnd;
use zr_id::zid::Zid;

/// An end with its router and its neighbour.
pub type NamedEnd = ((Zid, Zid), WorldEnd);

/// The place of an end, or the place where it would stand.
pub fn place_of(ends: &[NamedEnd], at: &(Zid, Zid)) -> Result<usize, usize>
    requires { IsStrictlySortedBy end_cmp (keys_of ends.now) }
    ensures { IsPlace end_cmp (λ e. e.0) ends.now at.now result }
{
    ends.binary_search_by(|e| e.0.cmp(at))
}

/// The place of an end, if it is there.
pub fn find(ends: &[NamedEnd], at: &(Zid, Zid)) -> Option<usize>
    requires { IsStrictlySortedBy end_cmp (keys_of ends.now) }
    ensures there { IfSome result (IsThere ends.now at.now) }
    ensures none { IfNone result (at_end ends.now at.now ≡ None) }
{
    place_of(ends, at).ok()
}
