//! Whether links are in place, and whether the world is settled.

ghost use Rattle.std.specs.Prelude.{◌≡◌, length};
ghost use Rattle.zr_world_spec.specs.World.{is_unbroken};

use crate::tables::WorldTables;
use zr_carrier::carrier::Carrier;
use zr_id::zid::Zid;
use zr_world_ends::end::WorldEnd;
use zr_world_ends::ends::Ends;

impl<C: Carrier> WorldTables<C> {
    ghost use Rattle.std.specs.Prelude.{◌&&◌};
    ghost use Rattle.std.specs.List.{list_all};
    ghost use Rattle.zr_world_spec.specs.World.{is_up, is_linked, is_in_place, is_first_end, links_in_place, is_settled};
    ghost use Rattle.zr_world_ends.specs.Kept.{is_calm_end};
    ghost use Rattle.zr_world.specs.Settled.{is_kept_met};
    ghost use Rattle.zr_world.specs.State.{state_of};

    /// Whether the router's end to the neighbour is up.
    pub fn is_up(&self, router: Zid, neighbour: Zid) -> bool
        ensures { result ≡ is_up (state_of self.now).ends (router, neighbour) }
    {
        match self.ends.get((router, neighbour)) {
            Some(end) => end.is_up(),
            None => false,
        }
    }

    /// Whether a link between routers is up at both ends.
    pub fn is_linked(&self, one: Zid, other: Zid) -> bool
        ensures { result ≡ is_linked (state_of self.now).ends one other }
    {
        self.is_up(one, other) && self.is_up(other, one)
    }

    /// Whether a link is in place: it is unbroken, or a router's end is up.
    pub fn is_in_place(&self, one: Zid, other: Zid) -> bool
        ensures { result ≡ is_in_place (state_of self.now).ends (one, other) }
    {
        is_unbroken(&self.ends, (one, other)) || self.is_up(one, other) || self.is_up(other, one)
    }

    /// How many links between routers are in place.
    pub fn links_in_place(&self) -> usize
        ensures { result ≡ length (links_in_place (state_of self.now)) }
    {
        self.ends
            .list()
            .iter()
            .filter(|(at, _)| self.is_counted(at))
            .count()
    }

    fn is_counted(&self, at: &(Zid, Zid)) -> bool
        ensures { result ≡ (is_first_end (state_of self.now).routers at.now && is_in_place (state_of self.now).ends at.now) }
    {
        self.is_router(&at.1) && at.0 < at.1 && self.is_in_place(at.0, at.1)
    }

    /// Whether no link between routers is up at one end only, no broken link has a router's end up, and nothing under way unsettles.
    pub fn is_settled(&self) -> bool
        ensures { result ≡ is_settled (state_of self.now) }
    {
        self.are_settled(self.ends.list())
    }

    fn are_settled(&self, ends: &[((Zid, Zid), WorldEnd)]) -> bool
        ensures { result ≡ list_all (λ x. is_kept_met (state_of self.now) x.0 x.1 && is_calm_end x.1) ends.now }
    {
        ends.iter()
            .all(|(at, end)| self.is_met(at, end) && end.is_calm())
    }

    fn is_met(&self, at: &(Zid, Zid), end: &WorldEnd) -> bool
        ensures { result ≡ is_kept_met (state_of self.now) at.now end.now }
    {
        !end.is_up() || (end.is_unbroken() && (!self.is_router(&at.1) || self.is_up(at.1, at.0)))
    }
}

/// Whether the link of an end is unbroken, where the end is there.
pub(crate) fn is_unbroken<C: Carrier>(ends: &Ends<C>, at: (Zid, Zid)) -> bool
    ensures { result ≡ is_unbroken ends.now at }
{
    match ends.get(at) {
        Some(end) => end.is_unbroken(),
        None => false,
    }
}
