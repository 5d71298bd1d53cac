//! What waits at ends begins at the shares of their routers.

ghost use Rattle.std.specs.Prelude.{◌≡◌, ◌&&◌, OnOk, map, not};
ghost use Rattle.std.specs.List.{list_any};
ghost use Rattle.zr_id.specs.Zid.{is_named};
ghost use Rattle.zr_law_fan.specs.Samples.{Handling};
ghost use Rattle.zr_law_rounds.specs.Told.{AreUnderWay, HasBegun, HaveCome, MayFan, Stay, nothing, went, went_weighs};
ghost use Rattle.zr_world_spec.specs.World.{WorldState, is_idle};

use crate::receive::{receive, send};
use std::alloc::AllocError;
use std::collections::VecDeque;
use zr_id::zid::Zid;
use zr_law_rounds::{all_have_begun, end_goes, start_goes};
use zr_world_ends::drained::{Drained, NamedDrained};
use zr_world_ends::end::Tagged;
use zr_world_gang::share::Share;

/// What waits at the ends of a world begins: what is on a wire is to be handled, and what is queued has been taken. Out of memory too where something waits at
/// an end that is not up; no script comes to such a world.
pub fn begin_all(shares: &mut [Share], ends: Vec<NamedDrained>) -> Result<(), AllocError>
    ensures gone { OnOk result ((w : WorldState) → MayFan w shares.old → ends.items ≡ w.ends → AreUnderWay w shares.new) }
    ensures stay { OnOk result (Stay shares.old shares.new) }
{
    // Laws: each does nothing, and brings its clause.
    start_goes();
    end_goes();
    all_have_begun();
    for ((router, neighbour), end) in ends {
        begin(shares, router, neighbour, end)?;
    }
    Ok(())
}

fn begin(shares: &mut [Share], router: Zid, neighbour: Zid, end: Drained) -> Result<(), AllocError>
    ensures { OnOk result (HasBegun (router, neighbour) end shares.old shares.new) }
{
    if is_stuck(&end) {
        return Err(AllocError);
    }
    let is_router = is_among(shares, &neighbour);
    let (wire, queue) = end.into_waiting();
    receive_all(shares, router, neighbour, wire)?;
    send_all(shares, router, neighbour, is_router, queue)
}

// Whether something waits at an end that is not up.
fn is_stuck(end: &Drained) -> bool
    ensures { result ≡ (not end.now.up && not (is_idle end.now)) }
{
    !end.is_up() && !end.is_idle()
}

// Whether a router has the name.
fn is_among(shares: &[Share], name: &Zid) -> bool
    ensures { result ≡ list_any (λ s. is_named name.now s.name) shares.now }
{
    shares.iter().any(|share| *name == share.name())
}

// What came from a neighbour is to be handled.
fn receive_all(
    shares: &mut [Share],
    router: Zid,
    neighbour: Zid,
    wire: VecDeque<Tagged>,
) -> Result<(), AllocError>
    ensures { OnOk result (HaveCome (map (λ m. Handling (router, neighbour) m) wire.items) nothing shares.old shares.new) }
{
    for x in wire {
        receive(shares, router, neighbour, x.msg, x.tag)?;
    }
    Ok(())
}

// What was queued for a neighbour has been taken.
fn send_all(
    shares: &mut [Share],
    router: Zid,
    neighbour: Zid,
    is_router: bool,
    queue: VecDeque<Tagged>,
) -> Result<(), AllocError>
    ensures { OnOk result (HaveCome (went is_router (router, neighbour) queue.items) (went_weighs is_router (router, neighbour) queue.items) shares.old shares.new) }
{
    for x in queue {
        send(shares, router, neighbour, is_router, x.msg, x.tag)?;
    }
    Ok(())
}
