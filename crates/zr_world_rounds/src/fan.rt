//! A fan from its beginning to its end.

ghost use Rattle.std.specs.Prelude.{◌≡◌, ◌∷◌, [], ℕ, Ok, IfOk};
ghost use Rattle.zr_law_fan.specs.Samples.{quieted};
ghost use Rattle.zr_law_rounds.specs.Told.{MayFan, Stay};
ghost use Rattle.zr_world_spec.specs.Next.{fan_done};
ghost use Rattle.zr_world_spec.specs.World.{WorldState};

use crate::begin::begin_all;
use crate::rounds::all_rounds;
use crate::told::told;
use std::alloc::{AllocError, Global};
use std::thread::Threads;
use zr_law_rounds::rounds_tell;
use zr_script_spec::report::ReportLine;
use zr_world_ends::drained::NamedDrained;
use zr_world_gang::gang::Gang;
use zr_world_gang::share::Share;

/// All samples that wait at the ends of a world go to theirs, through the new shares of all its routers, and a line tells it.
pub fn fan<R: Threads + Sync, G: Gang>(
    rt: &R,
    alloc: Global,
    gang: &mut G,
    shares: Vec<Share>,
    ends: Vec<NamedDrained>,
) -> Result<(ReportLine, Vec<Share>), AllocError>
    ensures done { IfOk result (λ x. (w : WorldState) → MayFan w shares.items → ends.items ≡ w.ends → (line : ℕ) → fan_done line w ≡ Ok (x.0 ∷ [], quieted w)) }
    ensures stay { IfOk result (λ x. (w : WorldState) → MayFan w shares.items → ends.items ≡ w.ends → Stay shares.items x.1.items) }
{
    // A law: it does nothing, and brings its clause.
    rounds_tell();
    let mut shares = shares;
    begin_all(&mut shares, ends)?;
    let shares = all_rounds(rt, alloc, gang, shares)?;
    told(rt, alloc, gang, shares)
}
