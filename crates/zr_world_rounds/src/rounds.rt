//! All rounds of a fan.

ghost use Rattle.std.specs.Prelude.{◌≡◌, ◌==◌, ◌&&◌, [], true, IfOk, length};
ghost use Rattle.std.specs.List.{AllByRecursion};
ghost use Rattle.zr_world_spec.specs.World.{WorldState};
ghost use Rattle.zr_world_gang.specs.Shares.{MayBeHandled};
ghost use Rattle.zr_law_rounds.specs.Rounds.{waits};
ghost use Rattle.zr_law_rounds.specs.Told.{AreUnderWay, Stay};

use crate::pass::pass_on;
use std::alloc::{AllocError, Global};
use std::thread::Threads;
use zr_law_rounds::{pass_goes, round_goes};
use zr_world_gang::gang::Gang;
use zr_world_gang::share::{Share, Turn};

/// How many rounds a fan has at most: in each a sample is handled, and a fan has no more steps than this.
const MOST_ROUNDS: u64 = 2_300_000;

/// Round by round the gang handles what waits, until nothing does.
pub fn all_rounds<R: Threads + Sync, G: Gang>(
    rt: &R,
    alloc: Global,
    gang: &mut G,
    shares: Vec<Share>,
) -> Result<Vec<Share>, AllocError>
    ensures gone { IfOk result (λ v. (w : WorldState) → AreUnderWay w shares.items → AreUnderWay w v.items × Stay shares.items v.items) }
    ensures idle { IfOk result (λ v. waits v.items ≡ []) }
{
    // Laws: each does nothing, and brings its clause.
    pass_goes();
    round_goes();
    let mut shares = shares;
    for _ in 0..MOST_ROUNDS {
        pass_on(alloc, &mut shares)?;
        if are_idle(&shares) {
            return Ok(shares);
        }
        shares = gang.round(rt, alloc, Turn::Handle, shares)?;
    }
    Err(AllocError)
}

// Whether nothing waits at any.
fn are_idle(shares: &[Share]) -> bool
    ensures idle { result ≡ true → waits shares.now ≡ [] }
    ensures may { AllByRecursion (λ s. MayBeHandled s.hub s.input) shares.now }
{
    let mut idle = true;
    for share in shares {
        idle = is_idle_too(share, idle);
    }
    idle
}

// Whether nothing waits at a share either.
fn is_idle_too(share: &Share, idle: bool) -> bool
    ensures idle { result ≡ true → (idle ≡ true) × ((length share.now.input == 0 && length share.now.output == 0) ≡ true) }
    ensures may { MayBeHandled share.now.hub share.now.input }
{
    share.is_idle() && idle
}
