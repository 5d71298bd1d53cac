//! What all rounds of a fan tell.

ghost use Rattle.std.specs.Prelude.{◌≡◌, ◌≤◌, ◌+◌, IfOk};
ghost use Rattle.std.specs.List.{AllByRecursion, concat, flat_map};
ghost use Rattle.zr_orders.specs.Ranked.{ranked};
ghost use Rattle.zr_world_spec.specs.Fan.{most_fan_steps};
ghost use Rattle.zr_law_rounds.specs.Told.{IsTold, Stay, kinds_in, steps_in, told_of};

use std::alloc::{AllocError, Global};
use std::thread::Threads;
use zr_bytes::ByteString;
use zr_law_rounds::turn_tells;
use zr_script_spec::report::{FanSteps, ReportLine};
use zr_world_gang::gang::Gang;
use zr_world_gang::share::{Share, Turn};

/// How many steps a fan has at most.
const MOST_FAN_STEPS: u64 = 2_300_000;

/// The line that tells what all shares have done, which are told then. Out of memory too where that is more than a fan can do.
pub fn told<R: Threads + Sync, G: Gang>(
    rt: &R,
    alloc: Global,
    gang: &mut G,
    shares: Vec<Share>,
) -> Result<(ReportLine, Vec<Share>), AllocError>
    ensures line { IfOk result (λ x. x.0 ≡ told_of shares.items) }
    ensures few { IfOk result (λ x. steps_in shares.items ≤ most_fan_steps) }
    ensures stay { IfOk result (λ x. Stay shares.items x.1.items) }
{
    // A law: it does nothing, and brings its clause.
    turn_tells();
    let kinds = kinds_in(&shares)?;
    let steps = sum(kinds.handled, sum(kinds.taken, kinds.sent)?)?;
    if steps > MOST_FAN_STEPS {
        return Err(AllocError);
    }
    let shares = gang.round(rt, alloc, Turn::Tell, shares)?;
    let lines = lines_of(alloc, &shares)?;
    let line = ReportLine::Fanned {
        lines: ByteString::new(lines),
        steps,
        kinds,
    };
    Ok((line, shares))
}

// The text of shares that are told. Out of memory too where the lines of one don't stand behind those of the one before; but a line begins with its router.
fn lines_of(alloc: Global, shares: &[Share]) -> Result<Vec<u8>, AllocError>
    ensures { IfOk result (λ t. AllByRecursion (λ s. IsTold s) shares.now → t.items ≡ concat (ranked (flat_map (λ s. s.lines) shares.now))) }
{
    let mut text = Vec::with_capacity(alloc, bytes_in(shares))?;
    let mut last: &[u8] = &[];
    for share in shares {
        if !share.is_behind(last) {
            return Err(AllocError);
        }
        text.extend_from_slice(share.text())?;
        last = share.last_line(last);
    }
    Ok(text)
}

// How many bytes the text of shares that are told has, or at least as many as there can be.
fn bytes_in(shares: &[Share]) -> usize {
    let mut sum: usize = 0;
    for share in shares {
        sum = sum.saturating_add(share.text().len());
    }
    sum
}

// How many lines of each kind there are.
fn kinds_in(shares: &[Share]) -> Result<FanSteps, AllocError>
    ensures { IfOk result (λ k. k ≡ kinds_in shares.now) }
{
    let mut kinds = FanSteps {
        handled: 0,
        taken: 0,
        sent: 0,
    };
    for share in shares {
        let more = share.steps();
        kinds.handled = sum(kinds.handled, more.handled)?;
        kinds.taken = sum(kinds.taken, more.taken)?;
        kinds.sent = sum(kinds.sent, more.sent)?;
    }
    Ok(kinds)
}

// A count that goes beyond 64 bits is one that no memory holds.
fn sum(one: u64, other: u64) -> Result<u64, AllocError>
    ensures { IfOk result (λ n. n ≡ one + other) }
{
    one.checked_add(other).ok_or(AllocError)
}
