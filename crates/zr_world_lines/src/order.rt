//! Lines in the order of their bytes.

ghost use Rattle.std.specs.Prelude.{◌≡◌, ◌++◌, IfOk, map};
ghost use Rattle.zr_orders.specs.Ranked.{ranked};

use crate::lines::Lines;
use std::alloc::{AllocError, Global};

/// The lines of all three, in the order of their bytes.
pub fn in_order(
    alloc: Global,
    handled: &Lines,
    taken: &Lines,
    sent: &Lines,
) -> Result<Lines, AllocError>
    ensures { IfOk result (λ v. v ≡ ranked (handled.now ++ (taken.now ++ sent.now))) }
{
    let count = handled
        .len()
        .saturating_add(taken.len())
        .saturating_add(sent.len());
    let all = Vec::with_capacity(alloc, count)?;
    let all = handled.list(all)?;
    let all = taken.list(all)?;
    let all = sent.list(all)?;
    let all = sorted(all)?;
    Lines::gather(alloc, &all)
}

// Lines in the order of their bytes.
#[tactic(auto, using(crate::proofs::Orders::sorted_ranked))]
fn sorted(lines: Vec<&[u8]>) -> Result<Vec<&[u8]>, AllocError>
    ensures { IfOk result (λ v. map (λ l. l.now) v.items ≡ ranked (map (λ l. l.now) lines.entry.items)) }
{
    let mut lines = lines;
    lines.sort()?;
    Ok(lines)
}
