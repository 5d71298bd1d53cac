//! Jumps: for each router one at or above its parent, by which a way up is shortened.

ghost use Rattle.std.specs.Prelude.{◌≡◌, ◌<◌, ◌⊎◌, IfOk, length, All};
ghost use Rattle.zr_tree_parents.specs.Climb.{at, AreIndexes, AreJumps};

use std::alloc::{AllocError, Global};

/// For each router one at or above its parent. The longer the way up, the farther the jumps go, so that
/// a way of n steps takes about twice the logarithm of n. The order has the nearer routers first.
pub fn jumps_of(
    alloc: Global,
    depths: &[Option<u32>],
    order: &[usize],
    parents: &[usize],
) -> Result<Vec<usize>, AllocError>
    requires long { length depths.now ≡ length parents.now }
    requires order { All (λ x. x < length parents.now) order.now }
    requires parents { AreIndexes parents.now }
    ensures { IfOk result (λ v. AreJumps parents.now v.items) }
{
    let mut jumps = parents.to_vec(alloc)?;
    for x in order {
        jumps[*x] = jump_over(depths, &jumps, parents[*x]);
    }
    Ok(jumps)
}

// The jump of a router by those of its parent: over both, where they are of one length.
fn jump_over(depths: &[Option<u32>], jumps: &[usize], parent: usize) -> usize
    requires long { length depths.now ≡ length jumps.now }
    requires jumps { AreIndexes jumps.now }
    requires parent { parent < length jumps.now }
    ensures { (result ≡ parent) ⊎ (result ≡ at jumps.now (at jumps.now parent)) }
{
    let near = jumps[parent];
    let far = jumps[near];
    match (depths[parent], depths[near], depths[far]) {
        (Some(a), Some(b), Some(c)) if a.abs_diff(b) == b.abs_diff(c) => far,
        _ => parent,
    }
}
