//! How many edges of a tree lead to each router from the root.

ghost use Rattle.std.specs.Prelude.{◌≡◌, ◌<◌, ◌^◌, ℕ, suc, IfOk, IfSome, length, All};
ghost use Rattle.zr_tree_parents.specs.Climb.{AreIndexes};
ghost use Rattle.zr_tree_parents.specs.Depth.{depth_below, AreBehind, AreDepths};
ghost use Rattle.zr_tree_parents.specs.Distance.{kept_at};

use std::alloc::{AllocError, Global};

/// The depth of each router in the order, in which it stands behind its parent. The others have none.
pub fn depths_of(
    alloc: Global,
    order: &[usize],
    parents: &[usize],
) -> Result<Vec<Option<u32>>, AllocError>
    requires few { length order.now < 2 ^ 32 }
    requires order { All (λ x. x < length parents.now) order.now }
    requires parents { AreIndexes parents.now }
    requires behind { AreBehind parents.now order.now }
    ensures { IfOk result (λ v. AreDepths parents.now order.now v.items) }
{
    let mut depths = vec![in alloc; None; parents.len()]?;
    for x in order {
        depths[*x] = depth_below(parents, &depths, *x);
    }
    Ok(depths)
}

fn depth_below(parents: &[usize], depths: &[Option<u32>], x: usize) -> Option<u32>
    requires parents { AreIndexes parents.now }
    requires x { x < length parents.now }
    requires long { length depths.now ≡ length parents.now }
    requires small { (y : ℕ) → IfSome (kept_at depths.now y) (λ n. suc n < 2 ^ 32) }
    ensures { result ≡ depth_below parents.now depths.now x }
{
    let parent = parents[x];
    if parent == x {
        return Some(0);
    }
    match depths[parent] {
        Some(depth) => Some(depth + 1),
        None => None,
    }
}
