//! Parents: of each router's neighbours the first that is nearer to the root by the edge to it.

ghost use Rattle.std.specs.Prelude.{◌≡◌, ◌<◌, ℕ, IfOk, length, map, All};
ghost use Rattle.std.specs.List.{find, range_with_len};
ghost use Rattle.std.specs.Option.{option_map_or};
ghost use Rattle.zr_tree_parents.specs.Climb.{nearer, row};
ghost use Rattle.zr_tree_parents.specs.Distance.{is_sum, kept_at};

use crate::row::{Neighbour, Row};
use std::alloc::{AllocError, Global};

/// Each router's parent by index, or its own where it has none.
pub fn parents_of(
    alloc: Global,
    rows: &[Row],
    distances: &[Option<u64>],
) -> Result<Vec<usize>, AllocError>
    requires long { length distances.now ≡ length rows.now }
    requires within { (x : ℕ) → x < length rows.now → All (λ n. n.index < length rows.now) (row rows.now x) }
    ensures { IfOk result (λ v. v.items ≡ map (nearer rows.now distances.now) (range_with_len 0 (length rows.now))) }
{
    let mut parents = Vec::with_capacity(alloc, rows.len())?;
    for x in 0..rows.len() {
        let neighbours = rows[x].neighbours();
        parents.push(nearer_of(neighbours, distances, x))?;
    }
    Ok(parents)
}

// The index of the first of these neighbours that is nearer than router x by the edge to it, or x where there is none.
fn nearer_of(neighbours: &[Neighbour], distances: &[Option<u64>], x: usize) -> usize
    requires within { All (λ n. n.index < length distances.now) neighbours.now }
    requires x { x < length distances.now }
    ensures { result ≡ option_map_or (λ n. n.index) (find (λ n. is_sum (kept_at distances.now n.index) n.weight (kept_at distances.now x)) neighbours.now) x }
{
    for n in neighbours {
        if is_sum(distances[n.index], n.weight, distances[x]) {
            return n.index;
        }
    }
    x
}

/// Whether the second distance is the first and this weight more.
pub fn is_sum(near: Option<u64>, weight: u16, far: Option<u64>) -> bool
    ensures { result ≡ is_sum near weight far }
{
    match (near, far) {
        (Some(near), Some(far)) => u128::from(near) + u128::from(weight) == u128::from(far),
        _ => false,
    }
}
