//! How far each router is from a root, and which are nearer: the nearest router that was found is settled first.

ghost use Rattle.std.specs.Prelude.{◌≡◌, ◌<◌, ◌^◌, ℕ, true, nat_lt, None, IfOk, OnOk, MatchOption, length, All};
ghost use Rattle.std.specs.Option.{option_map_or};
ghost use Rattle.zr_tree_parents.specs.Climb.{row};
ghost use Rattle.zr_tree_parents.specs.Distance.{kept_at};
ghost use Rattle.zr_tree_parents.specs.Search.{AreNearest, IsOrder, IsNearest, Offers};

use crate::row::{Neighbour, Row};
use std::alloc::{AllocError, Global};

/// What a search from a root found.
#[derive(Drop)]
pub struct Reach {
    /// The distance of each router, by index.
    pub distances: Vec<Option<u64>>,
    /// The routers that are reached, the nearer ones first.
    pub order: Vec<usize>,
}

// The nearest of several routers: its place among them, and its distance.
#[derive(Clone, Copy)]
struct Nearest {
    place: usize,
    distance: u64,
}

/// Searches from a root. A router that was found is settled when it is the nearest of those, and offers its neighbours a walk over it.
pub fn search_from(alloc: Global, rows: &[Row], root: usize) -> Result<Reach, AllocError>
    requires root { root < length rows.now }
    requires few { length rows.now < 2 ^ 32 }
    requires within { (x : ℕ) → x < length rows.now → All (λ n. n.index < length rows.now) (row rows.now x) }
    requires weights { (x : ℕ) → x < length rows.now → All (λ n. n.weight < 2 ^ 16) (row rows.now x) }
    ensures distances { IfOk result (λ r. AreNearest rows.now root r.distances.items) }
    ensures order { IfOk result (λ r. IsOrder r.distances.items r.order.items) }
{
    let mut distances = vec![in alloc; None; rows.len()]?;
    distances[root] = Some(0);
    let mut order = Vec::with_capacity(alloc, rows.len())?;
    let mut found = vec![in alloc; root]?;
    while let Some(Nearest { place, distance }) = nearest_of(&found, &distances) {
        let next = found.swap_remove(place);
        order.push(next)?;
        offer(
            rows[next].neighbours(),
            distance,
            &mut distances,
            &mut found,
        )?;
    }
    Ok(Reach { distances, order })
}

// The nearest of these routers.
fn nearest_of(found: &[usize], distances: &[Option<u64>]) -> Option<Nearest>
    requires { All (λ x. x < length distances.now) found.now }
    ensures { MatchOption result (All (λ x. kept_at distances.now x ≡ None) found.now) (λ n. IsNearest found.now distances.now n.place n.distance) }
{
    let mut best: Option<Nearest> = None;
    for (place, x) in found.iter().enumerate() {
        if let Some(distance) = distances[*x] {
            if is_nearer(distance, best) {
                best = Some(Nearest { place, distance });
            }
        }
    }
    best
}

fn is_nearer(distance: u64, best: Option<Nearest>) -> bool
    ensures { result ≡ option_map_or (λ n. nat_lt distance n.distance) best true }
{
    match best {
        Some(best) => distance < best.distance,
        None => true,
    }
}

// A router at a distance offers its neighbours a walk over it. Those that had none are found.
fn offer(
    neighbours: &[Neighbour],
    distance: u64,
    distances: &mut [Option<u64>],
    found: &mut Vec<usize>,
) -> Result<(), AllocError>
    requires within { All (λ n. n.index < length distances.old) neighbours.now }
    requires small { distance < 2 ^ 63 }
    ensures { OnOk result (Offers distances.old distances.new found.old.items found.new.items neighbours.now distance) }
{
    for n in neighbours {
        let offered = distance + u64::from(n.weight);
        match distances[n.index] {
            None => {
                distances[n.index] = Some(offered);
                found.push(n.index)?;
            }
            Some(known) => {
                if offered < known {
                    distances[n.index] = Some(offered);
                }
            }
        }
    }
    Ok(())
}
