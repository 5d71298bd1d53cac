//! How far each router is from those that were searched from. No router is searched from twice.

ghost use Rattle.std.specs.Prelude.{◌≡◌, ◌<◌, ◌++◌, ◌∷◌, [], true, None, IfOk, OnOk, length, map, All, replicate};
ghost use Rattle.zr_tree_parents.specs.Distance.{kept_at};
ghost use Rattle.zr_tree.specs.Search.{AreDistances};
ghost use Rattle.zr_tree.specs.Searches.{distance_kept, is_nearer, AreSearches, Searched};

use crate::edges::Edges;
use crate::search::reach_from;
use std::alloc::{AllocError, Global};
use std::marker::Model;
use zr_tree_parents::parents::is_sum;
use zr_tree_parents::row::Neighbour;

// How far each router is from one, by index.
#[derive(Drop)]
struct Distances {
    distances: Vec<Option<u64>>,
}

impl Model for Distances {
    ghost use Rattle.std.specs.Prelude.{List, Option, ℕ};

    ghost Value = { List (Option ℕ) };

    ghost view = { λ d. d.distances.items };
}

/// The distances from each router that was searched from, by its index.
#[derive(Drop)]
pub struct Searches {
    found: Vec<Option<Distances>>,
}

impl Model for Searches {
    ghost use Rattle.std.specs.Prelude.{List, Option, ℕ};

    ghost Value = { List (Option (List (Option ℕ))) };

    ghost view = { λ s. s.found.items };
}

impl Distances {
    // The distances from this router.
    fn of(alloc: Global, edges: &Edges, start: usize) -> Result<Distances, AllocError>
        requires { start < length edges.now.records }
        ensures { IfOk result (λ d. AreDistances edges.now start d) }
    {
        let reach = reach_from(alloc, edges, start)?;
        Ok(Distances {
            distances: reach.distances,
        })
    }

    fn to(&self, router: usize) -> Option<u64>
        ensures { result ≡ kept_at self.now router }
    {
        match self.distances.get(router) {
            Some(distance) => *distance,
            None => None,
        }
    }
}

impl Searches {
    /// No search yet, of so many routers.
    pub fn new(alloc: Global, count: usize) -> Result<Searches, AllocError>
        ensures { IfOk result (λ s. s ≡ replicate count None) }
    {
        let mut found = Vec::with_capacity(alloc, count)?;
        for _router in 0..count {
            found.push(None)?;
        }
        Ok(Searches { found })
    }

    /// Searches from a router, unless that was done before.
    pub fn search(&mut self, alloc: Global, edges: &Edges, start: usize) -> Result<(), AllocError>
        requires start { start < length edges.now.records }
        requires searches { AreSearches edges.now self.old }
        ensures { OnOk result (Searched edges.now self.old self.new (start ∷ [])) }
    {
        if self.found[start].is_none() {
            self.found[start] = Some(Distances::of(alloc, edges, start)?);
        }
        Ok(())
    }

    /// Searches from each of these routers, unless that was done before.
    pub fn search_all(
        &mut self,
        alloc: Global,
        edges: &Edges,
        starts: &[Neighbour],
    ) -> Result<(), AllocError>
        requires starts { All (λ n. n.index < length edges.now.records) starts.now }
        requires searches { AreSearches edges.now self.old }
        ensures { OnOk result (Searched edges.now self.old self.new (map (λ n. n.index) starts.now)) }
    {
        for start in starts {
            self.search(alloc, edges, start.index)?;
        }
        Ok(())
    }

    /// Whether a neighbour of a router is nearer to a root by the edge to it, by the distances from both.
    pub fn is_nearer(&self, near: Neighbour, far: usize, root: usize) -> bool
        ensures { result ≡ is_nearer self.now near far root }
    {
        is_sum(
            self.distance(near.index, root),
            near.weight,
            self.distance(far, root),
        )
    }

    // How far a router is from one that was searched from.
    fn distance(&self, start: usize, router: usize) -> Option<u64>
        ensures { result ≡ distance_kept self.now start router }
    {
        match self.found.get(start) {
            Some(Some(distances)) => distances.to(router),
            _ => None,
        }
    }
}
