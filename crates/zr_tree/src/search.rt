//! How far each router is from a root.

ghost use Rattle.std.specs.Prelude.{◌<◌, IfOk, length};
ghost use Rattle.zr_tree_parents.specs.Search.{IsOrder};
ghost use Rattle.zr_tree.specs.Search.{AreDistances};

use crate::edges::Edges;
use std::alloc::{AllocError, Global};
use zr_tree_parents::search::{Reach, search_from};

/// The distances from a root, and the routers in their order.
pub fn reach_from(alloc: Global, edges: &Edges, root: usize) -> Result<Reach, AllocError>
    requires { root < length edges.now.records }
    ensures distances { IfOk result (λ r. AreDistances edges.now root r.distances.items) }
    ensures order { IfOk result (λ r. IsOrder r.distances.items r.order.items) }
{
    search_from(alloc, edges.rows(), root)
}
