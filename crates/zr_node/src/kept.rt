//! What a router works out of its tables and keeps: its children in all trees, these trees, and routes.

ghost use Rattle.std.specs.Prelude.{◌≡◌, Some, None, IfOk, IfSome};
ghost use Rattle.zr_node_spec.specs.Tables.{TableState};
ghost use Rattle.zr_push.specs.Routes.{AreRoutes};

use crate::links::Links;
use std::alloc::{AllocError, Global};
use zr_graph::base::Base;
use zr_local::local::Local;
use zr_log::known::Known;
use zr_node_spec::tables::TablesView;
use zr_push::routes::Routes;
use zr_tree::family::Family;
use zr_tree::trees::Trees;

/// What a router had worked out of its records before an event that may change them.
#[derive(Drop)]
pub struct Before {
    /// Its children in all trees.
    pub family: Option<Family>,
    /// The trees, if they were kept.
    pub trees: Option<Trees>,
}

/// The router's children by the records: those that are kept, or worked out anew.
pub fn take_family(
    alloc: Global,
    kept: &mut Option<Family>,
    base: &Base,
) -> Result<Family, AllocError>
    requires { IfSome kept.old (λ f. f ≡ base.now) }
    ensures family { IfOk result (λ f. f ≡ base.now) }
    ensures left { kept.new ≡ None }
{
    match kept.take() {
        Some(family) => Ok(family),
        None => Family::of(alloc, base),
    }
}

/// The children are kept.
pub fn put_family(kept: &mut Option<Family>, family: Family)
    ensures { kept.new ≡ Some family }
{
    *kept = Some(family);
}

/// The trees are kept.
pub fn put_trees(kept: &mut Option<Trees>, trees: Trees)
    ensures { kept.new ≡ Some trees }
{
    *kept = Some(trees);
}

/// The trees of the records: those that are kept, or worked out anew.
pub fn take_trees(alloc: Global, kept: &mut Option<Trees>, base: &Base) -> Result<Trees, AllocError>
    requires { IfSome kept.old (λ t. t ≡ base.now.records) }
    ensures trees { IfOk result (λ t. t ≡ base.now.records) }
    ensures left { kept.new ≡ None }
{
    match kept.take() {
        Some(trees) => Ok(trees),
        None => Trees::of(alloc, base),
    }
}

/// The records have changed: nothing that was worked out of them is kept.
pub fn forget(family: &mut Option<Family>, trees: &mut Option<Trees>, routes: &mut Routes)
    ensures family { family.new ≡ None }
    ensures trees { trees.new ≡ None }
    ensures routes { (t : TableState) → AreRoutes routes.new t }
{
    *family = None;
    *trees = None;
    routes.forget();
}

/// What a router goes by, lent.
pub fn lend<'a>(
    links: &'a Links,
    base: &Base,
    trees: &'a Trees,
    local: &'a Local,
    known: &'a Known,
) -> TablesView<'a>
    requires { trees.now ≡ base.now.records }
    ensures { result ≡ record { links = links.now; base = base.now; rows = local.now.rows; clients = local.now.clients; known = known.now } }
{
    TablesView::new(base.me(), links.as_slice(), trees, local, known)
}
