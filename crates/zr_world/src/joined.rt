//! Whether the routers are joined by links that are up at both ends.

ghost use Rattle.std.specs.Prelude.{◌≡◌, ◌∷◌, ◌++◌, [], not, true, if◌then◌else◌, IfOk, OnOk, filter};
ghost use Rattle.std.specs.List.{list_any};
ghost use Rattle.std.specs.List.Sorted.{IsStrictlySortedBy};
ghost use Rattle.std.specs.Map.{keys_of};
ghost use Rattle.std.specs.Ordering.{nat_cmp};
ghost use Rattle.std.specs.Cmp.Lexicographic.{slice_cmp};
ghost use Rattle.zr_id.specs.Zid.{is_named};
ghost use Rattle.zr_graph.specs.Record.{has};

use crate::tables::WorldTables;
use std::alloc::AllocError;
use zr_carrier::carrier::Carrier;
use zr_id::zid::Zid;

impl<C: Carrier> WorldTables<C> {
    ghost use Rattle.zr_tree.specs.Laws.{IsGraph};
    ghost use Rattle.zr_world_spec.specs.World.{is_linked};
    ghost use Rattle.zr_world_spec.specs.Joined.{graph, is_joined};
    ghost use Rattle.zr_world_spec.specs.Sound.{IsSound};
    ghost use Rattle.zr_world.specs.Search.{IsSearched};
    ghost use Rattle.zr_world.specs.State.{state_of};

    /// Whether each router is reached from each other.
    // Links go both ways, so it is enough to search from one router.
    pub fn is_joined(&self) -> Result<bool, AllocError>
        requires { IsSound (state_of self.now) }
        ensures { IfOk result (λ b. b ≡ is_joined (state_of self.now)) }
    {
        let mut others = self.router_names()?;
        if others.is_empty() {
            return Ok(true);
        }
        let root = others[0];
        leave_out(&mut others, root);
        self.are_found(root, others)
    }

    // Whether a search from the root finds all others. Each round finds the neighbours of those that the last one found.
    fn are_found(&self, root: Zid, others: Vec<Zid>) -> Result<bool, AllocError>
        requires graph { IsGraph (graph (state_of self.now)) }
        requires there { has (keys_of (state_of self.now).routers) root ≡ true }
        requires begun { IsSearched (state_of self.now) root (root ∷ []) others.items }
        ensures { IfOk result (λ b. b ≡ is_joined (state_of self.now)) }
    {
        let mut missing = others;
        let mut found = vec![in self.alloc; root]?;
        'search: while !found.is_empty() {
            let near = self.near(&found, &missing)?;
            missing = self.far(&found, &missing)?;
            found = near;
        }
        Ok(missing.is_empty())
    }

    fn router_names(&self) -> Result<Vec<Zid>, AllocError>
        ensures names { IfOk result (λ v. v.items ≡ keys_of (state_of self.now).routers) }
        ensures ordered { IsStrictlySortedBy (slice_cmp nat_cmp) (keys_of (state_of self.now).routers) }
    {
        self.routers.keys().copied().collect(self.alloc)
    }

    // The missing routers to which one of those found is linked.
    fn near(&self, found: &[Zid], missing: &[Zid]) -> Result<Vec<Zid>, AllocError>
        ensures { IfOk result (λ v. v.items ≡ filter (λ y. list_any (λ x. is_linked (state_of self.now).ends x y) found.now) missing.now) }
    {
        let mut near = Vec::new(self.alloc);
        for y in missing {
            keep_if(&mut near, *y, self.is_near(found, y))?;
        }
        Ok(near)
    }

    // The others.
    fn far(&self, found: &[Zid], missing: &[Zid]) -> Result<Vec<Zid>, AllocError>
        ensures { IfOk result (λ v. v.items ≡ filter (λ y. not (list_any (λ x. is_linked (state_of self.now).ends x y) found.now)) missing.now) }
    {
        let mut far = Vec::new(self.alloc);
        for y in missing {
            keep_if(&mut far, *y, !self.is_near(found, y))?;
        }
        Ok(far)
    }

    fn is_near(&self, found: &[Zid], y: &Zid) -> bool
        ensures { result ≡ list_any (λ x. is_linked (state_of self.now).ends x y.now) found.now }
    {
        found.iter().any(|x| self.is_linked(*x, *y))
    }
}

fn keep_if(kept: &mut Vec<Zid>, name: Zid, is_kept: bool) -> Result<(), AllocError>
    ensures { OnOk result (kept.new.items ≡ kept.old.items ++ (if is_kept then name ∷ [] else [])) }
{
    if is_kept {
        kept.push(name)?;
    }
    Ok(())
}

fn leave_out(names: &mut Vec<Zid>, name: Zid)
    ensures { names.new.items ≡ filter (λ y. not (is_named y name)) names.old.items }
{
    names.retain(|y| *y != name);
}
