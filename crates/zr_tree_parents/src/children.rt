//! Children: a router's neighbours whose parent it is.

ghost use Rattle.std.specs.Prelude.{◌≡◌, ◌<◌, IfOk, length, true, Some, [], All, slice_get, slice_index_or};
ghost use Rattle.zr_tree_parents.specs.Children.{is_child_index, children_by};
ghost use Rattle.zr_tree_parents.specs.Lists.{OnlyAdds};

use crate::lists::Lists;
use crate::row::Neighbour;
use std::alloc::{AllocError, Global};
use zr_id::zid::Zid;

/// The number of the list of router x's children: the names of those of its neighbours whose parent it is, in their order.
/// Most often they are those that it has in the last tree: then no list is made.
pub fn children_number(
    alloc: Global,
    names: &[Zid],
    neighbours: &[Neighbour],
    parents: &[usize],
    x: usize,
    lists: &mut Lists,
) -> Result<u32, AllocError>
    requires router { x < lists.old.routers }
    requires long { length parents.now ≡ length names.now }
    requires within { All (λ n. n.index < length names.now) neighbours.now }
    ensures found { IfOk result (λ number. slice_get lists.new.lists number ≡ Some (children_by names.now parents.now x neighbours.now)) }
    ensures kept { OnlyAdds lists.old.lists lists.new.lists }
    ensures routers { lists.new.routers ≡ lists.old.routers }
{
    let last = lists.last(x);
    if are_children(names, neighbours, parents, x, lists.get(last)) {
        return Ok(last);
    }
    let children = children_of(alloc, names, neighbours, parents, x)?;
    lists.add(x, children)
}

// Whether a list is that of router x's children.
fn are_children(
    names: &[Zid],
    neighbours: &[Neighbour],
    parents: &[usize],
    x: usize,
    list: &[Zid],
) -> bool
    requires long { length parents.now ≡ length names.now }
    requires within { All (λ n. n.index < length names.now) neighbours.now }
    ensures { result ≡ true → list.now ≡ children_by names.now parents.now x neighbours.now }
{
    let mut count = 0;
    for n in neighbours {
        if is_child(parents, n.index, x) {
            if !stands_at(list, count, names, n.index) {
                return false;
            }
            count += 1;
        }
    }
    count == list.len()
}

#[tactic(auto, using(zr_graph::proofs::Names::same_is))]
fn stands_at(list: &[Zid], at: usize, names: &[Zid], y: usize) -> bool
    requires { y < length names.now }
    ensures { result ≡ true → (at < length list.now) × (slice_index_or list.now at [] ≡ slice_index_or names.now y []) }
{
    if at >= list.len() {
        return false;
    }
    list[at] == names[y]
}

// The neighbours of router x whose parent it is.
fn children_of(
    alloc: Global,
    names: &[Zid],
    neighbours: &[Neighbour],
    parents: &[usize],
    x: usize,
) -> Result<Vec<Zid>, AllocError>
    requires long { length parents.now ≡ length names.now }
    requires within { All (λ n. n.index < length names.now) neighbours.now }
    ensures { IfOk result (λ v. v.items ≡ children_by names.now parents.now x neighbours.now) }
{
    let mut children = Vec::new(alloc);
    for n in neighbours {
        if is_child(parents, n.index, x) {
            children.push(names[n.index])?;
        }
    }
    Ok(children)
}

fn is_child(parents: &[usize], y: usize, x: usize) -> bool
    requires { y < length parents.now }
    ensures { result ≡ is_child_index parents.now x y }
{
    parents[y] == x && y != x
}
