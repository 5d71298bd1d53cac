//! `Index`: pairs of a key expression and a value.

ghost use Rattle.std.specs.Prelude.{◌≡◌, ◌∷◌, [], ◌++◌, List, OnOk, IfErr};
ghost use Rattle.std.specs.List.{list_any};
ghost use Rattle.std.specs.List.Sorted.{IsStrictlySortedBy};
ghost use Rattle.std.specs.Ordering.{is_eq};
ghost use Rattle.zr_key.specs.Key.{chunks};
ghost use Rattle.zr_index.specs.Pairs.{AreSame, TakesOne};
ghost use Rattle.zr_index.specs.Meeting.{held, AreMeeting};
ghost use Rattle.zr_index.specs.Walk.{is_among};

use crate::node::Node;
use std::alloc::{AllocError, Global};
use zr_key::key::KeyExpr;
use zr_match::row::Row;

/// Pairs of a key expression and a value, each as often as it was added and not removed.
///
/// They stand in a tree of the chunks of their keys. What meets a key is found by a walk of the tree that turns back where no key below
/// can meet it.
#[derive(Drop)]
pub struct Index<V: Drop> {
    root: Node<V>,
    alloc: Global,
}

impl<V: Drop + Copy + Ord> Index<V> {
    /// An index of no pairs.
    pub fn new(alloc: Global) -> Index<V>
        ensures { held result ≡ [] }
    {
        Index {
            root: Node::new(alloc),
            alloc,
        }
    }

    /// One pair more. Where memory runs out, the value comes back and the index has the pairs that it had.
    pub fn add(&mut self, key: &KeyExpr, value: V) -> Result<(), V>
        ensures added { OnOk result (AreSame (held self.new) ((chunks key.now, value) ∷ held self.old)) }
        ensures refused { IfErr result (λ back. (back ≡ value) × AreSame (held self.new) (held self.old)) }
    {
        self.root
            .add(self.alloc, Some(key.text().as_bytes()), value)
    }

    /// One pair less, where it was there: one copy of it goes. Else nothing changes.
    pub fn remove(&mut self, key: &KeyExpr, value: &V) -> bool
        ensures { TakesOne V.eq (chunks key.now) value.now (held self.old) (held self.new) result }
    {
        self.root.remove(Some(key.text().as_bytes()), value)
    }

    /// Appends the values of the pairs whose key meets a key expression, ascending, each once.
    pub fn meeting(&self, key: &KeyExpr, out: &mut Vec<V>) -> Result<(), AllocError>
        ensures { OnOk result ((found : List V) × (out.new.items ≡ out.old.items ++ found) × AreMeeting V.cmp key.now (held self.now) found) }
    {
        let mut found = Vec::new(self.alloc);
        let row = Row::first(self.alloc, key)?;
        self.root.gather(self.alloc, key, &row, &mut found)?;
        put_in_order(&mut found)?;
        out.extend_from_slice(&found)
    }
}

// Ascending, each once. What comes from one place of the tree is in order already, which a stable sort sees by a look at each value.
fn put_in_order<V: Drop + Copy + Ord>(found: &mut Vec<V>) -> Result<(), AllocError>
    ensures ascend { OnOk result (IsStrictlySortedBy V.cmp found.new.items) }
    ensures same { OnOk result ((v : V) → list_any (λ w. is_eq (V.cmp v w)) found.new.items ≡ is_among V.cmp found.old.items v) }
{
    found.sort()?;
    found.dedup();
    Ok(())
}
