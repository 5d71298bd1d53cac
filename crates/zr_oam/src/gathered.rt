//! `Gathered`: the values of a series, as they come.

ghost use Rattle.std.specs.Prelude.{◌≡◌, ◌+◌, ◌*◌, ◌<◌, ◌≤◌, ◌∷◌, ◌++◌, [], length, max, OnOk, OnErr};
ghost use Rattle.std.specs.Vec.{vec_len, vec_capacity};

use std::alloc::{AllocError, Global};
use std::marker::Model;

/// What came of a series. Contracts see the values. Memory is held for at most twice as many, whatever count was told.
#[derive(Drop)]
pub(crate) struct Gathered<T> {
    items: Vec<T>,
}

impl<T> Model for Gathered<T> {
    ghost use Rattle.std.specs.Prelude.{List, ◌*◌, ◌≤◌, length};
    ghost use Rattle.std.specs.Vec.{vec_capacity};

    ghost Value = { List T };

    ghost view = { λ g. g.items.items };

    ghost invariant = { λ g. vec_capacity g.items ≤ 2 * length g.items.items };
}

impl<T: Drop> Gathered<T> {
    /// Nothing came yet.
    pub(crate) fn new(alloc: Global) -> Gathered<T>
        ensures { result ≡ [] }
    {
        Gathered {
            items: Vec::new(alloc),
        }
    }

    /// The next value came.
    pub(crate) fn push(&mut self, value: T) -> Result<(), AllocError>
        ensures { OnOk result (self.new ≡ self.old ++ value ∷ []) }
    {
        make_room(&mut self.items)?;
        self.items.push_reserved(value);
        Ok(())
    }

    /// What came, in its order.
    pub(crate) fn as_slice(&self) -> &[T]
        ensures { result.now ≡ self.now }
    {
        self.items.as_slice()
    }

    /// The list of what came.
    pub(crate) fn into_vec(self) -> Vec<T>
        ensures { result.items ≡ self }
    {
        self.items
    }
}

// Room for one value more: where there isn't any, for twice the values that there are then.
fn make_room<T>(items: &mut Vec<T>) -> Result<(), AllocError>
    ensures items { items.new.items ≡ items.old.items }
    ensures ok { OnOk result (vec_len items.new < vec_capacity items.new) }
    ensures kept { OnErr result (vec_capacity items.new ≡ vec_capacity items.old) }
    ensures bounded { vec_capacity items.new ≤ max (vec_capacity items.old) (2 * (length items.old.items + 1)) }
{
    if items.len() < items.capacity() {
        return Ok(());
    }
    items.reserve_exact(items.len().saturating_add(2))
}
