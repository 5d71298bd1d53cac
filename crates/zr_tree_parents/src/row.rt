//! Rows of edges.

ghost use Rattle.std.specs.Prelude.{◌≡◌};

use std::marker::Model;

/// An edge to a neighbour: its index, and what the edge weighs.
#[derive(Clone, Copy)]
pub struct Neighbour {
    pub index: usize,
    pub weight: u16,
}

/// The edges of one router.
#[derive(Drop)]
pub struct Row {
    neighbours: Vec<Neighbour>,
}

impl Model for Row {
    ghost use Rattle.std.specs.Prelude.{List};
    ghost use Rattle.zr_tree_parents.specs.declared.row.Neighbour.{Neighbour};

    ghost Value = { List Neighbour };

    ghost view = { λ r. r.neighbours.items };
}

impl Row {
    /// A row of these edges.
    pub fn of(neighbours: Vec<Neighbour>) -> Row
        ensures { result ≡ neighbours.items }
    {
        Row { neighbours }
    }

    pub fn neighbours(&self) -> &[Neighbour]
        ensures { result.now ≡ self.now }
    {
        self.neighbours.as_slice()
    }
}
