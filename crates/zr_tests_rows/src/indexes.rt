//! An index of many keys, each of which is looked up.

use crate::row::{self, Fault};
use std::alloc::Global;
use zr_index::index::Index;
use zr_key::key::KeyExpr;

/// An index of the keys `A/B`, A below the first number and B below the second, each with a number of its own: of how many of them a look-up
/// finds just their number.
pub fn answer(alloc: Global, words: &[&str]) -> Result<String, Fault> {
    let grid = Grid {
        rows: row::parsed(words, 0)?,
        columns: row::parsed(words, 1)?,
    };
    let mut index = Index::new(alloc);
    fill(alloc, &mut index, grid)?;
    row::text(alloc, &found(alloc, &index, grid)?)
}

#[derive(Clone, Copy)]
struct Grid {
    rows: u32,
    columns: u32,
}

impl Grid {
    fn number(self, row: u32, column: u32) -> u32 {
        row.wrapping_mul(self.columns).wrapping_add(column)
    }
}

fn key_at(alloc: Global, row: u32, column: u32) -> Result<KeyExpr, Fault> {
    let text = row::or_fault(format!(in alloc; "{row}/{column}"))?;
    Ok(KeyExpr::read(alloc, text.as_bytes())?)
}

fn fill(alloc: Global, index: &mut Index<u32>, grid: Grid) -> Result<(), Fault> {
    for row in 0..grid.rows {
        for column in 0..grid.columns {
            add(
                index,
                &key_at(alloc, row, column)?,
                grid.number(row, column),
            )?;
        }
    }
    Ok(())
}

fn add(index: &mut Index<u32>, key: &KeyExpr, number: u32) -> Result<(), Fault> {
    match index.add(key, number) {
        Ok(()) => Ok(()),
        Err(_) => Err(Fault::Memory),
    }
}

fn found(alloc: Global, index: &Index<u32>, grid: Grid) -> Result<u32, Fault> {
    let mut found: u32 = 0;
    for row in 0..grid.rows {
        for column in 0..grid.columns {
            let key = key_at(alloc, row, column)?;
            if finds(alloc, index, &key, grid.number(row, column))? {
                found = found.wrapping_add(1);
            }
        }
    }
    Ok(found)
}

// Whether a look-up of a key finds just a number.
fn finds(alloc: Global, index: &Index<u32>, key: &KeyExpr, number: u32) -> Result<bool, Fault> {
    let mut values = Vec::new(alloc);
    index.meeting(key, &mut values)?;
    Ok(values.as_slice() == [number].as_slice())
}
