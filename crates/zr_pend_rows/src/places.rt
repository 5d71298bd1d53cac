//! `Places`: where the rows of branches stand.

use crate::row::Row;
use std::alloc::{AllocError, Global};
use std::collections::BTreeMap;
use zr_id::link::LinkNo;
use zr_pend_spec::branch::Branch;

/// For each branch that is pending the place of its row in the order in which rows began.
///
/// What it says is looked up and then looked at: a row is taken for that of a branch because it has the branch. So no clause speaks of it.
#[derive(Drop)]
pub struct Places {
    rows: BTreeMap<(u32, u32), u64>,
}

impl Places {
    /// It takes no memory.
    pub fn new(alloc: Global) -> Places {
        Places {
            rows: BTreeMap::new(alloc),
        }
    }

    /// Those of these rows.
    pub fn of(alloc: Global, rows: &BTreeMap<u64, Row>) -> Result<Places, AllocError> {
        let mut places = Places::new(alloc);
        for (place, row) in rows {
            places.put(*place, row.branches())?;
        }
        Ok(places)
    }

    /// The place of the row of a branch.
    pub fn get(&self, branch: Branch) -> Option<u64> {
        self.rows.get(&(branch.link.0, branch.number)).copied()
    }

    /// A row with these branches begins at a place.
    pub fn put(&mut self, place: u64, branches: &[Branch]) -> Result<(), AllocError> {
        for branch in branches {
            self.rows.insert((branch.link.0, branch.number), place)?;
        }
        Ok(())
    }

    /// The branches of a link that have these numbers have ended.
    pub fn take_all(&mut self, link: LinkNo, numbers: &[u32]) {
        for number in numbers {
            self.take(Branch {
                link,
                number: *number,
            });
        }
    }

    /// A branch has ended: the place of its row.
    pub fn take(&mut self, branch: Branch) -> Option<u64> {
        self.rows.remove(&(branch.link.0, branch.number))
    }
}
