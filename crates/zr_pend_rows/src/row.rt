//! One request that was passed on: a row of the pending requests, and what is asked of several rows.

ghost use Rattle.std.specs.Prelude.{◌≡◌, not, filter, IfOk};
ghost use Rattle.std.specs.BTreeMap.{values};
ghost use Rattle.std.specs.List.{list_all};
ghost use Rattle.zr_pend_spec.specs.Row.{is_branch, has, is_done, is_last, is_of, without, orphaned};

use std::alloc::{AllocError, Global};
use std::collections::BTreeMap;
use std::marker::Model;
use zr_id::link::LinkNo;
use zr_pend_spec::branch::{Asker, Branch};
use zr_places::push;

/// A request that was passed on: who asked it, unless that link went down, and its pending branches.
#[derive(Drop)]
pub struct Row {
    asker: Option<Asker>,
    branches: Vec<Branch>,
}

impl Model for Row {
    ghost use Rattle.zr_pend_spec.specs.Row.{RowState};

    ghost Value = { RowState };

    ghost view = { λ r. record { asker = r.asker; branches = r.branches.items } };
}

impl Row {
    /// A request that this asker sent, with its branches.
    pub fn new(asker: Asker, branches: Vec<Branch>) -> Row
        ensures { result ≡ record { asker = Some asker; branches = branches.items } }
    {
        Row {
            asker: Some(asker),
            branches,
        }
    }

    /// A second row, equal to this one.
    pub fn copy(&self, alloc: Global) -> Result<Row, AllocError>
        ensures { IfOk result (λ r. r ≡ self.now) }
    {
        Ok(Row {
            asker: self.asker,
            branches: Vec::from_slice(alloc, &self.branches)?,
        })
    }

    /// Who asked, where its link is still up.
    pub fn asker(&self) -> Option<Asker>
        ensures { result ≡ self.now.asker }
    {
        self.asker
    }

    /// Whether the request came from this link.
    pub fn is_of(&self, link: LinkNo) -> bool
        ensures { result ≡ is_of link self.now }
    {
        match &self.asker {
            Some(asker) => asker.link.0 == link.0,
            None => false,
        }
    }

    /// Whether this branch is pending.
    pub fn has(&self, branch: Branch) -> bool
        ensures { result ≡ has branch self.now }
    {
        self.branches.iter().any(|b| is_branch(branch, b))
    }

    /// Whether this branch is pending and no other one.
    pub fn is_last(&self, branch: Branch) -> bool
        ensures { result ≡ is_last branch self.now }
    {
        self.has(branch) && self.has_no_other(branch)
    }

    /// Whether no branch is left.
    pub fn is_done(&self) -> bool
        ensures { result ≡ is_done self.now }
    {
        self.branches.is_empty()
    }

    /// Ends a branch.
    pub fn end(&mut self, branch: Branch)
        ensures { self.new ≡ without branch self.old }
    {
        end_branch(&mut self.branches, branch);
    }

    /// The asker is forgotten where it is this link.
    pub fn orphan(&mut self, link: LinkNo)
        ensures { self.new ≡ orphaned link self.old }
    {
        if self.is_of(link) {
            self.asker = None;
        }
    }

    /// The pending branches.
    pub fn branches(&self) -> &[Branch]
        ensures { result.now ≡ self.now.branches }
    {
        self.branches.as_slice()
    }

    fn has_no_other(&self, branch: Branch) -> bool
        ensures { result ≡ list_all (is_branch branch) self.now.branches }
    {
        self.branches.iter().all(|b| is_branch(branch, b))
    }
}

fn is_branch(branch: Branch, b: &Branch) -> bool
    ensures { result ≡ is_branch branch b.now }
{
    b.link.0 == branch.link.0 && b.number == branch.number
}

fn end_branch(branches: &mut Vec<Branch>, branch: Branch)
    ensures { branches.new.items ≡ filter (λ b. not (is_branch branch b)) branches.old.items }
{
    branches.retain(|b| !is_branch(branch, b));
}

/// Second rows, equal to these, in the same order.
pub fn copies_of(alloc: Global, rows: &BTreeMap<u64, Row>) -> Result<BTreeMap<u64, Row>, AllocError>
    ensures { IfOk result (λ m. values m ≡ values rows.now) }
{
    let mut copies = BTreeMap::new(alloc);
    for row in rows.values() {
        push(&mut copies, row.copy(alloc)?)?;
    }
    Ok(copies)
}
