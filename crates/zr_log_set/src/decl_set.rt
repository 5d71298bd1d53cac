//! `DeclSet`: a set of declarations, with what it weighs.

ghost use Rattle.std.specs.Prelude.{◌≡◌, [], IfOk, OnOk, OnErr};
ghost use Rattle.zr_msg.specs.Decl.{decl_cmp};
ghost use Rattle.zr_log_set.specs.Decls.{IsSet, has, with_decl, without_decl, set_of, weight};
ghost use Rattle.zr_lists.specs.Place.{IsGap, IsPlace};

use crate::weight::decl_weight;
use std::alloc::{AllocError, Global};
use std::marker::Model;
use zr_msg::decl::Decl;

/// A set of declarations in ascending order. What it weighs is at hand.
#[derive(Drop)]
pub struct DeclSet {
    items: Vec<Decl>,
    total: u64,
}

impl Model for DeclSet {
    ghost use Rattle.std.specs.Prelude.{◌≡◌, List};
    ghost use Rattle.zr_msg.specs.declared.decl.Decl.{Decl};
    ghost use Rattle.zr_log_set.specs.Decls.{IsSet, weight};

    ghost Value = { List Decl };

    ghost view = { λ s. s.items.items };

    ghost invariant = { λ s. IsSet s.items.items × (s.total ≡ weight s.items.items) };
}

impl DeclSet {
    /// The empty set. It takes no memory.
    pub fn new(alloc: Global) -> DeclSet
        ensures { result ≡ [] }
    {
        DeclSet {
            items: Vec::new(alloc),
            total: 0,
        }
    }

    /// The set of these declarations, which may come in any order, some of them twice.
    pub fn of(alloc: Global, decls: &[Decl]) -> Result<DeclSet, AllocError>
        ensures { IfOk result (λ s. s ≡ set_of decls.now) }
    {
        let mut set = DeclSet::new(alloc);
        for decl in decls {
            set.add(decl)?;
        }
        Ok(set)
    }

    /// A second set with the same declarations.
    pub fn copy(&self, alloc: Global) -> Result<DeclSet, AllocError>
        ensures { IfOk result (λ s. s ≡ self.now) }
    {
        Ok(DeclSet {
            items: copies_of(alloc, &self.items)?,
            total: self.total,
        })
    }

    /// The declarations in ascending order.
    pub fn as_slice(&self) -> &[Decl]
        ensures value { result.now ≡ self.now }
        ensures in_order { IsSet self.now }
    {
        self.items.as_slice()
    }

    /// The declarations in ascending order, given back without taking memory.
    pub fn into_vec(self) -> Vec<Decl>
        ensures value { result.items ≡ self }
        ensures in_order { IsSet result.items }
    {
        let DeclSet { items, total: _ } = self;
        items
    }

    /// What the declarations weigh together.
    pub fn weight(&self) -> u64
        ensures { result ≡ weight self.now }
    {
        self.total
    }

    /// What the other declarations weigh together.
    pub fn weight_without(&self, decl: &Decl) -> u64
        ensures { result ≡ weight (without_decl self.now decl.now) }
    {
        match place_of(&self.items, decl) {
            Ok(_) => self.total - decl_weight(decl),
            Err(_) => self.total,
        }
    }

    /// Whether a declaration is in the set.
    pub fn has(&self, decl: &Decl) -> bool
        ensures { result ≡ has self.now decl.now }
    {
        place_of(&self.items, decl).is_ok()
    }

    /// Puts a declaration in. The set is as before where it has it.
    ///
    /// Its weight is a `u64`, so a set that weighed more would be out of memory.
    pub fn add(&mut self, decl: &Decl) -> Result<(), AllocError>
        ensures ok { OnOk result (self.new ≡ with_decl self.old decl.now) }
        ensures err { OnErr result (self.new ≡ self.old) }
    {
        match place_of(&self.items, decl) {
            Ok(_) => Ok(()),
            Err(at) => self.insert(at, decl),
        }
    }

    // puts a declaration in at its place
    fn insert(&mut self, at: usize, decl: &Decl) -> Result<(), AllocError>
        requires { IsGap decl_cmp (λ d. d) self.old decl.now at }
        ensures ok { OnOk result (self.new ≡ with_decl self.old decl.now) }
        ensures err { OnErr result (self.new ≡ self.old) }
    {
        let Some(total) = self.total.checked_add(decl_weight(decl)) else {
            return Err(AllocError);
        };
        let copy = decl.copy(*self.items.allocator())?;
        self.items.insert(at, copy)?;
        self.total = total;
        Ok(())
    }

    /// Takes a declaration out. The set is as before where it doesn't have it.
    pub fn remove(&mut self, decl: &Decl)
        ensures { self.new ≡ without_decl self.old decl.now }
    {
        if let Ok(at) = place_of(&self.items, decl) {
            self.total -= decl_weight(decl);
            self.items.remove(at);
        }
    }
}

/// The place of a declaration, or the place where it would stand.
pub fn place_of(items: &[Decl], decl: &Decl) -> Result<usize, usize>
    requires { IsSet items.now }
    ensures { IsPlace decl_cmp (λ d. d) items.now decl.now result }
{
    items.binary_search(decl)
}

/// Second declarations, equal to these.
pub fn copies_of(alloc: Global, decls: &[Decl]) -> Result<Vec<Decl>, AllocError>
    ensures { IfOk result (λ v. v.items ≡ decls.now) }
{
    let mut copies = Vec::with_capacity(alloc, decls.len())?;
    for decl in decls {
        copies.push(decl.copy(alloc)?)?;
    }
    Ok(copies)
}
