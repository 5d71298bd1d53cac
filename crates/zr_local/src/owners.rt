//! `Owners`: how many rows have each declaration.

ghost use Rattle.std.specs.Prelude.{◌≡◌, ◌+◌, ◌-◌, ◌<◌, nat_lt, if◌then◌else◌, length, [], slice_set, slice_index_or, IfOk, OnOk, OnErr};
ghost use Rattle.std.specs.List.{remove, insert};
ghost use Rattle.zr_local.specs.Owners.{owned_decl, count_of, once_more, once_less};
ghost use Rattle.zr_local.specs.declared.owners.Owned.{Owned};
ghost use Rattle.zr_msg.specs.Decl.{decl_cmp};
ghost use Rattle.zr_lists.specs.Ascending.{IsAscending};
ghost use Rattle.zr_lists.specs.Place.{IsPlace};

use std::alloc::{AllocError, Global};
use std::marker::Model;
use zr_msg::decl::Decl;

/// A declaration, and how many rows have it.
#[derive(Drop)]
pub struct Owned {
    pub decl: Decl,
    pub count: u64,
}

/// How many rows have each declaration, in ascending order of the declarations.
#[derive(Drop)]
pub struct Owners {
    items: Vec<Owned>,
}

impl Model for Owners {
    ghost use Rattle.std.specs.Prelude.{List};
    ghost use Rattle.zr_local.specs.declared.owners.Owned.{Owned};
    ghost use Rattle.zr_msg.specs.Decl.{decl_cmp};
    ghost use Rattle.zr_lists.specs.Ascending.{IsAscending};

    ghost Value = { List Owned };

    ghost view = { λ o. o.items.items };

    ghost invariant = { λ o. IsAscending decl_cmp (λ x. x.decl) o.items.items };
}

impl Owners {
    /// No row has any declaration. It takes no memory.
    pub fn new(alloc: Global) -> Owners
        ensures { result ≡ [] }
    {
        Owners {
            items: Vec::new(alloc),
        }
    }

    /// The same counts once more.
    pub fn copy(&self, alloc: Global) -> Result<Owners, AllocError>
        ensures { IfOk result (λ o. o ≡ self.now) }
    {
        Ok(Owners {
            items: copies_of(alloc, &self.items)?,
        })
    }

    /// How many rows have the declaration.
    pub fn count(&self, decl: &Decl) -> u64
        ensures { result ≡ count_of self.now decl.now }
    {
        match place_of(&self.items, decl) {
            Ok(at) => self.items[at].count,
            Err(_) => 0,
        }
    }

    /// One more row has the declaration.
    pub fn add(&mut self, decl: &Decl) -> Result<(), AllocError>
        ensures ok { OnOk result (self.new ≡ once_more self.old decl.now) }
        ensures err { OnErr result (self.new ≡ self.old) }
    {
        match place_of(&self.items, decl) {
            Ok(at) => raise(&mut self.items, at)?,
            Err(at) => {
                let decl = decl.copy(*self.items.allocator())?;
                self.items.insert(at, Owned { decl, count: 1 })?;
            }
        }
        Ok(())
    }

    /// One row less has the declaration.
    pub fn take(&mut self, decl: &Decl)
        ensures { self.new ≡ once_less self.old decl.now }
    {
        if let Ok(at) = place_of(&self.items, decl) {
            lower(&mut self.items, at);
        }
    }
}

fn place_of(items: &[Owned], decl: &Decl) -> Result<usize, usize>
    requires { IsAscending decl_cmp owned_decl items.now }
    ensures { IsPlace decl_cmp owned_decl items.now decl.now result }
{
    items.binary_search_by(|owned| owned.decl.cmp(decl))
}

fn raise(items: &mut Vec<Owned>, at: usize) -> Result<(), AllocError>
    requires { at < length items.old.items }
    ensures ok { (d : Owned) → OnOk result (items.new.items ≡ slice_set items.old.items at (record { decl = (slice_index_or items.old.items at d).decl; count = (slice_index_or items.old.items at d).count + 1 })) }
    ensures err { OnErr result (items.new.items ≡ items.old.items) }
{
    let owned = &mut items[at];
    let Some(count) = owned.count.checked_add(1) else {
        return Err(AllocError);
    };
    owned.count = count;
    Ok(())
}

// what no row has any more isn't kept
fn lower(items: &mut Vec<Owned>, at: usize)
    requires { at < length items.old.items }
    ensures { (d : Owned) → items.new.items ≡ (if nat_lt 1 (slice_index_or items.old.items at d).count then slice_set items.old.items at (record { decl = (slice_index_or items.old.items at d).decl; count = (slice_index_or items.old.items at d).count - 1 }) else remove items.old.items at) }
{
    if items[at].count > 1 {
        items[at].count -= 1;
    } else {
        items.remove(at);
    }
}

fn copies_of(alloc: Global, counts: &[Owned]) -> Result<Vec<Owned>, AllocError>
    ensures { IfOk result (λ v. v.items ≡ counts.now) }
{
    let mut copies = Vec::with_capacity(alloc, counts.len())?;
    for owned in counts {
        copies.push(copy_of(alloc, owned)?)?;
    }
    Ok(copies)
}

fn copy_of(alloc: Global, owned: &Owned) -> Result<Owned, AllocError>
    ensures { IfOk result (λ o. o ≡ owned.now) }
{
    Ok(Owned {
        decl: owned.decl.copy(alloc)?,
        count: owned.count,
    })
}
