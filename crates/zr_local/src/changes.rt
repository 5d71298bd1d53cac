//! `Changes`: what became new or last in the set of all declarations.

ghost use Rattle.std.specs.Prelude.{◌≡◌, IfOk};
ghost use Rattle.std.specs.Option.{option_copied};
ghost use Rattle.zr_local.specs.Owners.{is_other, where_counted};

use crate::owners::Owners;
use std::alloc::{AllocError, Global};
use zr_msg::decl::Decl;

/// What became of the set of all clients' declarations, each list in ascending order.
#[derive(Drop)]
pub struct Changes {
    /// What no client declares any more.
    pub gone: Vec<Decl>,
    /// What no client declared before.
    pub came: Vec<Decl>,
}

/// What becomes of the set where one row has another declaration than before, or none, or had none before.
pub(crate) fn difference(
    alloc: Global,
    owners: &Owners,
    old: Option<&Decl>,
    new: Option<&Decl>,
) -> Result<Changes, AllocError>
    ensures gone { IfOk result (λ c. c.gone.items ≡ where_counted owners.now 1 (option_copied old.entry) (option_copied new.entry)) }
    ensures came { IfOk result (λ c. c.came.items ≡ where_counted owners.now 0 (option_copied new.entry) (option_copied old.entry)) }
{
    let gone = where_counted(alloc, owners, 1, old, new)?;
    let came = where_counted(alloc, owners, 0, new, old)?;
    Ok(Changes { gone, came })
}

// a copy of this declaration, where so many rows have it and it isn't the other one
fn where_counted(
    alloc: Global,
    owners: &Owners,
    count: u64,
    this: Option<&Decl>,
    other: Option<&Decl>,
) -> Result<Vec<Decl>, AllocError>
    ensures { IfOk result (λ v. v.items ≡ where_counted owners.now count (option_copied this.entry) (option_copied other.entry)) }
{
    let mut found = Vec::new(alloc);
    if let Some(decl) = this {
        if is_other(other, decl) && owners.count(decl) == count {
            found.push(decl.copy(alloc)?)?;
        }
    }
    Ok(found)
}

fn is_other(other: Option<&Decl>, decl: &Decl) -> bool
    ensures { result ≡ is_other (option_copied other.entry) decl.now }
{
    match other {
        Some(other) => !other.cmp(decl).is_eq(),
        None => true,
    }
}
