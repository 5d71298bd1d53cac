//! What goes when the client of a link leaves: its rows, who has its declarations, and the declarations that no row has then.

ghost use Rattle.std.specs.Prelude.{◌≡◌, ◌-◌, ◌≤◌, ◌==◌, filter, IfOk};
ghost use Rattle.std.specs.List.{fold};
ghost use Rattle.zr_local.specs.Owners.{count_of, on_link, once_less};
ghost use Rattle.zr_local.specs.Rows.{left, decls_of, declared_set, weight_of};

use crate::owners::Owners;
use crate::row::Row;
use std::alloc::{AllocError, Global};
use zr_id::link::LinkNo;
use zr_log_set::decl_set::DeclSet;
use zr_log_set::weight::decl_weight;
use zr_msg::decl::Decl;

/// The set of what the client of a link has declared.
pub fn set_on(alloc: Global, rows: &[Row], link: LinkNo) -> Result<DeclSet, AllocError>
    ensures { IfOk result (λ s. s ≡ declared_set (on_link rows.now link.0)) }
{
    let mut set = DeclSet::new(alloc);
    for row in rows {
        if row.link.0 == link.0 {
            set.add(&row.decl)?;
        }
    }
    Ok(set)
}

/// What is left of a weight without the rows of a link.
pub fn weight_without(rows: &[Row], link: LinkNo, mut held: u64) -> u64
    requires { weight_of rows.now ≤ held }
    ensures { result ≡ held - weight_of (on_link rows.now link.0) }
{
    for row in rows {
        if row.link.0 == link.0 {
            held -= decl_weight(&row.decl);
        }
    }
    held
}

/// Each declaration of a row of the link has one row less.
pub fn release(owners: &mut Owners, rows: &[Row], link: LinkNo)
    ensures { owners.new ≡ fold once_less owners.old (decls_of (on_link rows.now link.0)) }
{
    for row in rows {
        if row.link.0 == link.0 {
            owners.take(&row.decl);
        }
    }
}

/// The rows of the link are gone.
pub fn take_out(rows: &mut Vec<Row>, link: LinkNo)
    ensures { rows.new.items ≡ left rows.old.items link.0 }
{
    rows.retain(|row| row.link.0 != link.0);
}

/// Of these declarations those are kept that no row has.
pub fn keep_unowned(decls: &mut Vec<Decl>, owners: &Owners)
    ensures { decls.new.items ≡ filter (λ d. count_of owners.now d == 0) decls.old.items }
{
    decls.retain(|decl| owners.count(decl) == 0);
}
