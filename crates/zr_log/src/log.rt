//! `Log`: what is known of the change log of one router.

ghost use Rattle.std.specs.Prelude.{◌≡◌, IfOk, OnOk, OnErr};
ghost use Rattle.zr_log.specs.Log.{changed, change_held, change_more};

use std::alloc::{AllocError, Global};
use zr_id::zid::Zid;
use zr_log_set::decl_set::DeclSet;
use zr_log_set::weight::decl_weight;
use zr_msg::decl::Decl;

/// What is known of the change log of one router.
#[derive(Drop)]
pub struct Log {
    /// The router whose clients' declarations it tells.
    pub source: Zid,
    /// How many of its changes are known.
    pub position: u64,
    /// What its clients declare after these changes.
    pub decls: DeclSet,
}

/// A set with one declaration more, or with one less.
pub fn change(set: &mut DeclSet, added: bool, decl: &Decl) -> Result<(), AllocError>
    ensures ok { OnOk result (set.new ≡ changed set.old (record { added = added; decl = decl.now })) }
    ensures err { OnErr result (set.new ≡ set.old) }
{
    if added {
        return set.add(decl);
    }
    set.remove(decl);
    Ok(())
}

/// What a change leaves of a set weighs so much, without the declaration that it adds.
pub fn held(set: &DeclSet, added: bool, decl: &Decl) -> u64
    ensures { result ≡ change_held set.now (record { added = added; decl = decl.now }) }
{
    set.weight_without(decl)
}

/// What a change adds weighs so much.
pub fn more(added: bool, decl: &Decl) -> u64
    ensures { result ≡ change_more (record { added = added; decl = decl.now }) }
{
    if added { decl_weight(decl) } else { 0 }
}

/// Second logs, equal to these.
pub fn copies_of(alloc: Global, logs: &[Log]) -> Result<Vec<Log>, AllocError>
    ensures { IfOk result (λ v. v.items ≡ logs.now) }
{
    let mut copies = Vec::with_capacity(alloc, logs.len())?;
    for log in logs {
        copies.push(copy_of(alloc, log)?)?;
    }
    Ok(copies)
}

fn copy_of(alloc: Global, log: &Log) -> Result<Log, AllocError>
    ensures { IfOk result (λ l. l ≡ log.now) }
{
    Ok(Log {
        source: log.source,
        position: log.position,
        decls: log.decls.copy(alloc)?,
    })
}
