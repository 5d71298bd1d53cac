//! Logs in ascending order of their routers, and the list of these routers beside them: the place of one, and how one is put there.

ghost use Rattle.std.specs.Prelude.{◌≡◌, ◌<◌, ◌≤◌, map, length, slice_set, slice_index_or, OnOk, OnErr};
ghost use Rattle.std.specs.Cmp.Lexicographic.{slice_cmp};
ghost use Rattle.std.specs.Ordering.{nat_cmp};
ghost use Rattle.zr_lists.specs.Ascending.{IsAscending, put};
ghost use Rattle.zr_lists.specs.Place.{IsPlace};
ghost use Rattle.zr_log.specs.Known.{changed_log};
ghost use Rattle.zr_log.specs.declared.log.Log.{Log};
ghost use Rattle.std.specs.List.{insert};

use crate::log::{Log, change};
use std::alloc::AllocError;
use zr_id::zid::Zid;
use zr_msg::decl::Decl;

/// The place of the log of a router, or the place where it would stand.
pub fn place_of(logs: &[Log], source: &Zid) -> Result<usize, usize>
    requires { IsAscending (slice_cmp nat_cmp) (λ l. l.source) logs.now }
    ensures { IsPlace (slice_cmp nat_cmp) (λ l. l.source) logs.now source.now result }
{
    logs.binary_search_by_key(source, |l| l.source)
}

/// The log at a place has one change more: its number is the new position.
pub fn change_at(
    logs: &mut Vec<Log>,
    at: usize,
    number: u64,
    added: bool,
    decl: &Decl,
) -> Result<(), AllocError>
    requires { at < length logs.old.items }
    ensures ok { (d : Log) → OnOk result (logs.new.items ≡ slice_set logs.old.items at (changed_log (slice_index_or logs.old.items at d) number (record { added = added; decl = decl.now }))) }
    ensures err { OnErr result (logs.new.items ≡ logs.old.items) }
{
    let log = &mut logs[at];
    change(&mut log.decls, added, decl)?;
    log.position = number;
    Ok(())
}

/// Puts a log into the place that [`place_of`] found for it.
pub fn put(
    names: &mut Vec<Zid>,
    logs: &mut Vec<Log>,
    place: Result<usize, usize>,
    new: Log,
) -> Result<(), AllocError>
    requires place { IsPlace (slice_cmp nat_cmp) (λ l. l.source) logs.old.items new.source place }
    requires named { names.old.items ≡ map (λ l. l.source) logs.old.items }
    ensures ok { OnOk result (logs.new.items ≡ put (slice_cmp nat_cmp) (λ l. l.source) logs.old.items new) }
    ensures named { names.new.items ≡ map (λ l. l.source) logs.new.items }
    ensures err { OnErr result (logs.new.items ≡ logs.old.items) }
{
    match place {
        Ok(at) => {
            logs[at] = new;
            Ok(())
        }
        Err(at) => insert(names, logs, at, new),
    }
}

fn insert(names: &mut Vec<Zid>, logs: &mut Vec<Log>, at: usize, new: Log) -> Result<(), AllocError>
    requires within { at ≤ length logs.old.items }
    requires named { names.old.items ≡ map (λ l. l.source) logs.old.items }
    ensures ok { OnOk result (logs.new.items ≡ insert logs.old.items at new) }
    ensures named { names.new.items ≡ map (λ l. l.source) logs.new.items }
    ensures err { OnErr result (logs.new.items ≡ logs.old.items) }
{
    names.insert(at, new.source)?;
    if logs.insert(at, new).is_err() {
        names.remove(at);
        return Err(AllocError);
    }
    Ok(())
}
