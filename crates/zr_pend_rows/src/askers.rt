//! Who asked the rows: the numbers under which each link has asked.

ghost use Rattle.std.specs.Prelude.{◌≡◌, ◌&&◌, ◌||◌, not, true, false, IfOk, OnOk, OnErr};
ghost use Rattle.std.specs.List.{list_all, list_any};
ghost use Rattle.std.specs.BTreeMap.{values};
ghost use Rattle.std.specs.Option.{option_map_or};
ghost use Rattle.zr_pend_numbers.specs.Numbers.{is_used};
ghost use Rattle.zr_pend_rows.specs.Tied.{AreAsked, as_branch};
ghost use Rattle.zr_pend_spec.specs.Row.{is_branch};

use crate::row::Row;
use std::alloc::{AllocError, Global};
use std::collections::BTreeMap;
use zr_pend_numbers::numbers::Numbers;
use zr_pend_spec::branch::{Asker, Branch};

/// The number that an asker gave its request, on its link.
pub fn as_branch(asker: Asker) -> Branch
    ensures { result ≡ as_branch asker }
{
    Branch {
        link: asker.link,
        number: asker.number,
    }
}

/// The numbers under which each link has asked.
pub fn askers_in(alloc: Global, rows: &BTreeMap<u64, Row>) -> Result<Numbers, AllocError>
    ensures { IfOk result (λ ns. AreAsked ns (values rows.now)) }
{
    let mut asked = Numbers::new(alloc);
    for row in rows.values() {
        put_asker(&mut asked, alloc, row.asker())?;
    }
    Ok(asked)
}

fn put_asker(asked: &mut Numbers, alloc: Global, asker: Option<Asker>) -> Result<(), AllocError>
    ensures { OnOk result ((c : Branch) → is_used asked.new c ≡ (option_map_or (λ a. is_branch c (as_branch a)) asker false || is_used asked.old c)) }
{
    match asker {
        Some(asker) => asked.put(alloc, as_branch(asker)),
        None => Ok(()),
    }
}

/// A request has begun: the numbers of its branches are pending, and its asker has asked. Where memory runs out neither is so.
pub fn enter(
    pending: &mut Numbers,
    asked: &mut Numbers,
    alloc: Global,
    asker: Asker,
    branches: &[Branch],
) -> Result<(), AllocError>
    requires free { list_all (λ b. not (is_used pending.old b)) branches.now ≡ true }
    requires fresh { is_used asked.old (as_branch asker) ≡ false }
    ensures pending { OnOk result ((c : Branch) → is_used pending.new c ≡ (list_any (λ b. is_branch c b) branches.now || is_used pending.old c)) }
    ensures asked { OnOk result ((c : Branch) → is_used asked.new c ≡ (is_branch c (as_branch asker) || is_used asked.old c)) }
    ensures not_pending { OnErr result ((c : Branch) → is_used pending.new c ≡ is_used pending.old c) }
    ensures not_asked { OnErr result ((c : Branch) → is_used asked.new c ≡ is_used asked.old c) }
{
    let own = as_branch(asker);
    asked.put(alloc, own)?;
    let done = pending.put_all(alloc, branches);
    if done.is_err() {
        asked.take(own);
    }
    done
}

/// A request has not begun after all: the numbers of its branches are free, and its asker hasn't asked.
pub fn withdraw(pending: &mut Numbers, asked: &mut Numbers, asker: Asker, branches: &[Branch])
    ensures pending { (c : Branch) → is_used pending.new c ≡ (not (list_any (λ b. is_branch c b) branches.now) && is_used pending.old c) }
    ensures asked { (c : Branch) → is_used asked.new c ≡ (not (is_branch c (as_branch asker)) && is_used asked.old c) }
{
    pending.take_all(branches);
    asked.take(as_branch(asker));
}

/// An asker has got the final: it has asked no more.
pub fn take_asker(asked: &mut Numbers, asker: Option<Asker>)
    ensures { (c : Branch) → is_used asked.new c ≡ (not (option_map_or (λ a. is_branch c (as_branch a)) asker false) && is_used asked.old c) }
{
    if let Some(asker) = asker {
        asked.take(as_branch(asker));
    }
}

/// These have got theirs.
pub fn take_askers(asked: &mut Numbers, askers: &[Asker])
    ensures { (c : Branch) → is_used asked.new c ≡ (not (list_any (λ a. is_branch c (as_branch a)) askers.now) && is_used asked.old c) }
{
    for asker in askers {
        asked.take(as_branch(*asker));
    }
}
