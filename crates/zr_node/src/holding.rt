//! How who has declared what is kept true where a client, or another router's log, changes it: what stands at the place is taken, and what
//! stands there after the change is put.

ghost use Rattle.std.specs.Prelude.{◌≡◌, ◌++◌, ℕ, List, if◌then◌else◌, IfOk, OnOk, OnErr};
ghost use Rattle.zr_local.specs.Rows.{AreInOrder, gone, came};
ghost use Rattle.zr_local.specs.declared.row.Row.{Row};
ghost use Rattle.zr_log.specs.Known.{IsRefusedAs, is_next, is_newer, after_step, after_snap, refuses_step, refuses_snap};
ghost use Rattle.zr_log.specs.Known.{refusal as log_refusal};
ghost use Rattle.zr_log.specs.declared.log.Log.{Log};
ghost use Rattle.zr_node_spec.specs.Changes.{changes_of, after_changes};
ghost use Rattle.zr_push_sought.specs.Holders.{HoldJust};
ghost use Rattle.zr_push_sought.specs.Pairs.{Declared, all_declared, of_clients};
ghost use Rattle.zr_node.specs.Answer.{IsJudged};
ghost use Rattle.zr_node.specs.Asked.{rows_after, local_after, refuses_asked};
ghost use Rattle.zr_node.specs.Holding.{touched, rows_but};

use crate::asked::{self, Asked};
use crate::failure::NodeFailure;
use std::alloc::AllocError;
use zr_id::link::LinkNo;
use zr_id::zid::Zid;
use zr_local::changes::Changes;
use zr_local::local::Local;
use zr_log::error::KnownError;
use zr_log::known::{Known, Taken};
use zr_msg::decl::{Decl, Kind};
use zr_push_sought::holders::Holders;

/// Which declarations of clients may change where a client asks something of its own.
#[derive(Clone, Copy)]
pub enum Touched {
    /// What it has declared under an id, or declares there.
    Row { link: LinkNo, id: u32, kind: Kind },
    /// All that it has declared.
    Client { link: LinkNo },
}

fn touched_by(asked: &Asked) -> Touched
    ensures { result ≡ touched asked.now }
{
    match asked {
        Asked::Declare { link, id, decl } => Touched::Row {
            link: *link,
            id: *id,
            kind: decl.kind,
        },
        Asked::Undeclare { link, id, kind } => Touched::Row {
            link: *link,
            id: *id,
            kind: *kind,
        },
        Asked::Leave { link } => Touched::Client { link: *link },
    }
}

// What may change is held no more.
fn take(holders: &mut Holders, local: &Local, place: &Touched)
    ensures in_order { AreInOrder local.now.rows }
    ensures holders { (rest : List Declared) → HoldJust (of_clients local.now.rows ++ rest) holders.old → HoldJust (of_clients (rows_but local.now.rows place.now) ++ rest) holders.new }
{
    let rows = local.rows();
    match place {
        Touched::Row { link, id, kind } => holders.take_row(rows, *link, *id, *kind),
        Touched::Client { link } => holders.take_client(local, *link),
    }
}

// What may have changed is held again.
fn put(holders: &mut Holders, local: &Local, place: &Touched)
    ensures { (rest : List Declared) → HoldJust (of_clients (rows_but local.now.rows place.now) ++ rest) holders.old → HoldJust (of_clients local.now.rows ++ rest) holders.new }
{
    match place {
        Touched::Row { link, id, kind } => holders.put_row(local.rows(), *link, *id, *kind),
        Touched::Client { link } => holders.put_client(local, *link),
    }
}

/// Does what a client asks, and tells what became of the set of all declarations, as [`asked::apply`].
pub fn apply(local: &mut Local, holders: &mut Holders, asked: Asked) -> Result<Changes, NodeFailure>
    ensures gone { IfOk result (λ c. c.gone.items ≡ gone local.old.rows (rows_after local.old.rows asked)) }
    ensures came { IfOk result (λ c. c.came.items ≡ came local.old.rows (rows_after local.old.rows asked)) }
    ensures value { OnOk result (local.new ≡ local_after local.old asked) }
    ensures refused { IsJudged (refuses_asked local.old asked) result }
    ensures unchanged { OnErr result (local.new ≡ local.old) }
    ensures holders { (me : List ℕ) (logs : List Log) → HoldJust (all_declared local.old.rows me logs) holders.old → HoldJust (all_declared local.new.rows me logs) holders.new }
{
    let place = touched_by(&asked);
    take(holders, local, &place);
    let done = asked::apply(local, asked);
    put(holders, local, &place);
    done
}

/// The own log has these changes too, as by [`asked::log`].
pub fn log(known: &mut Known, holders: &mut Holders, changes: &Changes) -> Result<(), AllocError>
    ensures known { OnOk result (known.new ≡ after_changes known.old (changes_of changes.now.gone.items changes.now.came.items)) }
    ensures me { known.new.me ≡ known.old.me }
    ensures holders { (rows : List Row) → HoldJust (all_declared rows known.old.me known.old.logs) holders.old → HoldJust (all_declared rows known.old.me known.new.logs) holders.new }
{
    match asked::log(known, changes) {
        Ok(()) => Ok(()),
        Err(AllocError) => {
            holders.forget(); // how much stands in the log isn't told
            Err(AllocError)
        }
    }
}

/// Takes over a change of another router's log where it is the next one, as [`Known::step`].
pub fn step(
    me: Zid,
    known: &mut Known,
    holders: &mut Holders,
    source: Zid,
    number: u64,
    added: bool,
    decl: &Decl,
) -> Result<Taken, KnownError>
    requires { me ≡ known.old.me }
    ensures answer { IfOk result (λ t. t ≡ (if is_next known.old source number then Taken.New else Taken.Old)) }
    ensures known { OnOk result (known.new ≡ after_step known.old source number (record { added = added; decl = decl.now })) }
    ensures refused { refuses_step known.old source number (record { added = added; decl = decl.now }) ≡ log_refusal result }
    ensures unchanged { OnErr result (known.new ≡ known.old) }
    ensures holders { (rows : List Row) → HoldJust (all_declared rows me known.old.logs) holders.old → HoldJust (all_declared rows me known.new.logs) holders.new }
{
    if source == me {
        return known.step(source, number, added, decl);
    }
    holders.take_decl(source, known.decls(source), decl);
    let taken = known.step(source, number, added, decl);
    holders.put_decl(source, known.decls(source), decl);
    taken
}

/// Takes over a snapshot of another router's log where it is beyond what is known, as [`Known::snap`].
pub fn snap(
    me: Zid,
    known: &mut Known,
    holders: &mut Holders,
    source: Zid,
    number: u64,
    decls: &[Decl],
) -> Result<Taken, KnownError>
    requires { me ≡ known.old.me }
    ensures answer { IfOk result (λ t. t ≡ (if is_newer known.old source number then Taken.New else Taken.Old)) }
    ensures known { OnOk result (known.new ≡ after_snap known.old source number decls.now) }
    ensures refused { IsRefusedAs (refuses_snap known.old source number decls.now) result }
    ensures unchanged { OnErr result (known.new ≡ known.old) }
    ensures holders { (rows : List Row) → HoldJust (all_declared rows me known.old.logs) holders.old → HoldJust (all_declared rows me known.new.logs) holders.new }
{
    if !is_newer(me, known, source, number) {
        return known.snap(source, number, decls);
    }
    holders.take_set(source, known.decls(source));
    let taken = known.snap(source, number, decls);
    holders.put_set(source, known.decls(source));
    taken
}

// Whether a snapshot of another router's log is beyond what is known.
fn is_newer(me: Zid, known: &Known, source: Zid, number: u64) -> bool
    requires { me ≡ known.now.me }
    ensures { result ≡ is_newer known.now source number }
{
    source != me && number > known.position(source)
}
