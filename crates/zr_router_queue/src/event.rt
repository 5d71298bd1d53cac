//! How an event that the router handled is entered: its plans for the links, its entry in the history, and what their rings are given.

ghost use Rattle.std.specs.Prelude.{◌≡◌, ◌<◌, ◌++◌, ℕ, List, [], ◌∷◌, All, IfOk, OnOk, filter, length, map, true};
ghost use Rattle.std.specs.List.{AllByRecursion, AllZip};
ghost use mathlib.Core.List.{IsPrefix};
ghost use Rattle.zr_hist.specs.Words.{IsKeptOf, IsPassOf, IsSameKept, IsSamePass, list_of, most_entries, mine, seen};
ghost use Rattle.zr_port.specs.Adding.{IsEntryOf};
ghost use Rattle.zr_node_spec.specs.Event.{on_link};
ghost use Rattle.zr_told_spec.specs.Hub.{HubState};
ghost use Rattle.zr_wire.specs.Writable.{IsWritable};
ghost use Rattle.zr_router_queue.specs.Tables.{open_queues, queued_by, replay};
ghost use Rattle.zr_router_queue.specs.History.{is_legal};
ghost use Rattle.zr_router_queue.specs.Ends.{IsAsked, IsEntered, IsNamed, IsPlannedAnew, IsPlannedFor, IsSameRing, IsSettled, IsStill, MayEnter, is_closing, is_dropped};

use crate::link_end::LinkSender;
use crate::scratch::Scratch;
use crate::written::written;
use std::alloc::{AllocError, Global};
use zr_frame::Outbox;
use zr_hist::{History, Kept, Pass};
use zr_id::link::LinkNo;
use zr_id::zid::Zid;
use zr_msg::event::Event;
use zr_msg::msg::Msg;
use zr_port::{Entry, Links};

/// Plans what an event sends on each link that is up, and makes its entry, which names the links whose rings lack room. Nothing is given to a ring, and
/// where memory runs out what was queued is as before too.
pub fn prepare(
    alloc: Global,
    ends: &mut [LinkSender],
    sent: &[(LinkNo, Msg)],
    event: Event,
    outbox: Option<Outbox>,
    reason: Option<u8>,
) -> Result<Entry, AllocError>
    requires { All (λ x. IsWritable x.1) sent.now }
    ensures each { OnOk result (AllZip (λ old new. (new.queue ≡ old.queue) × IsPlannedFor (on_link old.queue.link sent.now) new) ends.old ends.new) }
    ensures asked { OnOk result (AllZip (λ old new. IsAsked old new) ends.old ends.new) }
    ensures still { AllZip (λ old new. IsStill old new) ends.old ends.new }
    ensures entry { IfOk result (λ e. IsEntryOf event outbox reason e) }
    ensures dropped { IfOk result (λ e. e.dropped ≡ map (λ x. x.queue.link) (filter (λ x. is_dropped x) ends.new)) }
    ensures closed { IfOk result (λ e. e.closed ≡ map (λ x. x.queue.link) (filter (λ x. is_closing x) ends.new)) }
{
    match plan_links(alloc, ends, sent) {
        Ok(Lacking { dropped, closed }) => Ok(Entry {
            event,
            outbox,
            reason,
            dropped,
            closed,
        }),
        Err(e) => {
            drop(event);
            Err(e)
        }
    }
}

// Links whose rings lack room for what an event has for them.
struct Lacking {
    dropped: Links,
    closed: Links,
}

fn plan_links(
    alloc: Global,
    ends: &mut [LinkSender],
    sent: &[(LinkNo, Msg)],
) -> Result<Lacking, AllocError>
    requires { All (λ x. IsWritable x.1) sent.now }
    ensures planned { OnOk result (AllZip (λ old new. IsPlannedAnew (on_link old.queue.link sent.now) old new) ends.old ends.new) }
    ensures still { AllZip (λ old new. IsStill old new) ends.old ends.new }
    ensures dropped { IfOk result (λ l. l.dropped ≡ map (λ x. x.queue.link) (filter (λ x. is_dropped x) ends.new)) }
    ensures closed { IfOk result (λ l. l.closed ≡ map (λ x. x.queue.link) (filter (λ x. is_closing x) ends.new)) }
{
    plan_all(alloc, ends, sent)?;
    Ok(Lacking {
        dropped: dropped_of(alloc, ends)?,
        closed: closed_of(alloc, ends)?,
    })
}

#[tactic(auto, using(crate::proofs::Stepped::stepped_first, crate::proofs::Stepped::stepped_all))]
fn plan_all(
    alloc: Global,
    ends: &mut [LinkSender],
    sent: &[(LinkNo, Msg)],
) -> Result<(), AllocError>
    requires { All (λ x. IsWritable x.1) sent.now }
    ensures planned { OnOk result (AllZip (λ old new. IsPlannedAnew (on_link old.queue.link sent.now) old new) ends.old ends.new) }
    ensures still { AllZip (λ old new. IsStill old new) ends.old ends.new }
{
    let written = written(alloc, sent)?;
    let mut scratch = Scratch::new(alloc)?;
    for end in ends.iter_mut() {
        end.plan(alloc, sent, &written, &mut scratch)?;
    }
    Ok(())
}

// The links to which one sample isn't sent.
fn dropped_of(alloc: Global, ends: &[LinkSender]) -> Result<Links, AllocError>
    ensures { IfOk result (λ l. l ≡ map (λ x. x.queue.link) (filter (λ x. is_dropped x) ends.now)) }
{
    let mut links = Vec::new(alloc);
    for end in ends {
        if end.is_dropped() {
            links.push(end.link())?;
        }
    }
    Ok(Links::new(links))
}

// The links that are closed.
fn closed_of(alloc: Global, ends: &[LinkSender]) -> Result<Links, AllocError>
    ensures { IfOk result (λ l. l ≡ map (λ x. x.queue.link) (filter (λ x. is_closing x) ends.now)) }
{
    let mut links = Vec::new(alloc);
    for end in ends {
        if end.is_closing() {
            links.push(end.link())?;
        }
    }
    Ok(Links::new(links))
}

/// Appends the entry of an event that may follow, and gives the rings what it queues. It takes no memory.
pub fn enter(
    history: &History<Entry>,
    kept: &mut Kept<Entry>,
    pass: &mut Pass<Entry>,
    me: Zid,
    ends: &mut [LinkSender],
    entry: &Entry,
)
    requires kept { IsKeptOf history.now kept.old }
    requires pass { IsPassOf history.now pass.old }
    requires room { length (list_of kept.old) < most_entries }
    requires may { MayEnter me (list_of kept.old) entry.now ends.old }
    ensures same { IsSameKept kept.old kept.new × IsSamePass pass.old pass.new }
    ensures prefix { IsPrefix (seen pass.old) (list_of kept.old) }
    ensures list { list_of kept.new ≡ list_of kept.old ++ entry.now ∷ [] }
    ensures mine { mine pass.new ≡ mine pass.old ++ entry.now ∷ [] }
    ensures seen { seen pass.new ≡ list_of kept.new }
    ensures legal { is_legal me (list_of kept.new) ≡ true }
    ensures rings { AllZip (λ old new. IsSameRing old new) ends.old ends.new }
    ensures given { AllZip (λ old new. new.queue ≡ queued_by (replay me (list_of kept.old)).hub entry.now old.queue) ends.old ends.new }
    ensures queues { map (λ x. x.queue) ends.new ≡ open_queues (replay me (list_of kept.new)) }
    ensures named { AllByRecursion (λ x. IsNamed me (list_of kept.new) x) ends.new }
{
    history.note(kept, pass, entry);
    settle_all(ends, history, pass, me, entry);
}

#[tactic(auto, using(crate::proofs::Stepped::stepped_first, crate::proofs::Stepped::stepped_all))]
fn settle_all(
    ends: &mut [LinkSender],
    history: &History<Entry>,
    pass: &mut Pass<Entry>,
    me: Zid,
    entry: &Entry,
)
    requires pass { IsPassOf history.now pass.old }
    requires entered { All (λ x. (hub : HubState) × IsEntered me (seen pass.old) hub entry.now x) ends.old }
    ensures pass { IsSamePass pass.old pass.new × (seen pass.new ≡ seen pass.old) × (mine pass.new ≡ mine pass.old) }
    ensures each { AllZip (λ old new. IsSettled entry.now old new) ends.old ends.new }
{
    for end in ends.iter_mut() {
        end.settle(history, pass, me, entry);
    }
}
