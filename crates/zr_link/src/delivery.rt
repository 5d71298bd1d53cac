//! A link that is up: what comes is delivered.

ghost use Rattle.std.specs.Prelude.{◌≡◌, ◌≢◌, ◌<◌, ◌≤◌, ◌+◌, ◌⊎◌, List, [], true, None, IfErr, IfOk, OnErr, OnOk, vec_capacity};
ghost use Rattle.std.specs.List.{AllByRecursion};
ghost use mathlib.Core.List.{IsPrefix};
ghost use Rattle.std.specs.Vec.Iter.{into_iter_items};
ghost use Rattle.zr_outside.specs.Counts.{Counted, RoseBy};
ghost use Rattle.zr_hist.specs.Words.{pass_name, IsSamePass, seen, mine};
ghost use Rattle.zr_msg.specs.declared.msg.Msg.{Msg};
ghost use Rattle.zr_session.specs.declared.event.SessionEvent.{SessionEvent};
ghost use Rattle.zr_session.specs.declared.fate.Fate.TheVariants as fates;
ghost use Rattle.zr_session.specs.Session.{is_running};
ghost use Rattle.zr_wire.specs.Writing.{IsSpelled};
ghost use Rattle.zr_link.specs.declared.end.LinkEnd.TheVariants as end;
ghost use Rattle.zr_link.specs.Heard.{AreMessages, IsLate, IsOpen, IsIn};
ghost use Rattle.zr_link.specs.Heard as heard;
ghost use Rattle.zr_port.specs.Coming.{Came, Through, sight};
ghost use Rattle.zr_link.specs.Gone.{IsGone, is_gone};
ghost use Rattle.zr_link.specs.Log.{refusal_of};
ghost use Rattle.zr_link.specs.Logged.{TellsDenials};
ghost use Rattle.zr_link.specs.Run.{Delivers, Stops, EndIs, Follows};

use crate::end::LinkEnd;
use crate::intake::Intake;
use crate::log::LinkLog;
use crate::opening::ended;
use std::alloc::{AllocError, Global};
use std::vec;
use zr_hist::Pass;
use zr_id::link::LinkNo;
use zr_msg::msg::Msg;
use zr_outside::clock::Clock;
use zr_outside::log::Log;
use zr_outside::source::Source;
use zr_port::{Entry, Port};
use zr_session::{Fate, SessionEvent};

/// Reads so often at most, and delivers what comes, until the session ends. The log is told what the rules deny, and why a message is refused otherwise.
pub(crate) fn go_on<S: Source, P: Port, C: Clock, L: Log + Drop>(
    alloc: Global,
    intake: &mut Intake,
    source: &mut S,
    clock: &mut C,
    port: &P,
    pass: &mut Pass<Entry>,
    link: LinkNo,
    turns: u64,
    log: &mut LinkLog<L>,
) -> LinkEnd
    requires pass { pass_name pass.old ≡ P.history port.now }
    requires running { is_running intake.old.session.state ≡ true }
    requires opened { IsIn IsOpen intake.old.session }
    requires going { refusal_of log.old ≡ None }
    ensures same { IsSamePass pass.old pass.new }
    ensures prefix { IsPrefix (seen pass.old) (seen pass.new) }
    ensures followed { (came : List Came) × Through link (λ h m x. P.refuses_message port.now h link m x) came (sight pass.old) (sight pass.new) × Follows link came intake.old.session [] fates.Going result (S.left source.old) (S.left source.new) (IsLate (S.quiets source.old) (S.quiets source.new) intake.old.session.heard (C.last clock.old) (C.last clock.new)) (P.refuses_message port.now) (seen pass.new) }
    ensures fault { Counted (S.faults source.old) (S.faults source.new) (result ≡ end.ReadFault) }
    ensures ended { Counted (S.ends source.old) (S.ends source.new) (result ≡ end.PeerEnded) }
    ensures turns { result ≡ end.Turns → RoseBy turns (S.reads source.old) (S.reads source.new) }
    ensures reads { S.reads source.new ≤ S.reads source.old + turns }
    ensures later { (S.quiets source.old ≤ S.quiets source.new) × (C.last clock.old ≤ C.last clock.new) }
    ensures gone { is_gone (refusal_of log.new) ≡ true → IsGone (λ m x. P.refuses_message port.now (seen pass.new) link m x) }
    ensures logged { TellsDenials (λ l. L.held l) (λ l. L.lost l) log.old log.new }
{
    for _ in 0..turns {
        let fate = match intake.next(source, clock) {
            Ok(fate) => fate,
            Err(end) => return end,
        };
        let events = intake.take_events(alloc).into_iter();
        if let Err(end) = settle(alloc, port, pass, link, events, fate, intake.moment, log) {
            return end;
        }
    }
    LinkEnd::Turns
}

/// Delivers these messages, which have come by then, and tells the end where the session has come to it. The log is told what the rules deny, and why a
/// message is refused otherwise.
pub(crate) fn settle<P: Port, L: Log + Drop>(
    alloc: Global,
    port: &P,
    pass: &mut Pass<Entry>,
    link: LinkNo,
    messages: vec::IntoIter<SessionEvent>,
    fate: Fate,
    now: u64,
    log: &mut LinkLog<L>,
) -> Result<(), LinkEnd>
    requires pass { pass_name pass.old ≡ P.history port.now }
    requires messages { AreMessages IsSpelled (into_iter_items messages) }
    requires going { refusal_of log.old ≡ None }
    ensures same { IsSamePass pass.old pass.new }
    ensures prefix { IsPrefix (seen pass.old) (seen pass.new) }
    ensures ok { OnOk result ((fate ≡ fates.Going) × Delivers link (λ h m x. P.refuses_message port.now h link m x) (into_iter_items messages) [] (sight pass.old) (sight pass.new)) }
    ensures err { IfErr result (λ e. (rest : List SessionEvent) × Delivers link (λ h m x. P.refuses_message port.now h link m x) (into_iter_items messages) rest (sight pass.old) (sight pass.new) × (Stops (λ m x. P.refuses_message port.now (seen pass.new) link m x) rest e ⊎ ((rest ≡ []) × EndIs fate e))) }
    ensures going { OnOk result (refusal_of log.new ≡ None) }
    ensures gone { OnErr result (is_gone (refusal_of log.new) ≡ true → IsGone (λ m x. P.refuses_message port.now (seen pass.new) link m x)) }
    ensures logged { TellsDenials (λ l. L.held l) (λ l. L.lost l) log.old log.new }
{
    match deliver_all(alloc, port, pass, link, messages, now, log) {
        Ok(()) => ended(fate),
        Err(end) => Err(end),
    }
}

// Delivers the messages of these events, in order, but those that the port passes over.
fn deliver_all<P: Port, L: Log + Drop>(
    alloc: Global,
    port: &P,
    pass: &mut Pass<Entry>,
    link: LinkNo,
    events: vec::IntoIter<SessionEvent>,
    now: u64,
    log: &mut LinkLog<L>,
) -> Result<(), LinkEnd>
    requires pass { pass_name pass.old ≡ P.history port.now }
    requires messages { AreMessages IsSpelled (into_iter_items events) }
    requires going { refusal_of log.old ≡ None }
    ensures same { IsSamePass pass.old pass.new }
    ensures prefix { IsPrefix (seen pass.old) (seen pass.new) }
    ensures all { OnOk result (Delivers link (λ h m x. P.refuses_message port.now h link m x) (into_iter_items events) [] (sight pass.old) (sight pass.new)) }
    ensures stopped { IfErr result (λ e. (rest : List SessionEvent) × Delivers link (λ h m x. P.refuses_message port.now h link m x) (into_iter_items events) rest (sight pass.old) (sight pass.new) × Stops (λ m x. P.refuses_message port.now (seen pass.new) link m x) rest e) }
    ensures going { OnOk result (refusal_of log.new ≡ None) }
    ensures gone { OnErr result (is_gone (refusal_of log.new) ≡ true → IsGone (λ m x. P.refuses_message port.now (seen pass.new) link m x)) }
    ensures logged { TellsDenials (λ l. L.held l) (λ l. L.lost l) log.old log.new }
{
    let Ok(messages) = messages_of(alloc, events) else {
        return Err(LinkEnd::NoMemory);
    };
    let denial = log.denial(now, messages.as_slice());
    if let Err(e) = port.deliver_all(pass, link, messages) {
        // whether the message that was denied came before the one that was refused isn't known
        drop(denial);
        log.refused(&e);
        return Err(LinkEnd::of_delivery(e));
    }
    log.denied(&denial);
    drop(denial);
    Ok(())
}

// The messages of these events. Where there are none it takes no memory.
#[tactic(auto, using(crate::proofs::Going::none_yet, crate::proofs::Going::none_spelled, crate::proofs::Going::all_messages, crate::proofs::Going::some_left))]
fn messages_of(alloc: Global, events: vec::IntoIter<SessionEvent>) -> Result<Vec<Msg>, AllocError>
    requires { AreMessages IsSpelled (into_iter_items events) }
    ensures are { IfOk result (λ m. into_iter_items events ≡ heard.messages m.items) }
    ensures spelled { IfOk result (λ m. AllByRecursion IsSpelled m.items) }
    ensures some { OnErr result (into_iter_items events ≢ []) }
{
    let mut rest = events;
    let mut messages = room_for(alloc, rest.len())?;
    while let Some(event) = rest.next() {
        match event {
            SessionEvent::Message(msg) => messages.push_reserved(msg),
            // a session opens once
            SessionEvent::Opened(_, _) => unreachable!(),
        }
    }
    rest.destroy_empty();
    Ok(messages)
}

// Room for so many messages.
fn room_for(alloc: Global, count: usize) -> Result<Vec<Msg>, AllocError>
    ensures room { IfOk result (λ m. (m.items ≡ []) × (count ≤ vec_capacity m)) }
    ensures some { OnErr result (0 < count) }
{
    if count == 0 {
        return Ok(Vec::new(alloc));
    }
    Vec::with_capacity(alloc, count)
}
