//! `Admin`: the inner client of a router.

ghost use Rattle.std.specs.Prelude.{◌≡◌, ◌≤◌, ◌+◌, ◌∷◌, List, Result, [], length, IfErr, IfOk, MatchOption, OnOk, false, true};
ghost use Rattle.std.specs.Arc.{arc_value};
ghost use Rattle.std.specs.List.{AllByRecursion};
ghost use Rattle.zr_hist.specs.Words.{pass_name, IsSamePass, seen};
ghost use Rattle.zr_msg.specs.declared.msg.Msg.TheVariants.{Able};
ghost use Rattle.zr_port.specs.Coming.{Delivered, Looks, Through, sight};
ghost use Rattle.zr_ring.specs.Taker.{taken, taker_name, take_calls, IsSameTaker};
ghost use Rattle.zr_wire.specs.Writing.{IsSpelled};
ghost use Rattle.zr_glance.specs.Pages.{pages};
ghost use Rattle.zr_admin.specs.Answers.{all_answers, count_replies};
ghost use Rattle.zr_admin.specs.Asked.{asked};
ghost use Rattle.zr_admin.specs.Hearing.{heard};
ghost use Rattle.zr_admin.specs.Inner.{AllSteps, AnswersAll, ComesTo, HasRing, Hears, IsOpened, IsUndeclared, IsUnopened, Leaves, Steps, end_by, inner_at};
ghost use Rattle.zr_admin.specs.declared.error.AdminError.{AdminError};
ghost use Rattle.zr_admin.specs.declared.error.Stepped.{Stepped};

use crate::answering::answers_to;
use crate::asked::{Asked, requests_in};
use crate::delivering::deliver_each;
use crate::error::{AdminEnd, AdminError, Stepped};
use crate::hearing::Hearing;
use crate::inner::{inner_outbox, inner_peer};
use std::alloc::{AllocError, Global};
use std::sync::Arc;
use zr_glance::{pages, space_key};
use zr_hist::Pass;
use zr_id::link::LinkNo;
use zr_id::zid::Zid;
use zr_key::key::KeyExpr;
use zr_msg::msg::Msg;
use zr_outside::clock::Clock;
use zr_port::{DeliverError, Entry, Port};
use zr_port_glance::Glancing;
use zr_ring::{Bytes, Taker, Took};

/// The id under which it declares what it answers.
const ABLE: u32 = 1;

/// The inner client of a router: its port, a pass of the router's history, its link and the taker of what is queued for that, the router's identifier, and
/// what it has heard of a message that isn't whole.
#[derive(Drop)]
pub struct Admin<P: Glancing + Drop> {
    pub alloc: Global,
    pub port: Arc<P>,
    pub pass: Pass<Entry>,
    pub link: LinkNo,
    pub taker: Taker<P::Note>,
    pub id: Zid,
    pub hearing: Hearing,
    ghost ours: { pass_name pass ≡ P.history (arc_value port) },
}

impl<P: Glancing + Drop> Admin<P> {
    /// Attaches an inner client with this random word to router `id`: its link comes up, and it declares that it answers on `@/ID/router/**`. Where that
    /// declaration is refused the link goes down again, and the pass comes back.
    pub fn open(
        alloc: Global,
        port: Arc<P>,
        pass: Pass<Entry>,
        id: Zid,
        word: u64,
    ) -> Result<Admin<P>, (AdminError, Pass<Entry>)>
        requires { pass_name pass ≡ P.history (arc_value port) }
        ensures opened { IfOk result (λ a. IsOpened (λ h p e. P.refuses_up (arc_value port) h p e) (λ h m e. P.refuses_message (arc_value port) h a.link m e) id word a.link (sight pass) (sight a.pass)) }
        ensures fresh { IfOk result (λ a. (taken a.taker ≡ []) × (take_calls a.taker ≡ 0) × (a.hearing ≡ []) × (a.id ≡ id) × (arc_value a.port ≡ arc_value port)) }
        ensures ring { IfOk result (λ a. HasRing (P.router (arc_value port)) word a.link (taker_name a.taker) (sight pass)) }
        ensures same { IfOk result (λ a. IsSamePass pass a.pass) }
        ensures unopened { IfErr result (λ e. IsUnopened (λ h p x. P.refuses_up (arc_value port) h p x) (λ h l m x. P.refuses_message (arc_value port) h l m x) (λ h l x. P.refuses_down (arc_value port) h l x) (P.answers_down (arc_value port)) id word e.0 (sight pass) (sight e.1)) }
        ensures back { IfErr result (λ e. IsSamePass pass e.1) }
    {
        let mut pass = pass;
        match enter(alloc, &*port, &mut pass, &id, word) {
            Ok(up) => Ok(Admin {
                alloc,
                port,
                pass,
                link: up.0,
                taker: up.1,
                id,
                hearing: Hearing::new(alloc),
            }),
            Err(e) => Err((e, pass)),
        }
    }

    /// Takes one parcel off the ring, and answers the requests of the messages that are whole with it: one after another, each at a glance made in this
    /// step, with a reply for each page whose key meets the request's, in the order of the pages, and a final behind them.
    pub fn step(&mut self) -> Result<Stepped, AdminError>
        ensures same { IsSamePass self.old.pass self.new.pass × IsSameTaker self.old.taker self.new.taker }
        ensures stays { (self.new.link ≡ self.old.link) × (self.new.id ≡ self.old.id) × (self.new.port ≡ self.old.port) }
        ensures called { take_calls self.new.taker ≡ take_calls self.old.taker + 1 }
        ensures steps { Steps self.old.link (λ h m e. P.refuses_message (arc_value self.old.port) h self.old.link m e) (λ h. P.glance_of (arc_value self.old.port) h) self.old.id result (inner_at (taken self.old.taker) self.old.hearing (sight self.old.pass)) (inner_at (taken self.new.taker) self.new.hearing (sight self.new.pass)) }
    {
        step(
            self.alloc,
            &*self.port,
            self.link,
            self.id,
            &mut self.pass,
            &mut self.taker,
            &mut self.hearing,
        )
    }

    /// Makes so many steps at most, until the ring has ended or a step is refused. It rests once after each step that had nothing to take.
    pub fn run<C: Clock>(&mut self, clock: &mut C, turns: u64) -> AdminEnd
        ensures same { IsSamePass self.old.pass self.new.pass × IsSameTaker self.old.taker self.new.taker }
        ensures stays { (self.new.link ≡ self.old.link) × (self.new.id ≡ self.old.id) × (self.new.port ≡ self.old.port) }
        ensures turns { result ≡ AdminEnd.Turns → take_calls self.new.taker ≡ take_calls self.old.taker + turns }
        ensures steps { (results : List (Result Stepped AdminError)) × ComesTo turns result results × AllSteps self.old.link (λ h m e. P.refuses_message (arc_value self.old.port) h self.old.link m e) (λ h. P.glance_of (arc_value self.old.port) h) self.old.id results (inner_at (taken self.old.taker) self.old.hearing (sight self.old.pass)) (inner_at (taken self.new.taker) self.new.hearing (sight self.new.pass)) }
    {
        run(
            self.alloc,
            &*self.port,
            self.link,
            self.id,
            &mut self.pass,
            &mut self.taker,
            &mut self.hearing,
            clock,
            turns,
        )
    }

    /// Its link goes down, unless it did already. What was declared on it goes with it, and each request that it has not answered gets its final.
    pub fn leave(&mut self)
        ensures same { IsSamePass self.old.pass self.new.pass }
        ensures stays { (self.new.link ≡ self.old.link) × (self.new.id ≡ self.old.id) × (self.new.port ≡ self.old.port) }
        ensures left { Leaves (λ h l e. P.refuses_down (arc_value self.old.port) h l e) (P.answers_down (arc_value self.old.port)) self.old.link (sight self.old.pass) (sight self.new.pass) }
    {
        leave(&*self.port, &mut self.pass, self.link);
    }
}

// A link comes up for the inner client, and it declares what it answers.
fn enter<P: Port>(
    alloc: Global,
    port: &P,
    pass: &mut Pass<Entry>,
    id: &Zid,
    word: u64,
) -> Result<(LinkNo, Taker<P::Note>), AdminError>
    requires pass { pass_name pass.old ≡ P.history port.now }
    ensures same { IsSamePass pass.old pass.new }
    ensures opened { IfOk result (λ r. IsOpened (λ h p e. P.refuses_up port.now h p e) (λ h m e. P.refuses_message port.now h r.0 m e) id.now word r.0 (sight pass.old) (sight pass.new)) }
    ensures fresh { IfOk result (λ r. (taken r.1 ≡ []) × (take_calls r.1 ≡ 0)) }
    ensures ring { IfOk result (λ r. HasRing (P.router port.now) word r.0 (taker_name r.1) (sight pass.old)) }
    ensures unopened { IfErr result (λ e. IsUnopened (λ h p x. P.refuses_up port.now h p x) (λ h l m x. P.refuses_message port.now h l m x) (λ h l x. P.refuses_down port.now h l x) (P.answers_down port.now) id.now word e (sight pass.old) (sight pass.new)) }
{
    // what may fail comes first, so that no link is left behind
    let Ok(key) = space_key(alloc, id) else {
        return Err(AdminError::NoMemory);
    };
    let up = match port.up(pass, inner_peer(word), inner_outbox()) {
        Ok(up) => up,
        Err(e) => {
            drop(key);
            return Err(AdminError::Up(e));
        }
    };
    match declare(port, pass, up.0, key) {
        Ok(()) => Ok(up),
        Err(e) => {
            drop(up);
            Err(AdminError::Deliver(e))
        }
    }
}

// Declares what the inner client answers. Where that is refused its link goes down.
fn declare<P: Port>(
    port: &P,
    pass: &mut Pass<Entry>,
    link: LinkNo,
    key: KeyExpr,
) -> Result<(), DeliverError>
    requires pass { pass_name pass.old ≡ P.history port.now }
    ensures same { IsSamePass pass.old pass.new }
    ensures declared { OnOk result (Through link (λ h m e. P.refuses_message port.now h link m e) (Delivered (Able 1 key false) ∷ []) (sight pass.old) (sight pass.new)) }
    ensures refused { IfErr result (λ e. IsUndeclared (λ h l m x. P.refuses_message port.now h l m x) (λ h l x. P.refuses_down port.now h l x) (P.answers_down port.now) link (Able 1 key false) e (sight pass.old) (sight pass.new)) }
{
    let able = Msg::Able {
        id: ABLE,
        key,
        complete: false,
    };
    match port.deliver(pass, link, able) {
        Ok(()) => Ok(()),
        Err(e) => {
            leave(port, pass, link);
            Err(e)
        }
    }
}

#[tactic(auto, using(crate::proofs::Sending::left))]
fn leave<P: Port>(port: &P, pass: &mut Pass<Entry>, link: LinkNo)
    requires { pass_name pass.old ≡ P.history port.now }
    ensures same { IsSamePass pass.old pass.new }
    ensures left { Leaves (λ h l e. P.refuses_down port.now h l e) (P.answers_down port.now) link (sight pass.old) (sight pass.new) }
{
    // a link that another caller took down is gone as well, and where memory ran out nothing can be done
    let _ = port.down(pass, link, None);
}

// Takes one item off the ring, and answers what it asks.
fn step<P: Glancing>(
    alloc: Global,
    port: &P,
    link: LinkNo,
    id: Zid,
    pass: &mut Pass<Entry>,
    taker: &mut Taker<P::Note>,
    hearing: &mut Hearing,
) -> Result<Stepped, AdminError>
    requires pass { pass_name pass.old ≡ P.history port.now }
    ensures same { IsSamePass pass.old pass.new × IsSameTaker taker.old taker.new }
    ensures called { take_calls taker.new ≡ take_calls taker.old + 1 }
    ensures steps { Steps link (λ h m e. P.refuses_message port.now h link m e) (λ h. P.glance_of port.now h) id result (inner_at (taken taker.old) hearing.old (sight pass.old)) (inner_at (taken taker.new) hearing.new (sight pass.new)) }
{
    match taker.take() {
        Took::Nothing => Ok(Stepped::Idle),
        Took::Ended(_) => Ok(Stepped::Ended),
        Took::Parcel(parcel) => answer(alloc, port, pass, link, id, hearing, &parcel.bytes),
    }
}

// Makes steps, one after another.
fn run<P: Glancing, C: Clock>(
    alloc: Global,
    port: &P,
    link: LinkNo,
    id: Zid,
    pass: &mut Pass<Entry>,
    taker: &mut Taker<P::Note>,
    hearing: &mut Hearing,
    clock: &mut C,
    turns: u64,
) -> AdminEnd
    requires pass { pass_name pass.old ≡ P.history port.now }
    ensures same { IsSamePass pass.old pass.new × IsSameTaker taker.old taker.new }
    ensures turns { result ≡ AdminEnd.Turns → take_calls taker.new ≡ take_calls taker.old + turns }
    ensures steps { (results : List (Result Stepped AdminError)) × ComesTo turns result results × AllSteps link (λ h m e. P.refuses_message port.now h link m e) (λ h. P.glance_of port.now h) id results (inner_at (taken taker.old) hearing.old (sight pass.old)) (inner_at (taken taker.new) hearing.new (sight pass.new)) }
{
    for _ in 0..turns {
        let stepped = step(alloc, port, link, id, pass, taker, hearing);
        rest_behind(&stepped, clock);
        if let Some(end) = end_by(&stepped) {
            return end;
        }
    }
    AdminEnd::Turns
}

// Rests behind a step that had nothing to take.
fn rest_behind<C: Clock>(stepped: &Result<Stepped, AdminError>, clock: &mut C) {
    if let Ok(Stepped::Idle) = stepped {
        clock.pause();
    }
}

// How the inner client ends by a step, if it does.
fn end_by(stepped: &Result<Stepped, AdminError>) -> Option<AdminEnd>
    ensures { result ≡ end_by stepped.now }
{
    match stepped {
        Ok(Stepped::Idle) | Ok(Stepped::Part) | Ok(Stepped::Answered { .. }) => None,
        Ok(Stepped::Ended) => Some(AdminEnd::Ended),
        Err(e) => Some(AdminEnd::Refused(*e)),
    }
}

// What is made of a parcel.
fn answer<P: Glancing>(
    alloc: Global,
    port: &P,
    pass: &mut Pass<Entry>,
    link: LinkNo,
    id: Zid,
    hearing: &mut Hearing,
    parcel: &Bytes,
) -> Result<Stepped, AdminError>
    requires pass { pass_name pass.old ≡ P.history port.now }
    ensures same { IsSamePass pass.old pass.new }
    ensures hears { Hears link (λ h m e. P.refuses_message port.now h link m e) (λ h. P.glance_of port.now h) id parcel.now hearing.old result hearing.new (sight pass.old) (sight pass.new) }
{
    let Ok(heard) = hear(alloc, hearing, parcel) else {
        return Err(AdminError::NoMemory);
    };
    match heard {
        None => Ok(Stepped::Part),
        Some(requests) => answer_all(alloc, port, pass, link, id, requests.as_slice()),
    }
}

// Takes a parcel in: the requests of the messages that are whole with it; none where it is a part that others follow.
fn hear(
    alloc: Global,
    hearing: &mut Hearing,
    parcel: &Bytes,
) -> Result<Option<Vec<Asked>>, AllocError>
    ensures requests { IfOk result (λ r. MatchOption r ((heard hearing.old parcel.now).part ≡ true) (λ v. ((heard hearing.old parcel.now).part ≡ false) × (v.items ≡ asked (heard hearing.old parcel.now).whole))) }
    ensures kept { OnOk result (hearing.new ≡ (heard hearing.old parcel.now).kept) }
{
    let bytes = joined(alloc, parcel)?;
    let heard = hearing.hear(bytes.as_slice())?;
    if heard.part {
        return Ok(None);
    }
    Ok(Some(requests_in(alloc, heard.whole.as_slice())?))
}

fn joined(alloc: Global, parcel: &Bytes) -> Result<Vec<u8>, AllocError>
    ensures { IfOk result (λ v. v.items ≡ parcel.now) }
{
    let (head, body) = parcel.parts();
    let mut bytes = head.to_vec(alloc)?;
    bytes.extend_from_slice(body)?;
    Ok(bytes)
}

// Answers requests at one glance.
fn answer_all<P: Glancing>(
    alloc: Global,
    port: &P,
    pass: &mut Pass<Entry>,
    link: LinkNo,
    id: Zid,
    requests: &[Asked],
) -> Result<Stepped, AdminError>
    requires pass { pass_name pass.old ≡ P.history port.now }
    ensures same { IsSamePass pass.old pass.new }
    ensures answers { AnswersAll link (λ h m e. P.refuses_message port.now h link m e) (λ h. P.glance_of port.now h) id requests.now result (sight pass.old) (sight pass.new) }
{
    let Ok(answers) = answers_now(alloc, port, pass, id, requests) else {
        return Err(AdminError::NoMemory);
    };
    let replies = replies_among(answers.as_slice(), requests);
    match deliver_each(port, pass, link, answers.into_iter()) {
        Ok(()) => Ok(Stepped::Answered { replies }),
        Err(e) => Err(AdminError::Deliver(e)),
    }
}

// How many of the answers to these requests are replies: each request has a final among them.
fn replies_among(answers: &[Msg], requests: &[Asked]) -> u64
    requires { length requests.now ≤ length answers.now }
    ensures { result + length requests.now ≡ length answers.now }
{
    (answers.len() - requests.len()) as u64
}

// The answers to these requests, by what the router shows now.
fn answers_now<P: Glancing>(
    alloc: Global,
    port: &P,
    pass: &mut Pass<Entry>,
    id: Zid,
    requests: &[Asked],
) -> Result<Vec<Msg>, AllocError>
    requires pass { pass_name pass.old ≡ P.history port.now }
    ensures same { IsSamePass pass.old pass.new }
    ensures looked { Looks (sight pass.old) (sight pass.new) }
    ensures answers { IfOk result (λ v. v.items ≡ all_answers (pages id (P.glance_of port.now (seen pass.new))) requests.now) }
    ensures spelled { IfOk result (λ v. AllByRecursion IsSpelled v.items) }
    ensures count { IfOk result (λ v. length v.items ≡ count_replies (pages id (P.glance_of port.now (seen pass.new))) requests.now + length requests.now) }
{
    let glance = port.glance(pass)?;
    let pages = pages(alloc, id, &glance)?;
    answers_to(alloc, pages.as_slice(), requests)
}
