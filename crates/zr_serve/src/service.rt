//! `serve`: the loop that listens, dials and accepts.

ghost use Rattle.std.specs.Prelude.{◌≡◌, ◌<◌, ◌≤◌, ℕ, Option, ◌⊎◌, [], ◌∷◌, Bool, Err, IfErr, IfOk, List, Ok, OnErr, OnOk, false, is_some, length, true};
ghost use Rattle.std.specs.Arc.{arc_value};
ghost use Rattle.std.specs.String.{string_bytes};
ghost use Rattle.zr_outside_crew.specs.Crew.{crew_faults, crew_told};
ghost use Rattle.zr_hist.specs.Words.{pass_name, seen};
ghost use Rattle.zr_link_job.specs.Starts.{Starts};
ghost use Rattle.zr_outside.specs.Counts.{Rose, RoseOnlyBy};
ghost use Rattle.zr_outside.specs.Told.{Appends, AppendsPrefix};
ghost use Rattle.zr_outside.specs.declared.host.Answer.{Answer};
ghost use Rattle.zr_serve.specs.Calls.{IsGoing, accepts, dial_call, dials};
ghost use Rattle.zr_serve.specs.Former.{Hears, Uses, told_text};
ghost use Rattle.zr_serve.specs.Jobs.{next_job, with_next};
ghost use Rattle.zr_serve.specs.Lines.{accept_text, refused_text, used_text};
ghost use Rattle.zr_serve.specs.Links.{links_of};
ghost use Rattle.zr_serve.specs.Moments.{BreaksOff, Serves, moment};
ghost use Rattle.zr_serve.specs.Serving.{Accepts, EndsBefore, IsServed, IsServedFrom, Says, Stops, outputs};
ghost use Rattle.zr_serve.specs.Space.{Begins, IsToldOf, OpensSpace, RefusesSpace, Space, handed, is_spent};

use crate::end::ServeEnd;
use crate::lines::{
    Unsaid, say_last, say_not_dialled, say_not_listening, say_refused, say_serving, say_used,
};
use crate::links::Links;
use crate::plan::ServePlan;
use std::alloc::{AllocError, Global};
use std::sync::{Arc, Wait};
use std::thread::Threads;
use zr_access::Policy;
use zr_admin::{Admin, AdminError};
use zr_admin_job::{HandedBack, InnerJob, hand_over_inner};
use zr_dial::Dial;
use zr_hist::Pass;
use zr_id::link::LinkNo;
use zr_id::zid::Zid;
use zr_link_job::{LinkJob, Reading, ServeJob, Side, hand_over, turn_away};
use zr_msg::peer::Weight;
use zr_msg::shared::Shared;
use zr_outside::clock::Clock;
use zr_outside::host::{Accepted, Host};
use zr_outside::sink::Sink;
use zr_outside_brief::BriefSink;
use zr_outside_crew::Crew;
use zr_port::{DeliverError, Entry, Port, UpError};
use zr_port_glance::Glancing;
use zr_port_outlet::Outlets;

/// What the threads of each link are made of: the threads of the system, the port at which links reach the router, the rules by which that judges what
/// clients send, and a pass of its history.
#[derive(Drop)]
pub struct Serving<P: Glancing + Drop, R: Threads + Wait + Copy + Drop> {
    pub rt: R,
    pub alloc: Global,
    pub port: Arc<P>,
    pub policy: Shared<Policy>,
    pub pass: Pass<Entry>,
    ghost ours: { pass_name pass ≡ P.history (arc_value port) },
    ghost ruled: { policy ≡ P.policy (arc_value port) },
}

/// Serves a router, which has the plan's identifier: listens, dials each address once, in order, and then accepts until no more links come. For each link
/// that is given the crew starts its reader, which opens the session, brings the link up at the port, and starts its writer; a link whose reader can't be
/// started is told so by a CLOSE. Where the plan says so each link has a log, and the router an administration space: its inner client is opened before the router listens, and
/// started once by the crew. Where that is refused `err` has first the line `admin refused`, and serving goes on without it. `out` has the line `serving ID` once the router listens, `err` a line `dial ADDRESS failed` for
/// each dial that gave no link, and a line that says why where the host fails. Before each accept the router is asked whether it has heard that its
/// identifier was in use before; once it has, `err` has a line that says so. Once memory has run out in the router it ends, behind the next accept. It
/// waits for no session as it ends.
pub fn serve<
    H: Host,
    K: Sink,
    E: Sink,
    P: Glancing + Outlets<Out = H::Out> + Send + Sync + Drop + 'static,
    R: Threads + Wait + Copy + Send + Sync + Drop + 'static,
>(
    serving: &mut Serving<P, R>,
    plan: &ServePlan,
    out: &mut K,
    err: &mut E,
    host: &mut H,
    crew: &mut Crew<R, ServeJob>,
) -> ServeEnd
where
    H::In: 'static,
    H::Out: BriefSink + 'static,
    H::Time: 'static,
    H::Log: 'static,
    P::Note: Send + 'static,
    requires own { plan.now.id ≡ P.router (arc_value serving.old.port) }
    ensures served { IsServed result plan.now.id serving.old.policy plan.now.log plan.now.admin (OpensSpace (P.refuses_up (arc_value serving.old.port)) (P.refuses_message (arc_value serving.old.port)) (seen serving.old.pass) plan.now.id) (RefusesSpace (P.refuses_up (arc_value serving.old.port)) (P.refuses_message (arc_value serving.old.port)) (P.refuses_down (arc_value serving.old.port)) (P.answers_down (arc_value serving.old.port)) (seen serving.old.pass) plan.now.id) (λ b. Hears (P.is_legal (arc_value serving.old.port)) (P.was_used (arc_value serving.old.port)) (seen serving.new.pass) b) (string_bytes plan.now.listen) plan.now.dials.items (H.generators host.old) (H.generators host.new) (H.calls host.old) (H.calls host.new) (crew_told crew.old) (crew_told crew.new) (crew_faults crew.old) (crew_faults crew.new) (outputs (K.held out.old) (E.held err.old) (E.faults err.old)) (outputs (K.held out.new) (E.held err.new) (E.faults err.new)) }
    ensures done { result ≡ ServeEnd.Done → Rose (H.ends host.old) (H.ends host.new) }
    ensures host { result ≡ ServeEnd.HostFault → Rose (H.faults host.old) (H.faults host.new) }
    ensures write { result ≡ ServeEnd.WriteFault → Rose (K.faults out.old) (K.faults out.new) ⊎ Rose (E.faults err.old) (E.faults err.new) }
    ensures later { (K.faults out.old ≤ K.faults out.new) × (E.faults err.old ≤ E.faults err.new) }
    ensures only { (K.faults out.old < K.faults out.new → result ≡ ServeEnd.WriteFault) × (E.faults err.old < E.faults err.new → (result ≡ ServeEnd.WriteFault) ⊎ (result ≡ ServeEnd.HostFault)) }
{
    let Some(words) = host.words() else {
        say_last("no random words\n", err);
        return ServeEnd::HostFault;
    };
    let mut links = Links::new(plan.log, words);
    if let Err(end) = open_space(serving, plan, err, host, crew, &mut links) {
        return end;
    }
    serve_links(serving, plan, out, err, host, crew, &mut links)
}

// Opens the administration space where it is asked for, and starts its inner client. Where that is refused it is told, and serving goes on without it.
#[tactic(auto, using(crate::proofs::Opening::begins_unasked))]
fn open_space<
    H: Host,
    E: Sink,
    P: Glancing + Send + Sync + Drop + 'static,
    R: Threads + Wait + Copy + Send + Sync + Drop + 'static,
>(
    serving: &mut Serving<P, R>,
    plan: &ServePlan,
    err: &mut E,
    host: &mut H,
    crew: &mut Crew<R, ServeJob>,
    links: &mut Links<H::Words>,
) -> Result<(), ServeEnd>
where
    H::Time: 'static,
    P::Note: Send + 'static,
    requires own { plan.now.id ≡ P.router (arc_value serving.old.port) }
    ensures same { (serving.new.policy ≡ serving.old.policy) × (serving.new.port ≡ serving.old.port) }
    ensures begun { OnOk result ((space : Space) × Begins plan.now.admin (OpensSpace (P.refuses_up (arc_value serving.old.port)) (P.refuses_message (arc_value serving.old.port)) (seen serving.old.pass) plan.now.id) (RefusesSpace (P.refuses_up (arc_value serving.old.port)) (P.refuses_message (arc_value serving.old.port)) (P.refuses_down (arc_value serving.old.port)) (P.answers_down (arc_value serving.old.port)) (seen serving.old.pass) plan.now.id) space (moment (H.calls host.old) (crew_told crew.old) (crew_faults crew.old) (E.held err.old) (links_of (λ w. H.Words.stream w) plan.now.id serving.old.policy links.old)) (moment (H.calls host.new) (crew_told crew.new) (crew_faults crew.new) (E.held err.new) (links_of (λ w. H.Words.stream w) plan.now.id serving.new.policy links.new))) }
    ensures ended { IfErr result (λ e. (out : Option (List ℕ)) → EndsBefore e plan.now.admin (H.calls host.old) (H.calls host.new) (crew_told crew.old) (crew_told crew.new) (crew_faults crew.old) (crew_faults crew.new) (outputs out (E.held err.old) (E.faults err.old)) (outputs out (E.held err.new) (E.faults err.new))) }
    ensures cause { (result ≡ Err ServeEnd.Done → ⊥) × (result ≡ Err ServeEnd.HostFault → ⊥) × (result ≡ Err ServeEnd.WriteFault → Rose (E.faults err.old) (E.faults err.new)) }
    ensures only { RoseOnlyBy ServeEnd.WriteFault result (E.faults err.old) (E.faults err.new) }
    ensures later { E.faults err.old ≤ E.faults err.new }
    ensures counts { (H.faults host.new ≡ H.faults host.old) × (H.ends host.new ≡ H.ends host.old) }
    ensures undrawn { H.generators host.new ≡ H.generators host.old }
{
    if !plan.admin {
        return Ok(());
    }
    let word = links.draw();
    match open_inner(serving, plan.id, word) {
        Ok((admin, bells)) => {
            start_inner(InnerJob::new(admin, bells, host.time(), word), err, crew)
        }
        Err(Unopened::Refused) => say_refused(err),
        Err(Unopened::NoMemory) => Err(ServeEnd::NoMemory),
    }
}

// Why the inner client was not opened.
#[derive(Clone, Copy)]
enum Unopened {
    Refused,
    NoMemory,
}

// The inner client of the router, with this random word, and the port once more.
fn open_inner<P: Glancing + Drop, R: Threads + Wait + Copy + Drop>(
    serving: &mut Serving<P, R>,
    id: Zid,
    word: u64,
) -> Result<(Admin<P>, Arc<P>), Unopened>
    requires own { id ≡ P.router (arc_value serving.old.port) }
    ensures same { (serving.new.policy ≡ serving.old.policy) × (serving.new.port ≡ serving.old.port) }
    ensures named { IfOk result (λ r. r.0.id ≡ P.router (arc_value r.0.port)) }
    ensures opened { OnOk result (OpensSpace (P.refuses_up (arc_value serving.old.port)) (P.refuses_message (arc_value serving.old.port)) (seen serving.old.pass) id word) }
    ensures refused { result ≡ Err Unopened.Refused → RefusesSpace (P.refuses_up (arc_value serving.old.port)) (P.refuses_message (arc_value serving.old.port)) (P.refuses_down (arc_value serving.old.port)) (P.answers_down (arc_value serving.old.port)) (seen serving.old.pass) id word }
{
    let Ok(port) = Arc::try_clone(&serving.port) else {
        return Err(Unopened::NoMemory);
    };
    let Ok(bells) = Arc::try_clone(&serving.port) else {
        return Err(Unopened::NoMemory);
    };
    let pass = serving.port.split(&mut serving.pass);
    match Admin::open(serving.alloc, port, pass, id, word) {
        Ok(admin) => Ok((admin, bells)),
        Err(refused) => {
            let (e, pass) = refused;
            drop(pass);
            Err(cause_of(e))
        }
    }
}

fn cause_of(e: AdminError) -> Unopened
    ensures { result ≡ Unopened.Refused → is_spent e ≡ false }
{
    match e {
        AdminError::NoMemory
        | AdminError::Up(UpError::NoMemory)
        | AdminError::Deliver(DeliverError::NoMemory) => Unopened::NoMemory,
        AdminError::Up(_) | AdminError::Deliver(_) => Unopened::Refused,
    }
}

// Starts an inner client. Where the crew hands it back that is told.
fn start_inner<
    E: Sink,
    P: Glancing + Send + Sync + Drop + 'static,
    C: Clock + Send + Drop + 'static,
    R: Threads + Copy + Send + Sync + Drop + 'static,
>(job: InnerJob<P, C>, err: &mut E, crew: &mut Crew<R, ServeJob>) -> Result<(), ServeEnd>
where
    P::Note: Send + 'static,
    ensures handed { OnOk result ((is_running : Bool) × IsToldOf (handed is_running) (crew_told crew.old) (crew_told crew.new) (crew_faults crew.old) (crew_faults crew.new) (E.held err.old) (E.held err.new)) }
    ensures unsaid { OnErr result ((crew_told crew.new ≡ crew_told crew.old) × (crew_faults crew.old ≤ crew_faults crew.new) × AppendsPrefix refused_text (E.held err.old) (E.held err.new)) }
    ensures cause { IfErr result (λ e. (e ≡ ServeEnd.WriteFault) × Rose (E.faults err.old) (E.faults err.new)) }
    ensures only { RoseOnlyBy ServeEnd.WriteFault result (E.faults err.old) (E.faults err.new) }
    ensures later { E.faults err.old ≤ E.faults err.new }
{
    match hand_over_inner(crew, job) {
        Ok(()) => Ok(()), // it runs
        Err(HandedBack) => say_refused(err),
    }
}

// Listens, dials each address once, in order, and then accepts until no more links come.
fn serve_links<
    H: Host,
    K: Sink,
    E: Sink,
    P: Glancing + Outlets<Out = H::Out> + Send + Sync + Drop + 'static,
    R: Threads + Wait + Copy + Send + Sync + Drop + 'static,
>(
    serving: &mut Serving<P, R>,
    plan: &ServePlan,
    out: &mut K,
    err: &mut E,
    host: &mut H,
    crew: &mut Crew<R, ServeJob>,
    links: &mut Links<H::Words>,
) -> ServeEnd
where
    H::In: 'static,
    H::Out: BriefSink + 'static,
    H::Time: 'static,
    H::Log: 'static,
    P::Note: Send + 'static,
    requires own { plan.now.id ≡ P.router (arc_value serving.old.port) }
    ensures served { IsServedFrom result (λ b. Hears (P.is_legal (arc_value serving.old.port)) (P.was_used (arc_value serving.old.port)) (seen serving.new.pass) b) plan.now.id (string_bytes plan.now.listen) plan.now.dials.items (moment (H.calls host.old) (crew_told crew.old) (crew_faults crew.old) (E.held err.old) (links_of (λ w. H.Words.stream w) plan.now.id serving.old.policy links.old)) (H.calls host.new) (crew_told crew.new) (crew_faults crew.new) (outputs (K.held out.old) (E.held err.old) (E.faults err.old)) (outputs (K.held out.new) (E.held err.new) (E.faults err.new)) }
    ensures done { result ≡ ServeEnd.Done → Rose (H.ends host.old) (H.ends host.new) }
    ensures host { result ≡ ServeEnd.HostFault → Rose (H.faults host.old) (H.faults host.new) }
    ensures write { result ≡ ServeEnd.WriteFault → Rose (K.faults out.old) (K.faults out.new) ⊎ Rose (E.faults err.old) (E.faults err.new) }
    ensures only { (K.faults out.old < K.faults out.new → result ≡ ServeEnd.WriteFault) × (E.faults err.old < E.faults err.new → (result ≡ ServeEnd.WriteFault) ⊎ (result ≡ ServeEnd.HostFault)) }
    ensures later { (K.faults out.old ≤ K.faults out.new) × (E.faults err.old ≤ E.faults err.new) }
    ensures undrawn { H.generators host.new ≡ H.generators host.old }
{
    if !host.listen(plan.listen.as_str()) {
        say_not_listening(plan.listen.as_str(), err);
        return ServeEnd::HostFault;
    }
    if let Err(unsaid) = say_serving(serving.alloc, &plan.id, out) {
        return unsaid.end();
    }
    if let Err(end) = dial_all(
        serving,
        &plan.id,
        plan.dials.as_slice(),
        err,
        host,
        crew,
        links,
    ) {
        return end;
    }
    let end = accept_all(serving, &plan.id, err, host, crew, links);
    tell_end(end, err);
    end
}

// Tells why accepting has failed, where it has.
fn tell_end<E: Sink>(end: ServeEnd, err: &mut E)
    ensures fault { end ≡ ServeEnd.HostFault → Says accept_text (E.held err.old) (E.held err.new) (E.faults err.old) (E.faults err.new) }
    ensures quiet { (end ≡ ServeEnd.HostFault → ⊥) → E.held err.new ≡ E.held err.old }
    ensures still { (end ≡ ServeEnd.HostFault → ⊥) → E.faults err.new ≡ E.faults err.old }
    ensures later { E.faults err.old ≤ E.faults err.new }
{
    match end {
        ServeEnd::HostFault => say_last("accept failed\n", err),
        ServeEnd::Done | ServeEnd::NoMemory | ServeEnd::WriteFault => (),
    }
}

// Dials each address once, in order.
#[tactic(auto, using(crate::proofs::Reaching::dials_none, crate::proofs::Reaching::dials_more, crate::proofs::Reaching::dials_stop, crate::proofs::Reaching::dials_all))]
fn dial_all<
    H: Host,
    E: Sink,
    P: Glancing + Outlets<Out = H::Out> + Send + Sync + Drop + 'static,
    R: Threads + Wait + Copy + Send + Sync + Drop + 'static,
>(
    serving: &mut Serving<P, R>,
    id: &Zid,
    targets: &[Dial],
    err: &mut E,
    host: &mut H,
    crew: &mut Crew<R, ServeJob>,
    links: &mut Links<H::Words>,
) -> Result<(), ServeEnd>
where
    H::In: 'static,
    H::Out: BriefSink + 'static,
    H::Time: 'static,
    H::Log: 'static,
    P::Note: Send + 'static,
    requires own { id.now ≡ P.router (arc_value serving.old.port) }
    ensures dialled { OnOk result ((gave : List Bool) × (length gave ≡ length targets.now) × Serves (dials targets.now gave) (moment (H.calls host.old) (crew_told crew.old) (crew_faults crew.old) (E.held err.old) (links_of (λ w. H.Words.stream w) id.now serving.old.policy links.old)) (moment (H.calls host.new) (crew_told crew.new) (crew_faults crew.new) (E.held err.new) (links_of (λ w. H.Words.stream w) id.now serving.new.policy links.new))) }
    ensures stopped { OnErr result ((gave : List Bool) × BreaksOff (dials targets.now gave) (moment (H.calls host.old) (crew_told crew.old) (crew_faults crew.old) (E.held err.old) (links_of (λ w. H.Words.stream w) id.now serving.old.policy links.old)) (moment (H.calls host.new) (crew_told crew.new) (crew_faults crew.new) (E.held err.new) (links_of (λ w. H.Words.stream w) id.now serving.new.policy links.new))) }
    ensures cause { (result ≡ Err ServeEnd.Done → ⊥) × (result ≡ Err ServeEnd.HostFault → ⊥) × (result ≡ Err ServeEnd.WriteFault → Rose (E.faults err.old) (E.faults err.new)) }
    ensures only { RoseOnlyBy ServeEnd.WriteFault result (E.faults err.old) (E.faults err.new) }
    ensures later { (E.faults err.old ≤ E.faults err.new) × (H.faults host.old ≤ H.faults host.new) × (H.ends host.old ≤ H.ends host.new) }
    ensures same { serving.new.port ≡ serving.old.port }
    ensures undrawn { H.generators host.new ≡ H.generators host.old }
{
    for target in targets {
        if let Err(end) = dial(serving, id, target, err, host, crew, links) {
            return Err(end);
        }
    }
    Ok(())
}

// Dials an address, and starts the reader of the link that this gives.
#[tactic(auto, using(crate::proofs::Reaching::dial_linked, crate::proofs::Reaching::dial_lost, crate::proofs::Reaching::dial_untold))]
fn dial<
    H: Host,
    E: Sink,
    P: Glancing + Outlets<Out = H::Out> + Send + Sync + Drop + 'static,
    R: Threads + Wait + Copy + Send + Sync + Drop + 'static,
>(
    serving: &mut Serving<P, R>,
    id: &Zid,
    target: &Dial,
    err: &mut E,
    host: &mut H,
    crew: &mut Crew<R, ServeJob>,
    links: &mut Links<H::Words>,
) -> Result<(), ServeEnd>
where
    H::In: 'static,
    H::Out: BriefSink + 'static,
    H::Time: 'static,
    H::Log: 'static,
    P::Note: Send + 'static,
    requires own { id.now ≡ P.router (arc_value serving.old.port) }
    ensures dialled { OnOk result ((is_link : Bool) × Serves (dial_call target.now is_link ∷ []) (moment (H.calls host.old) (crew_told crew.old) (crew_faults crew.old) (E.held err.old) (links_of (λ w. H.Words.stream w) id.now serving.old.policy links.old)) (moment (H.calls host.new) (crew_told crew.new) (crew_faults crew.new) (E.held err.new) (links_of (λ w. H.Words.stream w) id.now serving.new.policy links.new))) }
    ensures stopped { OnErr result ((is_link : Bool) × BreaksOff (dial_call target.now is_link ∷ []) (moment (H.calls host.old) (crew_told crew.old) (crew_faults crew.old) (E.held err.old) (links_of (λ w. H.Words.stream w) id.now serving.old.policy links.old)) (moment (H.calls host.new) (crew_told crew.new) (crew_faults crew.new) (E.held err.new) (links_of (λ w. H.Words.stream w) id.now serving.new.policy links.new))) }
    ensures cause { (result ≡ Err ServeEnd.Done → ⊥) × (result ≡ Err ServeEnd.HostFault → ⊥) × (result ≡ Err ServeEnd.WriteFault → Rose (E.faults err.old) (E.faults err.new)) }
    ensures only { RoseOnlyBy ServeEnd.WriteFault result (E.faults err.old) (E.faults err.new) }
    ensures later { (E.faults err.old ≤ E.faults err.new) × (H.faults host.old ≤ H.faults host.new) × (H.ends host.old ≤ H.ends host.new) }
    ensures same { serving.new.port ≡ serving.old.port }
    ensures undrawn { H.generators host.new ≡ H.generators host.old }
{
    let address = target.address();
    match host.dial(address) {
        Some((source, sink)) => {
            let weight = target.weight();
            start(
                serving,
                id,
                host,
                crew,
                links,
                Side::Dialling,
                weight,
                source,
                sink,
            );
            Ok(())
        }
        None => match say_not_dialled(serving.alloc, address, err) {
            Ok(()) => Ok(()),
            Err(unsaid) => Err(unsaid.end()),
        },
    }
}

// Accepts, and starts the reader of each link that comes, until no more come, or memory ran out in the router. Before each accept it tells that the
// router's identifier was in use before, if the router has heard so and it wasn't told yet.
#[tactic(auto, using(crate::proofs::Reaching::goes_none, crate::proofs::Reaching::goes_more, crate::proofs::Reaching::goes_on_to, crate::proofs::Reaching::goes_spent))]
fn accept_all<
    H: Host,
    E: Sink,
    P: Glancing + Outlets<Out = H::Out> + Send + Sync + Drop + 'static,
    R: Threads + Wait + Copy + Send + Sync + Drop + 'static,
>(
    serving: &mut Serving<P, R>,
    id: &Zid,
    err: &mut E,
    host: &mut H,
    crew: &mut Crew<R, ServeJob>,
    links: &mut Links<H::Words>,
) -> ServeEnd
where
    H::In: 'static,
    H::Out: BriefSink + 'static,
    H::Time: 'static,
    H::Log: 'static,
    P::Note: Send + 'static,
    requires own { id.now ≡ P.router (arc_value serving.old.port) }
    ensures ended { (held : Option (List ℕ)) → Accepts result (moment (H.calls host.old) (crew_told crew.old) (crew_faults crew.old) held (links_of (λ w. H.Words.stream w) id.now serving.old.policy links.old)) (moment (H.calls host.new) (crew_told crew.new) (crew_faults crew.new) held (links_of (λ w. H.Words.stream w) id.now serving.new.policy links.new)) }
    ensures told { Uses result (λ b. Hears (P.is_legal (arc_value serving.old.port)) (P.was_used (arc_value serving.old.port)) (seen serving.new.pass) b) id.now (E.held err.old) (E.held err.new) }
    ensures cause { (result ≡ ServeEnd.Done → Rose (H.ends host.old) (H.ends host.new)) × (result ≡ ServeEnd.HostFault → Rose (H.faults host.old) (H.faults host.new)) × (result ≡ ServeEnd.WriteFault → Rose (E.faults err.old) (E.faults err.new)) }
    ensures only { E.faults err.old < E.faults err.new → result ≡ ServeEnd.WriteFault }
    ensures later { E.faults err.old ≤ E.faults err.new }
    ensures undrawn { H.generators host.new ≡ H.generators host.old }
{
    let rt = serving.rt;
    let mut is_told = false;
    for _ in rt.forever() {
        match tell_used(serving, id, is_told, err) {
            Ok(told) => is_told = told,
            Err(unsaid) => return unsaid.end(),
        }
        if let Err(end) = accept(serving, id, host, crew, links) {
            return end;
        }
        if serving.port.is_spent() {
            return ServeEnd::NoMemory;
        }
    }
    unreachable!()
}

// Tells that the router's identifier was in use before, if the router has heard so and it wasn't told yet. The answer is whether it is told now.
#[tactic(auto, using(zr_outside::proofs::Appending::appends_none))]
fn tell_used<
    E: Sink,
    P: Glancing + Send + Sync + Drop + 'static,
    R: Threads + Wait + Copy + Send + Sync + Drop + 'static,
>(serving: &mut Serving<P, R>, id: &Zid, was_told: bool, err: &mut E) -> Result<bool, Unsaid>
where
    P::Note: Send + 'static,
    ensures same { (serving.new.port ≡ serving.old.port) × (serving.new.policy ≡ serving.old.policy) }
    ensures told { IfOk result (λ told. was_told ≡ false → Hears (P.is_legal (arc_value serving.old.port)) (P.was_used (arc_value serving.old.port)) (seen serving.new.pass) told × Appends (told_text id.now told) (E.held err.old) (E.held err.new)) }
    ensures skips { was_told ≡ true → (result ≡ Ok true) × (seen serving.new.pass ≡ seen serving.old.pass) × (E.held err.new ≡ E.held err.old) }
    ensures part { OnErr result (Hears (P.is_legal (arc_value serving.old.port)) (P.was_used (arc_value serving.old.port)) (seen serving.new.pass) true × AppendsPrefix (used_text id.now) (E.held err.old) (E.held err.new)) }
    ensures fault { result ≡ Err Unsaid.Fault → Rose (E.faults err.old) (E.faults err.new) }
    ensures only { RoseOnlyBy Unsaid.Fault result (E.faults err.old) (E.faults err.new) }
    ensures later { E.faults err.old ≤ E.faults err.new }
{
    if was_told {
        return Ok(true);
    }
    if !serving.port.was_used_before(&mut serving.pass) {
        return Ok(false);
    }
    match say_used(serving.alloc, id, err) {
        Ok(()) => Ok(true),
        Err(unsaid) => Err(unsaid),
    }
}

// Accepts once, and starts the reader of the link that this gives.
#[tactic(auto, using(crate::proofs::Reaching::accept_gives, crate::proofs::Reaching::accept_waits, crate::proofs::Reaching::accept_ends, crate::proofs::Reaching::accept_fails))]
fn accept<
    H: Host,
    P: Glancing + Outlets<Out = H::Out> + Send + Sync + Drop + 'static,
    R: Threads + Wait + Copy + Send + Sync + Drop + 'static,
>(
    serving: &mut Serving<P, R>,
    id: &Zid,
    host: &mut H,
    crew: &mut Crew<R, ServeJob>,
    links: &mut Links<H::Words>,
) -> Result<(), ServeEnd>
where
    H::In: 'static,
    H::Out: BriefSink + 'static,
    H::Time: 'static,
    H::Log: 'static,
    P::Note: Send + 'static,
    requires own { id.now ≡ P.router (arc_value serving.old.port) }
    ensures going { (held : Option (List ℕ)) → OnOk result ((a : Answer) × IsGoing a × Serves (accepts (a ∷ [])) (moment (H.calls host.old) (crew_told crew.old) (crew_faults crew.old) held (links_of (λ w. H.Words.stream w) id.now serving.old.policy links.old)) (moment (H.calls host.new) (crew_told crew.new) (crew_faults crew.new) held (links_of (λ w. H.Words.stream w) id.now serving.new.policy links.new))) }
    ensures stops { (held : Option (List ℕ)) → IfErr result (λ e. Stops e (moment (H.calls host.old) (crew_told crew.old) (crew_faults crew.old) held (links_of (λ w. H.Words.stream w) id.now serving.old.policy links.old)) (moment (H.calls host.new) (crew_told crew.new) (crew_faults crew.new) held (links_of (λ w. H.Words.stream w) id.now serving.new.policy links.new))) }
    ensures done { result ≡ Err ServeEnd.Done → Rose (H.ends host.old) (H.ends host.new) }
    ensures host { result ≡ Err ServeEnd.HostFault → Rose (H.faults host.old) (H.faults host.new) }
    ensures later { (H.faults host.old ≤ H.faults host.new) × (H.ends host.old ≤ H.ends host.new) }
    ensures same { (serving.new.port ≡ serving.old.port) × (seen serving.new.pass ≡ seen serving.old.pass) }
    ensures undrawn { H.generators host.new ≡ H.generators host.old }
{
    match host.accept() {
        Accepted::Link(source, sink) => {
            let weight = Weight::one();
            start(
                serving,
                id,
                host,
                crew,
                links,
                Side::Accepting,
                weight,
                source,
                sink,
            );
            Ok(())
        }
        Accepted::Quiet => Ok(()),
        Accepted::End => Err(ServeEnd::Done),
        Accepted::Failed => Err(ServeEnd::HostFault),
    }
}

// Starts the reader of a link, by its job. One for which there is no memory is turned away, and counts as one that could not be started.
#[tactic(auto, using(zr_link_job::proofs::Starting::starts_lost))]
fn start<
    H: Host,
    P: Glancing + Outlets<Out = H::Out> + Send + Sync + Drop + 'static,
    R: Threads + Wait + Copy + Send + Sync + Drop + 'static,
>(
    serving: &mut Serving<P, R>,
    id: &Zid,
    host: &mut H,
    crew: &mut Crew<R, ServeJob>,
    links: &mut Links<H::Words>,
    side: Side,
    weight: Weight,
    source: H::In,
    mut sink: H::Out,
)
where
    H::In: 'static,
    H::Out: BriefSink + 'static,
    H::Time: 'static,
    H::Log: 'static,
    P::Note: Send + 'static,
    requires own { id.now ≡ P.router (arc_value serving.old.port) }
    ensures started { Starts (next_job (links_of (λ w. H.Words.stream w) id.now serving.old.policy links.old) (record { side = side; weight = weight }) ∷ []) (crew_told crew.old) (crew_told crew.new) (crew_faults crew.old) (crew_faults crew.new) }
    ensures links { links_of (λ w. H.Words.stream w) id.now serving.new.policy links.new ≡ with_next (links_of (λ w. H.Words.stream w) id.now serving.old.policy links.old) }
    ensures told { H.calls host.new ≡ H.calls host.old }
    ensures counts { (H.faults host.new ≡ H.faults host.old) × (H.ends host.new ≡ H.ends host.old) }
    ensures same { (serving.new.port ≡ serving.old.port) × (seen serving.new.pass ≡ seen serving.old.pass) }
    ensures undrawn { H.generators host.new ≡ H.generators host.old }
{
    let begins = links.next(*id, side, weight);
    // what may fail comes first, while there is little to be let go
    let Ok((port, policy, inner)) = shared(serving) else {
        turn_away(&mut sink);
        crew.lose();
        return;
    };
    let clock = host.time();
    let writer_clock = host.time();
    let log = log_of(serving.alloc, host, begins.log, &source);
    let writer_log = log_of(serving.alloc, host, begins.log, &source);
    let reading = Reading {
        alloc: serving.alloc,
        job: LinkJob {
            start: begins,
            policy,
        },
        source,
        sink,
        clock,
        writer_clock,
        log,
        writer_log,
        port,
        pass: serving.port.split(&mut serving.pass),
        crew: inner,
    };
    drop(hand_over(crew, reading)); // a sink that comes back has had its CLOSE
}

// The port and the rules for one more link, and a crew that starts its writer.
fn shared<P: Glancing + Drop, R: Threads + Wait + Copy + Drop>(
    serving: &Serving<P, R>,
) -> Result<(Arc<P>, Shared<Policy>, Crew<R, LinkNo>), AllocError>
    ensures port { IfOk result (λ r. arc_value r.0 ≡ arc_value serving.now.port) }
    ensures policy { IfOk result (λ r. r.1 ≡ serving.now.policy) }
{
    let inner = Crew::new(serving.rt, serving.alloc)?;
    let policy = serving.policy.copy()?;
    let port = Arc::try_clone(&serving.port)?;
    Ok((port, policy, inner))
}

// A log for one more thread of a link, where it has one.
fn log_of<H: Host>(alloc: Global, host: &mut H, has_log: bool, source: &H::In) -> Option<H::Log>
    ensures asked { is_some result ≡ has_log }
    ensures told { H.calls host.new ≡ H.calls host.old }
    ensures counts { (H.faults host.new ≡ H.faults host.old) × (H.ends host.new ≡ H.ends host.old) }
    ensures undrawn { H.generators host.new ≡ H.generators host.old }
{
    if has_log {
        Some(host.log(alloc, source))
    } else {
        None
    }
}
