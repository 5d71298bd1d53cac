//! `Reader`: the loop of a link's reader.

ghost use Rattle.std.specs.Prelude.{◌≡◌, ◌≢◌, ◌<◌, ◌≤◌, ◌+◌, ◌++◌, ℕ, true, List, [], Some, None, IfErr, OnOk, OnErr};
ghost use mathlib.Core.List.{IsPrefix};
ghost use Rattle.std.specs.Arc.{arc_value};
ghost use Rattle.std.specs.Vec.Iter.{into_iter_items};
ghost use Rattle.zr_outside.specs.Counts.{Counted, Rose, RoseBy};
ghost use Rattle.zr_outside.specs.Told.{Appends};
ghost use Rattle.zr_msg.specs.declared.msg.Msg.{Msg};
ghost use Rattle.zr_hist.specs.Words.{pass_name, IsSamePass, seen, mine};
ghost use Rattle.zr_outside_crew.specs.Crew.{crew_faults, crew_told};
ghost use Rattle.zr_outside_crew.specs.Told.{with_last};
ghost use Rattle.zr_ring.specs.Taker.{taker_name};
ghost use Rattle.zr_session.specs.declared.fate.Fate.TheVariants as fates;
ghost use Rattle.zr_session.specs.Session.{is_running, with_confirmed, owed_bytes};
ghost use Rattle.zr_ring.specs.Taker.{taken};
ghost use Rattle.zr_wire.specs.Writing.{IsSpelled};
ghost use Rattle.zr_link.specs.declared.end.LinkEnd.TheVariants as end;
ghost use Rattle.zr_link.specs.Acts.{Act, Does};
ghost use Rattle.zr_port.specs.Coming.{Came, Through, sight};
ghost use Rattle.zr_link.specs.Heard.{IsBegun, IsLate, IsOpen, IsIn, AreMessages};
ghost use Rattle.zr_link.specs.Written.{HandsOn, IsWritten, Puts, Wrote, close_with};
ghost use Rattle.zr_link_writer.specs.Parts.{close_bytes};
ghost use Rattle.zr_link.specs.Complete.{IsComplete};
ghost use Rattle.zr_link.specs.Run.{Follows, Enters, Runs, Starts, GoesDown};
ghost use Rattle.zr_link.specs.declared.log.Stage.TheVariants as stages;
ghost use Rattle.zr_link.specs.Log.{refusal_of, stage_of};
ghost use Rattle.zr_link.specs.Logged.{IsLogged, RefusesPeer, TellsDenials};
ghost use Rattle.zr_link.specs.Failed.{MayHaveFailed};
ghost use Rattle.zr_link.specs.Gone.{IsGone, is_gone};
ghost use Rattle.zr_link.specs.Turned.{HasWritten};
ghost use Rattle.zr_link.specs.Ends.{IsEarly, IsStarted, IsCrewRefused, end_of_up};

use crate::cause::cause;
use crate::delivery::{go_on, settle};
use crate::end::LinkEnd;
use crate::gone::is_gone;
use crate::intake::Intake;
use crate::log::LinkLog;
use crate::opening::{Opened, open};
use crate::writing::{Writing, Written, write};
use std::alloc::Global;
use std::sync::Arc;
use std::thread::Threads;
use std::vec;
use zr_hist::Pass;
use zr_id::link::LinkNo;
use zr_link_writer::close_batch;
use zr_msg::peer::Peer;
use zr_open::Reason;
use zr_outside::clock::Clock;
use zr_outside::log::Log;
use zr_outside::sink::{Sink, write_all};
use zr_outside::source::Source;
use zr_outside_brief::BriefSink;
use zr_outside_crew::Crew;
use zr_port::{DeliverError, Entry, Port, UpError};
use zr_port_outlet::Outlets;
use zr_ring::Taker;
use zr_session::{Fate, Session, SessionEvent};

/// The reader of a link.
pub struct Reader;

/// What a link's two threads share or hand on: the sink to which the reader writes until the writer is started, the port of both, the writer's clock,
/// how often at most the one may read and the other ask its ring, and the writer's log, if it has one.
#[derive(Drop)]
pub struct Outward<K: Sink + Drop, P: Port + Drop, C: Clock + Drop, L: Log + Drop> {
    pub sink: K,
    pub port: Arc<P>,
    pub clock: C,
    pub turns: u64,
    pub log: Option<L>,
}

impl Reader {
    /// Opens a session on a link, brings the link up by the port, starts its writer, and delivers each message that comes, in order, until the session
    /// ends or so many reads were made; then the link goes down. The sink comes back exactly where no writer was started. `first` is what the
    /// session asks to be written before anything is read. The crew tells a started writer by its link. `log` is told that the link has come up, and what of
    /// its messages the log's rules deny.
    pub fn run<
        S: Source,
        K: BriefSink + Send + Drop + 'static,
        P: Outlets<Out = K> + Send + Sync + Drop + 'static,
        C: Clock + Send + Drop + 'static,
        L: Log + Send + Drop + 'static,
        R: Threads + Drop,
    >(
        alloc: Global,
        source: &mut S,
        out: Outward<K, P, C, L>,
        first: &[u8],
        session: Session,
        clock: &mut C,
        crew: &mut Crew<R, LinkNo>,
        pass: &mut Pass<Entry>,
        log: &mut LinkLog<L>,
    ) -> (LinkEnd, Option<K>)
    where
        P::Note: Send + 'static,
        requires begun { IsBegun session first.now }
        requires pass { pass_name pass.old ≡ P.history (arc_value out.port) }
        requires unopened { stage_of log.old ≡ stages.Unopened }
        ensures same { IsSamePass pass.old pass.new }
        ensures prefix { IsPrefix (seen pass.old) (seen pass.new) }
        ensures run { Runs session result.0 (S.left source.old) (S.left source.new) (IsLate (S.quiets source.old) (S.quiets source.new) session.heard (C.last clock.old) (C.last clock.new)) (λ answers. Wrote (λ k. K.held k) (λ k. K.faults k) result.0 (first.now ++ answers) out.sink result.1) (P.refuses_up (arc_value out.port)) (P.refuses_message (arc_value out.port)) (P.refuses_down (arc_value out.port)) (P.answers_down (arc_value out.port)) pass.old pass.new }
        ensures complete { IsComplete session result.0 (S.left source.old) (S.left source.new) (IsLate (S.quiets source.old) (S.quiets source.new) session.heard (C.last clock.old) (C.last clock.new)) (P.refuses_up (arc_value out.port)) (P.refuses_message (arc_value out.port)) pass.old pass.new }
        ensures fault { Counted (S.faults source.old) (S.faults source.new) (result.0 ≡ end.ReadFault) }
        ensures ended { Counted (S.ends source.old) (S.ends source.new) (result.0 ≡ end.PeerEnded) }
        ensures turns { result.0 ≡ end.Turns → RoseBy out.turns (S.reads source.old) (S.reads source.new) }
        ensures reads { S.reads source.new ≤ S.reads source.old + out.turns }
        ensures unwritten { result.0 ≡ end.WriteFault → (sink : K) × (result.1 ≡ Some sink) × Rose (K.faults out.sink) (K.faults sink) }
        ensures refused { Counted (crew_faults crew.old) (crew_faults crew.new) (result.0 ≡ end.CrewRefused) }
        ensures writer { Starts result.1 (crew_told crew.old) (crew_told crew.new) (mine pass.old) (mine pass.new) }
        ensures logged { IsLogged (λ l. L.held l) (λ l. L.lost l) (RefusesPeer (λ peer e. P.refuses_up (arc_value out.port) (seen pass.new) peer e)) (mine pass.old) (mine pass.new) log.old log.new }
        ensures told { (sink : K) → result.1 ≡ Some sink → K.faults out.sink < K.faults sink → MayHaveFailed result.0 }
    {
        let mut out = out;
        let Ok(port) = Arc::try_clone(&out.port) else {
            drop(session);
            return (LinkEnd::NoMemory, Some(out.sink));
        };
        let Ok(()) = write_all(&mut out.sink, first) else {
            drop(session);
            return (LinkEnd::WriteFault, Some(out.sink));
        };
        let Ok(mut intake) = Intake::new(alloc, session) else {
            return (LinkEnd::NoMemory, Some(out.sink));
        };
        match open(alloc, &mut intake, source, &mut out.sink, clock, out.turns) {
            Ok(opened) => enter(
                alloc,
                &mut intake,
                opened,
                source,
                out,
                &*port,
                clock,
                crew,
                pass,
                log,
            ),
            Err(end) => {
                log.because(cause(alloc, &intake.session, None));
                (end, Some(out.sink))
            }
        }
    }
}

// The session has opened: brings the link up, and goes on until the link goes down.
fn enter<
    S: Source,
    K: BriefSink + Send + Drop + 'static,
    P: Outlets<Out = K> + Send + Sync + Drop + 'static,
    C: Clock + Send + Drop + 'static,
    L: Log + Send + Drop + 'static,
    R: Threads + Drop,
>(
    alloc: Global,
    intake: &mut Intake,
    opened: Opened,
    source: &mut S,
    out: Outward<K, P, C, L>,
    port: &P,
    clock: &mut C,
    crew: &mut Crew<R, LinkNo>,
    pass: &mut Pass<Entry>,
    log: &mut LinkLog<L>,
) -> (LinkEnd, Option<K>)
where
    P::Note: Send + 'static,
    requires pass { pass_name pass.old ≡ P.history port.now }
    requires messages { AreMessages IsSpelled (into_iter_items opened.messages) }
    requires stands { opened.fate ≡ fates.Going → (is_running intake.old.session.state ≡ true) × IsIn IsOpen intake.old.session }
    ensures same { IsSamePass pass.old pass.new }
    ensures prefix { IsPrefix (seen pass.old) (seen pass.new) }
    ensures entered { Enters opened.peer opened.outbox intake.old.session (into_iter_items opened.messages) opened.fate result.0 (S.left source.old) (S.left source.new) (IsLate (S.quiets source.old) (S.quiets source.new) intake.old.session.heard (C.last clock.old) (C.last clock.new)) (λ owed. (answers : List ℕ) → intake.old.fed.bytes.items ≡ answers ++ close_with opened.fate → Wrote (λ k. K.held k) (λ k. K.faults k) result.0 (answers ++ owed) out.sink result.1) (P.refuses_up port.now) (P.refuses_message port.now) (P.refuses_down port.now) (P.answers_down port.now) pass.old pass.new }
    ensures fault { Counted (S.faults source.old) (S.faults source.new) (result.0 ≡ end.ReadFault) }
    ensures ended { Counted (S.ends source.old) (S.ends source.new) (result.0 ≡ end.PeerEnded) }
    ensures turns { result.0 ≡ end.Turns → RoseBy opened.left (S.reads source.old) (S.reads source.new) }
    ensures reads { S.reads source.new ≤ S.reads source.old + opened.left }
    ensures unwritten { result.0 ≡ end.WriteFault → (sink : K) × (result.1 ≡ Some sink) × Rose (K.faults out.sink) (K.faults sink) }
    ensures refused { Counted (crew_faults crew.old) (crew_faults crew.new) (result.0 ≡ end.CrewRefused) }
    ensures writer { Starts result.1 (crew_told crew.old) (crew_told crew.new) (mine pass.old) (mine pass.new) }
    ensures logged { IsLogged (λ l. L.held l) (λ l. L.lost l) (RefusesPeer (λ peer e. P.refuses_up port.now (seen pass.new) peer e)) (mine pass.old) (mine pass.new) log.old log.new }
    ensures later { (S.quiets source.old ≤ S.quiets source.new) × (C.last clock.old ≤ C.last clock.new) }
    ensures told { (sink : K) → result.1 ≡ Some sink → K.faults out.sink < K.faults sink → MayHaveFailed result.0 }
{
    let mut out = out;
    let Opened {
        peer,
        outbox,
        messages,
        fate,
        left,
    } = opened;
    let known = same_peer(&peer);
    log.opened(&known);
    intake.without_close(fate);
    let (link, taker) = match port.up(pass, peer, outbox) {
        Ok(up) => up,
        Err(e) => {
            drop(messages);
            let end = refuse(intake, &mut out.sink, e);
            return (end, Some(out.sink));
        }
    };
    log.up(&known);
    match begin(alloc, intake, out, crew, link, known, taker) {
        Ok(()) => {
            let end = follow(
                alloc, intake, messages, fate, source, clock, port, pass, link, left, log,
            );
            let refused = log.refusal();
            log.because(cause(alloc, &intake.session, refused));
            leave(port, pass, link, end, log.refusal());
            (end, None)
        }
        Err((end, sink)) => {
            drop(messages);
            leave(port, pass, link, end, None);
            (end, Some(sink))
        }
    }
}

// The same peer again.
fn same_peer(peer: &Peer) -> Peer
    ensures { result ≡ peer.now }
{
    *peer
}

// The reader has ended so: its link goes down. Where a message was refused since it isn't up any more, another caller took it down, and its number may be
// that of another link by now.
fn leave<P: Port>(
    port: &P,
    pass: &mut Pass<Entry>,
    link: LinkNo,
    end: LinkEnd,
    refused: Option<DeliverError>,
)
    requires { pass_name pass.old ≡ P.history port.now }
    ensures same { IsSamePass pass.old pass.new }
    ensures prefix { IsPrefix (seen pass.old) (seen pass.new) }
    ensures left { (downs : List Act) × GoesDown link end (λ e. P.refuses_down port.now (seen pass.new) link e) (P.answers_down port.now) (is_gone refused ≡ true) downs (sight pass.old) (sight pass.new) × Does downs (mine pass.old) (mine pass.new) }
    ensures gone { is_gone refused ≡ true → mine pass.new ≡ mine pass.old }
{
    if is_gone(refused) {
        return;
    }
    // memory that ran out changes nothing of how the reader ends
    let _ = port.down(pass, link, end.reason());
}

// The writer is started: delivers what waits, and goes on. The log is told what the rules deny, and why a message is refused otherwise.
fn follow<S: Source, P: Port, C: Clock, L: Log + Drop>(
    alloc: Global,
    intake: &mut Intake,
    waiting: vec::IntoIter<SessionEvent>,
    fate: Fate,
    source: &mut S,
    clock: &mut C,
    port: &P,
    pass: &mut Pass<Entry>,
    link: LinkNo,
    turns: u64,
    log: &mut LinkLog<L>,
) -> LinkEnd
    requires pass { pass_name pass.old ≡ P.history port.now }
    requires messages { AreMessages IsSpelled (into_iter_items waiting) }
    requires stands { fate ≡ fates.Going → (is_running intake.old.session.state ≡ true) × IsIn IsOpen intake.old.session }
    requires going { refusal_of log.old ≡ None }
    ensures same { IsSamePass pass.old pass.new }
    ensures prefix { IsPrefix (seen pass.old) (seen pass.new) }
    ensures followed { (came : List Came) × Through link (λ h m x. P.refuses_message port.now h link m x) came (sight pass.old) (sight pass.new) × Follows link came intake.old.session (into_iter_items waiting) fate result (S.left source.old) (S.left source.new) (IsLate (S.quiets source.old) (S.quiets source.new) intake.old.session.heard (C.last clock.old) (C.last clock.new)) (P.refuses_message port.now) (seen pass.new) }
    ensures started { IsStarted result }
    ensures fault { Counted (S.faults source.old) (S.faults source.new) (result ≡ end.ReadFault) }
    ensures ended { Counted (S.ends source.old) (S.ends source.new) (result ≡ end.PeerEnded) }
    ensures turns { result ≡ end.Turns → RoseBy turns (S.reads source.old) (S.reads source.new) }
    ensures reads { S.reads source.new ≤ S.reads source.old + turns }
    ensures later { (S.quiets source.old ≤ S.quiets source.new) × (C.last clock.old ≤ C.last clock.new) }
    ensures gone { is_gone (refusal_of log.new) ≡ true → IsGone (λ m x. P.refuses_message port.now (seen pass.new) link m x) }
    ensures logged { TellsDenials (λ l. L.held l) (λ l. L.lost l) log.old log.new }
{
    let now = intake.moment;
    match settle(alloc, port, pass, link, waiting, fate, now, log) {
        Ok(()) => go_on(alloc, intake, source, clock, port, pass, link, turns, log),
        Err(end) => end,
    }
}

// The link is up: writes the answer to OPEN, and starts the writer. Where that fails the sink comes back.
fn begin<
    K: BriefSink + Send + Drop + 'static,
    P: Outlets<Out = K> + Send + Sync + Drop + 'static,
    C: Clock + Send + Drop + 'static,
    L: Log + Send + Drop + 'static,
    R: Threads + Drop,
>(
    alloc: Global,
    intake: &mut Intake,
    out: Outward<K, P, C, L>,
    crew: &mut Crew<R, LinkNo>,
    link: LinkNo,
    peer: Peer,
    taker: Taker<P::Note>,
) -> Result<(), (LinkEnd, K)>
where
    P::Note: Send + 'static,
    requires ring { (taker_name taker).link ≡ link }
    requires fresh { taken taker ≡ [] }
    ensures early { IfErr result (λ e. IsEarly e.0) }
    ensures same { OnOk result (intake.new.session ≡ with_confirmed intake.old.session) }
    ensures handed { OnOk result (HandsOn (λ k. K.held k) (λ k. K.faults k) (intake.old.fed.bytes.items ++ owed_bytes intake.old.session) out.sink) }
    ensures unwritten { IfErr result (λ e. e.0 ≡ end.WriteFault → Rose (K.faults out.sink) (K.faults e.1)) }
    ensures wrote { IfErr result (λ e. IsWritten e.0 (intake.old.fed.bytes.items ++ owed_bytes intake.old.session) (K.held out.sink) (K.held e.1) (Rose (K.faults out.sink) (K.faults e.1))) }
    ensures refused { Counted (crew_faults crew.old) (crew_faults crew.new) (IsCrewRefused result) }
    ensures told { OnOk result (crew_told crew.new ≡ with_last link (crew_told crew.old)) }
    ensures untold { OnErr result (crew_told crew.new ≡ crew_told crew.old) }
    ensures failed { IfErr result (λ e. K.faults out.sink < K.faults e.1 → MayHaveFailed e.0) }
{
    let mut out = out;
    if let Err(end) = answer_open(intake, &mut out.sink) {
        return Err((end, out.sink));
    }
    let job = Writing::new(alloc, out, link, peer, taker);
    let run = |job: Writing<K, P, C, L>| -> Written<L>
        ensures { HasWritten (λ l. L.held l) (λ l. L.lost l) job.turns job.log result.turns result.end result.log }
    { write(job) };
    match crew.start(job, link, run) {
        Ok(()) => Ok(()),
        Err(job) => {
            let Writing { mut sink, .. } = job;
            close(&mut sink, Reason::Generic.byte());
            Err((LinkEnd::CrewRefused, sink))
        }
    }
}

// Writes the answer to OPEN, behind what was answered before.
fn answer_open<K: Sink>(intake: &mut Intake, sink: &mut K) -> Result<(), LinkEnd>
    ensures same { OnOk result (intake.new.session ≡ with_confirmed intake.old.session) }
    ensures wrote { OnOk result (Appends (intake.old.fed.bytes.items ++ owed_bytes intake.old.session) (K.held sink.old) (K.held sink.new)) }
    ensures part { IfErr result (λ e. IsWritten e (intake.old.fed.bytes.items ++ owed_bytes intake.old.session) (K.held sink.old) (K.held sink.new) (Rose (K.faults sink.old) (K.faults sink.new))) }
    ensures early { IfErr result (λ e. IsEarly e) }
    ensures crewless { IfErr result (λ e. e ≢ end.CrewRefused) }
    ensures unwritten { IfErr result (λ e. e ≡ end.WriteFault → Rose (K.faults sink.old) (K.faults sink.new)) }
    ensures quiet { OnOk result (K.faults sink.new ≡ K.faults sink.old) }
    ensures told { IfErr result (λ e. K.faults sink.old < K.faults sink.new → MayHaveFailed e) }
{
    let Ok(()) = intake.confirm() else {
        return Err(LinkEnd::NoMemory);
    };
    match write_all(sink, intake.answers()) {
        Ok(()) => Ok(()),
        Err(_) => Err(LinkEnd::WriteFault),
    }
}

// The peer isn't taken: writes what was answered before, and the CLOSE. Where memory ran out nothing is written, so that no write that fails is taken for
// that.
fn refuse<K: Sink>(intake: &Intake, sink: &mut K, e: UpError) -> LinkEnd
    ensures end { result ≡ end_of_up e }
    ensures wrote { IsWritten result intake.now.fed.bytes.items (K.held sink.old) (K.held sink.new) (Rose (K.faults sink.old) (K.faults sink.new)) }
    ensures told { K.faults sink.old < K.faults sink.new → MayHaveFailed result }
{
    let end = LinkEnd::of_up(e);
    let Some(reason) = end.reason() else {
        return end;
    };
    let Ok(()) = write_all(sink, intake.answers()) else {
        return end;
    };
    close(sink, reason);
    end
}

// Writes a CLOSE. The end is decided, so a write that fails changes nothing of it.
fn close<K: Sink>(sink: &mut K, reason: u8)
    ensures puts { Puts (close_bytes (Some (Some reason))) (K.held sink.old) (K.held sink.new) (Rose (K.faults sink.old) (K.faults sink.new)) }
    ensures later { K.faults sink.old ≤ K.faults sink.new }
{
    let _ = write_all(sink, &close_batch(reason));
}
