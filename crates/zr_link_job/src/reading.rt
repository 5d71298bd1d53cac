//! What the thread of a link's reader owns, and does.

ghost use Rattle.std.specs.Prelude.{◌≡◌, ◌≤◌, ◌+◌, ◌⊎◌, ◌++◌, ℕ, None, Option, [], ◌∷◌, IfErr, IfOk, IfSome, is_err, is_some, true};
ghost use Rattle.std.specs.Arc.{arc_value};
ghost use Rattle.std.proofs.Props.{props};
ghost use Rattle.zr_outside_crew.specs.Crew.{crew_faults, crew_told};
ghost use Rattle.zr_hist.specs.Words.{mine, pass_name, seen};
ghost use Rattle.zr_link_job.specs.Begins.{expects, greets, opening_of};
ghost use Rattle.zr_link_job.specs.Starts.{Starts};
ghost use Rattle.zr_link_job.specs.declared.job.ServeJob.TheVariants.{Link};
ghost use Rattle.zr_open.specs.declared.error.Reason.TheVariants.{Generic};
ghost use Rattle.zr_outside.specs.Counts.{Counted, Rose, RoseBy};
ghost use Rattle.zr_outside.specs.Told.{Tells};
ghost use Rattle.zr_link.specs.Heard.{IsLate};
ghost use Rattle.zr_link.specs.Log as texts;
ghost use Rattle.zr_link.specs.Log.{held_in, lost_in, stage_of};
ghost use Rattle.zr_link.specs.Logged.{IsLogged, RefusesPeer, TellsLink};
ghost use Rattle.zr_link.specs.Run.{Runs};
ghost use Rattle.zr_link.specs.Written.{Puts, Wrote};
ghost use Rattle.zr_link.specs.declared.end.LinkEnd.TheVariants as end;
ghost use Rattle.zr_link.specs.declared.log.Stage.TheVariants as stages;
ghost use Rattle.zr_session.specs.Session.{begun, close_of};
ghost use Rattle.zr_session.specs.declared.fate.End.TheVariants as how;

use crate::job::{LinkJob, LinkStart, ServeJob, Side};
use std::alloc::{AllocError, Global};
use std::sync::Arc;
use std::thread::Threads;
use zr_access::Policy;
use zr_hist::Pass;
use zr_id::link::LinkNo;
use zr_link::{LinkEnd, LinkLog, Outward, Reader, Stage};
use zr_link_writer::close_batch;
use zr_msg::shared::Shared;
use zr_open::{Opening, Reason};
use zr_outside::clock::Clock;
use zr_outside::log::Log;
use zr_outside::sink::{Sink, write_all};
use zr_outside::source::Source;
use zr_outside_brief::BriefSink;
use zr_outside_crew::{Crew, Job};
use zr_port::{Entry, Port};
use zr_port_outlet::Outlets;
use zr_session::Session;

/// What the thread of a link's reader owns: its job, both ways of the link, a clock and a log for it and for the writer that it starts, the port at
/// which the link reaches the router, a pass of its history, and the crew that starts the writer. There are logs exactly where the job asks for them. The
/// port is that of a router with the job's identifier, which judges by the rules of the job.
#[derive(Drop)]
pub struct Reading<
    S: Source + Drop,
    K: Sink + Drop,
    C: Clock + Drop,
    L: Log + Drop,
    P: Port + Drop,
    R: Threads + Drop,
> {
    pub alloc: Global,
    pub job: LinkJob,
    pub source: S,
    pub sink: K,
    pub clock: C,
    pub writer_clock: C,
    pub log: Option<L>,
    pub writer_log: Option<L>,
    pub port: Arc<P>,
    pub pass: Pass<Entry>,
    pub crew: Crew<R, LinkNo>,
    ghost ours: { pass_name pass ≡ P.history (arc_value port) },
    ghost named: { job.start.me ≡ P.router (arc_value port) },
    ghost asked: { (is_some log ≡ job.start.log) × (is_some writer_log ≡ job.start.log) },
    ghost ruled: { job.policy ≡ P.policy (arc_value port) },
}

// The same, once the crew has its job: how the link begins, and the rules whose denials the log tells, if it does, are all that its thread needs.
#[derive(Drop)]
struct Hearing<
    S: Source + Drop,
    K: Sink + Drop,
    C: Clock + Drop,
    L: Log + Drop,
    P: Port + Drop,
    R: Threads + Drop,
> {
    alloc: Global,
    start: LinkStart,
    source: S,
    sink: K,
    clock: C,
    writer_clock: C,
    log: Option<L>,
    writer_log: Option<L>,
    port: Arc<P>,
    pass: Pass<Entry>,
    crew: Crew<R, LinkNo>,
    rules: Option<Shared<Policy>>,
    ghost ours: { pass_name pass ≡ P.history (arc_value port) },
    ghost ruled: { IfSome rules (λ p. p ≡ P.policy (arc_value port)) } by { Prim.hlevel props },
}

/// What comes back of a reader that could not be started: where the bytes of its link go, and its log, if it has one.
#[derive(Drop)]
pub struct TurnedAway<K: Sink + Drop, L: Log + Drop> {
    pub sink: K,
    pub log: Option<L>,
}

/// Starts the reader of a link by the crew, which tells its job. A reader that the crew hands back is let go: its peer is told so by a CLOSE, where it
/// still reads, and its log, where it has one. Its sink and its log come back then, and the count of the crew's failed starts says that there was one.
#[tactic(auto, using(crate::proofs::Starting::starts_one))]
pub fn hand_over<
    S: Source + Send + Drop + 'static,
    K: BriefSink + Send + Drop + 'static,
    C: Clock + Send + Drop + 'static,
    L: Log + Send + Drop + 'static,
    P: Outlets<Out = K> + Send + Sync + Drop + 'static,
    R: Threads + Copy + Send + Sync + Drop + 'static,
>(crew: &mut Crew<R, ServeJob>, reading: Reading<S, K, C, L, P, R>) -> Result<(), TurnedAway<K, L>>
where
    P::Note: Send + 'static,
    ensures started { Starts (Link reading.job ∷ []) (crew_told crew.old) (crew_told crew.new) (crew_faults crew.old) (crew_faults crew.new) }
    ensures failed { Counted (crew_faults crew.old) (crew_faults crew.new) (is_err result ≡ true) }
    ensures closed { IfErr result (λ t. Puts (close_of (how.Closed Generic)) (K.held reading.sink) (K.held t.sink) (Rose (K.faults reading.sink) (K.faults t.sink))) }
    ensures logged { IfErr result (λ t. Tells (texts.end_line stages.Unopened end.CrewRefused None) (held_in (λ l. L.held l) reading.log) (held_in (λ l. L.held l) t.log) (lost_in (λ l. L.lost l) reading.log) (lost_in (λ l. L.lost l) t.log)) }
{
    let Reading {
        alloc,
        job,
        source,
        sink,
        clock,
        writer_clock,
        log,
        writer_log,
        port,
        pass,
        crew: inner,
    } = reading;
    let rules = told_rules(&job);
    let hearing = Hearing {
        alloc,
        start: job.start,
        source,
        sink,
        clock,
        writer_clock,
        log,
        writer_log,
        port,
        pass,
        crew: inner,
        rules,
    };
    let run = |hearing: Hearing<S, K, C, L, P, R>| heard(hearing);
    match crew.start(hearing, ServeJob::Link { job }, run) {
        Ok(()) => Ok(()),
        Err(hearing) => Err(give_up(hearing)),
    }
}

// The rules whose denials the log of a link tells: none without a log, or where there are no rules.
fn told_rules(job: &LinkJob) -> Option<Shared<Policy>>
    ensures { IfSome result (λ p. p ≡ job.now.policy) }
{
    if !job.start.log || job.policy.get().is_open() {
        return None;
    }
    job.policy.copy().ok()
}

// What the thread of a link's reader leaves, and how it ended.
#[derive(Drop)]
struct Outcome<S: Source + Drop, C: Clock + Drop, L: Log + Drop> {
    source: S,
    clock: C,
    log: LinkLog<L>,
    pass: Pass<Entry>,
    end: LinkEnd,
}

impl<
    S: Source + Drop,
    K: Sink + Drop,
    C: Clock + Drop,
    L: Log + Drop,
    P: Port + Drop,
    R: Threads + Drop,
> Job<ServeJob, Outcome<S, C, L>> for Hearing<S, K, C, L, P, R> {
    ghost told = { λ h. Link (record { start = h.start; policy = P.policy (arc_value h.port) }) };

    // the link was heard, in as many reads as its job has, and its log was told of it
    ghost leaves = { λ h o. ((o.end ≡ end.NoMemory) ⊎ ((now : ℕ) × (back : Option K) × Runs (begun (expects h.start.side) (opening_of h.start) now) o.end (S.left h.source) (S.left o.source) (IsLate (S.quiets h.source) (S.quiets o.source) now now (C.last o.clock)) (λ answers. Wrote (λ k. K.held k) (λ k. K.faults k) o.end (greets h.start.side (opening_of h.start) ++ answers) h.sink back) (P.refuses_up (arc_value h.port)) (P.refuses_message (arc_value h.port)) (P.refuses_down (arc_value h.port)) (P.answers_down (arc_value h.port)) h.pass o.pass)) × (S.reads o.source ≤ S.reads h.source + h.start.turns) × (o.end ≡ end.Turns → RoseBy h.start.turns (S.reads h.source) (S.reads o.source)) × TellsLink (λ l. L.held l) (λ l. L.lost l) (RefusesPeer (λ peer e. P.refuses_up (arc_value h.port) (seen o.pass) peer e)) h.rules (mine h.pass) (mine o.pass) o.end h.log o.log };
}

// Hears the link to its end, in as many reads as its job has; its log is told of it. How it ended is seen by the peer and the log alone.
fn heard<
    S: Source + Drop,
    K: BriefSink + Send + Drop + 'static,
    C: Clock + Send + Drop + 'static,
    L: Log + Send + Drop + 'static,
    P: Outlets<Out = K> + Send + Sync + Drop + 'static,
    R: Threads + Drop,
>(hearing: Hearing<S, K, C, L, P, R>) -> Outcome<S, C, L>
where
    P::Note: Send + 'static,
    ensures { ⟦<Hearing<S, K, C, L, P, R> as Job<ServeJob, Outcome<S, C, L>>>⟧.leaves hearing result }
{
    let Hearing {
        alloc,
        start,
        mut source,
        sink,
        mut clock,
        writer_clock,
        log,
        writer_log,
        port,
        mut pass,
        mut crew,
        rules,
    } = hearing;
    let mut log = LinkLog::new(alloc, log, Stage::Unopened);
    log.judge_by(rules);
    let end = hear(
        alloc,
        &start,
        &mut source,
        Outward {
            sink,
            port,
            clock: writer_clock,
            turns: start.turns,
            log: writer_log,
        },
        &mut clock,
        &mut crew,
        &mut pass,
        &mut log,
    );
    log.read(end);
    Outcome {
        source,
        clock,
        log,
        pass,
        end,
    }
}

// Opens the session of a link that begins so, and runs the link's reader.
#[tactic(auto, using(crate::proofs::Beginning::is_begun))]
fn hear<
    S: Source,
    K: BriefSink + Send + Drop + 'static,
    C: Clock + Send + Drop + 'static,
    L: Log + Send + Drop + 'static,
    P: Outlets<Out = K> + Send + Sync + Drop + 'static,
    R: Threads + Drop,
>(
    alloc: Global,
    start: &LinkStart,
    source: &mut S,
    out: Outward<K, P, C, L>,
    clock: &mut C,
    crew: &mut Crew<R, LinkNo>,
    pass: &mut Pass<Entry>,
    log: &mut LinkLog<L>,
) -> LinkEnd
where
    P::Note: Send + 'static,
    requires pass { pass_name pass.old ≡ P.history (arc_value out.port) }
    requires turns { out.turns ≡ start.now.turns }
    requires unopened { stage_of log.old ≡ stages.Unopened }
    ensures heard { (result ≡ end.NoMemory) ⊎ ((now : ℕ) × (back : Option K) × Runs (begun (expects start.now.side) (opening_of start.now) now) result (S.left source.old) (S.left source.new) (IsLate (S.quiets source.old) (S.quiets source.new) now now (C.last clock.new)) (λ answers. Wrote (λ k. K.held k) (λ k. K.faults k) result (greets start.now.side (opening_of start.now) ++ answers) out.sink back) (P.refuses_up (arc_value out.port)) (P.refuses_message (arc_value out.port)) (P.refuses_down (arc_value out.port)) (P.answers_down (arc_value out.port)) pass.old pass.new) }
    ensures turns { result ≡ end.Turns → RoseBy start.now.turns (S.reads source.old) (S.reads source.new) }
    ensures reads { S.reads source.new ≤ S.reads source.old + start.now.turns }
    ensures logged { IsLogged (λ l. L.held l) (λ l. L.lost l) (RefusesPeer (λ peer e. P.refuses_up (arc_value out.port) (seen pass.new) peer e)) (mine pass.old) (mine pass.new) log.old log.new }
{
    let Ok((session, first)) = begin(alloc, start, clock.now()) else {
        return LinkEnd::NoMemory;
    };
    let (end, _) = Reader::run(
        alloc,
        source,
        out,
        first.as_slice(),
        session,
        clock,
        crew,
        pass,
        log,
    );
    end
}

// The session of a link that begins so, by its side, and what it asks to be written first.
fn begin(alloc: Global, start: &LinkStart, now: u64) -> Result<(Session, Vec<u8>), AllocError>
    ensures session { IfOk result (λ r. r.0 ≡ begun (expects start.now.side) (opening_of start.now) now) }
    ensures first { IfOk result (λ r. r.1.items ≡ greets start.now.side (opening_of start.now)) }
{
    let opening = Opening::new(
        start.me,
        &start.secret,
        start.number,
        start.word,
        start.weight.get(),
    );
    let mut first = Vec::new(alloc);
    match start.side {
        Side::Accepting => Ok((Session::accepting(alloc, opening, now), first)),
        Side::Dialling => match Session::dialling(alloc, opening, now, &mut first) {
            Ok(session) => Ok((session, first)),
            Err(_) => Err(AllocError),
        },
    }
}

/// The reader of a link can't be started: its peer is told so by a CLOSE, where it still reads.
pub fn turn_away<K: Sink>(sink: &mut K)
    ensures puts { Puts (close_of (how.Closed Generic)) (K.held sink.old) (K.held sink.new) (Rose (K.faults sink.old) (K.faults sink.new)) }
    ensures later { K.faults sink.old ≤ K.faults sink.new }
{
    // where the peer has gone there is nobody to be told
    let _ = write_all(sink, &close_batch(Reason::Generic.byte()));
}

// The link's reader could not be started: its peer is told so, and its log. Both come back.
fn give_up<
    S: Source + Drop,
    K: Sink + Drop,
    C: Clock + Drop,
    L: Log + Drop,
    P: Port + Drop,
    R: Threads + Drop,
>(hearing: Hearing<S, K, C, L, P, R>) -> TurnedAway<K, L>
    ensures puts { Puts (close_of (how.Closed Generic)) (K.held hearing.sink) (K.held result.sink) (Rose (K.faults hearing.sink) (K.faults result.sink)) }
    ensures logged { Tells (texts.end_line stages.Unopened end.CrewRefused None) (held_in (λ l. L.held l) hearing.log) (held_in (λ l. L.held l) result.log) (lost_in (λ l. L.lost l) hearing.log) (lost_in (λ l. L.lost l) result.log) }
{
    let Hearing {
        alloc,
        mut sink,
        log,
        ..
    } = hearing;
    turn_away(&mut sink);
    let mut log = LinkLog::new(alloc, log, Stage::Unopened);
    log.read(LinkEnd::CrewRefused);
    TurnedAway {
        sink,
        log: log.into_log(),
    }
}
