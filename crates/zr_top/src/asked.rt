//! What the words ask for is done: a script is read, a router is served, or a script is made.

ghost use Rattle.std.specs.Prelude.{◌≡◌, ◌<◌, ◌≤◌, ◌⊎◌, true, false, is_some, map, Err, IfSome, OnErr};
ghost use Rattle.std.specs.String.{string_bytes};
ghost use Rattle.zr_outside_crew.specs.Crew.{crew_faults, crew_told};
ghost use Rattle.zr_make.specs.Plan.{is_in_range};
ghost use Rattle.zr_make.specs.Script.{script, text_of};
ghost use Rattle.zr_netrun.specs.Clauses.{OfRead, WritesAsAsked};
ghost use Rattle.zr_netrun.specs.Ended.{IsEnded, TellsFailedWrites};
ghost use Rattle.zr_outside.specs.Counts.{Rose};
ghost use Rattle.zr_outside.specs.Piece.{IsReadToEnd};
ghost use Rattle.zr_serve.specs.Serving.{outputs};
ghost use Rattle.zr_top.specs.Asked.{status_of, status_of_rules, HasRules, IsServing, IsServingBy};
ghost use Rattle.zr_top.specs.Told.{IsTold, IsWritten, TellsUsage};
ghost use Rattle.zr_top.specs.Words.{is_net, options_by, reads_input};
ghost use Rattle.zr_top_words.specs.Asked.{made_of, net_of, served_of};
ghost use Rattle.zr_top_words.specs.Read.{may_answer, served_as, AreThreads, IsRefused, IsWrong};

use crate::answer::{tell, usage};
use std::alloc::Global;
use std::sync::Wait;
use std::thread::Threads;
use zr_access::Policy;
use zr_fan::threaded::Threaded;
use zr_fan::watch::Unwatched;
use zr_link_job::ServeJob;
use zr_make::{MakeError, MakePlan, make};
use zr_netrun::netrun::run_script;
use zr_netrun::options::NetOptions;
use zr_netrun::status::Status;
use zr_outside::host::Host;
use zr_outside::sink::Sink;
use zr_outside::source::Source;
use zr_outside_brief::BriefSink;
use zr_outside_crew::Crew;
use zr_rules::{RulesEnd, RulesError, read_rules, tell_refusal};
use zr_serve::{ServeEnd, ServePlan};
use zr_serve_router::serving::serve_router;
use zr_top_words::plan::{NetPlan, Plan, ServeWords, WordsError};
use zr_top_words::reading::read_words;

/// Does what the words ask for. The clauses are those of `run` that speak of the words.
#[tactic(auto, using(crate::proofs::Cases::of_some, crate::proofs::Branches::none_of, crate::proofs::Branches::all_of, crate::proofs::Branches::not_answered, crate::proofs::Branches::not_refused, crate::proofs::Branches::answered_not_refused, crate::proofs::Branches::no_script, crate::proofs::Branches::no_router))]
pub fn run_asked<
    S: Source,
    K: Sink,
    E: Sink,
    H: Host,
    R: Threads + Wait + Copy + Send + Sync + Drop + 'static,
>(
    rt: R,
    alloc: Global,
    words: &[String],
    input: &mut S,
    out: &mut K,
    err: &mut E,
    host: &mut H,
    crew: &mut Crew<R, ServeJob>,
) -> Status
where
    H::In: 'static,
    H::Out: BriefSink + 'static,
    H::Time: 'static,
    H::Log: 'static,
    ensures report { IfSome (net_of (map string_bytes words.now)) (λ plan. WritesAsAsked (options_by plan) (S.left input.old) (S.left input.new) (IsReadToEnd (S.ends input.old) (S.ends input.new) (S.quiets input.old) (S.quiets input.new)) result (K.held out.old) (K.held out.new) (E.held err.old) (E.held err.new)) }
    ensures read_part { is_net (map string_bytes words.now) ≡ true → OfRead (S.left input.old) (S.left input.new) (λ read. Unit {0}) }
    ensures served { IfSome (served_of (map string_bytes words.now)) (λ s. IsServingBy s result (S.left input.old) (S.left input.new) (IsReadToEnd (S.ends input.old) (S.ends input.new) (S.quiets input.old) (S.quiets input.new)) (H.generators host.old) (H.generators host.new) (H.calls host.old) (H.calls host.new) (crew_told crew.old) (crew_told crew.new) (crew_faults crew.old) (crew_faults crew.new) (outputs (K.held out.old) (E.held err.old) (E.faults err.old)) (outputs (K.held out.new) (E.held err.new) (E.faults err.new))) }
    ensures unserved { is_some (served_of (map string_bytes words.now)) ≡ false → (host.new ≡ host.old) × (crew.new ≡ crew.old) }
    ensures unread { reads_input (map string_bytes words.now) ≡ false → input.new ≡ input.old }
    ensures whole { is_net (map string_bytes words.now) ≡ true → result ≡ Status.Done → IsReadToEnd (S.ends input.old) (S.ends input.new) (S.quiets input.old) (S.quiets input.new) }
    ensures made { IfSome (made_of (map string_bytes words.now)) (λ plan. IsWritten result (text_of (script plan)) (K.held out.old) (K.held out.new) (K.faults out.old) (K.faults out.new) × (E.held err.new ≡ E.held err.old) × (S.left input.new ≡ S.left input.old)) }
    ensures helped { may_answer (map string_bytes words.now) ≡ true → (result ≡ Status.Words) ⊎ (IsTold result (K.held out.old) (K.held out.new) (K.faults out.old) (K.faults out.new) × (E.held err.new ≡ E.held err.old) × (S.left input.new ≡ S.left input.old)) }
    ensures ended { is_some (served_of (map string_bytes words.now)) ≡ true → result ≡ Status.Done → Rose (H.ends host.old) (H.ends host.new) }
    ensures host { result ≡ Status.HostFault → Rose (H.faults host.old) (H.faults host.new) }
    ensures refused { result ≡ Status.Refused → reads_input (map string_bytes words.now) ≡ true }
    ensures refused_told { is_some (served_of (map string_bytes words.now)) ≡ true → result ≡ Status.Refused → E.faults err.new ≡ E.faults err.old }
    ensures untouched { (result ≡ Status.Refused → (host.new ≡ host.old) × (crew.new ≡ crew.old)) × (result ≡ Status.ReadFault → (host.new ≡ host.old) × (crew.new ≡ crew.old)) }
    ensures read { result ≡ Status.ReadFault → Rose (S.faults input.old) (S.faults input.new) }
    ensures read_told { S.faults input.old < S.faults input.new → result ≡ Status.ReadFault }
    ensures write { result ≡ Status.WriteFault → Rose (K.faults out.old) (K.faults out.new) ⊎ Rose (E.faults err.old) (E.faults err.new) }
    ensures write_told { (K.faults out.old < K.faults out.new → result ≡ Status.WriteFault) × (E.faults err.old < E.faults err.new → (result ≡ Status.WriteFault) ⊎ (result ≡ Status.Words) ⊎ ((is_some (served_of (map string_bytes words.now)) ≡ true) × (result ≡ Status.HostFault))) }
    ensures words { (result ≡ Status.Words → IsWrong (map string_bytes words.now)) × (IsRefused (map string_bytes words.now) → (result ≡ Status.Words) ⊎ (result ≡ Status.NoMemory)) }
    ensures input_later { S.faults input.old ≤ S.faults input.new }
    ensures out_later { K.faults out.old ≤ K.faults out.new }
    ensures err_later { E.faults err.old ≤ E.faults err.new }
    ensures usage { result ≡ Status.Words → TellsUsage (E.held err.old) (E.held err.new) (E.faults err.old) (E.faults err.new) × (K.held out.new ≡ K.held out.old) × (S.left input.new ≡ S.left input.old) }
{
    match read_words(alloc, words) {
        Ok(Plan::Net(plan)) => read_script(&rt, alloc, plan, input, out, err),
        Ok(Plan::Serve(plan)) => serve(rt, alloc, plan, input, out, err, host, crew),
        Ok(Plan::Make(plan)) => make_script(alloc, &plan, out),
        Err(WordsError::Told(text)) => tell(text.as_str(), out),
        Err(WordsError::Wrong) => usage(err),
        Err(WordsError::NoMemory) => Status::NoMemory,
    }
}

// A script is read, with a gang of as many threads as the words ask for.
fn read_script<R: Threads + Sync, S: Source, K: Sink, E: Sink>(
    rt: &R,
    alloc: Global,
    plan: NetPlan,
    input: &mut S,
    out: &mut K,
    err: &mut E,
) -> Status
    requires threads { AreThreads plan.threads }
    ensures writes { WritesAsAsked (options_by plan) (S.left input.old) (S.left input.new) (IsReadToEnd (S.ends input.old) (S.ends input.new) (S.quiets input.old) (S.quiets input.new)) result (K.held out.old) (K.held out.new) (E.held err.old) (E.held err.new) }
    ensures ends { IsEnded (IsReadToEnd (S.ends input.old) (S.ends input.new) (S.quiets input.old) (S.quiets input.new)) result (S.faults input.old) (S.faults input.new) (K.faults out.old) (K.faults out.new) (E.faults err.old) (E.faults err.new) }
    ensures only { S.faults input.old < S.faults input.new → result ≡ Status.ReadFault }
    ensures only_write { TellsFailedWrites result (K.faults out.old) (K.faults out.new) (E.faults err.old) (E.faults err.new) }
{
    let Ok(watch) = Box::new(alloc, Unwatched) else {
        return Status::NoMemory;
    };
    let mut gang = Threaded::new(plan.threads, watch);
    run_script(rt, &mut gang, alloc, options_by(plan), input, out, err)
}

fn options_by(plan: NetPlan) -> NetOptions
    ensures { result ≡ options_by plan }
{
    NetOptions {
        summary: plan.summary,
        explain: plan.explain,
    }
}

// The rules are read where the words ask for them, before anything is asked of the host.
fn serve<
    S: Source,
    K: Sink,
    E: Sink,
    H: Host,
    R: Threads + Wait + Copy + Send + Sync + Drop + 'static,
>(
    rt: R,
    alloc: Global,
    words: ServeWords,
    input: &mut S,
    out: &mut K,
    err: &mut E,
    host: &mut H,
    crew: &mut Crew<R, ServeJob>,
) -> Status
where
    H::In: 'static,
    H::Out: BriefSink + 'static,
    H::Time: 'static,
    H::Log: 'static,
    ensures served { IsServingBy (served_as words) result (S.left input.old) (S.left input.new) (IsReadToEnd (S.ends input.old) (S.ends input.new) (S.quiets input.old) (S.quiets input.new)) (H.generators host.old) (H.generators host.new) (H.calls host.old) (H.calls host.new) (crew_told crew.old) (crew_told crew.new) (crew_faults crew.old) (crew_faults crew.new) (outputs (K.held out.old) (E.held err.old) (E.faults err.old)) (outputs (K.held out.new) (E.held err.new) (E.faults err.new)) }
    ensures ended { result ≡ Status.Done → Rose (H.ends host.old) (H.ends host.new) }
    ensures host { result ≡ Status.HostFault → Rose (H.faults host.old) (H.faults host.new) }
    ensures read { result ≡ Status.ReadFault → Rose (S.faults input.old) (S.faults input.new) }
    ensures read_told { S.faults input.old < S.faults input.new → result ≡ Status.ReadFault }
    ensures write { result ≡ Status.WriteFault → Rose (K.faults out.old) (K.faults out.new) ⊎ Rose (E.faults err.old) (E.faults err.new) }
    ensures write_told { (K.faults out.old < K.faults out.new → result ≡ Status.WriteFault) × (E.faults err.old < E.faults err.new → (result ≡ Status.WriteFault) ⊎ (result ≡ Status.HostFault)) }
    ensures refused { result ≡ Status.Refused → (words.rules ≡ true) × (E.faults err.new ≡ E.faults err.old) }
    ensures untouched { (result ≡ Status.Refused → (host.new ≡ host.old) × (crew.new ≡ crew.old)) × (result ≡ Status.ReadFault → (host.new ≡ host.old) × (crew.new ≡ crew.old)) }
    ensures unread { words.rules ≡ false → input.new ≡ input.old }
    ensures none { result ≡ Status.Words → ⊥ }
    ensures later { (S.faults input.old ≤ S.faults input.new) × (K.faults out.old ≤ K.faults out.new) × (E.faults err.old ≤ E.faults err.new) }
{
    match rules_for(alloc, words.rules, input) {
        Ok(policy) => serve_by(rt, alloc, words, policy, out, err, host, crew),
        Err(error) => status_of_rules(tell_refusal(alloc, words.explain, error, err)),
    }
}

// The rules of the router: those of the whole input, or none.
fn rules_for<S: Source>(alloc: Global, asked: bool, input: &mut S) -> Result<Policy, RulesError>
    ensures rules { HasRules asked (S.left input.old) (S.left input.new) (IsReadToEnd (S.ends input.old) (S.ends input.new) (S.quiets input.old) (S.quiets input.new)) result }
    ensures fault { result ≡ Err RulesError.ReadFault → Rose (S.faults input.old) (S.faults input.new) }
    ensures only { S.faults input.old < S.faults input.new → result ≡ Err RulesError.ReadFault }
    ensures unread { asked ≡ false → input.new ≡ input.old }
    ensures refused { OnErr result (asked ≡ true) }
    ensures later { S.faults input.old ≤ S.faults input.new }
{
    if asked {
        read_rules(alloc, input)
    } else {
        Ok(Policy::open(alloc))
    }
}

// The router of these words is served, under these rules.
fn serve_by<K: Sink, E: Sink, H: Host, R: Threads + Wait + Copy + Send + Sync + Drop + 'static>(
    rt: R,
    alloc: Global,
    words: ServeWords,
    policy: Policy,
    out: &mut K,
    err: &mut E,
    host: &mut H,
    crew: &mut Crew<R, ServeJob>,
) -> Status
where
    H::In: 'static,
    H::Out: BriefSink + 'static,
    H::Time: 'static,
    H::Log: 'static,
    ensures served { IsServing (served_as words) policy result (H.generators host.old) (H.generators host.new) (H.calls host.old) (H.calls host.new) (crew_told crew.old) (crew_told crew.new) (crew_faults crew.old) (crew_faults crew.new) (outputs (K.held out.old) (E.held err.old) (E.faults err.old)) (outputs (K.held out.new) (E.held err.new) (E.faults err.new)) }
    ensures ended { result ≡ Status.Done → Rose (H.ends host.old) (H.ends host.new) }
    ensures host { result ≡ Status.HostFault → Rose (H.faults host.old) (H.faults host.new) }
    ensures write { result ≡ Status.WriteFault → Rose (K.faults out.old) (K.faults out.new) ⊎ Rose (E.faults err.old) (E.faults err.new) }
    ensures write_told { (K.faults out.old < K.faults out.new → result ≡ Status.WriteFault) × (E.faults err.old < E.faults err.new → (result ≡ Status.WriteFault) ⊎ (result ≡ Status.HostFault)) }
    ensures none { (result ≡ Status.Words → ⊥) × (result ≡ Status.Refused → ⊥) × (result ≡ Status.ReadFault → ⊥) }
    ensures later { (K.faults out.old ≤ K.faults out.new) × (E.faults err.old ≤ E.faults err.new) }
{
    let plan = ServePlan {
        id: words.id,
        listen: words.listen,
        dials: words.dials,
        log: words.log,
        admin: words.admin,
    };
    status_of(serve_router(rt, alloc, &plan, policy, out, err, host, crew))
}

fn status_of(end: ServeEnd) -> Status
    ensures { result ≡ status_of end }
{
    match end {
        ServeEnd::Done => Status::Done,
        ServeEnd::NoMemory => Status::NoMemory,
        ServeEnd::WriteFault => Status::WriteFault,
        ServeEnd::HostFault => Status::HostFault,
    }
}

fn status_of_rules(end: RulesEnd) -> Status
    ensures is { result ≡ status_of_rules end }
    ensures none { (result ≡ Status.Done → ⊥) × (result ≡ Status.Words → ⊥) × (result ≡ Status.HostFault → ⊥) }
    ensures refused { result ≡ Status.Refused → end ≡ RulesEnd.Refused }
    ensures read { result ≡ Status.ReadFault → end ≡ RulesEnd.ReadFault }
    ensures write { result ≡ Status.WriteFault → end ≡ RulesEnd.WriteFault }
{
    match end {
        RulesEnd::Refused => Status::Refused,
        RulesEnd::NoMemory => Status::NoMemory,
        RulesEnd::ReadFault => Status::ReadFault,
        RulesEnd::WriteFault => Status::WriteFault,
    }
}

fn make_script<K: Sink>(alloc: Global, plan: &MakePlan, out: &mut K) -> Status
    requires { is_in_range plan.now.routers plan.now.clients plan.now.messages ≡ true }
    ensures written { IsWritten result (text_of (script plan.now)) (K.held out.old) (K.held out.new) (K.faults out.old) (K.faults out.new) }
    ensures none { result ≡ Status.Words → ⊥ }
    ensures later { K.faults out.old ≤ K.faults out.new }
    ensures only { K.faults out.old < K.faults out.new → result ≡ Status.WriteFault }
{
    match make(alloc, plan, out) {
        Ok(()) => Status::Done,
        Err(MakeError::NoMemory) => Status::NoMemory,
        Err(MakeError::WriteFault) => Status::WriteFault,
    }
}
