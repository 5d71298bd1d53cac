//! A router is made and served. Its name, of which its type keeps facts, is picked here.

ghost use Rattle.std.specs.Prelude.{◌≡◌, ◌<◌, ◌≤◌, ◌⊎◌, []};
ghost use Rattle.std.specs.String.{string_bytes};
ghost use Rattle.zr_outside_crew.specs.Crew.{crew_faults, crew_told};
ghost use Rattle.zr_hist.specs.Words.{kept_name, list_of, name, pass_name, seen};
ghost use Rattle.zr_outside.specs.Counts.{Rose};
ghost use Rattle.zr_serve.specs.Serving.{IsServed, outputs};
ghost use Rattle.zr_serve_router.specs.Former.{Heard};
ghost use Rattle.zr_serve_router.specs.Space.{Opened, Refused};

use std::alloc::Global;
use std::marker::Brand;
use std::sync::{Arc, Wait};
use std::thread::Threads;
use zr_access::Policy;
use zr_hist::{History, Kept, Pass};
use zr_link_job::ServeJob;
use zr_msg::shared::Shared;
use zr_outside::host::Host;
use zr_outside::sink::Sink;
use zr_outside_brief::BriefSink;
use zr_outside_crew::Crew;
use zr_port::{Entry, Naming};
use zr_router::Router;
use zr_serve::{ServeEnd, ServePlan, Serving, serve};

/// Makes the router of a plan, which judges what clients send by these rules, and serves it.
#[tactic(auto, using(zr_serve::proofs::Served::not_begun, zr_serve::proofs::Served::none_rose))]
pub fn serve_router<
    K: Sink,
    E: Sink,
    H: Host,
    R: Threads + Wait + Copy + Send + Sync + Drop + 'static,
>(
    rt: R,
    alloc: Global,
    plan: &ServePlan,
    policy: Policy,
    out: &mut K,
    err: &mut E,
    host: &mut H,
    crew: &mut Crew<R, ServeJob>,
) -> ServeEnd
where
    H::In: 'static,
    H::Out: BriefSink + 'static,
    H::Time: 'static,
    H::Log: 'static,
    ensures served { IsServed result plan.now.id policy plan.now.log plan.now.admin (Opened policy plan.now.id) (Refused policy plan.now.id) (Heard policy plan.now.id) (string_bytes plan.now.listen) plan.now.dials.items (H.generators host.old) (H.generators host.new) (H.calls host.old) (H.calls host.new) (crew_told crew.old) (crew_told crew.new) (crew_faults crew.old) (crew_faults crew.new) (outputs (K.held out.old) (E.held err.old) (E.faults err.old)) (outputs (K.held out.new) (E.held err.new) (E.faults err.new)) }
    ensures done { result ≡ ServeEnd.Done → Rose (H.ends host.old) (H.ends host.new) }
    ensures host { result ≡ ServeEnd.HostFault → Rose (H.faults host.old) (H.faults host.new) }
    ensures write { result ≡ ServeEnd.WriteFault → Rose (K.faults out.old) (K.faults out.new) ⊎ Rose (E.faults err.old) (E.faults err.new) }
    ensures later { (K.faults out.old ≤ K.faults out.new) × (E.faults err.old ≤ E.faults err.new) }
    ensures only { (K.faults out.old < K.faults out.new → result ≡ ServeEnd.WriteFault) × (E.faults err.old < E.faults err.new → (result ≡ ServeEnd.WriteFault) ⊎ (result ≡ ServeEnd.HostFault)) }
{
    let Ok(policy) = Shared::new(alloc, policy) else {
        return ServeEnd::NoMemory;
    };
    match History::new(alloc) {
        Ok((history, kept, pass)) => {
            serve_named::<K, E, H, R, Brand>(
                rt, alloc, plan, policy, out, err, host, crew, history, kept, pass,
            )
        }
        Err(_) => ServeEnd::NoMemory,
    }
}

// The same under a name, which is that of the history, of the plan's identifier and of the rules.
#[tactic(auto, using(zr_serve::proofs::Served::none_rose))]
fn serve_named<
    K: Sink,
    E: Sink,
    H: Host,
    R: Threads + Wait + Copy + Send + Sync + Drop + 'static,
    B: Naming + Send + Sync + 'static,
>(
    rt: R,
    alloc: Global,
    plan: &ServePlan,
    policy: Shared<Policy>,
    out: &mut K,
    err: &mut E,
    host: &mut H,
    crew: &mut Crew<R, ServeJob>,
    history: History<Entry>,
    kept: Kept<Entry>,
    pass: Pass<Entry>,
) -> ServeEnd
where
    H::In: 'static,
    H::Out: BriefSink + 'static,
    H::Time: 'static,
    H::Log: 'static,
    requires history { name history ≡ B.history }
    requires kept { (kept_name kept ≡ B.history) × (list_of kept ≡ []) }
    requires pass { (pass_name pass ≡ B.history) × (seen pass ≡ []) }
    requires own { plan.now.id ≡ B.me }
    requires ruled { policy ≡ B.policy }
    ensures served { IsServed result plan.now.id policy plan.now.log plan.now.admin (Opened policy plan.now.id) (Refused policy plan.now.id) (Heard policy plan.now.id) (string_bytes plan.now.listen) plan.now.dials.items (H.generators host.old) (H.generators host.new) (H.calls host.old) (H.calls host.new) (crew_told crew.old) (crew_told crew.new) (crew_faults crew.old) (crew_faults crew.new) (outputs (K.held out.old) (E.held err.old) (E.faults err.old)) (outputs (K.held out.new) (E.held err.new) (E.faults err.new)) }
    ensures done { result ≡ ServeEnd.Done → Rose (H.ends host.old) (H.ends host.new) }
    ensures host { result ≡ ServeEnd.HostFault → Rose (H.faults host.old) (H.faults host.new) }
    ensures write { result ≡ ServeEnd.WriteFault → Rose (K.faults out.old) (K.faults out.new) ⊎ Rose (E.faults err.old) (E.faults err.new) }
    ensures later { (K.faults out.old ≤ K.faults out.new) × (E.faults err.old ≤ E.faults err.new) }
    ensures only { (K.faults out.old < K.faults out.new → result ≡ ServeEnd.WriteFault) × (E.faults err.old < E.faults err.new → (result ≡ ServeEnd.WriteFault) ⊎ (result ≡ ServeEnd.HostFault)) }
{
    let Ok(judged) = policy.copy() else {
        return ServeEnd::NoMemory;
    };
    let Ok(router) = Router::<B, R, H::Out>::new(rt, alloc, plan.id, judged, history, kept) else {
        return ServeEnd::NoMemory;
    };
    let Ok(port) = Arc::new(alloc, router) else {
        return ServeEnd::NoMemory;
    };
    let mut serving = Serving {
        rt,
        alloc,
        port,
        policy,
        pass,
    };
    serve(&mut serving, plan, out, err, host, crew)
}
