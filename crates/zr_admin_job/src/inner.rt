//! What the thread of an inner client owns, and does.

ghost use Rattle.std.specs.Prelude.{◌≡◌, ◌-◌, ◌^◌, IfErr, IfOk, true, is_err};
ghost use Rattle.std.specs.Arc.{arc_value};
ghost use Rattle.zr_hist.specs.Words.{IsSamePass};
ghost use Rattle.zr_port.specs.Coming.{sight};
ghost use Rattle.zr_ring.specs.Taker.{taken};
ghost use Rattle.zr_link_job.specs.declared.job.ServeJob.TheVariants.{Inner};
ghost use Rattle.zr_outside.specs.Counts.{Counted};
ghost use Rattle.zr_outside_crew.specs.Crew.{Tells, crew_faults, crew_told};
ghost use Rattle.zr_admin_job.specs.Course.{Course, EndsRefused, Reopens, attached};

use std::sync::Arc;
use std::thread::Threads;
use zr_admin::Admin;
use zr_hist::Pass;
use zr_link::PortClock;
use zr_link_job::ServeJob;
use zr_outside::clock::Clock;
use zr_outside_crew::{Crew, Job};
use zr_port::Entry;
use zr_port_glance::Glancing;

/// How many steps an inner client makes at most, and how often it is opened at most.
const TURNS: u64 = u64::MAX;

/// What the thread of an inner client owns: the client, a clock that rests until something is queued for its link, and its random word. The client has the
/// identifier of the router that its port reaches.
#[derive(Drop)]
pub struct InnerJob<P: Glancing + Drop, C: Clock + Drop> {
    admin: Admin<P>,
    clock: PortClock<C, P>,
    word: u64,
    ghost named: { admin.id ≡ P.router (arc_value admin.port) },
}

/// The crew could not start the job: its link is down.
#[derive(Clone, Copy, Debug)]
pub struct HandedBack;

impl<P: Glancing + Drop, C: Clock + Drop> InnerJob<P, C> {
    /// The job of an inner client with this random word. Its clock tells this one's time, and rests by the port.
    pub fn new(admin: Admin<P>, port: Arc<P>, clock: C, word: u64) -> InnerJob<P, C>
        requires own { admin.id ≡ P.router (arc_value admin.port) }
    {
        let clock = PortClock::new(clock, port, admin.link);
        InnerJob { admin, clock, word }
    }
}

impl<P: Glancing + Drop, C: Clock + Drop> Job<ServeJob, Pass<Entry>> for InnerJob<P, C> {
    ghost told = { λ _. Inner };

    // its pass, behind the whole course of the client that was given
    ghost leaves = { λ j pass. IsSamePass j.admin.pass pass × Course (P.refuses_up (arc_value j.admin.port)) (P.refuses_message (arc_value j.admin.port)) (P.refuses_down (arc_value j.admin.port)) (P.answers_down (arc_value j.admin.port)) (P.glance_of (arc_value j.admin.port)) j.admin.id j.word (2 ^ 64 - 1) (attached j.admin.link (taken j.admin.taker) j.admin.hearing (sight j.admin.pass)) (sight pass) };
}

/// Starts an inner client by the crew, which tells that it did. Where the crew hands it back its link goes down.
pub fn hand_over_inner<
    P: Glancing + Send + Sync + Drop + 'static,
    C: Clock + Send + Drop + 'static,
    R: Threads + Copy + Send + Sync + Drop + 'static,
>(crew: &mut Crew<R, ServeJob>, job: InnerJob<P, C>) -> Result<(), HandedBack>
where
    P::Note: Send + 'static,
    ensures told { Tells result Inner (crew_told crew.old) (crew_told crew.new) }
    ensures failed { Counted (crew_faults crew.old) (crew_faults crew.new) (is_err result ≡ true) }
{
    let run = |job: InnerJob<P, C>| work(job);
    match crew.start(job, ServeJob::Inner, run) {
        Ok(()) => Ok(()),
        Err(job) => {
            let InnerJob { mut admin, .. } = job;
            admin.leave();
            Err(HandedBack)
        }
    }
}

// Runs an inner client, and opens it anew as often as it ends. Its pass is left.
fn work<P: Glancing + Drop, C: Clock + Drop>(job: InnerJob<P, C>) -> Pass<Entry>
    ensures { ⟦<InnerJob<P, C> as Job<ServeJob, Pass<Entry>>>⟧.leaves job result }
{
    let InnerJob {
        mut admin,
        mut clock,
        word,
    } = job;
    for _ in 0..TURNS {
        match run_once(admin, &mut clock, word) {
            Ok(opened) => admin = opened,
            Err(pass) => return pass,
        }
    }
    admin.leave();
    admin.pass
}

// Runs an inner client until it ends. One whose link was closed, since more was queued for it than it has room for, or whose answer was refused, leaves, and
// is opened anew under the same identifier; its pass comes back where that is refused. What it had not answered gets its finals as it leaves.
fn run_once<P: Glancing + Drop, C: Clock + Drop>(
    admin: Admin<P>,
    clock: &mut PortClock<C, P>,
    word: u64,
) -> Result<Admin<P>, Pass<Entry>>
    ensures stays { IfOk result (λ a. (a.id ≡ admin.id) × (arc_value a.port ≡ arc_value admin.port) × IsSamePass admin.pass a.pass) }
    ensures reopens { IfOk result (λ a. Reopens (P.refuses_up (arc_value admin.port)) (P.refuses_message (arc_value admin.port)) (P.refuses_down (arc_value admin.port)) (P.answers_down (arc_value admin.port)) (P.glance_of (arc_value admin.port)) admin.id word (2 ^ 64 - 1) (attached admin.link (taken admin.taker) admin.hearing (sight admin.pass)) (attached a.link (taken a.taker) a.hearing (sight a.pass))) }
    ensures same { IfErr result (λ pass. IsSamePass admin.pass pass) }
    ensures refused { IfErr result (λ pass. EndsRefused (P.refuses_up (arc_value admin.port)) (P.refuses_message (arc_value admin.port)) (P.refuses_down (arc_value admin.port)) (P.answers_down (arc_value admin.port)) (P.glance_of (arc_value admin.port)) admin.id word (2 ^ 64 - 1) (attached admin.link (taken admin.taker) admin.hearing (sight admin.pass)) (sight pass)) }
{
    let mut admin = admin;
    admin.run(clock, TURNS);
    admin.leave(); // before it is opened anew, as it has one link at a time
    let Admin {
        alloc,
        port,
        pass,
        id,
        ..
    } = admin;
    match Admin::open(alloc, port, pass, id, word) {
        Ok(opened) => {
            clock.turn_to(opened.link);
            Ok(opened)
        }
        Err(refused) => Err(refused.1),
    }
}
