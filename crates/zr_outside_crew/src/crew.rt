//! `Crew`, and how a job is started.

ghost use Rattle.std.specs.Prelude.{◌≡◌, ◌+◌, ◌-◌, ◌^◌, true, is_err, min, Some, None, [], IfOk, IfSome};
ghost use Rattle.zr_outside.specs.Counts.{Counted};
ghost use Rattle.zr_outside_crew.specs.Told.{items_of, with_last, HasRoom};

use crate::busy::Busy;
use crate::job::Job;
use std::alloc::{AllocError, Global};
use std::sync::atomic::{AtomicBool, Ordering};
use std::sync::{Arc, Wait};
use std::thread;
use std::thread::Threads;

/// Starts a thread for each job, and counts the jobs that could not be started. It tells what it started, as plain data of type `T`, where it was made
/// to.
#[derive(Drop)]
pub struct Crew<R: Threads + Drop, T: Drop> {
    rt: R,
    alloc: Global,
    busy: Arc<Busy>,
    told: Option<Vec<T>>,
    failing: Vec<u64>,
    calls: u64,
    faults: u64,
}

impl<R: Threads + Drop, T: Drop> Crew<R, T> {
    ghost use Rattle.zr_outside_crew.specs.Crew.{crew_faults, crew_told, starts_of, failing_starts, IsBack, Tells, is_among};

    /// A crew that tells nothing.
    pub fn new(rt: R, alloc: Global) -> Result<Crew<R, T>, AllocError>
        ensures told { IfOk result (λ c. crew_told c ≡ None) }
        ensures fresh { IfOk result (λ c. (starts_of c ≡ 0) × (failing_starts c ≡ [])) }
    {
        Crew::made(rt, alloc, None, Vec::new(alloc))
    }

    /// A crew that tells what it has started. The starts with these numbers, counted from 0, fail.
    pub fn telling(rt: R, alloc: Global, failing: Vec<u64>) -> Result<Crew<R, T>, AllocError>
        ensures told { IfOk result (λ c. crew_told c ≡ Some []) }
        ensures fresh { IfOk result (λ c. (starts_of c ≡ 0) × (failing_starts c ≡ failing.items)) }
    {
        Crew::made(rt, alloc, Some(Vec::new(alloc)), failing)
    }

    fn made(
        rt: R,
        alloc: Global,
        told: Option<Vec<T>>,
        failing: Vec<u64>,
    ) -> Result<Crew<R, T>, AllocError>
        ensures { IfOk result (λ c. (c.told ≡ told) × (c.failing ≡ failing) × (c.calls ≡ 0)) }
    {
        Ok(Crew {
            rt,
            alloc,
            busy: Arc::new(alloc, Busy::new())?,
            told,
            failing,
            calls: 0,
            faults: 0,
        })
    }

    /// What was started, in order, where it is told.
    pub fn told(&self) -> Option<&[T]>
        ensures { IfSome result (λ t. crew_told self.now ≡ Some t.now) }
    {
        match &self.told {
            Some(told) => Some(told.as_slice()),
            None => None,
        }
    }

    /// Starts a thread that does a job by `run`; the job then stands last among those told, as the data that is to be told of it. Or gives the job back.
    pub fn start<
        J: Job<T, O> + Send + Drop + 'static,
        O: Send + Drop + 'static,
        F: FnOnce(J) -> O + Send + Drop + 'static,
    >(&mut self, job: J, told: T, run: F) -> Result<(), J>
        requires own { told ≡ J.told job }
        requires may { (j : J) → F.pre run j }
        requires done { (j : J) (o : O) → F.post run j o → J.leaves j o }
        ensures back { IsBack job result }
        ensures failed { Counted (crew_faults self.old) (crew_faults self.new) (is_err result ≡ true) }
        ensures told { Tells result told (crew_told self.old) (crew_told self.new) }
        ensures failing { is_among (starts_of self.old) (failing_starts self.old) ≡ true → is_err result ≡ true }
    {
        let call = self.calls;
        self.calls = self.calls.saturating_add(1);
        if self.failing.contains(&call) || !make_room(&mut self.told) {
            return self.refuse(job);
        }
        match self.spawn(job, run) {
            Ok(()) => {
                tell(&mut self.told, told);
                Ok(())
            }
            Err(job) => self.refuse(job),
        }
    }

    // Starts the thread; its closure hands the job back where there can be none.
    fn spawn<
        J: Send + Drop + 'static,
        O: Send + Drop + 'static,
        F: FnOnce(J) -> O + Send + Drop + 'static,
    >(&self, job: J, run: F) -> Result<(), J>
        requires { (j : J) → F.pre run j }
        ensures { IsBack job result }
    {
        let Ok(is_refused) = Arc::new(self.alloc, AtomicBool::new(false)) else {
            return Err(job);
        };
        let Ok(theirs) = Arc::try_clone(&is_refused) else {
            return Err(job);
        };
        let Ok(busy) = Arc::try_clone(&self.busy) else {
            return Err(job);
        };
        let whole = move || -> Option<J>
            requires { (j : J) → F.pre run j }
            ensures { IfSome result (λ j. j ≡ job) }
        {
            if theirs.load(Ordering::SeqCst) {
                return Some(job);
            }
            drop(run(job));
            busy.end();
            None
        };
        self.busy.begin();
        match thread::spawn(&self.rt, whole) {
            Ok(_handle) => Ok(()),
            Err(back) => {
                self.busy.end();
                is_refused.store(true, Ordering::SeqCst);
                match (back.value)() {
                    Some(job) => Err(job),
                    // never: it was called with the mark set
                    None => Ok(()),
                }
            }
        }
    }

    /// A job for which there was no memory counts as one that could not be started.
    pub fn lose(&mut self)
        ensures counted { crew_faults self.new ≡ min (crew_faults self.old + 1) (2 ^ 64 - 1) }
        ensures told { crew_told self.new ≡ crew_told self.old }
    {
        self.faults = self.faults.saturating_add(1);
    }

    fn refuse<J>(&mut self, job: J) -> Result<(), J>
        ensures back { IsBack job result }
        ensures refused { is_err result ≡ true }
        ensures failed { Counted (crew_faults self.old) (crew_faults self.new) (is_err result ≡ true) }
        ensures told { crew_told self.new ≡ crew_told self.old }
    {
        self.faults = self.faults.saturating_add(1); // the job itself goes back
        Err(job)
    }
}

impl<R: Threads + Wait + Drop, T: Drop> Crew<R, T> {
    /// Waits until no job of it runs.
    pub fn wait(&self) {
        self.busy.wait(&self.rt);
    }
}

// Makes room for one more that is told.
fn make_room<T>(told: &mut Option<Vec<T>>) -> bool
    ensures same { items_of told.new ≡ items_of told.old }
    ensures room { result ≡ true → HasRoom told.new }
{
    match told {
        Some(told) => told.reserve(1).is_ok(),
        None => true,
    }
}

fn tell<T: Drop>(list: &mut Option<Vec<T>>, told: T)
    requires { HasRoom list.old }
    ensures { items_of list.new ≡ with_last told (items_of list.old) }
{
    if let Some(list) = list {
        list.push_reserved(told);
    }
}
