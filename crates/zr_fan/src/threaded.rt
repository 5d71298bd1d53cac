//! `Threaded`: a gang of several threads.

ghost use Rattle.std.specs.Prelude.{◌≡◌, ◌<◌, ◌≤◌, ℕ, IfOk, OnOk, length, slice_index_or};
ghost use Rattle.zr_fan.specs.declared.threaded.Part.{Part};
ghost use Rattle.zr_fan.specs.Parts.{AreDone, HasGiven, all_of, gathered};
ghost use Rattle.zr_world_gang.specs.Turns.{AllHaveDone};

use crate::watch::Watch;
use std::alloc::{AllocError, Global};
use std::thread;
use std::thread::Threads;
use zr_world_gang::gang::Gang;
use zr_world_gang::share::{Share, Turn};

/// Handles the shares of a round on so many threads. Routers move into the threads and back.
#[derive(Drop)]
pub struct Threaded {
    threads: u32,
    watch: Box<dyn Watch + Sync + Drop>,
}

// What one worker is to do.
#[derive(Drop)]
pub(crate) struct Part {
    pub(crate) worker: u32,
    pub(crate) shares: Vec<Share>,
}

impl Threaded {
    /// A gang of so many threads, and who is told as they take shares.
    pub fn new(threads: u32, watch: Box<dyn Watch + Sync + Drop>) -> Threaded
        requires { (1 ≤ threads) × (threads ≤ 16) }
        ensures { result.threads ≡ threads }
    {
        Threaded { threads, watch }
    }
}

impl Gang for Threaded {
    fn round<R: Threads + Sync>(
        &mut self,
        rt: &R,
        alloc: Global,
        turn: Turn,
        shares: Vec<Share>,
    ) -> Result<Vec<Share>, AllocError> {
        let parts = split(alloc, turn, shares, self.threads)?;
        run(rt, alloc, turn, &*self.watch, parts)
    }
}

// The parts of the workers, in order: each has about as much to do as the others. The last has what is left.
fn split(
    alloc: Global,
    turn: Turn,
    shares: Vec<Share>,
    threads: u32,
) -> Result<Vec<Part>, AllocError>
    ensures { IfOk result (λ v. all_of v.items ≡ shares.items) }
{
    let mut parts = Vec::new(alloc);
    let mut rest = shares;
    for worker in 1..threads {
        let cut = cut_at(&rest, turn, threads - worker + 1);
        let more = rest.split_off(cut)?;
        parts.push(Part {
            worker: worker - 1,
            shares: rest,
        })?;
        rest = more;
    }
    parts.push(Part {
        worker: threads.saturating_sub(1),
        shares: rest,
    })?;
    Ok(parts)
}

// How many of these shares the next of so many workers has: as many as come nearest to its part of what is to be done, and at least one if there are any.
fn cut_at(shares: &[Share], turn: Turn, workers: u32) -> usize
    requires { 1 ≤ workers }
    ensures { result ≤ length shares.now }
{
    let fair = load_of(shares, turn).div_ceil(u64::from(workers));
    let mut sum: u64 = 0;
    for (place, share) in shares.iter().enumerate() {
        let more = sum.saturating_add(load(share, turn));
        if more >= fair {
            let is_nearer = place == 0 || more - fair <= fair.saturating_sub(sum);
            return if is_nearer { place + 1 } else { place };
        }
        sum = more;
    }
    shares.len()
}

fn load_of(shares: &[Share], turn: Turn) -> u64 {
    let mut sum: u64 = 0;
    for share in shares {
        sum = sum.saturating_add(load(share, turn));
    }
    sum
}

// How much a share has to do. One that has nothing to do takes its turn too.
fn load(share: &Share, turn: Turn) -> u64 {
    (share.load(turn) as u64).saturating_add(1)
}

// Each part on a thread of its own, and their shares again in order.
fn run<R: Threads + Sync>(
    rt: &R,
    alloc: Global,
    turn: Turn,
    watch: &(dyn Watch + Sync),
    parts: Vec<Part>,
) -> Result<Vec<Share>, AllocError>
    ensures { IfOk result (λ v. AllHaveDone turn (all_of parts.items) v.items) }
{
    let done = run_parts(rt, alloc, turn, watch, parts)?;
    gather(alloc, done)
}

// Each part on a thread of its own: what each worker gives.
fn run_parts<R: Threads + Sync>(
    rt: &R,
    alloc: Global,
    turn: Turn,
    watch: &(dyn Watch + Sync),
    parts: Vec<Part>,
) -> Result<Vec<Result<Vec<Share>, AllocError>>, AllocError>
    ensures len { IfOk result (λ v. length v.items ≡ length parts.items) }
    ensures each { IfOk result (λ v. (i : ℕ) (d : _) (p : Part) → i < length parts.items → HasGiven turn (slice_index_or parts.items i p) (slice_index_or v.items i d)) }
{
    let worker = |part: Part| -> Result<Vec<Share>, AllocError>
        ensures { HasGiven turn part result }
    { work(alloc, turn, watch, part) };
    let done = thread::map_vec(rt, parts, &worker)?;
    Ok(done)
}

// What a worker does.
fn work(
    alloc: Global,
    turn: Turn,
    watch: &(dyn Watch + Sync),
    part: Part,
) -> Result<Vec<Share>, AllocError>
    ensures { IfOk result (λ v. AllHaveDone turn part.shares.items v.items) }
{
    let Part { worker, mut shares } = part;
    work_watched(alloc, turn, watch, worker, &mut shares)?;
    Ok(shares)
}

fn work_watched(
    alloc: Global,
    turn: Turn,
    watch: &(dyn Watch + Sync),
    worker: u32,
    shares: &mut [Share],
) -> Result<(), AllocError>
    ensures { OnOk result (AllHaveDone turn shares.old shares.new) }
{
    for share in shares.iter_mut() {
        watch.enter(worker);
        share.work(alloc, turn)?;
    }
    Ok(())
}

// The shares that all have given, in order, or that memory ran out for one of them.
fn gather(
    alloc: Global,
    done: Vec<Result<Vec<Share>, AllocError>>,
) -> Result<Vec<Share>, AllocError>
    ensures { IfOk result (λ v. AreDone done.items × (v.items ≡ gathered done.items)) }
{
    let mut all = Vec::new(alloc);
    for one in done {
        let mut shares = one?;
        all.append(&mut shares)?;
    }
    Ok(all)
}
