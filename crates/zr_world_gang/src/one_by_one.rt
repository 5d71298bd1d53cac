//! `OneByOne`: one thread.

ghost use Rattle.std.specs.Prelude.{OnOk};
ghost use Rattle.zr_world_gang.specs.Turns.{AllHaveDone};

use crate::gang::Gang;
use crate::share::{Share, Turn};
use std::alloc::{AllocError, Global};
use std::thread::Threads;

/// Handles one share after another.
#[derive(Clone, Copy, Debug, Drop)]
pub struct OneByOne;

impl Gang for OneByOne {
    fn round<R: Threads + Sync>(
        &mut self,
        _rt: &R,
        alloc: Global,
        turn: Turn,
        shares: Vec<Share>,
    ) -> Result<Vec<Share>, AllocError> {
        let mut shares = shares;
        work_each(alloc, turn, &mut shares)?;
        Ok(shares)
    }
}

// Each share does its turn.
fn work_each(alloc: Global, turn: Turn, shares: &mut [Share]) -> Result<(), AllocError>
    ensures { OnOk result (AllHaveDone turn shares.old shares.new) }
{
    for share in shares.iter_mut() {
        share.work(alloc, turn)?;
    }
    Ok(())
}
