//! `Gang`: who handles the shares of a round.

ghost use Rattle.std.specs.Prelude.{IfOk};
ghost use denote.Param.Send.{IsSync};
ghost use Rattle.zr_world_gang.specs.Turns.{AllHaveDone};

use crate::share::{Share, Turn};
use std::alloc::{AllocError, Global};
use std::thread::Threads;

/// Who handles the shares of a round.
pub trait Gang {
    /// Each share does its turn, and they stand in the same order. Where memory runs out in one of them, all are lost.
    fn round<R: Threads + Sync>(
        &mut self,
        rt: &R,
        alloc: Global,
        turn: Turn,
        shares: Vec<Share>,
    ) -> Result<Vec<Share>, AllocError>
        requires { IsSync R.row }
        ensures { IfOk result (λ v. AllHaveDone turn shares.items v.items) };
}
