//! What went to routers in a round comes to wait there.

ghost use Rattle.std.specs.Prelude.{◌<◌, [], length, OnOk};
ghost use Rattle.zr_law_rounds.specs.Told.{HaveCome, nothing};

use crate::receive::receive;
use std::alloc::{AllocError, Global};
use zr_world_gang::share::Share;

/// All that went to routers waits at these. Out of memory too where a router is none of them, or what went there is no sample.
pub fn pass_on(alloc: Global, shares: &mut [Share]) -> Result<(), AllocError>
    ensures { OnOk result (HaveCome [] nothing shares.old shares.new) }
{
    for place in 0..shares.len() {
        pass_from(alloc, shares, place)?;
    }
    Ok(())
}

// What one router sent waits where it went.
fn pass_from(alloc: Global, shares: &mut [Share], place: usize) -> Result<(), AllocError>
    requires { place < length shares.old }
    ensures { OnOk result (HaveCome [] nothing shares.old shares.new) }
{
    let from = shares[place].name();
    let output = shares[place].take_output(alloc);
    for sending in output {
        receive(shares, sending.to, from, sending.msg, sending.tag)?;
    }
    Ok(())
}
