//! Samples come to shares, each to that of its router.

ghost use Rattle.std.specs.Prelude.{◌≡◌, ◌∷◌, ◌<◌, ℕ, [], true, IfSome, OnOk, length, slice_index_or};
ghost use Rattle.zr_id.specs.Zid.{is_named};
ghost use Rattle.zr_law_fan.specs.Samples.{Handling, tagged};
ghost use Rattle.zr_law_rounds.specs.Told.{HaveCome, nothing, went, went_weighs};
ghost use Rattle.zr_world_gang.specs.Shares.{ShareState};

use std::alloc::AllocError;
use zr_id::zid::Zid;
use zr_msg::msg::Msg;
use zr_world_ends::kind::is_sample;
use zr_world_gang::share::Share;

/// A sample from a neighbour is to be handled at an end. Out of memory too where the end's router is none of these, has no link to the neighbour, or the
/// message is no sample.
pub fn receive(
    shares: &mut [Share],
    router: Zid,
    neighbour: Zid,
    msg: Msg,
    tag: u64,
) -> Result<(), AllocError>
    ensures { OnOk result (HaveCome (Handling (router, neighbour) (tagged tag msg) ∷ []) nothing shares.old shares.new) }
{
    if !is_sample(&msg) {
        return Err(AllocError);
    }
    let Some(place) = place_of(shares, &router) else {
        return Err(AllocError);
    };
    let share = &mut shares[place];
    share.receive(neighbour, msg, tag)
}

/// A sample that was queued at an end goes to the neighbour. Out of memory too where the end's router is none of these.
pub fn send(
    shares: &mut [Share],
    router: Zid,
    neighbour: Zid,
    is_router: bool,
    msg: Msg,
    tag: u64,
) -> Result<(), AllocError>
    ensures { OnOk result (HaveCome (went is_router (router, neighbour) (tagged tag msg ∷ [])) (went_weighs is_router (router, neighbour) (tagged tag msg ∷ [])) shares.old shares.new) }
{
    let Some(place) = place_of(shares, &router) else {
        return Err(AllocError);
    };
    let share = &mut shares[place];
    if is_router {
        share.pass(neighbour, msg, tag)
    } else {
        share.deliver(neighbour, &msg, tag)
    }
}

// The place of a router's share. Shares stand in the order of their routers' names; where they don't, none may be found.
fn place_of(shares: &[Share], name: &Zid) -> Option<usize>
    ensures within { IfSome result (λ i. i < length shares.now) }
    ensures named { IfSome result (λ i. (d : ShareState) → is_named name.now (slice_index_or shares.now i d).name ≡ true) }
{
    match shares.binary_search_by_key(name, |share| share.name()) {
        Ok(place) => Some(place),
        Err(_) => None,
    }
}
