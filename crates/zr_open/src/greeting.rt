//! Who greets, and whether it is taken as a peer.

ghost use Rattle.std.specs.Prelude.{◌≡◌, ◌<◌};
ghost use Rattle.zr_open.specs.Table.{role_in, peer_in, weight_for, tells_links};

use crate::error::{OpenError, Reason};
use crate::opening::{CLIENT, ROUTER, SPEAKS, VERSION};
use zr_frame::LEAST_BATCH;
use zr_id::zid::Zid;
use zr_msg::peer::{Peer, Role};

/// The role of a peer that is taken: a client, or a router that tells other routers its links with their weights.
fn role_in(version: u8, bits: u8, speaks: Option<u64>) -> Option<Role>
    ensures { result ≡ role_in version bits speaks }
{
    if version != VERSION {
        None
    } else if bits == CLIENT {
        Some(Role::Client)
    } else if bits == ROUTER && tells_links(speaks) {
        Some(Role::Router)
    } else {
        None
    }
}

fn tells_links(speaks: Option<u64>) -> bool
    ensures { result ≡ tells_links speaks }
{
    match speaks {
        Some(value) => value == SPEAKS,
        None => false,
    }
}

/// What the link to a peer weighs: a client's 1, and a router's as much as this end brings to the opening.
fn weight_for(weight: u16, role: Role) -> u16
    requires { 0 < weight }
    ensures value { result ≡ weight_for weight role }
    ensures heavy { 0 < result }
{
    match role {
        Role::Client => 1,
        Role::Router => weight,
    }
}

/// The peer of an INIT or of its answer, with the batch size on which both would agree, where this end brings such a weight.
pub(crate) fn peer_in(
    version: u8,
    bits: u8,
    speaks: Option<u64>,
    id: Zid,
    batch: u16,
    weight: u16,
) -> Result<Peer, OpenError>
    requires { 0 < weight }
    ensures { result ≡ peer_in (role_in version bits speaks) id batch weight }
{
    let Some(role) = role_in(version, bits, speaks) else {
        return Err(OpenError::Closed(Reason::Unsupported));
    };
    if batch < LEAST_BATCH {
        return Err(OpenError::Closed(Reason::Invalid));
    }
    Ok(Peer {
        id,
        role,
        weight: weight_for(weight, role),
    })
}
