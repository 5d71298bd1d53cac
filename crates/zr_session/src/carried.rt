//! Network messages of frames, as they are read.

ghost use Rattle.std.specs.Prelude.{◌≡◌};
ghost use Rattle.zr_bytes.specs.Reading.{Steps};
ghost use Rattle.zr_session.specs.Carried.{begins_network, begins_oam, between_routers_of, network_of, carried_of};

use std::alloc::Global;
use zr_bytes::{Cursor, ReadError};
use zr_decl::Declared;
use zr_format_spec::header::ID;
use zr_msg::msg::Msg;
use zr_msg::peer::Role;
use zr_net::read_net;
use zr_oam::{OAM, read_oam};
use zr_wirekey::Scopes;

/// A network message, as it is read.
#[derive(Drop)]
pub enum Carried {
    /// An OAM message: one between routers, or another one, of which nothing is made.
    BetweenRouters(Option<Msg>),
    /// Any other message.
    Network(Declared),
}

/// The lowest id of a network message.
const LOWEST: u8 = 0x19;

/// Whether the next byte begins a network message, where a frame is open.
pub(crate) fn begins_network(bytes: &[u8]) -> bool
    ensures { result ≡ begins_network bytes.now }
{
    match bytes {
        [] => false,
        [header, ..] => LOWEST <= header & ID,
    }
}

fn begins_oam(bytes: &[u8]) -> bool
    ensures { result ≡ begins_oam bytes.now }
{
    match bytes {
        [] => false,
        [header, ..] => header & ID == OAM,
    }
}

/// The network message at the front, of a peer of this role that declared these texts.
#[tactic(auto, unfolding(crate::specs::Carried::carried_of))]
pub(crate) fn read_carried(
    alloc: Global,
    c: &mut Cursor<'_>,
    role: Role,
    keys: &Scopes,
) -> Result<Carried, ReadError>
    ensures { Steps (λ m. m) result (carried_of role keys.now c.old) c.new }
{
    if begins_oam(c.as_slice()) {
        between_routers(alloc, c)
    } else {
        network(alloc, c, role, keys)
    }
}

#[tactic(auto, unfolding(crate::specs::Carried::between_routers_of))]
fn between_routers(alloc: Global, c: &mut Cursor<'_>) -> Result<Carried, ReadError>
    ensures { Steps (λ m. m) result (between_routers_of c.old) c.new }
{
    let msg = read_oam(alloc, c)?;
    Ok(Carried::BetweenRouters(msg))
}

#[tactic(auto, unfolding(crate::specs::Carried::network_of))]
fn network(
    alloc: Global,
    c: &mut Cursor<'_>,
    role: Role,
    keys: &Scopes,
) -> Result<Carried, ReadError>
    ensures { Steps (λ m. m) result (network_of role keys.now c.old) c.new }
{
    let ours = Scopes::new(alloc);
    let declared = read_net(alloc, c, keys, &ours, role)?;
    Ok(Carried::Network(declared))
}
