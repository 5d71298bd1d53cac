//! How long the messages of a peer may be.

ghost use Rattle.std.specs.Prelude.{◌≡◌};
ghost use Rattle.zr_wire.specs.Limits.{most_of};

use zr_msg::peer::Role;

/// The most bytes of a network message of a client.
pub const MOST_OF_CLIENT: usize = 8_388_608;
/// The most bytes of a network message of a router: a client's longest one with its key as whole text and its tree.
pub const MOST_OF_ROUTER: usize = 8_392_704;

/// The most bytes of a network message, by the role of its sender.
pub fn most_of(role: Role) -> usize
    ensures { result ≡ most_of role }
{
    match role {
        Role::Client => MOST_OF_CLIENT,
        Role::Router => MOST_OF_ROUTER,
    }
}
