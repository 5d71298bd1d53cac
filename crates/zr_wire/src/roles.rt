//! What a peer may send, by its role.

ghost use Rattle.std.specs.Prelude.{◌≡◌};
ghost use Rattle.zr_wire.specs.Roles.{admits, client_may_send, router_may_send};

use zr_msg::msg::Msg;
use zr_msg::peer::Role;

/// Whether a peer of this role may send a message. What a router tells its clients comes from neither.
pub fn admits(role: Role, msg: &Msg) -> bool
    ensures { result ≡ admits role msg.now }
{
    match role {
        Role::Client => client_may_send(msg),
        Role::Router => router_may_send(msg),
    }
}

/// Declarations, interests, and samples and requests that name no tree.
fn client_may_send(msg: &Msg) -> bool
    ensures { result ≡ client_may_send msg.now }
{
    match msg {
        Msg::Sub { .. }
        | Msg::Unsub { .. }
        | Msg::Token { .. }
        | Msg::Untoken { .. }
        | Msg::Able { .. }
        | Msg::Unable { .. }
        | Msg::Interest { .. }
        | Msg::EndInterest { .. }
        | Msg::Response { .. }
        | Msg::Final { .. } => true,
        Msg::Push { tree, .. } | Msg::Request { tree, .. } => tree.is_none(),
        Msg::ToldSub { .. }
        | Msg::ToldAble { .. }
        | Msg::ToldUnsub { .. }
        | Msg::ToldToken { .. }
        | Msg::ToldUntoken { .. }
        | Msg::ToldUnable { .. }
        | Msg::ToldEnd { .. }
        | Msg::State { .. }
        | Msg::Step { .. }
        | Msg::Snap { .. } => false,
    }
}

/// Links, declarations as routers pass them on, and samples and requests along a tree.
fn router_may_send(msg: &Msg) -> bool
    ensures { result ≡ router_may_send msg.now }
{
    match msg {
        Msg::Response { .. }
        | Msg::Final { .. }
        | Msg::State { .. }
        | Msg::Step { .. }
        | Msg::Snap { .. } => true,
        Msg::Push { tree, .. } | Msg::Request { tree, .. } => tree.is_some(),
        Msg::Sub { .. }
        | Msg::Unsub { .. }
        | Msg::Token { .. }
        | Msg::Untoken { .. }
        | Msg::Able { .. }
        | Msg::Unable { .. }
        | Msg::Interest { .. }
        | Msg::EndInterest { .. }
        | Msg::ToldSub { .. }
        | Msg::ToldAble { .. }
        | Msg::ToldUnsub { .. }
        | Msg::ToldToken { .. }
        | Msg::ToldUntoken { .. }
        | Msg::ToldUnable { .. }
        | Msg::ToldEnd { .. } => false,
    }
}
