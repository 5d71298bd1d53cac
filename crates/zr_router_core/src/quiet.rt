//! Events of which nobody is told anything, and those that change an interest.

ghost use Rattle.std.specs.Prelude.{◌≡◌};
ghost use Rattle.std.specs.Ordering.{nat_cmp};
ghost use Rattle.zr_lists.specs.Ascending.{has_key};
ghost use Rattle.zr_local.specs.Clients.{client_link};
ghost use Rattle.zr_router_core.specs.Lasting.{leaves_interests};
ghost use Rattle.zr_router_core.specs.Places.{is_quiet, is_quiet_msg};
ghost use Rattle.zr_router_core.specs.Ready.{is_own, is_own_msg, tells_nobody};

use zr_id::link::LinkNo;
use zr_local::interest::ClientInterests;
use zr_msg::event::Event;
use zr_msg::msg::Msg;

// Whether an event is a sample, a request or an answer to one, or told to a client: it changes nothing of which clients are told.
fn is_quiet(event: &Event) -> bool
    ensures { result ≡ is_quiet event.now }
{
    match event {
        Event::Up { .. } | Event::Down { .. } => false,
        Event::From { msg, .. } => is_quiet_msg(msg),
    }
}

fn is_quiet_msg(msg: &Msg) -> bool
    ensures { result ≡ is_quiet_msg msg.now }
{
    match msg {
        Msg::Sub { .. }
        | Msg::Unsub { .. }
        | Msg::Able { .. }
        | Msg::Unable { .. }
        | Msg::Token { .. }
        | Msg::Untoken { .. }
        | Msg::Interest { .. }
        | Msg::EndInterest { .. }
        | Msg::State { .. }
        | Msg::Step { .. }
        | Msg::Snap { .. } => false,
        Msg::ToldSub { .. }
        | Msg::ToldAble { .. }
        | Msg::ToldUnsub { .. }
        | Msg::ToldUnable { .. }
        | Msg::ToldToken { .. }
        | Msg::ToldUntoken { .. }
        | Msg::ToldEnd { .. }
        | Msg::Push { .. }
        | Msg::Request { .. }
        | Msg::Response { .. }
        | Msg::Final { .. } => true,
    }
}

/// Whether a client has a new interest, or one ends.
pub fn is_own(event: &Event) -> bool
    ensures { result ≡ is_own event.now }
{
    match event {
        Event::From { msg, .. } => is_own_msg(msg),
        Event::Up { .. } | Event::Down { .. } => false,
    }
}

fn is_own_msg(msg: &Msg) -> bool
    ensures { result ≡ is_own_msg msg.now }
{
    match msg {
        Msg::Interest { .. } | Msg::EndInterest { .. } => true,
        Msg::Sub { .. }
        | Msg::Unsub { .. }
        | Msg::Able { .. }
        | Msg::Unable { .. }
        | Msg::Token { .. }
        | Msg::Untoken { .. }
        | Msg::ToldSub { .. }
        | Msg::ToldAble { .. }
        | Msg::ToldUnsub { .. }
        | Msg::ToldUnable { .. }
        | Msg::ToldToken { .. }
        | Msg::ToldUntoken { .. }
        | Msg::ToldEnd { .. }
        | Msg::Push { .. }
        | Msg::Request { .. }
        | Msg::Response { .. }
        | Msg::Final { .. }
        | Msg::State { .. }
        | Msg::Step { .. }
        | Msg::Snap { .. } => false,
    }
}

/// Whether a client leaves that has interests.
pub fn leaves_interests(clients: &[ClientInterests], event: &Event) -> bool
    ensures { result ≡ leaves_interests clients.now event.now }
{
    match event {
        Event::Down { link } => has_interests(clients, *link),
        Event::Up { .. } | Event::From { .. } => false,
    }
}

fn has_interests(clients: &[ClientInterests], link: LinkNo) -> bool
    ensures { result ≡ has_key nat_cmp client_link clients.now link.0 }
{
    clients.iter().any(|c| c.link.0.cmp(&link.0).is_eq())
}

/// Whether nobody is told anything of an event, as is known before it: it is quiet, or no client has an interest.
pub fn tells_nobody(clients: &[ClientInterests], event: &Event) -> bool
    ensures { result ≡ tells_nobody clients.now event.now }
{
    is_quiet(event) || (clients.is_empty() && !is_own(event))
}
