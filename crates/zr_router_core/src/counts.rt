//! How many declarations a router knows, and how many interests its clients have.

ghost use Rattle.std.specs.Prelude.{◌≡◌, ◌+◌, ◌-◌, ◌^◌, length, min};
ghost use Rattle.std.specs.List.{sum_by};
ghost use Rattle.zr_router_core.specs.Room.{HaveAtMost, foreign_count, more_decls, more_from};

use zr_id::zid::Zid;
use zr_local::interest::ClientInterests;
use zr_log::log::Log;
use zr_msg::event::Event;
use zr_msg::msg::Msg;

/// So many live interests no client passes.
pub fn most_interests(clients: &[ClientInterests]) -> u64
    ensures { HaveAtMost result clients.now }
{
    let mut most = 0;
    for client in clients {
        most = most.max(client.interests.as_slice().len() as u64);
    }
    most
}

/// A count of declarations, with those in the logs of all routers but one.
pub fn count_foreign(me: Zid, logs: &[Log], mut count: u64) -> u64
    ensures { result ≡ min (count + sum_by (foreign_count me) logs.now) (2 ^ 64 - 1) }
{
    for log in logs {
        count = count.saturating_add(foreign(me, log));
    }
    count
}

fn foreign(me: Zid, log: &Log) -> u64
    ensures { result ≡ foreign_count me log.now }
{
    if log.source == me {
        0
    } else {
        log.decls.as_slice().len() as u64
    }
}

/// How many declarations come with an event at most.
pub fn more_decls(event: &Event) -> u64
    ensures { result ≡ more_decls event.now }
{
    match event {
        Event::Up { .. } | Event::Down { .. } => 0,
        Event::From { msg, .. } => more_from(msg),
    }
}

fn more_from(msg: &Msg) -> u64
    ensures { result ≡ more_from msg.now }
{
    match msg {
        Msg::Sub { .. } | Msg::Able { .. } | Msg::Token { .. } | Msg::Step { .. } => 1,
        Msg::Snap { decls, .. } => decls.as_slice().len() as u64,
        Msg::Unsub { .. }
        | Msg::Unable { .. }
        | Msg::Untoken { .. }
        | Msg::Interest { .. }
        | Msg::EndInterest { .. }
        | Msg::ToldSub { .. }
        | Msg::ToldAble { .. }
        | Msg::ToldUnsub { .. }
        | Msg::ToldUnable { .. }
        | Msg::ToldToken { .. }
        | Msg::ToldUntoken { .. }
        | Msg::ToldEnd { .. }
        | Msg::Push { .. }
        | Msg::Request { .. }
        | Msg::Response { .. }
        | Msg::Final { .. }
        | Msg::State { .. } => 0,
    }
}
