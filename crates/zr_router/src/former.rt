//! Whether a message tells that the router's identifier was in use before: its neighbours still have what it told in a former life.

ghost use Rattle.std.specs.Prelude.{◌≡◌};
ghost use Rattle.zr_graph.specs.Base.{own_seq};
ghost use Rattle.zr_router.specs.Former.{is_former, is_unsent, tells_former};

use zr_flood::flood::own_record;
use zr_graph::base::Base;
use zr_id::record::LinkRecord;
use zr_msg::msg::Msg;

// The number of a router's record once its first link has come up.
const FIRST: u64 = 1;

/// Whether a message tells a record of the router's own identifier that was told in a former life.
pub(crate) fn tells_former(base: &Base, msg: &Msg) -> bool
    ensures { result ≡ tells_former base.now msg.now }
{
    match msg {
        Msg::State { links } => is_former(base, links.get()),
        Msg::Sub { .. }
        | Msg::Unsub { .. }
        | Msg::Token { .. }
        | Msg::Untoken { .. }
        | Msg::Able { .. }
        | Msg::Unable { .. }
        | Msg::Interest { .. }
        | Msg::EndInterest { .. }
        | Msg::ToldSub { .. }
        | Msg::ToldAble { .. }
        | Msg::ToldUnsub { .. }
        | Msg::ToldUnable { .. }
        | Msg::ToldToken { .. }
        | Msg::ToldUntoken { .. }
        | Msg::ToldEnd { .. }
        | Msg::Push { .. }
        | Msg::Request { .. }
        | Msg::Response { .. }
        | Msg::Final { .. }
        | Msg::Step { .. }
        | Msg::Snap { .. } => false,
    }
}

fn is_former(base: &Base, told: &LinkRecord) -> bool
    ensures { result ≡ is_former base.now told.now }
{
    told.id() == base.me() && is_unsent(own_seq(base), told.seq())
}

// A neighbour tells no greater number than the router has told, and not its first, which went to its only neighbour.
fn is_unsent(own: u64, seq: u64) -> bool
    ensures { result ≡ is_unsent own seq }
{
    seq > own || (own == FIRST && seq == FIRST)
}

fn own_seq(base: &Base) -> u64
    ensures { result ≡ own_seq base.now }
{
    match own_record(base) {
        Some(own) => own.seq(),
        None => 0,
    }
}
