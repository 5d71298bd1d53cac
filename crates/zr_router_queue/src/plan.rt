//! What an event has for one link, worked out before anything is given.

ghost use Rattle.std.specs.Prelude.{◌≡◌, ◌≤◌, All, IfOk, OnOk, length};
ghost use Rattle.std.specs.List.{AllByRecursion, AllByRecursion-prop};
ghost use Rattle.std.proofs.Props.{props};
ghost use Rattle.zr_frame_pack.specs.Marks.{IsLater};
ghost use Rattle.zr_frame_pack.specs.Packing.{parcels_of};
ghost use Rattle.zr_wire.specs.Writable.{IsWritable};
ghost use Rattle.zr_router_queue.specs.Tables.{may_drop, is_droppable};
ghost use Rattle.zr_node_spec.specs.Event.{on_link};
ghost use Rattle.zr_router_queue.specs.Batches.{batches_in, written_of};

use crate::link_batches::Batches;
use crate::pack::pack;
use crate::scratch::Scratch;
use std::alloc::{AllocError, Global};
use zr_bytes::ByteString;
use zr_frame_pack::NamingOutbox;
use zr_id::link::LinkNo;
use zr_msg::msg::Msg;
use zr_msg::shared::Shared;

/// The bit of a quality of service that asks not to drop the sample (Zenoh protocol 1.0, "QoS").
const DONT_DROP: u64 = 0x08;

/// What an event has for one link: its batches, and whether it may be left out. The outbox of the link stands behind them meanwhile.
#[derive(Drop)]
pub(crate) struct Plan {
    pub batches: Batches,
    pub droppable: bool,
    ghost short: { AllByRecursion (λ b. length b ≤ 65535) (batches_in batches) } by { AllByRecursion-prop (λ b. length b ≤ 65535) (λ b. Prim.hlevel props) (batches_in batches) },
}

impl Plan {
    /// The plan for a link among all that was sent and what was written of it.
    pub fn of(
        alloc: Global,
        sent: &[(LinkNo, Msg)],
        written: &[(LinkNo, Shared<ByteString>)],
        link: LinkNo,
        outbox: &mut NamingOutbox,
        scratch: &mut Scratch,
    ) -> Result<Plan, AllocError>
        requires writable { All (λ x. IsWritable x.1) sent.now }
        requires written { written.now ≡ written_of sent.now }
        ensures batches { IfOk result (λ p. batches_in p.batches ≡ (parcels_of outbox.old (on_link link sent.now)).batches) }
        ensures outbox { OnOk result (outbox.new ≡ (parcels_of outbox.old (on_link link sent.now)).outbox) }
        ensures later { IsLater outbox.old.names outbox.new.names }
        ensures droppable { IfOk result (λ p. p.droppable ≡ is_droppable (on_link link sent.now)) }
    {
        let batches = pack(alloc, sent, written, link, outbox, scratch)?;
        Ok(Plan {
            batches,
            droppable: is_droppable(sent, link),
        })
    }
}

// Whether one sample was sent on the link, and it may be dropped.
#[tactic(auto, using(crate::proofs::Plans::droppable_first))]
fn is_droppable(sent: &[(LinkNo, Msg)], link: LinkNo) -> bool
    ensures { result ≡ is_droppable (on_link link sent.now) }
{
    let mut only = None;
    for (to, msg) in sent {
        if to.0 == link.0 {
            if only.is_some() {
                return false;
            }
            only = Some(may_drop(msg));
        }
    }
    only.unwrap_or(false)
}

/// Whether a message is a sample that may be dropped.
pub fn may_drop(msg: &Msg) -> bool
    ensures { result ≡ may_drop msg.now }
{
    match msg {
        Msg::Push { content, .. } => match content.extras().qos {
            None => true,
            Some(qos) => qos & DONT_DROP == 0,
        },
        Msg::Sub { .. }
        | Msg::Unsub { .. }
        | Msg::Token { .. }
        | Msg::Untoken { .. }
        | Msg::Able { .. }
        | Msg::Unable { .. }
        | Msg::Interest { .. }
        | Msg::EndInterest { .. }
        | Msg::ToldSub { .. }
        | Msg::ToldAble { .. }
        | Msg::ToldUnsub { .. }
        | Msg::ToldToken { .. }
        | Msg::ToldUntoken { .. }
        | Msg::ToldUnable { .. }
        | Msg::ToldEnd { .. }
        | Msg::Request { .. }
        | Msg::Response { .. }
        | Msg::Final { .. }
        | Msg::State { .. }
        | Msg::Step { .. }
        | Msg::Snap { .. } => false,
    }
}
