//! Messages on wires: a carrier has them, and the ends keep of what kinds they are.

ghost use Rattle.std.specs.Prelude.{◌≡◌, ◌⊎◌, ◌++◌, IfOk, OnOk, OnErr};
ghost use Rattle.zr_carrier.specs.Wire.{Closes};
ghost use Rattle.zr_world_spec.specs.World.{changed, end_of, sent};
ghost use Rattle.zr_world_ends.specs.Carried.{AreCarried, AreDrained, Drains, IsTaken, MayArrive, received, seen_ends};
ghost use Rattle.zr_world_ends.specs.Kept.{broken, new_end};
ghost use Rattle.zr_world_ends.specs.Named.{change_at, put_at};
ghost use Rattle.zr_world_ends.specs.Steps.{Brings, changed_at, from_wire};

use crate::drained::{Drained, NamedDrained};
use crate::end::{Tagged, WorldEnd};
use crate::kind::kind_of;
use crate::places::NamedEnd;
use crate::queues::Queues;
use std::alloc::{AllocError, Global};
use std::collections::VecDeque;
use zr_carrier::carrier::Carrier;
use zr_id::zid::Zid;
use zr_msg::msg::Msg;
use zr_msg::peer::Weight;
use zr_script_spec::error::ScriptError;

/// The link of two breaks, at each end that is there, and its wires end.
pub fn cut<C: Carrier>(carrier: &mut C, queues: &mut Queues, one: Zid, other: Zid)
    ensures closed { Closes one other (C.wire carrier.old) (C.wire carrier.new) }
    ensures broken { queues.new ≡ change_at (change_at queues.old (one, other) broken) (other, one) broken }
{
    carrier.close(one, other);
    queues.break_off((one, other));
    queues.break_off((other, one));
}

/// The ends of a link of this weight between two routers come, or take the places of others. Where memory runs out one of them may have come, which
/// is broken.
pub fn put_both(
    alloc: Global,
    queues: &mut Queues,
    one: Zid,
    other: Zid,
    weight: Weight,
) -> Result<(), AllocError>
    ensures put { OnOk result (queues.new ≡ put_at (put_at queues.old (one, other) (new_end weight)) (other, one) (new_end weight)) }
    ensures err { OnErr result ((queues.new ≡ queues.old) ⊎ (queues.new ≡ change_at (put_at queues.old (one, other) (new_end weight)) (one, other) broken)) }
{
    queues.put((one, other), WorldEnd::new(alloc, weight))?;
    let put = queues.put((other, one), WorldEnd::new(alloc, weight));
    if put.is_err() {
        queues.break_off((one, other)); // half a link has no wires
    }
    put
}

/// A message comes onto the wire to an end, where that is there. Where memory runs out, what was on the wire may be lost.
pub fn send<C: Carrier>(
    carrier: &mut C,
    queues: &mut Queues,
    router: Zid,
    neighbour: Zid,
    msg: &Msg,
    tag: u64,
) -> Result<(), AllocError>
    requires may { MayArrive (seen_ends (C.wire carrier.old) queues.old) (router, neighbour) msg.now }
    requires carried { AreCarried (C.wire carrier.old) queues.old }
    ensures sent { OnOk result (seen_ends (C.wire carrier.new) queues.new ≡ changed_at (seen_ends (C.wire carrier.old) queues.old) (router, neighbour) (λ s. sent s msg.now tag) (end_of (seen_ends (C.wire carrier.old) queues.old) (router, neighbour))) }
    ensures changed { OnOk result (seen_ends (C.wire carrier.new) queues.new ≡ changed (seen_ends (C.wire carrier.old) queues.old) (router, neighbour) (λ s. sent s msg.now tag)) }
    ensures carried { AreCarried (C.wire carrier.new) queues.new }
{
    if queues.get((router, neighbour)).is_none() {
        return Ok(());
    }
    let kind = kind_of(msg);
    queues.announce((router, neighbour), kind)?;
    let sent = carrier.send(neighbour, router, msg, tag);
    if sent.is_err() {
        queues.lose((router, neighbour));
    }
    sent
}

/// The oldest message on the wire to an end that is up, which leaves it. Where memory runs out, what was on the wire is lost.
pub fn receive<C: Carrier>(
    carrier: &mut C,
    queues: &mut Queues,
    router: Zid,
    neighbour: Zid,
) -> Result<Tagged, ScriptError>
    requires carried { AreCarried (C.wire carrier.old) queues.old }
    ensures steps { Brings result (from_wire (seen_ends (C.wire carrier.old) queues.old) (router, neighbour)) (seen_ends (C.wire carrier.old) queues.old) (seen_ends (C.wire carrier.new) queues.new) }
    ensures carried { AreCarried (C.wire carrier.new) queues.new }
{
    let Some(end) = queues.get((router, neighbour)) else {
        return Err(ScriptError::NotLinked);
    };
    if !end.is_up() {
        return Err(ScriptError::NotLinked);
    }
    if !end.is_sent() {
        return Err(ScriptError::NothingThere);
    }
    match carrier.receive(neighbour, router) {
        Ok(found) => take_found(queues, router, neighbour, found),
        Err(AllocError) => {
            queues.lose((router, neighbour));
            Err(ScriptError::NoMemory)
        }
    }
}

// A message that was received has left the wire to an end.
fn take_found(
    queues: &mut Queues,
    router: Zid,
    neighbour: Zid,
    found: Option<(Msg, u64)>,
) -> Result<Tagged, ScriptError>
    ensures { IsTaken (router, neighbour) found result queues.old queues.new }
{
    let Some((msg, tag)) = found else {
        return Err(ScriptError::NothingThere);
    };
    queues.pass((router, neighbour));
    Ok(Tagged { msg, tag })
}

/// Ends with the messages that the carrier has on their wires, which leave these.
pub fn drain_all<C: Carrier>(
    alloc: Global,
    carrier: &mut C,
    ends: Vec<NamedEnd>,
) -> Result<Vec<NamedDrained>, AllocError>
    requires carried { AreCarried (C.wire carrier.old) ends.items }
    ensures drained { IfOk result (λ v. v.items ≡ seen_ends (C.wire carrier.old) ends.items) }
    ensures wires { OnOk result (AreDrained ends.items (C.wire carrier.old) (C.wire carrier.new)) }
{
    let mut drained = Vec::new(alloc);
    for ((router, neighbour), end) in ends {
        let wire = drain(alloc, carrier, router, neighbour, end.sent_count())?;
        drained.push(((router, neighbour), Drained::new(end, wire)))?;
    }
    Ok(drained)
}

// So many messages on the wire to an end, which leave it.
fn drain<C: Carrier>(
    alloc: Global,
    carrier: &mut C,
    router: Zid,
    neighbour: Zid,
    count: usize,
) -> Result<VecDeque<Tagged>, AllocError>
    ensures { IfOk result (λ v. Drains (router, neighbour) count v.items (C.wire carrier.old) (C.wire carrier.new)) }
{
    let mut wire = VecDeque::new(alloc);
    for _ in 0..count {
        let found = carrier.receive(neighbour, router)?;
        put(&mut wire, found)?;
    }
    Ok(wire)
}

// A message that was received, if one was, comes behind others.
fn put(wire: &mut VecDeque<Tagged>, found: Option<(Msg, u64)>) -> Result<(), AllocError>
    ensures { OnOk result (wire.new.items ≡ wire.old.items ++ received found) }
{
    if let Some((msg, tag)) = found {
        wire.push_back(Tagged { msg, tag })?;
    }
    Ok(())
}
