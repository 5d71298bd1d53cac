//! Messages come onto wires.

ghost use Rattle.std.specs.Prelude.{◌≡◌, OnOk};
ghost use Rattle.zr_world_spec.specs.World.{changed, end_of, sent};
ghost use Rattle.zr_world_ends.specs.Steps.{changed_at};
ghost use Rattle.zr_world.specs.Led.{MayGoTo};

use std::alloc::AllocError;
use zr_carrier::carrier::Carrier;
use zr_id::zid::Zid;
use zr_law_sent::of_types;
use zr_msg::msg::Msg;
use zr_world_ends::ends::Ends;

/// A message comes onto the wire to an end, where that is there.
pub fn send<C: Carrier>(
    ends: &mut Ends<C>,
    at: (Zid, Zid),
    msg: &Msg,
    tag: u64,
) -> Result<(), AllocError>
    requires { MayGoTo ends.old at msg.now }
    ensures sent { OnOk result (ends.new ≡ changed_at ends.old at (λ s. sent s msg.now tag) (end_of ends.old at)) }
    ensures changed { OnOk result (ends.new ≡ changed ends.old at (λ s. sent s msg.now tag)) }
{
    // A law: it does nothing, and brings its clause.
    of_types(msg);
    ends.send(at, msg, tag)
}
