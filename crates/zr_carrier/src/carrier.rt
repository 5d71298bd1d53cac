//! `Carrier`: what is on the wires between routers and their neighbours.

ghost use Rattle.std.specs.Prelude.{◌≡◌, ℕ, List, Option, is_some, option_map, None, Some, IfOk, OnOk, OnErr};
ghost use Rattle.zr_carrier.specs.Wire.{Wire, AreSame, CanSend, Closes, Opens, Sets, emptied, oldest, with_message, without_oldest};

use std::alloc::AllocError;
use zr_id::zid::Zid;
use zr_msg::msg::Msg;
use zr_msg::peer::Role;

/// Wires, each from one name to another. On a wire messages keep their order, and none is lost but where memory runs out. A router has a wire to it from
/// each neighbour. What it sends to a client is not carried, so there is no wire to a client.
pub trait Carrier: Drop {
    // the wire from one to another, where there is one
    ghost wire: { Self → List ℕ → List ℕ → Option Wire };

    /// Begins the empty wires between a router and a neighbour of this role. The two have none.
    fn open(&mut self, router: Zid, neighbour: Zid, role: Role) -> Result<(), AllocError>
        requires { (wire self.old router neighbour ≡ None) × (wire self.old neighbour router ≡ None) }
        ensures opened { OnOk result (Opens router neighbour role (wire self.old) (wire self.new)) }
        ensures err { OnErr result (AreSame (wire self.old) (wire self.new)) };

    /// Ends the wires between two, with what is on them, where there are any.
    fn close(&mut self, one: Zid, other: Zid)
        ensures { Closes one other (wire self.old) (wire self.new) };

    /// A message with its tag comes onto a wire. Who sends may send it, and it is no longer than a message of that role may be. Where memory runs out, what
    /// was on the wire is lost.
    fn send(&mut self, from: Zid, to: Zid, msg: &Msg, tag: u64) -> Result<(), AllocError>
        requires { CanSend (wire self.old from to) msg.now }
        ensures sent { OnOk result (Sets from to (option_map (λ w. with_message w msg.now tag) (wire self.old from to)) (wire self.old) (wire self.new)) }
        ensures err { OnErr result (Sets from to (option_map emptied (wire self.old from to)) (wire self.old) (wire self.new)) };

    /// Whether a message is on a wire.
    fn waits(&self, from: Zid, to: Zid) -> bool
        ensures { result ≡ is_some (oldest (wire self.now from to)) };

    /// The oldest message on a wire, with its tag, leaves it. None where none is on it. Where memory runs out, what was on the wire is lost.
    fn receive(&mut self, from: Zid, to: Zid) -> Result<Option<(Msg, u64)>, AllocError>
        ensures value { IfOk result (λ x. x ≡ oldest (wire self.old from to)) }
        ensures rest { OnOk result (Sets from to (option_map without_oldest (wire self.old from to)) (wire self.old) (wire self.new)) }
        ensures err { OnErr result (Sets from to (option_map emptied (wire self.old from to)) (wire self.old) (wire self.new)) };
}
