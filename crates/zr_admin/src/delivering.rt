//! Answers on their way to the router.

ghost use Rattle.std.specs.Prelude.{◌≡◌, List, [], IfErr, OnOk};
ghost use mathlib.Core.List.{IsPrefix};
ghost use Rattle.std.specs.List.{AllByRecursion};
ghost use Rattle.std.specs.Vec.Iter.{into_iter_items};
ghost use Rattle.zr_hist.specs.Words.{pass_name, IsSamePass, seen};
ghost use Rattle.zr_msg.specs.declared.msg.Msg.{Msg};
ghost use Rattle.zr_port.specs.Coming.{sight};
ghost use Rattle.zr_wire.specs.Writing.{IsSpelled};
ghost use Rattle.zr_admin.specs.Inner.{DeliversUpTo, RefusesFirst};

use std::vec;
use zr_hist::Pass;
use zr_id::link::LinkNo;
use zr_msg::msg::Msg;
use zr_port::{DeliverError, Entry, Port};

/// Delivers these messages over a link, in order, each by a call of its own: between two of them the port may rest, so that who asked can read. The first
/// that is refused is let go with those behind it.
#[tactic(auto, using(crate::proofs::Sending::none_delivered))]
pub(crate) fn deliver_each<P: Port>(
    port: &P,
    pass: &mut Pass<Entry>,
    link: LinkNo,
    messages: vec::IntoIter<Msg>,
) -> Result<(), DeliverError>
    requires pass { pass_name pass.old ≡ P.history port.now }
    requires spelled { AllByRecursion IsSpelled (into_iter_items messages) }
    ensures same { IsSamePass pass.old pass.new }
    ensures prefix { IsPrefix (seen pass.old) (seen pass.new) }
    ensures all { OnOk result (DeliversUpTo link (λ h m e. P.refuses_message port.now h link m e) (into_iter_items messages) [] (sight pass.old) (sight pass.new)) }
    ensures stopped { IfErr result (λ e. (rest : List Msg) × DeliversUpTo link (λ h m x. P.refuses_message port.now h link m x) (into_iter_items messages) rest (sight pass.old) (sight pass.new) × RefusesFirst (λ m x. P.refuses_message port.now (seen pass.new) link m x) rest e) }
{
    let mut rest = messages;
    while let Some(msg) = rest.next() {
        if let Err(e) = port.deliver(pass, link, msg) {
            drop(rest);
            return Err(e);
        }
    }
    rest.destroy_empty();
    Ok(())
}
