//! A message for one link or for several.

ghost use Rattle.std.specs.Prelude.{◌≡◌, ◌++◌, ◌∷◌, [], OnOk, OnErr};
ghost use Rattle.zr_lists.specs.Prefix.{IsPrefixBehind};
ghost use Rattle.zr_node_spec.specs.Each.{to_each};

use std::alloc::{AllocError, Global};
use zr_id::link::LinkNo;
use zr_msg::msg::Msg;

/// A message goes to a link.
pub fn tell(to: LinkNo, msg: Msg, out: &mut Vec<(LinkNo, Msg)>) -> Result<(), AllocError>
    ensures ok { OnOk result (out.new.items ≡ out.old.items ++ (to, msg) ∷ []) }
    ensures err { OnErr result (out.new.items ≡ out.old.items) }
{
    out.push((to, msg))?;
    Ok(())
}

/// A message goes to each of these links. What it shares is not copied.
pub fn tell_each(
    alloc: Global,
    to: &[LinkNo],
    msg: &Msg,
    out: &mut Vec<(LinkNo, Msg)>,
) -> Result<(), AllocError>
    ensures ok { OnOk result (out.new.items ≡ out.old.items ++ to_each to.now msg.now) }
    ensures err { OnErr result (IsPrefixBehind out.old.items (to_each to.now msg.now) out.new.items) }
{
    for link in to {
        tell(*link, msg.copy(alloc)?, out)?;
    }
    Ok(())
}

/// The same, of a message that goes nowhere else.
pub fn hand_out(
    alloc: Global,
    to: &[LinkNo],
    msg: Msg,
    out: &mut Vec<(LinkNo, Msg)>,
) -> Result<(), AllocError>
    ensures ok { OnOk result (out.new.items ≡ out.old.items ++ to_each to.now msg) }
    ensures err { OnErr result (IsPrefixBehind out.old.items (to_each to.now msg) out.new.items) }
{
    tell_each(alloc, to, &msg, out)
}

/// What was told apart goes out behind the rest.
pub fn append(out: &mut Vec<(LinkNo, Msg)>, mut told: Vec<(LinkNo, Msg)>) -> Result<(), AllocError>
    ensures ok { OnOk result (out.new.items ≡ out.old.items ++ told.items) }
    ensures err { OnErr result (out.new.items ≡ out.old.items) }
{
    out.append(&mut told)?;
    Ok(())
}

/// What was told apart goes nowhere.
pub fn discard(_told: Vec<(LinkNo, Msg)>) {}
