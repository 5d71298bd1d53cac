//! Which interests of a client are live.

ghost use Rattle.std.specs.Prelude.{◌≡◌, IfOk};
ghost use Rattle.zr_node_spec.specs.Table.{live};

use std::alloc::{AllocError, Global};
use zr_key::key::KeyExpr;
use zr_local::interest::{Interest, copied};
use zr_msg::msg::Kinds;

/// What is live under an id once a client has an interest there: the interest, if it is in what is declared later, and else nothing.
pub fn live(
    alloc: Global,
    future: bool,
    id: u32,
    kinds: Kinds,
    key: &Option<KeyExpr>,
    aggregate: bool,
) -> Result<Option<Interest>, AllocError>
    ensures { IfOk result (λ i. i ≡ live future (record { id = id; kinds = kinds; key = key.now; aggregate = aggregate })) }
{
    if !future {
        return Ok(None);
    }
    Ok(Some(Interest {
        id,
        kinds,
        key: copied(alloc, key)?,
        aggregate,
    }))
}
