//! Reading a body.

ghost use Rattle.std.specs.Prelude.{◌≡◌};
ghost use Rattle.zr_bytes.specs.Reading.{Keeps};
ghost use Rattle.zr_body.specs.Reading.{payload_in, body_of};

use crate::place::Place;
use crate::skipping;
use crate::wire_body::Body;
use std::alloc::Global;
use zr_bytes::{Cursor, ReadError};

/// The body at which the cursor stands, in a message of this kind. Its bytes are copied once, as they stand.
#[tactic(auto, unfolding(crate::specs::Reading::body_of))]
pub fn read_body(alloc: Global, c: &mut Cursor<'_>, place: Place) -> Result<Body, ReadError>
    ensures { Keeps (λ body. body) result (body_of place c.old) c.old c.new }
{
    let mut ahead = c.fork();
    let payload = skipping::body(&mut ahead, place)?;
    let length = c.left() - ahead.left();
    let body = Body::of(alloc, &c.as_slice()[..length], length - payload.len())?;
    *c = ahead;
    Ok(body)
}
