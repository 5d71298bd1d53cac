//! A body as its bytes.

ghost use Rattle.std.specs.Prelude.{◌≡◌, ◌++◌, ◌<◌, ◌^◌, length, IfOk, OnOk, OnErr};
ghost use Rattle.zr_body.specs.Body.{IsBody};
ghost use Rattle.zr_body.specs.Latest.{is_reply};
ghost use Rattle.zr_body.specs.Payload.{put_body, del_body, payload_of, is_del, IsBodyTo};

use crate::skipping::{DEL, PUT, REPLY};
use std::alloc::{AllocError, Global};
use std::marker::Model;
use std::sync::ArcSlice;
use zr_bytes::put_bytes;
use zr_format_spec::header::ID;

/// How many bytes stand before a payload at most, where a body has neither flags nor extensions: its header and the payload's length.
const MOST_HEAD: usize = 6;

/// A well-formed body of some kind of message, kept byte for byte, however many messages it goes with. Contracts see it as the list of its bytes.
#[derive(Debug, Drop)]
pub struct Body {
    bytes: ArcSlice<u8>,
    // where the payload begins; where there is none, it is the number of bytes
    payload: usize,
}

impl Model for Body {
    ghost use Rattle.std.specs.Prelude.{ℕ, List};
    ghost use Rattle.std.specs.Arc.{arc_slice_items};
    ghost use Rattle.zr_body.specs.Payload.{IsBodyTo};

    ghost Value = { List ℕ };

    ghost view = { λ b. arc_slice_items b.bytes };

    ghost invariant = { λ b. IsBodyTo b.payload (arc_slice_items b.bytes) };
}

impl Body {
    /// A PUT of a payload, without flags and extensions.
    pub fn put(alloc: Global, payload: &[u8]) -> Result<Body, AllocError>
        requires { length payload.now < 2 ^ 32 }
        ensures { IfOk result (λ b. b ≡ put_body payload.now) }
    {
        let mut bytes = Vec::with_capacity(alloc, MOST_HEAD + payload.len())?;
        bytes.push(PUT)?;
        put_bytes(&mut bytes, payload)?;
        let start = bytes.len() - payload.len();
        Ok(Body {
            bytes: ArcSlice::from_vec(bytes)?,
            payload: start,
        })
    }

    /// A DEL without flags and extensions.
    pub fn del(alloc: Global) -> Result<Body, AllocError>
        ensures { IfOk result (λ b. b ≡ del_body) }
    {
        let bytes = [DEL];
        Ok(Body {
            bytes: ArcSlice::from_slice(alloc, &bytes)?,
            payload: bytes.len(),
        })
    }

    // The body of these bytes, whose payload begins at a place.
    pub(crate) fn of(alloc: Global, bytes: &[u8], payload: usize) -> Result<Body, AllocError>
        requires { IsBodyTo payload bytes.now }
        ensures { IfOk result (λ b. b ≡ bytes.now) }
    {
        Ok(Body {
            bytes: ArcSlice::from_slice(alloc, bytes)?,
            payload,
        })
    }

    /// The bytes.
    pub fn as_slice(&self) -> &[u8]
        ensures value { result.now ≡ self.now }
        ensures body { IsBody self.now }
    {
        self.bytes.as_slice()
    }

    /// The payload of a PUT, of the PUT in a REPLY, or of an ERR. It is empty for any other body.
    pub fn payload(&self) -> &[u8]
        ensures { result.now ≡ payload_of self.now }
    {
        &self.bytes.as_slice()[self.payload..]
    }

    /// Whether it is a DEL.
    pub fn is_del(&self) -> bool
        ensures { result ≡ is_del self.now }
    {
        match self.as_slice().first() {
            Some(header) => header & ID == DEL,
            None => false,
        }
    }

    /// Whether it is a REPLY, and no ERR.
    pub fn is_reply(&self) -> bool
        ensures { result ≡ is_reply self.now }
    {
        match self.as_slice().first() {
            Some(header) => header & ID == REPLY,
            None => false,
        }
    }

    /// The same body for one more message. It takes no memory, and fails only where the count of owners is at its end, 2^63 - 1.
    pub fn copy(&self) -> Result<Body, AllocError>
        ensures { IfOk result (λ b. b ≡ self.now) }
    {
        Ok(Body {
            bytes: self.bytes.clone()?,
            payload: self.payload,
        })
    }
}

/// Appends a body, byte for byte. Where memory runs out nothing is appended.
pub fn write_body(out: &mut Vec<u8>, body: &Body) -> Result<(), AllocError>
    ensures ok { OnOk result (out.new.items ≡ out.old.items ++ body.now) }
    ensures err { OnErr result (out.new.items ≡ out.old.items) }
{
    out.extend_from_slice(body.as_slice())
}
