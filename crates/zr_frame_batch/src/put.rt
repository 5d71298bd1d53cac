//! Writing a batch to a stream of bytes.

ghost use Rattle.std.specs.Prelude.{◌≡◌, ◌<◌, ◌^◌, ◌++◌, length, OnOk, OnErr};
ghost use Rattle.zr_frame_batch.specs.Framing.{framed};
ghost use mathlib.Core.List.{IsPrefix};

use std::alloc::AllocError;

/// Appends a batch behind its length, two bytes of which the low one comes first (Zenoh protocol 1.0, TCP links). Where
/// memory runs out nothing is appended.
pub fn put_batch(out: &mut Vec<u8>, batch: &[u8]) -> Result<(), AllocError>
    requires { length batch.now < 2 ^ 16 }
    ensures ok { OnOk result (out.new.items ≡ out.old.items ++ framed batch.now) }
    ensures err { OnErr result (out.new.items ≡ out.old.items) }
{
    put_parts(out, batch, &[])
}

/// The same for a batch that lies in two parts.
pub fn put_parts(out: &mut Vec<u8>, front: &[u8], back: &[u8]) -> Result<(), AllocError>
    requires { length (front.now ++ back.now) < 2 ^ 16 }
    ensures ok { OnOk result (out.new.items ≡ out.old.items ++ framed (front.now ++ back.now)) }
    ensures err { OnErr result (out.new.items ≡ out.old.items) }
{
    let start = out.len();
    let put = append_parts(out, front, back);
    if put.is_err() {
        out.truncate(start);
    }
    put
}

fn append_parts(out: &mut Vec<u8>, front: &[u8], back: &[u8]) -> Result<(), AllocError>
    requires { length (front.now ++ back.now) < 2 ^ 16 }
    ensures ok { OnOk result (out.new.items ≡ out.old.items ++ framed (front.now ++ back.now)) }
    ensures err { OnErr result (IsPrefix out.old.items out.new.items) }
{
    let count = front.len() + back.len();
    out.extend_from_slice(&[(count % 256) as u8, (count / 256) as u8])?;
    out.extend_from_slice(front)?;
    out.extend_from_slice(back)
}
