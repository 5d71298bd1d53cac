//! Writing transport messages, each as a batch of its own.

ghost use Rattle.std.specs.Prelude.{◌≡◌, ◌<◌, ◌^◌, ◌++◌, length, OnOk, OnErr, IfOk};
ghost use Rattle.zr_frame_batch.specs.Framing.{framed};
ghost use Rattle.zr_trans.specs.Writing.{Fits, writes_trans};
ghost use Rattle.zr_open.specs.Table.{AnswerFits};
ghost use Rattle.zr_session.specs.Step.{written};

use std::alloc::{AllocError, Global};
use zr_bytes::ByteString;
use zr_frame_batch::put_batch;
use zr_trans::{Trans, write_trans};

/// The batch of a message.
pub(crate) fn batch_of(alloc: Global, t: &Trans) -> Result<Vec<u8>, AllocError>
    requires { Fits t.now }
    ensures { IfOk result (λ b. b.items ≡ writes_trans t.now) }
{
    let mut batch = Vec::new(alloc);
    write_trans(&mut batch, t)?;
    Ok(batch)
}

/// Appends a message that a batch has room for, behind the batch's length. Where memory runs out nothing is appended.
pub(crate) fn put_message(alloc: Global, t: &Trans, out: &mut Vec<u8>) -> Result<(), AllocError>
    requires fits { Fits t.now }
    requires short { length (writes_trans t.now) < 2 ^ 16 }
    ensures ok { OnOk result (out.new.items ≡ out.old.items ++ framed (writes_trans t.now)) }
    ensures err { OnErr result (out.new.items ≡ out.old.items) }
{
    let batch = batch_of(alloc, t)?;
    put_batch(out, &batch)
}

/// The answer to OPEN as a batch behind its length, where there is one.
pub(crate) fn written(alloc: Global, answer: &Option<Trans>) -> Result<ByteString, AllocError>
    requires { AnswerFits answer.now }
    ensures { IfOk result (λ b. b ≡ written answer.now) }
{
    let mut bytes = Vec::new(alloc);
    if let Some(t) = answer {
        put_message(alloc, t, &mut bytes)?;
    }
    Ok(ByteString::new(bytes))
}
