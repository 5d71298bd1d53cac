//! `Sink`: where bytes go, and writing all of some bytes.

ghost use Rattle.std.specs.Prelude.{ℕ, ◌≡◌, ◌≤◌, ◌<◌, List, length, OnOk, OnErr};
ghost use Rattle.std.specs.declared.option.Option.{Option};
ghost use Rattle.zr_outside.specs.Counts.{Counted, Rose};
ghost use Rattle.zr_outside.specs.Sink.{Writes, IsFailed};
ghost use Rattle.zr_outside.specs.Told.{Appends, AppendsPrefix};

/// What a write gave.
#[derive(Clone, Copy)]
pub enum Put {
    /// The first so many bytes, at least one, were appended.
    Took(usize),
    /// The outside has failed; nothing was written.
    Failed,
}

/// A write failed: the sink's count of faults has risen.
#[derive(Clone, Copy)]
pub struct WriteFailed;

/// Where bytes go. Its count of faults rises by one where a write failed, and only there.
pub trait Sink {
    // the bytes that are held, where the sink tells them
    ghost held: { Self → Option (List ℕ) };

    ghost faults: { Self → ℕ };

    /// Writes a prefix of some bytes, of which there is at least one.
    fn write(&mut self, from: &[u8]) -> Put
        requires { 0 < length from.now }
        ensures bytes { Writes result from.now (held self.old) (held self.new) }
        ensures failed { Counted (faults self.old) (faults self.new) (IsFailed result) };
}

/// Writes all of some bytes, in as many writes as it takes. The first fault ends it, and then a prefix of them was written.
pub fn write_all<K: Sink>(out: &mut K, text: &[u8]) -> Result<(), WriteFailed>
    ensures ok { OnOk result (Appends text.now (K.held out.old) (K.held out.new)) }
    ensures err { OnErr result (AppendsPrefix text.now (K.held out.old) (K.held out.new)) }
    ensures cause { OnErr result (Rose (K.faults out.old) (K.faults out.new)) }
    ensures quiet { OnOk result (K.faults out.new ≡ K.faults out.old) }
    ensures later { K.faults out.old ≤ K.faults out.new }
{
    let mut at = 0;
    while at < text.len() {
        match out.write(&text[at..]) {
            Put::Took(count) => {
                at += count;
            }
            Put::Failed => return Err(WriteFailed),
        }
    }
    Ok(())
}
