//! `Source`: where bytes come from.

ghost use Rattle.std.specs.Prelude.{ℕ, List, length, ◌<◌};
ghost use Rattle.std.specs.declared.option.Option.{Option};
ghost use Rattle.zr_outside.specs.Counts.{Counted, RoseBy};
ghost use Rattle.zr_outside.specs.Source.{GetsNext, IsFailed, IsQuiet, IsEnd};

/// What a read gave.
#[derive(Clone, Copy)]
pub enum Got {
    /// So many bytes are the first of the buffer, at least one: the next that were left.
    Bytes(usize),
    /// Nothing has come yet.
    Quiet,
    /// Nothing is left.
    End,
    /// The outside has failed; nothing was read.
    Failed,
}

/// Where bytes come from. It counts its reads, and of its other counts each rises by one where that answer came, and only there.
pub trait Source {
    // the bytes that are left, where the source tells them
    ghost left: { Self → Option (List ℕ) };

    ghost reads: { Self → ℕ };

    ghost faults: { Self → ℕ };

    ghost quiets: { Self → ℕ };

    ghost ends: { Self → ℕ };

    /// Reads into a buffer that isn't empty. What is behind the bytes that came is left open.
    fn read(&mut self, into: &mut [u8]) -> Got
        requires { 0 < length into.old }
        ensures bytes { GetsNext result into.old into.new (left self.old) (left self.new) }
        ensures counted { RoseBy 1 (reads self.old) (reads self.new) }
        ensures failed { Counted (faults self.old) (faults self.new) (IsFailed result) }
        ensures quiet { Counted (quiets self.old) (quiets self.new) (IsQuiet result) }
        ensures ended { Counted (ends self.old) (ends self.new) (IsEnd result) };
}
