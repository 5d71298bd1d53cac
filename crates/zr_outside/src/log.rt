//! `Log`: where lines about a link go.

ghost use Rattle.std.specs.Prelude.{ℕ, List};
ghost use Rattle.std.specs.declared.option.Option.{Option};
ghost use Rattle.zr_outside.specs.Told.{Loses, Tells};

/// Where lines about one link go. A line that can't be told is lost and counts so, and nothing else depends on it.
pub trait Log {
    // the bytes that are held, where the log tells them
    ghost held: { Self → Option (List ℕ) };

    // how many lines it has lost
    ghost lost: { Self → ℕ };

    /// Tells a line, whose end is in it, or loses it.
    fn tell(&mut self, line: &str)
        ensures { Tells line.now (held self.old) (held self.new) (lost self.old) (lost self.new) };

    /// A line for which there was no memory is lost.
    fn lose(&mut self)
        ensures { Loses (held self.old) (held self.new) (lost self.old) (lost self.new) };
}
