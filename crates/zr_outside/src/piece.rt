//! `next_piece`: reading on until bytes come, the end, or a fault.

ghost use Rattle.std.specs.Prelude.{◌≡◌, ◌+◌, ◌^◌, ◌<◌, ◌≤◌, [], length, IfSome};
ghost use Rattle.zr_outside.specs.Counts.{Counted, Rose};
ghost use Rattle.zr_outside.specs.Piece.{GetsPiece, IsReadToEnd};

use crate::source::{Got, Source};

/// So many quiet reads in a row count as the end.
const MOST_QUIET: u64 = 4_294_967_296;

/// What reading on gave.
#[derive(Clone, Copy)]
pub enum Piece {
    /// So many bytes are the first of the buffer, at least one: the next that were left.
    Bytes(usize),
    /// Nothing is left, or the source was quiet for too long.
    End,
    /// The outside has failed; nothing was read.
    Failed,
}

/// Reads the next bytes into a buffer that isn't empty, and waits out quiet reads. 4,294,967,296 of them in a row count as the end. What is behind the
/// bytes that came is left open.
pub fn next_piece<S: Source>(input: &mut S, into: &mut [u8]) -> Piece
    requires { 0 < length into.old }
    ensures bytes { GetsPiece result into.old into.new (S.left input.old) (S.left input.new) }
    ensures failed { Counted (S.faults input.old) (S.faults input.new) (result ≡ Piece.Failed) }
    ensures whole { result ≡ Piece.End → IsReadToEnd (S.ends input.old) (S.ends input.new) (S.quiets input.old) (S.quiets input.new) }
    ensures ended { S.ends input.old < S.ends input.new → (result ≡ Piece.End) × IfSome (S.left input.old) (λ bytes. bytes ≡ []) }
    ensures patient { S.quiets input.old + 2 ^ 32 ≤ S.quiets input.new → result ≡ Piece.End }
    ensures ends { (S.ends input.old ≤ S.ends input.new) × (S.ends input.new ≤ S.ends input.old + 1) }
    ensures quiets { (S.quiets input.old ≤ S.quiets input.new) × (S.quiets input.new ≤ S.quiets input.old + 2 ^ 32) }
    ensures reads { Rose (S.reads input.old) (S.reads input.new) × (S.reads input.new ≤ S.reads input.old + 2 ^ 32) }
{
    'reading: for _ in 0..MOST_QUIET {
        match input.read(into) {
            Got::Bytes(count) => return Piece::Bytes(count),
            Got::Quiet => {}
            Got::End => return Piece::End,
            Got::Failed => return Piece::Failed,
        }
    }
    Piece::End
}
