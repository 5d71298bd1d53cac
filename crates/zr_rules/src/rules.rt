//! `read_rules`: the policy of all bytes of an input.

ghost use Rattle.std.specs.Prelude.{◌≡◌, ◌<◌, ◌≤◌, [], Err, OnOk, length};
ghost use Rattle.zr_outside.specs.Counts.{Rose};
ghost use Rattle.zr_outside.specs.Piece.{IsReadToEnd};
ghost use Rattle.zr_rules.specs.Given.{Gathers, GivesRules, IsGathered, IsRefusal, OfBytes, most_bytes};

use crate::explaining::line_at;
use std::alloc::{AllocError, Global};
use zr_access::{Policy, PolicyError, PolicyFault};
use zr_outside::piece::{Piece, next_piece};
use zr_outside::source::Source;

/// How many bytes rules have at most.
const MOST_BYTES: usize = 1_048_576;

/// How many bytes are asked for in a read.
const MOST_A_READ: usize = 4_096;

/// How many bytes of a faulty line are kept at most: one more than a line may have.
const MOST_SHOWN: usize = 4_097;

/// Why there are no rules.
#[derive(Drop)]
pub enum RulesError {
    /// The first faulty line, what is wrong with it, and its bytes, as far as they are shown.
    Refused {
        line: u64,
        fault: PolicyFault,
        shown: Vec<u8>,
    },
    /// More than 1,048,576 bytes were read.
    TooLong,
    /// A read failed.
    ReadFault,
    /// Memory ran out.
    NoMemory,
}

/// The policy of all bytes of an input, which is read to its end. A read that fails is told as that.
#[tactic(auto, using(crate::proofs::Gathering::of_gathered, crate::proofs::Gathering::fails_gathered))]
pub fn read_rules<S: Source>(alloc: Global, input: &mut S) -> Result<Policy, RulesError>
    ensures rules { OfBytes (S.left input.old) (S.left input.new) (GivesRules (IsReadToEnd (S.ends input.old) (S.ends input.new) (S.quiets input.old) (S.quiets input.new)) result) }
    ensures whole { OnOk result (IsReadToEnd (S.ends input.old) (S.ends input.new) (S.quiets input.old) (S.quiets input.new)) }
    ensures fault { result ≡ Err RulesError.ReadFault → Rose (S.faults input.old) (S.faults input.new) }
    ensures only { S.faults input.old < S.faults input.new → result ≡ Err RulesError.ReadFault }
    ensures later { S.faults input.old ≤ S.faults input.new }
{
    let mut text = Vec::new(alloc);
    if let Err(e) = gather(input, &mut text) {
        return Err(e);
    }
    match Policy::read(alloc, text.as_slice()) {
        Ok(policy) => Ok(policy),
        Err(PolicyError::Refused { line, fault }) => Err(refused(
            alloc,
            text.as_slice(),
            line,
            fault,
        )),
        Err(PolicyError::NoMemory) => Err(RulesError::NoMemory),
    }
}

// The refusal for a faulty line of a text.
#[tactic(auto, using(std::proofs::lemmas::List::take_min))]
fn refused(alloc: Global, text: &[u8], line: u64, fault: PolicyFault) -> RulesError
    ensures { IsRefusal line fault text.now result }
{
    let bytes = line_at(line, text);
    match bytes[..MOST_SHOWN.min(bytes.len())].to_vec(alloc) {
        Ok(shown) => RulesError::Refused { line, fault, shown },
        Err(AllocError) => RulesError::NoMemory,
    }
}

// All bytes of an input, unless they are too many.
#[tactic(auto, using(crate::proofs::Gathering::gathers_none, crate::proofs::Gathering::gathers_more, zr_outside::proofs::Counting::ended_since, crate::proofs::Gathering::of_gathered))]
fn gather<S: Source>(input: &mut S, text: &mut Vec<u8>) -> Result<(), RulesError>
    requires empty { text.old.items ≡ [] }
    ensures gathered { OfBytes (S.left input.old) (S.left input.new) (IsGathered (IsReadToEnd (S.ends input.old) (S.ends input.new) (S.quiets input.old) (S.quiets input.new)) result) }
    ensures bytes { OnOk result (Gathers text.new.items (S.left input.old) (S.left input.new)) }
    ensures few { OnOk result (length text.new.items ≤ most_bytes) }
    ensures whole { OnOk result (IsReadToEnd (S.ends input.old) (S.ends input.new) (S.quiets input.old) (S.quiets input.new)) }
    ensures fault { result ≡ Err RulesError.ReadFault → Rose (S.faults input.old) (S.faults input.new) }
    ensures only { S.faults input.old < S.faults input.new → result ≡ Err RulesError.ReadFault }
    ensures later { S.faults input.old ≤ S.faults input.new }
{
    let mut piece = [0; MOST_A_READ];
    'reading: loop {
        match next_piece(input, &mut piece) {
            Piece::Bytes(count) => {
                if text.extend_from_slice(&piece[..count]).is_err() {
                    return Err(RulesError::NoMemory);
                }
                if text.len() > MOST_BYTES {
                    return Err(RulesError::TooLong);
                }
            }
            Piece::End => return Ok(()),
            Piece::Failed => return Err(RulesError::ReadFault),
        }
    }
}
