//! `tell_refusal`: the line that tells why there are no rules.

ghost use Rattle.std.specs.Prelude.{◌≡◌, ◌<◌, ◌≤◌, ◌++◌, IfOk};
ghost use Rattle.zr_outside.specs.Counts.{Rose};
ghost use Rattle.zr_rules.specs.Carets.{CaretsAreUnderWrongKeys, CaretsAreUnderWrongWords};
ghost use Rattle.zr_rules.specs.Given.{Complains, TellsRules, fault_text, refusal_text, refusal_told};

use crate::explaining::put_explanation;
use crate::laws::{carets_are_under_wrong_keys, carets_are_under_wrong_words};
use crate::rules::RulesError;
use itoa::Buffer;
use std::alloc::{AllocError, Global};
use zr_access::PolicyFault;
use zr_outside::sink::{Sink, write_all};

/// How it ends where there are no rules.
#[derive(Clone, Copy, Debug, PartialEq, Eq)]
pub enum RulesEnd {
    /// It was told why.
    Refused,
    /// Memory ran out, and nothing was told.
    NoMemory,
    /// A read had failed, and nothing was told.
    ReadFault,
    /// A write failed.
    WriteFault,
}

/// Tells why an input gave no rules, where its text is the cause: `rules line N: NUMBER NAME` of the first faulty line, or `rules too long`. Where that is
/// asked for, the faulty line follows with a caret under what is wrong, and what is expected. The end says whether it was told, or why it wasn't. The clause
/// `carets` says of the word under the caret that it makes the refusal true.
pub fn tell_refusal<E: Sink>(
    alloc: Global,
    explain: bool,
    error: RulesError,
    err: &mut E,
) -> RulesEnd
    ensures tells { TellsRules explain error result (E.held err.old) (E.held err.new) }
    ensures write { result ≡ RulesEnd.WriteFault → Rose (E.faults err.old) (E.faults err.new) }
    ensures only { E.faults err.old < E.faults err.new → result ≡ RulesEnd.WriteFault }
    ensures read { result ≡ RulesEnd.ReadFault → error ≡ RulesError.ReadFault }
    ensures quiet { result ≡ RulesEnd.Refused → E.faults err.new ≡ E.faults err.old }
    ensures later { E.faults err.old ≤ E.faults err.new }
    ensures carets { CaretsAreUnderWrongWords × CaretsAreUnderWrongKeys }
{
    // laws of the caret, which do nothing
    carets_are_under_wrong_words();
    carets_are_under_wrong_keys();
    match error {
        RulesError::Refused { line, fault, shown } => {
            match refusal_told(alloc, explain, line, fault, shown.as_slice()) {
                Ok(text) => complain(text.as_slice(), err),
                Err(AllocError) => RulesEnd::NoMemory,
            }
        }
        RulesError::TooLong => complain(b"rules too long\n", err),
        RulesError::ReadFault => RulesEnd::ReadFault,
        RulesError::NoMemory => RulesEnd::NoMemory,
    }
}

fn complain<E: Sink>(text: &[u8], err: &mut E) -> RulesEnd
    ensures tells { Complains result text.now (E.held err.old) (E.held err.new) }
    ensures write { result ≡ RulesEnd.WriteFault → Rose (E.faults err.old) (E.faults err.new) }
    ensures only { E.faults err.old < E.faults err.new → result ≡ RulesEnd.WriteFault }
    ensures told { (result ≡ RulesEnd.Refused → ⊥) → result ≡ RulesEnd.WriteFault }
    ensures quiet { result ≡ RulesEnd.Refused → E.faults err.new ≡ E.faults err.old }
    ensures later { E.faults err.old ≤ E.faults err.new }
{
    match write_all(err, text) {
        Ok(()) => RulesEnd::Refused,
        Err(_) => RulesEnd::WriteFault,
    }
}

fn refusal_told(
    alloc: Global,
    explain: bool,
    line: u64,
    fault: PolicyFault,
    shown: &[u8],
) -> Result<Vec<u8>, AllocError>
    ensures { IfOk result (λ text. text.items ≡ refusal_told explain line fault shown.now) }
{
    let mut text = refusal_line(alloc, line, fault)?;
    if explain {
        put_explanation(alloc, shown, fault, &mut text)?;
    }
    Ok(text)
}

fn refusal_line(alloc: Global, line: u64, fault: PolicyFault) -> Result<Vec<u8>, AllocError>
    ensures { IfOk result (λ text. text.items ≡ refusal_text line fault) }
{
    let mut buffer = Buffer::new();
    let mut text = Vec::new(alloc);
    text.extend_from_slice(b"rules line ")?;
    text.extend_from_slice(buffer.format(line).as_bytes())?;
    text.extend_from_slice(b": ")?;
    text.extend_from_slice(fault_text(fault).as_bytes())?;
    text.extend_from_slice(b"\n")?;
    Ok(text)
}

// The number and the name of a fault.
fn fault_text(fault: PolicyFault) -> &'static str
    ensures { result.now ≡ fault_text fault }
{
    match fault {
        PolicyFault::BadWords => "1 BadWords",
        PolicyFault::BadKey => "2 BadKey",
        PolicyFault::Misplaced => "3 Misplaced",
        PolicyFault::TooLong => "4 TooLong",
    }
}
