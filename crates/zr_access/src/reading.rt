//! Reading the text of rules.

ghost use Rattle.std.specs.Prelude.{◌≡◌, ◌==◌, ◌+◌, ◌≤◌, ◌<◌, IfOk, IfErr};
ghost use Rattle.zr_access.specs.Text.{IsRead, policy_of, unended};

use crate::fault::{LineError, PolicyError};
use crate::line::{Line, read_line};
use crate::policy::Policy;
use std::alloc::{AllocError, Global};
use zr_lists::cut;

impl Policy {
    /// The policy of a text: a rule or a default a line, and empty lines and comments. The first faulty line is told, by its number.
    pub fn read(alloc: Global, bytes: &[u8]) -> Result<Policy, PolicyError>
        ensures { IsRead result (policy_of bytes.now) }
    {
        let mut policy = Policy::open(alloc);
        if bytes.is_empty() {
            return Ok(policy);
        }
        let mut number = 0;
        let mut rest = Some(unended(bytes));
        while let Some(text) = rest {
            let (line, more) = cut(text, b'\n');
            number += 1;
            match read_line(alloc, number, policy.default.is_some(), line) {
                Ok(said) => match policy.add(said) {
                    Ok(()) => {}
                    Err(_) => return Err(PolicyError::NoMemory),
                },
                Err(LineError::NoMemory) => return Err(PolicyError::NoMemory),
                Err(LineError::Fault(fault)) => {
                    return Err(PolicyError::Refused {
                        line: u64::from(number),
                        fault,
                    });
                }
            }
            rest = more;
        }
        Ok(policy)
    }
}

// A text without the end of its last line.
fn unended(text: &[u8]) -> &[u8]
    ensures { result.now ≡ unended text.now }
{
    if text.ends_with(b"\n") {
        &text[..text.len() - 1]
    } else {
        text
    }
}
