//! Reading a numbered key.

ghost use Rattle.std.specs.Prelude.{◌≡◌, ◌++◌, false, if◌then◌else◌};
ghost use Rattle.zr_bytes.specs.Reading.{Keeps, Steps};
ghost use Rattle.zr_key.specs.Key.{read_key};
ghost use Rattle.zr_wirekey.specs.Scopes.{text_at};
ghost use Rattle.zr_wirekey.specs.Spelling.{scope_of, or_bad_key};
ghost use Rattle.zr_wirekey.specs.Reading.{parts_of, suffix_of, key_of, Spelled};

use crate::scopes::Scopes;
use std::alloc::Global;
use zr_bytes::{Cursor, ReadError};
use zr_key::key::{KeyError, KeyExpr};

/// The most bytes of a suffix.
const MOST_SUFFIX: u64 = (1 << 16) - 1;

/// The key expression at the front: the text of a scope, which the sender declared or the receiver, followed by a suffix where
/// the key is named.
#[tactic(auto, unfolding(crate::specs::Reading::key_of))]
pub fn read_key(
    alloc: Global,
    c: &mut Cursor<'_>,
    named: bool,
    sender: bool,
    theirs: &Scopes,
    ours: &Scopes,
) -> Result<KeyExpr, ReadError>
    ensures { Keeps (λ key. key) result (key_of named (if sender then theirs.now else ours.now) c.old) c.old c.new }
{
    let scopes = if sender { theirs } else { ours };
    let mut ahead = c.fork();
    let key = if named {
        spelled(alloc, &mut ahead, true, scopes)?
    } else {
        bare(alloc, &mut ahead, scopes)?
    };
    *c = ahead;
    Ok(key)
}

// A scope alone. A text that is an expression by itself was read when it was declared.
#[tactic(auto, unfolding(crate::specs::Reading::key_of, crate::specs::Reading::parts_of))]
fn bare(alloc: Global, c: &mut Cursor<'_>, scopes: &Scopes) -> Result<KeyExpr, ReadError>
    ensures { Steps (λ key. key) result (key_of false scopes.now c.old) c.new }
{
    let mut behind = c.fork();
    let number = behind.z16()?;
    match scopes.key(number) {
        Some(key) => {
            *c = behind;
            Ok(key.copy(alloc)?)
        }
        None => spelled(alloc, c, false, scopes),
    }
}

// A scope and a suffix, where the key is named.
#[tactic(auto, unfolding(crate::specs::Reading::key_of))]
fn spelled(
    alloc: Global,
    c: &mut Cursor<'_>,
    named: bool,
    scopes: &Scopes,
) -> Result<KeyExpr, ReadError>
    ensures { Steps (λ key. key) result (key_of named scopes.now c.old) c.new }
{
    let (scope, suffix) = read_parts(c, named, scopes)?;
    key(alloc, scope, suffix)
}

/// The text of a scope, and the suffix where the key is named: together they need not be an expression. After a refusal the cursor may
/// stand anywhere.
#[tactic(auto, unfolding(crate::specs::Reading::parts_of))]
pub fn read_parts<'s, 'c>(
    c: &mut Cursor<'c>,
    named: bool,
    scopes: &'s Scopes,
) -> Result<(&'s [u8], &'c [u8]), ReadError>
    ensures { Steps (λ x. (x.0.now, x.1.now)) result (parts_of named scopes.now c.old) c.new }
{
    let number = c.z16()?;
    let Some(scope) = scopes.text(number) else {
        return Err(ReadError::UnknownScope);
    };
    let suffix = suffix(c, named)?;
    Ok((scope, suffix))
}

fn suffix<'a>(c: &mut Cursor<'a>, named: bool) -> Result<&'a [u8], ReadError>
    ensures { Steps (λ x. x.now) result (suffix_of named c.old) c.new }
{
    if named { c.bytes(MOST_SUFFIX) } else { Ok(&[]) }
}

/// The expression that the two texts spell together.
fn key(alloc: Global, scope: &[u8], suffix: &[u8]) -> Result<KeyExpr, ReadError>
    ensures { Spelled result (or_bad_key (read_key (scope.now ++ suffix.now))) }
{
    let mut text = scope.to_vec(alloc)?;
    text.extend_from_slice(suffix)?;
    match KeyExpr::read(alloc, &text) {
        Ok(key) => Ok(key),
        Err(KeyError::NoMemory) => Err(ReadError::NoMemory),
        Err(_) => Err(ReadError::BadKey),
    }
}
