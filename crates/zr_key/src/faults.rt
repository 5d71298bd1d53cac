//! What is wrong with a text that is no key expression.

ghost use Rattle.std.specs.Prelude.{◌≡◌, ◌==◌, ◌||◌, false};
ghost use Rattle.std.specs.List.{list_any};
ghost use Rattle.zr_key.specs.Key.{fault_of, first_fault, chunks, has_good_stars, is_paired, begins_at};

use crate::key::KeyError;
use zr_lists::cut;

/// What is wrong with the first faulty chunk from the left.
pub fn fault(text: &[u8]) -> Option<KeyError>
    ensures { result ≡ first_fault (chunks text.now) }
{
    let mut rest = Some(text);
    while let Some(bytes) = rest {
        let (chunk, more) = cut(bytes, b'/');
        let fault = chunk_fault(chunk);
        if fault.is_some() {
            return fault;
        }
        rest = more;
    }
    None
}

fn chunk_fault(chunk: &[u8]) -> Option<KeyError>
    ensures { result ≡ fault_of chunk.now }
{
    if chunk.is_empty() {
        Some(KeyError::EmptyChunk)
    } else if has_bad_char(chunk) {
        Some(KeyError::BadChar)
    } else if has_good_stars(chunk) {
        None
    } else {
        Some(KeyError::BadStar)
    }
}

fn has_bad_char(chunk: &[u8]) -> bool
    ensures { result ≡ list_any (λ b. b == 35 || b == 63) chunk.now }
{
    chunk.iter().any(|b| *b == b'#' || *b == b'?')
}

// The chunk is `*` or `**`, or its stars are those of `$*` and it is not verbatim.
fn has_good_stars(chunk: &[u8]) -> bool
    ensures { result ≡ has_good_stars chunk.now }
{
    chunk == b"*".as_slice()
        || chunk == b"**".as_slice()
        || is_paired(chunk) && !(begins_at(chunk) && has_dollar(chunk))
}

// A `*` stands right behind each `$` and nowhere else.
fn is_paired(chunk: &[u8]) -> bool
    ensures { result ≡ is_paired false chunk.now }
{
    let mut after = false;
    for b in chunk {
        if (*b == b'*') != after {
            return false;
        }
        after = *b == b'$';
    }
    !after
}

fn begins_at(chunk: &[u8]) -> bool
    ensures { result ≡ begins_at chunk.now }
{
    match chunk {
        [b, ..] => *b == b'@',
        [] => false,
    }
}

fn has_dollar(chunk: &[u8]) -> bool
    ensures { result ≡ list_any (λ b. b == 36) chunk.now }
{
    chunk.iter().any(|b| *b == b'$')
}
