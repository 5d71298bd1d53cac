//! The canonical form of a text that spells an expression (Zenoh key expressions RFC, "Canon forms").

ghost use Rattle.std.specs.Prelude.{◌≡◌, ◌==◌, ◌||◌, ◌≤◌, ◌∷◌, ◌++◌, [], List, length, nat_eq, true, false, IfOk, OnOk};
ghost use Rattle.std.specs.Cmp.Lexicographic.{pointwise};
ghost use Rattle.std.specs.List.{list_all, flat_map};
ghost use Rattle.zr_key.specs.Expression.{Chunk, piece_text, spelled};
ghost use Rattle.zr_key.specs.Key.{expression_of, canonical, lined, ordered, settled, chunk_of, single, pieces_of};

use std::alloc::{AllocError, Global};
use zr_lists::cut;

/// The text of the canonical form.
pub fn canonical_text(alloc: Global, text: &[u8]) -> Result<Vec<u8>, AllocError>
    requires { length text.now ≤ 2048 }
    ensures { IfOk result (λ v. v.items ≡ spelled (canonical (expression_of text.now))) }
{
    let mut out = Vec::with_capacity(alloc, text.len() + 1)?;
    let mut waiting = false;
    let mut rest = Some(text);
    while let Some(bytes) = rest {
        let (chunk, more) = cut(bytes, b'/');
        waiting = put_chunk(&mut out, chunk, waiting)?;
        rest = more;
    }
    put_waiting(&mut out, waiting)?;
    out.pop();
    Ok(out)
}

// The chunk's canonical form with a `/` behind it. A `**` waits until the `*`s behind it are written: the result says whether one does.
fn put_chunk(out: &mut Vec<u8>, chunk: &[u8], waiting: bool) -> Result<bool, AllocError>
    ensures { IfOk result (λ after. (more : List Chunk) → out.new.items ++ lined (ordered after more) ≡ out.old.items ++ lined (ordered waiting (settled (chunk_of chunk.now) ∷ more))) }
{
    if is_any_chunks(chunk) {
        return Ok(true);
    }
    if has_only_stars(chunk) {
        put_line(out, b"*".as_slice())?;
        return Ok(waiting);
    }
    put_waiting(out, waiting)?;
    put_pieces(out, chunk)?;
    Ok(false)
}

fn is_any_chunks(chunk: &[u8]) -> bool
    ensures { result ≡ pointwise nat_eq chunk.now (42 ∷ 42 ∷ []) }
{
    chunk == b"**".as_slice()
}

fn has_only_stars(chunk: &[u8]) -> bool
    ensures { result ≡ list_all (λ b. b == 36 || b == 42) chunk.now }
{
    chunk.iter().all(|b| *b == b'$' || *b == b'*')
}

// The `**` that waits, if one does.
fn put_waiting(out: &mut Vec<u8>, waiting: bool) -> Result<(), AllocError>
    ensures { OnOk result (out.new.items ≡ out.old.items ++ lined (ordered waiting [])) }
{
    if waiting {
        put_line(out, b"**".as_slice())?;
    }
    Ok(())
}

fn put_line(out: &mut Vec<u8>, chunk: &[u8]) -> Result<(), AllocError>
    ensures { OnOk result (out.new.items ≡ out.old.items ++ (chunk.now ++ 47 ∷ [])) }
{
    out.extend_from_slice(chunk)?;
    out.push(b'/')?;
    Ok(())
}

// The pieces with one `$*` for each run of them, and a `/` behind.
fn put_pieces(out: &mut Vec<u8>, chunk: &[u8]) -> Result<(), AllocError>
    ensures { OnOk result (out.new.items ≡ out.old.items ++ (flat_map piece_text (single false (pieces_of chunk.now)) ++ 47 ∷ [])) }
{
    let mut after = false;
    for b in chunk {
        match *b {
            b'$' => {
                if !after {
                    out.extend_from_slice(b"$*".as_slice())?;
                }
                after = true;
            }
            b'*' => {}
            other => {
                out.push(other)?;
                after = false;
            }
        }
    }
    out.push(b'/')?;
    Ok(())
}
