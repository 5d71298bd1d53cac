//! `Row`: a row of the table by which expressions are compared, for a walk that compares many expressions with one key.

ghost use Rattle.std.specs.Prelude.{◌≡◌, ℕ, ◌∷◌, [], ◌≤◌, ◌<◌, ◌+◌, length, slice_index_or, false, not, List, IfOk};
ghost use Rattle.std.specs.List.{list_any};
ghost use Rattle.zr_key.specs.Expression.{Chunk};
ghost use Rattle.zr_key.specs.Key.{expression_of, chunk_of, is_plain_text};
ghost use Rattle.zr_match.specs.Table.{first_row, table, chunk_signs, is_any_chunks, IsRow};
ghost use Rattle.zr_match.specs.Row.{IsRowFor, IsRowBehind};

use crate::chunks::{self, has_star, put_first_row, put_next_row};
use std::alloc::{AllocError, Global};
use zr_key::key::KeyExpr;

/// Up to which chunks of one key expression some chunks of another have a key in common with it: a mark for each number of chunks, from
/// none to all of them.
#[derive(Drop)]
pub struct Row {
    marks: Vec<bool>,
    // how many chunks the expression has
    last: usize,
}

impl Row {
    /// The row of no chunk.
    pub fn first(alloc: Global, key: &KeyExpr) -> Result<Row, AllocError>
        ensures fits { IfOk result (λ row. IsRowFor key.now row) }
        ensures is { IfOk result (λ row. IsRowBehind [] key.now row) }
    {
        let text = key.text().as_bytes();
        let mut marks = vec![in alloc; false; text.len() + 2]?;
        let last = put_first_row(true, text, &mut marks);
        Ok(Row { marks, last })
    }

    /// The row of one chunk more. It takes as many steps as the key has chunks.
    pub fn next(&self, alloc: Global, chunk: &[u8], key: &KeyExpr) -> Result<Row, AllocError>
        requires { IsRowFor key.now self.now }
        ensures fits { IfOk result (λ row. IsRowFor key.now row) }
        ensures is { IfOk result (λ row. (above : List Chunk) → IsRowBehind above key.now self.now → IsRowBehind (chunk_of chunk.now ∷ above) key.now row) }
    {
        let text = key.text().as_bytes();
        let mut marks = Vec::from_slice(alloc, &self.marks)?;
        put_next_row(true, chunk, text, &mut marks);
        Ok(Row {
            marks,
            last: self.last,
        })
    }

    /// Whether the row has a mark at so many chunks of the key.
    pub fn is_marked(&self, place: usize) -> bool
        ensures { result ≡ slice_index_or self.now.marks.items place false }
    {
        match self.marks.get(place) {
            Some(mark) => *mark,
            None => false,
        }
    }

    /// Whether the row has a mark at all chunks of the key: the chunks have a key in common with it.
    pub fn meets(&self) -> bool
        ensures { result ≡ slice_index_or self.now.marks.items self.now.last false }
    {
        self.is_marked(self.last)
    }

    /// Whether the row has no mark, so that no further chunks make one.
    pub fn is_blank(&self) -> bool
        ensures { result ≡ not (list_any (λ mark. mark) self.now.marks.items) }
    {
        !has_mark(&self.marks)
    }
}

fn has_mark(marks: &[bool]) -> bool
    ensures { result ≡ list_any (λ mark. mark) marks.now }
{
    for mark in marks {
        if *mark {
            return true;
        }
    }
    false
}

/// Whether a chunk has no wildcard.
pub fn is_plain(chunk: &[u8]) -> bool
    ensures { result ≡ is_plain_text chunk.now }
{
    !has_star(chunk)
}

/// Whether a chunk is `**`.
pub fn is_any_chunks(chunk: &[u8]) -> bool
    ensures { result ≡ is_any_chunks (chunk_of chunk.now) }
{
    chunks::is_any_chunks(chunk)
}
