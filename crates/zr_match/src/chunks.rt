//! Comparing the chunks of two expressions, row by row of their table.

ghost use Rattle.std.specs.Prelude.{◌≡◌, ℕ, ◌==◌, ◌||◌, ◌+◌, ◌<◌, ◌≤◌, ◌&&◌, not, nat_eq, ◌∷◌, [], length, slice_index_or, Bool, true, false, List};
ghost use Rattle.std.specs.List.{list_any};
ghost use Rattle.std.specs.Cmp.Lexicographic.{pointwise};
ghost use Rattle.zr_key.specs.Expression.{Chunk, Pieces, begins_verbatim};
ghost use Rattle.zr_key.specs.Key.{pieces_of, chunk_of, expression_of, is_plain_text};
ghost use Rattle.zr_match.specs.Table.{place, first_row, table, IsRow, chunk_signs, compare_chunks, chunks_go_together, is_any_chunks};

use crate::pieces::pieces_compare;
use zr_lists::cut;

/// How many places a row has: more than the longest expression has chunks.
const ROW: usize = 2050;

/// Whether two expressions have a key in common, where `expands` is true, and else whether the first covers the second.
pub fn chunks_compare(expands: bool, first: &[u8], second: &[u8]) -> bool
    requires { length second.now ≤ 2048 }
    ensures { result ≡ compare_chunks expands (expression_of first.now) (expression_of second.now) }
{
    let mut row = [false; ROW];
    rows_compare(expands, first, second, &mut row)
}

fn rows_compare(expands: bool, first: &[u8], second: &[u8], row: &mut [bool]) -> bool
    requires short { length second.now ≤ 2048 }
    requires row_fits { length second.now + 1 < length row.old }
    ensures { result ≡ compare_chunks expands (expression_of first.now) (expression_of second.now) }
{
    let last = put_first_row(expands, second, row);
    let mut rest = Some(first);
    while let Some(bytes) = rest {
        let (x, more) = cut(bytes, b'/');
        put_next_row(expands, x, second, row);
        rest = more;
    }
    row[last]
}

/// The row of no chunk, and how many chunks the second expression has.
pub fn put_first_row(expands: bool, second: &[u8], row: &mut [bool]) -> usize
    requires { length second.now + 1 < length row.old }
    ensures row { IsRow (first_row (chunk_signs expands)) (expression_of second.now) row.new }
    ensures last { result ≡ length (expression_of second.now) }
    ensures fits { result ≤ length second.now + 1 }
{
    row[0] = true;
    let mut at = 0;
    let mut rest = Some(second);
    while let Some(bytes) = rest {
        let (y, more) = cut(bytes, b'/');
        row[at + 1] = first_place(expands, y, row[at]);
        at += 1;
        rest = more;
    }
    at
}

/// The row of one more chunk of the first expression, in the place of the row above it.
pub fn put_next_row(expands: bool, x: &[u8], second: &[u8], row: &mut [bool])
    requires short { length second.now ≤ 2048 }
    requires row_fits { length second.now + 1 < length row.old }
    ensures { (above : List Chunk) → IsRow (table (chunk_signs expands) above) (expression_of second.now) row.old → IsRow (table (chunk_signs expands) (chunk_of x.now ∷ above)) (expression_of second.now) row.new }
{
    let mut across = row[0];
    row[0] = is_any_chunks(x) && across;
    let mut at = 0;
    let mut rest = Some(second);
    while let Some(bytes) = rest {
        let (y, more) = cut(bytes, b'/');
        let above = row[at + 1];
        row[at + 1] = place(expands, x, y, across, above, row[at]);
        across = above;
        at += 1;
        rest = more;
    }
}

fn first_place(expands: bool, y: &[u8], left: bool) -> bool
    ensures { result ≡ (expands && is_any_chunks (chunk_of y.now) && left) }
{
    expands && is_any_chunks(y) && left
}

fn place(expands: bool, x: &[u8], y: &[u8], across: bool, above: bool, left: bool) -> bool
    requires { length y.now ≤ 2048 }
    ensures { result ≡ place (chunk_signs expands) (chunk_of x.now) (chunk_of y.now) across above left }
{
    if is_any_chunks(x) {
        above || left && !is_verbatim(y)
    } else if is_any_chunks(y) {
        expands && (left || above && !is_verbatim(x))
    } else {
        across && go_together(expands, x, y)
    }
}

/// Whether two chunks go together: they have a chunk of a key in common, where `expands` is true, and else the first takes the second.
pub fn go_together(expands: bool, first: &[u8], second: &[u8]) -> bool
    requires { length second.now ≤ 2048 }
    ensures { result ≡ chunks_go_together expands (chunk_of first.now) (chunk_of second.now) }
{
    if is_any_chunks(first) || is_any_chunks(second) {
        false
    } else if is_any(first) {
        !is_verbatim(second)
    } else if is_any(second) {
        expands && !is_verbatim(first)
    } else {
        pieces_go_together(expands, first, second)
    }
}

fn pieces_go_together(expands: bool, first: &[u8], second: &[u8]) -> bool
    requires { length second.now ≤ 2048 }
    ensures { result ≡ chunks_go_together expands (Pieces (pieces_of first.now)) (Pieces (pieces_of second.now)) }
{
    if are_plain(first, second) {
        return first == second;
    }
    if are_apart(first, second) {
        return false;
    }
    pieces_compare(expands, first, second)
}

fn are_plain(first: &[u8], second: &[u8]) -> bool
    ensures { result ≡ (is_plain_text first.now && is_plain_text second.now) }
{
    !has_star(first) && !has_star(second)
}

// One chunk has a wildcard and the other is verbatim.
fn are_apart(first: &[u8], second: &[u8]) -> bool
    ensures { result ≡ (list_any (λ b. b == 36) first.now && begins_verbatim (pieces_of second.now) || list_any (λ b. b == 36) second.now && begins_verbatim (pieces_of first.now)) }
{
    is_barred(first, second) || is_barred(second, first)
}

fn is_barred(wild: &[u8], verbatim: &[u8]) -> bool
    ensures { result ≡ (list_any (λ b. b == 36) wild.now && begins_verbatim (pieces_of verbatim.now)) }
{
    has_dollar(wild) && is_verbatim(verbatim)
}

/// Whether a chunk is `**`.
pub fn is_any_chunks(chunk: &[u8]) -> bool
    ensures { result ≡ pointwise nat_eq chunk.now (42 ∷ 42 ∷ []) }
{
    chunk == b"**".as_slice()
}

fn is_any(chunk: &[u8]) -> bool
    ensures { result ≡ pointwise nat_eq chunk.now (42 ∷ []) }
{
    chunk == b"*".as_slice()
}

/// Whether a chunk has a wildcard.
pub fn has_star(chunk: &[u8]) -> bool
    ensures { result ≡ list_any (λ b. b == 42 || b == 36) chunk.now }
{
    chunk.iter().any(|b| *b == b'*' || *b == b'$')
}

fn has_dollar(chunk: &[u8]) -> bool
    ensures { result ≡ list_any (λ b. b == 36) chunk.now }
{
    chunk.iter().any(|b| *b == b'$')
}

/// Whether the first piece of a chunk is `@`.
pub fn is_verbatim(chunk: &[u8]) -> bool
    ensures { result ≡ begins_verbatim (pieces_of chunk.now) }
{
    for b in chunk {
        if *b != b'*' {
            return *b == b'@';
        }
    }
    false
}
