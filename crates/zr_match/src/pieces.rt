//! Comparing the pieces of two chunks: characters and `$*`, row by row of their table.

ghost use Rattle.std.specs.Prelude.{◌≡◌, ℕ, ◌==◌, ◌<◌, ◌≤◌, ◌&&◌, ◌∷◌, length, slice_index_or, Bool, true, false, List};
ghost use Rattle.zr_key.specs.Expression.{Piece, is_any_chars};
ghost use Rattle.zr_key.specs.Key.{pieces_of};
ghost use Rattle.zr_match.specs.Table.{place, first_row, table, IsRow, piece_signs, pieces_compare, piece_of};

/// How many places a row has, for any chunk and for a short one.
const ROW: usize = 2050;

const SHORT_ROW: usize = 64;

/// Whether two chunks have a text in common, where `expands` is true, and else whether the second is made from the first.
pub fn pieces_compare(expands: bool, first: &[u8], second: &[u8]) -> bool
    requires { length second.now ≤ 2048 }
    ensures { result ≡ pieces_compare expands (pieces_of first.now) (pieces_of second.now) }
{
    if second.len() < SHORT_ROW {
        compare_short(expands, first, second)
    } else {
        let mut row = [false; ROW];
        compare_rows(expands, first, second, &mut row)
    }
}

fn compare_short(expands: bool, first: &[u8], second: &[u8]) -> bool
    requires { length second.now < 64 }
    ensures { result ≡ pieces_compare expands (pieces_of first.now) (pieces_of second.now) }
{
    let mut row = [false; SHORT_ROW];
    compare_rows(expands, first, second, &mut row)
}

fn compare_rows(expands: bool, first: &[u8], second: &[u8], row: &mut [bool]) -> bool
    requires { length second.now < length row.old }
    ensures { result ≡ pieces_compare expands (pieces_of first.now) (pieces_of second.now) }
{
    let last = put_first_row(expands, second, row);
    for x in first {
        if *x == b'*' {
            continue;
        }
        put_next_row(expands, *x, second, row);
    }
    row[last]
}

// The row of no piece, and how many pieces the second chunk has.
fn put_first_row(expands: bool, second: &[u8], row: &mut [bool]) -> usize
    requires { length second.now < length row.old }
    ensures row { IsRow (first_row (piece_signs expands)) (pieces_of second.now) row.new }
    ensures last { result ≡ length (pieces_of second.now) }
{
    row[0] = true;
    let mut at = 0;
    for y in second {
        if *y == b'*' {
            continue;
        }
        row[at + 1] = first_place(expands, *y, row[at]);
        at += 1;
    }
    at
}

// The row of one more piece of the first chunk, in the place of the row above it.
fn put_next_row(expands: bool, x: u8, second: &[u8], row: &mut [bool])
    requires { length second.now < length row.old }
    ensures { (above : List Piece) → IsRow (table (piece_signs expands) above) (pieces_of second.now) row.old → IsRow (table (piece_signs expands) (piece_of x ∷ above)) (pieces_of second.now) row.new }
{
    let mut across = row[0];
    row[0] = x == b'$' && across;
    let mut at = 0;
    for y in second {
        if *y == b'*' {
            continue;
        }
        let above = row[at + 1];
        row[at + 1] = place(expands, x, *y, across, above, row[at]);
        across = above;
        at += 1;
    }
}

fn first_place(expands: bool, y: u8, left: bool) -> bool
    ensures { result ≡ (expands && is_any_chars (piece_of y) && left) }
{
    expands && y == b'$' && left
}

fn place(expands: bool, x: u8, y: u8, across: bool, above: bool, left: bool) -> bool
    ensures { result ≡ place (piece_signs expands) (piece_of x) (piece_of y) across above left }
{
    if x == b'$' {
        above || left
    } else if y == b'$' {
        expands && (left || above)
    } else {
        x == y && across
    }
}
