//! Comparing two expressions chunk by chunk from the front, up to the first `**` of either.
//! The table of the chunks serves only what is left then.

ghost use Rattle.std.specs.Prelude.{◌≡◌, ℕ, ◌==◌, ◌+◌, ◌<◌, ◌≤◌, ◌&&◌, not, length, slice_index_or, Bool, true, false, List};
ghost use Rattle.std.specs.List.{list_all};
ghost use Rattle.zr_key.specs.Expression.{Chunk, is_chunk, is_expression};
ghost use Rattle.zr_key.specs.Key.{expression_of, plain_prefix_len};
ghost use Rattle.zr_match.specs.Match.{is_verbatim_chunk};
ghost use Rattle.zr_match.specs.Table.{compare_chunks, is_any_chunks};

use crate::chunks::{chunks_compare, go_together, is_any_chunks, is_verbatim};
use zr_lists::cut;

/// Whether two expressions have a key in common, where `expands` is true, and else whether the first covers the second.
///
/// So many bytes of each stand before its first wildcard, at least, as `plain` says. Where they differ, nothing else is compared.
#[tactic(auto, using(zr_key::proofs::Plain::plain_prefix_fits))]
pub fn compare(expands: bool, plain: usize, first: &[u8], second: &[u8]) -> bool
    requires first_is { is_expression (expression_of first.now) ≡ true }
    requires second_is { is_expression (expression_of second.now) ≡ true }
    requires first_plain { plain ≤ plain_prefix_len first.now }
    requires second_plain { plain ≤ plain_prefix_len second.now }
    requires short { length second.now ≤ 2048 }
    ensures { result ≡ compare_chunks expands (expression_of first.now) (expression_of second.now) }
{
    if first[..plain] != second[..plain] {
        return false;
    }
    let start = chunk_start(first, plain);
    compare_from(expands, &first[start..], &second[start..])
}

// Where the chunk begins in which a place of a text stands.
fn chunk_start(text: &[u8], place: usize) -> usize
    requires { place ≤ length text.now }
    ensures before { result ≤ place }
    ensures behind { (i : ℕ) → result ≡ i + 1 → slice_index_or text.now i 0 ≡ 47 }
{
    let mut start = place;
    while start > 0 && text[start - 1] != b'/' {
        start -= 1;
    }
    start
}

fn compare_from(expands: bool, first: &[u8], second: &[u8]) -> bool
    requires first_is { list_all is_chunk (expression_of first.now) ≡ true }
    requires second_is { list_all is_chunk (expression_of second.now) ≡ true }
    requires short { length second.now ≤ 2048 }
    ensures { result ≡ compare_chunks expands (expression_of first.now) (expression_of second.now) }
{
    let mut left = first;
    let mut right = second;
    'chunks: loop {
        let (x, left_more) = cut(left, b'/');
        let (y, right_more) = cut(right, b'/');
        if is_any_chunks(x) || is_any_chunks(y) {
            return compare_gaps(expands, left, right);
        }
        if !go_together(expands, x, y) {
            return false;
        }
        match (left_more, right_more) {
            (Some(left_more), Some(right_more)) => {
                left = left_more;
                right = right_more;
            }
            (Some(more), None) => return has_only_any_chunks(more),
            (None, Some(more)) => return expands && has_only_any_chunks(more),
            (None, None) => return true,
        }
    }
}

// A `**` alone takes all but verbatim chunks.
fn compare_gaps(expands: bool, first: &[u8], second: &[u8]) -> bool
    requires { length second.now ≤ 2048 }
    ensures { result ≡ compare_chunks expands (expression_of first.now) (expression_of second.now) }
{
    if is_any_chunks(first) {
        has_no_verbatim(second)
    } else if expands && is_any_chunks(second) {
        has_no_verbatim(first)
    } else {
        chunks_compare(expands, first, second)
    }
}

fn has_only_any_chunks(text: &[u8]) -> bool
    ensures { result ≡ list_all is_any_chunks (expression_of text.now) }
{
    let mut rest = Some(text);
    while let Some(bytes) = rest {
        let (chunk, more) = cut(bytes, b'/');
        if !is_any_chunks(chunk) {
            return false;
        }
        rest = more;
    }
    true
}

fn has_no_verbatim(text: &[u8]) -> bool
    ensures { result ≡ list_all (λ x. not (is_verbatim_chunk x)) (expression_of text.now) }
{
    let mut rest = Some(text);
    while let Some(bytes) = rest {
        let (chunk, more) = cut(bytes, b'/');
        if is_verbatim(chunk) {
            return false;
        }
        rest = more;
    }
    true
}
