//! Comparing key expressions: whether two meet, and whether one covers another.
//! How expressions are read stands below, in zr_key.
#![tactic(auto)]

ghost use Rattle.std.specs.Prelude.{◌≡◌, ◌↔◌, ◌&&◌, ◌≤◌, IsTrue};
ghost use Rattle.zr_key.specs.Key.{expression_of, is_plain_text, plain_prefix_len, IsKeyText};
ghost use Rattle.zr_match.specs.Match.{Meets, Covers};
ghost use Rattle.zr_match.specs.Table.{compare_chunks, texts_meet, texts_cover};

mod chunks;
pub mod laws;
mod pieces;
pub mod row;
mod walk;

use walk::compare;
use zr_key::key::KeyExpr;

/// Whether some key is matched by both expressions (Zenoh key expressions RFC, "Intersection").
///
/// It takes no memory. Two keys are compared as texts, and expressions without `**` chunk by chunk; at worst there are as many steps as
/// the product of the two lengths.
pub fn meets(a: &KeyExpr, b: &KeyExpr) -> bool
    ensures test { result ≡ texts_meet a.now b.now }
    ensures meaning { IsTrue result ↔ Meets (expression_of a.now) (expression_of b.now) }
{
    compare_texts(true, a, b)
}

/// Whether the first expression covers the second, chunk by chunk (Zenoh key expressions RFC, "Inclusion"): then it matches each key that
/// the second matches.
///
/// It takes no memory, and no more steps than `meets`.
pub fn covers(a: &KeyExpr, b: &KeyExpr) -> bool
    ensures test { result ≡ texts_cover a.now b.now }
    ensures meaning { IsTrue result ↔ Covers (expression_of a.now) (expression_of b.now) }
{
    compare_texts(false, a, b)
}

// Two keys are compared as texts, and other expressions chunk by chunk.
fn compare_texts(expands: bool, a: &KeyExpr, b: &KeyExpr) -> bool
    ensures test { result ≡ compare_chunks expands (expression_of a.now) (expression_of b.now) }
    ensures first_is { IsKeyText a.now }
    ensures second_is { IsKeyText b.now }
{
    let first = a.text();
    let second = b.text();
    if are_plain(a, b) {
        return first == second;
    }
    compare(
        expands,
        shared_plain_len(a, b),
        first.as_bytes(),
        second.as_bytes(),
    )
}

// How many bytes stand before the first wildcard of both, at least.
fn shared_plain_len(a: &KeyExpr, b: &KeyExpr) -> usize
    ensures first { result ≤ plain_prefix_len a.now }
    ensures second { result ≤ plain_prefix_len b.now }
{
    a.plain_prefix_len().min(b.plain_prefix_len())
}

fn are_plain(a: &KeyExpr, b: &KeyExpr) -> bool
    ensures { result ≡ (is_plain_text a.now && is_plain_text b.now) }
{
    a.is_plain() && b.is_plain()
}
