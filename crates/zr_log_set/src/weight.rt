//! What declarations weigh, and how much a router takes.

ghost use Rattle.std.specs.Prelude.{◌≡◌, ◌+◌, nat_lt};
ghost use Rattle.zr_log_set.specs.Decls.{decl_weight, most_weight};

use zr_msg::decl::Decl;

/// How much the declarations of all clients of one router weigh together at most, and likewise the set of each router (this profile's limit).
pub const MOST_WEIGHT: u64 = 4_194_304;

/// What a declaration or an interest weighs beside its text.
pub const OVERHEAD: u64 = 16;

/// What a declaration weighs: the bytes of its text, and 16.
pub fn decl_weight(decl: &Decl) -> u64
    ensures { result ≡ decl_weight decl.now }
{
    decl.key.text().len() as u64 + OVERHEAD
}

/// Whether what is held and what is to come weigh more together than `MOST_WEIGHT`.
pub fn is_over_limit(held: u64, more: u64) -> bool
    ensures { result ≡ nat_lt most_weight (held + more) }
{
    held > MOST_WEIGHT || more > MOST_WEIGHT - held
}
