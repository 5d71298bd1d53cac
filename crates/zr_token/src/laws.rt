//! Laws of tokens that are alive, for the proofs of the crates above.

ghost use Rattle.zr_token.specs.Laws.{AliveAscends, AliveIsOfPairs};

/// The keys that are alive ascend.
pub fn alive_ascends()
    ensures { AliveAscends }
{}

/// The keys that are alive are those of the pairs that are.
pub fn alive_is_of_pairs()
    ensures { AliveIsOfPairs }
{}
