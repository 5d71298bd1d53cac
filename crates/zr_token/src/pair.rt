//! `Pair`: a token.

ghost use Rattle.std.specs.Prelude.{◌≡◌, IfOk};
ghost use Rattle.zr_token.specs.Tally.{is_key, is_pair};

use crate::owner::Owner;
use std::alloc::{AllocError, Global};
use zr_key::key::KeyExpr;

/// A token: an owner and a key.
#[derive(Drop)]
pub struct Pair {
    pub owner: Owner,
    pub key: KeyExpr,
}

impl Pair {
    /// The pair of an owner and a copy of a key.
    pub fn new(alloc: Global, owner: Owner, key: &KeyExpr) -> Result<Pair, AllocError>
        ensures { IfOk result (λ p. p ≡ record { owner = owner; key = key.now }) }
    {
        Ok(Pair {
            owner,
            key: key.copy(alloc)?,
        })
    }

    /// Whether it is that of an owner and a key.
    pub fn is(&self, owner: Owner, key: &KeyExpr) -> bool
        ensures { result ≡ is_pair owner key.now self.now }
    {
        owner.is(self.owner) && is_key(key, &self.key)
    }
}

fn is_key(key: &KeyExpr, other: &KeyExpr) -> bool
    ensures { result ≡ is_key key.now other.now }
{
    key.text().as_bytes().cmp(other.text().as_bytes()).is_eq()
}
