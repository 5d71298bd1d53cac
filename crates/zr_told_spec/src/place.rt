//! `Place`: of what clients are told.

ghost use Rattle.std.specs.Prelude.{◌≡◌, IfOk};

use std::alloc::{AllocError, Global};
use std::cmp::Ordering;
use zr_key::key::KeyExpr;

/// Of what sort of declarations. The order is that of the variants.
#[derive(Clone, Copy, Debug, PartialEq, Eq, PartialOrd, Ord)]
pub enum Class {
    Subscriber,
    Queryable,
    /// Of liveliness tokens.
    Living,
}

/// Of what a client is told: of the subscribers, the queryables or the tokens on an expression. The order is by class, then by the expression's bytes.
#[derive(Debug, PartialEq, Eq, Drop)]
pub struct Place {
    pub class: Class,
    pub key: KeyExpr,
}

impl Place {
    /// The same place again.
    pub fn copy(&self, alloc: Global) -> Result<Place, AllocError>
        ensures { IfOk result (λ p. p ≡ self.now) }
    {
        Ok(Place {
            class: self.class,
            key: self.key.copy(alloc)?,
        })
    }
}

impl PartialOrd for Place {
    ghost use Rattle.std.specs.Cmp.{partial_order_from_own_ties};
    ghost use Rattle.std.specs.Cmp.Rules.{comparing};
    ghost use Rattle.std.specs.Ordering.{as_partial_cmp};
    ghost use Rattle.std.proofs.Common.{rules};
    ghost use Rattle.zr_told_spec.specs.Place.{place_cmp};

    ghost partial_cmp = { as_partial_cmp place_cmp };

    ghost laws = { partial_order_from_own_ties (Prim.search (comparing, rules)) (Prim.search (comparing, rules)) };

    fn partial_cmp(&self, other: &Place) -> Option<Ordering> {
        Some(self.cmp(other))
    }
}

impl Ord for Place {
    ghost use Rattle.std.specs.Cmp.Rules.{comparing};
    ghost use Rattle.std.proofs.Common.{rules};
    ghost use Rattle.zr_told_spec.specs.Place.{place_cmp};

    ghost cmp = { place_cmp };

    ghost total = { Prim.search (comparing, rules) };

    ghost matches_partial_cmp = { Prim.search (comparing, rules) };

    ghost matches_eq = { Prim.search (comparing, rules) };

    fn cmp(&self, other: &Place) -> Ordering {
        let texts = self.key.text().as_bytes().cmp(other.key.text().as_bytes());
        self.class.cmp(&other.class).then(texts)
    }
}
