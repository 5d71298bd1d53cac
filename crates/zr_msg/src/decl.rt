//! Declarations, as routers tell them to each other.

ghost use Rattle.std.specs.Prelude.{◌≡◌, IfOk};

use std::alloc::{AllocError, Global};
use std::cmp::Ordering;
use std::marker::Model;
use std::sync::ArcSlice;
use zr_key::key::KeyExpr;

/// What is declared. The order is that of the variants.
#[derive(Clone, Copy, Debug, PartialEq, Eq, PartialOrd, Ord)]
pub enum Kind {
    /// A subscriber.
    Sub,
    /// A queryable.
    Able,
    /// A complete queryable: what it answers on its expression is all that there is.
    Full,
    /// A liveliness token: it is there as long as the client is that declared it.
    Token,
}

/// A declaration. Declarations are ordered by their kinds, and then by the bytes of their keys.
#[derive(Debug, PartialEq, Eq)]
pub struct Decl {
    pub kind: Kind,
    pub key: KeyExpr,
}

// Written out, so that it is proved here, and not by each crate that lets one go.
impl Drop for Decl {
    fn drop(self) {
        let Self {
            kind: _kind,
            key: _key,
        } = self;
    }
}

impl Decl {
    /// The same declaration again.
    pub fn copy(&self, alloc: Global) -> Result<Decl, AllocError>
        ensures { IfOk result (λ d. d ≡ self.now) }
    {
        Ok(Decl {
            kind: self.kind,
            key: self.key.copy(alloc)?,
        })
    }
}

impl PartialOrd for Decl {
    ghost use Rattle.std.specs.Cmp.{partial_order_from_own_ties};
    ghost use Rattle.std.specs.Cmp.Rules.{comparing};
    ghost use Rattle.std.specs.Ordering.{as_partial_cmp};
    ghost use Rattle.std.proofs.Common.{rules};
    ghost use Rattle.zr_msg.specs.Decl.{decl_cmp};

    ghost partial_cmp = { as_partial_cmp decl_cmp };

    ghost laws = { partial_order_from_own_ties (Prim.search (comparing, rules)) (Prim.search (comparing, rules)) };

    fn partial_cmp(&self, other: &Decl) -> Option<Ordering> {
        Some(self.cmp(other))
    }
}

impl Ord for Decl {
    ghost use Rattle.std.specs.Cmp.Rules.{comparing};
    ghost use Rattle.std.proofs.Common.{rules};
    ghost use Rattle.zr_msg.specs.Decl.{decl_cmp};

    ghost cmp = { decl_cmp };

    ghost total = { Prim.search (comparing, rules) };

    ghost matches_partial_cmp = { Prim.search (comparing, rules) };

    ghost matches_eq = { Prim.search (comparing, rules) };

    fn cmp(&self, other: &Decl) -> Ordering {
        let texts = self.key.text().as_bytes().cmp(other.key.text().as_bytes());
        self.kind.cmp(&other.kind).then(texts)
    }
}

/// A list of declarations, kept once, however many messages it goes with.
#[derive(Debug, Drop)]
pub struct Decls {
    items: ArcSlice<Decl>,
}

impl Model for Decls {
    ghost use Rattle.std.specs.Prelude.{List};
    ghost use Rattle.std.specs.Arc.{arc_slice_items};
    ghost use Rattle.zr_msg.specs.declared.decl.Decl.{Decl};

    ghost Value = { List Decl };

    ghost view = { λ d. arc_slice_items d.items };
}

impl Decls {
    /// The list of these declarations.
    pub fn new(items: Vec<Decl>) -> Result<Decls, AllocError>
        ensures { IfOk result (λ d. d ≡ items.items) }
    {
        Ok(Decls {
            items: ArcSlice::from_vec(items)?,
        })
    }

    /// The declarations in their order.
    pub fn as_slice(&self) -> &[Decl]
        ensures { result.now ≡ self.now }
    {
        self.items.as_slice()
    }

    /// The same list for one more message. It takes no memory, and fails only where the count of owners is at its end, 2^63 - 1.
    pub fn copy(&self) -> Result<Decls, AllocError>
        ensures { IfOk result (λ d. d ≡ self.now) }
    {
        Ok(Decls {
            items: self.items.clone()?,
        })
    }
}
