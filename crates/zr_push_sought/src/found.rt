//! `Found`: who has declared what is sought for a key.

ghost use Rattle.std.specs.Prelude.{◌≡◌, IfOk};
ghost use Rattle.std.proofs.lemmas.Map.Keys.{IsStrictlySortedBy-prop};
ghost use Rattle.zr_index.specs.Meeting.{held, AreMeeting};
ghost use Rattle.zr_lists.specs.Ascending.{IsAscending};
ghost use Rattle.zr_lists.specs.Place.{IsPlace};
ghost use Rattle.zr_local.specs.Holders.{holder_cmp};
ghost use Rattle.zr_push_sought.specs.Found.{has_holder};

use std::alloc::{AllocError, Global};
use zr_index::index::Index;
use zr_key::key::KeyExpr;
use zr_local::holder::Holder;

/// Who has declared what is sought for a key: clients by the numbers of their links, and other routers.
#[derive(Drop)]
pub struct Found {
    holders: Vec<Holder>,
    ghost ascend: { IsAscending holder_cmp (λ h. h) holders.items } by { IsStrictlySortedBy-prop holder_cmp holders.items },
}

impl Found {
    /// Those whose declarations in an index meet a key.
    pub(crate) fn of(
        alloc: Global,
        index: &Index<Holder>,
        key: &KeyExpr,
    ) -> Result<Found, AllocError>
        ensures { IfOk result (λ f. AreMeeting holder_cmp key.now (held index.now) f.holders.items) }
    {
        let mut holders = Vec::new(alloc);
        index.meeting(key, &mut holders)?;
        Ok(Found { holders })
    }

    /// Whether someone is among them.
    pub fn has(&self, who: &Holder) -> bool
        ensures { result ≡ has_holder self.now.holders.items who.now }
    {
        place_of(&self.holders, who).is_ok()
    }
}

fn place_of(holders: &[Holder], who: &Holder) -> Result<usize, usize>
    requires { IsAscending holder_cmp (λ h. h) holders.now }
    ensures { IsPlace holder_cmp (λ h. h) holders.now who.now result }
{
    holders.binary_search(who)
}
