//! `Interested`: which clients may have an interest in what was declared.

ghost use Rattle.std.specs.Prelude.{◌≡◌, List, IfOk, IfSome, map};
ghost use Rattle.zr_local.specs.Clients.{AreByLink, client_link};
ghost use Rattle.zr_local.specs.declared.interest.ClientInterests.{ClientInterests};
ghost use Rattle.zr_told_interested.specs.Among.{AreFound};
ghost use Rattle.zr_told_spec.specs.declared.place.Place.{Place};

use crate::by_key::ByKey;
use std::alloc::{AllocError, Global};
use zr_local::interest::ClientInterests;
use zr_told_spec::place::Place;

/// After so many looks at the same interests they are put into an index. Each look goes through all of them, and together they cost about
/// what the index does. So interests that change often get none.
const LOOKS_BEFORE_INDEX: u32 = 16;

/// The looks for those with an interest in what was declared, by the same live interests of the clients of a router.
pub struct Interested {
    // how many there were before the index
    made: u32,
    by_key: Option<ByKey>,
}

// Written out, so that it is proved here, and not by each crate that lets one go.
impl Drop for Interested {
    fn drop(self) {
        let Self {
            made: _made,
            by_key: _by_key,
        } = self;
    }
}

impl Interested {
    ghost use Rattle.zr_told_interested.specs.ByKey.{IsOf};

    /// Nothing is known of any interests. It takes no memory.
    pub fn new() -> Interested
        ensures { (cs : List ClientInterests) → IsOf cs result }
    {
        Interested {
            made: 0,
            by_key: None,
        }
    }

    /// Forgets what was found out: interests change. It takes no memory, so it can't fail.
    pub fn clear(&mut self)
        ensures { (cs : List ClientInterests) → IsOf cs self.new }
    {
        *self = Interested::new();
    }

    /// The numbers of the links, in ascending order, of the clients that may have an interest in what is declared at one of these places: each
    /// that has one is among them. `clients` have all live interests, by link.
    pub fn find(
        &mut self,
        alloc: Global,
        clients: &[ClientInterests],
        places: &[Place],
    ) -> Result<Vec<u32>, AllocError>
        requires by_link { AreByLink clients.now }
        requires same { IsOf clients.now self.old }
        ensures same { IsOf clients.now self.new }
        ensures found { IfOk result (λ v. AreFound places.now v.items clients.now) }
    {
        self.prepare(alloc, clients);
        match &self.by_key {
            Some(by_key) => by_key.find(alloc, places),
            None => links_of(alloc, clients),
        }
    }

    // Makes the index, once enough looks were made. Where there is no memory for it, as many more are made first.
    fn prepare(&mut self, alloc: Global, clients: &[ClientInterests])
        requires { IsOf clients.now self.old }
        ensures { IsOf clients.now self.new }
    {
        if self.by_key.is_some() {
            return;
        }
        if self.made < LOOKS_BEFORE_INDEX {
            self.made += 1;
            return;
        }
        self.made = 0;
        self.by_key = ByKey::of(alloc, clients).ok();
    }
}

// Those of all clients.
fn links_of(alloc: Global, clients: &[ClientInterests]) -> Result<Vec<u32>, AllocError>
    requires { AreByLink clients.now }
    ensures { IfOk result (λ v. (qs : List Place) → AreFound qs v.items clients.now) }
{
    numbers_of(alloc, clients)
}

fn numbers_of(alloc: Global, clients: &[ClientInterests]) -> Result<Vec<u32>, AllocError>
    ensures { IfOk result (λ v. v.items ≡ map client_link clients.now) }
{
    let mut links = Vec::with_capacity(alloc, clients.len())?;
    for client in clients {
        links.push(client.link.0)?;
    }
    Ok(links)
}
