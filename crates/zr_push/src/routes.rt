//! What a router remembers of the trees and keys of samples and requests, so that its tables are asked once a tree and key and not once a
//! message.

ghost use Rattle.std.specs.Prelude.{◌≡◌, ◌≤◌, ◌==◌, ◌&&◌};
ghost use Rattle.std.specs.BTreeMap.{btree_map_len};
ghost use Rattle.std.specs.Str.{bytes_eq};
ghost use Rattle.zr_id.specs.Zid.{is_named};
ghost use Rattle.zr_push_sought.specs.Sought.{sought_number};
ghost use Rattle.zr_push_sought.specs.declared.sought.Sought.{Sought};
ghost use Rattle.zr_push.specs.Route.{route_of};

use crate::route::Route;
use std::alloc::{AllocError, Global};
use std::collections::BTreeMap;
use zr_id::zid::Zid;
use zr_key::key::KeyExpr;
use zr_push_sought::sought::Sought;

/// How many routes are remembered at most. Messages may come on ever new keys, so there has to be a bound. With a thousand stops in
/// each, the routes take some 32 megabytes, or twice that with the room that a `Vec` keeps to grow in.
const MOST_ROUTES: usize = 4_096;

/// Where the mixing of bytes starts, and what it multiplies by (the FNV-1a hash of 64 bits).
const START: u64 = 0xcbf2_9ce4_8422_2325;

const FACTOR: u64 = 0x0100_0000_01b3;

/// A route, with the tree, what is sought and the key that it is of.
#[derive(Drop)]
pub struct Remembered {
    tree: Zid,
    sought: Sought,
    key: KeyExpr,
    route: Route,
}

impl Remembered {
    fn is_of(&self, tree: Zid, sought: Sought, key: &KeyExpr) -> bool
        ensures { result ≡ (is_named self.now.tree tree && (sought_number self.now.sought == sought_number sought && bytes_eq self.now.key key.now)) }
    {
        self.tree == tree
            && self.sought.number() == sought.number()
            && self.key.text() == key.text()
    }
}

/// The routes that are remembered.
#[derive(Drop)]
pub struct Routes {
    // by a number that is worked out from tree, what is sought and key: a hint, which is checked at the route
    known: BTreeMap<u64, Remembered>,
    ghost bounded: { btree_map_len known ≤ 4096 },
}

impl Routes {
    ghost use Rattle.std.specs.Prelude.{◌<◌, IfSome};
    ghost use Rattle.zr_node_spec.specs.Tables.{TableState};
    ghost use Rattle.zr_push.specs.Routes.{AreRoutes};

    /// Nothing is remembered.
    pub fn new(alloc: Global) -> Routes
        ensures { (t : TableState) → AreRoutes result t }
    {
        Routes {
            known: BTreeMap::new(alloc),
        }
    }

    /// Forgets all routes. It takes no memory, so it can't fail.
    pub fn forget(&mut self)
        ensures { (t : TableState) → AreRoutes self.new t }
    {
        self.known.clear();
    }

    /// The route in a tree to what is sought for a key, if it is remembered.
    pub fn find(&self, tree: Zid, sought: Sought, key: &KeyExpr) -> Option<&Route>
        ensures { (t : TableState) → AreRoutes self.now t → IfSome result (λ r. r.now ≡ route_of t tree sought key.now) }
    {
        let found = self.known.get(&number_of(tree, sought, key))?;
        if found.is_of(tree, sought, key) {
            Some(&found.route)
        } else {
            None
        }
    }

    /// Remembers the route in a tree to what is sought for a key. Where there is no room for it, all others are forgotten first.
    pub fn remember(
        &mut self,
        alloc: Global,
        tree: Zid,
        sought: Sought,
        key: &KeyExpr,
        route: Route,
    ) -> Result<(), AllocError>
        ensures { (t : TableState) → AreRoutes self.old t → route ≡ route_of t tree sought key.now → AreRoutes self.new t }
    {
        self.make_room();
        let number = number_of(tree, sought, key);
        let key = key.copy(alloc)?;
        let route = Remembered {
            tree,
            sought,
            key,
            route,
        };
        drop(self.known.insert(number, route)?); // another may have had the number
        Ok(())
    }

    // There is room for one more route.
    fn make_room(&mut self)
        ensures room { btree_map_len self.new.known < 4096 }
        ensures right { (t : TableState) → AreRoutes self.old t → AreRoutes self.new t }
    {
        if self.known.len() >= MOST_ROUTES {
            self.known.clear();
        }
    }
}

// A number for a tree, what is sought and a key. Others may have the same.
fn number_of(tree: Zid, sought: Sought, key: &KeyExpr) -> u64 {
    let start = mix(START, &[sought.number()]);
    mix(mix(start, tree.bytes()), key.text().as_bytes())
}

fn mix(mut number: u64, bytes: &[u8]) -> u64 {
    for byte in bytes {
        number = (number ^ *byte as u64).wrapping_mul(FACTOR);
    }
    number
}
