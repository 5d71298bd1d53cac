//! `Holders`: who has declared what, by the chunks of what was declared. So who has for a key is found without looking at all
//! declarations.

ghost use Rattle.std.specs.Prelude.{◌≡◌, ◌∷◌, [], List, IfSome};
ghost use Rattle.zr_push_sought.specs.Holders.{AreFound, HoldsJust, HoldJust};
ghost use Rattle.zr_push_sought.specs.Pairs.{Declared, declared_by, pairs_of};
ghost use Rattle.zr_push_sought.specs.Sought.{by_meeting};
ghost use Rattle.zr_push_sought.specs.declared.sought.Sought.{Sought};

use crate::found::Found;
use crate::kind_index::KindIndex;
use crate::sought::Sought;
use std::alloc::Global;
use zr_key::key::KeyExpr;
use zr_local::holder::Holder;
use zr_msg::decl::Decl;
use zr_node_spec::tables::TablesView;

/// Who has declared what, of the clients of a router and of the other routers: an index of subscriptions and one of queryables. Each is
/// there once it pays.
///
/// They are kept true by those who change what was declared: what stands at a place is taken before it changes, and what stands there
/// then is put. None of this fails for lack of memory.
#[derive(Drop)]
pub struct Holders {
    subscribers: KindIndex,
    queryables: KindIndex,
}

impl Holders {
    /// There is no index yet.
    pub fn new() -> Holders
        ensures { (xs : List Declared) → HoldJust xs result }
    {
        Holders {
            subscribers: KindIndex::new(),
            queryables: KindIndex::new(),
        }
    }

    /// Gives up both indexes. It takes no memory, so it can't fail.
    pub fn forget(&mut self)
        ensures { (xs : List Declared) → HoldJust xs self.new }
    {
        *self = Holders::new();
    }

    /// Someone has declared something more.
    pub fn put(&mut self, who: Holder, decl: &Decl)
        ensures { (xs : List Declared) → HoldJust xs self.old → HoldJust ((who, decl.now) ∷ xs) self.new }
    {
        self.subscribers.put(Sought::Subscribers, &who, decl);
        self.queryables.put(Sought::Queryables, &who, decl);
    }

    /// Something that someone has declared is gone.
    pub fn take(&mut self, who: Holder, decl: &Decl)
        ensures { (xs : List Declared) → HoldJust ((who, decl.now) ∷ xs) self.old → HoldJust xs self.new }
    {
        self.subscribers.take(Sought::Subscribers, &who, decl);
        self.queryables.take(Sought::Queryables, &who, decl);
    }

    /// Makes the index of what is sought, once enough searches went without it.
    pub fn prepare(&mut self, alloc: Global, tables: &TablesView, sought: Sought)
        requires { HoldJust (declared_by tables.now) self.old }
        ensures { HoldJust (declared_by tables.now) self.new }
    {
        match sought {
            Sought::Subscribers => self.prepare_subscribers(alloc, tables),
            Sought::Queryables | Sought::Complete => self.prepare_queryables(alloc, tables),
        }
    }

    fn prepare_subscribers(&mut self, alloc: Global, tables: &TablesView)
        requires { HoldJust (declared_by tables.now) self.old }
        ensures { HoldJust (declared_by tables.now) self.new }
    {
        if self.subscribers.is_due(tables) {
            self.subscribers = subscribers_of(alloc, tables);
        }
    }

    fn prepare_queryables(&mut self, alloc: Global, tables: &TablesView)
        requires { HoldJust (declared_by tables.now) self.old }
        ensures { HoldJust (declared_by tables.now) self.new }
    {
        if self.queryables.is_due(tables) {
            self.queryables = queryables_of(alloc, tables);
        }
    }

    /// Those whose declarations of a kind that is sought meet a key, if there is an index, and memory to read it.
    pub fn find(
        &self,
        alloc: Global,
        tables: &TablesView,
        sought: Sought,
        key: &KeyExpr,
    ) -> Option<Found>
        requires { HoldJust (declared_by tables.now) self.now }
        ensures { IfSome result (λ f. AreFound tables.now (by_meeting sought) key.now f) }
    {
        // Read, so that the proof knows that the logs are in order.
        let _in_order = tables.known().logs();
        match sought {
            Sought::Subscribers => self.subscribers.find(alloc, key),
            Sought::Queryables => self.queryables.find(alloc, key),
            Sought::Complete => self.queryables.find(alloc, key),
        }
    }

    // All that was declared is there.
    fn put_all(&mut self, tables: &TablesView)
        requires { HoldJust [] self.old }
        ensures { HoldJust (declared_by tables.now) self.new }
    {
        self.put_logs(tables.me(), tables.known().logs());
        self.put_rows(tables.local().rows());
    }
}

// The index of all subscriptions.
fn subscribers_of(alloc: Global, tables: &TablesView) -> KindIndex
    ensures { HoldsJust (pairs_of Sought.Subscribers (declared_by tables.now)) result.index }
{
    let mut holders = Holders {
        subscribers: KindIndex::empty(alloc),
        queryables: KindIndex::new(),
    };
    holders.put_all(tables);
    holders.subscribers
}

// The index of all queryables.
fn queryables_of(alloc: Global, tables: &TablesView) -> KindIndex
    ensures { HoldsJust (pairs_of Sought.Queryables (declared_by tables.now)) result.index }
{
    let mut holders = Holders {
        subscribers: KindIndex::new(),
        queryables: KindIndex::empty(alloc),
    };
    holders.put_all(tables);
    holders.queryables
}
