//! Lists of routers by number, and which is the last one of each router.

ghost use Rattle.std.specs.Prelude.{◌≡◌, ◌<◌, Some, IfOk, length, slice_get};
ghost use Rattle.zr_tree_parents.specs.Lists.{OnlyAdds};

use std::alloc::{AllocError, Global};
use std::marker::Model;
use zr_id::record::Zids;
use zr_id::zid::Zid;

/// The lists of all trees.
#[derive(Drop)]
pub struct Lists {
    lists: Vec<Zids>,
    // the number of the last list of each router
    last: Vec<u32>,
}

impl Model for Lists {
    ghost use Rattle.std.specs.Prelude.{length};
    ghost use Rattle.zr_tree_parents.specs.Lists.{ListsState, AreLists};

    ghost Value = { ListsState };

    ghost view = { λ l. record { lists = l.lists.items; routers = length l.last.items } };

    ghost invariant = { λ l. AreLists l.lists.items l.last.items };
}

impl Lists {
    /// No list but an empty one, for so many routers.
    pub fn new(alloc: Global, routers: usize) -> Result<Lists, AllocError>
        ensures { IfOk result (λ l. l.routers ≡ routers) }
    {
        Ok(Lists {
            lists: vec![in alloc; Zids::new(Vec::new(alloc))]?,
            last: vec![in alloc; 0; routers]?,
        })
    }

    /// The number of the last list of this router.
    pub fn last(&self, router: usize) -> u32
        requires { router < self.now.routers }
        ensures { result < length self.now.lists }
    {
        self.last[router]
    }

    /// Keeps a list of this router, which is its last one now, and tells its number.
    pub fn add(&mut self, router: usize, list: Vec<Zid>) -> Result<u32, AllocError>
        requires { router < self.old.routers }
        ensures found { IfOk result (λ number. slice_get self.new.lists number ≡ Some list.items) }
        ensures kept { OnlyAdds self.old.lists self.new.lists }
        ensures routers { self.new.routers ≡ self.old.routers }
    {
        let number = self.lists.len();
        if number > u32::MAX as usize {
            return Err(AllocError);
        }
        self.lists.push(Zids::new(list))?;
        self.last[router] = number as u32;
        Ok(number as u32)
    }

    /// The list of this number.
    pub fn get(&self, number: u32) -> &[Zid]
        requires { number < length self.now.lists }
        ensures { slice_get self.now.lists number ≡ Some result.now }
    {
        self.lists[number as usize].as_slice()
    }
}
