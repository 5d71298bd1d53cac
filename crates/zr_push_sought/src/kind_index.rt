//! `KindIndex`: who has declared something of a kind that is sought, by the chunks of what was declared, once that pays.

ghost use Rattle.std.specs.Prelude.{◌≡◌, ◌∷◌, ◌++◌, [], IfSome, OnOk};
ghost use Rattle.zr_index.specs.Meeting.{held, AreMeeting};
ghost use Rattle.zr_index.specs.Pairs.{Pairs, AreSame};
ghost use Rattle.zr_key.specs.Key.{chunks};
ghost use Rattle.zr_local.specs.Holders.{holder_cmp};
ghost use Rattle.zr_local.specs.declared.holder.Holder.{Holder};
ghost use Rattle.zr_push_sought.specs.Holders.{HoldsJust};
ghost use Rattle.zr_push_sought.specs.Pairs.{pair_of};

use crate::found::Found;
use crate::search::is_kind;
use crate::sought::Sought;
use std::alloc::{AllocError, Global};
use zr_index::index::Index;
use zr_key::key::KeyExpr;
use zr_local::holder::Holder;
use zr_msg::decl::Decl;
use zr_node_spec::tables::TablesView;

/// After so many searches all who have declared what is sought are put into an index. Each search looks at all declarations, and
/// together they cost about what the index does.
const SEARCHES_BEFORE_INDEX: u32 = 32;

/// Fewer declarations than these are looked at by each search. An index of them would save little time for its memory, which is over a
/// KiB for each.
const DECLARATIONS_BEFORE_INDEX: usize = 256;

/// Who has declared something of a kind that is sought. The index is made once, when enough searches went without it, and is kept true
/// from then on. Where there is no memory for it, it is given up until as many more were made.
pub struct KindIndex {
    // how many searches were made without the index
    searches: u32,
    index: Option<Index<Holder>>,
}

// Written out, so that it is proved here, and not by each crate that lets one go.
impl Drop for KindIndex {
    fn drop(self) {
        let Self {
            searches: _searches,
            index: _index,
        } = self;
    }
}

impl KindIndex {
    /// There is no index.
    pub(crate) fn new() -> KindIndex
        ensures { (ps : Pairs Holder) → HoldsJust ps result.index }
    {
        KindIndex {
            searches: 0,
            index: None,
        }
    }

    /// An index of nothing.
    pub(crate) fn empty(alloc: Global) -> KindIndex
        ensures { HoldsJust [] result.index }
    {
        KindIndex {
            searches: 0,
            index: Some(Index::new(alloc)),
        }
    }

    /// Someone has declared something more. It takes no memory of others: without memory the index is given up.
    pub(crate) fn put(&mut self, sought: Sought, who: &Holder, decl: &Decl)
        ensures { (ps : Pairs Holder) → HoldsJust ps self.old.index → HoldsJust (pair_of sought (who.now, decl.now) ++ ps) self.new.index }
    {
        if !is_kind(sought, decl.kind) {
            return;
        }
        match add_to(&mut self.index, &decl.key, who) {
            Ok(()) => {}
            Err(_) => {
                *self = KindIndex::new();
            }
        }
    }

    /// Something that someone has declared is gone.
    pub(crate) fn take(&mut self, sought: Sought, who: &Holder, decl: &Decl)
        ensures { (ps : Pairs Holder) → HoldsJust (pair_of sought (who.now, decl.now) ++ ps) self.old.index → HoldsJust ps self.new.index }
    {
        if is_kind(sought, decl.kind) {
            remove_from(&mut self.index, &decl.key, who);
        }
    }

    /// Whether the index is to be made: there is none, enough searches were made, and there are enough declarations. Where these are few,
    /// as many more searches are made first.
    pub(crate) fn is_due(&mut self, tables: &TablesView) -> bool
        ensures { (ps : Pairs Holder) → HoldsJust ps self.old.index → HoldsJust ps self.new.index }
    {
        if self.index.is_some() {
            return false;
        }
        if self.searches < SEARCHES_BEFORE_INDEX {
            self.searches += 1;
            return false;
        }
        self.searches = 0;
        are_many(tables)
    }

    /// Those whose declarations meet a key, if there is an index, and memory to read it.
    pub(crate) fn find(&self, alloc: Global, key: &KeyExpr) -> Option<Found>
        ensures { (ps : Pairs Holder) → HoldsJust ps self.now.index → IfSome result (λ f. AreMeeting holder_cmp key.now ps f.holders.items) }
    {
        match &self.index {
            Some(index) => found_in(alloc, index, key),
            None => None,
        }
    }
}

// Those whose declarations in an index meet a key, if there is memory to read it.
fn found_in(alloc: Global, index: &Index<Holder>, key: &KeyExpr) -> Option<Found>
    ensures { (ps : Pairs Holder) → AreSame (held index.now) ps → IfSome result (λ f. AreMeeting holder_cmp key.now ps f.holders.items) }
{
    match Found::of(alloc, index, key) {
        Ok(found) => Some(found),
        Err(_) => None,
    }
}

// Whether there are enough declarations for an index. It is only a guess of what a search costs: all kinds count, and a client's once
// more in the own log.
fn are_many(tables: &TablesView) -> bool {
    let mut count = tables.local().rows().len();
    for log in tables.known().logs() {
        count = count.saturating_add(log.decls.as_slice().len());
    }
    count >= DECLARATIONS_BEFORE_INDEX
}

fn add_to(index: &mut Option<Index<Holder>>, key: &KeyExpr, who: &Holder) -> Result<(), AllocError>
    ensures { (ps : Pairs Holder) → HoldsJust ps index.old → OnOk result (HoldsJust ((chunks key.now, who.now) ∷ ps) index.new) }
{
    match index {
        Some(index) => add(index, key, who),
        None => Ok(()),
    }
}

fn add(index: &mut Index<Holder>, key: &KeyExpr, who: &Holder) -> Result<(), AllocError>
    ensures { OnOk result (AreSame (held index.new) ((chunks key.now, who.now) ∷ held index.old)) }
{
    match index.add(key, *who) {
        Ok(()) => Ok(()),
        Err(_) => Err(AllocError),
    }
}

fn remove_from(index: &mut Option<Index<Holder>>, key: &KeyExpr, who: &Holder)
    ensures { (ps : Pairs Holder) → HoldsJust ((chunks key.now, who.now) ∷ ps) index.old → HoldsJust ps index.new }
{
    if let Some(index) = index {
        remove(index, key, who);
    }
}

fn remove(index: &mut Index<Holder>, key: &KeyExpr, who: &Holder)
    ensures { (ps : Pairs Holder) → AreSame (held index.old) ((chunks key.now, who.now) ∷ ps) → AreSame (held index.new) ps }
{
    index.remove(key, who);
}
