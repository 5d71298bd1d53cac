//! `Node`: a tree of chunks.

ghost use Rattle.std.specs.Prelude.{◌≡◌, ◌∷◌, [], ℕ, ◌+◌, ◌≤◌, ◌||◌, List, length, true, false, OnOk, IfErr, IfOk};
ghost use Rattle.std.specs.List.{sum_by, position};
ghost use Rattle.std.specs.Option.{option_copied};
ghost use Rattle.zr_lists.specs.Cut.{parts};
ghost use Rattle.zr_key.specs.Expression.{Chunk};
ghost use Rattle.zr_key.specs.Key.{chunks};
ghost use Rattle.zr_match.specs.Row.{IsRowFor, IsRowBehind};
ghost use Rattle.zr_index.specs.Pairs.{pairs, AreSame, weigh_below, TakesOne, TakesBelow, TakesValue};
ghost use Rattle.zr_index.specs.Walk.{is_among, finds, finds_plain, finds_wild, finds_at, seeks_plain};

use std::alloc::{AllocError, Global};
use std::collections::BTreeMap;
use zr_key::key::KeyExpr;
use zr_lists::cut;
use zr_match::row::{Row, is_any_chunks, is_plain};

/// A place in the tree: the values of the keys that end here, and what is below it by the next chunk of a key.
#[derive(Drop)]
pub struct Node<V: Drop> {
    values: Vec<V>,
    // by chunks without a wildcard
    plain: BTreeMap<Vec<u8>, Node<V>>,
    // by `*`, `**` and chunks with `$*`
    wild: BTreeMap<Vec<u8>, Node<V>>,
}

impl<V: Drop + Copy + Ord> Node<V> {
    /// A tree of no pairs.
    pub fn new(alloc: Global) -> Node<V>
        ensures { pairs result ≡ [] }
    {
        Node {
            values: Vec::new(alloc),
            plain: BTreeMap::new(alloc),
            wild: BTreeMap::new(alloc),
        }
    }

    /// One pair more, by the chunks that are left of its key.
    #[cycle(adding)]
    pub fn add(&mut self, alloc: Global, rest: Option<&[u8]>, value: V) -> Result<(), V>
        ensures added { OnOk result (AreSame (pairs self.new) ((parts 47 (option_copied rest.entry), value) ∷ pairs self.old)) }
        ensures refused { IfErr result (λ back. (back ≡ value) × AreSame (pairs self.new) (pairs self.old)) }
    {
        match rest {
            None => add_value(&mut self.values, value),
            Some(text) => {
                let (chunk, more) = cut(text, b'/');
                if is_plain(chunk) {
                    add_below(&mut self.plain, alloc, chunk, more, value)
                } else {
                    add_below(&mut self.wild, alloc, chunk, more, value)
                }
            }
        }
    }

    /// One pair less, by the chunks that are left of its key, where it was there.
    #[cycle(removing)]
    pub fn remove(&mut self, rest: Option<&[u8]>, value: &V) -> bool
        ensures { TakesOne V.eq (parts 47 (option_copied rest.entry)) value.now (pairs self.old) (pairs self.new) result }
    {
        match rest {
            None => remove_value(&mut self.values, value),
            Some(text) => {
                let (chunk, more) = cut(text, b'/');
                if is_plain(chunk) {
                    remove_below(&mut self.plain, chunk, more, value)
                } else {
                    remove_below(&mut self.wild, chunk, more, value)
                }
            }
        }
    }

    fn is_empty(&self) -> bool
        ensures { result ≡ true → pairs self.now ≡ [] }
    {
        self.values.is_empty() && self.plain.is_empty() && self.wild.is_empty()
    }

    /// Appends the values of the pairs that meet a key, by the row of the chunks in front of the tree. They come in no order, and may come twice.
    #[cycle(gathering)]
    pub fn gather(
        &self,
        alloc: Global,
        key: &KeyExpr,
        row: &Row,
        out: &mut Vec<V>,
    ) -> Result<(), AllocError>
        requires { IsRowFor key.now row.now }
        ensures { OnOk result ((above : List Chunk) → IsRowBehind above key.now row.now → (v : V) → is_among V.cmp out.new.items v ≡ (is_among V.cmp out.old.items v || finds V.cmp above key.now (pairs self.now) v)) }
    {
        if row.is_blank() {
            return Ok(());
        }
        if row.meets() {
            put_all(&self.values, out)?;
        }
        if seeks_plain(key, row) {
            self.gather_sought(alloc, key, row, out)?;
        } else {
            self.gather_plain(alloc, key, row, out)?;
        }
        self.gather_wild(alloc, key, row, out)
    }

    // Of the children without a wildcard only those of the marked chunks of the key.
    #[cycle(gathering)]
    fn gather_sought(
        &self,
        alloc: Global,
        key: &KeyExpr,
        row: &Row,
        out: &mut Vec<V>,
    ) -> Result<(), AllocError>
        requires row { IsRowFor key.now row.now }
        requires sought { seeks_plain row.now.marks.items 0 (chunks key.now) ≡ true }
        ensures { OnOk result ((above : List Chunk) → IsRowBehind above key.now row.now → (v : V) → is_among V.cmp out.new.items v ≡ (is_among V.cmp out.old.items v || finds_plain V.cmp above key.now self.now v)) }
    {
        // Read, so that the proof knows that the chunks ascend.
        let _ascends = self.plain.len();
        let mut at = 0;
        let mut rest = Some(key.text().as_bytes());
        while let Some(text) = rest {
            let (chunk, more) = cut(text, b'/');
            if row.is_marked(at) {
                self.gather_at(alloc, chunk, key, row, out)?;
            }
            at += 1;
            rest = more;
        }
        Ok(())
    }

    #[cycle(gathering)]
    fn gather_at(
        &self,
        alloc: Global,
        chunk: &[u8],
        key: &KeyExpr,
        row: &Row,
        out: &mut Vec<V>,
    ) -> Result<(), AllocError>
        requires { IsRowFor key.now row.now }
        ensures { OnOk result ((above : List Chunk) → IsRowBehind above key.now row.now → (v : V) → is_among V.cmp out.new.items v ≡ (is_among V.cmp out.old.items v || finds_at V.cmp above key.now self.now chunk.now v)) }
    {
        match self.plain.get(chunk) {
            None => Ok(()),
            Some(child) => {
                let next = row.next(alloc, chunk, key)?;
                child.gather(alloc, key, &next, out)
            }
        }
    }

    #[cycle(gathering)]
    fn gather_plain(
        &self,
        alloc: Global,
        key: &KeyExpr,
        row: &Row,
        out: &mut Vec<V>,
    ) -> Result<(), AllocError>
        requires { IsRowFor key.now row.now }
        ensures { OnOk result ((above : List Chunk) → IsRowBehind above key.now row.now → (v : V) → is_among V.cmp out.new.items v ≡ (is_among V.cmp out.old.items v || finds_plain V.cmp above key.now self.now v)) }
    {
        for (chunk, child) in &self.plain {
            if is_plain(chunk) {
                let next = row.next(alloc, chunk, key)?;
                child.gather(alloc, key, &next, out)?;
            }
        }
        Ok(())
    }

    #[cycle(gathering)]
    fn gather_wild(
        &self,
        alloc: Global,
        key: &KeyExpr,
        row: &Row,
        out: &mut Vec<V>,
    ) -> Result<(), AllocError>
        requires { IsRowFor key.now row.now }
        ensures { OnOk result ((above : List Chunk) → IsRowBehind above key.now row.now → (v : V) → is_among V.cmp out.new.items v ≡ (is_among V.cmp out.old.items v || finds_wild V.cmp above key.now self.now v)) }
    {
        for (chunk, child) in &self.wild {
            if !is_plain(chunk) {
                let next = row.next(alloc, chunk, key)?;
                child.gather(alloc, key, &next, out)?;
            }
        }
        Ok(())
    }
}

// One pair more below a chunk.
#[cycle(adding)]
fn add_below<V: Drop + Copy + Ord>(
    children: &mut BTreeMap<Vec<u8>, Node<V>>,
    alloc: Global,
    chunk: &[u8],
    rest: Option<&[u8]>,
    value: V,
) -> Result<(), V>
    ensures added { OnOk result ((f : List ℕ → List (List ℕ) × V → ℕ) → weigh_below (λ k. f k.items) children.new.entries ≡ f chunk.now (parts 47 (option_copied rest.entry), value) + weigh_below (λ k. f k.items) children.old.entries) }
    ensures refused { IfErr result (λ back. (back ≡ value) × ((f : List ℕ → List (List ℕ) × V → ℕ) → weigh_below (λ k. f k.items) children.new.entries ≡ weigh_below (λ k. f k.items) children.old.entries)) }
{
    if let Some(child) = children.get_mut(chunk) {
        return child.add(alloc, rest, value);
    }
    let mut child = Node::new(alloc);
    child.add(alloc, rest, value)?;
    let Ok(name) = Vec::from_slice(alloc, chunk) else {
        return Err(value);
    };
    if children.insert(name, child).is_err() {
        return Err(value);
    }
    Ok(())
}

// One pair less below a chunk, where it was there.
#[cycle(removing)]
fn remove_below<V: Drop + Copy + Ord>(
    children: &mut BTreeMap<Vec<u8>, Node<V>>,
    chunk: &[u8],
    rest: Option<&[u8]>,
    value: &V,
) -> bool
    ensures { TakesBelow (λ k. k.items) V.eq chunk.now (parts 47 (option_copied rest.entry)) value.now children.old.entries children.new.entries result }
{
    let Some(child) = children.get_mut(chunk) else {
        return false;
    };
    let was_there = child.remove(rest, value);
    if child.is_empty() {
        children.remove(chunk);
    }
    was_there
}

// One value more, in order among the others, so that `meeting` finds those of one place in order. No proof rests on that order.
fn add_value<V: Drop + Copy + Ord>(values: &mut Vec<V>, value: V) -> Result<(), V>
    ensures added { OnOk result ((f : V → ℕ) → sum_by f values.new.items ≡ f value + sum_by f values.old.items) }
    ensures refused { IfErr result (λ back. (back ≡ value) × (values.new.items ≡ values.old.items)) }
{
    let place = place_for(values, &value);
    if values.insert(place, value).is_err() {
        return Err(value);
    }
    Ok(())
}

fn place_for<V: Drop + Copy + Ord>(values: &[V], value: &V) -> usize
    ensures { result ≤ length values.now }
{
    match values.binary_search(value) {
        Ok(place) => place,
        Err(place) => place,
    }
}

// One value less. The others keep their order.
fn remove_value<V: Drop + Copy + Ord>(values: &mut Vec<V>, value: &V) -> bool
    ensures { TakesValue V.eq value.now values.old.items values.new.items result }
{
    let Some(place) = place_of(values, value) else {
        return false;
    };
    values.remove(place);
    true
}

fn place_of<V: Drop + Copy + Ord>(values: &[V], value: &V) -> Option<usize>
    ensures { result ≡ position (λ w. V.eq w value.now) values.now }
{
    values.iter().position(|v| v == value)
}

fn put_all<V: Drop + Copy + Ord>(values: &[V], out: &mut Vec<V>) -> Result<(), AllocError>
    ensures { OnOk result ((v : V) → is_among V.cmp out.new.items v ≡ (is_among V.cmp out.old.items v || is_among V.cmp values.now v)) }
{
    out.extend_from_slice(values)
}

// Whether the marked chunks of a key are plain, and no other is `**`.
fn seeks_plain(key: &KeyExpr, row: &Row) -> bool
    requires { IsRowFor key.now row.now }
    ensures { result ≡ seeks_plain row.now.marks.items 0 (chunks key.now) }
{
    let mut at = 0;
    let mut rest = Some(key.text().as_bytes());
    while let Some(text) = rest {
        let (chunk, more) = cut(text, b'/');
        if !is_plain(chunk) && (row.is_marked(at) || is_any_chunks(chunk)) {
            return false;
        }
        at += 1;
        rest = more;
    }
    true
}
