//! Sets of declarations: their order, and what they weigh.

use crate::row::{self, Fault, Steps};
use std::alloc::{AllocError, Global};
use zr_key::key::KeyExpr;
use zr_log_set::decl_set::DeclSet;
use zr_msg::decl::{Decl, Kind};

// What a set has at first: not in order, and one of them twice.
static ROWS: [(Kind, &str); 7] = [
    (Kind::Full, "a"),
    (Kind::Sub, "b"),
    (Kind::Sub, "a"),
    (Kind::Able, "a"),
    (Kind::Sub, "a/b"),
    (Kind::Sub, "b"),
    (Kind::Full, "*"),
];

/// What comes of the steps, and how many declarations the set has then.
pub fn answer(alloc: Global, words: &[&str]) -> Result<String, Fault> {
    let mut set = of_rows(alloc)?;
    let told = row::walk(alloc, &mut set, words)?;
    row::or_fault(with_count(alloc, &told, set.into_vec().len()))
}

fn with_count(alloc: Global, told: &str, count: usize) -> Result<String, AllocError> {
    format!(in alloc; "{told}{count} left")
}

/// A declaration of this kind on the key that a text spells.
pub fn declaration(alloc: Global, kind: Kind, text: &[u8]) -> Result<Decl, Fault> {
    let key = KeyExpr::read(alloc, text)?;
    Ok(Decl { kind, key })
}

fn of_rows(alloc: Global) -> Result<DeclSet, Fault> {
    let mut all = Vec::new(alloc);
    for (kind, text) in &ROWS {
        all.push(declaration(alloc, *kind, text.as_bytes())?)?;
    }
    Ok(DeclSet::of(alloc, all.as_slice())?)
}

fn order(alloc: Global, set: &DeclSet) -> Result<String, AllocError> {
    let mut out = String::new(alloc);
    for decl in set.as_slice() {
        out.push_str(&shown(alloc, decl)?)?;
    }
    Ok(out)
}

fn shown(alloc: Global, decl: &Decl) -> Result<String, AllocError> {
    let kind = decl.kind;
    format!(in alloc; "{kind:?} {}, ", decl.key.text())
}

// What a set weighs, what it weighs without a declaration, and whether it has it.
fn weights(set: &DeclSet, decl: &Decl) -> (u64, u64, bool) {
    (set.weight(), set.weight_without(decl), set.has(decl))
}

// The same, and again once the declaration is taken out.
fn taken(alloc: Global, set: &mut DeclSet, kind: Kind, text: &str) -> Result<String, Fault> {
    let decl = declaration(alloc, kind, text.as_bytes())?;
    let before = weights(set, &decl);
    set.remove(&decl);
    row::text(alloc, &(before, weights(set, &decl)))
}

impl Steps for DeclSet {
    fn step(&mut self, alloc: Global, parts: &[&str]) -> Result<String, Fault> {
        match row::word(parts, 0) {
            "order" => row::or_fault(order(alloc, self)),
            "sub" => taken(alloc, self, Kind::Sub, row::word(parts, 1)),
            "able" => taken(alloc, self, Kind::Able, row::word(parts, 1)),
            _ => Err(Fault::Row),
        }
    }
}
