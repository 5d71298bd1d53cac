//! `Tally`: tokens and what is alive of them.

ghost use Rattle.std.specs.Prelude.{◌≡◌, ◌++◌, ℕ, List, [], if◌then◌else◌, IfOk, OnOk, OnErr};
ghost use Rattle.std.specs.BTreeSet.{insert_key};
ghost use Rattle.std.specs.Cmp.Lexicographic.{slice_cmp};
ghost use Rattle.std.specs.List.{position};
ghost use Rattle.std.specs.Option.{option_copied};
ghost use Rattle.std.specs.Ordering.{nat_cmp};
ghost use Rattle.zr_id.specs.Zid.{is_named};
ghost use Rattle.zr_lists.specs.Prefix.{IsPrefixBehind};
ghost use Rattle.zr_token.specs.Tally.{has_pair, with_pair, without_pair, is_pair, reaches, counts, is_alive, alive};

use crate::owner::Owner;
use crate::pair::Pair;
use crate::text::Text;
use std::alloc::{AllocError, Global};
use std::collections::BTreeSet;
use std::marker::Model;
use zr_id::link::LinkNo;
use zr_id::zid::Zid;
use zr_key::key::KeyExpr;
use zr_match::meets;

/// Pairs of an owner and a key, each as often as it was added and not removed, and the routers that are reached.
#[derive(Drop)]
pub struct Tally {
    pairs: Vec<Pair>,
    reached: BTreeSet<Zid>,
    alloc: Global,
}

impl Model for Tally {
    ghost use Rattle.zr_token.specs.Tally.{TallyState};

    ghost Value = { TallyState };

    ghost view = { λ t. record { pairs = t.pairs.items; reached = t.reached.keys } };
}

impl Tally {
    /// No tokens, and no router that is reached. It takes no memory.
    pub fn new(alloc: Global) -> Tally
        ensures { result ≡ record { pairs = []; reached = [] } }
    {
        Tally {
            pairs: Vec::new(alloc),
            reached: BTreeSet::new(alloc),
            alloc,
        }
    }

    /// One pair more. Out of memory leaves it as it was. Cost: a copy of the key.
    pub fn add(&mut self, owner: Owner, key: &KeyExpr) -> Result<(), AllocError>
        ensures ok { OnOk result (self.new ≡ with_pair self.old owner key.now) }
        ensures err { OnErr result (self.new ≡ self.old) }
    {
        let pair = Pair::new(self.alloc, owner, key)?;
        self.pairs.push(pair)?;
        Ok(())
    }

    /// One pair less, where it was there: one copy of it goes. Else nothing changes. Cost: a look at the pairs.
    pub fn remove(&mut self, owner: Owner, key: &KeyExpr) -> bool
        ensures was { result ≡ has_pair self.old owner key.now }
        ensures now { self.new ≡ without_pair self.old owner key.now }
    {
        let Some(at) = place_of(&self.pairs, owner, key) else {
            return false;
        };
        self.pairs.remove(at);
        true
    }

    /// A router is reached, or is no longer. Out of memory leaves it as it was.
    pub fn reach(&mut self, source: Zid, reached: bool) -> Result<(), AllocError>
        ensures pairs { self.new.pairs ≡ self.old.pairs }
        ensures ok { OnOk result ((s : List ℕ) → reaches self.new s ≡ (if is_named s source then reached else reaches self.old s)) }
        ensures err { OnErr result (self.new ≡ self.old) }
    {
        if reached {
            self.reached.insert(source)?;
        } else {
            self.reached.remove(&source);
        }
        Ok(())
    }

    /// Appends the keys that are alive for the client of a link: those that meet a key, or all where none is given, and that another client
    /// declared or a router that is reached. They ascend by their bytes, each once. Out of memory appends nothing.
    pub fn alive(
        &self,
        but: LinkNo,
        key: Option<&KeyExpr>,
        out: &mut Vec<KeyExpr>,
    ) -> Result<(), AllocError>
        ensures ok { OnOk result (out.new.items ≡ out.old.items ++ alive self.now but.0 (option_copied key.entry)) }
        ensures err { OnErr result (out.new.items ≡ out.old.items) }
    {
        let before = out.len();
        let result = self.append(but, key, out);
        if result.is_err() {
            out.truncate(before);
        }
        result
    }

    // Out of memory it appends a part of them.
    fn append(
        &self,
        but: LinkNo,
        key: Option<&KeyExpr>,
        out: &mut Vec<KeyExpr>,
    ) -> Result<(), AllocError>
        ensures ok { OnOk result (out.new.items ≡ out.old.items ++ alive self.now but.0 (option_copied key.entry)) }
        ensures err { OnErr result (IsPrefixBehind out.old.items (alive self.now but.0 (option_copied key.entry)) out.new.items) }
    {
        let texts = self.gather(but, key)?;
        put_keys(texts, out)
    }

    fn gather(&self, but: LinkNo, key: Option<&KeyExpr>) -> Result<BTreeSet<Text>, AllocError>
        ensures { IfOk result (λ s. s.keys ≡ alive self.now but.0 (option_copied key.entry)) }
    {
        let mut texts = BTreeSet::new(self.alloc);
        for pair in &self.pairs {
            if self.is_alive(but, key, pair) {
                put_key(self.alloc, &pair.key, &mut texts)?;
            }
        }
        Ok(texts)
    }

    fn is_alive(&self, but: LinkNo, key: Option<&KeyExpr>, pair: &Pair) -> bool
        ensures { result ≡ is_alive self.now but.0 (option_copied key.entry) pair.now }
    {
        self.counts(but, pair.owner) && key.is_none_or(|key| meets(&pair.key, key))
    }

    fn counts(&self, but: LinkNo, owner: Owner) -> bool
        ensures { result ≡ counts self.now but.0 owner }
    {
        match owner {
            Owner::Client(link) => link.0 != but.0,
            Owner::Source(source) => self.reached.contains(&source),
        }
    }
}

// Where a copy of a pair stands.
fn place_of(pairs: &[Pair], owner: Owner, key: &KeyExpr) -> Option<usize>
    ensures { result ≡ position (is_pair owner key.now) pairs.now }
{
    pairs.iter().position(|pair| pair.is(owner, key))
}

fn put_key(alloc: Global, key: &KeyExpr, texts: &mut BTreeSet<Text>) -> Result<(), AllocError>
    ensures { OnOk result (texts.new.keys ≡ insert_key (slice_cmp nat_cmp) texts.old.keys key.now) }
{
    texts.insert(Text {
        key: key.copy(alloc)?,
    })?;
    Ok(())
}

fn put_keys(texts: BTreeSet<Text>, out: &mut Vec<KeyExpr>) -> Result<(), AllocError>
    ensures ok { OnOk result (out.new.items ≡ out.old.items ++ texts.keys) }
    ensures err { OnErr result (IsPrefixBehind out.old.items texts.keys out.new.items) }
{
    for text in texts {
        let Text { key } = text;
        out.push(key)?;
    }
    Ok(())
}
