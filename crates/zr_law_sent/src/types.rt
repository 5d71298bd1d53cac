//! What the types of a message's parts keep: told once, so that a sender need not know them.

ghost use Rattle.std.specs.Prelude.{◌≡◌, ◌^◌, nat_lt, true};
ghost use Rattle.std.specs.List.{list_all};
ghost use Rattle.zr_decl.specs.Writing.{IsId, IsKey, IsSomeId, IsSomeKey};
ghost use Rattle.zr_net.specs.Writing.{NumberFits, NumbersFit};
ghost use Rattle.zr_oam.specs.Writing.{IsMade, is_decl, is_linked};
ghost use Rattle.zr_id.specs.Zid.{is_zid};
ghost use Rattle.zr_law_sent.specs.Passing.{IsOfTypes, IsSomeZid};
ghost use Rattle.zr_msg.specs.declared.msg.Msg.TheVariants.{State};

use zr_id::record::{LinkRecord, Linked};
use zr_id::zid::Zid;
use zr_key::key::KeyExpr;
use zr_msg::content::Content;
use zr_msg::decl::Decl;
use zr_msg::extras::Extras;
use zr_msg::msg::Msg;

/// Ids are of 32 bits and numbers of 64. Keys are texts of expressions. Identifiers and records are as their types keep them.
pub fn of_types(msg: &Msg)
    ensures { IsOfTypes msg.now }
{
    match msg {
        Msg::Sub { id, key } | Msg::Token { id, key } | Msg::Able { id, key, .. } => {
            of_declared(*id, key)
        }
        Msg::Unsub { id }
        | Msg::Untoken { id }
        | Msg::Unable { id }
        | Msg::EndInterest { id }
        | Msg::ToldUnsub { id }
        | Msg::ToldUntoken { id }
        | Msg::ToldUnable { id }
        | Msg::ToldEnd { interest: id } => of_id(*id),
        Msg::Interest { id, key, .. } => of_interest(*id, key),
        Msg::ToldSub { id, key, interest }
        | Msg::ToldToken { id, key, interest }
        | Msg::ToldAble {
            id,
            key,
            interest,
            ..
        } => of_told(*id, key, *interest),
        Msg::Push { tree, content } => of_push(tree, content),
        Msg::Request {
            tree,
            id,
            content,
            ..
        } => of_request(tree, *id, content),
        Msg::Response { id, content } => of_response(*id, content),
        Msg::Final { id, extras } => of_final(*id, extras.get()),
        Msg::State { links } => of_record(links.get()),
        Msg::Step { source, decl, .. } => of_step(source, decl.get()),
        Msg::Snap { source, decls, .. } => of_snapshot(source, decls.as_slice()),
    }
}

fn of_declared(id: u32, key: &KeyExpr)
    ensures id { IsId id }
    ensures key { IsKey key.now }
{
    of_id(id);
    of_key(key);
}

fn of_interest(id: u32, key: &Option<KeyExpr>)
    ensures id { IsId id }
    ensures key { IsSomeKey key.now }
{
    of_id(id);
    of_some_key(key);
}

fn of_told(id: u32, key: &KeyExpr, interest: Option<u32>)
    ensures id { IsId id }
    ensures key { IsKey key.now }
    ensures interest { IsSomeId interest }
{
    of_declared(id, key);
    of_some_id(interest);
}

fn of_push(tree: &Option<Zid>, content: &Content)
    ensures tree { IsSomeZid tree.now }
    ensures numbers { NumbersFit content.now.extras }
    ensures key { IsKey content.now.key }
{
    of_some_zid(tree);
    of_content(content);
}

fn of_request(tree: &Option<Zid>, id: u32, content: &Content)
    ensures tree { IsSomeZid tree.now }
    ensures id { IsId id }
    ensures numbers { NumbersFit content.now.extras }
    ensures key { IsKey content.now.key }
{
    of_push(tree, content);
    of_id(id);
}

fn of_response(id: u32, content: &Content)
    ensures id { IsId id }
    ensures numbers { NumbersFit content.now.extras }
    ensures key { IsKey content.now.key }
{
    of_content(content);
    of_id(id);
}

fn of_final(id: u32, extras: &Extras)
    ensures id { IsId id }
    ensures numbers { NumbersFit extras.now }
{
    of_numbers(extras);
    of_id(id);
}

fn of_step(source: &Zid, decl: &Decl)
    ensures source { is_zid source.now ≡ true }
    ensures decl { is_decl decl.now ≡ true }
{
    of_zid(source);
    of_decl(decl);
}

fn of_snapshot(source: &Zid, decls: &[Decl])
    ensures source { is_zid source.now ≡ true }
    ensures decls { list_all is_decl decls.now ≡ true }
{
    of_zid(source);
    of_decls(decls);
}

fn of_id(id: u32)
    ensures { IsId id }
{
    // Read, so that the proof knows that it fits in 32 bits.
    let _ = id;
}

fn of_some_id(id: Option<u32>)
    ensures { IsSomeId id }
{
    if let Some(id) = id {
        of_id(id);
    }
}

#[tactic(auto, using(crate::proofs::Keys::text_is_key))]
fn of_key(key: &KeyExpr)
    ensures { IsKey key.now }
{
    // Read, so that the proof knows that the text is one of a key.
    let _ = key.text();
}

fn of_some_key(key: &Option<KeyExpr>)
    ensures { IsSomeKey key.now }
{
    if let Some(key) = key {
        of_key(key);
    }
}

fn of_zid(id: &Zid)
    ensures { is_zid id.now ≡ true }
{
    // Read, so that the proof knows that they are an identifier's.
    let _ = id.bytes();
}

fn of_some_zid(id: &Option<Zid>)
    ensures { IsSomeZid id.now }
{
    if let Some(id) = id {
        of_zid(id);
    }
}

fn of_number(number: Option<u64>)
    ensures { NumberFits number }
{
    if let Some(number) = number {
        // Read, so that the proof knows that it fits in 64 bits.
        let _ = number;
    }
}

fn of_numbers(extras: &Extras)
    ensures { NumbersFit extras.now }
{
    of_number(extras.qos);
    of_number(extras.budget);
    of_number(extras.timeout);
}

fn of_content(content: &Content)
    ensures numbers { NumbersFit content.now.extras }
    ensures key { IsKey content.now.key }
{
    of_numbers(content.extras());
    of_key(content.key());
}

fn of_linked(link: &Linked)
    ensures { is_linked link.now ≡ true }
{
    of_zid(&link.id);
    of_weight(link.weight);
}

fn of_weight(weight: u16)
    ensures { nat_lt weight (2 ^ 16) ≡ true }
{
    // Read, so that the proof knows that it fits in 16 bits.
    let _ = weight;
}

fn of_links(links: &[Linked])
    ensures { list_all is_linked links.now ≡ true }
{
    for link in links {
        of_linked(link);
    }
}

fn of_record(links: &LinkRecord)
    ensures { IsMade (State links.now) }
{
    of_zid(&links.id());
    of_links(links.links());
}

#[tactic(auto, using(crate::proofs::Keys::text_is_canonical))]
fn of_decl(decl: &Decl)
    ensures { is_decl decl.now ≡ true }
{
    // Read, so that the proof knows that the text is one of a key.
    let _ = decl.key.text();
}

fn of_decls(decls: &[Decl])
    ensures { list_all is_decl decls.now ≡ true }
{
    for decl in decls {
        of_decl(decl);
    }
}
