//! The text of a message, one form a variant.

ghost use Rattle.std.specs.Prelude.{◌≡◌, ◌++◌, ◌∷◌, codes, OnOk, OnErr};
ghost use Rattle.std.specs.Fmt.{decimal};
ghost use Rattle.std.specs.List.{flat_map};
ghost use Rattle.zr_body.specs.Latest.{is_latest, stamp_of};
ghost use Rattle.zr_body.specs.Payload.{payload_of};
ghost use Rattle.zr_msg.specs.Groups.{group_of};
ghost use Rattle.zr_script_spec.specs.Report.{id_text, optional_id_text, payload_text, interest_text, kinds_text, key_text, if_so, target_text, time_text, sign_text, linked_text, links_text, record_text, decl_text, msg_text};
ghost use Rattle.zr_bytes.specs.Writing.{KeepsFront};

use crate::part::{
    able_text, aggregate_text, kind_text, kinds_text, latest_text, mode_text, put_id, put_interest,
    put_key, put_named, put_number, put_numbered, put_payload, put_word, sign_text, target_text,
    told_able_text,
};
use std::alloc::AllocError;
use zr_body::{Body, latest, stamp};
use zr_id::record::{LinkRecord, Linked};
use zr_id::zid::Zid;
use zr_key::key::KeyExpr;
use zr_msg::content::Content;
use zr_msg::decl::Decl;
use zr_msg::msg::{Group, Kinds, Msg, Target};

/// Appends the text of a message.
pub fn put_msg(msg: &Msg, out: &mut Vec<u8>) -> Result<(), AllocError>
    ensures ok { OnOk result (out.new.items ≡ out.old.items ++ msg_text msg.now) }
    ensures err { OnErr result (KeepsFront out.old.items out.new.items) }
{
    match msg.group() {
        Group::Declared => put_declaration(msg, out),
        Group::Told => put_told_message(msg, out),
        Group::Routed => put_routed(msg, out),
        Group::Flooded => put_flooded(msg, out),
    }
}

fn put_declaration(msg: &Msg, out: &mut Vec<u8>) -> Result<(), AllocError>
    requires { group_of msg.now ≡ Group.Declared }
    ensures ok { OnOk result (out.new.items ≡ out.old.items ++ msg_text msg.now) }
    ensures err { OnErr result (KeepsFront out.old.items out.new.items) }
{
    match msg {
        Msg::Sub { id, key } => put_declared(b"sub", *id, key, out),
        Msg::Unsub { id } => put_under(b"unsub ", *id, out),
        Msg::Able { id, key, complete } => put_declared(able_text(*complete), *id, key, out),
        Msg::Unable { id } => put_under(b"unable ", *id, out),
        Msg::Token { id, key } => put_declared(b"token", *id, key, out),
        Msg::Untoken { id } => put_under(b"untoken ", *id, out),
        Msg::Interest {
            id,
            current,
            future,
            kinds,
            key,
            aggregate,
        } => put_asked(
            *id,
            mode_text(*current, *future),
            *kinds,
            key,
            *aggregate,
            out,
        ),
        Msg::EndInterest { id } => put_under(b"uninterest ", *id, out),
        _ => unreachable!(),
    }
}

fn put_told_message(msg: &Msg, out: &mut Vec<u8>) -> Result<(), AllocError>
    requires { group_of msg.now ≡ Group.Told }
    ensures ok { OnOk result (out.new.items ≡ out.old.items ++ msg_text msg.now) }
    ensures err { OnErr result (KeepsFront out.old.items out.new.items) }
{
    match msg {
        Msg::ToldSub { id, key, interest } => put_told(b"told sub", *id, key, *interest, out),
        Msg::ToldAble {
            id,
            key,
            complete,
            interest,
        } => put_told(told_able_text(*complete), *id, key, *interest, out),
        Msg::ToldUnsub { id } => put_under(b"told unsub ", *id, out),
        Msg::ToldUnable { id } => put_under(b"told unable ", *id, out),
        Msg::ToldToken { id, key, interest } => put_told(b"told token", *id, key, *interest, out),
        Msg::ToldUntoken { id } => put_under(b"told untoken ", *id, out),
        Msg::ToldEnd { interest } => put_under(b"told end ", *interest, out),
        _ => unreachable!(),
    }
}

fn put_routed(msg: &Msg, out: &mut Vec<u8>) -> Result<(), AllocError>
    requires { group_of msg.now ≡ Group.Routed }
    ensures ok { OnOk result (out.new.items ≡ out.old.items ++ msg_text msg.now) }
    ensures err { OnErr result (KeepsFront out.old.items out.new.items) }
{
    match msg {
        Msg::Push { tree, content } => put_sample(tree, content, out),
        Msg::Request {
            tree,
            id,
            target,
            content,
        } => put_request(tree, *id, *target, content, out),
        Msg::Response { id, content } => put_reply(*id, content, out),
        Msg::Final { id, .. } => put_under(b"final ", *id, out),
        _ => unreachable!(),
    }
}

fn put_flooded(msg: &Msg, out: &mut Vec<u8>) -> Result<(), AllocError>
    requires { group_of msg.now ≡ Group.Flooded }
    ensures ok { OnOk result (out.new.items ≡ out.old.items ++ msg_text msg.now) }
    ensures err { OnErr result (KeepsFront out.old.items out.new.items) }
{
    match msg {
        Msg::State { links } => put_record(links.get(), out),
        Msg::Step {
            source,
            number,
            added,
            decl,
        } => put_entry(source, *number, *added, decl.get(), out),
        Msg::Snap {
            source,
            number,
            decls,
        } => put_snapshot(source, *number, decls.as_slice(), out),
        _ => unreachable!(),
    }
}

// Some words, and the id or the number that stands behind them.
fn put_under(words: &[u8], id: u32, out: &mut Vec<u8>) -> Result<(), AllocError>
    ensures ok { OnOk result (out.new.items ≡ out.old.items ++ (words.now ++ decimal id)) }
    ensures err { OnErr result (KeepsFront out.old.items out.new.items) }
{
    put_numbered(words, u64::from(id), out)
}

fn put_declared(word: &[u8], id: u32, key: &KeyExpr, out: &mut Vec<u8>) -> Result<(), AllocError>
    ensures ok { OnOk result (out.new.items ≡ out.old.items ++ (word.now ++ codes " " ++ decimal id ++ codes " " ++ key.now)) }
    ensures err { OnErr result (KeepsFront out.old.items out.new.items) }
{
    out.extend_from_slice(word)?;
    put_under(b" ", id, out)?;
    put_word(key.text().as_bytes(), out)
}

fn put_asked(
    id: u32,
    mode: &[u8],
    kinds: Kinds,
    key: &Option<KeyExpr>,
    aggregate: bool,
    out: &mut Vec<u8>,
) -> Result<(), AllocError>
    ensures ok { OnOk result (out.new.items ≡ out.old.items ++ (codes "interest " ++ decimal id ++ codes " " ++ mode.now ++ codes " " ++ kinds_text kinds ++ codes " " ++ key_text key.now ++ if_so aggregate (codes "aggregate"))) }
    ensures err { OnErr result (KeepsFront out.old.items out.new.items) }
{
    put_terms(id, mode, kinds, out)?;
    put_key(key, out)?;
    out.extend_from_slice(aggregate_text(aggregate))
}

fn put_terms(id: u32, mode: &[u8], kinds: Kinds, out: &mut Vec<u8>) -> Result<(), AllocError>
    ensures ok { OnOk result (out.new.items ≡ out.old.items ++ (codes "interest " ++ decimal id ++ codes " " ++ mode.now ++ codes " " ++ kinds_text kinds ++ codes " ")) }
    ensures err { OnErr result (KeepsFront out.old.items out.new.items) }
{
    put_under(b"interest ", id, out)?;
    put_word(mode, out)?;
    put_word(kinds_text(kinds), out)?;
    out.extend_from_slice(b" ")
}

fn put_told(
    word: &[u8],
    id: u32,
    key: &KeyExpr,
    interest: Option<u32>,
    out: &mut Vec<u8>,
) -> Result<(), AllocError>
    ensures ok { OnOk result (out.new.items ≡ out.old.items ++ (word.now ++ codes " " ++ decimal id ++ codes " " ++ key.now ++ codes " " ++ interest_text interest)) }
    ensures err { OnErr result (KeepsFront out.old.items out.new.items) }
{
    put_declared(word, id, key, out)?;
    out.extend_from_slice(b" ")?;
    put_interest(interest, out)
}

fn put_sample(tree: &Option<Zid>, content: &Content, out: &mut Vec<u8>) -> Result<(), AllocError>
    ensures ok { OnOk result (out.new.items ≡ out.old.items ++ msg_text (Msg.Push tree.now content.now)) }
    ensures err { OnErr result (KeepsFront out.old.items out.new.items) }
{
    if content.body().is_del() {
        put_kind(b"del ", b"del - ", tree, out)?;
        out.extend_from_slice(content.key().text().as_bytes())
    } else {
        put_kind(b"put ", b"put - ", tree, out)?;
        put_content(content, out)
    }
}

// The word of a sample or a request and its tree, or both at once where it has no tree, with the space behind each.
fn put_kind(
    word: &[u8],
    alone: &[u8],
    tree: &Option<Zid>,
    out: &mut Vec<u8>,
) -> Result<(), AllocError>
    requires { alone.now ≡ word.now ++ codes "- " }
    ensures ok { OnOk result (out.new.items ≡ out.old.items ++ (word.now ++ optional_id_text tree.now ++ codes " ")) }
    ensures err { OnErr result (KeepsFront out.old.items out.new.items) }
{
    match tree {
        None => out.extend_from_slice(alone),
        Some(root) => {
            out.extend_from_slice(word)?;
            put_id(root, out)?;
            out.extend_from_slice(b" ")
        }
    }
}

fn put_content(content: &Content, out: &mut Vec<u8>) -> Result<(), AllocError>
    ensures ok { OnOk result (out.new.items ≡ out.old.items ++ (content.now.key ++ codes " " ++ payload_text (payload_of content.now.body))) }
    ensures err { OnErr result (KeepsFront out.old.items out.new.items) }
{
    out.extend_from_slice(content.key().text().as_bytes())?;
    out.extend_from_slice(b" ")?;
    put_payload(content.body().payload(), out)
}

fn put_request(
    tree: &Option<Zid>,
    id: u32,
    target: Target,
    content: &Content,
    out: &mut Vec<u8>,
) -> Result<(), AllocError>
    ensures ok { OnOk result (out.new.items ≡ out.old.items ++ (codes "get " ++ optional_id_text tree.now ++ codes " " ++ decimal id ++ codes " " ++ content.now.key ++ codes " " ++ target_text target ++ if_so (is_latest content.now.body) (codes "latest"))) }
    ensures err { OnErr result (KeepsFront out.old.items out.new.items) }
{
    put_kind(b"get ", b"get - ", tree, out)?;
    put_number(u64::from(id), out)?;
    put_word(content.key().text().as_bytes(), out)?;
    out.extend_from_slice(target_text(target))?;
    out.extend_from_slice(latest_text(latest(content.body())))
}

fn put_reply(id: u32, content: &Content, out: &mut Vec<u8>) -> Result<(), AllocError>
    ensures ok { OnOk result (out.new.items ≡ out.old.items ++ (codes "reply " ++ decimal id ++ codes " " ++ content.now.key ++ codes " " ++ payload_text (payload_of content.now.body) ++ time_text (stamp_of content.now.body))) }
    ensures err { OnErr result (KeepsFront out.old.items out.new.items) }
{
    put_under(b"reply ", id, out)?;
    out.extend_from_slice(b" ")?;
    put_content(content, out)?;
    put_time(content.body(), out)
}

// The time of a reply that has one, behind a space.
fn put_time(body: &Body, out: &mut Vec<u8>) -> Result<(), AllocError>
    ensures ok { OnOk result (out.new.items ≡ out.old.items ++ time_text (stamp_of body.now)) }
    ensures err { OnErr result (KeepsFront out.old.items out.new.items) }
{
    match stamp(body) {
        None => Ok(()),
        Some(stamp) => put_numbered(b" ", stamp.time, out),
    }
}

/// Appends a link record.
pub fn put_record(state: &LinkRecord, out: &mut Vec<u8>) -> Result<(), AllocError>
    ensures ok { OnOk result (out.new.items ≡ out.old.items ++ record_text state.now) }
    ensures err { OnErr result (KeepsFront out.old.items out.new.items) }
{
    put_named(b"record ", &state.id(), out)?;
    put_numbered(b" ", state.seq(), out)?;
    out.extend_from_slice(b" ")?;
    put_links(state.links(), out)
}

/// Appends the links of a record, parted by commas; `-` where there are none.
pub fn put_links(links: &[Linked], out: &mut Vec<u8>) -> Result<(), AllocError>
    ensures ok { OnOk result (out.new.items ≡ out.old.items ++ links_text links.now) }
    ensures err { OnErr result (KeepsFront out.old.items out.new.items) }
{
    match links {
        [] => out.extend_from_slice(b"-"),
        [first, others @ ..] => {
            put_link(first, out)?;
            put_others(others, out)
        }
    }
}

fn put_others(links: &[Linked], out: &mut Vec<u8>) -> Result<(), AllocError>
    ensures ok { OnOk result (out.new.items ≡ out.old.items ++ flat_map (λ link. 44 ∷ linked_text link) links.now) }
    ensures err { OnErr result (KeepsFront out.old.items out.new.items) }
{
    for link in links {
        out.extend_from_slice(b",")?;
        put_link(link, out)?;
    }
    Ok(())
}

// A link of a record, with its weight where that isn't 1.
fn put_link(link: &Linked, out: &mut Vec<u8>) -> Result<(), AllocError>
    ensures ok { OnOk result (out.new.items ≡ out.old.items ++ linked_text link.now) }
    ensures err { OnErr result (KeepsFront out.old.items out.new.items) }
{
    put_id(&link.id, out)?;
    if link.weight == 1 {
        Ok(())
    } else {
        put_numbered(b":", u64::from(link.weight), out)
    }
}

fn put_entry(
    source: &Zid,
    number: u64,
    added: bool,
    decl: &Decl,
    out: &mut Vec<u8>,
) -> Result<(), AllocError>
    ensures ok { OnOk result (out.new.items ≡ out.old.items ++ (codes "entry " ++ id_text source.now ++ codes " " ++ decimal number ++ codes " " ++ sign_text added ++ decl_text decl.now)) }
    ensures err { OnErr result (KeepsFront out.old.items out.new.items) }
{
    put_named(b"entry ", source, out)?;
    put_numbered(b" ", number, out)?;
    out.extend_from_slice(sign_text(added))?;
    put_decl(decl, out)
}

fn put_snapshot(
    source: &Zid,
    number: u64,
    decls: &[Decl],
    out: &mut Vec<u8>,
) -> Result<(), AllocError>
    ensures ok { OnOk result (out.new.items ≡ out.old.items ++ (codes "snap " ++ id_text source.now ++ codes " " ++ decimal number ++ flat_map decl_text decls.now)) }
    ensures err { OnErr result (KeepsFront out.old.items out.new.items) }
{
    put_named(b"snap ", source, out)?;
    put_numbered(b" ", number, out)?;
    put_decls(decls, out)
}

/// Several declarations, each behind a space.
pub fn put_decls(decls: &[Decl], out: &mut Vec<u8>) -> Result<(), AllocError>
    ensures ok { OnOk result (out.new.items ≡ out.old.items ++ flat_map decl_text decls.now) }
    ensures err { OnErr result (KeepsFront out.old.items out.new.items) }
{
    for decl in decls {
        put_decl(decl, out)?;
    }
    Ok(())
}

fn put_decl(decl: &Decl, out: &mut Vec<u8>) -> Result<(), AllocError>
    ensures ok { OnOk result (out.new.items ≡ out.old.items ++ decl_text decl.now) }
    ensures err { OnErr result (KeepsFront out.old.items out.new.items) }
{
    out.extend_from_slice(kind_text(decl.kind))?;
    out.extend_from_slice(decl.key.text().as_bytes())
}
