//! The one spelling of a declaration or an interest that is written.

ghost use Rattle.std.specs.Prelude.{◌≡◌, ◌<◌, ◌∷◌, ◌++◌, Some, None, OnOk, OnErr};
ghost use Rattle.zr_bytes.specs.Number.{writes};
ghost use Rattle.zr_bytes.specs.Writing.{KeepsFront};
ghost use Rattle.zr_decl.specs.Writing.{Fits, writes_some, writes_declare, writes_keyed, writes_queryable, writes_complete, writes_undeclared, writes_final, writes_restriction, options_of, writes_interest, writes_end, writes_decl};

use crate::parts::{
    AGGREGATE, COMPLETE, D_FINAL, D_QUERYABLE, D_SUBSCRIBER, D_TOKEN, INFO, INTEREST, NAMED,
    RESTRICTED, U_QUERYABLE, U_SUBSCRIBER, U_TOKEN,
};
use std::alloc::AllocError;
use zr_bytes::{all_or_nothing, put_zint};
use zr_ext::{Content, Ext, write_chain};
use zr_format_spec::header::header_byte;
use zr_key::key::KeyExpr;
use zr_msg::msg::Msg;
use zr_wirekey::{DECLARE, write_key};

/// Appends a message that declares, tells or asks (Zenoh protocol 1.0, "DECLARE" and "INTEREST"). Keys are written whole. An interest has
/// kinds of four bits, and is in what is declared now or later. Where memory runs out nothing is appended.
pub fn write_decl(out: &mut Vec<u8>, msg: &Msg) -> Result<(), AllocError>
    requires { Fits msg.now }
    ensures ok { OnOk result (out.new.items ≡ out.old.items ++ writes_decl msg.now) }
    ensures err { OnErr result (out.new.items ≡ out.old.items) }
{
    let start = out.len();
    let put = put_decl(out, msg);
    all_or_nothing(out, start, put)
}

fn put_decl(out: &mut Vec<u8>, msg: &Msg) -> Result<(), AllocError>
    requires { Fits msg.now }
    ensures ok { OnOk result (out.new.items ≡ out.old.items ++ writes_decl msg.now) }
    ensures err { OnErr result (KeepsFront out.old.items out.new.items) }
{
    match msg {
        Msg::Sub { id, key } => put_keyed(out, None, D_SUBSCRIBER, *id, key),
        Msg::Unsub { id } => put_undeclared(out, U_SUBSCRIBER, *id),
        Msg::Token { id, key } => put_keyed(out, None, D_TOKEN, *id, key),
        Msg::Untoken { id } => put_undeclared(out, U_TOKEN, *id),
        Msg::Able { id, key, complete } => put_queryable(out, None, *id, key, *complete),
        Msg::Unable { id } => put_undeclared(out, U_QUERYABLE, *id),
        Msg::Interest {
            id,
            current,
            future,
            kinds,
            key,
            aggregate,
        } => put_interest(out, *id, *current, *future, kinds.0, key, *aggregate),
        Msg::EndInterest { id } => put_end(out, *id),
        Msg::ToldSub { id, key, interest } => put_keyed(out, *interest, D_SUBSCRIBER, *id, key),
        Msg::ToldToken { id, key, interest } => put_keyed(out, *interest, D_TOKEN, *id, key),
        Msg::ToldAble {
            id,
            key,
            complete,
            interest,
        } => put_queryable(out, *interest, *id, key, *complete),
        Msg::ToldUnsub { id } => put_undeclared(out, U_SUBSCRIBER, *id),
        Msg::ToldUntoken { id } => put_undeclared(out, U_TOKEN, *id),
        Msg::ToldUnable { id } => put_undeclared(out, U_QUERYABLE, *id),
        Msg::ToldEnd { interest } => put_final(out, *interest),
        Msg::Push { .. }
        | Msg::Request { .. }
        | Msg::Response { .. }
        | Msg::Final { .. }
        | Msg::State { .. }
        | Msg::Step { .. }
        | Msg::Snap { .. } => Ok(()),
    }
}

/// DECLARE, and the interest that it answers.
fn put_declare(out: &mut Vec<u8>, interest: Option<u32>) -> Result<(), AllocError>
    ensures ok { OnOk result (out.new.items ≡ out.old.items ++ writes_declare interest) }
    ensures err { OnErr result (KeepsFront out.old.items out.new.items) }
{
    out.push(header_byte(DECLARE, interest.is_some(), false, false))?;
    match interest {
        Some(interest) => put_zint(out, u64::from(interest)),
        None => Ok(()),
    }
}

/// A subscriber or a token.
fn put_keyed(
    out: &mut Vec<u8>,
    interest: Option<u32>,
    header: u8,
    id: u32,
    key: &KeyExpr,
) -> Result<(), AllocError>
    ensures ok { OnOk result (out.new.items ≡ out.old.items ++ (writes_declare interest ++ writes_keyed header id key.now)) }
    ensures err { OnErr result (KeepsFront out.old.items out.new.items) }
{
    let header = header_byte(header, true, false, false);
    put_declaration(out, interest, header, id)?;
    write_key(out, key, 0)
}

/// DECLARE with the interest that it answers, and the header and the id of what is declared.
fn put_declaration(
    out: &mut Vec<u8>,
    interest: Option<u32>,
    header: u8,
    id: u32,
) -> Result<(), AllocError>
    ensures ok { OnOk result (out.new.items ≡ out.old.items ++ (writes_declare interest ++ header ∷ writes id)) }
    ensures err { OnErr result (KeepsFront out.old.items out.new.items) }
{
    put_declare(out, interest)?;
    out.push(header)?;
    put_zint(out, u64::from(id))
}

fn put_queryable(
    out: &mut Vec<u8>,
    interest: Option<u32>,
    id: u32,
    key: &KeyExpr,
    complete: bool,
) -> Result<(), AllocError>
    ensures ok { OnOk result (out.new.items ≡ out.old.items ++ (writes_declare interest ++ writes_queryable id key.now complete)) }
    ensures err { OnErr result (KeepsFront out.old.items out.new.items) }
{
    let header = header_byte(D_QUERYABLE, true, false, complete);
    put_declaration(out, interest, header, id)?;
    write_key(out, key, 0)?;
    put_complete(out, complete)
}

/// The info of a complete queryable.
fn put_complete(out: &mut Vec<u8>, complete: bool) -> Result<(), AllocError>
    ensures ok { OnOk result (out.new.items ≡ out.old.items ++ writes_complete complete) }
    ensures err { OnErr result (out.new.items ≡ out.old.items) }
{
    if !complete {
        return Ok(());
    }
    let info = Ext {
        id: INFO,
        mandatory: false,
        content: Content::Number(COMPLETE),
    };
    write_chain(out, &[info])
}

fn put_undeclared(out: &mut Vec<u8>, header: u8, id: u32) -> Result<(), AllocError>
    ensures ok { OnOk result (out.new.items ≡ out.old.items ++ (writes_declare None ++ writes_undeclared header id)) }
    ensures err { OnErr result (KeepsFront out.old.items out.new.items) }
{
    put_declaration(out, None, header_byte(header, false, false, false), id)
}

fn put_final(out: &mut Vec<u8>, interest: u32) -> Result<(), AllocError>
    ensures ok { OnOk result (out.new.items ≡ out.old.items ++ (writes_declare (Some interest) ++ writes_final)) }
    ensures err { OnErr result (KeepsFront out.old.items out.new.items) }
{
    put_declare(out, Some(interest))?;
    Ok(out.push(header_byte(D_FINAL, false, false, false))?)
}

fn put_interest(
    out: &mut Vec<u8>,
    id: u32,
    current: bool,
    future: bool,
    kinds: u8,
    key: &Option<KeyExpr>,
    aggregate: bool,
) -> Result<(), AllocError>
    requires { kinds < 16 }
    ensures ok { OnOk result (out.new.items ≡ out.old.items ++ writes_interest id current future kinds key.now aggregate) }
    ensures err { OnErr result (KeepsFront out.old.items out.new.items) }
{
    out.push(header_byte(INTEREST, current, future, false))?;
    put_zint(out, u64::from(id))?;
    out.push(options(kinds, key.is_some(), aggregate))?;
    put_restriction(out, key)
}

fn options(kinds: u8, restricted: bool, aggregate: bool) -> u8
    requires { kinds < 16 }
    ensures { result ≡ options_of kinds restricted aggregate }
{
    let restricted = if restricted { RESTRICTED + NAMED } else { 0 };
    let aggregate = if aggregate { AGGREGATE } else { 0 };
    kinds + restricted + aggregate
}

/// The key that an interest is restricted to.
fn put_restriction(out: &mut Vec<u8>, key: &Option<KeyExpr>) -> Result<(), AllocError>
    ensures ok { OnOk result (out.new.items ≡ out.old.items ++ writes_restriction key.now) }
    ensures err { OnErr result (out.new.items ≡ out.old.items) }
{
    match key {
        Some(key) => write_key(out, key, 0),
        None => Ok(()),
    }
}

fn put_end(out: &mut Vec<u8>, id: u32) -> Result<(), AllocError>
    ensures ok { OnOk result (out.new.items ≡ out.old.items ++ writes_end id) }
    ensures err { OnErr result (KeepsFront out.old.items out.new.items) }
{
    out.push(header_byte(INTEREST, false, false, false))?;
    put_zint(out, u64::from(id))
}
