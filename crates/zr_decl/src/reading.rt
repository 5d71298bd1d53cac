//! Reading a declaration.

ghost use Rattle.std.specs.Prelude.{◌≡◌, ◌+◌, ◌++◌, ◌^◌, nat_le, length, IfOk};
ghost use Rattle.zr_bytes.specs.Flag.{has_flag};
ghost use Rattle.zr_bytes.specs.Reading.{Keeps, Steps, number_below};
ghost use Rattle.zr_format_spec.specs.Reading.{optional_of, exts_of};
ghost use Rattle.zr_decl.specs.Declare.{says_complete, content_odd, message_exts, info_ext, undeclared_ext};
ghost use Rattle.zr_decl.specs.Reading.{wire_key_of, number_of, text_of, keyexpr_of, undeclared_keyexpr_of, subscriber_of, queryable_of, token_of, undeclared_of, unsubscriber_of, unqueryable_of, untoken_of, final_of, declaration_of, declare_of, message_of, declared_of};
ghost use Rattle.zr_decl.specs.Writing.{ToldFits};

use crate::declared::Declared;
use crate::parts::{
    ANSWERS, D_FINAL, D_QUERYABLE, D_SUBSCRIBER, D_TOKEN, INFO, MAPPING, MOST_TEXT, NAMED, NODE_ID,
    QOS, TIMESTAMP, U_KEYEXPR, U_QUERYABLE, U_SUBSCRIBER, U_TOKEN, UNDECLARED_KEY,
};
use std::alloc::{AllocError, Global};
use zr_bytes::{ByteString, Cursor, ReadError};
use zr_ext::{Content, Ext, Form};
use zr_format_spec::header::ID;
use zr_format_spec::read_extensions;
use zr_key::key::KeyExpr;
use zr_msg::msg::Msg;
use zr_wirekey::{D_KEYEXPR, DECLARE, Scopes, read_key, read_parts};

/// The declaration at the front (Zenoh protocol 1.0, "DECLARE"), of a sender that declared `theirs` to a receiver that declared `ours`. An
/// interest that it answers is passed over. `Ignored` is for the end of what an interest asked for. What was told can be written.
pub fn read_decl(
    alloc: Global,
    c: &mut Cursor<'_>,
    theirs: &Scopes,
    ours: &Scopes,
) -> Result<Declared, ReadError>
    ensures value { Keeps (λ d. d) result (declared_of theirs.now ours.now c.old) c.old c.new }
    ensures fits { IfOk result (λ d. ToldFits d) }
{
    let mut ahead = c.fork();
    let declared = declared(alloc, &mut ahead, theirs, ours)?;
    *c = ahead;
    Ok(declared)
}

#[tactic(auto, unfolding(crate::specs::Reading::declared_of))]
fn declared(
    alloc: Global,
    c: &mut Cursor<'_>,
    theirs: &Scopes,
    ours: &Scopes,
) -> Result<Declared, ReadError>
    ensures { Steps (λ d. d) result (declared_of theirs.now ours.now c.old) c.new }
{
    let (declared, _) = message(alloc, c, theirs, ours)?;
    Ok(declared)
}

#[tactic(auto, unfolding(crate::specs::Reading::message_of))]
fn message(
    alloc: Global,
    c: &mut Cursor<'_>,
    theirs: &Scopes,
    ours: &Scopes,
) -> Result<(Declared, Option<u32>), ReadError>
    ensures { Steps (λ d. d) result (message_of theirs.now ours.now c.old) c.new }
{
    let header = c.u8()?;
    if header & ID == DECLARE {
        read_declare(alloc, c, theirs, ours, header)
    } else {
        Err(ReadError::UnknownId)
    }
}

/// What follows the header of a DECLARE, and the interest that it answers. After a refusal the cursor may stand anywhere.
#[tactic(auto, unfolding(crate::specs::Reading::declare_of))]
pub fn read_declare(
    alloc: Global,
    c: &mut Cursor<'_>,
    theirs: &Scopes,
    ours: &Scopes,
    header: u8,
) -> Result<(Declared, Option<u32>), ReadError>
    ensures { Steps (λ d. d) result (declare_of theirs.now ours.now header c.old) c.new }
{
    let interest = interest(c, header & ANSWERS != 0)?;
    message_extensions(alloc, c, header)?;
    let inner = c.u8()?;
    let declared = declaration(alloc, c, theirs, ours, inner)?;
    Ok((declared, interest))
}

/// The interest that is answered.
fn interest(c: &mut Cursor<'_>, has: bool) -> Result<Option<u32>, ReadError>
    ensures { Steps (λ i. i) result (optional_of has (number_below (2 ^ 32)) c.old) c.new }
{
    if has { Ok(Some(c.z32()?)) } else { Ok(None) }
}

/// The extensions of a DECLARE or an INTEREST. None of them is passed on.
pub(crate) fn message_extensions(
    alloc: Global,
    c: &mut Cursor<'_>,
    header: u8,
) -> Result<Vec<Ext>, ReadError>
    ensures { Steps (λ exts. exts.items) result (exts_of message_exts header c.old) c.new }
{
    let known = [
        (QOS, Form::Number),
        (TIMESTAMP, Form::Bytes),
        (NODE_ID, Form::Number),
    ];
    read_extensions(alloc, c, header, &known)
}

#[tactic(auto, unfolding(crate::specs::Reading::declaration_of))]
fn declaration(
    alloc: Global,
    c: &mut Cursor<'_>,
    theirs: &Scopes,
    ours: &Scopes,
    header: u8,
) -> Result<Declared, ReadError>
    ensures { Steps (λ d. d) result (declaration_of theirs.now ours.now header c.old) c.new }
{
    match header & ID {
        D_KEYEXPR => keyexpr(alloc, c, theirs, header),
        U_KEYEXPR => undeclared_keyexpr(alloc, c, header),
        D_SUBSCRIBER => subscriber(alloc, c, theirs, ours, header),
        U_SUBSCRIBER => unsubscriber(alloc, c, header),
        D_QUERYABLE => queryable(alloc, c, theirs, ours, header),
        U_QUERYABLE => unqueryable(alloc, c, header),
        D_TOKEN => token(alloc, c, theirs, ours, header),
        U_TOKEN => untoken(alloc, c, header),
        D_FINAL => last(alloc, c, header),
        _ => Err(ReadError::UnknownId),
    }
}

#[tactic(auto, unfolding(crate::specs::Reading::keyexpr_of))]
fn keyexpr(
    alloc: Global,
    c: &mut Cursor<'_>,
    theirs: &Scopes,
    header: u8,
) -> Result<Declared, ReadError>
    ensures { Steps (λ d. d) result (keyexpr_of theirs.now header c.old) c.new }
{
    let number = number(c)?;
    let (scope, suffix) = text(c, theirs, header)?;
    read_extensions(alloc, c, header, &[])?;
    let text = joined(alloc, scope, suffix)?;
    Ok(Declared::Number(number, text))
}

fn joined(alloc: Global, scope: &[u8], suffix: &[u8]) -> Result<ByteString, AllocError>
    ensures { IfOk result (λ text. text ≡ scope.now ++ suffix.now) }
{
    let mut text = scope.to_vec(alloc)?;
    text.extend_from_slice(suffix)?;
    Ok(ByteString::new(text))
}

/// A number that may stand for a text: 0 stands for the empty one.
#[tactic(auto, unfolding(crate::specs::Reading::number_of))]
fn number(c: &mut Cursor<'_>) -> Result<u16, ReadError>
    ensures { Steps (λ n. n) result (number_of c.old) c.new }
{
    let number = c.z16()?;
    if number == 0 {
        return Err(ReadError::BadText);
    }
    Ok(number)
}

/// The text of a scope and the suffix, not too long together.
#[tactic(auto, unfolding(crate::specs::Reading::text_of))]
fn text<'s, 'c>(
    c: &mut Cursor<'c>,
    theirs: &'s Scopes,
    header: u8,
) -> Result<(&'s [u8], &'c [u8]), ReadError>
    ensures { Steps (λ x. (x.0.now, x.1.now)) result (text_of theirs.now header c.old) c.new }
{
    let (scope, suffix) = read_parts(c, header & NAMED != 0, theirs)?;
    if !is_short(scope, suffix) {
        return Err(ReadError::BadKey);
    }
    Ok((scope, suffix))
}

fn is_short(scope: &[u8], suffix: &[u8]) -> bool
    ensures { result ≡ nat_le (length scope.now + length suffix.now) 2048 }
{
    scope.len() + suffix.len() <= MOST_TEXT
}

#[tactic(auto, unfolding(crate::specs::Reading::undeclared_keyexpr_of))]
fn undeclared_keyexpr(alloc: Global, c: &mut Cursor<'_>, header: u8) -> Result<Declared, ReadError>
    ensures { Steps (λ d. d) result (undeclared_keyexpr_of header c.old) c.new }
{
    let number = c.z16()?;
    read_extensions(alloc, c, header, &[])?;
    Ok(Declared::Unnumber(number))
}

#[tactic(auto, unfolding(crate::specs::Reading::subscriber_of))]
fn subscriber(
    alloc: Global,
    c: &mut Cursor<'_>,
    theirs: &Scopes,
    ours: &Scopes,
    header: u8,
) -> Result<Declared, ReadError>
    ensures { Steps (λ d. d) result (subscriber_of theirs.now ours.now header c.old) c.new }
{
    let id = c.z32()?;
    let key = read_wire_key(alloc, c, theirs, ours, header)?;
    read_extensions(alloc, c, header, &[(INFO, Form::Number)])?;
    Ok(Declared::Told(Msg::Sub { id, key }))
}

#[tactic(auto, unfolding(crate::specs::Reading::queryable_of))]
fn queryable(
    alloc: Global,
    c: &mut Cursor<'_>,
    theirs: &Scopes,
    ours: &Scopes,
    header: u8,
) -> Result<Declared, ReadError>
    ensures { Steps (λ d. d) result (queryable_of theirs.now ours.now header c.old) c.new }
{
    let id = c.z32()?;
    let key = read_wire_key(alloc, c, theirs, ours, header)?;
    let exts = read_extensions(alloc, c, header, &[(INFO, Form::Number)])?;
    Ok(Declared::Told(Msg::Able {
        id,
        key,
        complete: says_complete(&exts),
    }))
}

/// Whether the info of a queryable says that it is complete: bit 0.
fn says_complete(exts: &[Ext]) -> bool
    ensures { result ≡ says_complete exts.now }
{
    match exts {
        [ext, ..] => is_odd(&ext.content),
        [] => false,
    }
}

fn is_odd(content: &Content) -> bool
    ensures { result ≡ content_odd content.now }
{
    match content {
        Content::Number(value) => value % 2 == 1,
        Content::Unit | Content::Bytes(_) => false,
    }
}

#[tactic(auto, unfolding(crate::specs::Reading::token_of))]
fn token(
    alloc: Global,
    c: &mut Cursor<'_>,
    theirs: &Scopes,
    ours: &Scopes,
    header: u8,
) -> Result<Declared, ReadError>
    ensures { Steps (λ d. d) result (token_of theirs.now ours.now header c.old) c.new }
{
    let id = c.z32()?;
    let key = read_wire_key(alloc, c, theirs, ours, header)?;
    read_extensions(alloc, c, header, &[])?;
    Ok(Declared::Told(Msg::Token { id, key }))
}

/// The key of a message or of a declaration, by its header, or of an interest, by its options. After a refusal the cursor may stand anywhere.
#[tactic(auto, unfolding(crate::specs::Reading::wire_key_of))]
pub fn read_wire_key(
    alloc: Global,
    c: &mut Cursor<'_>,
    theirs: &Scopes,
    ours: &Scopes,
    header: u8,
) -> Result<KeyExpr, ReadError>
    ensures { Steps (λ key. key) result (wire_key_of theirs.now ours.now header c.old) c.new }
{
    read_key(
        alloc,
        c,
        header & NAMED != 0,
        header & MAPPING != 0,
        theirs,
        ours,
    )
}

#[tactic(auto, unfolding(crate::specs::Reading::unsubscriber_of))]
fn unsubscriber(alloc: Global, c: &mut Cursor<'_>, header: u8) -> Result<Declared, ReadError>
    ensures { Steps (λ d. d) result (unsubscriber_of header c.old) c.new }
{
    let id = undeclared(alloc, c, header)?;
    Ok(Declared::Told(Msg::Unsub { id }))
}

#[tactic(auto, unfolding(crate::specs::Reading::unqueryable_of))]
fn unqueryable(alloc: Global, c: &mut Cursor<'_>, header: u8) -> Result<Declared, ReadError>
    ensures { Steps (λ d. d) result (unqueryable_of header c.old) c.new }
{
    let id = undeclared(alloc, c, header)?;
    Ok(Declared::Told(Msg::Unable { id }))
}

#[tactic(auto, unfolding(crate::specs::Reading::untoken_of))]
fn untoken(alloc: Global, c: &mut Cursor<'_>, header: u8) -> Result<Declared, ReadError>
    ensures { Steps (λ d. d) result (untoken_of header c.old) c.new }
{
    let id = undeclared(alloc, c, header)?;
    Ok(Declared::Told(Msg::Untoken { id }))
}

/// The id of what is undeclared. Its key may follow as an extension, and is ignored.
#[tactic(auto, unfolding(crate::specs::Reading::undeclared_of))]
fn undeclared(alloc: Global, c: &mut Cursor<'_>, header: u8) -> Result<u32, ReadError>
    ensures { Steps (λ id. id) result (undeclared_of header c.old) c.new }
{
    let id = c.z32()?;
    read_extensions(alloc, c, header, &[(UNDECLARED_KEY, Form::Bytes)])?;
    Ok(id)
}

/// The end of what an interest asked for.
#[tactic(auto, unfolding(crate::specs::Reading::final_of))]
fn last(alloc: Global, c: &mut Cursor<'_>, header: u8) -> Result<Declared, ReadError>
    ensures { Steps (λ d. d) result (final_of header c.old) c.new }
{
    read_extensions(alloc, c, header, &[])?;
    Ok(Declared::Ignored)
}
