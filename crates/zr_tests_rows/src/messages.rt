//! Network messages, declarations and messages between routers: which bytes are read as which, which are refused, and how messages are
//! written. They come from a sender that declared `a/b` as 1.

ghost use Rattle.zr_decl.specs.Writing.{Fits};

use crate::keys::declared;
use crate::row::{self, Fault};
use crate::texts;
use std::alloc::{AllocError, Global};
use zr_body::Body;
use zr_bytes::{Cursor, ReadError};
use zr_decl::{Declared, read_decl, read_interest, write_decl};
use zr_id::zid::Zid;
use zr_key::key::KeyExpr;
use zr_msg::content::Content;
use zr_msg::decl::{Decl, Kind};
use zr_msg::extras::Extras;
use zr_msg::msg::Msg;
use zr_msg::peer::Role;
use zr_msg::shared::Shared;
use zr_net::{read_net, write_net};
use zr_oam::{read_oam, write_oam};
use zr_wirekey::Scopes;

pub fn answer(alloc: Global, words: &[&str]) -> Result<String, Fault> {
    match row::word(words, 0) {
        "cut" => cut(alloc, words),
        "told" => told(alloc, kind_of(row::word(words, 1))?),
        "push" => push(alloc, row::parsed(words, 1)?),
        "entry" => entry(alloc, kind_of(row::word(words, 1))?),
        word => shown(alloc, word, &row::bytes(alloc, words, 1)?),
    }
}

fn kind_of(word: &str) -> Result<Kind, Fault> {
    match word {
        "sub" => Ok(Kind::Sub),
        "token" => Ok(Kind::Token),
        _ => Err(Fault::Row),
    }
}

// What bytes are read as by the call of this name: as a declaration, an interest, a message between routers, or what a router or a client may
// send.
fn read(
    alloc: Global,
    sort: &str,
    c: &mut Cursor<'_>,
    theirs: &Scopes,
) -> Result<Declared, ReadError> {
    let ours = Scopes::new(alloc);
    read_by(alloc, sort, c, theirs, &ours)
}

fn read_by(
    alloc: Global,
    sort: &str,
    c: &mut Cursor<'_>,
    theirs: &Scopes,
    ours: &Scopes,
) -> Result<Declared, ReadError> {
    match sort {
        "declaration" => read_decl(alloc, c, theirs, ours),
        "interest" => interest(read_interest(alloc, c, theirs, ours)),
        "between-routers" => between_routers(alloc, c),
        "of-router" => read_net(alloc, c, theirs, ours, Role::Router),
        "of-client" => read_net(alloc, c, theirs, ours, Role::Client),
        _ => Err(ReadError::UnknownId),
    }
}

fn interest(read: Result<Msg, ReadError>) -> Result<Declared, ReadError> {
    match read {
        Ok(msg) => Ok(Declared::Told(msg)),
        Err(e) => Err(e),
    }
}

fn between_routers(alloc: Global, c: &mut Cursor<'_>) -> Result<Declared, ReadError> {
    match read_oam(alloc, c)? {
        Some(msg) => Ok(Declared::Told(msg)),
        None => Ok(Declared::Ignored),
    }
}

// What the bytes are read as, and how many are left.
fn shown(alloc: Global, sort: &str, bytes: &[u8]) -> Result<String, Fault> {
    let theirs = declared(alloc)?;
    row::or_fault(shown_of(alloc, sort, bytes, &theirs))
}

fn shown_of(
    alloc: Global,
    sort: &str,
    bytes: &[u8],
    theirs: &Scopes,
) -> Result<String, AllocError> {
    let mut c = Cursor::new(bytes);
    let text = text_of(alloc, sort, &mut c, theirs)?;
    format!(in alloc; "{text}, left {}", c.left())
}

fn text_of(
    alloc: Global,
    sort: &str,
    c: &mut Cursor<'_>,
    theirs: &Scopes,
) -> Result<String, AllocError> {
    let read = read(alloc, sort, c, theirs);
    let text = texts::read(alloc, &read);
    drop(read);
    text
}

// How many bytes the first beginning has that is not refused as short.
fn cut(alloc: Global, words: &[&str]) -> Result<String, Fault> {
    let bytes = row::bytes(alloc, words, 2)?;
    let theirs = declared(alloc)?;
    let whole = first_whole(alloc, row::word(words, 1), &bytes, &theirs);
    row::text(alloc, &whole)
}

fn first_whole(alloc: Global, sort: &str, bytes: &[u8], theirs: &Scopes) -> Option<usize> {
    for end in 0..bytes.len() {
        if !is_short(alloc, sort, &bytes[..end], theirs) {
            return Some(end);
        }
    }
    None
}

fn is_short(alloc: Global, sort: &str, bytes: &[u8], theirs: &Scopes) -> bool {
    let read = read(alloc, sort, &mut Cursor::new(bytes), theirs);
    let is_short = matches!(&read, Err(ReadError::Short));
    drop(read);
    is_short
}

// A subscriber or a token in answer to an interest, and the end of the answers.
fn told(alloc: Global, kind: Kind) -> Result<String, Fault> {
    let key = KeyExpr::read(alloc, b"a/b")?;
    let mut out = Vec::new(alloc);
    put_told(&mut out, kind, key)?;
    put_end(&mut out)?;
    row::or_fault(row::digits(alloc, &out))
}

fn put_end(out: &mut Vec<u8>) -> Result<(), AllocError> {
    let msg = Msg::ToldEnd { interest: 1 };
    let written = write_decl(out, &msg);
    drop(msg);
    written
}

fn put_told(out: &mut Vec<u8>, kind: Kind, key: KeyExpr) -> Result<(), AllocError> {
    let msg = told_of(kind, key);
    let written = write_decl(out, &msg);
    drop(msg);
    written
}

fn told_of(kind: Kind, key: KeyExpr) -> Msg
    ensures { Fits result }
{
    let (id, interest) = (1, Some(1));
    match kind {
        Kind::Token => Msg::ToldToken { id, key, interest },
        Kind::Sub | Kind::Able | Kind::Full => Msg::ToldSub { id, key, interest },
    }
}

// The value `hi` on `a/b`, for which a number may stand.
fn push(alloc: Global, number: u16) -> Result<String, Fault> {
    let key = KeyExpr::read(alloc, b"a/b")?;
    let mut out = Vec::new(alloc);
    put_push(alloc, &mut out, key, number)?;
    row::or_fault(row::digits(alloc, &out))
}

fn put_push(alloc: Global, out: &mut Vec<u8>, key: KeyExpr, number: u16) -> Result<(), AllocError> {
    let body = Body::put(alloc, b"hi")?;
    let content = Content::new(alloc, key, Extras::none(), body)?;
    let msg = Msg::Push {
        tree: None,
        content,
    };
    let written = write_net(out, &msg, number);
    drop(msg);
    written
}

// The first entry of 02, which adds the subscriber or the token `a`.
fn entry(alloc: Global, kind: Kind) -> Result<String, Fault> {
    let decl = Decl {
        kind,
        key: KeyExpr::read(alloc, b"a")?,
    };
    let source = Zid::from_bytes(&[2])?;
    let mut out = Vec::new(alloc);
    put_entry(&mut out, source, Shared::new(alloc, decl)?)?;
    row::or_fault(row::digits(alloc, &out))
}

fn put_entry(out: &mut Vec<u8>, source: Zid, decl: Shared<Decl>) -> Result<(), AllocError> {
    let msg = Msg::Step {
        source,
        number: 1,
        added: true,
        decl,
    };
    let written = write_oam(out, &msg);
    drop(msg);
    written
}
