//! Reading declarations.

ghost use Rattle.std.specs.Prelude.{◌≡◌, None, nat_eq, if◌then◌else◌};
ghost use Rattle.std.specs.Cmp.Lexicographic.{pointwise, slice_cmp};
ghost use Rattle.std.specs.Ordering.{is_lt, nat_cmp};
ghost use Rattle.zr_bytes.specs.Reading.{Steps};
ghost use Rattle.zr_format_spec.specs.Reading.{Makes, last_of, series_of};
ghost use Rattle.zr_oam.specs.Oam.{kind_byte, kind_of, is_canonical, decl_before, decl_may_follow};
ghost use Rattle.zr_oam.specs.Reading.{key_of, decl_of, next_decl_of, form_of, entry_number_of, snapshot_of, change_of, declarations_of};

use crate::gathered::Gathered;
use crate::parts::{ADDED, MOST_KEY, REMOVED, SNAPSHOT};
use crate::record::read_zid;
use std::alloc::Global;
use std::cmp::Ordering;
use zr_bytes::{Cursor, ReadError};
use zr_id::zid::Zid;
use zr_key::key::{KeyError, KeyExpr};
use zr_msg::decl::{Decl, Decls, Kind};
use zr_msg::msg::Msg;
use zr_msg::shared::Shared;

/// What a router's clients declare: a snapshot, or one declaration that is added or removed.
#[tactic(auto, unfolding(crate::specs::Reading::declarations_of))]
pub(crate) fn read_declarations(alloc: Global, c: &mut Cursor<'_>) -> Result<Msg, ReadError>
    ensures { Steps (λ m. m) result (declarations_of c.old) c.new }
{
    let form = read_form(c)?;
    let source = read_zid(c)?;
    let number = read_number(c)?;
    if form == SNAPSHOT {
        read_snapshot(alloc, c, source, number)
    } else {
        read_change(alloc, c, source, number, form == ADDED)
    }
}

#[tactic(auto, unfolding(crate::specs::Reading::form_of))]
fn read_form(c: &mut Cursor<'_>) -> Result<u8, ReadError>
    ensures { Steps (λ form. form) result (form_of c.old) c.new }
{
    let form = c.u8()?;
    if form > REMOVED {
        return Err(ReadError::BadText);
    }
    Ok(form)
}

/// The number of an entry of a log, from 1 on.
#[tactic(auto, unfolding(crate::specs::Reading::entry_number_of))]
fn read_number(c: &mut Cursor<'_>) -> Result<u64, ReadError>
    ensures { Steps (λ n. n) result (entry_number_of c.old) c.new }
{
    let number = c.zint()?;
    if number == 0 {
        return Err(ReadError::BadText);
    }
    Ok(number)
}

#[tactic(auto, unfolding(crate::specs::Reading::snapshot_of))]
fn read_snapshot(
    alloc: Global,
    c: &mut Cursor<'_>,
    source: Zid,
    number: u64,
) -> Result<Msg, ReadError>
    ensures { Steps (λ m. m) result (snapshot_of source number c.old) c.new }
{
    let count = c.z32()?;
    let decls = read_decls(alloc, c, count)?;
    Ok(Msg::Snap {
        source,
        number,
        decls: Decls::new(decls)?,
    })
}

#[tactic(auto, unfolding(crate::specs::Reading::change_of))]
fn read_change(
    alloc: Global,
    c: &mut Cursor<'_>,
    source: Zid,
    number: u64,
    added: bool,
) -> Result<Msg, ReadError>
    ensures { Steps (λ m. m) result (change_of source number added c.old) c.new }
{
    let decl = read_decl(alloc, c)?;
    Ok(Msg::Step {
        source,
        number,
        added,
        decl: Shared::new(alloc, decl)?,
    })
}

/// Memory is taken declaration by declaration, so a count takes none before its declarations are there.
fn read_decls(alloc: Global, c: &mut Cursor<'_>, count: u32) -> Result<Vec<Decl>, ReadError>
    ensures { Steps (λ decls. decls.items) result (series_of next_decl_of None count c.old) c.new }
{
    let mut decls = Gathered::new(alloc);
    'decls: for _ in 0..count {
        let decl = read_next(alloc, c, decls.as_slice())?;
        decls.push(decl)?;
    }
    Ok(decls.into_vec())
}

/// A declaration that comes after those before it.
#[tactic(auto, unfolding(crate::specs::Reading::next_decl_of))]
fn read_next(alloc: Global, c: &mut Cursor<'_>, before: &[Decl]) -> Result<Decl, ReadError>
    ensures { Steps (λ d. d) result (next_decl_of (last_of before.now) c.old) c.new }
{
    let decl = read_decl(alloc, c)?;
    if !may_follow(before, &decl) {
        return Err(ReadError::BadText);
    }
    Ok(decl)
}

fn may_follow(before: &[Decl], decl: &Decl) -> bool
    ensures { result ≡ decl_may_follow (last_of before.now) decl.now }
{
    match before.last() {
        Some(last) => comes_before(last, decl),
        None => true,
    }
}

/// Declarations go by kind, and then by the bytes of the key.
fn comes_before(a: &Decl, b: &Decl) -> bool
    ensures { result ≡ decl_before a.now b.now }
{
    let (first, second) = (kind_byte(a.kind), kind_byte(b.kind));
    first < second || first == second && is_less(a.key.text().as_bytes(), b.key.text().as_bytes())
}

fn is_less(a: &[u8], b: &[u8]) -> bool
    ensures { result ≡ is_lt (slice_cmp nat_cmp a.now b.now) }
{
    a.cmp(b) == Ordering::Less
}

pub(crate) fn kind_byte(kind: Kind) -> u8
    ensures { result ≡ kind_byte kind }
{
    match kind {
        Kind::Sub => 0,
        Kind::Able => 1,
        Kind::Full => 2,
        Kind::Token => 3,
    }
}

#[tactic(auto, unfolding(crate::specs::Reading::decl_of))]
fn read_decl(alloc: Global, c: &mut Cursor<'_>) -> Result<Decl, ReadError>
    ensures { Steps (λ d. d) result (decl_of c.old) c.new }
{
    let kind = kind(c.u8()?)?;
    let key = read_key(alloc, c)?;
    Ok(Decl { kind, key })
}

fn kind(byte: u8) -> Result<Kind, ReadError>
    ensures { result ≡ kind_of byte }
{
    match byte {
        0 => Ok(Kind::Sub),
        1 => Ok(Kind::Able),
        2 => Ok(Kind::Full),
        3 => Ok(Kind::Token),
        _ => Err(ReadError::BadText),
    }
}

/// A key in its canonical form.
#[tactic(auto, unfolding(crate::specs::Reading::key_of))]
fn read_key(alloc: Global, c: &mut Cursor<'_>) -> Result<KeyExpr, ReadError>
    ensures { Steps (λ key. key) result (key_of c.old) c.new }
{
    let text = c.bytes(MOST_KEY)?;
    canonical(alloc, text)
}

#[tactic(auto, using(zr_key::proofs::Spelling::same_bytes))]
fn canonical(alloc: Global, text: &[u8]) -> Result<KeyExpr, ReadError>
    ensures { Makes (λ key. key) result (if is_canonical text.now then Ok text.now else Err ReadError.BadText) }
{
    match KeyExpr::read(alloc, text) {
        Ok(key) => {
            if is_text(&key, text) {
                Ok(key)
            } else {
                Err(ReadError::BadText)
            }
        }
        Err(KeyError::NoMemory) => Err(ReadError::NoMemory),
        Err(_) => Err(ReadError::BadText),
    }
}

fn is_text(key: &KeyExpr, text: &[u8]) -> bool
    ensures { result ≡ pointwise nat_eq key.now text.now }
{
    key.text().as_bytes() == text
}
