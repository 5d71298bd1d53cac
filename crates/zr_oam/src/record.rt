//! Reading a link record.

ghost use Rattle.std.specs.Prelude.{◌≡◌, ◌<◌, ◌^◌, None, IfOk, IfSome, Ok, true};
ghost use Rattle.zr_bytes.specs.Reading.{Reads, ReadsBy, Steps, number_of, text_of};
ghost use Rattle.zr_format_spec.specs.Reading.{Makes, last_of, series_of, whole_of};
ghost use Rattle.zr_id.specs.Record.{are_links};
ghost use Rattle.zr_oam.specs.Oam.{last_id};
ghost use Rattle.zr_oam.specs.Reading.{zid_of, weight_of, neighbour_of, link_of, record_of};

use crate::gathered::Gathered;
use crate::parts::{MOST_ID, ONE_BYTE};
use std::alloc::Global;
use zr_bytes::{Cursor, ReadError};
use zr_id::record::{LinkRecord, Linked, may_follow};
use zr_id::zid::Zid;

/// A record, weighted or not: the router, its number, and a count of links with the links. A link that doesn't come after the one before
/// it, or is the router itself, is refused where it stands.
#[tactic(auto, unfolding(crate::specs::Reading::record_of))]
pub(crate) fn read_record(
    alloc: Global,
    c: &mut Cursor<'_>,
    weighted: bool,
) -> Result<LinkRecord, ReadError>
    ensures { Steps (λ r. r) result (record_of weighted c.old) c.new }
{
    let id = read_zid(c)?;
    let seq = read_number(c)?;
    let count = c.z16()?;
    let links = read_links(alloc, c, &id, count, weighted)?;
    Ok(LinkRecord::new(id, seq, links))
}

/// Memory is taken link by link, so a count takes none before its links are there.
fn read_links(
    alloc: Global,
    c: &mut Cursor<'_>,
    own: &Zid,
    count: u16,
    weighted: bool,
) -> Result<Vec<Linked>, ReadError>
    ensures read { Steps (λ links. links.items) result (series_of (link_of weighted own.now) None count c.old) c.new }
    ensures in_order { IfOk result (λ links. are_links own.now links.items ≡ true) }
{
    let mut links = Gathered::new(alloc);
    'links: for _ in 0..count {
        let link = read_link(c, own, links.as_slice(), weighted)?;
        links.push(link)?;
    }
    Ok(links.into_vec())
}

/// A link that may stand behind those before it, with its weight.
#[tactic(auto, unfolding(crate::specs::Reading::link_of))]
fn read_link(
    c: &mut Cursor<'_>,
    own: &Zid,
    before: &[Linked],
    weighted: bool,
) -> Result<Linked, ReadError>
    ensures { Steps (λ link. link) result (link_of weighted own.now (last_of before.now) c.old) c.new }
{
    let id = read_neighbour(c, own, before)?;
    let weight = read_weight(c, weighted)?;
    Ok(Linked { id, weight })
}

/// The router that a link leads to, which comes after those of the links before it.
#[tactic(auto, unfolding(crate::specs::Reading::neighbour_of))]
fn read_neighbour(c: &mut Cursor<'_>, own: &Zid, before: &[Linked]) -> Result<Zid, ReadError>
    ensures { Steps (λ id. id) result (neighbour_of own.now (last_of before.now) c.old) c.new }
{
    let id = read_zid(c)?;
    if !may_follow(own, last_id(before), &id) {
        return Err(ReadError::BadText);
    }
    Ok(id)
}

fn last_id(links: &[Linked]) -> Option<Zid>
    ensures { result ≡ last_id (last_of links.now) }
{
    match links.last() {
        Some(last) => Some(last.id),
        None => None,
    }
}

/// The weight that stands behind a link of a weighted record; in another one nothing stands there, and the link weighs 1.
#[tactic(auto, unfolding(crate::specs::Reading::weight_of))]
fn read_weight(c: &mut Cursor<'_>, weighted: bool) -> Result<u16, ReadError>
    ensures read { Steps (λ w. w) result (weight_of weighted c.old) c.new }
    ensures heavy { IfOk result (λ w. 0 < w) }
{
    if !weighted {
        return Ok(1);
    }
    let weight = c.z16()?;
    if weight == 0 {
        return Err(ReadError::BadText);
    }
    Ok(weight)
}

/// An identifier behind its length.
#[tactic(auto, unfolding(crate::specs::Reading::zid_of))]
pub(crate) fn read_zid(c: &mut Cursor<'_>) -> Result<Zid, ReadError>
    ensures { Steps (λ id. id) result (zid_of c.old) c.new }
{
    match Zid::from_bytes(read_text(c)?) {
        Ok(id) => Ok(id),
        Err(_) => Err(ReadError::BadText),
    }
}

/// A byte string of at most 255 bytes behind its length. Most lengths are one byte, which is read without a loop over groups.
fn read_text<'a>(c: &mut Cursor<'a>) -> Result<&'a [u8], ReadError>
    ensures { ReadsBy (λ text. text.now) result (text_of 255 c.old) c.old c.new }
{
    match short_text(c) {
        Some((text, rest)) => {
            *c = Cursor::new(rest);
            Ok(text)
        }
        None => c.bytes(MOST_ID),
    }
}

fn short_text<'a>(c: &Cursor<'a>) -> Option<(&'a [u8], &'a [u8])>
    ensures { IfSome result (λ x. text_of 255 c.now ≡ Ok (x.0.now, x.1.now)) }
{
    let mut ahead = c.fork();
    match ahead.u8() {
        Ok(count) if count < ONE_BYTE && usize::from(count) <= ahead.left() => {
            Some(ahead.as_slice().split_at(usize::from(count)))
        }
        _ => None,
    }
}

/// A number. Most are one byte, as the lengths.
#[tactic(auto, using(crate::proofs::Contents::number_of_one))]
fn read_number(c: &mut Cursor<'_>) -> Result<u64, ReadError>
    ensures { Reads result (number_of c.old) c.old c.new }
{
    let mut ahead = c.fork();
    match ahead.u8() {
        Ok(byte) if byte < ONE_BYTE => {
            *c = ahead;
            Ok(u64::from(byte))
        }
        _ => c.zint(),
    }
}
