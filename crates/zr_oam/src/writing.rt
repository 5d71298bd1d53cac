//! The one spelling of a message between routers that is written.

ghost use Rattle.std.specs.Prelude.{◌≡◌, ◌+◌, ◌-◌, ◌*◌, ◌<◌, ◌≤◌, [], ◌∷◌, ◌++◌, OnOk, OnErr, length, take, drop};
ghost use Rattle.std.specs.List.{flat_map};
ghost use Rattle.zr_bytes.specs.Number.{writes};
ghost use Rattle.zr_bytes.specs.Text.{writes_text};
ghost use Rattle.zr_bytes.specs.Writing.{KeepsFront};
ghost use Rattle.zr_msg.specs.declared.msg.Msg.TheVariants.{State};
ghost use Rattle.zr_oam.specs.Writing.{Fits, writes_decl, writes_linked, writes_record, weigh_one, writes_head, writes_step, writes_snap, writes_own, writes_oam};

use crate::decl::kind_byte;
use crate::parts::{
    ADDED, DECLARATIONS, ONE_BYTE, OWN, RECORD, REMOVED, SNAPSHOT, WEIGHTED_RECORD,
};
use std::alloc::AllocError;
use zr_bytes::{all_or_nothing, put_bytes, put_zint};
use zr_id::record::{LinkRecord, Linked};
use zr_id::zid::Zid;
use zr_msg::decl::Decl;
use zr_msg::msg::Msg;

/// Room for most changes, so that making one takes memory once.
const FEW_BYTES: usize = 64;

/// Appends a record, or declarations: each record, each change from number 1 on, and a snapshot from number 1 on whose declarations are strictly
/// ascending. A record is written in its place, and its length last; what clients declare is made apart first, since its length stands before it. Where
/// memory runs out nothing is appended.
pub fn write_oam(out: &mut Vec<u8>, msg: &Msg) -> Result<(), AllocError>
    requires { Fits msg.now }
    ensures ok { OnOk result (out.new.items ≡ out.old.items ++ writes_oam msg.now) }
    ensures err { OnErr result (out.new.items ≡ out.old.items) }
{
    let start = out.len();
    let put = put_oam(out, msg);
    all_or_nothing(out, start, put)
}

fn put_oam(out: &mut Vec<u8>, msg: &Msg) -> Result<(), AllocError>
    ensures ok { OnOk result (out.new.items ≡ out.old.items ++ writes_oam msg.now) }
    ensures err { OnErr result (KeepsFront out.old.items out.new.items) }
{
    match msg {
        Msg::State { links } => put_state(out, links.get()),
        Msg::Step {
            source,
            number,
            added,
            decl,
        } => put_step(out, source, *number, *added, decl.get()),
        Msg::Snap {
            source,
            number,
            decls,
        } => put_snap(out, source, *number, decls.as_slice()),
        Msg::Sub { .. }
        | Msg::Unsub { .. }
        | Msg::Token { .. }
        | Msg::Untoken { .. }
        | Msg::Able { .. }
        | Msg::Unable { .. }
        | Msg::Interest { .. }
        | Msg::EndInterest { .. }
        | Msg::ToldSub { .. }
        | Msg::ToldAble { .. }
        | Msg::ToldUnsub { .. }
        | Msg::ToldToken { .. }
        | Msg::ToldUntoken { .. }
        | Msg::ToldUnable { .. }
        | Msg::ToldEnd { .. }
        | Msg::Push { .. }
        | Msg::Request { .. }
        | Msg::Response { .. }
        | Msg::Final { .. } => Ok(()),
    }
}

fn put_state(out: &mut Vec<u8>, links: &LinkRecord) -> Result<(), AllocError>
    ensures ok { OnOk result (out.new.items ≡ out.old.items ++ writes_oam (State links.now)) }
    ensures err { OnErr result (KeepsFront out.old.items out.new.items) }
{
    if weigh_one(links.links()) {
        put_record(out, RECORD, links, false)
    } else {
        put_record(out, WEIGHTED_RECORD, links, true)
    }
}

/// Whether each link weighs 1, so that no weight needs to be written.
fn weigh_one(links: &[Linked]) -> bool
    ensures { result ≡ weigh_one links.now }
{
    links.iter().all(|link| link.weight == 1)
}

fn put_record(
    out: &mut Vec<u8>,
    id: u16,
    links: &LinkRecord,
    weighted: bool,
) -> Result<(), AllocError>
    requires { 128 * 128 ≤ id }
    ensures ok { OnOk result (out.new.items ≡ out.old.items ++ writes_own id (writes_record weighted links.now)) }
    ensures err { OnErr result (KeepsFront out.old.items out.new.items) }
{
    put_start(out, id)?;
    let start = out.len();
    put_content(out, links, weighted)?;
    put_length(out, start)
}

/// What stands before a record, with one byte in the place of its length. The id takes three bytes.
fn put_start(out: &mut Vec<u8>, id: u16) -> Result<(), AllocError>
    requires { 128 * 128 ≤ id }
    ensures ok { OnOk result (out.new.items ≡ out.old.items ++ ((0x5F ∷ writes id) ++ 0 ∷ [])) }
    ensures err { OnErr result (out.new.items ≡ out.old.items) }
{
    let low = (id % 128) as u8 + 128;
    let middle = (id / 128 % 128) as u8 + 128;
    let high = (id / 128 / 128) as u8;
    out.extend_from_slice(&[OWN, low, middle, high, 0])
}

/// Puts the length of what is behind `start` into the place of the byte before it. A longer one than a byte moves what is behind.
fn put_length(out: &mut Vec<u8>, start: usize) -> Result<(), AllocError>
    requires first { 0 < start }
    requires within { start ≤ length out.old.items }
    ensures ok { OnOk result (out.new.items ≡ take (start - 1) out.old.items ++ writes_text (drop start out.old.items)) }
    ensures err { OnErr result (take (start - 1) out.new.items ≡ take (start - 1) out.old.items) }
{
    let count = out.len() - start;
    if count < usize::from(ONE_BYTE) {
        out[start - 1] = count as u8;
        return Ok(());
    }
    let content = out[start..].to_vec(*out.allocator())?;
    out.truncate(start - 1);
    put_bytes(out, &content)
}

#[tactic(auto, using(crate::proofs::Contents::both_put))]
fn put_content(out: &mut Vec<u8>, links: &LinkRecord, weighted: bool) -> Result<(), AllocError>
    ensures ok { OnOk result (out.new.items ≡ out.old.items ++ writes_record weighted links.now) }
    ensures err { OnErr result (KeepsFront out.old.items out.new.items) }
{
    put_name(out, &links.id(), links.seq())?;
    put_counted(out, links.links(), weighted)
}

/// A router and a number.
fn put_name(out: &mut Vec<u8>, id: &Zid, number: u64) -> Result<(), AllocError>
    ensures ok { OnOk result (out.new.items ≡ out.old.items ++ (writes_text id.now ++ writes number)) }
    ensures err { OnErr result (KeepsFront out.old.items out.new.items) }
{
    put_id(out, id)?;
    put_number(out, number)
}

/// An identifier behind its length.
fn put_id(out: &mut Vec<u8>, id: &Zid) -> Result<(), AllocError>
    ensures ok { OnOk result (out.new.items ≡ out.old.items ++ writes_text id.now) }
    ensures err { OnErr result (KeepsFront out.old.items out.new.items) }
{
    let bytes = id.bytes();
    put_number(out, bytes.len() as u64)?;
    out.extend_from_slice(bytes)
}

/// A number, as [`put_zint`]. Most are one byte, which goes without a copy of several.
#[tactic(auto, using(crate::proofs::Contents::one_byte))]
fn put_number(out: &mut Vec<u8>, value: u64) -> Result<(), AllocError>
    ensures ok { OnOk result (out.new.items ≡ out.old.items ++ writes value) }
    ensures err { OnErr result (out.new.items ≡ out.old.items) }
{
    if value < u64::from(ONE_BYTE) {
        out.push(value as u8)?;
        return Ok(());
    }
    put_zint(out, value)
}

/// The count of links, and the links.
fn put_counted(out: &mut Vec<u8>, links: &[Linked], weighted: bool) -> Result<(), AllocError>
    ensures ok { OnOk result (out.new.items ≡ out.old.items ++ (writes (length links.now) ++ flat_map (λ link. writes_linked weighted link) links.now)) }
    ensures err { OnErr result (KeepsFront out.old.items out.new.items) }
{
    put_number(out, links.len() as u64)?;
    put_links(out, links, weighted)
}

fn put_links(out: &mut Vec<u8>, links: &[Linked], weighted: bool) -> Result<(), AllocError>
    ensures ok { OnOk result (out.new.items ≡ out.old.items ++ flat_map (λ link. writes_linked weighted link) links.now) }
    ensures err { OnErr result (KeepsFront out.old.items out.new.items) }
{
    for link in links {
        put_link(out, link, weighted)?;
    }
    Ok(())
}

fn put_link(out: &mut Vec<u8>, link: &Linked, weighted: bool) -> Result<(), AllocError>
    ensures ok { OnOk result (out.new.items ≡ out.old.items ++ writes_linked weighted link.now) }
    ensures err { OnErr result (KeepsFront out.old.items out.new.items) }
{
    put_id(out, &link.id)?;
    if weighted {
        put_number(out, u64::from(link.weight))?;
    }
    Ok(())
}

fn put_step(
    out: &mut Vec<u8>,
    source: &Zid,
    number: u64,
    added: bool,
    decl: &Decl,
) -> Result<(), AllocError>
    ensures ok { OnOk result (out.new.items ≡ out.old.items ++ writes_own 0x5A02 (writes_step source.now number added decl.now)) }
    ensures err { OnErr result (KeepsFront out.old.items out.new.items) }
{
    let mut content = Vec::with_capacity(*out.allocator(), FEW_BYTES)?;
    put_head(
        &mut content,
        if added { ADDED } else { REMOVED },
        source,
        number,
    )?;
    put_decl(&mut content, decl)?;
    put_own(out, DECLARATIONS, &content)
}

fn put_snap(out: &mut Vec<u8>, source: &Zid, number: u64, decls: &[Decl]) -> Result<(), AllocError>
    ensures ok { OnOk result (out.new.items ≡ out.old.items ++ writes_own 0x5A02 (writes_snap source.now number decls.now)) }
    ensures err { OnErr result (KeepsFront out.old.items out.new.items) }
{
    let mut content = Vec::new(*out.allocator());
    put_head(&mut content, SNAPSHOT, source, number)?;
    put_zint(&mut content, decls.len() as u64)?;
    put_decls(&mut content, decls)?;
    put_own(out, DECLARATIONS, &content)
}

fn put_decls(out: &mut Vec<u8>, decls: &[Decl]) -> Result<(), AllocError>
    ensures { OnOk result (out.new.items ≡ out.old.items ++ flat_map (λ d. writes_decl d) decls.now) }
{
    for decl in decls {
        put_decl(out, decl)?;
    }
    Ok(())
}

/// The form of declarations, their source and their number.
fn put_head(out: &mut Vec<u8>, form: u8, source: &Zid, number: u64) -> Result<(), AllocError>
    ensures { OnOk result (out.new.items ≡ out.old.items ++ writes_head form source.now number) }
{
    out.push(form)?;
    put_name(out, source, number)
}

fn put_decl(out: &mut Vec<u8>, decl: &Decl) -> Result<(), AllocError>
    ensures { OnOk result (out.new.items ≡ out.old.items ++ writes_decl decl.now) }
{
    out.push(kind_byte(decl.kind))?;
    put_bytes(out, decl.key.text().as_bytes())
}

/// The message of an id with this content.
fn put_own(out: &mut Vec<u8>, id: u16, content: &[u8]) -> Result<(), AllocError>
    ensures ok { OnOk result (out.new.items ≡ out.old.items ++ writes_own id content.now) }
    ensures err { OnErr result (KeepsFront out.old.items out.new.items) }
{
    out.push(OWN)?;
    put_zint(out, u64::from(id))?;
    put_bytes(out, content)
}
