//! Messages that are read and written again: as a router passes them on, and with bytes changed at random. They come from a router that
//! declared `a/b` as 1.

ghost use Rattle.zr_wire.specs.Writing.{IsSpelled};

use crate::keys::declared;
use crate::row::{self, Fault};
use crate::texts;
use rand_core::utils::NextWord;
use rand_pcg::Pcg32;
use std::alloc::{AllocError, Global};
use zr_bytes::{Cursor, ReadError};
use zr_decl::Declared;
use zr_msg::extras::Extras;
use zr_msg::msg::Msg;
use zr_msg::peer::Role;
use zr_net::read_net;
use zr_oam::{OAM, read_oam};
use zr_wire::write_message;
use zr_wirekey::Scopes;

/// How often a message is changed.
const CHANGES: u32 = 300;

/// A message that was read: its fields, and what is written of it.
type Found = (String, Vec<u8>);

pub fn answer(alloc: Global, words: &[&str]) -> Result<String, Fault> {
    let bytes = row::bytes(alloc, words, 1)?;
    let theirs = declared(alloc)?;
    match row::word(words, 0) {
        "passed" => passed(alloc, &bytes, &theirs),
        "changed" => row::or_fault(changed(alloc, &bytes, &theirs)),
        _ => Err(Fault::Row),
    }
}

// What is written of a message, with whole keys.
fn passed(alloc: Global, bytes: &[u8], theirs: &Scopes) -> Result<String, Fault> {
    match look(alloc, &mut Cursor::new(bytes), theirs) {
        Ok(Some((_, written))) => row::or_fault(row::digits(alloc, &written)),
        _ => Err(Fault::Row),
    }
}

// The first of its changes that is neither refused with the cursor where it stood, nor read and, written again, read as the same message.
fn changed(alloc: Global, bytes: &[u8], theirs: &Scopes) -> Result<String, AllocError> {
    let mut random = Pcg32::new(42, 54);
    for _ in 0..CHANGES {
        let other = other(alloc, bytes, &mut random)?;
        if !is_sound(alloc, &other, theirs) {
            return row::digits(alloc, &other);
        }
    }
    String::from_str(alloc, "none")
}

// One or two of the bytes are others.
fn other(alloc: Global, bytes: &[u8], random: &mut Pcg32) -> Result<Vec<u8>, AllocError> {
    let mut out = bytes.to_vec(alloc)?;
    change(&mut out, random);
    if random.next_word() % 2 == 1 {
        change(&mut out, random);
    }
    Ok(out)
}

fn change(bytes: &mut [u8], random: &mut Pcg32) {
    let at = random.next_word() as usize % bytes.len().max(1);
    let byte = (random.next_word() % 256) as u8;
    if let Some(place) = bytes.get_mut(at) {
        *place = byte;
    }
}

fn is_sound(alloc: Global, bytes: &[u8], theirs: &Scopes) -> bool {
    let mut c = Cursor::new(bytes);
    match look(alloc, &mut c, theirs) {
        Err(_) => c.left() == bytes.len(),
        Ok(None) => c.left() < bytes.len(),
        Ok(Some(first)) => c.left() < bytes.len() && is_read_again(alloc, &first, theirs),
    }
}

fn is_read_again(alloc: Global, first: &Found, theirs: &Scopes) -> bool {
    let mut c = Cursor::new(&first.1);
    match look(alloc, &mut c, theirs) {
        Ok(Some(again)) => c.left() == 0 && are_same(first, &again),
        _ => false,
    }
}

fn are_same(first: &Found, again: &Found) -> bool {
    first.0 == again.0 && first.1 == again.1
}

fn look(alloc: Global, c: &mut Cursor<'_>, theirs: &Scopes) -> Result<Option<Found>, ReadError> {
    match c.as_slice() {
        [header, ..] if header & OAM == OAM => between_routers(alloc, c),
        _ => network(alloc, c, theirs),
    }
}

// What a network message is read as; none where it is nothing that is written.
#[tactic(auto, using(crate::proofs::Spelled::network_spelled))]
fn network(alloc: Global, c: &mut Cursor<'_>, theirs: &Scopes) -> Result<Option<Found>, ReadError> {
    let ours = Scopes::new(alloc);
    match read_net(alloc, c, theirs, &ours, Role::Router)? {
        Declared::Told(msg) => {
            let found = found(alloc, &msg);
            drop(msg);
            found
        }
        _ => Ok(None),
    }
}

// The same of a message between routers.
#[tactic(auto, using(crate::proofs::Spelled::between_spelled))]
fn between_routers(alloc: Global, c: &mut Cursor<'_>) -> Result<Option<Found>, ReadError> {
    match read_oam(alloc, c)? {
        Some(msg) => {
            let found = found(alloc, &msg);
            drop(msg);
            found
        }
        None => Ok(None),
    }
}

fn found(alloc: Global, msg: &Msg) -> Result<Option<Found>, ReadError>
    requires { IsSpelled msg.now }
{
    let mut written = Vec::new(alloc);
    write_message(&mut written, msg)?;
    let fields = fields(alloc, msg)?;
    Ok(Some((fields, written)))
}

// A message as text, and all extensions that it has.
fn fields(alloc: Global, msg: &Msg) -> Result<String, AllocError> {
    let text = texts::message(alloc, msg)?;
    let extras = extras_of(msg);
    format!(in alloc; "{text} {extras:?}")
}

fn extras_of(msg: &Msg) -> Option<&Extras> {
    match msg {
        Msg::Push { content, .. } | Msg::Request { content, .. } | Msg::Response { content, .. } =>
            { Some(content.extras()) }
        Msg::Final { extras, .. } => Some(extras.get()),
        _ => None,
    }
}
