//! The wire of router 02 from a neighbour 01, as messages and as bytes: each kind of message that a client or a router may send, the bytes of the first
//! two samples, and a message of 129 fragments.

ghost use Rattle.std.specs.Prelude.{◌≡◌, ◌≤◌, IfOk, length, true};
ghost use Rattle.zr_body.specs.Body.{IsBodyIn};
ghost use Rattle.zr_body.specs.declared.place.Place.TheVariants as place;
ghost use Rattle.zr_law_sent.specs.Passing.{IsPassable};
ghost use Rattle.zr_msg.specs.Extras.{no_extras};
ghost use Rattle.zr_msg.specs.declared.peer.Role.TheVariants as role;
ghost use Rattle.zr_tests_rows.specs.Carriers.{AreNone};
ghost use Rattle.zr_wire.specs.Limits.{most_of};
ghost use Rattle.zr_wire.specs.Sending.{MayBeSent};
ghost use Rattle.zr_wire.specs.Writing.{IsSpelled, writes_message};

use crate::row::{self, Fault, Steps};
use crate::{bodies, sendable, texts};
use std::alloc::{AllocError, Global};
use std::marker::Model;
use zr_body::{Body, Place};
use zr_carrier::carrier::Carrier;
use zr_carrier::plain::Plain;
use zr_id::zid::Zid;
use zr_key::key::KeyExpr;
use zr_law_sent::{of_types, passable_may_be_sent};
use zr_msg::content::Content;
use zr_msg::extras::Extras;
use zr_msg::msg::Msg;
use zr_msg::peer::Role;
use zr_netrun_batches::batches::Batches;
use zr_wire::{MOST_OF_ROUTER, admits, write_message};

/// A neighbour's wire to a router, and how many messages the neighbour has sent.
#[derive(Drop)]
struct OpenWire<C: Carrier> {
    carrier: C,
    router: Zid,
    neighbour: Zid,
    role: Role,
    sent: u64,
}

impl<C: Carrier> Model for OpenWire<C> {
    ghost use Rattle.zr_msg.specs.declared.peer.Role.{Role};
    ghost use Rattle.zr_tests_rows.specs.Carriers.{IsOpen};

    ghost Value = { Role };

    ghost view = { λ l. l.role };

    ghost invariant = { λ l. IsOpen l.role (C.wire l.carrier l.neighbour l.router) };
}

pub fn answer(alloc: Global, words: &[&str]) -> Result<String, Fault> {
    match row::word(words, 0) {
        "plain" => taken(alloc, Plain::new(alloc), row::behind(words, 1)),
        "bytes" => taken(alloc, Batches::new(alloc), row::behind(words, 1)),
        "samples" => samples(alloc),
        "long" => long(alloc, row::parsed(words, 1)?),
        _ => Err(Fault::Row),
    }
}

// What comes of the steps behind the neighbour's role.
fn taken<C: Carrier>(alloc: Global, carrier: C, words: &[&str]) -> Result<String, Fault>
    requires { AreNone (C.wire carrier) }
{
    let role = match row::word(words, 0) {
        "client" => Role::Client,
        "router" => Role::Router,
        _ => return Err(Fault::Row),
    };
    row::run(alloc, OpenWire::new(carrier, role)?, row::behind(words, 1))
}

impl<C: Carrier> OpenWire<C> {
    fn new(mut carrier: C, role: Role) -> Result<OpenWire<C>, Fault>
        requires { AreNone (C.wire carrier) }
        ensures { IfOk result (λ l. l ≡ role) }
    {
        let router = Zid::from_bytes(&[2])?;
        let neighbour = Zid::from_bytes(&[1])?;
        carrier.open(router, neighbour, role)?;
        Ok(OpenWire {
            carrier,
            router,
            neighbour,
            role,
            sent: 0,
        })
    }

    // The number of messages that were sent before is its tag.
    fn send(&mut self, msg: &Msg) -> Result<(), AllocError>
        requires { MayBeSent self.old msg.now }
        ensures { self.new ≡ self.old }
    {
        let sent = self
            .carrier
            .send(self.neighbour, self.router, msg, self.sent);
        self.sent = self.sent.saturating_add(1);
        sent
    }

    // Sends what the neighbour's role may send.
    fn pass(&mut self, msg: &Msg) -> Result<(), Fault>
        requires { IsPassable msg.now }
    {
        if !admits(self.role, msg) {
            return Err(Fault::Row);
        }
        // Laws: each does nothing, and brings its clause.
        of_types(msg);
        passable_may_be_sent();
        row::or_fault(self.send(msg))
    }

    // The message of these parts, along the tree of 01 where it is a router's.
    fn put(&mut self, alloc: Global, parts: &[&str]) -> Result<(), Fault> {
        let tree = match self.role {
            Role::Client => None,
            Role::Router => Some(self.neighbour),
        };
        let msg = sendable::message(alloc, parts, tree)?;
        let passed = self.pass(&msg);
        drop(msg);
        passed
    }

    // The oldest message with its tag, which leaves the wire.
    fn next(&mut self) -> Result<Option<(Msg, u64)>, AllocError> {
        self.carrier.receive(self.neighbour, self.router)
    }

    fn receive(&mut self, alloc: Global) -> Result<String, Fault> {
        match self.next()? {
            Some((msg, tag)) => {
                let text = texts::message(alloc, &msg);
                drop(msg);
                row::or_fault(format!(in alloc; "{tag} {}", text?))
            }
            None => Ok(String::from_str(alloc, "none")?),
        }
    }
}

impl<C: Carrier> Steps for OpenWire<C> {
    fn step(&mut self, alloc: Global, parts: &[&str]) -> Result<String, Fault> {
        match row::word(parts, 0) {
            "receive" => self.receive(alloc),
            "waits" => row::text(alloc, &self.carrier.waits(self.neighbour, self.router)),
            _ => row::done(alloc, self.put(alloc, parts)),
        }
    }
}

// The bytes of the value `hi` on `a/b`, twice.
fn samples(alloc: Global) -> Result<String, Fault> {
    let mut wire = OpenWire::new(Batches::new(alloc), Role::Router)?;
    let sample = sample(alloc, wire.neighbour, b"hi")?;
    let sent = send_twice(&mut wire, &sample);
    drop(sample);
    row::or_fault(sent)?;
    row::or_fault(row::digits(alloc, on_wire(&wire)))
}

fn send_twice<C: Carrier>(wire: &mut OpenWire<C>, msg: &Msg) -> Result<(), AllocError>
    requires { MayBeSent wire.old msg.now }
{
    wire.send(msg)?;
    wire.send(msg)
}

// In how many batches a value of so many bytes goes, and whether it is received.
fn long(alloc: Global, length: usize) -> Result<String, Fault> {
    let payload = row::letters(alloc, length)?;
    let mut wire = OpenWire::new(Batches::new(alloc), Role::Router)?;
    let sample = sample(alloc, wire.neighbour, &payload)?;
    let sent = wire.send(&sample);
    drop(sample);
    row::or_fault(sent)?;
    let batches = count_batches(on_wire(&wire));
    let comes = comes(&mut wire, &payload)?;
    row::text(alloc, &(batches, comes))
}

// Whether the oldest message is a sample of this value.
fn comes<C: Carrier>(wire: &mut OpenWire<C>, payload: &[u8]) -> Result<bool, AllocError> {
    match wire.next()? {
        Some((msg, _)) => {
            let comes = is_sample(&msg, payload);
            drop(msg);
            Ok(comes)
        }
        None => Ok(false),
    }
}

fn is_sample(msg: &Msg, payload: &[u8]) -> bool {
    match msg {
        Msg::Push { content, .. } => content.body().payload() == payload,
        _ => false,
    }
}

// A sample of this value on `a/b`, along a tree.
fn sample(alloc: Global, tree: Zid, payload: &[u8]) -> Result<Msg, Fault>
    ensures { IfOk result (λ m. MayBeSent role.Router m) }
{
    let msg = Msg::Push {
        tree: Some(tree),
        content: put(alloc, payload)?,
    };
    // A law: it does nothing, and brings its clause.
    of_types(&msg);
    if is_short(alloc, &msg)? {
        Ok(msg)
    } else {
        Err(Fault::Row)
    }
}

fn put(alloc: Global, payload: &[u8]) -> Result<Content, Fault>
    ensures extras { IfOk result (λ c. c.extras ≡ no_extras) }
    ensures body { IfOk result (λ c. IsBodyIn place.Push c.body) }
{
    if payload.len() > MOST_OF_ROUTER {
        return Err(Fault::Row);
    }
    let written = Body::put(alloc, payload)?;
    let body = bodies::body(alloc, written.as_slice(), Place::Push)?;
    let key = KeyExpr::read(alloc, b"a/b")?;
    Ok(Content::new(alloc, key, Extras::none(), body)?)
}

// Whether a message is no longer than a router's may be.
fn is_short(alloc: Global, msg: &Msg) -> Result<bool, AllocError>
    requires { IsSpelled msg.now }
    ensures { IfOk result (λ b. b ≡ true → length (writes_message msg.now) ≤ most_of role.Router) }
{
    let mut written = Vec::new(alloc);
    write_message(&mut written, msg)?;
    Ok(written.len() <= MOST_OF_ROUTER)
}

// What was not read.
fn on_wire(wire: &OpenWire<Batches>) -> &[u8] {
    match wire.carrier.bytes(wire.neighbour, wire.router) {
        Some(bytes) => bytes,
        None => &[],
    }
}

// How many batches there are, each behind its length.
fn count_batches(bytes: &[u8]) -> usize {
    let mut rest = bytes;
    for count in 0..bytes.len() {
        let [low, high, behind @ ..] = rest else {
            return count;
        };
        let length = usize::from(*low) + (usize::from(*high) << 8);
        rest = &behind[length.min(behind.len())..];
    }
    bytes.len()
}
