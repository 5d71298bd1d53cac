//! A router with the pass of one thread, and messages that have a spelling: what the tests of routers stand on.
ghost use Rattle.std.specs.Prelude.{◌≡◌, [], IfOk};
ghost use Rattle.zr_hist.specs.Words.{kept_name, list_of, name, pass_name};
ghost use Rattle.zr_wire.specs.Writing.{IsSpelled};

use std::alloc::{AllocError, Global};
use std::marker::PhantomData;
use std::sync::Wait;
use zr_body::Body;
use zr_bytes::Cursor;
use zr_frame::Outbox;
use zr_hist::Pass;
use zr_id::link::LinkNo;
use zr_id::zid::Zid;
use zr_key::key::KeyExpr;
use zr_msg::content::Content;
use zr_msg::extras::Extras;
use zr_msg::msg::Msg;
use zr_msg::peer::Peer;
use zr_msg::shared::Shared;
use zr_oam::read_oam;
use zr_outside_mem::mem_sink::MemSink;
use zr_port::{DeliverError, DownError, Entry, Naming, Port, UpError};
use zr_ring::Taker;
use zr_router::Router;
use zr_router_queue::Queued;

/// A pass of a router's history, for one thread.
#[derive(Drop)]
pub struct Hand<B: Naming> {
    pass: Pass<Entry>,
    of: PhantomData<B>,
    ghost here: { pass_name pass ≡ B.history },
}

impl<B: Naming> Hand<B> {
    pub fn new(pass: Pass<Entry>) -> Hand<B>
        requires { pass_name pass ≡ B.history }
    {
        Hand {
            pass,
            of: PhantomData,
        }
    }

    pub fn split<R: Wait + Drop>(&mut self, router: &Router<B, R, MemSink>) -> Hand<B> {
        Hand::new(router.split(&mut self.pass))
    }

    pub fn join<R: Wait + Drop>(&mut self, router: &Router<B, R, MemSink>, other: Hand<B>) {
        let Hand { pass, of: _ } = other;
        router.join(&mut self.pass, pass);
    }

    pub fn up<R: Wait + Drop>(
        &mut self,
        router: &Router<B, R, MemSink>,
        peer: Peer,
        outbox: Outbox,
    ) -> Result<(LinkNo, Taker<Queued>), UpError> {
        router.up(&mut self.pass, peer, outbox)
    }

    /// A message comes over a link.
    pub fn deliver<R: Wait + Drop>(
        &mut self,
        alloc: Global,
        router: &Router<B, R, MemSink>,
        link: u32,
        say: Say,
    ) -> Result<(), DeliverError> {
        match message(alloc, say) {
            Ok(msg) => router.deliver(&mut self.pass, LinkNo(link), msg),
            Err(_) => Err(DeliverError::NoMemory),
        }
    }

    pub fn down<R: Wait + Drop>(
        &mut self,
        router: &Router<B, R, MemSink>,
        link: u32,
        reason: Option<u8>,
    ) -> Result<(), DownError> {
        router.down(&mut self.pass, LinkNo(link), reason)
    }
}

/// A message, on `a/b` where nothing else is said.
#[derive(Clone, Copy)]
pub enum Say {
    Sub,
    /// A sample `hi`.
    Sample,
    /// The same with the quality of service that asks not to drop it, and with one that asks to send it at once.
    Keep,
    Express,
    /// A sample of 200 bytes, which takes four batches of 64 bytes, and the same that asks not to be dropped.
    Long,
    LongKeep,
    /// A sample along the tree of router 02.
    Along,
    /// What a router tells its clients of a subscriber.
    Told,
    /// The client no longer subscribes.
    Unsub,
    /// The client subscribes to `secret/a` under id 4, and no longer does so.
    Secret,
    Unsecret,
    /// The same of a liveliness token.
    SecretToken,
    UnsecretToken,
    /// The end of request 9.
    Final,
    /// What a router tells of its links or of its clients, in these bytes.
    Tells(&'static [u8]),
}

/// The quality of service that asks not to drop a sample (Zenoh protocol 1.0, "QoS").
const DONT_DROP: u64 = 0x08;

/// The one that asks to send it at once.
const EXPRESS: u64 = 0x10;

fn message(alloc: Global, say: Say) -> Result<Msg, AllocError>
    ensures { IfOk result (λ m. IsSpelled m) }
{
    match say {
        Say::Sub => sub(alloc),
        Say::Told => told_sub(alloc),
        Say::Unsub => Ok(Msg::Unsub { id: 1 }),
        Say::Secret => secret(alloc),
        Say::Unsecret => Ok(Msg::Unsub { id: 4 }),
        Say::SecretToken => secret_token(alloc),
        Say::UnsecretToken => Ok(Msg::Untoken { id: 4 }),
        Say::Final => end_of_request(alloc),
        Say::Tells(bytes) => told(alloc, bytes),
        Say::Sample | Say::Keep | Say::Express | Say::Long | Say::LongKeep | Say::Along => {
            sample(alloc, say)
        }
    }
}

fn sub(alloc: Global) -> Result<Msg, AllocError>
    ensures { IfOk result (λ m. IsSpelled m) }
{
    let key = key(alloc)?;
    Ok(Msg::Sub { id: 1, key })
}

fn secret(alloc: Global) -> Result<Msg, AllocError>
    ensures { IfOk result (λ m. IsSpelled m) }
{
    let key = key_of(alloc, b"secret/a".as_slice())?;
    Ok(Msg::Sub { id: 4, key })
}

fn secret_token(alloc: Global) -> Result<Msg, AllocError>
    ensures { IfOk result (λ m. IsSpelled m) }
{
    let key = key_of(alloc, b"secret/a".as_slice())?;
    Ok(Msg::Token { id: 4, key })
}

fn end_of_request(alloc: Global) -> Result<Msg, AllocError>
    ensures { IfOk result (λ m. IsSpelled m) }
{
    let extras = Shared::new(alloc, Extras::none())?;
    Ok(Msg::Final { id: 9, extras })
}

fn told_sub(alloc: Global) -> Result<Msg, AllocError>
    ensures { IfOk result (λ m. IsSpelled m) }
{
    let key = key(alloc)?;
    Ok(Msg::ToldSub {
        id: 1,
        key,
        interest: None,
    })
}

// What a router tells in these bytes.
#[tactic(auto, using(crate::proofs::Told::told_spelled))]
fn told(alloc: Global, bytes: &[u8]) -> Result<Msg, AllocError>
    ensures { IfOk result (λ m. IsSpelled m) }
{
    match read_oam(alloc, &mut Cursor::new(bytes)) {
        Ok(Some(msg)) => Ok(msg),
        Ok(None) | Err(_) => Err(AllocError),
    }
}

fn key(alloc: Global) -> Result<KeyExpr, AllocError> {
    key_of(alloc, b"a/b".as_slice())
}

fn key_of(alloc: Global, text: &[u8]) -> Result<KeyExpr, AllocError> {
    match KeyExpr::read(alloc, text) {
        Ok(key) => Ok(key),
        Err(_) => Err(AllocError),
    }
}

fn body(alloc: Global, say: Say) -> Result<Body, AllocError> {
    match say {
        Say::Long | Say::LongKeep => Body::put(alloc, [7; 200].as_slice()),
        _ => Body::put(alloc, b"hi".as_slice()),
    }
}

fn qos(say: Say) -> Option<u64> {
    match say {
        Say::Keep | Say::LongKeep => Some(DONT_DROP),
        Say::Express => Some(EXPRESS),
        _ => None,
    }
}

// The root of the tree along which a sample goes.
fn root(say: Say) -> Option<Zid> {
    match say {
        Say::Along => Zid::from_bytes(&[2]).ok(),
        _ => None,
    }
}

fn sample(alloc: Global, say: Say) -> Result<Msg, AllocError>
    ensures { IfOk result (λ m. IsSpelled m) }
{
    let key = key(alloc)?;
    let body = body(alloc, say)?;
    let extras = Extras {
        qos: qos(say),
        stamp: None,
        budget: None,
        timeout: None,
        responder: None,
        marks: 0,
    };
    let content = Content::new(alloc, key, extras, body)?;
    Ok(Msg::Push {
        tree: root(say),
        content,
    })
}
