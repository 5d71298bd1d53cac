//! The client that asks.
ghost use Rattle.std.specs.Prelude.{◌≡◌, IfOk};
ghost use Rattle.zr_hist.specs.Words.{pass_name};
ghost use Rattle.zr_wire.specs.Writing.{IsSpelled};

use std::alloc::{AllocError, Global};
use zr_frame::Outbox;
use zr_hist::Pass;
use zr_id::zid::Zid;
use zr_key::key::KeyExpr;
use zr_msg::content::Content;
use zr_msg::extras::Extras;
use zr_msg::msg::{Msg, Target};
use zr_msg::peer::{Peer, Role};
use zr_port::{Entry, Port};
use zr_ring::Taker;
use zr_script::body::query_body;

/// The number of its query.
pub const NUMBER: u32 = 7;

const CLIENT: u8 = 0xC1;

/// It comes up and asks for a key; what is queued for it can be taken.
pub fn ask<P: Port>(
    alloc: Global,
    port: &P,
    pass: &mut Pass<Entry>,
    key: &[u8],
) -> Result<Taker<P::Note>, AllocError>
    requires { pass_name pass.old ≡ P.history port.now }
{
    let query = query(alloc, key)?;
    let Ok((link, taker)) = port.up(pass, client()?, Outbox::new(65_535, 2, 0)) else {
        return Err(AllocError);
    };
    match port.deliver(pass, link, query) {
        Ok(()) => Ok(taker),
        Err(_) => Err(AllocError),
    }
}

fn client() -> Result<Peer, AllocError> {
    match Zid::from_bytes(&[CLIENT]) {
        Ok(id) => Ok(Peer {
            id,
            role: Role::Client,
            weight: 1,
        }),
        Err(_) => Err(AllocError),
    }
}

fn query(alloc: Global, key: &[u8]) -> Result<Msg, AllocError>
    ensures { IfOk result (λ m. IsSpelled m) }
{
    let Ok(key) = KeyExpr::read(alloc, key) else {
        return Err(AllocError);
    };
    let body = query_body(alloc, false)?;
    let content = Content::new(alloc, key, Extras::none(), body)?;
    Ok(Msg::Request {
        tree: None,
        id: NUMBER,
        target: Target::Best,
        content,
    })
}
