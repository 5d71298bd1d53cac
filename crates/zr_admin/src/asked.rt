//! The requests among messages.

ghost use Rattle.std.specs.Prelude.{◌≡◌, ◌++◌, IfOk, OnOk};
ghost use Rattle.zr_admin.specs.Asked.{asked, asked_by, asked_in, is_no_memory};

use std::alloc::{AllocError, Global};
use zr_bytes::{Cursor, ReadError};
use zr_decl::Declared;
use zr_msg::content::Content;
use zr_msg::msg::Msg;
use zr_msg::peer::Role;
use zr_net::read_net;
use zr_wirekey::Scopes;

/// A request: its number, and what it is on.
#[derive(Drop)]
pub struct Asked {
    pub id: u32,
    pub content: Content,
}

/// The requests among messages that stand one behind another, up to what is no message.
pub fn requests_in(alloc: Global, bytes: &[u8]) -> Result<Vec<Asked>, AllocError>
    ensures { IfOk result (λ v. v.items ≡ asked bytes.now) }
{
    let none = Scopes::new(alloc);
    let mut all = Vec::new(alloc);
    let mut c = Cursor::new(bytes);
    'messages: for _ in 0..bytes.len() {
        match read_net(alloc, &mut c, &none, &none, Role::Client) {
            Ok(declared) => match put(&mut all, &declared) {
                Ok(()) => {}
                Err(e) => return Err(e),
            },
            Err(e) => {
                if is_no_memory(e) {
                    return Err(AllocError);
                }
                return Ok(all);
            }
        }
    }
    Ok(all)
}

fn is_no_memory(e: ReadError) -> bool
    ensures { result ≡ is_no_memory e }
{
    match e {
        ReadError::NoMemory => true,
        ReadError::Short
        | ReadError::TooBig
        | ReadError::UnknownId
        | ReadError::Mandatory
        | ReadError::BadText
        | ReadError::BadKey
        | ReadError::UnknownScope
        | ReadError::Extra => false,
    }
}

fn put(all: &mut Vec<Asked>, declared: &Declared) -> Result<(), AllocError>
    ensures { OnOk result (all.new.items ≡ all.old.items ++ asked_in declared.now) }
{
    match declared {
        Declared::Told(msg) => put_request(all, msg),
        Declared::Number(_, _) | Declared::Unnumber(_) | Declared::Ignored => Ok(()),
    }
}

fn put_request(all: &mut Vec<Asked>, msg: &Msg) -> Result<(), AllocError>
    ensures { OnOk result (all.new.items ≡ all.old.items ++ asked_by msg.now) }
{
    match msg {
        Msg::Request { id, content, .. } => {
            let content = content.copy()?;
            match all.push(Asked { id: *id, content }) {
                Ok(()) => Ok(()),
                Err(_) => Err(AllocError),
            }
        }
        Msg::Sub { .. }
        | Msg::Unsub { .. }
        | Msg::Able { .. }
        | Msg::Unable { .. }
        | Msg::Interest { .. }
        | Msg::EndInterest { .. }
        | Msg::ToldSub { .. }
        | Msg::ToldAble { .. }
        | Msg::ToldUnsub { .. }
        | Msg::ToldUnable { .. }
        | Msg::Token { .. }
        | Msg::Untoken { .. }
        | Msg::ToldToken { .. }
        | Msg::ToldUntoken { .. }
        | Msg::ToldEnd { .. }
        | Msg::Push { .. }
        | Msg::Response { .. }
        | Msg::Final { .. }
        | Msg::State { .. }
        | Msg::Step { .. }
        | Msg::Snap { .. } => Ok(()),
    }
}
