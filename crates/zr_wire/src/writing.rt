//! Writing a message of any kind.

ghost use Rattle.std.specs.Prelude.{◌≡◌, ◌++◌, OnOk, OnErr, option_map};
ghost use Rattle.zr_wire.specs.Writing.{IsSpelled, text_of, writes_message, writes_numbered};

use std::alloc::AllocError;
use zr_decl::write_decl;
use zr_key::key::KeyExpr;
use zr_msg::msg::Msg;
use zr_net::write_net;
use zr_oam::write_oam;

/// In place of a number: the key of a message is written as whole text.
pub const NO_NUMBER: u16 = 0;

/// Appends a message that has a spelling, in the one that is written, with its whole key. Where memory runs out nothing is appended.
pub fn write_message(out: &mut Vec<u8>, msg: &Msg) -> Result<(), AllocError>
    requires { IsSpelled msg.now }
    ensures ok { OnOk result (out.new.items ≡ out.old.items ++ writes_message msg.now) }
    ensures err { OnErr result (out.new.items ≡ out.old.items) }
{
    write_numbered(out, msg, NO_NUMBER)
}

/// Appends a message that has a spelling, with a number that was declared for its key (0: with the whole key). Where memory runs out nothing is appended.
pub fn write_numbered(out: &mut Vec<u8>, msg: &Msg, number: u16) -> Result<(), AllocError>
    requires { IsSpelled msg.now }
    ensures ok { OnOk result (out.new.items ≡ out.old.items ++ writes_numbered msg.now number) }
    ensures err { OnErr result (out.new.items ≡ out.old.items) }
{
    match msg {
        Msg::Sub { .. }
        | Msg::Unsub { .. }
        | Msg::Token { .. }
        | Msg::Untoken { .. }
        | Msg::Able { .. }
        | Msg::Unable { .. }
        | Msg::Interest { .. }
        | Msg::EndInterest { .. }
        | Msg::ToldSub { .. }
        | Msg::ToldAble { .. }
        | Msg::ToldUnsub { .. }
        | Msg::ToldToken { .. }
        | Msg::ToldUntoken { .. }
        | Msg::ToldUnable { .. }
        | Msg::ToldEnd { .. } => write_decl(out, msg),
        Msg::Push { .. } | Msg::Request { .. } | Msg::Response { .. } | Msg::Final { .. } => {
            write_net(out, msg, number)
        }
        Msg::State { .. } | Msg::Step { .. } | Msg::Snap { .. } => write_oam(out, msg),
    }
}

/// The key of a sample, a request or a reply, for which there may be a number.
pub fn key_in(msg: &Msg) -> Option<&KeyExpr>
    ensures { option_map (λ key. key.now) result ≡ text_of msg.now }
{
    match msg {
        Msg::Push { content, .. } | Msg::Request { content, .. } | Msg::Response { content, .. } =>
            Some(content.key()),
        Msg::Sub { .. }
        | Msg::Unsub { .. }
        | Msg::Token { .. }
        | Msg::Untoken { .. }
        | Msg::Able { .. }
        | Msg::Unable { .. }
        | Msg::Interest { .. }
        | Msg::EndInterest { .. }
        | Msg::ToldSub { .. }
        | Msg::ToldAble { .. }
        | Msg::ToldUnsub { .. }
        | Msg::ToldToken { .. }
        | Msg::ToldUntoken { .. }
        | Msg::ToldUnable { .. }
        | Msg::ToldEnd { .. }
        | Msg::Final { .. }
        | Msg::State { .. }
        | Msg::Step { .. }
        | Msg::Snap { .. } => None,
    }
}
