//! The kind of a message on a wire: what a world must know of a message while a carrier has it.

ghost use Rattle.std.specs.Prelude.{◌≡◌, ◌+◌, ◌-◌, ◌^◌, min, length, not};
ghost use Rattle.zr_world_spec.specs.World.{unsettles};
ghost use Rattle.zr_world_spec.specs.Fan.{is_sample, sample_bytes};
ghost use Rattle.zr_world_ends.specs.Kept.{kind_of};

use zr_msg::content::Content;
use zr_msg::msg::Msg;

/// What a world knows of a message on a wire.
#[derive(Clone, Copy)]
pub struct WireKind {
    /// Whether it may be under way where the world is settled.
    pub calm: bool,
    /// Whether it is a sample.
    pub sample: bool,
    /// How many bytes the key and the body of a sample have: at most 2^64 - 1.
    pub bytes: u64,
}

/// The kind of a message.
pub fn kind_of(msg: &Msg) -> WireKind
    ensures { result ≡ kind_of msg.now }
{
    WireKind {
        calm: !unsettles(msg),
        sample: is_sample(msg),
        bytes: bytes_of(msg),
    }
}

/// Whether a message is a sample.
pub fn is_sample(msg: &Msg) -> bool
    ensures { result ≡ is_sample msg.now }
{
    match msg {
        Msg::Push { .. } => true,
        Msg::Sub { .. }
        | Msg::Unsub { .. }
        | Msg::Token { .. }
        | Msg::Untoken { .. }
        | Msg::Able { .. }
        | Msg::Unable { .. }
        | Msg::Interest { .. }
        | Msg::EndInterest { .. }
        | Msg::ToldSub { .. }
        | Msg::ToldAble { .. }
        | Msg::ToldUnsub { .. }
        | Msg::ToldToken { .. }
        | Msg::ToldUntoken { .. }
        | Msg::ToldUnable { .. }
        | Msg::ToldEnd { .. }
        | Msg::Request { .. }
        | Msg::Response { .. }
        | Msg::Final { .. }
        | Msg::State { .. }
        | Msg::Step { .. }
        | Msg::Snap { .. } => false,
    }
}

/// How many bytes the key and the body of a sample have: at most 2^64 - 1.
pub fn bytes_of(msg: &Msg) -> u64
    ensures { result ≡ min (sample_bytes msg.now) (2 ^ 64 - 1) }
{
    match msg {
        Msg::Push { content, .. } => content_bytes(content),
        Msg::Sub { .. }
        | Msg::Unsub { .. }
        | Msg::Token { .. }
        | Msg::Untoken { .. }
        | Msg::Able { .. }
        | Msg::Unable { .. }
        | Msg::Interest { .. }
        | Msg::EndInterest { .. }
        | Msg::ToldSub { .. }
        | Msg::ToldAble { .. }
        | Msg::ToldUnsub { .. }
        | Msg::ToldToken { .. }
        | Msg::ToldUntoken { .. }
        | Msg::ToldUnable { .. }
        | Msg::ToldEnd { .. }
        | Msg::Request { .. }
        | Msg::Response { .. }
        | Msg::Final { .. }
        | Msg::State { .. }
        | Msg::Step { .. }
        | Msg::Snap { .. } => 0,
    }
}

fn content_bytes(content: &Content) -> u64
    ensures { result ≡ min (length content.now.key + length content.now.body) (2 ^ 64 - 1) }
{
    let key = content.key().text().len() as u64;
    key.saturating_add(content.body().as_slice().len() as u64)
}

/// Whether a message changes what routers know of links and declarations.
pub fn unsettles(msg: &Msg) -> bool
    ensures { result ≡ unsettles msg.now }
{
    match msg {
        Msg::Sub { .. }
        | Msg::Unsub { .. }
        | Msg::Able { .. }
        | Msg::Unable { .. }
        | Msg::Token { .. }
        | Msg::Untoken { .. }
        | Msg::State { .. }
        | Msg::Step { .. }
        | Msg::Snap { .. } => true,
        Msg::Interest { .. }
        | Msg::EndInterest { .. }
        | Msg::ToldSub { .. }
        | Msg::ToldAble { .. }
        | Msg::ToldUnsub { .. }
        | Msg::ToldUnable { .. }
        | Msg::ToldToken { .. }
        | Msg::ToldUntoken { .. }
        | Msg::ToldEnd { .. }
        | Msg::Push { .. }
        | Msg::Request { .. }
        | Msg::Response { .. }
        | Msg::Final { .. } => false,
    }
}
