//! The lines of a script, each appended with its end.

ghost use Rattle.std.specs.Prelude.{◌≡◌, ◌+◌, ◌<◌, ◌++◌, [], ◌∷◌, codes, OnOk};
ghost use Rattle.std.specs.Fmt.{decimal};
ghost use Rattle.zr_make.specs.Script.{between, chunk, client_lines, client_name, link_lines, name, router_line, sample_line, text_of};

use itoa::Buffer;
use std::alloc::AllocError;

/// Clients have the names from here on.
const CLIENTS: u16 = 32_768;

/// A router.
pub(crate) fn put_router(router: u16, text: &mut Vec<u8>) -> Result<(), AllocError>
    ensures { OnOk result (text.new.items ≡ text.old.items ++ text_of (router_line router ∷ [])) }
{
    text.extend_from_slice(b"router ")?;
    put_name(router, text)?;
    text.extend_from_slice(b"\n")
}

/// A link of a router with one before it, which comes up at both ends.
pub(crate) fn put_link(router: u16, peer: u16, text: &mut Vec<u8>) -> Result<(), AllocError>
    ensures { OnOk result (text.new.items ≡ text.old.items ++ text_of (link_lines router peer)) }
{
    put_between(b"link", router, peer, text)?;
    put_between(b"up", router, peer, text)?;
    put_between(b"up", peer, router, text)
}

/// A client of a router, and what it subscribes to: all keys where `kind` is 0, else the key of that number.
pub(crate) fn put_client(
    client: u16,
    router: u16,
    kind: u32,
    key: u32,
    text: &mut Vec<u8>,
) -> Result<(), AllocError>
    requires { client < 32768 }
    ensures { OnOk result (text.new.items ≡ text.old.items ++ text_of (client_lines client router kind key)) }
{
    put_between(b"client", CLIENTS + client, router, text)?;
    text.extend_from_slice(b"sub ")?;
    put_name(CLIENTS + client, text)?;
    text.extend_from_slice(b" 1 k/")?;
    put_chunk(kind, key, text)?;
    text.extend_from_slice(b"\n")
}

/// A sample of a client, whose payload is the sample's number.
pub(crate) fn put_sample(
    client: u16,
    key: u32,
    number: u32,
    text: &mut Vec<u8>,
) -> Result<(), AllocError>
    requires { client < 32768 }
    ensures { OnOk result (text.new.items ≡ text.old.items ++ text_of (sample_line client key number ∷ [])) }
{
    put_key(client, key, text)?;
    put_payload(number, text)
}

fn put_key(client: u16, key: u32, text: &mut Vec<u8>) -> Result<(), AllocError>
    requires { client < 32768 }
    ensures { OnOk result (text.new.items ≡ text.old.items ++ (codes "put " ++ client_name client ++ codes " k/" ++ decimal key)) }
{
    text.extend_from_slice(b"put ")?;
    put_name(CLIENTS + client, text)?;
    text.extend_from_slice(b" k/")?;
    put_number(key, text)
}

fn put_payload(number: u32, text: &mut Vec<u8>) -> Result<(), AllocError>
    ensures { OnOk result (text.new.items ≡ text.old.items ++ (codes " " ++ decimal number ++ codes "\n")) }
{
    text.extend_from_slice(b" ")?;
    put_number(number, text)?;
    text.extend_from_slice(b"\n")
}

fn put_between(
    command: &[u8],
    first: u16,
    second: u16,
    text: &mut Vec<u8>,
) -> Result<(), AllocError>
    ensures { OnOk result (text.new.items ≡ text.old.items ++ (between command.now (name first) (name second) ++ codes "\n")) }
{
    text.extend_from_slice(command)?;
    text.extend_from_slice(b" ")?;
    put_name(first, text)?;
    text.extend_from_slice(b" ")?;
    put_name(second, text)?;
    text.extend_from_slice(b"\n")
}

fn put_chunk(kind: u32, key: u32, text: &mut Vec<u8>) -> Result<(), AllocError>
    ensures { OnOk result (text.new.items ≡ text.old.items ++ chunk kind key) }
{
    match kind {
        0 => text.extend_from_slice(b"*"),
        _ => put_number(key, text),
    }
}

fn put_name(number: u16, text: &mut Vec<u8>) -> Result<(), AllocError>
    ensures { OnOk result (text.new.items ≡ text.old.items ++ name number) }
{
    let mut digits = [0; 4];
    match hex::encode_to_slice(number.to_be_bytes().as_slice(), &mut digits) {
        Ok(()) => text.extend_from_slice(&digits),
        Err(_) => unreachable!(),
    }
}

fn put_number(number: u32, text: &mut Vec<u8>) -> Result<(), AllocError>
    ensures { OnOk result (text.new.items ≡ text.old.items ++ decimal number) }
{
    let mut buffer = Buffer::new();
    text.extend_from_slice(buffer.format(number).as_bytes())
}
