//! What a peer did for which this end closes a session, in words for a log.

use crate::carried::{Carried, begins_network, read_carried};
use crate::fate::End;
use crate::phase::{Established, Phase};
use crate::stop::ReadStop;
use std::alloc::{AllocError, Global};
use zr_bytes::{ByteString, Cursor, ReadError};
use zr_decl::{Declared, INTEREST};
use zr_format_spec::header::{FIRST, ID};
use zr_format_spec::read_extensions;
use zr_net::{REQUEST, RESPONSE};
use zr_oam::OAM;
use zr_open::Reason;
use zr_trans::{Trans, read_trans};
use zr_wirekey::{DECLARE, Scopes, read_parts};

/// How many bytes of a key are told at most.
const MOST_KEY: usize = 100;

/// Why the message at the front stopped a session, where this end closes it for what the peer sent; nothing where memory runs out.
pub(crate) fn why(
    alloc: Global,
    stop: ReadStop,
    phase: &Phase,
    in_frame: bool,
    bytes: &[u8],
) -> Option<String> {
    match stop {
        ReadStop::Ended(End::Closed(Reason::Invalid | Reason::Generic)) => {
            said(alloc, phase, in_frame, bytes).ok()
        }
        ReadStop::Ended(_) | ReadStop::NoMemory => None,
    }
}

// The message is read once more, now for what is wrong with it.
fn said(alloc: Global, phase: &Phase, in_frame: bool, bytes: &[u8]) -> Result<String, AllocError> {
    if !(in_frame && begins_network(bytes)) {
        return transport(alloc, phase, bytes);
    }
    match phase {
        Phase::Opening(_) => String::from_str(alloc, "a message stands before the session is open"),
        Phase::Established(session) => network(alloc, session, bytes),
    }
}

fn transport(alloc: Global, phase: &Phase, bytes: &[u8]) -> Result<String, AllocError> {
    let mut c = Cursor::new(bytes);
    let words = match (read_trans(alloc, &mut c), phase) {
        (Err(e), _) => return format!(in alloc; "{e}"),
        (Ok(Trans::Init { .. }), Phase::Opening(_)) => {
            "INIT is out of turn, or its sizes are not taken"
        }
        (Ok(Trans::Open { .. }), Phase::Opening(_)) => {
            "OPEN is out of turn, or its cookie or its lease is not taken"
        }
        (Ok(Trans::Init { .. } | Trans::Open { .. }), Phase::Established(_)) => {
            "the session is open already"
        }
        (Ok(Trans::Frame { .. }), Phase::Established(_)) => "a frame has not the next number",
        (Ok(Trans::Fragment { .. }), Phase::Established(_)) => {
            "a fragment has not the next number, or the message that it ends is too long or can't be read"
        }
        (Ok(Trans::Frame { .. } | Trans::Fragment { .. }), Phase::Opening(_)) => {
            "a message stands before the session is open"
        }
        (Ok(Trans::Close { .. } | Trans::KeepAlive), _) => "a message is out of place",
    };
    String::from_str(alloc, words)
}

fn network(alloc: Global, session: &Established, bytes: &[u8]) -> Result<String, AllocError> {
    let mut c = Cursor::new(bytes);
    match read_carried(alloc, &mut c, session.role, &session.keys) {
        Ok(Carried::Network(Declared::Number(number, _))) => {
            format!(in alloc; "with number {number} the texts of its numbers are too long together")
        }
        Ok(_) => String::from_str(alloc, "a peer of its role may not send such a message"),
        Err(ReadError::BadKey) => bad_key(alloc, &session.keys, bytes),
        Err(e) => format!(in alloc; "{e}"),
    }
}

// The rule, and the key that breaks it, where it is found.
fn bad_key(alloc: Global, keys: &Scopes, bytes: &[u8]) -> Result<String, AllocError> {
    let rule = ReadError::BadKey;
    match key_in(alloc, keys, bytes) {
        Ok(key) => {
            let all = key.as_slice();
            let shown = String::from_utf8_lossy(alloc, &all[..all.len().min(MOST_KEY)])?;
            let text = shown.as_str();
            let rest = if all.len() > MOST_KEY { ".." } else { "" };
            format!(in alloc; "{rule}: {text:?}{rest}")
        }
        Err(_) => format!(in alloc; "{rule}"),
    }
}

// The text of the key of a network message, which need not be an expression.
fn key_in(alloc: Global, keys: &Scopes, bytes: &[u8]) -> Result<ByteString, ReadError> {
    let mut c = Cursor::new(bytes);
    let flags = pass_to_key(alloc, &mut c)?;
    let (scope, suffix) = read_parts(&mut c, flags & FIRST != 0, keys)?;
    let mut text = scope.to_vec(alloc)?;
    text.extend_from_slice(suffix)?;
    Ok(ByteString::new(text))
}

// Passes over what stands before the key. The answer is the byte in which the key's flags are.
fn pass_to_key(alloc: Global, c: &mut Cursor<'_>) -> Result<u8, ReadError> {
    let header = c.u8()?;
    match header & ID {
        REQUEST | RESPONSE => {
            c.z32()?;
            Ok(header)
        }
        INTEREST => {
            c.z32()?;
            c.u8()
        }
        DECLARE => {
            if header & FIRST != 0 {
                c.z32()?;
            }
            read_extensions(alloc, c, header, &[])?;
            let inner = c.u8()?;
            c.z32()?;
            Ok(inner)
        }
        OAM => Err(ReadError::BadKey),
        _ => Ok(header),
    }
}
