//! Names, acts and messages for rows. Where a row's text is none, that is told as out of memory: the test fails by either.

use std::alloc::{AllocError, Global};
use zr_id::zid::Zid;
use zr_msg::extras::Extras;
use zr_msg::msg::Msg;
use zr_msg::shared::Shared;
use zr_script::line::read_line;
use zr_script_spec::command::{Act, Command};

/// The name of one byte.
pub fn name(byte: u8) -> Result<Zid, AllocError> {
    match Zid::from_bytes(&[byte]) {
        Ok(id) => Ok(id),
        Err(_) => Err(AllocError),
    }
}

/// The act of a line, if it is one.
pub fn act_of(alloc: Global, line: &[u8]) -> Result<Option<Act>, AllocError> {
    match read_line(alloc, line) {
        Ok(Some(Command::Act { act })) => Ok(Some(act)),
        Ok(Some(Command::Run { .. } | Command::Fan)) | Ok(None) => Ok(None),
        Err(_) => Err(AllocError),
    }
}

/// A message like the one that a line brings, under a number that is higher by so much.
pub fn message(alloc: Global, line: &[u8], more: u32) -> Result<Msg, AllocError> {
    match act_of(alloc, line)? {
        Some(act) => message_of(alloc, act, more),
        None => Err(AllocError),
    }
}

// The same of an act.
fn message_of(alloc: Global, act: Act, more: u32) -> Result<Msg, AllocError> {
    match act {
        Act::Sub { client: _, id, key } => Ok(Msg::Sub {
            id: id.wrapping_add(more),
            key,
        }),
        Act::Able {
            client: _,
            id,
            key,
            complete,
        } => Ok(Msg::Able {
            id: id.wrapping_add(more),
            key,
            complete,
        }),
        Act::Publish { client: _, content } => Ok(Msg::Push {
            tree: None,
            content,
        }),
        other => message_of_query(alloc, other, more),
    }
}

// The same of an act on a query.
fn message_of_query(alloc: Global, act: Act, more: u32) -> Result<Msg, AllocError> {
    match act {
        Act::Get {
            client: _,
            number,
            target,
            content,
        } => Ok(Msg::Request {
            tree: None,
            id: number.wrapping_add(more),
            target,
            content,
        }),
        Act::Reply {
            client: _,
            number,
            content,
        } => Ok(Msg::Response {
            id: number.wrapping_add(more),
            content,
        }),
        Act::End { client: _, number } => last(alloc, number.wrapping_add(more)),
        other => no_message(other),
    }
}

fn no_message(_act: Act) -> Result<Msg, AllocError> {
    Err(AllocError)
}

fn last(alloc: Global, id: u32) -> Result<Msg, AllocError> {
    let extras = Shared::new(alloc, Extras::none())?;
    Ok(Msg::Final { id, extras })
}
