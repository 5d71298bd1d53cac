//! Reading a message between routers.

ghost use Rattle.std.specs.Prelude.{◌≡◌, ◌<◌, IfOk, bit_and};
ghost use Rattle.std.specs.List.{AllByRecursion};
ghost use Rattle.std.specs.Option.{IfSome};
ghost use Rattle.zr_bytes.specs.Reading.{Gives, Keeps, Steps};
ghost use Rattle.zr_ext.specs.Reading.{form_at};
ghost use Rattle.zr_format_spec.specs.Reading.{Makes, no_more, whole_of};
ghost use Rattle.zr_oam.specs.Oam.{or_bad_text};
ghost use Rattle.zr_oam.specs.Reading.{state_of, declarations_of, own_of, other_of, behind_of, oam_of};
ghost use Rattle.zr_oam.specs.Writing.{Fits};

use crate::decl::read_declarations;
use crate::parts::{DECLARATIONS, ENCODING, MOST_CONTENT, OAM, OWN, RECORD, WEIGHTED_RECORD};
use crate::record::read_record;
use std::alloc::Global;
use zr_bytes::{Cursor, ReadError};
use zr_ext::{Form, skip_content};
use zr_format_spec::header::ID;
use zr_format_spec::read_extensions;
use zr_msg::msg::Msg;
use zr_msg::shared::Shared;

/// The OAM message at the front (Zenoh protocol 1.0, "OAM"): a record or declarations of a router, or nothing where it is another one, which is
/// read and ignored. `UnknownId` is for a header of another message, `Extra` for bytes behind the end of a router's content, and `BadText` for
/// what breaks the rules of these: a header other than 5F, identifiers or declarations that don't ascend, a record that lists its own router, a
/// weight 0, a number 0, a key that is not canonical. What was read can be written.
pub fn read_oam(alloc: Global, c: &mut Cursor<'_>) -> Result<Option<Msg>, ReadError>
    ensures value { Keeps (λ m. m) result (oam_of c.old) c.old c.new }
    ensures fits { IfOk result (λ m. IfSome m (λ m. Fits m)) }
{
    let mut ahead = c.fork();
    are_bytes(ahead.as_slice());
    let msg = message(alloc, &mut ahead)?;
    *c = ahead;
    Ok(msg)
}

// What a slice holds are bytes, as its type keeps it.
fn are_bytes(bytes: &[u8])
    ensures { AllByRecursion (λ b. b < 256) bytes.now }
{}

#[tactic(auto, unfolding(crate::specs::Reading::oam_of))]
fn message(alloc: Global, c: &mut Cursor<'_>) -> Result<Option<Msg>, ReadError>
    ensures { Steps (λ m. m) result (oam_of c.old) c.new }
{
    let header = c.u8()?;
    if header & ID == OAM {
        behind(alloc, c, header)
    } else {
        Err(ReadError::UnknownId)
    }
}

#[tactic(auto, unfolding(crate::specs::Reading::behind_of))]
fn behind(alloc: Global, c: &mut Cursor<'_>, header: u8) -> Result<Option<Msg>, ReadError>
    ensures { Steps (λ m. m) result (behind_of header c.old) c.new }
{
    let form = form(header)?;
    match c.z16()? {
        RECORD => read_state(alloc, c, header, false),
        WEIGHTED_RECORD => read_state(alloc, c, header, true),
        DECLARATIONS => read_entries(alloc, c, header),
        _ => read_other(alloc, c, header, form),
    }
}

/// The form of the content.
fn form(header: u8) -> Result<Form, ReadError>
    ensures { result ≡ or_bad_text (form_at (bit_and header 96)) }
{
    match header & ENCODING {
        0x00 => Ok(Form::Unit),
        0x20 => Ok(Form::Number),
        0x40 => Ok(Form::Bytes),
        _ => Err(ReadError::BadText),
    }
}

#[tactic(auto, unfolding(crate::specs::Reading::own_of))]
fn read_state(
    alloc: Global,
    c: &mut Cursor<'_>,
    header: u8,
    weighted: bool,
) -> Result<Option<Msg>, ReadError>
    ensures { Steps (λ m. m) result (own_of (state_of weighted) header c.old) c.new }
{
    if header != OWN {
        return Err(ReadError::BadText);
    }
    let content = c.bytes(MOST_CONTENT)?;
    let msg = whole_state(alloc, content, weighted)?;
    Ok(Some(msg))
}

#[tactic(auto, unfolding(crate::specs::Reading::own_of))]
fn read_entries(alloc: Global, c: &mut Cursor<'_>, header: u8) -> Result<Option<Msg>, ReadError>
    ensures { Steps (λ m. m) result (own_of declarations_of header c.old) c.new }
{
    if header != OWN {
        return Err(ReadError::BadText);
    }
    let content = c.bytes(MOST_CONTENT)?;
    let msg = whole_declarations(alloc, content)?;
    Ok(Some(msg))
}

fn whole_state(alloc: Global, content: &[u8], weighted: bool) -> Result<Msg, ReadError>
    ensures { Makes (λ m. m) result (whole_of (state_of weighted) content.now) }
{
    let mut c = Cursor::new(content);
    let msg = state(alloc, &mut c, weighted)?;
    no_more(&c)?;
    Ok(msg)
}

fn whole_declarations(alloc: Global, content: &[u8]) -> Result<Msg, ReadError>
    ensures { Makes (λ m. m) result (whole_of declarations_of content.now) }
{
    let mut c = Cursor::new(content);
    let msg = read_declarations(alloc, &mut c)?;
    no_more(&c)?;
    Ok(msg)
}

fn no_more(c: &Cursor<'_>) -> Result<(), ReadError>
    ensures { result ≡ no_more c.now }
{
    match c.as_slice() {
        [] => Ok(()),
        _ => Err(ReadError::Extra),
    }
}

#[tactic(auto, unfolding(crate::specs::Reading::state_of))]
fn state(alloc: Global, c: &mut Cursor<'_>, weighted: bool) -> Result<Msg, ReadError>
    ensures { Steps (λ m. m) result (state_of weighted c.old) c.new }
{
    let record = read_record(alloc, c, weighted)?;
    Ok(Msg::State {
        links: Shared::new(alloc, record)?,
    })
}

/// Another message: it is passed over.
#[tactic(auto, unfolding(crate::specs::Reading::other_of))]
fn read_other(
    alloc: Global,
    c: &mut Cursor<'_>,
    header: u8,
    form: Form,
) -> Result<Option<Msg>, ReadError>
    ensures { Steps (λ m. m) result (other_of header form c.old) c.new }
{
    read_extensions(alloc, c, header, &[])?;
    skip_content(c, form)?;
    Ok(None)
}
