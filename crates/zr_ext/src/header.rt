//! The header of an extension.

ghost use Rattle.std.specs.Prelude.{◌≡◌, map};
ghost use Rattle.zr_ext.specs.Header.{is_known};
ghost use Rattle.zr_ext.specs.Reading.{form_at, header_of};

use crate::ext::Form;
use zr_bytes::ReadError;

pub(crate) const ID: u8 = 0x0F;

pub(crate) const MANDATORY: u8 = 0x10;

pub(crate) const ENCODING: u8 = 0x60;

pub(crate) const MORE: u8 = 0x80;

/// A header that is not refused.
#[derive(Clone, Copy)]
pub struct Header {
    pub id: u8,
    pub mandatory: bool,
    pub form: Form,
    /// Another extension follows.
    pub more: bool,
}

/// Reads a header. What is not known is refused where it is mandatory.
pub(crate) fn read_header(byte: u8, known: &[(u8, Form)]) -> Result<Header, ReadError>
    ensures { result ≡ header_of known.now byte }
{
    let id = byte & ID;
    let mandatory = byte & MANDATORY != 0;
    let Some(form) = form(byte & ENCODING) else {
        return Err(if mandatory {
            ReadError::Mandatory
        } else {
            ReadError::BadText
        });
    };
    if mandatory && !knows(known, id, form) {
        return Err(ReadError::Mandatory);
    }
    Ok(Header {
        id,
        mandatory,
        form,
        more: byte & MORE != 0,
    })
}

fn form(encoding: u8) -> Option<Form>
    ensures { result ≡ form_at encoding }
{
    match encoding {
        0x00 => Some(Form::Unit),
        0x20 => Some(Form::Number),
        0x40 => Some(Form::Bytes),
        _ => None,
    }
}

pub(crate) fn knows(known: &[(u8, Form)], id: u8, form: Form) -> bool
    ensures { result ≡ is_known known.now id form }
{
    known.iter().any(|k| k.0 == id && k.1.is(form))
}
