//! Extensions of a message, where its header tells of any.

ghost use Rattle.std.specs.Prelude.{◌≡◌};
ghost use Rattle.zr_bytes.specs.Reading.{Steps};
ghost use Rattle.zr_format_spec.specs.Reading.{exts_of};

use crate::header::EXTENSIONS;
use std::alloc::Global;
use zr_bytes::{Cursor, ReadError};
use zr_ext::{Ext, Form, read_chain};

/// The extensions that are known, where any follow. After a refusal the cursor may stand anywhere.
#[tactic(auto, unfolding(crate::specs::Reading::exts_of))]
pub fn read_extensions(
    alloc: Global,
    c: &mut Cursor<'_>,
    header: u8,
    known: &[(u8, Form)],
) -> Result<Vec<Ext>, ReadError>
    ensures { Steps (λ exts. exts.items) result (exts_of known.now header c.old) c.new }
{
    if header & EXTENSIONS == 0 {
        return Ok(Vec::new(alloc));
    }
    read_chain(alloc, c, known)
}
