//! Reading a chain of extensions.

ghost use Rattle.std.specs.Prelude.{◌≡◌, [], filter, not, ◌∷◌, ◌++◌, IfOk, OnOk, ◌&&◌, ◌==◌};
ghost use Rattle.zr_bytes.specs.Reading.{Reads, Keeps, Steps};
ghost use Rattle.zr_ext.specs.Header.{form_of, same_form};
ghost use Rattle.zr_ext.specs.Chain.{repeats};
ghost use Rattle.zr_ext.specs.Reading.{content_of, ext_of, found_of, chain_of};
ghost use Rattle.zr_ext.specs.Finding.{Passes, with_one, without_value, more_of};

use crate::ext::{Content, Ext, Form};
use crate::header::{knows, read_header};
use std::alloc::{AllocError, Global};
use zr_bytes::{ByteString, Cursor, ReadError};

/// The most bytes of a content.
const MOST: u64 = (1 << 32) - 1;

/// The extensions of a chain that are known by their id and form. Of a repeated one the last counts; an unknown one is
/// skipped, and refused with `Mandatory` where it is mandatory.
pub fn read_chain(
    alloc: Global,
    c: &mut Cursor<'_>,
    known: &[(u8, Form)],
) -> Result<Vec<Ext>, ReadError>
    ensures { Keeps (λ exts. exts.items) result (chain_of known.now c.old) c.old c.new }
{
    let mut ahead = c.fork();
    let found = chain(alloc, &mut ahead, known)?;
    *c = ahead;
    Ok(found)
}

fn chain(alloc: Global, c: &mut Cursor<'_>, known: &[(u8, Form)]) -> Result<Vec<Ext>, ReadError>
    ensures { Steps (λ exts. exts.items) result (chain_of known.now c.old) c.new }
{
    let mut found = Vec::new(alloc);
    // Each extension takes a byte at least.
    'exts: for _ in 0..c.left() {
        let (ext, more) = extension(alloc, c, known)?;
        keep(&mut found, ext)?;
        if !more {
            return Ok(found);
        }
    }
    Err(ReadError::Short)
}

/// Passes over a chain of which no extension is known; a mandatory one is refused with `Mandatory`. It takes no memory.
pub fn skip_chain(c: &mut Cursor<'_>) -> Result<(), ReadError>
    ensures { Reads result (without_value (chain_of [] c.old)) c.old c.new }
{
    let mut ahead = c.fork();
    pass_chain(&mut ahead)?;
    *c = ahead;
    Ok(())
}

fn pass_chain(c: &mut Cursor<'_>) -> Result<(), ReadError>
    ensures { Passes result (without_value (chain_of [] c.old)) c.new }
{
    // Each extension takes a byte at least.
    'exts: for _ in 0..c.left() {
        if !pass_extension(c)? {
            return Ok(());
        }
    }
    Err(ReadError::Short)
}

/// One extension that isn't known, and whether another one follows.
#[tactic(auto, unfolding(crate::specs::Reading::ext_of))]
fn pass_extension(c: &mut Cursor<'_>) -> Result<bool, ReadError>
    ensures { Passes result (more_of (ext_of [] c.old)) c.new }
{
    let head = read_header(c.u8()?, &[])?;
    pass_content(c, head.form)?;
    Ok(head.more)
}

/// One extension, where it is known, and whether another one follows.
#[tactic(auto, unfolding(crate::specs::Reading::found_of, crate::specs::Reading::ext_of))]
fn extension(
    alloc: Global,
    c: &mut Cursor<'_>,
    known: &[(u8, Form)],
) -> Result<(Option<Ext>, bool), ReadError>
    ensures { Steps (λ x. x) result (found_of known.now c.old) c.new }
{
    let head = read_header(c.u8()?, known)?;
    if !knows(known, head.id, head.form) {
        skip_content(c, head.form)?;
        return Ok((None, head.more));
    }
    let content = content(alloc, c, head.form)?;
    let ext = Ext {
        id: head.id,
        mandatory: head.mandatory,
        content,
    };
    Ok((Some(ext), head.more))
}

/// What stands behind a header, kept.
#[tactic(auto, unfolding(crate::specs::Reading::content_of))]
fn content(alloc: Global, c: &mut Cursor<'_>, form: Form) -> Result<Content, ReadError>
    ensures { Steps (λ x. x) result (content_of form c.old) c.new }
{
    Ok(match form {
        Form::Unit => Content::Unit,
        Form::Number => Content::Number(c.zint()?),
        Form::Bytes => Content::Bytes(ByteString::from_slice(alloc, c.bytes(MOST)?)?),
    })
}

/// What stands behind a header, passed over. After a refusal the cursor may stand anywhere.
pub fn skip_content(c: &mut Cursor<'_>, form: Form) -> Result<(), ReadError>
    ensures { Steps (λ x. x) result (without_value (content_of form c.old)) c.new }
{
    pass_content(c, form)
}

#[tactic(auto, unfolding(crate::specs::Reading::content_of))]
fn pass_content(c: &mut Cursor<'_>, form: Form) -> Result<(), ReadError>
    ensures { Passes result (without_value (content_of form c.old)) c.new }
{
    match form {
        Form::Unit => {}
        Form::Number => {
            c.zint()?;
        }
        Form::Bytes => {
            c.bytes(MOST)?;
        }
    }
    Ok(())
}

/// Adds an extension in the place of an earlier one of its id and form.
fn keep(found: &mut Vec<Ext>, ext: Option<Ext>) -> Result<(), AllocError>
    ensures { OnOk result (found.new.items ≡ with_one found.old.items ext) }
{
    let Some(ext) = ext else {
        return Ok(());
    };
    drop_repeated(found, ext.id, ext.content.form());
    found.push(ext)?;
    Ok(())
}

fn drop_repeated(found: &mut Vec<Ext>, id: u8, form: Form)
    ensures { found.new.items ≡ filter (λ e. not (id == e.id && same_form form (form_of e.content))) found.old.items }
{
    found.retain(|e| !(id == e.id && form.is(e.content.form())));
}
