//! The texts that a run writes: report lines, and the line that tells a refusal.

ghost use Rattle.std.specs.Prelude.{◌≡◌, ◌++◌, [], codes, OnOk, OnErr};
ghost use Rattle.std.specs.Fmt.{decimal};
ghost use Rattle.std.specs.List.{flat_map};
ghost use Rattle.zr_script_spec.specs.Report.{decl_text, line_end, line_text, msg_text, rest_text, id_text, optional_id_text, record_text, refusal_text, refused_text};
ghost use Rattle.zr_bytes.specs.Writing.{KeepsFront};

use crate::message::{put_decls, put_msg, put_record};
use crate::part::{put_id, put_named, put_numbered, put_optional_id, put_tag};
use std::alloc::AllocError;
use zr_bytes::all_or_nothing;
use zr_id::record::LinkRecord;
use zr_id::zid::Zid;
use zr_msg::decl::Decl;
use zr_msg::msg::Msg;
use zr_script_spec::error::ScriptError;
use zr_script_spec::report::ReportLine;

/// Appends the text of a report line, its end included. Where memory runs out nothing is appended.
pub fn line_text(line: &ReportLine, out: &mut Vec<u8>) -> Result<(), AllocError>
    ensures ok { OnOk result (out.new.items ≡ out.old.items ++ line_text line.now) }
    ensures err { OnErr result (out.new.items ≡ out.old.items) }
{
    let start = out.len();
    let put = put_line(line, out);
    all_or_nothing(out, start, put)
}

/// Writes `line N: NUMBER NAME`, its end included, in the place of what was there. Where memory runs out nothing is there.
pub fn refused_text(number: u64, error: ScriptError, text: &mut Vec<u8>) -> Result<(), AllocError>
    ensures ok { OnOk result (text.new.items ≡ refused_text number error) }
    ensures err { OnErr result (text.new.items ≡ []) }
{
    text.clear();
    match put_refused(number, error, text) {
        Ok(()) => Ok(()),
        Err(_) => {
            text.clear();
            Err(AllocError)
        }
    }
}

/// Appends the text of the line that tells that a router has handled a message of a neighbour.
pub fn put_handled(
    router: &Zid,
    from: &Zid,
    msg: &Msg,
    tag: u64,
    out: &mut Vec<u8>,
) -> Result<(), AllocError>
    ensures ok { OnOk result (out.new.items ≡ out.old.items ++ line_text (ReportLine.Handled router.now from.now msg.now tag)) }
    ensures err { OnErr result (KeepsFront out.old.items out.new.items) }
{
    put_step(router, b" < ", from, msg, tag, out)
}

/// Appends the text of the line that tells that a router's message went to a neighbour.
pub fn put_taken(
    router: &Zid,
    to: &Zid,
    msg: &Msg,
    tag: u64,
    out: &mut Vec<u8>,
) -> Result<(), AllocError>
    ensures ok { OnOk result (out.new.items ≡ out.old.items ++ line_text (ReportLine.Taken router.now to.now msg.now tag)) }
    ensures err { OnErr result (KeepsFront out.old.items out.new.items) }
{
    put_step(router, b" > ", to, msg, tag, out)
}

fn put_line(line: &ReportLine, out: &mut Vec<u8>) -> Result<(), AllocError>
    ensures ok { OnOk result (out.new.items ≡ out.old.items ++ line_text line.now) }
    ensures err { OnErr result (KeepsFront out.old.items out.new.items) }
{
    match line {
        ReportLine::Handled {
            router,
            from,
            msg,
            tag,
        } => put_handled(router, from, msg, *tag, out),
        ReportLine::Taken {
            router,
            to,
            msg,
            tag,
        } => put_taken(router, to, msg, *tag, out),
        ReportLine::Ran { steps, quiet } => put_ran(*steps, *quiet, out),
        ReportLine::Fanned { lines, steps, .. } => put_fanned(lines.as_slice(), *steps, out),
        ReportLine::Mark { line } => put_mark(*line, out),
        ReportLine::Show { router } => put_show(router, out),
        ReportLine::Record { record } => put_record_line(record, out),
        ReportLine::Parent { root, parent } => put_parent(root, parent, out),
        ReportLine::Source {
            source,
            number,
            decls,
        } => put_source(source, *number, decls.as_slice(), out),
    }
}

fn put_step(
    router: &Zid,
    arrow: &[u8],
    other: &Zid,
    msg: &Msg,
    tag: u64,
    out: &mut Vec<u8>,
) -> Result<(), AllocError>
    ensures ok { OnOk result (out.new.items ≡ out.old.items ++ (id_text router.now ++ arrow.now ++ id_text other.now ++ codes ": " ++ msg_text msg.now ++ codes " #" ++ decimal tag ++ line_end)) }
    ensures err { OnErr result (KeepsFront out.old.items out.new.items) }
{
    put_ends(router, arrow, other, out)?;
    put_msg(msg, out)?;
    put_tag(tag, out)
}

// The router and the other end, with the arrow between them.
fn put_ends(router: &Zid, arrow: &[u8], other: &Zid, out: &mut Vec<u8>) -> Result<(), AllocError>
    ensures ok { OnOk result (out.new.items ≡ out.old.items ++ (id_text router.now ++ arrow.now ++ id_text other.now ++ codes ": ")) }
    ensures err { OnErr result (KeepsFront out.old.items out.new.items) }
{
    put_id(router, out)?;
    put_named(arrow, other, out)?;
    out.extend_from_slice(b": ")
}

fn put_ran(steps: u32, quiet: bool, out: &mut Vec<u8>) -> Result<(), AllocError>
    ensures ok { OnOk result (out.new.items ≡ out.old.items ++ (codes "run " ++ decimal steps ++ rest_text quiet ++ line_end)) }
    ensures err { OnErr result (KeepsFront out.old.items out.new.items) }
{
    put_numbered(b"run ", u64::from(steps), out)?;
    out.extend_from_slice(rest_text(quiet))?;
    out.extend_from_slice(b"\n")
}

fn rest_text(quiet: bool) -> &'static [u8]
    ensures { result.now ≡ rest_text quiet }
{
    if quiet { b" quiet" } else { b" more" }
}

fn put_fanned(lines: &[u8], steps: u64, out: &mut Vec<u8>) -> Result<(), AllocError>
    ensures ok { OnOk result (out.new.items ≡ out.old.items ++ (lines.now ++ codes "fan " ++ decimal steps ++ line_end)) }
    ensures err { OnErr result (KeepsFront out.old.items out.new.items) }
{
    out.extend_from_slice(lines)?;
    put_numbered(b"fan ", steps, out)?;
    out.extend_from_slice(b"\n")
}

fn put_mark(line: u64, out: &mut Vec<u8>) -> Result<(), AllocError>
    ensures ok { OnOk result (out.new.items ≡ out.old.items ++ (codes "mark #" ++ decimal line ++ line_end)) }
    ensures err { OnErr result (KeepsFront out.old.items out.new.items) }
{
    put_numbered(b"mark #", line, out)?;
    out.extend_from_slice(b"\n")
}

fn put_show(router: &Zid, out: &mut Vec<u8>) -> Result<(), AllocError>
    ensures ok { OnOk result (out.new.items ≡ out.old.items ++ (codes "show " ++ id_text router.now ++ line_end)) }
    ensures err { OnErr result (KeepsFront out.old.items out.new.items) }
{
    put_named(b"show ", router, out)?;
    out.extend_from_slice(b"\n")
}

fn put_record_line(record: &LinkRecord, out: &mut Vec<u8>) -> Result<(), AllocError>
    ensures ok { OnOk result (out.new.items ≡ out.old.items ++ (record_text record.now ++ line_end)) }
    ensures err { OnErr result (KeepsFront out.old.items out.new.items) }
{
    put_record(record, out)?;
    out.extend_from_slice(b"\n")
}

fn put_parent(root: &Zid, parent: &Option<Zid>, out: &mut Vec<u8>) -> Result<(), AllocError>
    ensures ok { OnOk result (out.new.items ≡ out.old.items ++ (codes "parent " ++ id_text root.now ++ codes " " ++ optional_id_text parent.now ++ line_end)) }
    ensures err { OnErr result (KeepsFront out.old.items out.new.items) }
{
    put_named(b"parent ", root, out)?;
    out.extend_from_slice(b" ")?;
    put_optional_id(parent, out)?;
    out.extend_from_slice(b"\n")
}

fn put_source(
    source: &Zid,
    number: u64,
    decls: &[Decl],
    out: &mut Vec<u8>,
) -> Result<(), AllocError>
    ensures ok { OnOk result (out.new.items ≡ out.old.items ++ (codes "source " ++ id_text source.now ++ codes " " ++ decimal number ++ flat_map decl_text decls.now ++ line_end)) }
    ensures err { OnErr result (KeepsFront out.old.items out.new.items) }
{
    put_named(b"source ", source, out)?;
    put_numbered(b" ", number, out)?;
    put_decls(decls, out)?;
    out.extend_from_slice(b"\n")
}

fn put_refused(number: u64, error: ScriptError, out: &mut Vec<u8>) -> Result<(), AllocError>
    ensures ok { OnOk result (out.new.items ≡ out.old.items ++ refused_text number error) }
    ensures err { OnErr result (KeepsFront out.old.items out.new.items) }
{
    put_numbered(b"line ", number, out)?;
    out.extend_from_slice(b": ")?;
    out.extend_from_slice(refusal_text(error))?;
    out.extend_from_slice(b"\n")
}

fn refusal_text(error: ScriptError) -> &'static [u8]
    ensures { result.now ≡ refusal_text error }
{
    match error {
        ScriptError::UnknownCommand => b"1 UnknownCommand",
        ScriptError::BadWords => b"2 BadWords",
        ScriptError::UnknownName => b"3 UnknownName",
        ScriptError::NameTaken => b"4 NameTaken",
        ScriptError::BadKey => b"5 BadKey",
        ScriptError::AlreadyLinked => b"6 AlreadyLinked",
        ScriptError::NotLinked => b"7 NotLinked",
        ScriptError::NothingThere => b"8 NothingThere",
        ScriptError::NotAsked => b"9 NotAsked",
        ScriptError::NotSettled => b"10 NotSettled",
        ScriptError::NotSamples => b"13 NotSamples",
        ScriptError::NotJoined => b"11 NotJoined",
        ScriptError::Limit => b"12 Limit",
        ScriptError::NoMemory => b"",
    }
}
