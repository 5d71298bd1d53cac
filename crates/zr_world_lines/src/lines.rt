//! `Lines`: lines that are put one behind another into one text.

ghost use Rattle.std.specs.Prelude.{◌≡◌, ◌∷◌, ◌++◌, ◌-◌, ◌≤◌, [], IsOk, OnOk, OnErr, IfOk, length, map, slice_get, take};
ghost use Rattle.std.specs.List.{concat, sum};
ghost use Rattle.std.specs.Option.{option_map};
ghost use Rattle.zr_script_spec.specs.Report.{line_text};
ghost use Rattle.zr_world_lines.specs.Lines.{cut};

use std::alloc::{AllocError, Global};
use std::marker::Model;
use zr_bytes::all_or_nothing;
use zr_id::zid::Zid;
use zr_msg::msg::Msg;
use zr_script::text::{put_handled, put_taken};
use zr_script_spec::report::ReportLine;

/// Lines. Contracts see the list of their texts.
#[derive(Drop)]
pub struct Lines {
    // one behind another
    text: Vec<u8>,
    // how many bytes each has
    lengths: Vec<usize>,
}

impl Model for Lines {
    ghost use Rattle.std.specs.Prelude.{◌≡◌, ℕ, List, length};
    ghost use Rattle.std.specs.List.{sum};
    ghost use Rattle.zr_world_lines.specs.Lines.{cut};

    ghost Value = { List (List ℕ) };

    ghost view = { λ l. cut l.lengths.items l.text.items };

    ghost invariant = { λ l. sum l.lengths.items ≡ length l.text.items };
}

impl Lines {
    /// No lines.
    pub fn new(alloc: Global) -> Lines
        ensures { result ≡ [] }
    {
        Lines {
            text: Vec::new(alloc),
            lengths: Vec::new(alloc),
        }
    }

    /// These lines.
    pub fn gather(alloc: Global, lines: &[&[u8]]) -> Result<Lines, AllocError>
        ensures { IfOk result (λ v. v ≡ map (λ l. l.now) lines.now) }
    {
        let mut text = Vec::with_capacity(alloc, bytes_of(lines))?;
        let mut lengths = Vec::with_capacity(alloc, lines.len())?;
        for line in lines {
            text.extend_from_slice(line)?;
            lengths.push(line.len())?;
        }
        Ok(Lines { text, lengths })
    }

    /// How many they are.
    pub fn len(&self) -> usize
        ensures { result ≡ length self.now }
    {
        self.lengths.len()
    }

    /// Their text, one behind another.
    pub fn text(&self) -> &[u8]
        ensures { result.now ≡ concat self.now }
    {
        &self.text
    }

    /// The first, if there is one.
    pub fn first(&self) -> Option<&[u8]>
        ensures { option_map (λ l. l.now) result ≡ slice_get self.now 0 }
    {
        match self.lengths.first() {
            Some(size) => Some(&self.text[..*size]),
            None => None,
        }
    }

    /// The last, if there is one.
    pub fn last(&self) -> Option<&[u8]>
        ensures { option_map (λ l. l.now) result ≡ slice_get self.now (length self.now - 1) }
    {
        match self.lengths.last() {
            Some(size) => Some(&self.text[self.text.len() - *size..]),
            None => None,
        }
    }

    /// Each of them behind some others.
    pub fn list<'a>(&'a self, others: Vec<&'a [u8]>) -> Result<Vec<&'a [u8]>, AllocError>
        ensures { IfOk result (λ v. map (λ l. l.now) v.items ≡ map (λ l. l.now) others.entry.items ++ self.now) }
    {
        list_each(&self.text, &self.lengths, others)
    }

    /// One more: the line that tells that a router has handled a message of a neighbour.
    pub fn add_handled(
        &mut self,
        router: &Zid,
        from: &Zid,
        msg: &Msg,
        tag: u64,
    ) -> Result<(), AllocError>
        ensures { OnOk result (self.new ≡ self.old ++ line_text (ReportLine.Handled router.now from.now msg.now tag) ∷ []) }
    {
        let start = self.text.len();
        let put = put_handled(router, from, msg, tag, &mut self.text);
        end_line(&mut self.text, &mut self.lengths, start, put)
    }

    /// One more: the line that tells that a router's message went to a neighbour.
    pub fn add_taken(
        &mut self,
        router: &Zid,
        to: &Zid,
        msg: &Msg,
        tag: u64,
    ) -> Result<(), AllocError>
        ensures { OnOk result (self.new ≡ self.old ++ line_text (ReportLine.Taken router.now to.now msg.now tag) ∷ []) }
    {
        let start = self.text.len();
        let put = put_taken(router, to, msg, tag, &mut self.text);
        end_line(&mut self.text, &mut self.lengths, start, put)
    }
}

// The line behind the first `start` bytes ends, if it was put. Where memory runs out nothing of it is left.
fn end_line(
    text: &mut Vec<u8>,
    lengths: &mut Vec<usize>,
    start: usize,
    put: Result<(), AllocError>,
) -> Result<(), AllocError>
    requires { start ≤ length text.old.items }
    ensures put { OnOk result (IsOk put) }
    ensures text { OnOk result (text.new.items ≡ text.old.items) }
    ensures length { OnOk result (lengths.new.items ≡ lengths.old.items ++ (length text.old.items - start) ∷ []) }
    ensures front { OnErr result (text.new.items ≡ take start text.old.items) }
    ensures none { OnErr result (lengths.new.items ≡ lengths.old.items) }
{
    let done = match put {
        Ok(()) => keep_length(lengths, text.len() - start),
        Err(error) => Err(error),
    };
    all_or_nothing(text, start, done)
}

// One more line has so many bytes. Where memory runs out nothing is kept of it.
fn keep_length(lengths: &mut Vec<usize>, size: usize) -> Result<(), AllocError>
    ensures ok { OnOk result (lengths.new.items ≡ lengths.old.items ++ size ∷ []) }
    ensures err { OnErr result (lengths.new.items ≡ lengths.old.items) }
{
    lengths.push(size)?;
    Ok(())
}

// Each line of a text behind some others.
fn list_each<'a>(
    text: &'a [u8],
    lengths: &[usize],
    others: Vec<&'a [u8]>,
) -> Result<Vec<&'a [u8]>, AllocError>
    requires { sum lengths.now ≡ length text.now }
    ensures { IfOk result (λ v. map (λ l. l.now) v.items ≡ map (λ l. l.now) others.entry.items ++ cut lengths.now text.now) }
{
    let mut all = others;
    let mut rest = text;
    for size in lengths {
        let (line, after) = rest.split_at(*size);
        all.push(line)?;
        rest = after;
    }
    Ok(all)
}

// How many bytes lines have together, or at least as many as there can be.
fn bytes_of(lines: &[&[u8]]) -> usize {
    let mut sum: usize = 0;
    for line in lines {
        sum = sum.saturating_add(line.len());
    }
    sum
}
