//! The lines that serving writes.

ghost use Rattle.std.specs.Prelude.{◌≡◌, ◌≤◌, Err, IfErr, IfOk, OnErr, OnOk};
ghost use Rattle.std.specs.String.{string_bytes};
ghost use Rattle.zr_outside.specs.Counts.{Rose, RoseOnlyBy};
ghost use Rattle.zr_outside.specs.Told.{Appends, AppendsPrefix};
ghost use Rattle.zr_serve.specs.Lines.{dial_text, failed_text, listen_text, refused_text, serving_text, used_text};
ghost use Rattle.zr_serve.specs.Serving.{Says};
ghost use Rattle.zr_serve.specs.Unsaid.{end_of_unsaid};
ghost use Rattle.zr_serve.specs.declared.lines.Unsaid.TheVariants.{Fault};

use crate::end::ServeEnd;
use std::alloc::{AllocError, Global};
use zr_id::zid::Zid;
use zr_outside::sink::{Sink, WriteFailed, write_all};

/// Why a line was not written.
#[derive(Clone, Copy)]
pub(crate) enum Unsaid {
    Fault,
    NoMemory,
}

impl Unsaid {
    pub(crate) fn end(self) -> ServeEnd
        ensures { result ≡ end_of_unsaid self }
    {
        match self {
            Unsaid::Fault => ServeEnd::WriteFault,
            Unsaid::NoMemory => ServeEnd::NoMemory,
        }
    }
}

/// The line that a router is served, once it listens.
#[tactic(auto, using(zr_outside::proofs::Appending::prefix_none))]
pub(crate) fn say_serving<K: Sink>(alloc: Global, id: &Zid, out: &mut K) -> Result<(), Unsaid>
    ensures said { OnOk result (Appends (serving_text id.now) (K.held out.old) (K.held out.new)) }
    ensures part { OnErr result (AppendsPrefix (serving_text id.now) (K.held out.old) (K.held out.new)) }
    ensures fault { result ≡ Err Fault → Rose (K.faults out.old) (K.faults out.new) }
    ensures only { RoseOnlyBy Fault result (K.faults out.old) (K.faults out.new) }
    ensures later { K.faults out.old ≤ K.faults out.new }
{
    match serving_line(alloc, id) {
        Ok(line) => say(line.as_bytes(), out),
        Err(_) => Err(Unsaid::NoMemory),
    }
}

/// The line that an address was dialled in vain. It is one write, since links that were dialled before may have logs, whose threads write to the same output.
#[tactic(auto, using(zr_outside::proofs::Appending::prefix_none))]
pub(crate) fn say_not_dialled<K: Sink>(
    alloc: Global,
    address: &str,
    out: &mut K,
) -> Result<(), Unsaid>
    ensures said { OnOk result (Appends (dial_text address.now) (K.held out.old) (K.held out.new)) }
    ensures part { OnErr result (AppendsPrefix (dial_text address.now) (K.held out.old) (K.held out.new)) }
    ensures fault { result ≡ Err Fault → Rose (K.faults out.old) (K.faults out.new) }
    ensures only { RoseOnlyBy Fault result (K.faults out.old) (K.faults out.new) }
    ensures later { K.faults out.old ≤ K.faults out.new }
{
    match dial_line(alloc, address) {
        Ok(line) => say(line.as_bytes(), out),
        Err(_) => Err(Unsaid::NoMemory),
    }
}

/// The line that the router's identifier was in use before. It is one write, since links may have logs.
#[tactic(auto, using(zr_outside::proofs::Appending::prefix_none))]
pub(crate) fn say_used<K: Sink>(alloc: Global, id: &Zid, out: &mut K) -> Result<(), Unsaid>
    ensures said { OnOk result (Appends (used_text id.now) (K.held out.old) (K.held out.new)) }
    ensures part { OnErr result (AppendsPrefix (used_text id.now) (K.held out.old) (K.held out.new)) }
    ensures fault { result ≡ Err Fault → Rose (K.faults out.old) (K.faults out.new) }
    ensures only { RoseOnlyBy Fault result (K.faults out.old) (K.faults out.new) }
    ensures later { K.faults out.old ≤ K.faults out.new }
{
    match used_line(alloc, id) {
        Ok(line) => say(line.as_bytes(), out),
        Err(_) => Err(Unsaid::NoMemory),
    }
}

/// The line that the router can't listen at an address. It is told before serving ends anyway, so a write that fails changes nothing of that.
pub(crate) fn say_not_listening<K: Sink>(address: &str, out: &mut K)
    ensures says { Says (listen_text address.now) (K.held out.old) (K.held out.new) (K.faults out.old) (K.faults out.new) }
    ensures later { K.faults out.old ≤ K.faults out.new }
{
    let _ = say_failed("listen ", address, out);
}

// It is three writes, which ask for no memory, so that only a write that fails can keep the line back. No link is there yet whose log could come between.
#[tactic(auto, using(zr_outside::proofs::Appending::appends_both, zr_outside::proofs::Appending::prefix_more, zr_outside::proofs::Appending::prefix_written, zr_outside::proofs::Appending::prefix_behind))]
fn say_failed<K: Sink>(head: &str, address: &str, out: &mut K) -> Result<(), WriteFailed>
    ensures said { OnOk result (Appends (failed_text head.now address.now) (K.held out.old) (K.held out.new)) }
    ensures part { OnErr result (AppendsPrefix (failed_text head.now address.now) (K.held out.old) (K.held out.new)) }
    ensures fault { OnErr result (Rose (K.faults out.old) (K.faults out.new)) }
    ensures later { K.faults out.old ≤ K.faults out.new }
{
    if write_all(out, head.as_bytes()).is_err() {
        return Err(WriteFailed);
    }
    if write_all(out, address.as_bytes()).is_err() {
        return Err(WriteFailed);
    }
    write_all(out, b" failed\n")
}

/// A line that is told before serving ends anyway, so a write that fails changes nothing of that.
pub(crate) fn say_last<K: Sink>(line: &str, out: &mut K)
    ensures says { Says line.now (K.held out.old) (K.held out.new) (K.faults out.old) (K.faults out.new) }
    ensures later { K.faults out.old ≤ K.faults out.new }
{
    let _ = write_all(out, line.as_bytes());
}

/// The line that the administration space isn't open. It is one write.
pub(crate) fn say_refused<K: Sink>(out: &mut K) -> Result<(), ServeEnd>
    ensures said { OnOk result (Appends refused_text (K.held out.old) (K.held out.new)) }
    ensures part { OnErr result (AppendsPrefix refused_text (K.held out.old) (K.held out.new)) }
    ensures cause { IfErr result (λ e. (e ≡ ServeEnd.WriteFault) × Rose (K.faults out.old) (K.faults out.new)) }
    ensures only { RoseOnlyBy ServeEnd.WriteFault result (K.faults out.old) (K.faults out.new) }
    ensures later { K.faults out.old ≤ K.faults out.new }
{
    match write_all(out, b"admin refused\n") {
        Ok(()) => Ok(()),
        Err(_) => Err(ServeEnd::WriteFault),
    }
}

fn say<K: Sink>(line: &[u8], out: &mut K) -> Result<(), Unsaid>
    ensures said { OnOk result (Appends line.now (K.held out.old) (K.held out.new)) }
    ensures part { OnErr result (AppendsPrefix line.now (K.held out.old) (K.held out.new)) }
    ensures fault { OnErr result (Rose (K.faults out.old) (K.faults out.new)) }
    ensures only { RoseOnlyBy Fault result (K.faults out.old) (K.faults out.new) }
    ensures later { K.faults out.old ≤ K.faults out.new }
{
    match write_all(out, line) {
        Ok(()) => Ok(()),
        Err(_) => Err(Unsaid::Fault),
    }
}

fn serving_line(alloc: Global, id: &Zid) -> Result<String, AllocError>
    ensures { IfOk result (λ s. string_bytes s ≡ serving_text id.now) }
{
    let mut line = String::from_str(alloc, "serving ")?;
    line.push_str(id.text(alloc)?.as_str())?;
    line.push_str("\n")?;
    Ok(line)
}

fn used_line(alloc: Global, id: &Zid) -> Result<String, AllocError>
    ensures { IfOk result (λ s. string_bytes s ≡ used_text id.now) }
{
    let mut line = String::from_str(alloc, "identifier ")?;
    line.push_str(id.text(alloc)?.as_str())?;
    line.push_str(" was in use before: start with a fresh one\n")?;
    Ok(line)
}

fn dial_line(alloc: Global, address: &str) -> Result<String, AllocError>
    ensures { IfOk result (λ s. string_bytes s ≡ dial_text address.now) }
{
    let mut line = String::from_str(alloc, "dial ")?;
    line.push_str(address)?;
    line.push_str(" failed\n")?;
    Ok(line)
}
