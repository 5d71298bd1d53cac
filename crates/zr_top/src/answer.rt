//! What is told where the words ask for no plan.

ghost use Rattle.std.specs.Prelude.{◌≡◌, ◌<◌, ◌≤◌};
ghost use Rattle.zr_top.specs.Told.{IsWritten, TellsUsage};

use zr_netrun::status::Status;
use zr_outside::sink::{Sink, write_all};

/// The forms of the program's words.
const USAGE: &str =
    "usage: zrd net [--summary] [--threads N] / serve --id ID --listen ADDRESS [--rules] [--admin] [DIAL]... / make --number N --routers R --clients C --messages M\n";

/// Tells a text that the words ask for.
pub fn tell<K: Sink>(text: &str, out: &mut K) -> Status
    ensures written { IsWritten result text.now (K.held out.old) (K.held out.new) (K.faults out.old) (K.faults out.new) }
    ensures later { K.faults out.old ≤ K.faults out.new }
    ensures only { K.faults out.old < K.faults out.new → result ≡ Status.WriteFault }
{
    match write_all(out, text.as_bytes()) {
        Ok(()) => Status::Done,
        Err(_) => Status::WriteFault,
    }
}

/// Tells the usage line, as the words are wrong.
pub fn usage<E: Sink>(err: &mut E) -> Status
    ensures words { result ≡ Status.Words }
    ensures tells { TellsUsage (E.held err.old) (E.held err.new) (E.faults err.old) (E.faults err.new) }
    ensures later { E.faults err.old ≤ E.faults err.new }
{
    let _ = write_all(err, USAGE.as_bytes());
    Status::Words
}
