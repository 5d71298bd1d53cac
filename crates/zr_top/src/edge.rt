//! What `main` does between the system and `run`: the program's words are collected, what went wrong is told, and the status becomes the process's.

ghost use Rattle.std.specs.Prelude.{◌≡◌, ◌≤◌, IfOk, drop};
ghost use Rattle.std.specs.Iterator.{IsFinite};
ghost use Rattle.std.specs.Iterator.Runs.{WholeRun};
ghost use Rattle.std.specs.Process.{exit_status};
ghost use Rattle.zr_netrun.specs.Status.{number_of};
ghost use Rattle.zr_top.specs.Told.{Says, trouble_text};

use std::alloc::{AllocError, Global};
use std::process::ExitCode;
use zr_netrun::status::Status;
use zr_outside::sink::{Sink, write_all};
use zr_top_words::wrong::what_is_wrong;

/// Where the command stands among the words, behind the program's name.
const COMMAND_AT: usize = 1;

/// All words that come, in order.
pub fn collect_words<I: Iterator<Item = String>>(
    alloc: Global,
    words: I,
) -> Result<Vec<String>, AllocError>
    requires can { I.can_next words }
    requires finite { IsFinite (I.remaining words) }
    ensures { IfOk result (λ all. WholeRun I.next_gives words (λ run. all.items ≡ run.items)) }
{
    words.collect(alloc)
}

/// The words without the first one, which is the program's name.
pub fn without_name(words: &[String]) -> &[String]
    ensures { result.now ≡ drop 1 words.now }
{
    words.get(1..).unwrap_or(&[])
}

/// Whether the words, with the program's name, ask for a router that is served.
pub fn is_serve(words: &[String]) -> bool {
    match words.get(COMMAND_AT) {
        Some(command) => command.as_str() == "serve",
        None => false,
    }
}

/// Whether an option stands among the words. Behind `--` none does.
pub fn has_option(words: &[String], option: &str) -> bool {
    words
        .iter()
        .take_while(|word| word.as_str() != "--")
        .any(|word| is_option(word.as_str(), option))
}

fn is_option(word: &str, option: &str) -> bool {
    match word.strip_prefix(option) {
        Some(rest) => rest.is_empty() || rest.starts_with('='),
        None => false,
    }
}

/// The words with these bytes as identifier behind the command. The last byte is made odd, as Zenoh knows no identifier with zeros at its end.
pub fn with_identifier(
    alloc: Global,
    mut words: Vec<String>,
    random: [u8; 16],
) -> Result<Vec<String>, AllocError> {
    let mut bytes = random;
    bytes[15] |= 1;
    let id = hex::encode(alloc, &bytes)?;
    let option = String::from_str(alloc, "--id")?;
    if words.len() > COMMAND_AT {
        words.insert(COMMAND_AT + 1, id)?;
        words.insert(COMMAND_AT + 1, option)?;
    }
    Ok(words)
}

/// Tells behind the usage line what is wrong with the words, a line for each fault: they stand with the program's name, and where there are none one was
/// not UTF-8. Where memory runs out nothing more is told.
pub fn explain_words<E: Sink>(alloc: Global, words: &[String], err: &mut E)
    ensures { E.faults err.old ≤ E.faults err.new }
{
    if words.is_empty() {
        let _ = write_all(err, b"a word is not UTF-8\n");
    } else if let Ok(told) = what_is_wrong(alloc, without_name(words)) {
        let _ = write_all(err, told.as_bytes());
    }
}

/// Tells what went wrong, if anything did, and ends the process with the number of the status: nobody is left without a word.
pub fn end<E: Sink>(status: Status, err: &mut E) -> ExitCode
    ensures status { exit_status result ≡ number_of status }
    ensures says { Says (trouble_text status) (E.held err.old) (E.held err.new) (E.faults err.old) (E.faults err.new) }
{
    let _ = write_all(err, trouble(status).as_bytes());
    ExitCode::from(status.number())
}

// The line that says what happened, where the program could not do its work.
fn trouble(status: Status) -> &'static str
    ensures { result.now ≡ trouble_text status }
{
    match status {
        Status::Done | Status::Refused | Status::Words => "",
        Status::NoMemory => "zrd: out of memory\n",
        Status::ReadFault => "zrd: standard input could not be read\n",
        Status::WriteFault => "zrd: an output could not be written\n",
        Status::HostFault => "zrd: no links can be accepted\n",
    }
}
