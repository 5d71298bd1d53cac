//! The steps of an opening, and of all phases.

ghost use Rattle.std.specs.Prelude.{◌≡◌, ◌<◌, Ok};
ghost use Rattle.zr_trans.specs.Writing.{Fits, writes_trans};
ghost use Rattle.zr_frame.specs.Turn.{modulus_of};
ghost use Rattle.zr_open.specs.Table.{received, AnswerFits};
ghost use Rattle.zr_session.specs.Step.{answered, on_progress, on_trans};
ghost use Rattle.zr_session.specs.Done.{Steps};

use crate::event::{Fed, SessionEvent};
use crate::fate::End;
use crate::phase::{Established, Phase};
use crate::stop::{INVALID, ReadStop};
use crate::write::batch_of;
use std::alloc::Global;
use zr_frame_batch::put_batch;
use zr_open::{Expected, OpenError, Opened, Opening, Progress};
use zr_trans::Trans;

/// How many bytes a batch has room for.
const MOST_BATCH: usize = 65_535;

/// A transport message came. It is one that can be spelled, as each that was read is.
pub(crate) fn on_trans(
    alloc: Global,
    opening: &Opening,
    phase: &mut Phase,
    t: Trans,
    out: &mut Fed,
) -> Result<(), ReadStop>
    requires { Fits t }
    ensures { Steps result (on_trans opening.now phase.old t) phase.new out.old out.new }
{
    match phase {
        Phase::Opening(expected) => {
            let expected = *expected;
            on_opening(alloc, opening, expected, phase, &t, out)
        }
        Phase::Established(session) => session.on_trans(alloc, t, out),
    }
}

/// What the table of openings makes of a message.
fn on_opening(
    alloc: Global,
    opening: &Opening,
    expected: Expected,
    phase: &mut Phase,
    t: &Trans,
    out: &mut Fed,
) -> Result<(), ReadStop>
    requires fits { Fits t.now }
    requires opening { phase.old ≡ Phase.Opening expected }
    ensures { Steps result (on_progress expected (received opening.now expected t.now)) phase.new out.old out.new }
{
    match opening.receive(alloc, expected, t) {
        Ok(Progress::Answers { expected, answer }) => answer_with(
            alloc, expected, &answer, phase, out,
        ),
        Ok(Progress::Opened(opened)) => establish(alloc, &opened, phase, out),
        Err(OpenError::Closed(reason)) => Err(ReadStop::Ended(End::Closed(reason))),
        Err(OpenError::Peer(reason)) => Err(ReadStop::Ended(End::Peer(reason))),
        Err(OpenError::NoMemory) => Err(ReadStop::NoMemory),
    }
}

/// Answers, and expects another message then.
fn answer_with(
    alloc: Global,
    next: Expected,
    answer: &Trans,
    phase: &mut Phase,
    out: &mut Fed,
) -> Result<(), ReadStop>
    requires { Fits answer.now }
    ensures { (expected : Expected) → phase.old ≡ Phase.Opening expected → Steps result (answered expected next (writes_trans answer.now)) phase.new out.old out.new }
{
    let batch = batch_of(alloc, answer)?;
    if batch.len() > MOST_BATCH {
        return Err(INVALID);
    }
    put_batch(&mut out.bytes, &batch)?;
    enter(phase, Phase::Opening(next));
    Ok(())
}

/// Both ends are open.
fn establish(
    alloc: Global,
    opened: &Opened,
    phase: &mut Phase,
    out: &mut Fed,
) -> Result<(), ReadStop>
    requires first { opened.now.first < modulus_of opened.now.outbox.bits }
    requires answer { AnswerFits opened.now.answer }
    ensures { (expected : Expected) → phase.old ≡ Phase.Opening expected → Steps result (on_progress expected (Ok (Progress.Opened opened.now))) phase.new out.old out.new }
{
    let session = Established::new(alloc, opened)?;
    match out.give(SessionEvent::Opened(opened.peer, opened.outbox)) {
        Ok(()) => {
            enter(phase, Phase::Established(session));
            Ok(())
        }
        Err(e) => {
            drop(session);
            Err(e)
        }
    }
}

/// The session goes on in this phase.
fn enter(phase: &mut Phase, next: Phase)
    ensures { phase.new ≡ next }
{
    *phase = next;
}
