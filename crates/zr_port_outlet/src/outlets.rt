//! A port that knows the outlets of its links, so that whoever queues something for a link writes it too.

ghost use Rattle.std.specs.Prelude.{◌<◌};
ghost use Rattle.zr_link_writer.specs.Turn.{TakesTurn, turns_most, turns_taken};

use std::alloc::AllocError;
use std::sync::Arc;
use zr_board::SharedOutlet;
use zr_id::link::LinkNo;
use zr_link_writer::{Turn, WriterTurns};
use zr_outside_brief::BriefSink;
use zr_port::Port;

/// A port that knows the outlets of its links. What an outlet writes is said by its type, and of `write` that it is a turn of an outlet, and what that
/// told. Of the other calls nothing is promised.
pub trait Outlets: Port {
    /// Where the links' bytes go.
    type Out: BriefSink + Drop;

    /// The turn of the link that has come up under this number. Nobody comes to the outlet of the former link with it any more.
    fn next_turn(&self, link: LinkNo) -> u64;

    /// The writer of the link that has the number in this turn has this outlet from now on. Where there can be no more references to it nothing is
    /// posted.
    fn post(
        &self,
        link: LinkNo,
        turn: u64,
        outlet: &Arc<SharedOutlet<Self::Out, Self::Note>>,
    ) -> Result<(), AllocError>;

    /// That writer has ended: from now on nobody comes to its outlet.
    fn withdraw(&self, link: LinkNo, turn: u64);

    /// The turn of an outlet's writer, at a moment.
    fn write(
        &self,
        outlet: &SharedOutlet<Self::Out, Self::Note>,
        now: u64,
        turns: &mut WriterTurns,
    ) -> Turn
        requires left { turns_taken turns.old < turns_most turns.old }
        ensures counted { TakesTurn turns.old turns.new result };

    /// The writer of an outlet rests until it is woken, since something was queued that others didn't write, or for so many milliseconds.
    fn rest_at(&self, outlet: &SharedOutlet<Self::Out, Self::Note>, most: u64);
}
