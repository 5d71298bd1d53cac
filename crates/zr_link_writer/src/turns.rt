//! The turns of a writer.

ghost use Rattle.std.specs.Prelude.{◌≤◌};

use crate::turn::Turn;

/// How many turns a writer may take and has taken, and what the last one told. Only a turn of an outlet counts as one.
#[derive(Drop)]
pub struct WriterTurns {
    most: u64,
    taken: u64,
    last: Option<Turn>,
    ghost within: { taken ≤ most },
}

impl WriterTurns {
    ghost use Rattle.std.specs.Prelude.{◌≡◌, ◌<◌, None};
    ghost use Rattle.zr_link_writer.specs.Turn.{TakesTurn, last_turn, turns_most, turns_taken};

    /// So many may be taken, and none was.
    pub fn of(most: u64) -> WriterTurns
        ensures most { turns_most result ≡ most }
        ensures taken { turns_taken result ≡ 0 }
        ensures last { last_turn result ≡ None }
    {
        WriterTurns {
            most,
            taken: 0,
            last: None,
        }
    }

    /// How many may be taken.
    pub fn most(&self) -> u64
        ensures { result ≡ turns_most self.now }
    {
        self.most
    }

    // One more was taken, and told this.
    pub(crate) fn count(&mut self, told: Turn)
        requires left { turns_taken self.old < turns_most self.old }
        ensures { TakesTurn self.old self.new told }
    {
        self.taken += 1;
        self.last = Some(told);
    }
}
