//! `Stamp`: when a value was given, by which clock.

ghost use Rattle.std.specs.Prelude.{◌≡◌};
ghost use Rattle.std.specs.Cmp.Lexicographic.{slice_cmp};
ghost use Rattle.std.specs.Ordering.{nat_cmp};
ghost use Rattle.zr_body.specs.Latest.{numbers_of, read_stamp};
ghost use Rattle.zr_ext.specs.Finding.{Passes};

use crate::skipping::MOST_CLOCK;
use std::cmp::Ordering;
use std::marker::Model;
use zr_bytes::{Cursor, ReadError};

/// When a value was given: the time in units of 2^-32 seconds since 1970, and the clock's identifier of at most 16 bytes.
#[derive(Debug, Drop)]
pub struct Stamp<'a> {
    pub time: u64,
    pub clock: &'a [u8],
}

impl<'a> Model for Stamp<'a> {
    ghost use Rattle.zr_body.specs.Latest.{StampState};

    ghost Value = { StampState };

    ghost view = { λ s. record { time = s.time; clock = s.clock.now } };
}

/// Reads a timestamp.
#[tactic(auto, unfolding(crate::specs::Latest::read_stamp))]
pub(crate) fn read_stamp<'a>(c: &mut Cursor<'a>) -> Result<Stamp<'a>, ReadError>
    ensures { Passes result (read_stamp c.old) c.new }
{
    let time = c.zint()?;
    let clock = c.bytes(MOST_CLOCK)?;
    Ok(Stamp { time, clock })
}

/// None comes before any; then the time decides, and then the clock.
pub(crate) fn compare_stamps(a: Option<Stamp<'_>>, b: Option<Stamp<'_>>) -> Ordering
    ensures { result ≡ slice_cmp nat_cmp (numbers_of a.entry) (numbers_of b.entry) }
{
    match (a, b) {
        (None, None) => Ordering::Equal,
        (None, Some(_)) => Ordering::Less,
        (Some(_), None) => Ordering::Greater,
        (Some(a), Some(b)) => a.time.cmp(&b.time).then(a.clock.cmp(b.clock)),
    }
}
