//! What one thread knows of a history.
ghost use Rattle.std.specs.Prelude.{◌≡◌, []};
ghost use Rattle.zr_hist.specs.Rule.{pass_view};

use crate::rule::View;
use atomic_table::Seat;

/// It keeps for contracts which prefix of the list its owner has seen and which entries it appended. It takes no bytes and crosses
/// threads.
#[derive(Drop)]
pub struct Pass<E> {
    pub(crate) seat: Seat<E, View<E>>,
    ghost plain: { seat.me ≡ (pass_view seat.me.0.seen seat.me.0.mine seat.me.0.looks, []) },
}
