//! What each step on the two words tells, and how the views of the ends are cut apart and put together.
ghost use Rattle.zr_ring.specs.Rule.{began, gave, gave_last, loaded_given_beside, loaded_taken, loaded_taken_beside, looked, no_view, saw_given, took, view};

use crate::rule::{HasPlace, View};
use atomic_table::{Join, Play, Split};

/// The giver takes its first slot.
pub(crate) struct Begin;

impl<X> Play<Option<X>, View<X>> for Begin {
    ghost then = { began };
}

pub(crate) struct LoadTaken;

impl<X> Play<Option<X>, View<X>> for LoadTaken {
    ghost then = { loaded_taken };
}

pub(crate) struct Give;

impl<X> Play<Option<X>, View<X>> for Give {
    ghost then = { gave };
}

pub(crate) struct GiveLast;

impl<X> Play<Option<X>, View<X>> for GiveLast {
    ghost then = { gave_last };
}

/// The taker loads the count given, and holds the slot of the next place where there is one.
pub(crate) struct SeeGiven;

impl<X: HasPlace> Play<Option<X>, View<X>> for SeeGiven {
    ghost then = { saw_given X.stands };
}

pub(crate) struct Take;

impl<X> Play<Option<X>, View<X>> for Take {
    ghost then = { took };
}

/// The taker loads the count given, and takes nothing.
pub(crate) struct Look;

impl<X> Play<Option<X>, View<X>> for Look {
    ghost then = { looked };
}

pub(crate) struct LoadGivenBeside;

impl<X> Play<Option<X>, View<X>> for LoadGivenBeside {
    ghost then = { loaded_given_beside };
}

pub(crate) struct LoadTakenBeside;

impl<X> Play<Option<X>, View<X>> for LoadTakenBeside {
    ghost then = { loaded_taken_beside };
}

/// What is known as the giver goes to a seat of its own.
pub(crate) struct SplitGiver;

impl<X> Split<View<X>> for SplitGiver {
    ghost left = { λ v. view no_view v.taker };

    ghost right = { λ v. view v.giver no_view };
}

/// What the second seat knows as the giver goes to the first.
pub(crate) struct JoinGiver;

impl<X> Join<View<X>> for JoinGiver {
    ghost both = { λ v w. view w.giver v.taker };

    ghost spent = { view no_view no_view };
}
