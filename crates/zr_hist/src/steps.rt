//! What each step on the word tells, and how views are cut in two and put together.
ghost use Rattle.std.specs.Prelude.{[]};
ghost use Rattle.zr_hist.specs.Rule.{appended, looked, looked_beside, compared, kept_view, pass_view, no_view};

use crate::rule::View;
use atomic_table::{Join, Play, Split};

pub(crate) struct Append;

impl<E> Play<E, View<E>> for Append {
    ghost then = { appended };
}

pub(crate) struct Look;

impl<E> Play<E, View<E>> for Look {
    ghost then = { looked };
}

/// A look of a pass that was lent the right to append.
pub(crate) struct LookBeside;

impl<E> Play<E, View<E>> for LookBeside {
    ghost then = { looked_beside };
}

/// A look of a pass that knows what another had seen.
pub(crate) struct Compare;

impl<E> Play<E, View<E>> for Compare {
    ghost then = { compared };
}

/// A new pass, which has seen as much and appended nothing.
pub(crate) struct NewPass;

impl<E> Split<View<E>> for NewPass {
    ghost left = { λ v. v };

    ghost right = { λ v. pass_view v.seen [] 0 };
}

/// The right to append goes to a seat of its own.
pub(crate) struct ReturnRight;

impl<E> Split<View<E>> for ReturnRight {
    ghost left = { λ v. pass_view v.seen v.mine v.looks };

    ghost right = { λ v. kept_view v.list };
}

/// A pass is lent the right to append.
pub(crate) struct LendRight;

impl<E> Join<View<E>> for LendRight {
    ghost use Rattle.zr_hist.specs.Rule.{appending_view};

    ghost both = { λ v w. appending_view v.seen v.mine v.looks w.list };

    ghost spent = { no_view };
}

/// A pass learns what another had seen.
pub(crate) struct JoinPass;

impl<E> Join<View<E>> for JoinPass {
    ghost use Rattle.zr_hist.specs.Rule.{joining_view};

    ghost both = { λ v w. joining_view v.seen v.mine v.looks w.seen };

    ghost spent = { no_view };
}
