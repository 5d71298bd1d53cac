//! Laws of what one client is to be told: marks decide it, and ids last for it.

ghost use Rattle.zr_told.specs.Laws.{MarksDecide, MarksAreRight, ForgottenIsKept, TouchedIsRight, IdsLast};

/// Marks that are right decide what a client is told.
pub fn marks_decide()
    ensures { MarksDecide }
{}

/// The marks on all places that were told or are wanted are right.
pub fn marks_are_right()
    ensures { MarksAreRight }
{}

/// Without what goes the told map is what is kept.
pub fn forgotten_is_kept()
    ensures { ForgottenIsKept }
{}

/// The marks on the places that changed declarations touch are right.
pub fn touched_is_right()
    ensures { TouchedIsRight }
{}

/// Ids last for what a client is to be told where no more is wanted than there are.
pub fn ids_last()
    ensures { IdsLast }
{}
