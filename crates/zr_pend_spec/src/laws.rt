//! Laws of pending requests, for the proofs of the crates above.

ghost use Rattle.zr_pend_spec.specs.Best.{GatheredIsBest};
ghost use Rattle.zr_pend_spec.specs.Readings.{BegunRowsAreRead, FinishedRowsAreRead, BranchesStandInRows, DroppedRowsAreRead};
ghost use Rattle.zr_pend_spec.specs.Laws.{NumbersAreLeast, NumbersAreTaken, BeginKeeps, FinishKeeps, DropKeeps, BranchesAreOfOneRow, RowsEndOnce, DroppedLinksAreGone, AscendingNumbersAscend};

/// The number that a request is given on a link is the least one, from 1, that isn't pending there.
pub fn numbers_are_least()
    ensures { NumbersAreLeast }
{}

/// A number that was given is pending from then on.
pub fn numbers_are_taken()
    ensures { NumbersAreTaken }
{}

/// A request that begins leaves each row a branch, and each branch in one row.
pub fn begin_keeps()
    ensures { BeginKeeps }
{}

/// So does the end of a branch.
pub fn finish_keeps()
    ensures { FinishKeeps }
{}

/// So does a link that goes down.
pub fn drop_keeps()
    ensures { DropKeeps }
{}

/// A branch is of one row: its asker is found, and its end changes this row alone.
pub fn branches_are_of_one_row()
    ensures { BranchesAreOfOneRow }
{}

/// When all branches of a row have ended the row is gone, and its asker got one final, if it has one.
pub fn rows_end_once()
    ensures { RowsEndOnce }
{}

/// Once a link went down nothing is left of it, and the branches on other links are as before.
pub fn dropped_links_are_gone()
    ensures { DroppedLinksAreGone }
{}

/// Numbers in ascending order ascend, and are the same ones.
pub fn ascending_numbers_ascend()
    ensures { AscendingNumbersAscend }
{}

/// Once a request has begun its branches are pending for who asked it, and on each of its links one number more is pending.
pub fn begun_rows_are_read()
    ensures { BegunRowsAreRead }
{}

/// Once a branch has ended, the row of who asked is without it, and is gone where that was its last one; who asked then gets the final.
pub fn finished_rows_are_read()
    ensures { FinishedRowsAreRead }
{}

/// A branch that is pending for an asker stands in the row of that asker.
pub fn branches_stand_in_rows()
    ensures { BranchesStandInRows }
{}

/// Once a link went down its branches are pending no more, and what it asked is pending for nobody.
pub fn dropped_rows_are_read()
    ensures { DroppedRowsAreRead }
{}

/// What is held of replies is of each key the latest one, whatever the order in which they came, and however often.
pub fn gathered_is_best()
    ensures { GatheredIsBest }
{}
