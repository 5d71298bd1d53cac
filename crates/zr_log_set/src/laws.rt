//! Laws of sets of declarations, for the proofs of the crates above.

ghost use Rattle.zr_log_set.specs.Laws.{SetsStaySets, SetsHaveMore, SetsHaveLess, SetsOfAll, SetsAreOne, SetsWeighLess};

/// A set with one declaration more or less is a set.
pub fn sets_stay_sets()
    ensures { SetsStaySets }
{}

/// What a set with one more has.
pub fn sets_have_more()
    ensures { SetsHaveMore }
{}

/// What a set with one less has.
pub fn sets_have_less()
    ensures { SetsHaveLess }
{}

/// The set of any declarations is one, and has them.
pub fn sets_of_all()
    ensures { SetsOfAll }
{}

/// Two sets that have the same are one.
pub fn sets_are_one()
    ensures { SetsAreOne }
{}

/// A set weighs no more than the declarations that it is made of.
pub fn sets_weigh_less()
    ensures { SetsWeighLess }
{}
