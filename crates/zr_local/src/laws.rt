//! Laws of clients' declarations, for the proofs of the crates above.

ghost use Rattle.zr_local.specs.Laws.{ChangesLeadOn, SetsWeighLess};

/// The changes lead from the set before them to the set after them.
pub fn changes_lead_on()
    ensures { ChangesLeadOn }
{}

/// The set weighs no more than what the clients have declared.
pub fn sets_weigh_less()
    ensures { SetsWeighLess }
{}
