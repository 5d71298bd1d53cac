//! What the table of openings means, over definitions alone.

ghost use Rattle.zr_open.specs.Laws.{RoutersOpenWithEachOther, ClientsOpen};

/// Two routers open with each other, and what one sends by is what the other expects.
pub fn routers_open_with_each_other()
    ensures { RoutersOpenWithEachOther }
{}

/// A client opens with a router, and is told the sizes by which it is sent to.
pub fn clients_open()
    ensures { ClientsOpen }
{}
