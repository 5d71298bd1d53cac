//! Laws on what clients declare, and on what routers know of it: each the `ensures` of a function without parameters and with an empty body.
//! Who needs a law calls its function.
#![tactic(auto)]

ghost use Rattle.zr_law_declared.specs.Rows.{SettledRowsAreDeclared};
ghost use Rattle.zr_law_declared.specs.Sets.{SettledSetsAreDeclared};
ghost use Rattle.zr_law_declared.specs.Logs.{LogsAreMade, SettledLogsAreKnown};
ghost use Rattle.zr_law_declared.specs.Phases.{PhasesChangeNothing};

/// At each settled moment the rows of each router are what the clients attached to it have declared, key and kind: each has a link, under each of
/// its ids stands just what it has declared there, and no row is another's.
pub fn settled_rows_are_declared()
    ensures { SettledRowsAreDeclared }
{}

/// At each settled moment a declaration is in the set that a router knows of another one, or of itself, exactly where some client attached to that
/// one has declared it.
pub fn settled_sets_are_declared()
    ensures { SettledSetsAreDeclared }
{}

/// At each moment, also within a run, a router knows all of its own log: as many changes as it has made, and the set that they lead to. No router
/// knows of more changes.
pub fn logs_are_made()
    ensures { LogsAreMade }
{}

/// At each settled moment each router knows all of the log of each router that it reaches: its length as position, and as set what its changes
/// lead to.
pub fn settled_logs_are_known()
    ensures { SettledLogsAreKnown }
{}

/// An act that may stand in a phase brings no router and no client, breaks no link, and declares nothing or takes it back.
pub fn phases_change_nothing()
    ensures { PhasesChangeNothing }
{}
