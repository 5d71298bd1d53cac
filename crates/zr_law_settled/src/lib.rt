//! Laws on what routers know where a network is settled: each the `ensures` of a function without parameters and with an empty body.
//! Who needs a law calls its function.
#![tactic(auto)]

ghost use Rattle.zr_law_settled.specs.Tables.{SettledTablesAgree, GraphsAreOne, SettledLogsAgree};
ghost use Rattle.zr_law_settled.specs.Rows.{SettledRowsAreOfClients};

/// At each settled moment of each script each router sees the links that are up at both ends, as far as it reaches, and has the newest
/// record of each router that it reaches, whatever links came and went before.
pub fn settled_tables_agree()
    ensures { SettledTablesAgree }
{}

/// At each settled moment at which the routers are joined, the graph of each router is that of the world: its routers, and the links that
/// are up at both ends.
pub fn graphs_are_one()
    ensures { GraphsAreOne }
{}

/// At each settled moment each router knows the whole log of each router that it reaches: as many changes as that one made, and the set that
/// they led to, which is what its clients have declared.
pub fn settled_logs_agree()
    ensures { SettledLogsAgree }
{}

/// At each settled moment the rows of each router are those of its clients: a client to which the router has a link has a row under an id just
/// where it has declared the id, and each row is of such a link.
pub fn settled_rows_are_of_clients()
    ensures { SettledRowsAreOfClients }
{}
