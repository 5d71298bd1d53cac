//! What the words ask for, and why they ask for nothing.

use zr_dial::Dial;
use zr_id::zid::Zid;
use zr_make::MakePlan;

/// What the words ask for, with each value in range.
#[derive(Drop)]
pub enum Plan {
    /// A script is read.
    Net(NetPlan),
    /// A router is run.
    Serve(ServeWords),
    /// A script is made.
    Make(MakePlan),
}

/// What `net` asks for beside the report of a script.
#[derive(Clone, Copy, Debug, PartialEq, Eq)]
pub struct NetPlan {
    /// Four counts of the report in its place.
    pub summary: bool,
    /// A refused line with its explanation.
    pub explain: bool,
    /// On how many threads routers may be handled: 1 to 16.
    pub threads: u32,
}

/// The router that `serve` asks for.
#[derive(Drop)]
pub struct ServeWords {
    /// Its identifier.
    pub id: Zid,
    /// The address at which it listens, as it stands among the words.
    pub listen: String,
    /// What it dials, in the order of the words.
    pub dials: Vec<Dial>,
    /// Whether each link that comes up or ends is told.
    pub log: bool,
    /// Whether access rules are read from the input.
    pub rules: bool,
    /// Whether a faulty line of the rules is shown with its explanation.
    pub explain: bool,
    /// Whether its administration space is open.
    pub admin: bool,
}

/// Why the words gave no plan.
#[derive(Drop)]
pub enum WordsError {
    /// They ask for help or for the version: this is the text.
    Told(String),
    /// They are none that the program takes, or a value is out of range.
    Wrong,
    /// Memory ran out.
    NoMemory,
}
