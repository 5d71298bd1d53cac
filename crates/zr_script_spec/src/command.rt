//! The commands of a script, one variant a command, with its words as fields.

ghost use Rattle.std.specs.Prelude.{◌≡◌};
ghost use Rattle.zr_script_spec.specs.Mode.{is_current, is_future};

use zr_id::zid::Zid;
use zr_key::key::KeyExpr;
use zr_msg::content::Content;
use zr_msg::msg::{Kinds, Target};
use zr_msg::peer::Weight;

/// Of which declarations an interest is to be told.
#[derive(Clone, Copy, Debug, PartialEq, Eq)]
pub enum Mode {
    /// Of those that stand now.
    Now,
    /// Of those that come or go later.
    Later,
    /// Of both.
    Both,
}

/// What one line of a script asks.
#[derive(Drop)]
pub enum Command {
    /// One act.
    Act { act: Act },
    /// The network moves on by itself, by at most so many steps.
    Run { steps: u32 },
    /// All samples under way go to their ends, the routers being handled on several threads.
    Fan,
}

/// One act on the network: one atomic step, or a mark.
#[derive(Drop)]
pub enum Act {
    /// A router without links.
    Router {
        id: Zid,
    },
    /// A client whose link to its router is up at once.
    Client {
        id: Zid,
        router: Zid,
    },
    /// A link of some weight between two routers, up at neither end.
    Link {
        one: Zid,
        other: Zid,
        weight: Weight,
    },
    /// A router's end of its link to a neighbour comes up.
    Up {
        router: Zid,
        neighbour: Zid,
    },
    /// The link of a router and its neighbour breaks, and what is on its wires is lost.
    Break {
        router: Zid,
        neighbour: Zid,
    },
    /// A router notices that its link to a neighbour is broken, and what it has queued for the neighbour is lost.
    Down {
        router: Zid,
        neighbour: Zid,
    },
    /// A client declares a subscriber under an id.
    Sub {
        client: Zid,
        id: u32,
        key: KeyExpr,
    },
    /// A client takes back the subscriber that it declared under an id.
    Unsub {
        client: Zid,
        id: u32,
    },
    /// A client declares a liveliness token under an id.
    Token {
        client: Zid,
        id: u32,
        key: KeyExpr,
    },
    /// A client takes back the token that it declared under an id.
    Untoken {
        client: Zid,
        id: u32,
    },
    /// A client declares a queryable under an id, complete or not.
    Able {
        client: Zid,
        id: u32,
        key: KeyExpr,
        complete: bool,
    },
    /// A client takes back the queryable that it declared under an id.
    Unable {
        client: Zid,
        id: u32,
    },
    /// A client wants to be told, under an id, what others declare of some kinds: of what meets the key, or of all where there is none.
    /// An aggregated answer tells all of a kind that meets the key as one.
    Interest {
        client: Zid,
        id: u32,
        mode: Mode,
        kinds: Kinds,
        key: Option<KeyExpr>,
        aggregate: bool,
    },
    /// A client no longer wants to be told what it asked for under an id.
    Uninterest {
        client: Zid,
        id: u32,
    },
    /// A client publishes a sample: a value or a deletion.
    Publish {
        client: Zid,
        content: Content,
    },
    /// A client asks a query under a number of its own.
    Get {
        client: Zid,
        number: u32,
        target: Target,
        content: Content,
    },
    /// A client replies to the request that it was sent under a number.
    Reply {
        client: Zid,
        number: u32,
        content: Content,
    },
    /// A client ends the request that it was sent under a number.
    End {
        client: Zid,
        number: u32,
    },
    /// A router handles the oldest message on the wire from a neighbour.
    Handle {
        router: Zid,
        from: Zid,
    },
    /// A router's oldest queued message for a neighbour goes onto the wire to it, or is sent to it where it is a client.
    Take {
        router: Zid,
        to: Zid,
    },
    /// A phase begins.
    Mark,
    /// A router's tables are told.
    Show {
        router: Zid,
    },
}

impl Mode {
    /// Whether it is to be told of what is declared now.
    pub fn is_current(self) -> bool
        ensures { result ≡ is_current self }
    {
        match self {
            Mode::Now => true,
            Mode::Later => false,
            Mode::Both => true,
        }
    }

    /// Whether it is to be told of what is declared later.
    pub fn is_future(self) -> bool
        ensures { result ≡ is_future self }
    {
        match self {
            Mode::Now => false,
            Mode::Later => true,
            Mode::Both => true,
        }
    }
}
