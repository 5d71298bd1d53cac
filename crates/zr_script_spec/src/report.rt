//! The lines of a report, one variant a form.

use zr_bytes::ByteString;
use zr_id::record::LinkRecord;
use zr_id::zid::Zid;
use zr_msg::decl::Decls;
use zr_msg::msg::Msg;

/// How many steps of a fan were of each kind.
#[derive(Clone, Copy, Debug, PartialEq, Eq)]
pub struct FanSteps {
    /// Messages that routers handled.
    pub handled: u64,
    /// Messages of routers that went onto the wire to a router.
    pub taken: u64,
    /// Messages of routers that were sent to a client.
    pub sent: u64,
}

/// What was seen of one step, or of a whole run. A tag is the number of the script line that the message comes from.
#[derive(Drop)]
pub enum ReportLine {
    /// A router has handled a message of a neighbour.
    Handled {
        router: Zid,
        from: Zid,
        msg: Msg,
        tag: u64,
    },
    /// A router's message went onto the wire to a neighbour, or was sent to it where it is a client.
    Taken {
        router: Zid,
        to: Zid,
        msg: Msg,
        tag: u64,
    },
    /// A run has ended after so many steps; it is quiet where no step is possible any more.
    Ran {
        steps: u32,
        quiet: bool,
    },
    /// A fan has ended: the lines of its steps, in the order of their bytes, and how many steps it had, of each kind.
    Fanned {
        lines: ByteString,
        steps: u64,
        kinds: FanSteps,
    },
    /// A phase has begun with this line.
    Mark {
        line: u64,
    },
    /// A router's tables follow.
    Show {
        router: Zid,
    },
    /// The router has this link record.
    Record {
        record: LinkRecord,
    },
    /// The router's parent in the tree of a root; none where it isn't reached from there.
    Parent {
        root: Zid,
        parent: Option<Zid>,
    },
    /// The router knows so many changes of a router's log, and that its clients have these declarations after them.
    Source {
        source: Zid,
        number: u64,
        decls: Decls,
    },
}
