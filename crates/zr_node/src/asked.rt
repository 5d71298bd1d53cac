//! What a client asks of its declarations, and what becomes of them.

ghost use Rattle.std.specs.Prelude.{◌≡◌, ◌+◌, ◌-◌, ◌^◌, not, nat_lt, length, map, IfOk, OnOk, OnErr};
ghost use Rattle.std.specs.Option.{option_map};
ghost use Rattle.zr_local.specs.Rows.{gone, came};
ghost use Rattle.zr_node_spec.specs.Changes.{changes_of, after_changes};
ghost use Rattle.zr_node_spec.specs.Table.{local_error};
ghost use Rattle.zr_node.specs.Answer.{IsJudged, answered};
ghost use Rattle.zr_node.specs.Asked.{rows_after, local_after, refuses_asked};

use crate::failure::NodeFailure;
use std::alloc::{AllocError, Global};
use zr_id::link::LinkNo;
use zr_local::changes::Changes;
use zr_local::error::LocalError;
use zr_local::local::Local;
use zr_log::known::Known;
use zr_msg::decl::{Decl, Kind};
use zr_msg::error::NodeError;

/// What a client asks of its declarations.
#[derive(Drop)]
pub enum Asked {
    /// It declares something under an id.
    Declare { link: LinkNo, id: u32, decl: Decl },
    /// It takes back what it has declared under an id in this kind.
    Undeclare { link: LinkNo, id: u32, kind: Kind },
    /// It leaves.
    Leave { link: LinkNo },
}

impl Asked {
    /// The same again.
    pub fn copy(&self, alloc: Global) -> Result<Asked, AllocError>
        ensures { IfOk result (λ a. a ≡ self.now) }
    {
        Ok(match self {
            Asked::Declare { link, id, decl } => Asked::Declare {
                link: *link,
                id: *id,
                decl: decl.copy(alloc)?,
            },
            Asked::Undeclare { link, id, kind } => Asked::Undeclare {
                link: *link,
                id: *id,
                kind: *kind,
            },
            Asked::Leave { link } => Asked::Leave { link: *link },
        })
    }
}

/// Does what a client asks, and tells what became of the set of all declarations.
pub fn apply(local: &mut Local, asked: Asked) -> Result<Changes, NodeFailure>
    ensures gone { IfOk result (λ c. c.gone.items ≡ gone local.old.rows (rows_after local.old.rows asked)) }
    ensures came { IfOk result (λ c. c.came.items ≡ came local.old.rows (rows_after local.old.rows asked)) }
    ensures value { OnOk result (local.new ≡ local_after local.old asked) }
    ensures refused { IsJudged (refuses_asked local.old asked) result }
    ensures unchanged { OnErr result (local.new ≡ local.old) }
{
    match asked {
        Asked::Declare { link, id, decl } => answer(id, local.declare(link, id, decl)),
        Asked::Undeclare { link, id, kind } => answer(id, local.undeclare(link, id, kind)),
        Asked::Leave { link } => Ok(local.leave(link)?),
    }
}

/// Why what a client asks is refused for itself, if it is. It takes no memory.
pub fn refusal(local: &Local, asked: &Asked) -> Option<NodeError>
    ensures { result ≡ refuses_asked local.now asked.now }
{
    match asked {
        Asked::Declare { link, id, decl } => {
            told_as(*id, local.refuses_declare(*link, *id, decl.kind, &decl.key))
        }
        Asked::Undeclare { link, id, kind } => {
            told_as(*id, local.refuses_undeclare(*link, *id, *kind))
        }
        Asked::Leave { .. } => None,
    }
}

/// Why what a client says of an id is refused, as the router's own refusal.
pub fn told_as(id: u32, refused: Option<LocalError>) -> Option<NodeError>
    ensures { result ≡ option_map (λ e. local_error id e) refused }
{
    Some(match refused? {
        LocalError::UnknownId => NodeError::NotDeclared { id },
        LocalError::TextLimit { held, more } => NodeError::TextLimit { held, more },
        LocalError::NoMemory => NodeError::NoMemory,
    })
}

/// What became of what a client says of an id, as an answer of the router.
pub fn answer<T>(id: u32, done: Result<T, LocalError>) -> Result<T, NodeFailure>
    ensures { result ≡ answered id done }
{
    match done {
        Ok(value) => Ok(value),
        Err(LocalError::UnknownId) => Err(NodeFailure::Refused(NodeError::NotDeclared { id })),
        Err(LocalError::TextLimit { held, more }) => {
            Err(NodeFailure::Refused(NodeError::TextLimit { held, more }))
        }
        Err(LocalError::NoMemory) => Err(NodeFailure::NoMemory),
    }
}

/// Whether a log with so many changes has room for these.
pub fn has_room(position: u64, changes: &Changes) -> bool
    ensures { result ≡ not (nat_lt (2 ^ 64 - 1) (position + length (changes_of changes.now.gone.items changes.now.came.items))) }
{
    let room = u64::MAX - position;
    let gone = changes.gone.len() as u64;
    let came = changes.came.len() as u64;
    gone <= room && came <= room - gone
}

/// The own log has these changes too: first what is gone, then what came.
pub fn log(known: &mut Known, changes: &Changes) -> Result<(), AllocError>
    ensures known { OnOk result (known.new ≡ after_changes known.old (changes_of changes.now.gone.items changes.now.came.items)) }
    ensures me { known.new.me ≡ known.old.me }
{
    log_each(known, false, changes.gone.as_slice())?;
    log_each(known, true, changes.came.as_slice())
}

fn log_each(known: &mut Known, added: bool, decls: &[Decl]) -> Result<(), AllocError>
    ensures known { OnOk result (known.new ≡ after_changes known.old (map (λ d. record { added = added; decl = d }) decls.now)) }
    ensures me { known.new.me ≡ known.old.me }
{
    for decl in decls {
        if known.own(added, decl).is_err() {
            return Err(AllocError);
        }
    }
    Ok(())
}
