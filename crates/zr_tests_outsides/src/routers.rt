//! A new router 01 for each case.
ghost use Rattle.std.specs.Prelude.{◌≡◌, []};
ghost use Rattle.zr_hist.specs.Words.{kept_name, list_of, name, pass_name};

use crate::across;
use crate::failing::{Failing, ends_so};
use crate::link_sink::LinkSink;
use crate::links::{Desk, OWN, are_left, desk_named, identifier};
use crate::talking::{Talk, goes_so};
use std::alloc::{AllocError, Global};
use std::marker::Brand;
use std::sync::Wait;
use std::thread::Threads;
use zr_access::Policy;
use zr_hist::{History, Kept, Pass};
use zr_id::zid::Zid;
use zr_msg::shared::Shared;
use zr_port::{Entry, Naming};
use zr_router::Router;

/// What is tried at a router. A talk across is one with a client of another router, which is linked with this one.
#[derive(Clone, Copy)]
pub enum Case {
    Failing(&'static Failing),
    Talk(&'static Talk),
    Across(&'static Talk),
}

// Whether the case goes as it says at this router.
fn is_so<
    B: Naming + Send + Sync + 'static,
    R: Threads + Wait + Copy + Send + Sync + Drop + 'static,
>(desk: &mut Desk<Router<B, R, LinkSink<R>>, R>, case: Case) -> Result<bool, AllocError> {
    match case {
        Case::Failing(row) => ends_so(desk, row),
        Case::Talk(talk) => goes_so(desk, talk),
        Case::Across(talk) => across::goes_so(desk, talk),
    }
}

// The same, and its links are down then.
fn goes_at<
    B: Naming + Send + Sync + 'static,
    R: Threads + Wait + Copy + Send + Sync + Drop + 'static,
>(desk: &mut Desk<Router<B, R, LinkSink<R>>, R>, case: Case) -> Result<bool, AllocError> {
    let is_so = is_so(desk, case)?;
    Ok(is_so && are_left(desk))
}

// The same at a new router under this name.
fn goes_named<
    B: Naming + Send + Sync + 'static,
    R: Threads + Wait + Copy + Send + Sync + Drop + 'static,
>(
    rt: R,
    alloc: Global,
    me: Zid,
    policy: Shared<Policy>,
    history: History<Entry>,
    kept: Kept<Entry>,
    pass: Pass<Entry>,
    case: Case,
) -> Result<bool, AllocError>
    requires history { name history ≡ B.history }
    requires kept { (kept_name kept ≡ B.history) × (list_of kept ≡ []) }
    requires pass { pass_name pass ≡ B.history }
    requires own { me ≡ B.me }
    requires ruled { policy ≡ B.policy }
{
    let mut desk = desk_named::<B, R>(rt, alloc, me, policy, history, kept, pass)?;
    goes_at(&mut desk, case)
}

/// Whether a case goes as it says.
pub fn goes<R: Threads + Wait + Copy + Send + Sync + Drop + 'static>(
    rt: R,
    alloc: Global,
    case: Case,
) -> Result<bool, AllocError> {
    let me = identifier(OWN)?;
    let policy = Shared::new(alloc, Policy::open(alloc))?;
    let (history, kept, pass) = History::<Entry>::new(alloc)?;
    goes_named::<Brand, R>(rt, alloc, me, policy, history, kept, pass, case)
}
