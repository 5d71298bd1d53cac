//! What becomes of a query for pages of a router with an inner client.
ghost use Rattle.std.specs.Prelude.{◌≡◌, []};
ghost use Rattle.std.specs.Arc.{arc_value};
ghost use Rattle.zr_hist.specs.Words.{kept_name, list_of, name, pass_name};

use crate::asking::ask;
use crate::telling::put_all;
use std::alloc::{AllocError, Global};
use std::marker::Brand;
use std::sync::{Arc, Wait};
use std::test::Fail;
use zr_access::Policy;
use zr_admin::{Admin, Stepped};
use zr_hist::{History, Kept, Pass};
use zr_id::zid::Zid;
use zr_msg::shared::Shared;
use zr_outside_mem::mem_sink::MemSink;
use zr_port::{Entry, Naming};
use zr_port_glance::Glancing;
use zr_ring::Taker;
use zr_router::Router;

/// The router's identifier, and the word of its inner client's.
const ROUTER: u8 = 0x0A;

const WORD: u64 = 0;

/// More steps than the inner client is asked for.
const MOST_STEPS: u32 = 8;

/// A key that client c1 asks for, and what comes of it in turn: a line for each step of the inner client, and what the client is told before and behind them.
/// A query that asks nobody has its final at once.
static ROWS: [(&str, &str); 3] = [
    (
        "@/0a/router/*/*",
        "answered 4\nidle\n@/0a/router/link/7a726461646d696e0000000000000000 client\n@/0a/router/link/c1 client\n@/0a/router/record/0a 0 -\n@/0a/router/source/0a 1 1\nend\n",
    ),
    ("@/0a/router/link/c9", "answered 0\nidle\nend\n"),
    ("@/0b/router/**", "end\nidle\n"),
];

// The inner client steps until nothing is there to be taken.
fn put_steps<P: Glancing + Drop>(
    alloc: Global,
    text: &mut String,
    admin: &mut Admin<P>,
) -> Result<(), AllocError> {
    for _ in 0..MOST_STEPS {
        match admin.step() {
            Ok(Stepped::Answered { replies }) => put_answered(alloc, text, replies)?,
            Ok(Stepped::Idle) => return text.push_str("idle\n"),
            Ok(Stepped::Part) | Ok(Stepped::Ended) | Err(_) => return Err(AllocError),
        }
    }
    Ok(())
}

fn put_answered(alloc: Global, text: &mut String, replies: u64) -> Result<(), AllocError> {
    let line = format!(in alloc; "answered {replies}\n")?;
    text.push_str(line.as_str())
}

// What the client is told before and behind the steps.
fn outcome<P: Glancing + Drop>(
    alloc: Global,
    admin: &mut Admin<P>,
    taker: &mut Taker<P::Note>,
) -> Result<String, AllocError> {
    let mut text = String::new(alloc);
    put_all(alloc, &mut text, taker)?;
    put_steps(alloc, &mut text, admin)?;
    put_all(alloc, &mut text, taker)?;
    Ok(text)
}

// The inner client is attached, then the client comes up.
fn told_by<P: Glancing + Drop>(
    alloc: Global,
    port: Arc<P>,
    pass: Pass<Entry>,
    me: Zid,
    key: &[u8],
) -> Result<String, AllocError>
    requires { pass_name pass ≡ P.history (arc_value port) }
{
    let mut pass = pass;
    let inner = port.split(&mut pass);
    let Ok(mut admin) = Admin::open(alloc, Arc::try_clone(&port)?, inner, me, WORD) else {
        return Err(AllocError);
    };
    let mut taker = ask(alloc, &*port, &mut pass, key)?;
    outcome(alloc, &mut admin, &mut taker)
}

// The same at a router of this history.
fn told_at<B: Naming, R: Wait + Drop>(
    rt: R,
    alloc: Global,
    me: Zid,
    policy: Shared<Policy>,
    history: History<Entry>,
    kept: Kept<Entry>,
    pass: Pass<Entry>,
    key: &[u8],
) -> Result<String, AllocError>
    requires history { name history ≡ B.history }
    requires kept { (kept_name kept ≡ B.history) × (list_of kept ≡ []) }
    requires pass { pass_name pass ≡ B.history }
    requires own { me ≡ B.me }
    requires ruled { policy ≡ B.policy }
{
    let router = Router::<B, R, MemSink>::new(rt, alloc, me, policy, history, kept)?;
    told_by(alloc, Arc::new(alloc, router)?, pass, me, key)
}

// The same at a new router without rules. The key goes as bytes: at a call with a `&str` the name of a router can't be picked.
fn told<R: Wait + Drop>(rt: R, alloc: Global, key: &[u8]) -> Result<String, AllocError> {
    let Ok(me) = Zid::from_bytes(&[ROUTER]) else {
        return Err(AllocError);
    };
    let policy = Shared::new(alloc, Policy::open(alloc))?;
    let (history, kept, pass) = History::<Entry>::new(alloc)?;
    told_at::<Brand, R>(rt, alloc, me, policy, history, kept, pass, key)
}

// The number of the first row that comes out otherwise; that of all where there is none.
fn first_wrong<R: Wait + Copy + Drop>(
    rt: R,
    alloc: Global,
    rows: &[(&str, &str)],
) -> Result<usize, AllocError> {
    for i in 0..rows.len() {
        let (key, wanted) = rows[i];
        let outcome = told(rt, alloc, key.as_bytes())?;
        if outcome.as_str() != wanted {
            return Ok(i);
        }
    }
    Ok(rows.len())
}

#[test]
fn a_client_is_told_the_pages_that_it_asks_for(rt: HostRuntime) -> Result<(), Fail> {
    let wrong = first_wrong(rt, rt.alloc(), &ROWS)?;
    assert!(rt; wrong == ROWS.len(), "row {wrong}");
    Ok(())
}
