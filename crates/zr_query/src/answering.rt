//! Replies and finals at a router: they go to who asked, under the number that the request had there. Replies to who wants the latest ones alone
//! are held up to its final.

ghost use Rattle.std.specs.Prelude.{◌≡◌, ◌++◌, ◌∷◌, [], map, is_some, true, Some, IfOk, OnOk, OnErr};
ghost use Rattle.zr_body.specs.Latest.{is_later};
ghost use Rattle.zr_msg.specs.Extras.{no_extras};
ghost use Rattle.zr_node_spec.specs.Queries.{after_final, held_at, held_down, held_final, held_reply, link_no, passes_reply, sends_ends, sends_final, sends_reply};
ghost use Rattle.zr_pend_spec.specs.declared.branch.Asker.{Asker};
ghost use Rattle.zr_pend_spec.specs.Held.{gatherings_differ, held_for, takes_place};
ghost use Rattle.zr_pend_spec.specs.Pending.{asker_of, branch, dropped};
ghost use Rattle.zr_node_spec.specs.Event.{Tells, TellsPrefix};
ghost use Rattle.zr_lists.specs.Prefix.{IsPrefixBehind};
ghost use Rattle.zr_query.specs.Answering.{ending_sent, endings_sent, final_sent, reply_sent};

use std::alloc::{AllocError, Global};
use zr_body::is_later;
use zr_id::link::LinkNo;
use zr_msg::content::Content;
use zr_msg::extras::Extras;
use zr_msg::msg::Msg;
use zr_msg::shared::Shared;
use zr_node_spec::tell::tell;
use zr_pend::gathering::Ended;
use zr_pend::pending::Pending;
use zr_pend::replies::Held;
use zr_pend_spec::branch::Asker;

/// A reply has come under a number of a link: it is held where who asked wants the latest ones alone, and there is room for it. Else it goes
/// to who asked, if the request is pending there and its asker's link is up.
pub fn response(
    pending: &mut Pending,
    from: LinkNo,
    number: u32,
    content: &Content,
    out: &mut Vec<(LinkNo, Msg)>,
) -> Result<(), AllocError>
    ensures rows { pending.new.rows ≡ pending.old.rows }
    ensures held { OnOk result (pending.new.held ≡ held_reply pending.old.rows pending.old.held from.0 number content.now) }
    ensures ok { OnOk result (Tells (sends_reply pending.old.rows pending.old.held from.0 number content.now) out.old.items out.new.items) }
    ensures err { OnErr result (out.new.items ≡ out.old.items) }
{
    match hold(pending, from, number, content)? {
        true => Ok(()),
        false => pass_back(pending, from, number, content, out),
    }
}

/// A final has come under a number of a link: that branch has ended. Where it was the last one of its request, who asked gets what was held
/// for it, and a final with the same extensions.
pub fn final_of(
    pending: &mut Pending,
    from: LinkNo,
    number: u32,
    extras: &Shared<Extras>,
    out: &mut Vec<(LinkNo, Msg)>,
) -> Result<(), AllocError>
    ensures rows { pending.new.rows ≡ after_final pending.old.rows from.0 number }
    ensures held { pending.new.held ≡ held_final pending.old.rows pending.old.held from.0 number }
    ensures ok { OnOk result (Tells (sends_final pending.old.rows pending.old.held from.0 number extras.now) out.old.items out.new.items) }
    ensures err { OnErr result (TellsPrefix (sends_final pending.old.rows pending.old.held from.0 number extras.now) out.old.items out.new.items) }
{
    match pending.finish(from, number) {
        Some(ended) => end(extras, &ended, out),
        None => Ok(()),
    }
}

/// A link has gone down: its branches have ended, in the order of their numbers, and who asked a request that ends by that gets what was held
/// for it, and a final without extensions. What the link asked has no asker any more.
pub fn ends_of(
    alloc: Global,
    pending: &mut Pending,
    link: LinkNo,
    out: &mut Vec<(LinkNo, Msg)>,
) -> Result<(), AllocError>
    ensures rows { OnOk result (pending.new.rows ≡ dropped (link_no link.0) pending.old.rows) }
    ensures held { OnOk result (pending.new.held ≡ held_down pending.old.rows pending.old.held link.0) }
    ensures ok { OnOk result (Tells (sends_ends pending.old.rows pending.old.held link.0) out.old.items out.new.items) }
    ensures err { OnErr result (TellsPrefix (sends_ends pending.old.rows pending.old.held link.0) out.old.items out.new.items) }
{
    let ended = pending.drop_link(link)?;
    end_each(alloc, ended.as_slice(), out)
}

/// Who asked gets a final.
pub fn send_final(
    to: Asker,
    extras: Shared<Extras>,
    out: &mut Vec<(LinkNo, Msg)>,
) -> Result<(), AllocError>
    ensures ok { OnOk result (out.new.items ≡ out.old.items ++ final_sent extras to ∷ []) }
    ensures err { OnErr result (out.new.items ≡ out.old.items) }
{
    let id = to.number;
    tell(to.link, Msg::Final { id, extras }, out)
}

fn send_reply(to: Asker, content: &Content, out: &mut Vec<(LinkNo, Msg)>) -> Result<(), AllocError>
    ensures ok { OnOk result (out.new.items ≡ out.old.items ++ reply_sent content.now to ∷ []) }
    ensures err { OnErr result (out.new.items ≡ out.old.items) }
{
    let id = to.number;
    let content = content.copy()?;
    tell(to.link, Msg::Response { id, content }, out)
}

// Holds a reply, where it is a REPLY to who wants the latest ones alone and there is room for it: whether it is held.
fn hold(
    pending: &mut Pending,
    from: LinkNo,
    number: u32,
    content: &Content,
) -> Result<bool, AllocError>
    ensures answer { IfOk result (λ holds. holds ≡ is_some (held_at pending.old.rows pending.old.held from.0 number content.now)) }
    ensures rows { pending.new.rows ≡ pending.old.rows }
    ensures held { OnOk result (pending.new.held ≡ held_reply pending.old.rows pending.old.held from.0 number content.now) }
    ensures err { OnErr result (pending.new.held ≡ pending.old.held) }
{
    if !content.body().is_reply() {
        return Ok(false);
    }
    let later = is_latest(pending, from, number, content);
    pending.hold(from, number, content, later)
}

// Whether a reply is later than what is held for its key, or nothing is.
fn is_latest(pending: &Pending, from: LinkNo, number: u32, content: &Content) -> bool
    ensures later { (a : Asker) → asker_of (branch (link_no from.0) number) pending.now.rows ≡ Some a → result ≡ takes_place (λ c. is_later content.now.body c.body) (held_for pending.now.held a) content.now }
    ensures differ { gatherings_differ pending.now.held ≡ true }
{
    match pending.held(from, number, content.key()) {
        Some(held) => is_later(content.body(), held.body()),
        None => true,
    }
}

// A reply that isn't held goes to who asked.
fn pass_back(
    pending: &Pending,
    from: LinkNo,
    number: u32,
    content: &Content,
    out: &mut Vec<(LinkNo, Msg)>,
) -> Result<(), AllocError>
    ensures ok { OnOk result (Tells (passes_reply pending.now.rows from.0 number content.now) out.old.items out.new.items) }
    ensures err { OnErr result (out.new.items ≡ out.old.items) }
{
    match pending.find(from, number) {
        Some(asker) => send_reply(asker, content, out),
        None => Ok(()),
    }
}

// Who asked gets what was held for it, and then a final.
fn end(
    extras: &Shared<Extras>,
    ended: &Ended,
    out: &mut Vec<(LinkNo, Msg)>,
) -> Result<(), AllocError>
    ensures ok { OnOk result (out.new.items ≡ out.old.items ++ ending_sent extras.now ended.now) }
    ensures err { OnErr result (IsPrefixBehind out.old.items (ending_sent extras.now ended.now) out.new.items) }
{
    send_held(ended.asker, ended.held.as_slice(), out)?;
    send_final(ended.asker, extras.copy()?, out)
}

fn send_held(to: Asker, held: &[Held], out: &mut Vec<(LinkNo, Msg)>) -> Result<(), AllocError>
    ensures ok { OnOk result (out.new.items ≡ out.old.items ++ map (λ c. reply_sent c to) held.now) }
    ensures err { OnErr result (IsPrefixBehind out.old.items (map (λ c. reply_sent c to) held.now) out.new.items) }
{
    for reply in held {
        send_reply(to, reply, out)?;
    }
    Ok(())
}

// Each of these gets what was held for it, and a final without extensions.
fn end_each(alloc: Global, ended: &[Ended], out: &mut Vec<(LinkNo, Msg)>) -> Result<(), AllocError>
    ensures ok { OnOk result (out.new.items ≡ out.old.items ++ endings_sent no_extras ended.now) }
    ensures err { OnErr result (IsPrefixBehind out.old.items (endings_sent no_extras ended.now) out.new.items) }
{
    let none = Shared::new(alloc, Extras::none())?;
    end_with(&none, ended, out)
}

fn end_with(
    extras: &Shared<Extras>,
    ended: &[Ended],
    out: &mut Vec<(LinkNo, Msg)>,
) -> Result<(), AllocError>
    ensures ok { OnOk result (out.new.items ≡ out.old.items ++ endings_sent extras.now ended.now) }
    ensures err { OnErr result (IsPrefixBehind out.old.items (endings_sent extras.now ended.now) out.new.items) }
{
    for one in ended {
        end(extras, one, out)?;
    }
    Ok(())
}
