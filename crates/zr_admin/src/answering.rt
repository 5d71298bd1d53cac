//! The answers to requests.

ghost use Rattle.std.specs.Prelude.{◌≡◌, ◌++◌, ◌∷◌, [], ◌+◌, length, IfOk, OnOk};
ghost use Rattle.std.specs.List.{AllByRecursion};
ghost use Rattle.zr_wire.specs.Writing.{IsSpelled};
ghost use Rattle.zr_script_spec.specs.Command.{plain, reply_body};
ghost use Rattle.zr_admin.specs.Answers.{all_answers, answers, count_replies, replies, reply};

use crate::asked::Asked;
use std::alloc::{AllocError, Global};
use zr_glance::Page;
use zr_match::meets;
use zr_msg::content::Content;
use zr_msg::extras::Extras;
use zr_msg::msg::Msg;
use zr_msg::shared::Shared;
use zr_script::body::plain_reply;

/// The answers to these requests, in order, by these pages: to each the replies of the pages that it asks for, and a final.
#[tactic(auto, using(crate::proofs::Answered::all_spelled, crate::proofs::Answered::one_final_each))]
pub(crate) fn answers_to(
    alloc: Global,
    pages: &[Page],
    requests: &[Asked],
) -> Result<Vec<Msg>, AllocError>
    ensures answers { IfOk result (λ v. v.items ≡ all_answers pages.now requests.now) }
    ensures spelled { IfOk result (λ v. AllByRecursion IsSpelled v.items) }
    ensures count { IfOk result (λ v. length v.items ≡ count_replies pages.now requests.now + length requests.now) }
{
    let mut all = Vec::new(alloc);
    put_all(&mut all, pages, requests)?;
    Ok(all)
}

fn put_all(all: &mut Vec<Msg>, pages: &[Page], requests: &[Asked]) -> Result<(), AllocError>
    ensures { OnOk result (all.new.items ≡ all.old.items ++ all_answers pages.now requests.now) }
{
    for request in requests {
        put_answers(all, pages, request)?;
    }
    Ok(())
}

fn put_answers(all: &mut Vec<Msg>, pages: &[Page], request: &Asked) -> Result<(), AllocError>
    ensures { OnOk result (all.new.items ≡ all.old.items ++ answers pages.now request.now) }
{
    put_replies(all, pages, request)?;
    let extras = Shared::new(*all.allocator(), Extras::none())?;
    put(
        all,
        Msg::Final {
            id: request.id,
            extras,
        },
    )
}

fn put_replies(all: &mut Vec<Msg>, pages: &[Page], request: &Asked) -> Result<(), AllocError>
    ensures { OnOk result (all.new.items ≡ all.old.items ++ replies pages.now request.now) }
{
    for page in pages {
        put_reply(all, page, request)?;
    }
    Ok(())
}

fn put_reply(all: &mut Vec<Msg>, page: &Page, request: &Asked) -> Result<(), AllocError>
    ensures { OnOk result (all.new.items ≡ all.old.items ++ reply request.now page.now) }
{
    if !meets(&page.key, request.content.key()) {
        return Ok(());
    }
    let content = content_of(*all.allocator(), page)?;
    put(
        all,
        Msg::Response {
            id: request.id,
            content,
        },
    )
}

// The content of the reply that has a page.
fn content_of(alloc: Global, page: &Page) -> Result<Content, AllocError>
    ensures { IfOk result (λ c. c ≡ plain page.now.key (reply_body page.now.payload)) }
{
    let payload = page.payload.as_slice();
    // a payload of 4 GiB, which no router has, would be no payload on the wire
    if u32::try_from(payload.len()).is_err() {
        return Err(AllocError);
    }
    let body = plain_reply(alloc, payload)?;
    let key = page.key.copy(alloc)?;
    Content::new(alloc, key, Extras::none(), body)
}

fn put(all: &mut Vec<Msg>, msg: Msg) -> Result<(), AllocError>
    ensures { OnOk result (all.new.items ≡ all.old.items ++ msg ∷ []) }
{
    match all.push(msg) {
        Ok(()) => Ok(()),
        Err(_) => Err(AllocError),
    }
}
