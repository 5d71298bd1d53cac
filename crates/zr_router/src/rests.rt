//! Who is woken behind an event, and for how long its thread rests or waits.

ghost use Rattle.std.specs.Prelude.{All, IfOk};
ghost use Rattle.zr_wire.specs.Writable.{IsWritable};

use crate::admit::MOST_SESSIONS;
use std::alloc::{AllocError, Global};
use zr_id::link::LinkNo;
use zr_msg::event::Event;
use zr_msg::msg::Msg;
use zr_router_queue::LinkSender;
use zr_router_room::{Crowds, bit_of};

/// For how long at most a link that goes down waits for rings, in milliseconds: its identifier is taken meanwhile.
pub(crate) const MOST_DOWN_WAIT_MS: u64 = 500;

/// For how long at most an answer of the inner client waits for rings, in milliseconds: it has more to answer, so one slow asker doesn't hold up all
/// others.
pub(crate) const MOST_ANSWER_WAIT_MS: u64 = 150;

/// For how long who brought an event is to rest, in milliseconds, and for the rings of which links, a bit for each.
#[derive(Clone, Copy)]
pub struct Rest {
    pub ms: u64,
    pub links: u128,
}

impl Rest {
    /// It isn't to rest.
    pub(crate) fn none() -> Rest {
        Rest { ms: 0, links: 0 }
    }
}

/// How who brought the event that is prepared is to rest: as long as the most crowded ring asks for.
pub(crate) fn rest_for(ends: &[LinkSender]) -> Rest {
    let mut rest = Rest::none();
    for end in ends {
        let ms = end.rest_ms();
        if ms > 0 {
            rest.ms = rest.ms.max(ms);
            rest.links |= bit_of(end.link());
        }
    }
    rest
}

/// Of some links those that an event leaves as they were: not one that comes up or goes down.
pub(crate) fn kept_at(event: &Event, links: u128) -> u128 {
    match event {
        Event::Up { link, .. } | Event::Down { link } => links & !bit_of(*link),
        Event::From { .. } => links,
    }
}

/// The links whose rings are half full once an event is entered that is prepared and sends this, where these were before.
pub(crate) fn pressed_by(ends: &[LinkSender], sent: &[(LinkNo, Msg)], before: u128) -> u128 {
    let due = due_of(sent);
    let mut pressed = before & !due;
    for end in ends {
        let bit = bit_of(end.link());
        if due & bit != 0 && end.is_half_full() {
            pressed |= bit;
        }
    }
    pressed
}

/// How much room the rings of some links have, which were asked, for an event that has so many parcels for each. Nothing more comes to a link that an
/// event has closed.
pub(crate) fn crowds_of(ends: &[LinkSender], links: u128, parcels: u64) -> Crowds {
    let mut crowds = Crowds::none(parcels);
    for end in ends {
        if links & bit_of(end.link()) != 0 && end.closing().is_none() {
            crowds.add(end.link(), end.free());
        }
    }
    crowds
}

/// The least number of bytes of a batch on one of these links.
pub(crate) fn least_batch(ends: &[LinkSender], links: u128) -> u16 {
    let mut least = u16::MAX;
    for end in ends {
        if links & bit_of(end.link()) != 0 {
            least = least.min(end.batch());
        }
    }
    least
}

/// A short message for each of these links, which none of them is ever sent.
pub(crate) fn parcel_each(alloc: Global, links: u128) -> Result<Vec<(LinkNo, Msg)>, AllocError>
    ensures { IfOk result (λ sent. All (λ x. IsWritable x.1) sent.items) }
{
    let mut sent = Vec::new(alloc);
    let mut rest = links;
    for _ in 0..MOST_SESSIONS {
        if rest == 0 {
            break;
        }
        sent.push((LinkNo(rest.trailing_zeros()), Msg::ToldUnsub { id: 0 }))?;
        rest &= rest - 1;
    }
    Ok(sent)
}

/// The links to which something was sent.
pub(crate) fn due_of(sent: &[(LinkNo, Msg)]) -> u128 {
    let mut due = 0;
    for (to, _) in sent {
        due |= bit_of(*to);
    }
    due
}
