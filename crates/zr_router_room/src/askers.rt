//! Whose queries were handed to whom, noted beside a router's tables: it helps to guess for whom a reply is.

use crate::links::{MOST_LINKS, bit_of};
use std::alloc::{AllocError, Global};
use zr_body::latest;
use zr_id::link::LinkNo;
use zr_msg::event::Event;
use zr_msg::msg::Msg;

/// Of each link: the links whose queries it was handed since they had none that pend, and how many of its own pend.
#[derive(Drop)]
pub struct Askers {
    // a bit for each link
    handed: Vec<u128>,
    pending: Vec<u64>,
    // the links of which a query that pends asks for the latest replies
    latest: u128,
}

impl Askers {
    /// No query was handed to anybody.
    pub fn new(alloc: Global) -> Result<Askers, AllocError> {
        Ok(Askers {
            handed: Vec::from_elem(alloc, 0, MOST_LINKS as usize)?,
            pending: Vec::from_elem(alloc, 0, MOST_LINKS as usize)?,
            latest: 0,
        })
    }

    /// Whether what comes over one link may answer a query of the other.
    pub fn may_answer(&self, from: LinkNo, to: LinkNo) -> bool {
        match self.handed.get(from.0 as usize) {
            Some(askers) => *askers & bit_of(to) != 0,
            None => false,
        }
    }

    /// Whether a query of the link may pend.
    pub fn may_wait(&self, link: LinkNo) -> bool {
        match self.pending.get(link.0 as usize) {
            Some(count) => *count > 0,
            None => false,
        }
    }

    /// Whether a query of one of these links, a bit for each, may pend that asks for the latest replies.
    pub fn may_want_latest(&self, links: u128) -> bool {
        self.latest & links != 0
    }

    /// An event was entered that sends this.
    pub fn follow(&mut self, event: &Event, sent: &[(LinkNo, Msg)]) {
        match event {
            Event::Up { link, .. } | Event::Down { link } => self.forget(*link),
            Event::From { link, msg } => {
                if let Msg::Request { content, .. } = msg {
                    self.ask(*link, latest(content.body()), sent);
                }
            }
        }
        for (to, msg) in sent {
            if let Msg::Final { .. } = msg {
                self.end(*to);
            }
        }
    }

    // A query has come over the link, and goes to these.
    fn ask(&mut self, asker: LinkNo, is_latest: bool, sent: &[(LinkNo, Msg)]) {
        if is_latest {
            self.latest |= bit_of(asker);
        }
        if let Some(count) = self.pending.get_mut(asker.0 as usize) {
            *count = count.saturating_add(1);
        }
        for (to, msg) in sent {
            if let Msg::Request { .. } = msg {
                self.hand(asker, *to);
            }
        }
    }

    fn hand(&mut self, asker: LinkNo, to: LinkNo) {
        if let Some(askers) = self.handed.get_mut(to.0 as usize) {
            *askers |= bit_of(asker);
        }
    }

    // A query of the link has ended.
    fn end(&mut self, asker: LinkNo) {
        let mut left = 0;
        if let Some(count) = self.pending.get_mut(asker.0 as usize) {
            *count = count.saturating_sub(1);
            left = *count;
        }
        if left == 0 {
            self.clear(asker);
        }
    }

    // The link is a new one, or has gone.
    fn forget(&mut self, link: LinkNo) {
        if let Some(askers) = self.handed.get_mut(link.0 as usize) {
            *askers = 0;
        }
        if let Some(count) = self.pending.get_mut(link.0 as usize) {
            *count = 0;
        }
        self.clear(link);
    }

    // No query of the link pends.
    fn clear(&mut self, asker: LinkNo) {
        let others = !bit_of(asker);
        self.latest &= others;
        for askers in self.handed.as_mut_slice() {
            *askers &= others;
        }
    }
}
