//! The shared router: tables under a lock, and the board of the links' outlets beside it.

ghost use Rattle.std.specs.Prelude.{◌≡◌, ◌<◌, List, [], true, length, IfErr, OnOk};
ghost use Rattle.std.specs.List.{AllByRecursion};
ghost use Rattle.std.specs.Vec.Iter.{into_iter_items, into_iter_len};
ghost use Rattle.zr_board.specs.Board.{places_of};
ghost use Rattle.zr_hist.specs.Words.{IsSamePass, kept_name, list_of, name, pass_name, seen};
ghost use Rattle.zr_msg.specs.declared.msg.Msg.{Msg};
ghost use Rattle.zr_port.specs.Coming.{ComesUpTo, StopsAt, sight};
ghost use Rattle.zr_router_queue.specs.History.{is_legal};
ghost use Rattle.zr_wire.specs.Writing.{IsSpelled};
ghost use Rattle.zr_router.specs.Allowed.{AreAllowed};
ghost use Rattle.zr_router.specs.Refusals.{RefusesMessage, most_sessions};

use crate::admit::MOST_SESSIONS;
use crate::rests::{MOST_ANSWER_WAIT_MS, MOST_DOWN_WAIT_MS, Rest};
use crate::tables::{Due, Tables};
use std::alloc::{AllocError, Global};
use std::marker::PhantomData;
use std::sync::{Arc, Mutex, MutexGuard, Wait};
use std::thread::Parker;
use std::time::Duration;
use std::vec;
use zr_access::Policy;
use zr_board::{Board, SharedOutlet};
use zr_frame::Outbox;
use zr_glance::Glance;
use zr_hist::{History, Kept, Pass};
use zr_id::link::LinkNo;
use zr_id::zid::Zid;
use zr_link_writer::{Turn, WriterTurns};
use zr_msg::msg::Msg;
use zr_msg::peer::Peer;
use zr_msg::shared::Shared;
use zr_outside_brief::BriefSink;
use zr_port::{DeliverError, DownError, Entry, Naming, Port, UpError};
use zr_port_glance::Glancing;
use zr_port_outlet::Outlets;
use zr_ring::Taker;
use zr_router_queue::Queued;
use zr_router_room::{Coming, Pace, Patience};

/// How often a thread looks at most whether the event that it brings has room: more often than any patience lasts.
const MOST_LOOKS: u32 = 16_384;

/// A router that many threads share. Each call works on the tables under their lock. Once that is free again it writes what was queued, where that is
/// for few links, or wakes the links' writers. Only `split` and `join` take no lock. Where an event leaves a ring crowded, its thread rests for a
/// moment, so that a writer which wasn't scheduled at once gets to run before the ring is full.
pub struct Router<B: Naming, R: Wait + Drop, K: BriefSink + Drop> {
    rt: R,
    alloc: Global,
    history: History<Entry>,
    tables: Mutex<Tables<B>>,
    board: Board<K, Queued>,
    of: PhantomData<B>,
    ghost named: { name history ≡ B.history },
    ghost for_each_link: { places_of board ≡ most_sessions },
}

// Written out, so that it is proved here, and not by each crate that lets one go.
impl<B: Naming, R: Wait + Drop, K: BriefSink + Drop> Drop for Router<B, R, K> {
    fn drop(self) {
        let Self {
            rt: _rt,
            alloc: _alloc,
            history: _history,
            tables: _tables,
            board: _board,
            of: _of,
        } = self;
    }
}

impl<B: Naming, R: Wait + Drop, K: BriefSink + Drop> Router<B, R, K> {
    /// A router without links, over an empty history. It judges what clients send by these rules.
    pub fn new(
        rt: R,
        alloc: Global,
        me: Zid,
        policy: Shared<Policy>,
        history: History<Entry>,
        kept: Kept<Entry>,
    ) -> Result<Router<B, R, K>, AllocError>
        requires history { name history ≡ B.history }
        requires kept { (kept_name kept ≡ B.history) × (list_of kept ≡ []) }
        requires own { me ≡ B.me }
        requires ruled { policy ≡ B.policy }
    {
        let board = Board::new(alloc, MOST_SESSIONS)?;
        Ok(Router {
            rt,
            alloc,
            history,
            tables: Mutex::new(Tables::new(alloc, me, policy, kept)?),
            board,
            of: PhantomData,
        })
    }

    // Does what a call leaves to be done once the lock is free: what was queued is written or its writers are woken, and where a ring is crowded this
    // thread rests for a while. No one wakes it earlier.
    fn follow(&self, due: Due) {
        self.board.serve(&self.rt, due.links);
        if due.rest.ms > 0 {
            let parker = Parker::new();
            parker.park_timeout(&self.rt, Duration::from_millis(due.rest.ms));
        }
    }

    // Locks the tables for an event that comes over a link. Where it may need a ring that has too little room, this thread lets the lock go and looks anew in a
    // while, as long as its patience lasts. So events that go elsewhere don't wait.
    fn lock_for(
        &self,
        link: LinkNo,
        coming: Coming<'_>,
        patience: &mut Patience,
    ) -> MutexGuard<'_, Tables<B>> {
        let parker = Parker::new();
        for _ in 0..MOST_LOOKS {
            let mut tables = self.tables.lock(&self.rt);
            let outlook = tables.outlook(self.alloc, link, coming);
            let left_ms = tables.wait_left_ms(link, coming, outlook);
            let Some(rest_ms) = patience.rest_ms(outlook, tables.moves(), left_ms) else {
                if patience.has_asked() {
                    tables.release();
                }
                return tables;
            };
            let rest = Rest {
                ms: rest_ms,
                links: outlook.wanted(),
            };
            let rest_ms = tables.rest(link, rest);
            drop(tables);
            parker.park_timeout(&self.rt, Duration::from_millis(rest_ms));
        }
        let mut tables = self.tables.lock(&self.rt);
        tables.release();
        tables
    }

    // How fast these messages, which come over a link, are delivered.
    fn pace_of(&self, link: LinkNo, messages: &[Msg]) -> Pace {
        if messages.len() < 2 {
            return Pace::of(messages, 0); // a single one is looked at alone anyway
        }
        Pace::of(messages, self.clear_of(link, messages))
    }

    // The links, a bit for each, for whose rings an event waits or which are half full, and which none of these messages reaches. The lock is free between any two.
    fn clear_of(&self, link: LinkNo, messages: &[Msg]) -> u128 {
        let tables = self.tables.lock(&self.rt);
        let mut clear_of = tables.asked();
        drop(tables);
        for msg in messages {
            if clear_of == 0 {
                break;
            }
            let tables = self.tables.lock(&self.rt);
            clear_of = tables.clear_of(link, msg, clear_of);
            drop(tables);
        }
        clear_of
    }

    // Some more of the messages that have come over a link, at least one: where a ring is pressed, one that waits for its room.
    fn deliver_more(
        &self,
        pass: &mut Pass<Entry>,
        link: LinkNo,
        rest: &mut vec::IntoIter<Msg>,
        pace: &mut Pace,
    ) -> Result<(), DeliverError>
        requires pass { pass_name pass.old ≡ B.history }
        requires spelled { AllByRecursion IsSpelled (into_iter_items rest.old) }
        requires counted { into_iter_len rest.old ≡ length (into_iter_items rest.old) }
        requires some { 0 < into_iter_len rest.old }
        ensures same { IsSamePass pass.old pass.new }
        ensures legal { is_legal B.me (seen pass.new) ≡ true }
        ensures allowed { AreAllowed B.policy B.me (seen pass.new) }
        ensures delivered { OnOk result (ComesUpTo link (λ h m e. RefusesMessage B.policy B.me h link m e) (into_iter_items rest.old) (into_iter_items rest.new) (sight pass.old) (sight pass.new)) }
        ensures left { OnOk result (AllByRecursion IsSpelled (into_iter_items rest.new) × (into_iter_len rest.new ≡ length (into_iter_items rest.new))) }
        ensures fewer { OnOk result (into_iter_len rest.new < into_iter_len rest.old) }
        ensures stopped { IfErr result (λ e. (more : List Msg) × ComesUpTo link (λ h m x. RefusesMessage B.policy B.me h link m x) (into_iter_items rest.old) more (sight pass.old) (sight pass.new) × StopsAt (λ m x. RefusesMessage B.policy B.me (seen pass.new) link m x) more e) }
    {
        let mut tables = self.tables.lock(&self.rt);
        tables.begin(link, pace);
        if tables.is_pressed(pace) {
            drop(tables);
            return self.deliver_next(pass, link, rest, pace);
        }
        let result = tables.deliver_some(self.alloc, &self.history, pass, link, rest);
        let mut due = tables.take_due();
        due.rest.ms = tables.rest(link, due.rest);
        drop(tables);
        self.follow(due);
        result
    }

    // The next of the messages that have come over a link.
    fn deliver_next(
        &self,
        pass: &mut Pass<Entry>,
        link: LinkNo,
        rest: &mut vec::IntoIter<Msg>,
        pace: &mut Pace,
    ) -> Result<(), DeliverError>
        requires pass { pass_name pass.old ≡ B.history }
        requires spelled { AllByRecursion IsSpelled (into_iter_items rest.old) }
        requires counted { into_iter_len rest.old ≡ length (into_iter_items rest.old) }
        requires some { 0 < into_iter_len rest.old }
        ensures same { IsSamePass pass.old pass.new }
        ensures legal { is_legal B.me (seen pass.new) ≡ true }
        ensures allowed { AreAllowed B.policy B.me (seen pass.new) }
        ensures delivered { OnOk result (ComesUpTo link (λ h m e. RefusesMessage B.policy B.me h link m e) (into_iter_items rest.old) (into_iter_items rest.new) (sight pass.old) (sight pass.new)) }
        ensures left { OnOk result (AllByRecursion IsSpelled (into_iter_items rest.new) × (into_iter_len rest.new ≡ length (into_iter_items rest.new))) }
        ensures fewer { OnOk result (into_iter_len rest.new < into_iter_len rest.old) }
        ensures stopped { IfErr result (λ e. (more : List Msg) × ComesUpTo link (λ h m x. RefusesMessage B.policy B.me h link m x) (into_iter_items rest.old) more (sight pass.old) (sight pass.new) × StopsAt (λ m x. RefusesMessage B.policy B.me (seen pass.new) link m x) more e) }
    {
        let Some(msg) = rest.next() else {
            unreachable!()
        };
        pace.patience.next();
        let mut tables = self.lock_for(link, Coming::Message(&msg), &mut pace.patience);
        let result = tables.deliver_next(self.alloc, &self.history, pass, link, msg);
        let mut due = tables.take_due();
        due.rest.ms = tables.rest(link, due.rest);
        drop(tables);
        pace.came();
        self.follow(due);
        result
    }
}

impl<B: Naming, R: Wait + Drop, K: BriefSink + Drop> Port for Router<B, R, K> {
    ghost use Rattle.std.specs.Prelude.{◌≡◌, true};
    ghost use Rattle.zr_router_queue.specs.History as history;
    ghost use Rattle.zr_router_queue.specs.Tables as tables;
    ghost use Rattle.zr_router.specs.Allowed.{AreAllowed};
    ghost use Rattle.zr_router.specs.Refusals.{RefusesDown, RefusesMessage, RefusesUp};

    type Note = Queued;

    ghost router = { λ _. B.me };

    ghost history = { λ _. B.history };

    ghost policy = { λ _. B.policy };

    ghost is_legal = { λ _ h. (history.is_legal B.me h ≡ true) × AreAllowed B.policy B.me h };

    ghost is_up = { λ _ h link. tables.is_up B.me h link };

    ghost refuses_up = { λ _ h peer e. RefusesUp B.me h peer e };

    ghost refuses_message = { λ _ h link msg e. RefusesMessage B.policy B.me h link msg e };

    ghost refuses_down = { λ _ h link e. RefusesDown B.me h link e };

    fn up(
        &self,
        pass: &mut Pass<Entry>,
        peer: Peer,
        outbox: Outbox,
    ) -> Result<(LinkNo, Taker<Queued>), UpError> {
        let mut tables = self.tables.lock(&self.rt);
        let result = tables.up(self.alloc, &self.history, pass, peer, outbox);
        let due = tables.take_due();
        drop(tables);
        self.follow(due);
        result
    }

    fn deliver(&self, pass: &mut Pass<Entry>, link: LinkNo, msg: Msg) -> Result<(), DeliverError> {
        let mut patience = Patience::within(MOST_ANSWER_WAIT_MS);
        let mut tables = self.lock_for(link, Coming::Message(&msg), &mut patience);
        let result = tables.deliver(self.alloc, &self.history, pass, link, msg);
        let due = tables.take_due();
        drop(tables);
        self.follow(due);
        result
    }

    fn deliver_all(
        &self,
        pass: &mut Pass<Entry>,
        link: LinkNo,
        messages: Vec<Msg>,
    ) -> Result<(), DeliverError> {
        let mut pace = self.pace_of(link, messages.as_slice());
        let mut rest = messages.into_iter();
        while rest.len() > 0 {
            if let Err(e) = self.deliver_more(pass, link, &mut rest, &mut pace) {
                drop(rest);
                return Err(e);
            }
        }
        rest.destroy_empty();
        Ok(())
    }

    fn down(
        &self,
        pass: &mut Pass<Entry>,
        link: LinkNo,
        reason: Option<u8>,
    ) -> Result<(), DownError> {
        let mut patience = Patience::within(MOST_DOWN_WAIT_MS);
        let mut tables = self.lock_for(link, Coming::Down, &mut patience);
        let result = tables.down(self.alloc, &self.history, pass, link, reason);
        let due = tables.take_due();
        drop(tables);
        self.follow(due);
        match result {
            Ok(_) => Ok(()),
            Err(e) => Err(e),
        }
    }

    fn split(&self, pass: &mut Pass<Entry>) -> Pass<Entry> {
        self.history.split(pass)
    }

    fn join(&self, pass: &mut Pass<Entry>, other: Pass<Entry>) {
        self.history.join(pass, other);
    }

    fn is_spent(&self) -> bool {
        let tables = self.tables.lock(&self.rt);
        let is_spent = tables.is_spent();
        drop(tables);
        is_spent
    }

    fn rest(&self, link: LinkNo, most: u64) {
        self.board.rest(&self.rt, link, most);
    }
}

impl<B: Naming, R: Wait + Drop, K: BriefSink + Drop> Glancing for Router<B, R, K> {
    ghost use Rattle.zr_router_queue.specs.Tables as tables;
    ghost use Rattle.zr_router.specs.Former as former;
    ghost use Rattle.zr_router.specs.Glance as glances;

    ghost glance_of = { λ _ h. glances.glance (tables.replay B.me h).hub.node };

    ghost was_used = { λ _ h. former.was_used B.me h };

    fn glance(&self, pass: &mut Pass<Entry>) -> Result<Glance, AllocError> {
        let mut tables = self.tables.lock(&self.rt);
        let result = tables.glance(self.alloc, &self.history, pass);
        drop(tables);
        result
    }

    fn was_used_before(&self, pass: &mut Pass<Entry>) -> bool {
        let mut tables = self.tables.lock(&self.rt);
        let result = tables.was_used_before(&self.history, pass);
        drop(tables);
        result
    }
}

impl<B: Naming, R: Wait + Drop, K: BriefSink + Drop> Outlets for Router<B, R, K> {
    type Out = K;

    fn next_turn(&self, link: LinkNo) -> u64 {
        self.board.next_turn(&self.rt, link)
    }

    fn post(
        &self,
        link: LinkNo,
        turn: u64,
        outlet: &Arc<SharedOutlet<K, Queued>>,
    ) -> Result<(), AllocError> {
        let outlet = Arc::try_clone(outlet)?;
        self.board.post(&self.rt, link, turn, outlet);
        Ok(())
    }

    fn withdraw(&self, link: LinkNo, turn: u64) {
        self.board.withdraw(&self.rt, link, turn);
    }

    fn write(&self, outlet: &SharedOutlet<K, Queued>, now: u64, turns: &mut WriterTurns) -> Turn {
        outlet.turn(&self.rt, now, turns)
    }

    fn rest_at(&self, outlet: &SharedOutlet<K, Queued>, most: u64) {
        outlet.rest(&self.rt, most);
    }
}
