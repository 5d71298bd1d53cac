//! The tables under a router's lock, and the three calls on them. Each looks at the history first, so that every refusal speaks of all that has
//! happened.

ghost use Rattle.std.specs.Prelude.{◌≡◌, ◌≢◌, ◌↔◌, ◌⊎◌, ◌<◌, ◌==◌, ◌++◌, ◌∷◌, [], All, not, filter, false, true, length, Err, IfErr, IfOk, OnErr, OnOk, List, Some, None, is_err};
ghost use mathlib.Core.List.{IsPrefix};
ghost use Rattle.std.specs.List.{AllByRecursion};
ghost use Rattle.std.specs.Vec.Iter.{into_iter_items, into_iter_len};
ghost use Rattle.zr_hist.specs.Words.{IsSamePass, kept_name, list_of, mine, most_entries, name, pass_name, seen};
ghost use Rattle.zr_id.specs.declared.link.LinkNo.{LinkNo};
ghost use Rattle.zr_msg.specs.declared.event.Event.TheVariants as event;
ghost use Rattle.zr_msg.specs.declared.msg.Msg.{Msg};
ghost use Rattle.zr_port.specs.Adding.{Adds, IsAdmitted, IsEntryOf, IsLeastFree};
ghost use Rattle.zr_port.specs.Coming.{Came, ComesUpTo, Makes, StopsAt, is_passed, message_of, sight};
ghost use Rattle.zr_port.specs.Ring.{IsRingOf};
ghost use Rattle.zr_port.specs.declared.entry.Entry.{Entry};
ghost use Rattle.zr_port.specs.declared.error.DeliverError.{DeliverError};
ghost use Rattle.zr_port.specs.declared.error.DownError.{DownError};
ghost use Rattle.zr_port.specs.declared.error.UpError.{UpError};
ghost use Rattle.zr_ring.specs.Taker.{taken, taker_name, take_calls};
ghost use Rattle.zr_node_spec.specs.Early.{is_early};
ghost use Rattle.zr_node_spec.specs.Event.{MayCome, on_link};
ghost use Rattle.zr_told_spec.specs.Hub.{hub_after, hub_refuses, hub_sends};
ghost use Rattle.zr_wire.specs.Writing.{IsSpelled};
ghost use Rattle.zr_router_queue.specs.Ends.{EndState, GoesByRings, IsReplay, new_end, taker_ring};
ghost use Rattle.zr_router_queue.specs.History.{is_legal};
ghost use Rattle.zr_router_queue.specs.Tables.{is_up, new_queue, replay};
ghost use Rattle.zr_router.specs.Allowed.{AreAllowed, is_allowed};
ghost use Rattle.zr_router.specs.declared.failure.Failure.{Failure};
ghost use Rattle.zr_router.specs.Failures.{HasFailed};
ghost use Rattle.zr_router.specs.Former.{brings_former, was_used};
ghost use Rattle.zr_router.specs.Glance.{glance};
ghost use Rattle.zr_router.specs.Handled.{IsHandled};
ghost use Rattle.zr_router.specs.Ended.{HasEnded};
ghost use Rattle.zr_router.specs.Replayed.{AreAllowed-prop, HoldsSpelled-prop, IsReplay-prop};
ghost use Rattle.zr_router_queue.specs.Held.{ComesSpelled, HoldsSpelled};
ghost use Rattle.zr_wire.specs.Writable.{IsWritable};
ghost use Rattle.zr_router.specs.Judged.{is_judged};
ghost use Rattle.zr_router.specs.Runs.{IsStep, RunsUpTo};
ghost use Rattle.zr_router.specs.Refusals.{RefusesDown, RefusesMessage, RefusesUp, down_refusal, is_worn, most_sessions, peer_refusal};

use crate::admit::{node_refusal, refuses_down, refuses_message, refuses_peer};
use crate::ends::{closing_of, ring_name, taken_out};
use crate::failure::Failure;
use crate::former::tells_former;
use crate::rests::{
    Rest, crowds_of, due_of, kept_at, least_batch, parcel_each, pressed_by, rest_for,
};
use std::alloc::{AllocError, Global};
use std::marker::PhantomData;
use std::vec;
use zr_access::Policy;
use zr_frame::Outbox;
use zr_glance::Glance;
use zr_hist::{History, Kept, Pass};
use zr_id::link::LinkNo;
use zr_id::zid::Zid;
use zr_msg::event::Event;
use zr_msg::msg::Msg;
use zr_msg::peer::{Peer, Role};
use zr_msg::shared::Shared;
use zr_port::{DeliverError, DownError, Entry, Naming, UpError};
use zr_ring::{Giver, Taker};
use zr_router_core::hub::Hub;
use zr_router_glance::glance_at;
use zr_router_queue::{LinkSender, Queued, enter, prepare};
use zr_router_room::{Askers, Coming, Crowds, MOST_LINKS, Outlook, Pace, Rested, View, bit_of};

/// How many entries a history has at most.
const MOST_ENTRIES: u64 = u64::MAX;

/// How many messages are delivered at most while the tables are locked once.
const MOST_HELD: u32 = 64;

/// The tables of a running router: the router itself with what its clients were told, the links that are up in the order in which they came up, and
/// what stands for the history. Unless memory ran out they are the replay of its list, and each reply that the router holds can be written.
pub struct Tables<B: Naming> {
    me: Zid,
    policy: Shared<Policy>,
    hub: Hub,
    ends: Vec<LinkSender>,
    kept: Kept<Entry>,
    // the links whose writers have something new, a bit for each
    due: u128,
    // how who brought the last event is to rest
    rest: Rest,
    // whether a writer is to be woken at once, since the last event leaves its ring half full
    presses: bool,
    // whether the router has heard that its identifier was in use before
    used_before: bool,
    askers: Askers,
    // the links whose rings the last event that had something for them has left half full, and those whose rings an event that has come waits for
    pressed: u128,
    wanted: u128,
    // how many events have got in that had waited
    moves: u64,
    // of each link for how long who reads from it has rested, if a router is behind it
    rested: Vec<Rested>,
    is_spent: bool,
    of: PhantomData<B>,
    ghost named: { kept_name kept ≡ B.history },
    ghost own: { me ≡ B.me },
    ghost ruled: { policy ≡ B.policy },
    ghost legal: { is_legal B.me (list_of kept) ≡ true },
    ghost allowed: { AreAllowed B.policy B.me (list_of kept) } by { AreAllowed-prop B.policy B.me (list_of kept) },
    ghost used: { used_before ≡ was_used B.me (list_of kept) },
    ghost replayed: { is_spent ≡ false → IsReplay B.me (list_of kept) hub ends.items } by { IsReplay-prop is_spent B.me (list_of kept) hub ends.items },
    ghost spelled: { is_spent ≡ false → HoldsSpelled hub.node.held } by { HoldsSpelled-prop is_spent hub.node.held },
}

// Written out, so that it is proved here, and not by each crate that lets one go.
impl<B: Naming> Drop for Tables<B> {
    fn drop(self) {
        let Self {
            me: _me,
            policy: _policy,
            hub: _hub,
            ends: _ends,
            kept: _kept,
            due: _due,
            rest: _rest,
            presses: _presses,
            used_before: _used_before,
            askers: _askers,
            pressed: _pressed,
            wanted: _wanted,
            moves: _moves,
            rested: _rested,
            is_spent: _is_spent,
            of: _of,
        } = self;
    }
}

/// What the calls on the tables leave to be done once their lock is free.
#[derive(Clone, Copy)]
pub struct Due {
    /// The links whose writers have something new, a bit for each.
    pub links: u128,
    /// How the thread rests: it has brought an event that leaves a ring crowded, whose writer is to run before the next one.
    pub rest: Rest,
}

// What has come to the router, with what the call said beside it.
struct Arrival {
    event: Event,
    outbox: Option<Outbox>,
    reason: Option<u8>,
    // whether it tells that the router's identifier was in use before
    is_former: bool,
}

impl<B: Naming> Tables<B> {
    ghost use Rattle.zr_router.specs.Words.{entries, is_spent, open_links};

    /// The tables of a router without links, and an empty history.
    pub fn new(
        alloc: Global,
        me: Zid,
        policy: Shared<Policy>,
        kept: Kept<Entry>,
    ) -> Result<Tables<B>, AllocError>
        requires named { kept_name kept ≡ B.history }
        requires own { me ≡ B.me }
        requires ruled { policy ≡ B.policy }
        requires empty { list_of kept ≡ [] }
        ensures { IfOk result (λ t. (entries t ≡ []) × (is_spent t ≡ false) × (open_links t ≡ [])) }
    {
        Ok(Tables {
            me,
            policy,
            hub: Hub::new(alloc, me)?,
            ends: Vec::new(alloc),
            kept,
            due: 0,
            rest: Rest::none(),
            presses: false,
            used_before: false,
            askers: Askers::new(alloc)?,
            pressed: 0,
            wanted: 0,
            moves: 0,
            rested: Vec::from_elem(alloc, Rested::never(), MOST_LINKS as usize)?,
            is_spent: false,
            of: PhantomData,
        })
    }

    /// A message has come over a link.
    pub fn deliver(
        &mut self,
        alloc: Global,
        history: &History<Entry>,
        pass: &mut Pass<Entry>,
        link: LinkNo,
        msg: Msg,
    ) -> Result<(), DeliverError>
        requires history { name history.now ≡ B.history }
        requires pass { pass_name pass.old ≡ B.history }
        requires spelled { IsSpelled msg }
        ensures same { IsSamePass pass.old pass.new }
        ensures prefix { IsPrefix (seen pass.old) (entries self.old) }
        ensures seen { seen pass.new ≡ entries self.new }
        ensures legal { is_legal B.me (entries self.new) ≡ true }
        ensures allowed { AreAllowed B.policy B.me (entries self.new) }
        ensures added { IfOk result (λ _. Adds pass.old pass.new (λ before e. (before ≡ entries self.old) × IsEntryOf (event.From link msg) None None e × IsAdmitted (λ r. RefusesMessage B.policy B.me before link msg r))) }
        ensures rings { IfOk result (λ _. Adds pass.old pass.new (λ before e. (before ≡ entries self.old) × GoesByRings B.me before e (open_links self.old) (open_links self.new))) }
        ensures refused { IfErr result (λ r. r ≢ DeliverError.NoMemory → RefusesMessage B.policy B.me (entries self.old) link msg r) }
        ensures unchanged { OnErr result ((entries self.new ≡ entries self.old) × (mine pass.new ≡ mine pass.old)) }
        ensures unasked { IfErr result (λ r. r ≢ DeliverError.NoMemory → open_links self.new ≡ open_links self.old) }
        ensures spent { (result ≡ Err DeliverError.NoMemory) ↔ (is_spent self.new ≡ true) }
        ensures stays { is_spent self.old ≡ true → is_spent self.new ≡ true }
        ensures judged { is_spent self.old ≡ false → (r : DeliverError) → is_judged r ≡ true → RefusesMessage B.policy B.me (entries self.old) link msg r → result ≢ Err DeliverError.NoMemory }
    {
        let Ok(worn) = self.look(history, pass) else {
            drop(msg);
            return Err(DeliverError::NoMemory);
        };
        let peer = self.hub.peer_at(link);
        let closing = closing_of(self.ends.as_slice(), link);
        if let Some(refused) = refuses_message(&self.policy, peer, closing, link, &msg, worn) {
            drop(msg);
            return Err(refused);
        }
        let is_former = tells_former(self.hub.base(), &msg);
        let event = Event::From { link, msg };
        let sent = match self.handle(alloc, &event) {
            Ok(sent) => sent,
            Err(Failure::NoMemory) => {
                drop(event);
                return Err(DeliverError::NoMemory);
            }
            Err(Failure::Refused(error)) => {
                drop(event);
                return Err(node_refusal(!self.policy.get().is_open(), error));
            }
        };
        let arrival = Arrival {
            event,
            outbox: None,
            reason: None,
            is_former,
        };
        match self.enter(alloc, history, pass, arrival, sent.as_slice()) {
            Ok(()) => {
                drop(sent);
                Ok(())
            }
            Err(AllocError) => {
                drop(sent);
                Err(DeliverError::NoMemory)
            }
        }
    }

    /// Messages have come over a link: the next of them are delivered or passed over, in order, up to the first that is refused otherwise. As many of them
    /// are left as would hold up other threads, or the writers of links: behind so many messages, and behind one that leaves a ring half full or crowded.
    pub fn deliver_some(
        &mut self,
        alloc: Global,
        history: &History<Entry>,
        pass: &mut Pass<Entry>,
        link: LinkNo,
        messages: &mut vec::IntoIter<Msg>,
    ) -> Result<(), DeliverError>
        requires history { name history.now ≡ B.history }
        requires pass { pass_name pass.old ≡ B.history }
        requires spelled { AllByRecursion IsSpelled (into_iter_items messages.old) }
        requires counted { into_iter_len messages.old ≡ length (into_iter_items messages.old) }
        requires some { 0 < into_iter_len messages.old }
        ensures same { IsSamePass pass.old pass.new }
        ensures prefix { IsPrefix (seen pass.old) (entries self.old) }
        ensures seen { seen pass.new ≡ entries self.new }
        ensures legal { is_legal B.me (seen pass.new) ≡ true }
        ensures allowed { AreAllowed B.policy B.me (seen pass.new) }
        ensures own { (own : List Entry) × (entries self.new ≡ entries self.old ++ own) × (mine pass.new ≡ mine pass.old ++ own) }
        ensures run { OnOk result (RunsUpTo B.policy B.me link (into_iter_items messages.old) (into_iter_items messages.new) (entries self.old) (open_links self.old) (entries self.new) (open_links self.new)) }
        ensures run_so_far { IfErr result (λ r. r ≢ DeliverError.NoMemory → (msg : Msg) × RunsUpTo B.policy B.me link (into_iter_items messages.old) (msg ∷ into_iter_items messages.new) (entries self.old) (open_links self.old) (entries self.new) (open_links self.new)) }
        ensures delivered { OnOk result (ComesUpTo link (λ h m e. RefusesMessage B.policy B.me h link m e) (into_iter_items messages.old) (into_iter_items messages.new) (sight pass.old) (sight pass.new)) }
        ensures left { OnOk result (AllByRecursion IsSpelled (into_iter_items messages.new) × (into_iter_len messages.new ≡ length (into_iter_items messages.new))) }
        ensures fewer { OnOk result (into_iter_len messages.new < into_iter_len messages.old) }
        ensures stopped { IfErr result (λ e. (rest : List Msg) × ComesUpTo link (λ h m x. RefusesMessage B.policy B.me h link m x) (into_iter_items messages.old) rest (sight pass.old) (sight pass.new) × StopsAt (λ m x. RefusesMessage B.policy B.me (seen pass.new) link m x) rest e) }
        ensures spent { (result ≡ Err DeliverError.NoMemory) ↔ (is_spent self.new ≡ true) }
        ensures stays { is_spent self.old ≡ true → is_spent self.new ≡ true }
        ensures memory { result ≡ Err DeliverError.NoMemory → (is_spent self.old ≡ true) ⊎ ((msg : Msg) × (there : List EndState) × RunsUpTo B.policy B.me link (into_iter_items messages.old) (msg ∷ into_iter_items messages.new) (entries self.old) (open_links self.old) (entries self.new) there × ((r : DeliverError) → is_judged r ≡ true → RefusesMessage B.policy B.me (entries self.new) link msg r → ⊥)) }
    {
        for _ in 0..MOST_HELD {
            let Some(msg) = messages.next() else {
                return Ok(());
            };
            if let Err(e) = self.deliver_next(alloc, history, pass, link, msg) {
                return Err(e);
            }
            if self.presses || self.rest.ms > 0 {
                return Ok(());
            }
        }
        Ok(())
    }

    /// One message more has come over a link: it is delivered, or passed over.
    pub(crate) fn deliver_next(
        &mut self,
        alloc: Global,
        history: &History<Entry>,
        pass: &mut Pass<Entry>,
        link: LinkNo,
        msg: Msg,
    ) -> Result<(), DeliverError>
        requires history { name history.now ≡ B.history }
        requires pass { pass_name pass.old ≡ B.history }
        requires spelled { IsSpelled msg }
        ensures same { IsSamePass pass.old pass.new }
        ensures prefix { IsPrefix (seen pass.old) (entries self.old) }
        ensures seen { seen pass.new ≡ entries self.new }
        ensures legal { is_legal B.me (entries self.new) ≡ true }
        ensures allowed { AreAllowed B.policy B.me (entries self.new) }
        ensures came { OnOk result ((c : Came) × (message_of c ≡ msg) × IsStep B.policy B.me link c (entries self.old) (open_links self.old) (entries self.new) (open_links self.new) × Makes link (λ h m x. RefusesMessage B.policy B.me h link m x) c (sight pass.old) (sight pass.new)) }
        ensures own { (own : List Entry) × (entries self.new ≡ entries self.old ++ own) × (mine pass.new ≡ mine pass.old ++ own) }
        ensures stops { IfErr result (λ r. is_passed r ≡ false) }
        ensures refused { IfErr result (λ r. r ≢ DeliverError.NoMemory → RefusesMessage B.policy B.me (entries self.old) link msg r) }
        ensures unchanged { OnErr result ((entries self.new ≡ entries self.old) × (mine pass.new ≡ mine pass.old)) }
        ensures unasked { IfErr result (λ r. r ≢ DeliverError.NoMemory → open_links self.new ≡ open_links self.old) }
        ensures spent { (result ≡ Err DeliverError.NoMemory) ↔ (is_spent self.new ≡ true) }
        ensures stays { is_spent self.old ≡ true → is_spent self.new ≡ true }
        ensures judged { is_spent self.old ≡ false → (r : DeliverError) → is_judged r ≡ true → RefusesMessage B.policy B.me (entries self.old) link msg r → result ≢ Err DeliverError.NoMemory }
    {
        match self.deliver(alloc, history, pass, link, msg) {
            Ok(()) => Ok(()),
            Err(e) => { if e.is_passed() { Ok(()) } else { Err(e) } }
        }
    }

    /// Whether memory ran out in an earlier call.
    pub fn is_spent(&self) -> bool
        ensures { result ≡ is_spent self.now }
    {
        self.is_spent
    }

    /// For how long what comes over a link may wait yet for the rings that it lacks room in, in milliseconds. What comes over a link that an event has
    /// closed is refused, so it doesn't wait.
    pub(crate) fn wait_left_ms(&self, link: LinkNo, coming: Coming<'_>, outlook: Outlook) -> u64 {
        match (coming, closing_of(self.ends.as_slice(), link)) {
            (Coming::Message(_), Some(_)) => 0,
            (Coming::Message(_), None) | (Coming::Down, _) => {
                self.rest_left_ms(link, outlook.wanted())
            }
        }
    }

    // For how long who reads from a link may rest yet for the rings of others, in milliseconds. Who reads from a client rests as long as is asked: nobody
    // else is behind it.
    fn rest_left_ms(&self, link: LinkNo, others: u128) -> u64 {
        let Some(peer) = self.hub.peer_at(link) else {
            return 0;
        };
        match (peer.role, self.rested.get(link.0 as usize)) {
            (Role::Client, _) => u64::MAX,
            (Role::Router, Some(rested)) => rested.left_ms(self.view().role_of(others)),
            (Role::Router, None) => 0,
        }
    }

    /// Who reads from a link rests so, or as long as it may; the answer is how long that is, in milliseconds.
    pub(crate) fn rest(&mut self, link: LinkNo, asked: Rest) -> u64
        ensures same { (entries self.new ≡ entries self.old) × (is_spent self.new ≡ is_spent self.old) × (open_links self.new ≡ open_links self.old) }
    {
        let Some(peer) = self.hub.peer_at(link) else {
            return 0;
        };
        let from = peer.role;
        let role = self.view().role_of(asked.links);
        match (from, self.rested.get_mut(link.0 as usize)) {
            (Role::Client, _) => asked.ms,
            (Role::Router, Some(rested)) => rested.rest(role, asked.ms),
            (Role::Router, None) => 0,
        }
    }

    /// Messages that one read gave are to be delivered.
    pub(crate) fn begin(&mut self, link: LinkNo, pace: &mut Pace)
        ensures same { (entries self.new ≡ entries self.old) × (is_spent self.new ≡ is_spent self.old) × (open_links self.new ≡ open_links self.old) }
    {
        let Some(is_all) = pace.begin() else {
            return;
        };
        if let Some(rested) = self.rested.get_mut(link.0 as usize) {
            rested.read(is_all);
        }
    }

    /// The links, a bit for each, for whose rings an event waits or which are half full.
    pub(crate) fn asked(&self) -> u128 {
        self.pressed | self.wanted
    }

    /// The links among these, a bit for each, that a message over a link doesn't reach.
    pub(crate) fn clear_of(&self, link: LinkNo, msg: &Msg, among: u128) -> u128 {
        among & !self.view().reached(link, Coming::Message(msg), among)
    }

    /// How many events have got in that had waited.
    pub(crate) fn moves(&self) -> u64 {
        self.moves
    }

    /// Whether the next message over a link is to be looked at alone: an event waits for a ring, or, where some of those that come may not be dropped, one
    /// is half full. Rings that none of them may reach don't count.
    pub(crate) fn is_pressed(&self, pace: &Pace) -> bool {
        let asked = if pace.all_may_drop {
            self.wanted
        } else {
            self.asked()
        };
        asked & !pace.clear_of != 0
    }

    /// What an event that comes over a link is to wait for. Where memory runs out it waits for nothing, and that spends nothing: the event may be refused yet.
    pub(crate) fn outlook(&mut self, alloc: Global, from: LinkNo, coming: Coming<'_>) -> Outlook
        ensures { (entries self.new ≡ entries self.old) × (is_spent self.new ≡ is_spent self.old) }
    {
        if coming.may_be_dropped() {
            let reached = self.view().reached(from, coming, self.wanted);
            return self.crowds(alloc, reached, 1).outlook_behind();
        }
        let reached = self.view().reached(from, coming, self.pressed);
        let batch = least_batch(self.ends.as_slice(), reached);
        let parcels = self.view().parcels(coming, reached, batch);
        let outlook = self.crowds(alloc, reached, parcels).outlook();
        self.wanted |= outlook.wanted();
        outlook
    }

    fn view(&self) -> View<'_> {
        View {
            hub: &self.hub,
            askers: &self.askers,
        }
    }

    // How much room the rings of these links have for so many parcels each. No link counts where memory has run out.
    fn crowds(&mut self, alloc: Global, links: u128, parcels: u64) -> Crowds
        ensures { (entries self.new ≡ entries self.old) × (is_spent self.new ≡ is_spent self.old) }
    {
        if links == 0 || self.is_spent {
            return Crowds::none(parcels);
        }
        let Ok(sent) = parcel_each(alloc, links) else {
            return Crowds::none(parcels);
        };
        let result = self.probe(alloc, sent.as_slice());
        drop(sent);
        match result {
            Ok(()) => crowds_of(self.ends.as_slice(), links, parcels),
            Err(AllocError) => Crowds::none(parcels),
        }
    }

    // Rings are asked as for an event that sends this, of which nothing is entered: so nothing is spent.
    fn probe(&mut self, alloc: Global, sent: &[(LinkNo, Msg)]) -> Result<(), AllocError>
        requires open { self.old.is_spent ≡ false }
        requires written { All (λ x. IsWritable x.1) sent.now }
        ensures kept { list_of self.new.kept ≡ list_of self.old.kept }
        ensures open { self.new.is_spent ≡ false }
    {
        self.is_spent = true;
        let ends = self.ends.as_mut_slice();
        let event = Event::Down { link: LinkNo(0) }; // whichever: it isn't entered
        let asked = prepare(alloc, ends, sent, event, None, None);
        self.is_spent = false;
        drop(asked?);
        self.pressed = pressed_by(self.ends.as_slice(), sent, self.pressed);
        Ok(())
    }

    /// An event has waited, and comes now: others that wait will ask for their rings anew.
    pub(crate) fn release(&mut self)
        ensures same { entries self.new ≡ entries self.old }
        ensures spent { is_spent self.new ≡ is_spent self.old }
    {
        self.wanted = 0;
        self.moves = self.moves.saturating_add(1);
    }

    /// A session with a peer has opened: its link comes up under the least number that isn't up.
    pub fn up(
        &mut self,
        alloc: Global,
        history: &History<Entry>,
        pass: &mut Pass<Entry>,
        peer: Peer,
        outbox: Outbox,
    ) -> Result<(LinkNo, Taker<Queued>), UpError>
        requires history { name history.now ≡ B.history }
        requires pass { pass_name pass.old ≡ B.history }
        ensures same { IsSamePass pass.old pass.new }
        ensures prefix { IsPrefix (seen pass.old) (entries self.old) }
        ensures seen { seen pass.new ≡ entries self.new }
        ensures legal { is_legal B.me (entries self.new) ≡ true }
        ensures allowed { AreAllowed B.policy B.me (entries self.new) }
        ensures added { IfOk result (λ r. Adds pass.old pass.new (λ before e. (before ≡ entries self.old) × IsEntryOf (event.Up r.0 peer) (Some outbox) None e × (IsLeastFree (λ l. is_up B.me before l) r.0 × IsAdmitted (λ e. RefusesUp B.me before peer e)))) }
        ensures rings { IfOk result (λ r. Adds pass.old pass.new (λ before e. (before ≡ entries self.old) × GoesByRings B.me before e (open_links self.old ++ new_end (new_queue r.0 peer.role outbox) (taker_ring r.1) ∷ []) (open_links self.new))) }
        ensures link { IfOk result (λ r. is_up B.me (entries self.new) r.0 ≡ true) }
        ensures numbered { IfOk result (λ r. r.0.0 < most_sessions) }
        ensures taker { IfOk result (λ r. (taken r.1 ≡ []) × (take_calls r.1 ≡ 0)) }
        ensures ring { IfOk result (λ r. IsRingOf B.me r.0 (entries self.new) (taker_name r.1)) }
        ensures refused { IfErr result (λ e. e ≢ UpError.NoMemory → RefusesUp B.me (entries self.old) peer e) }
        ensures unchanged { OnErr result ((entries self.new ≡ entries self.old) × (mine pass.new ≡ mine pass.old)) }
        ensures unasked { IfErr result (λ e. e ≢ UpError.NoMemory → open_links self.new ≡ open_links self.old) }
        ensures spent { (result ≡ Err UpError.NoMemory) ↔ (is_spent self.new ≡ true) }
        ensures stays { is_spent self.old ≡ true → is_spent self.new ≡ true }
        ensures judged { is_spent self.old ≡ false → (e : UpError) → peer_refusal (replay B.me (entries self.old)).hub.node peer (is_worn (entries self.old)) ≡ Some e → result ≡ Err e }
    {
        let Ok(worn) = self.look(history, pass) else {
            return Err(UpError::NoMemory);
        };
        if let Some(refused) = refuses_peer(&self.hub, worn, &peer) {
            return Err(refused); // a peer that isn't taken costs no memory
        }
        let link = self.hub.free_link();
        let event = Event::Up { link, peer };
        let sent = match self.handle(alloc, &event) {
            Ok(sent) => sent,
            Err(Failure::NoMemory) => {
                drop(event);
                return Err(UpError::NoMemory);
            }
            Err(Failure::Refused(_)) => {
                drop(event);
                return Err(UpError::Worn); // a number that the event needs
            }
        };
        let Ok(taker) = self.add_end(alloc, link, peer.role, outbox) else {
            drop(event);
            drop(sent);
            return Err(UpError::NoMemory);
        };
        let arrival = Arrival {
            event,
            outbox: Some(outbox),
            reason: None,
            is_former: false,
        };
        let Ok(()) = self.enter(alloc, history, pass, arrival, sent.as_slice()) else {
            drop(sent);
            drop(taker);
            return Err(UpError::NoMemory);
        };
        drop(sent);
        Ok((link, taker))
    }

    /// A link has ended, by this end for the reason where there is one. Its ring, whose giver is the answer, gets its end with it unless it has one.
    pub fn down(
        &mut self,
        alloc: Global,
        history: &History<Entry>,
        pass: &mut Pass<Entry>,
        link: LinkNo,
        reason: Option<u8>,
    ) -> Result<Giver<Queued>, DownError>
        requires history { name history.now ≡ B.history }
        requires pass { pass_name pass.old ≡ B.history }
        ensures same { IsSamePass pass.old pass.new }
        ensures prefix { IsPrefix (seen pass.old) (entries self.old) }
        ensures seen { seen pass.new ≡ entries self.new }
        ensures legal { is_legal B.me (entries self.new) ≡ true }
        ensures allowed { AreAllowed B.policy B.me (entries self.new) }
        ensures added { IfOk result (λ _. Adds pass.old pass.new (λ before e. (before ≡ entries self.old) × IsEntryOf (event.Down link) None reason e × IsAdmitted (λ e. RefusesDown B.me before link e))) }
        ensures rings { IfOk result (λ _. Adds pass.old pass.new (λ before e. (before ≡ entries self.old) × GoesByRings B.me before e (filter (λ x. not (x.queue.link.0 == link.0)) (open_links self.old)) (open_links self.new))) }
        ensures ended { IfOk result (λ giver. HasEnded (open_links self.old) link reason giver) }
        ensures refused { IfErr result (λ e. e ≢ DownError.NoMemory → RefusesDown B.me (entries self.old) link e) }
        ensures unchanged { OnErr result ((entries self.new ≡ entries self.old) × (mine pass.new ≡ mine pass.old)) }
        ensures unasked { IfErr result (λ e. e ≢ DownError.NoMemory → open_links self.new ≡ open_links self.old) }
        ensures spent { (result ≡ Err DownError.NoMemory) ↔ (is_spent self.new ≡ true) }
        ensures stays { is_spent self.old ≡ true → is_spent self.new ≡ true }
        ensures judged { is_spent self.old ≡ false → (e : DownError) → down_refusal (replay B.me (entries self.old)).hub.node link (is_worn (entries self.old)) ≡ Some e → result ≡ Err e }
    {
        let Ok(worn) = self.look(history, pass) else {
            return Err(DownError::NoMemory);
        };
        if let Some(refused) = refuses_down(&self.hub, worn, link) {
            return Err(refused); // nor does a link that isn't up
        }
        let event = Event::Down { link };
        let sent = match self.handle(alloc, &event) {
            Ok(sent) => sent,
            Err(Failure::NoMemory) => {
                drop(event);
                return Err(DownError::NoMemory);
            }
            Err(Failure::Refused(_)) => {
                drop(event);
                return Err(DownError::Worn); // a number that the event needs
            }
        };
        let Some(end) = taken_out(&mut self.ends, link) else {
            unreachable!()
        };
        let arrival = Arrival {
            event,
            outbox: None,
            reason,
            is_former: false,
        };
        let Ok(()) = self.enter(alloc, history, pass, arrival, sent.as_slice()) else {
            drop(sent);
            drop(end);
            return Err(DownError::NoMemory);
        };
        drop(sent);
        self.due |= bit_of(link);
        let note = Queued {
            me: self.me,
            link,
            pass: history.split(pass),
        };
        Ok(end.end(reason, note))
    }

    /// What is left to be done since the last call.
    pub fn take_due(&mut self) -> Due
        ensures { (entries self.new ≡ entries self.old) × (is_spent self.new ≡ is_spent self.old) × (open_links self.new ≡ open_links self.old) }
    {
        let due = Due {
            links: self.due,
            rest: self.rest,
        };
        self.due = 0;
        self.rest = Rest::none();
        self.presses = false;
        due
    }

    /// What the router shows of itself. Nothing changes, nor where memory runs out: a call that only looks spends nothing.
    pub fn glance(
        &mut self,
        alloc: Global,
        history: &History<Entry>,
        pass: &mut Pass<Entry>,
    ) -> Result<Glance, AllocError>
        requires history { name history.now ≡ B.history }
        requires pass { pass_name pass.old ≡ B.history }
        ensures same { IsSamePass pass.old pass.new × (mine pass.new ≡ mine pass.old) }
        ensures prefix { IsPrefix (seen pass.old) (seen pass.new) }
        ensures seen { seen pass.new ≡ entries self.new }
        ensures legal { is_legal B.me (seen pass.new) ≡ true }
        ensures allowed { AreAllowed B.policy B.me (seen pass.new) }
        ensures unchanged { (entries self.new ≡ entries self.old) × (is_spent self.new ≡ is_spent self.old) × (open_links self.new ≡ open_links self.old) }
        ensures glance { IfOk result (λ g. g ≡ glance (replay B.me (seen pass.new)).hub.node) }
    {
        let Ok(_) = self.look(history, pass) else {
            return Err(AllocError);
        };
        glance_of(alloc, &self.hub)
    }

    /// Whether the router has heard, by all that has happened, that its identifier was in use before. Nothing changes.
    pub fn was_used_before(&mut self, history: &History<Entry>, pass: &mut Pass<Entry>) -> bool
        requires history { name history.now ≡ B.history }
        requires pass { pass_name pass.old ≡ B.history }
        ensures same { IsSamePass pass.old pass.new × (mine pass.new ≡ mine pass.old) }
        ensures prefix { IsPrefix (seen pass.old) (seen pass.new) }
        ensures seen { seen pass.new ≡ entries self.new }
        ensures legal { is_legal B.me (seen pass.new) ≡ true }
        ensures allowed { AreAllowed B.policy B.me (seen pass.new) }
        ensures unchanged { (entries self.new ≡ entries self.old) × (is_spent self.new ≡ is_spent self.old) × (open_links self.new ≡ open_links self.old) }
        ensures told { result ≡ was_used B.me (seen pass.new) }
    {
        let _ = self.look(history, pass); // what was heard before memory ran out was heard
        self.used_before
    }

    // The end of a link that has come up is the last one, and who reads from it has never rested.
    fn add_end(
        &mut self,
        alloc: Global,
        link: LinkNo,
        role: Role,
        outbox: Outbox,
    ) -> Result<Taker<Queued>, AllocError>
        requires { self.old.is_spent ≡ true }
        ensures same { (self.new.hub ≡ self.old.hub) × (list_of self.new.kept ≡ list_of self.old.kept) × (self.new.is_spent ≡ true) }
        ensures ends { IfOk result (λ taker. self.new.ends.items ≡ self.old.ends.items ++ new_end (new_queue link role outbox) (taker_ring taker) ∷ []) }
        ensures taker { IfOk result (λ taker. (taken taker ≡ []) × (take_calls taker ≡ 0) × (taker_name taker ≡ record { router = self.old.me; link = link; since = length (list_of self.old.kept) })) }
    {
        if let Some(rested) = self.rested.get_mut(link.0 as usize) {
            *rested = Rested::never(); // not what the number's last link has rested
        }
        let name = ring_name(self.me, link, &self.kept);
        let (end, taker) = LinkSender::new(alloc, name, role, outbox)?;
        match self.ends.push(end) {
            Ok(()) => Ok(taker),
            Err(_) => Err(AllocError),
        }
    }

    // Looks at the history: whether it has its last entry. Spent tables are out of memory.
    fn look(&mut self, history: &History<Entry>, pass: &mut Pass<Entry>) -> Result<bool, AllocError>
        requires history { name history.now ≡ B.history }
        requires pass { pass_name pass.old ≡ B.history }
        ensures pass { IsSamePass pass.old pass.new × (mine pass.new ≡ mine pass.old) × (seen pass.new ≡ list_of self.old.kept) }
        ensures prefix { IsPrefix (seen pass.old) (list_of self.old.kept) }
        ensures kept { list_of self.new.kept ≡ list_of self.old.kept }
        ensures same { (self.new.hub ≡ self.old.hub) × (self.new.ends ≡ self.old.ends) × (self.new.is_spent ≡ self.old.is_spent) }
        ensures worn { IfOk result (λ worn. worn ≡ is_worn (list_of self.old.kept)) }
        ensures room { IfOk result (λ worn. worn ≡ false → length (list_of self.old.kept) < most_entries) }
        ensures spent { is_err result ≡ self.old.is_spent }
    {
        let count = history.look_beside(&mut self.kept, pass);
        if self.is_spent {
            return Err(AllocError);
        }
        Ok(count == MOST_ENTRIES)
    }

    // Lets the router handle an event that may come. What it sends is the answer; until the event is entered the tables count as spent. Where the
    // event is refused nothing has changed.
    fn handle(&mut self, alloc: Global, event: &Event) -> Result<Vec<(LinkNo, Msg)>, Failure>
        requires { MayCome self.old.hub.node event.now }
        ensures kept { list_of self.new.kept ≡ list_of self.old.kept }
        ensures ends { self.new.ends ≡ self.old.ends }
        ensures handled { OnOk result ((self.new.hub ≡ hub_after self.old.hub event.now) × (hub_refuses self.old.hub event.now ≡ None)) }
        ensures sent { IfOk result (λ sent. (to : LinkNo) → on_link to sent.items ≡ hub_sends self.old.hub event.now to) }
        ensures spent { OnOk result (self.new.is_spent ≡ true) }
        ensures failed { IfErr result (λ f. HasFailed (hub_refuses self.old.hub event.now) self.old.is_spent self.new.is_spent f) }
        ensures late { IfErr result (λ f. f ≡ Failure.NoMemory → self.old.hub.node.spent ≡ false → is_early (hub_refuses self.old.hub event.now) ≡ false) }
    {
        let mut sent = Vec::new(alloc);
        match self.hub.handle(alloc, event, &mut sent) {
            Ok(()) => {
                self.is_spent = true;
                Ok(sent)
            }
            Err(error) => match Failure::of(error) {
                Failure::NoMemory => {
                    self.is_spent = true;
                    Err(Failure::NoMemory)
                }
                Failure::Refused(refused) => Err(Failure::Refused(refused)),
            },
        }
    }

    // Enters an event that the router has handled: its entry is appended, and the links' rings are given what it queues.
    fn enter(
        &mut self,
        alloc: Global,
        history: &History<Entry>,
        pass: &mut Pass<Entry>,
        arrival: Arrival,
        sent: &[(LinkNo, Msg)],
    ) -> Result<(), AllocError>
        requires history { name history.now ≡ B.history }
        requires pass { pass_name pass.old ≡ B.history }
        requires spent { self.old.is_spent ≡ true }
        requires allowed { is_allowed B.policy (replay B.me (list_of self.old.kept)).hub.node arrival.event ≡ true }
        requires spelled { ComesSpelled arrival.event }
        requires former { arrival.is_former ≡ brings_former (replay B.me (list_of self.old.kept)).hub.node arrival.event }
        requires handled { IsHandled B.me (list_of self.old.kept) self.old.hub self.old.ends.items arrival.event arrival.outbox arrival.reason sent.now }
        ensures same { IsSamePass pass.old pass.new }
        ensures added { OnOk result ((e : Entry) × IsEntryOf arrival.event arrival.outbox arrival.reason e × (list_of self.new.kept ≡ list_of self.old.kept ++ e ∷ []) × (mine pass.new ≡ mine pass.old ++ e ∷ []) × (seen pass.new ≡ list_of self.new.kept) × GoesByRings B.me (list_of self.old.kept) e self.old.ends.items self.new.ends.items) }
        ensures unchanged { OnErr result ((list_of self.new.kept ≡ list_of self.old.kept) × (mine pass.new ≡ mine pass.old) × (seen pass.new ≡ seen pass.old)) }
        ensures spent { self.new.is_spent ≡ is_err result }
    {
        let ends = self.ends.as_mut_slice();
        let Arrival {
            event,
            outbox,
            reason,
            is_former,
        } = arrival;
        let entry = prepare(alloc, ends, sent, event, outbox, reason)?;
        let rest = rest_for(ends);
        let presses = ends.iter().any(|end| end.is_half_full());
        let pressed = pressed_by(ends, sent, kept_at(&entry.event, self.pressed));
        enter(history, &mut self.kept, pass, self.me, ends, &entry);
        self.askers.follow(&entry.event, sent);
        drop(entry);
        self.used_before = self.used_before || is_former;
        self.is_spent = false;
        self.due |= due_of(sent);
        self.rest = rest;
        self.presses = presses;
        self.pressed = pressed;
        Ok(())
    }
}

fn glance_of(alloc: Global, hub: &Hub) -> Result<Glance, AllocError>
    ensures { IfOk result (λ g. g ≡ glance hub.now.node) }
{
    glance_at(alloc, hub.links(), hub.base(), hub.known())
}
