//! `Node`: a router's state, and what it does with each event.

ghost use Rattle.std.specs.Prelude.{◌≡◌, ℕ, ◌<◌, ◌^◌, ◌+◌, ◌↔◌, true, false, Some, None, List, OnOk, OnErr, IfOk, IfSome, IfNone, [], length, if◌then◌else◌};
ghost use Rattle.std.specs.Option.{option_map};
ghost use Rattle.zr_graph.specs.Base.{BaseState, is_newer, after_record};
ghost use Rattle.zr_local.specs.Clients.{AreByLink};
ghost use Rattle.zr_local.specs.Rows.{AreInOrder, gone, came};
ghost use Rattle.zr_log.specs.Known.{position, is_next};
ghost use Rattle.zr_log.specs.Known.{is_newer as is_newer_log};
ghost use Rattle.zr_log.specs.Log.{Change};
ghost use Rattle.zr_msg.specs.declared.decl.Decl.{Decl};
ghost use Rattle.zr_node_spec.specs.Changes.{changes_of, after_changes, sends_changes};
ghost use Rattle.zr_node_spec.specs.Snapshots.{sends_step, sends_snap, sends_snapshots};
ghost use Rattle.zr_node_spec.specs.Tables.{TableState, HaveSameTrees, AreNumbered, link_at, link_to, leads_to_client, leads_to_router, free_link};
ghost use Rattle.zr_node_spec.specs.Early.{is_early};
ghost use Rattle.zr_node_spec.specs.Event.{AreLinks, MayCome, Sends, SendsPrefix, Tells, TellsPrefix};
ghost use Rattle.zr_node_spec.specs.State.{new_node, tables, local_state};
ghost use Rattle.zr_node_spec.specs.Table.{row, key_of, after, refuses, with_base, with_known};
ghost use Rattle.zr_tree.specs.Same.{HaveSameEdges};
ghost use Rattle.zr_node.specs.Answer.{IsAnswered, IsJudged, refusal_of};
ghost use Rattle.zr_node.specs.Asked.{rows_after, local_after, refuses_asked, refuses_change};
ghost use Rattle.zr_node.specs.Done.{IsDone};
ghost use Rattle.zr_node.specs.Steps.{with_local, pending_of, event_part, asked_part, declare_part, undeclare_part, step_part, snap_part, told_part};

mod interests;
mod lent;
mod messages;
mod neighbours;
mod refusals;
mod traffic;

use crate::asked::{self, Asked, apply, has_room};
use crate::failure::{NodeFailure, lacking};
use crate::holding;
use crate::kept::{Before, forget, put_family, put_trees, take_family};
use crate::links::Links;
use std::alloc::{AllocError, Global};
use std::marker::Model;
use zr_flood::children::{fresh_children, pass_on, tell_changes};
use zr_flood::flood::{flood_newer, is_router};
use zr_graph::base::{Accepted, Base};
use zr_id::link::LinkNo;
use zr_id::record::LinkRecord;
use zr_id::zid::Zid;
use zr_key::key::KeyExpr;
use zr_local::changes::Changes;
use zr_local::interest::ClientInterests;
use zr_local::local::Local;
use zr_local::row::Row;
use zr_log::known::{Known, Taken};
use zr_msg::decl::{Decl, Decls, Kind};
use zr_msg::error::NodeError;
use zr_msg::event::Event;
use zr_msg::msg::Msg;
use zr_msg::peer::{LinkPeer, Peer};
use zr_msg::shared::Shared;
use zr_pend::pending::Pending;
use zr_push::routes::Routes;
use zr_push_sought::holders::Holders;
use zr_tree::family::Family;
use zr_tree::trees::Trees;

/// A log with at most so many changes has room for those of one event: lists are shorter than the rest.
const SURE_OF_ROOM: u64 = 0x4000_0000_0000_0000;

/// A router: its links, what it knows of the links of all routers, what its clients have declared and their live interests, what it knows of
/// all logs, the requests that it has passed on and that have not ended, and the replies that it holds for them.
pub struct Node {
    links: Links,
    base: Base,
    local: Local,
    known: Known,
    pending: Pending,
    // its children in all trees, and these trees, each if they were worked out since the edges last changed; no contract sees them
    family: Option<Family>,
    trees: Option<Trees>,
    // who has declared what, by what its clients and the logs of others have now; no contract sees them
    holders: Holders,
    // where earlier samples and requests went by what the node is now; no contract sees them
    routes: Routes,
    spent: bool,
}

// Written out, so that it is proved here, and not by each crate that lets one go.
impl Drop for Node {
    fn drop(self) {
        let Self {
            links: _links,
            base: _base,
            local: _local,
            known: _known,
            pending: _pending,
            family: _family,
            trees: _trees,
            holders: _holders,
            routes: _routes,
            spent: _spent,
        } = self;
    }
}

impl Model for Node {
    ghost use Rattle.zr_node_spec.specs.State.{NodeState};
    ghost use Rattle.zr_node.specs.Whole.{IsWhole};

    ghost Value = { NodeState };

    ghost view = { λ n. record { links = n.links; base = n.base; rows = n.local.rows; clients = n.local.clients; known = n.known; pending = n.pending.rows; held = n.pending.held; spent = n.spent } };

    ghost invariant = { λ n. IsWhole (record { links = n.links; base = n.base; rows = n.local.rows; clients = n.local.clients; known = n.known }) n.family n.trees n.holders n.routes };
}

impl Node {
    /// A router without links.
    pub fn new(alloc: Global, me: Zid) -> Result<Node, AllocError>
        ensures { IfOk result (λ node. node ≡ new_node me) }
    {
        let base = Base::new(alloc, me)?;
        Ok(Node {
            links: Links::new(alloc),
            base,
            local: Local::new(alloc),
            known: Known::new(alloc, me),
            pending: Pending::new(alloc),
            family: None,
            trees: None,
            holders: Holders::new(),
            routes: Routes::new(alloc),
            spent: false,
        })
    }

    /// The same router once more: each event does there what it does here.
    pub fn copy(&self, alloc: Global) -> Result<Node, AllocError>
        ensures { IfOk result (λ n. n ≡ self.now) }
    {
        let links = self.links.copy(alloc)?;
        let pending = self.pending.copy(alloc)?;
        self.copy_with(alloc, links, pending)
    }

    fn copy_with(&self, alloc: Global, links: Links, pending: Pending) -> Result<Node, AllocError>
        requires links { links ≡ self.now.links }
        requires pending { pending ≡ pending_of self.now }
        ensures { IfOk result (λ n. n ≡ self.now) }
    {
        let base = self.base.copy(alloc)?;
        let known = self.known.copy(alloc)?;
        self.copy_of(alloc, links, pending, base, known)
    }

    // The rest is copied.
    fn copy_of(
        &self,
        alloc: Global,
        links: Links,
        pending: Pending,
        base: Base,
        known: Known,
    ) -> Result<Node, AllocError>
        requires links { links ≡ self.now.links }
        requires pending { pending ≡ pending_of self.now }
        requires base { base ≡ self.now.base }
        requires known { known ≡ self.now.known }
        ensures { IfOk result (λ n. n ≡ self.now) }
    {
        let local = self.local.copy(alloc)?;
        Ok(Node {
            links,
            base,
            local,
            known,
            pending,
            family: None,
            trees: None,
            holders: Holders::new(),
            routes: Routes::new(alloc),
            spent: self.spent,
        })
    }

    /// The router is needed no more. The crates above drop none themselves, so that they know nothing of its parts.
    pub fn discard(self) {}

    /// The router itself.
    pub fn me(&self) -> Zid
        ensures { result ≡ self.now.base.me }
    {
        self.base.me()
    }

    /// The links that are up, in ascending order of their numbers.
    pub fn links(&self) -> &[LinkPeer]
        ensures value { result.now ≡ self.now.links }
        ensures are_links { AreLinks self.now.base.me self.now.links }
        ensures few { length self.now.links < 2 ^ 32 }
    {
        self.links.as_slice()
    }

    /// The newest record of each router that this one knows of, its own among them.
    pub fn base(&self) -> &Base
        ensures { result.now ≡ self.now.base }
    {
        &self.base
    }

    /// What the clients of its links have declared, by link, subscribers first, then by id.
    pub fn rows(&self) -> &[Row]
        ensures value { result.now ≡ self.now.rows }
        ensures in_order { AreInOrder self.now.rows }
    {
        self.local.rows()
    }

    /// The live interests of the clients of its links, by link, and of one client by id. A client whose interests have all ended may
    /// stand there with none.
    pub fn clients(&self) -> &[ClientInterests]
        ensures value { result.now ≡ self.now.clients }
        ensures in_order { AreByLink self.now.clients }
    {
        self.local.clients()
    }

    /// What it knows of the change logs of all routers, its own among them.
    pub fn known(&self) -> &Known
        ensures { result.now ≡ self.now.known }
    {
        &self.known
    }

    /// The trees of the base's routers, worked out anew.
    pub fn trees(&self, alloc: Global) -> Result<Trees, AllocError>
        ensures { IfOk result (λ t. t ≡ self.now.base.records) }
    {
        Trees::of(alloc, &self.base)
    }

    /// The number of the link to a neighbour, if it is up.
    #[tactic(auto, using(crate::proofs::Named::hinted_is))]
    pub fn link_to(&self, neighbour: &Zid) -> Option<LinkNo>
        ensures { result ≡ option_map (λ l. l.link) (link_to self.now.links neighbour.now) }
    {
        match self.links.hinted(neighbour) {
            Some(number) => Some(number),
            None => self.links.link_to(neighbour),
        }
    }

    /// Who stands at the other end of the link of this number, if it is up.
    pub fn peer_at(&self, link: LinkNo) -> Option<Peer>
        ensures { result ≡ option_map (λ l. l.peer) (link_at self.now.links link.0) }
    {
        Some(self.links.at(link)?.peer)
    }

    /// The least number that no link has.
    pub fn free_link(&self) -> LinkNo
        ensures { result.0 ≡ free_link self.now.links }
    {
        self.links.free()
    }

    /// Handles an event, and appends what it sends, each message with its link.
    ///
    /// What the table refuses leaves everything as it was, and so does `Spent`, which comes where memory ran out at an earlier event.
    /// Where memory runs out, a prefix of what is to be sent is appended for each link, and the node is spent from now on: nothing is
    /// said of its links, records, declarations and logs any more. A refusal that is found without memory is the answer even so.
    pub fn handle(
        &mut self,
        alloc: Global,
        event: &Event,
        out: &mut Vec<(LinkNo, Msg)>,
    ) -> Result<(), NodeError>
        requires { MayCome self.old event.now }
        ensures state { OnOk result (self.new ≡ after self.old event.now) }
        ensures sends { OnOk result (Sends self.old event.now out.old.items out.new.items) }
        ensures refused { IsAnswered (refusal_of self.old event.now) result }
        ensures spent { (result ≡ Err NodeError.Spent) ↔ (self.old.spent ≡ true) }
        ensures judged { result ≡ Err NodeError.NoMemory → is_early (refusal_of self.old event.now) ≡ false }
        ensures unchanged { (e : NodeError) → refusal_of self.old event.now ≡ Some e → result ≡ Err e → (self.new ≡ self.old) × (out.new.items ≡ out.old.items) }
        ensures memory { result ≡ Err NodeError.NoMemory → self.new.spent ≡ true }
        ensures prefix { result ≡ Err NodeError.NoMemory → SendsPrefix self.old event.now out.old.items out.new.items }
    {
        if self.spent {
            return Err(NodeError::Spent);
        }
        match self.on_event(alloc, event, out) {
            Ok(()) => Ok(()),
            Err(NodeFailure::Refused(error)) => Err(error),
            Err(NodeFailure::NoMemory) => {
                self.spent = true;
                Err(NodeError::NoMemory)
            }
        }
    }

    fn on_event(
        &mut self,
        alloc: Global,
        event: &Event,
        out: &mut Vec<(LinkNo, Msg)>,
    ) -> Result<(), NodeFailure>
        requires { MayCome self.old event.now }
        ensures { IsDone (event_part self.old event.now) result self.new out.old.items out.new.items }
    {
        match event {
            Event::Up { link, peer } => self.up(alloc, *link, peer, out),
            Event::Down { link } => self.down(alloc, *link, out),
            Event::From { link, msg } => self.on_message(alloc, *link, msg, out),
        }
    }

    // The client of a link declares something; a router declares nothing in this way.
    fn declare(
        &mut self,
        alloc: Global,
        link: LinkNo,
        id: u32,
        kind: Kind,
        key: &KeyExpr,
        out: &mut Vec<(LinkNo, Msg)>,
    ) -> Result<(), NodeFailure>
        ensures { IsDone (declare_part self.old link.0 (row link.0 id kind key.now)) result self.new out.old.items out.new.items }
    {
        if !self.leads_to_client(link) {
            return Ok(());
        }
        match key.copy(alloc) {
            Ok(key) => {
                let decl = Decl { kind, key };
                self.change_rows(alloc, Asked::Declare { link, id, decl }, out)
            }
            Err(AllocError) => Err(lacking(self.refuses_declared(link, id, kind, key))),
        }
    }

    // The client of a link takes back what it has declared.
    fn undeclare(
        &mut self,
        alloc: Global,
        link: LinkNo,
        id: u32,
        kind: Kind,
        out: &mut Vec<(LinkNo, Msg)>,
    ) -> Result<(), NodeFailure>
        ensures { IsDone (undeclare_part self.old link.0 (key_of link.0 id kind)) result self.new out.old.items out.new.items }
    {
        if !self.leads_to_client(link) {
            return Ok(());
        }
        self.change_rows(alloc, Asked::Undeclare { link, id, kind }, out)
    }

    // What a client asks is done: what became of the set of all declarations goes to the children in the own tree, and stands in the
    // own log.
    fn change_rows(
        &mut self,
        alloc: Global,
        asked: Asked,
        out: &mut Vec<(LinkNo, Msg)>,
    ) -> Result<(), NodeFailure>
        ensures { IsDone (asked_part self.old asked) result self.new out.old.items out.new.items }
    {
        let number = self.known.position(self.base.me());
        if number > SURE_OF_ROOM {
            self.judge(alloc, &asked)?;
        }
        let changes = self.apply(asked)?;
        if !has_room(number, &changes) {
            return Err(NodeFailure::NoMemory); // never: either there was room, or it was judged
        }
        Ok(self.tell(alloc, number, &changes, out)?)
    }

    // Whether what a client asks is refused, found out on a copy where it isn't found without memory.
    fn judge(&self, alloc: Global, asked: &Asked) -> Result<(), NodeFailure>
        ensures { IsJudged (refuses_change self.now asked.now) result }
    {
        if let Some(error) = asked::refusal(&self.local, asked) {
            return Err(NodeFailure::Refused(error));
        }
        let asked = asked.copy(alloc)?;
        let mut local = self.local.copy(alloc)?;
        self.judge_on(&mut local, asked)
    }

    // The same on a copy of what its clients have declared, which changes by it.
    fn judge_on(&self, local: &mut Local, asked: Asked) -> Result<(), NodeFailure>
        requires { local.old ≡ local_state self.now }
        ensures { IsJudged (refuses_change self.now asked) result }
    {
        let changes = apply(local, asked)?;
        if !has_room(self.known.position(self.base.me()), &changes) {
            return Err(NodeFailure::Refused(NodeError::Worn));
        }
        Ok(())
    }

    // The rows change, and nothing stands in the log of it yet.
    fn apply(&mut self, asked: Asked) -> Result<Changes, NodeFailure>
        ensures gone { IfOk result (λ c. c.gone.items ≡ gone self.old.rows (rows_after self.old.rows asked)) }
        ensures came { IfOk result (λ c. c.came.items ≡ came self.old.rows (rows_after self.old.rows asked)) }
        ensures state { OnOk result (self.new ≡ with_local self.old (local_after (local_state self.old) asked)) }
        ensures refused { IsJudged (refuses_asked (local_state self.old) asked) result }
        ensures unchanged { OnErr result (self.new ≡ self.old) }
    {
        self.routes.forget(); // the client may stand on any of them
        holding::apply(&mut self.local, &mut self.holders, asked)
    }

    // What has changed goes to the children in the own tree, and stands in the own log.
    fn tell(
        &mut self,
        alloc: Global,
        number: u64,
        changes: &Changes,
        out: &mut Vec<(LinkNo, Msg)>,
    ) -> Result<(), AllocError>
        requires number { number ≡ position self.old.known self.old.base.me }
        requires room { number + (length changes.now.gone.items + length changes.now.came.items) < 2 ^ 64 }
        ensures state { OnOk result (self.new ≡ with_known self.old (after_changes self.old.known (changes_of changes.now.gone.items changes.now.came.items))) }
        ensures sends { OnOk result (Tells (sends_changes (tables self.old) (changes_of changes.now.gone.items changes.now.came.items)) out.old.items out.new.items) }
        ensures prefix { OnErr result (TellsPrefix (sends_changes (tables self.old) (changes_of changes.now.gone.items changes.now.came.items)) out.old.items out.new.items) }
    {
        self.tell_children(alloc, number, changes, out)?;
        self.log(changes)
    }

    fn tell_children(
        &mut self,
        alloc: Global,
        number: u64,
        changes: &Changes,
        out: &mut Vec<(LinkNo, Msg)>,
    ) -> Result<(), AllocError>
        requires number { number ≡ position self.old.known self.old.base.me }
        requires room { number + (length changes.now.gone.items + length changes.now.came.items) < 2 ^ 64 }
        ensures same { self.new ≡ self.old }
        ensures sends { OnOk result (Tells (sends_changes (tables self.old) (changes_of changes.now.gone.items changes.now.came.items)) out.old.items out.new.items) }
        ensures prefix { OnErr result (TellsPrefix (sends_changes (tables self.old) (changes_of changes.now.gone.items changes.now.came.items)) out.old.items out.new.items) }
    {
        let family = take_family(alloc, &mut self.family, &self.base)?;
        let links = self.links.as_slice();
        let told = tell_changes(alloc, links, &family, number, changes, out);
        put_family(&mut self.family, family);
        told
    }

    fn log(&mut self, changes: &Changes) -> Result<(), AllocError>
        ensures { OnOk result (self.new ≡ with_known self.old (after_changes self.old.known (changes_of changes.now.gone.items changes.now.came.items))) }
    {
        self.routes.forget(); // they are of the logs so far
        holding::log(&mut self.known, &mut self.holders, changes)
    }

    // A record has come over a link: a newer one of a router is kept, and goes on.
    fn accept(
        &mut self,
        alloc: Global,
        link: LinkNo,
        told: &Shared<LinkRecord>,
        out: &mut Vec<(LinkNo, Msg)>,
    ) -> Result<(), NodeFailure>
        ensures { IsDone (told_part self.old link.0 told.now) result self.new out.old.items out.new.items }
    {
        if !self.leads_to_router(link) {
            return Ok(());
        }
        let before = self.take_before(alloc)?;
        match self.keep(told.get())? {
            Accepted::Old => {
                self.put_back(before);
                Ok(())
            }
            Accepted::Newer => {
                flood_newer(told, self.links.as_slice(), link, out)?;
                Ok(self.tell_new_children(alloc, before, out)?)
            }
        }
    }

    // A record is kept where it is newer.
    fn keep(&mut self, told: &LinkRecord) -> Result<Accepted, AllocError>
        ensures answer { IfOk result (λ a. a ≡ (if is_newer self.old.base told.now then Accepted.Newer else Accepted.Old)) }
        ensures state { OnOk result (self.new ≡ with_base self.old (after_record self.old.base told.now)) }
        ensures unchanged { OnErr result (self.new ≡ self.old) }
    {
        match self.base.accept(told)? {
            Accepted::Old => Ok(Accepted::Old),
            Accepted::Newer => {
                forget(&mut self.family, &mut self.trees, &mut self.routes);
                Ok(Accepted::Newer)
            }
        }
    }

    // A change of another router's log has come over a link from a router: one that is the next is taken over, and goes on.
    fn step(
        &mut self,
        alloc: Global,
        link: LinkNo,
        msg: &Msg,
        source: Zid,
        number: u64,
        added: bool,
        decl: &Decl,
        out: &mut Vec<(LinkNo, Msg)>,
    ) -> Result<(), NodeFailure>
        requires { msg.now ≡ Msg.Step source number added decl.now }
        ensures { IsDone (step_part self.old link.0 source number (record { added = added; decl = decl.now })) result self.new out.old.items out.new.items }
    {
        if !self.leads_to_router(link) {
            return Ok(());
        }
        self.routes.forget(); // they are of the logs so far
        let me = self.base.me();
        match holding::step(
            me,
            &mut self.known,
            &mut self.holders,
            source,
            number,
            added,
            decl,
        )? {
            Taken::Old => Ok(()),
            Taken::New => Ok(self.pass_on(alloc, source, msg, out)?),
        }
    }

    // A snapshot of another router's log has come over a link from a router: one that is newer is taken over, and goes on.
    fn snap(
        &mut self,
        alloc: Global,
        link: LinkNo,
        msg: &Msg,
        source: Zid,
        number: u64,
        decls: &Decls,
        out: &mut Vec<(LinkNo, Msg)>,
    ) -> Result<(), NodeFailure>
        requires { msg.now ≡ Msg.Snap source number decls.now }
        ensures { IsDone (snap_part self.old link.0 source number decls.now) result self.new out.old.items out.new.items }
    {
        if !self.leads_to_router(link) {
            return Ok(());
        }
        self.routes.forget(); // they are of the logs so far
        let me = self.base.me();
        match holding::snap(
            me,
            &mut self.known,
            &mut self.holders,
            source,
            number,
            decls.as_slice(),
        )? {
            Taken::Old => Ok(()),
            Taken::New => Ok(self.pass_on(alloc, source, msg, out)?),
        }
    }

    // What another router's log tells goes to the children in that router's tree.
    fn pass_on(
        &mut self,
        alloc: Global,
        source: Zid,
        msg: &Msg,
        out: &mut Vec<(LinkNo, Msg)>,
    ) -> Result<(), AllocError>
        ensures same { self.new ≡ self.old }
        ensures step { (t : TableState) (from number : ℕ) (c : Change) → HaveSameTrees t (tables self.old) → AreNumbered t.links → leads_to_router t.links from ≡ true → is_next t.known source number ≡ true → msg.now ≡ Msg.Step source number c.added c.decl → OnOk result (Tells (sends_step t from source number c) out.old.items out.new.items) }
        ensures step_prefix { (t : TableState) (from number : ℕ) (c : Change) → HaveSameTrees t (tables self.old) → AreNumbered t.links → leads_to_router t.links from ≡ true → is_next t.known source number ≡ true → msg.now ≡ Msg.Step source number c.added c.decl → OnErr result (TellsPrefix (sends_step t from source number c) out.old.items out.new.items) }
        ensures snap { (t : TableState) (from number : ℕ) (decls : List Decl) → HaveSameTrees t (tables self.old) → AreNumbered t.links → leads_to_router t.links from ≡ true → is_newer_log t.known source number ≡ true → msg.now ≡ Msg.Snap source number decls → OnOk result (Tells (sends_snap t from source number decls) out.old.items out.new.items) }
        ensures snap_prefix { (t : TableState) (from number : ℕ) (decls : List Decl) → HaveSameTrees t (tables self.old) → AreNumbered t.links → leads_to_router t.links from ≡ true → is_newer_log t.known source number ≡ true → msg.now ≡ Msg.Snap source number decls → OnErr result (TellsPrefix (sends_snap t from source number decls) out.old.items out.new.items) }
    {
        let family = take_family(alloc, &mut self.family, &self.base)?;
        let told = pass_on(alloc, self.links.as_slice(), &family, source, msg, out);
        put_family(&mut self.family, family);
        told
    }

    // What was worked out of the records before an event that may change them, taken out.
    fn take_before(&mut self, alloc: Global) -> Result<Before, AllocError>
        ensures same { self.new ≡ self.old }
        ensures children { IfOk result (λ b. IfSome b.family (λ f. f ≡ self.old.base)) }
        ensures none { IfOk result (λ b. IfNone b.family (self.old.known.logs ≡ [])) }
        ensures trees { IfOk result (λ b. IfSome b.trees (λ t. t ≡ self.old.base.records)) }
    {
        let family = self.family_before(alloc)?;
        let trees = self.trees.take();
        Ok(Before { family, trees })
    }

    // The children before the event. Where no log is known a new child is told nothing, so they aren't worked out for it.
    fn family_before(&mut self, alloc: Global) -> Result<Option<Family>, AllocError>
        ensures same { self.new ≡ self.old }
        ensures children { IfOk result (λ o. IfSome o (λ f. f ≡ self.old.base)) }
        ensures none { IfOk result (λ o. IfNone o (self.old.known.logs ≡ [])) }
    {
        match self.family.take() {
            Some(family) => Ok(Some(family)),
            None => {
                if self.known.logs().is_empty() {
                    return Ok(None);
                }
                Ok(Some(Family::of(alloc, &self.base)?))
            }
        }
    }

    // The records have stayed.
    fn put_back(&mut self, before: Before)
        requires family { IfSome before.family (λ f. f ≡ self.old.base) }
        requires trees { IfSome before.trees (λ t. t ≡ self.old.base.records) }
        ensures { self.new ≡ self.old }
    {
        self.family = before.family;
        self.trees = before.trees;
    }

    // Each neighbour that has become a child in a router's tree is sent what is known of that router's log. `before` is what was worked
    // out before that: the children, if any log is known.
    fn tell_new_children(
        &mut self,
        alloc: Global,
        before: Before,
        out: &mut Vec<(LinkNo, Msg)>,
    ) -> Result<(), AllocError>
        ensures same { self.new ≡ self.old }
        ensures sends { (base : BaseState) → base.me ≡ self.old.base.me → IfSome before.family (λ f. f ≡ base) → IfNone before.family (self.old.known.logs ≡ []) → OnOk result (Tells (sends_snapshots (tables self.old) base.records) out.old.items out.new.items) }
        ensures prefix { (base : BaseState) → base.me ≡ self.old.base.me → IfSome before.family (λ f. f ≡ base) → IfNone before.family (self.old.known.logs ≡ []) → OnErr result (TellsPrefix (sends_snapshots (tables self.old) base.records) out.old.items out.new.items) }
    {
        let Before { family, trees } = before;
        let told = self.tell_fresh_children(alloc, family, out);
        self.keep_trees(alloc, trees);
        told
    }

    // `before` are the children before.
    #[tactic(auto, using(crate::proofs::Quiet::quiet_ok, crate::proofs::Quiet::quiet_err))]
    fn tell_fresh_children(
        &mut self,
        alloc: Global,
        before: Option<Family>,
        out: &mut Vec<(LinkNo, Msg)>,
    ) -> Result<(), AllocError>
        ensures same { self.new ≡ self.old }
        ensures sends { (base : BaseState) → base.me ≡ self.old.base.me → IfSome before (λ f. f ≡ base) → IfNone before (self.old.known.logs ≡ []) → OnOk result (Tells (sends_snapshots (tables self.old) base.records) out.old.items out.new.items) }
        ensures prefix { (base : BaseState) → base.me ≡ self.old.base.me → IfSome before (λ f. f ≡ base) → IfNone before (self.old.known.logs ≡ []) → OnErr result (TellsPrefix (sends_snapshots (tables self.old) base.records) out.old.items out.new.items) }
    {
        let Some(before) = before else {
            return Ok(());
        };
        if before.have_edges_of(&self.base) {
            return self.keep_family(alloc, before); // no child is new
        }
        self.tell_fresh_of(alloc, before, out)
    }

    // The edges have changed.
    fn tell_fresh_of(
        &mut self,
        alloc: Global,
        before: Family,
        out: &mut Vec<(LinkNo, Msg)>,
    ) -> Result<(), AllocError>
        ensures same { self.new ≡ self.old }
        ensures sends { (base : BaseState) → base.me ≡ self.old.base.me → before ≡ base → OnOk result (Tells (sends_snapshots (tables self.old) base.records) out.old.items out.new.items) }
        ensures prefix { (base : BaseState) → base.me ≡ self.old.base.me → before ≡ base → OnErr result (TellsPrefix (sends_snapshots (tables self.old) base.records) out.old.items out.new.items) }
    {
        let family = take_family(alloc, &mut self.family, &self.base)?;
        let links = self.links.as_slice();
        let told = fresh_children(alloc, links, &family, &before, self.known.logs(), out);
        put_family(&mut self.family, family);
        told
    }

    // The children by records with the same edges stay, and take over the records.
    fn keep_family(&mut self, alloc: Global, mut before: Family) -> Result<(), AllocError>
        requires me { before.me ≡ self.old.base.me }
        requires edges { HaveSameEdges before.records self.old.base.records }
        ensures { self.new ≡ self.old }
    {
        before.follow(alloc, &self.base)?;
        put_family(&mut self.family, before);
        Ok(())
    }

    // And so do the trees. Where there is no memory for it they are worked out anew when they are asked for.
    fn keep_trees(&mut self, alloc: Global, before: Option<Trees>)
        ensures { self.new ≡ self.old }
    {
        if let Some(trees) = before {
            self.follow_trees(alloc, trees);
        }
    }

    fn follow_trees(&mut self, alloc: Global, mut before: Trees)
        ensures { self.new ≡ self.old }
    {
        if !before.have_edges_of(&self.base) {
            return;
        }
        match before.follow(alloc, &self.base) {
            Ok(()) => {
                put_trees(&mut self.trees, before);
            }
            Err(_) => {}
        }
    }

    fn leads_to_client(&self, link: LinkNo) -> bool
        ensures { result ≡ leads_to_client self.now.links link.0 }
    {
        match self.links.at(link) {
            Some(link) => !is_router(link.peer.role),
            None => false,
        }
    }

    fn leads_to_router(&self, link: LinkNo) -> bool
        ensures { result ≡ leads_to_router self.now.links link.0 }
    {
        match self.links.at(link) {
            Some(link) => is_router(link.peer.role),
            None => false,
        }
    }
}
