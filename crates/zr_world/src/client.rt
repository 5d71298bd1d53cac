//! One client: its router, the ids under which it has something declared, those of its interests, its open queries, and the requests that it
//! has not ended.

ghost use Rattle.std.specs.Prelude.{◌≡◌, ◌==◌, ◌∷◌, ◌++◌, [], not, nat_le, filter, length, OnOk};
ghost use Rattle.zr_world_spec.specs.World.{new_client, most_queries};
ghost use Rattle.zr_world_spec.specs.Acts.{ids_of, has_id, has_number, declaring, undeclaring, wanting, unwanting, asking, ending, receiving};

use std::alloc::{AllocError, Global};
use std::marker::Model;
use zr_id::zid::Zid;
use zr_msg::decl::Kind;
use zr_msg::msg::Msg;
use zr_world_numbers::numbers::ClientNumbers;

/// How many queries of a client are open at most.
const MOST_QUERIES: usize = 4096;

/// A client of the world.
#[derive(Debug, Drop)]
pub struct Client {
    router: Zid,
    subs: Vec<u32>,
    ables: Vec<u32>,
    tokens: Vec<u32>,
    interests: Vec<u32>,
    queries: ClientNumbers,
    requests: ClientNumbers,
}

impl Model for Client {
    ghost use Rattle.zr_world_spec.specs.World.{ClientState};

    ghost Value = { ClientState };

    ghost view = { λ c. record { router = c.router; subs = c.subs.items; ables = c.ables.items; tokens = c.tokens.items; interests = c.interests.items; queries = c.queries; requests = c.requests } };
}

impl Client {
    /// A client that has declared nothing and has asked nothing.
    pub fn new(alloc: Global, router: Zid) -> Client
        ensures { result ≡ new_client router }
    {
        Client {
            router,
            subs: Vec::new(alloc),
            ables: Vec::new(alloc),
            tokens: Vec::new(alloc),
            interests: Vec::new(alloc),
            queries: ClientNumbers::new(alloc),
            requests: ClientNumbers::new(alloc),
        }
    }

    /// The name of its router.
    pub fn router(&self) -> Zid
        ensures { result ≡ self.now.router }
    {
        self.router
    }

    /// Whether it has declared something of this sort under the id. Queryables are of one sort, complete or not.
    pub fn has(&self, kind: Kind, id: u32) -> bool
        ensures { result ≡ has_id self.now kind id }
    {
        is_among(self.ids(kind), id)
    }

    fn ids(&self, kind: Kind) -> &[u32]
        ensures { result.now ≡ ids_of self.now kind }
    {
        match kind {
            Kind::Sub => self.subs.as_slice(),
            Kind::Able | Kind::Full => self.ables.as_slice(),
            Kind::Token => self.tokens.as_slice(),
        }
    }

    /// It has declared something of this sort under the id.
    pub fn declare(&mut self, kind: Kind, id: u32) -> Result<(), AllocError>
        ensures { OnOk result (self.new ≡ declaring self.old kind id) }
    {
        match kind {
            Kind::Sub => keep(&mut self.subs, id),
            Kind::Able | Kind::Full => keep(&mut self.ables, id),
            Kind::Token => keep(&mut self.tokens, id),
        }
    }

    /// It has taken back what it declared of this sort under the id.
    pub fn undeclare(&mut self, kind: Kind, id: u32)
        ensures { self.new ≡ undeclaring self.old kind id }
    {
        match kind {
            Kind::Sub => forget(&mut self.subs, id),
            Kind::Able | Kind::Full => forget(&mut self.ables, id),
            Kind::Token => forget(&mut self.tokens, id),
        }
    }

    /// Whether one of its interests that go on has the id.
    pub fn has_interest(&self, id: u32) -> bool
        ensures { result ≡ has_number self.now.interests id }
    {
        is_among(self.interests.as_slice(), id)
    }

    /// It has an interest of the id, which goes on.
    pub fn want(&mut self, id: u32) -> Result<(), AllocError>
        ensures { OnOk result (self.new ≡ wanting self.old id) }
    {
        keep(&mut self.interests, id)
    }

    /// It has ended its interest of the id.
    pub fn unwant(&mut self, id: u32)
        ensures { self.new ≡ unwanting self.old id }
    {
        forget(&mut self.interests, id);
    }

    /// Whether a query of its own is open under the number.
    pub fn has_open(&self, number: u32) -> bool
        ensures { result ≡ has_number self.now.queries number }
    {
        self.queries.has(number)
    }

    /// Whether as many of its queries are open as may be.
    pub fn is_full(&self) -> bool
        ensures { result ≡ nat_le most_queries (length self.now.queries) }
    {
        self.queries.len() >= MOST_QUERIES
    }

    /// Whether it was sent a request under the number and has not ended it.
    pub fn is_asked(&self, number: u32) -> bool
        ensures { result ≡ has_number self.now.requests number }
    {
        self.requests.has(number)
    }

    /// It has asked a query under the number.
    pub fn ask(&mut self, number: u32) -> Result<(), AllocError>
        ensures { OnOk result (self.new ≡ asking self.old number) }
    {
        self.queries.push(number)
    }

    /// It has ended the request of the number.
    pub fn end(&mut self, number: u32)
        ensures { self.new ≡ ending self.old number }
    {
        self.requests.take(number);
    }

    /// It was sent a message: a request is its own to answer until it ends it, and a final closes its query.
    pub fn receive(&mut self, msg: &Msg) -> Result<(), AllocError>
        ensures { OnOk result (self.new ≡ receiving self.old msg.now) }
    {
        match msg {
            Msg::Request { id, .. } => self.requests.push(*id),
            Msg::Final { id, .. } => {
                self.queries.take(*id);
                Ok(())
            }
            _ => Ok(()),
        }
    }
}

fn is_among(ids: &[u32], id: u32) -> bool
    ensures { result ≡ has_number ids.now id }
{
    ids.iter().any(|i| *i == id)
}

fn keep(ids: &mut Vec<u32>, id: u32) -> Result<(), AllocError>
    ensures { OnOk result (ids.new.items ≡ ids.old.items ++ id ∷ []) }
{
    ids.push(id)?;
    Ok(())
}

fn forget(ids: &mut Vec<u32>, id: u32)
    ensures { ids.new.items ≡ filter (λ i. not (i == id)) ids.old.items }
{
    ids.retain(|i| *i != id);
}
