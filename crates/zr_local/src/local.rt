//! `Local`: what the clients of one router have declared, and their live interests.

ghost use Rattle.std.specs.Prelude.{◌≡◌, ◌+◌, ◌==◌, true, [], Some, IfOk, OnOk, OnErr};
ghost use Rattle.std.specs.Option.{option_map_or};
ghost use Rattle.zr_local.specs.Clients.{AreByLink, kept, forgotten, noted, clients_left, clients_weight, weight_but};
ghost use Rattle.zr_local.specs.Interests.{interest_weight};
ghost use Rattle.zr_local.specs.Rows.{AreInOrder, id_kind, row_key, key_cmp, declared, undeclared, left, weight_of, gone, came, refuses_undeclare, refusal, over_limit};
ghost use Rattle.zr_local.specs.State.{refuses_declare, refuses_interest};
ghost use Rattle.zr_local.specs.declared.interest.Interest.{Interest};
ghost use Rattle.zr_lists.specs.Place.{IsGap, IsAt};

use crate::changes::{Changes, difference};
use crate::clients::Clients;
use crate::error::LocalError;
use crate::interest::{ClientInterests, Interest, key_weight, text_weight};
use crate::leaving::{keep_unowned, release, set_on, take_out, weight_without};
use crate::owners::Owners;
use crate::row::{Key, Row, copies_of, exchange, insert, place_of, remove};
use std::alloc::{AllocError, Global};
use std::marker::Model;
use zr_id::link::LinkNo;
use zr_key::key::KeyExpr;
use zr_log_set::decl_set::DeclSet;
use zr_log_set::weight::{decl_weight, is_over_limit};
use zr_msg::decl::{Decl, Kind};

/// What the clients of one router have declared, by link, subscribers first, then by id, and their live interests.
#[derive(Drop)]
pub struct Local {
    rows: Vec<Row>,
    owners: Owners,
    clients: Clients,
    held: u64,
}

impl Model for Local {
    ghost use Rattle.std.specs.Prelude.{◌≡◌, ◌+◌};
    ghost use Rattle.zr_local.specs.Clients.{clients_weight};
    ghost use Rattle.zr_local.specs.Owners.{IsSound};
    ghost use Rattle.zr_local.specs.Rows.{weight_of};
    ghost use Rattle.zr_local.specs.State.{LocalState};

    ghost Value = { LocalState };

    ghost view = { λ l. record { rows = l.rows.items; clients = l.clients } };

    ghost invariant = { λ l. IsSound l.rows.items l.owners × (l.held ≡ weight_of l.rows.items + clients_weight l.clients) };
}

impl Local {
    /// Nothing is declared yet, and no interest is live. It takes no memory.
    pub fn new(alloc: Global) -> Local
        ensures { result ≡ record { rows = []; clients = [] } }
    {
        Local {
            rows: Vec::new(alloc),
            owners: Owners::new(alloc),
            clients: Clients::new(alloc),
            held: 0,
        }
    }

    /// The same declarations and interests once more.
    pub fn copy(&self, alloc: Global) -> Result<Local, AllocError>
        ensures { IfOk result (λ l. l ≡ self.now) }
    {
        Ok(Local {
            rows: copies_of(alloc, &self.rows)?,
            owners: self.owners.copy(alloc)?,
            clients: self.clients.copy(alloc)?,
            held: self.held,
        })
    }

    /// What is declared, by link, subscribers first, then by id.
    pub fn rows(&self) -> &[Row]
        ensures value { result.now ≡ self.now.rows }
        ensures in_order { AreInOrder self.now.rows }
    {
        self.rows.as_slice()
    }

    /// The live interests of each client, by link, and of one client by id.
    pub fn clients(&self) -> &[ClientInterests]
        ensures value { result.now ≡ self.now.clients }
        ensures in_order { AreByLink self.now.clients }
    {
        self.clients.as_slice()
    }

    /// What is declared under an id takes the place of what the client has declared under it in the same kind.
    pub fn declare(&mut self, link: LinkNo, id: u32, decl: Decl) -> Result<Changes, LocalError>
        ensures gone { IfOk result (λ c. c.gone.items ≡ gone self.old.rows (declared self.old.rows (record { link = link; id = id; decl = decl }))) }
        ensures came { IfOk result (λ c. c.came.items ≡ came self.old.rows (declared self.old.rows (record { link = link; id = id; decl = decl }))) }
        ensures value { OnOk result (self.new ≡ record { rows = declared self.old.rows (record { link = link; id = id; decl = decl }); clients = self.old.clients }) }
        ensures refused { refuses_declare self.old (record { link = link; id = id; decl = decl }) ≡ refusal result }
        ensures unchanged { OnErr result (self.new ≡ self.old) }
    {
        let row = Row { link, id, decl };
        match place_of(&self.rows, Key::new(link, id, row.decl.kind)) {
            Ok(at) => self.exchange(at, row),
            Err(at) => self.insert(at, row),
        }
    }

    /// Takes back what the client has declared under the id in this kind.
    pub fn undeclare(&mut self, link: LinkNo, id: u32, kind: Kind) -> Result<Changes, LocalError>
        ensures gone { IfOk result (λ c. c.gone.items ≡ gone self.old.rows (undeclared self.old.rows (record { link = link.0; kind = id_kind kind; id = id }))) }
        ensures came { IfOk result (λ c. c.came.items ≡ came self.old.rows (undeclared self.old.rows (record { link = link.0; kind = id_kind kind; id = id }))) }
        ensures value { OnOk result (self.new ≡ record { rows = undeclared self.old.rows (record { link = link.0; kind = id_kind kind; id = id }); clients = self.old.clients }) }
        ensures refused { refuses_undeclare self.old.rows (record { link = link.0; kind = id_kind kind; id = id }) ≡ refusal result }
        ensures unchanged { OnErr result (self.new ≡ self.old) }
    {
        let key = Key::new(link, id, kind);
        match place_of(&self.rows, key) {
            Ok(at) => Ok(self.remove(at, key)?),
            Err(_) => Err(LocalError::UnknownId),
        }
    }

    /// An interest of a client is live from now on, in place of the one of the same id. Where `None` comes, the one of the id is live no
    /// more; if there is none, nothing changes.
    pub fn interest(
        &mut self,
        link: LinkNo,
        id: u32,
        interest: Option<Interest>,
    ) -> Result<(), LocalError>
        requires { option_map_or (λ i. i.id == id) interest true ≡ true }
        ensures value { OnOk result (self.new ≡ record { rows = self.old.rows; clients = noted self.old.clients link id interest }) }
        ensures refused { refuses_interest self.old link id interest ≡ refusal result }
        ensures unchanged { OnErr result (self.new ≡ self.old) }
    {
        match interest {
            Some(interest) => self.keep(link, interest),
            None => {
                self.forget(link, id);
                Ok(())
            }
        }
    }

    /// Why a declaration of a key under an id would be refused, if it would be. It takes no memory.
    pub fn refuses_declare(
        &self,
        link: LinkNo,
        id: u32,
        kind: Kind,
        key: &KeyExpr,
    ) -> Option<LocalError>
        ensures { result ≡ refuses_declare self.now (record { link = link; id = id; decl = record { kind = kind; key = key.now } }) }
    {
        over_limit(self.weight_beside(link, id, kind), text_weight(key))
    }

    /// Why what the client has declared under the id in this kind would not be taken back, if it would not be. It takes no memory.
    pub fn refuses_undeclare(&self, link: LinkNo, id: u32, kind: Kind) -> Option<LocalError>
        ensures { result ≡ refuses_undeclare self.now.rows (record { link = link.0; kind = id_kind kind; id = id }) }
    {
        match place_of(&self.rows, Key::new(link, id, kind)) {
            Ok(_) => None,
            Err(_) => Some(LocalError::UnknownId),
        }
    }

    /// Why an interest with such a key would be refused under an id, if it would be, in whatever it is. It takes no memory.
    pub fn refuses_interest(
        &self,
        link: LinkNo,
        id: u32,
        key: &Option<KeyExpr>,
    ) -> Option<LocalError>
        ensures { (i : Interest) → i.key ≡ key.now → result ≡ refuses_interest self.now link id (Some i) }
    {
        over_limit(self.weight_but(link, id), key_weight(key))
    }

    /// All that the client of a link has declared goes, and so do its interests.
    pub fn leave(&mut self, link: LinkNo) -> Result<Changes, AllocError>
        ensures gone { IfOk result (λ c. c.gone.items ≡ gone self.old.rows (left self.old.rows link.0)) }
        ensures came { IfOk result (λ c. c.came.items ≡ came self.old.rows (left self.old.rows link.0)) }
        ensures value { OnOk result (self.new ≡ record { rows = left self.old.rows link.0; clients = clients_left self.old.clients link.0 }) }
        ensures unchanged { OnErr result (self.new ≡ self.old) }
    {
        let alloc = *self.rows.allocator();
        let set = set_on(alloc, &self.rows, link)?;
        self.held = self.weight_without(link);
        self.clients.leave(link);
        release(&mut self.owners, &self.rows, link);
        take_out(&mut self.rows, link);
        let mut gone = set.into_vec();
        keep_unowned(&mut gone, &self.owners);
        let came = Vec::new(alloc);
        Ok(Changes { gone, came })
    }

    fn keep(&mut self, link: LinkNo, interest: Interest) -> Result<(), LocalError>
        ensures value { OnOk result (self.new ≡ record { rows = self.old.rows; clients = kept self.old.clients link interest }) }
        ensures refused { over_limit (weight_of self.old.rows + weight_but self.old.clients link interest.id) (interest_weight interest) ≡ refusal result }
        ensures unchanged { OnErr result (self.new ≡ self.old) }
    {
        let held = self.weight_but(link, interest.id);
        let more = interest.weight();
        within(held, more)?;
        self.clients.keep(link, interest)?;
        self.held = held + more;
        Ok(())
    }

    fn forget(&mut self, link: LinkNo, id: u32)
        ensures { self.new ≡ record { rows = self.old.rows; clients = forgotten self.old.clients link id } }
    {
        self.held = self.weight_but(link, id);
        self.clients.forget(link, id);
    }

    // what all but the interest of this id weigh
    fn weight_but(&self, link: LinkNo, id: u32) -> u64
        ensures { result ≡ weight_of self.now.rows + weight_but self.now.clients link id }
    {
        self.held - self.clients.weight_of(link, id)
    }

    // what all but the client of a link have declared, and their interests, weigh
    fn weight_without(&self, link: LinkNo) -> u64
        ensures { result ≡ weight_of (left self.now.rows link.0) + clients_weight (clients_left self.now.clients link.0) }
    {
        let held = weight_without(&self.rows, link, self.held);
        self.clients.weight_without(link, held)
    }

    // what all but the row of a key weigh
    fn weight_beside(&self, link: LinkNo, id: u32, kind: Kind) -> u64
        ensures { result ≡ weight_of (undeclared self.now.rows (record { link = link.0; kind = id_kind kind; id = id })) + clients_weight self.now.clients }
    {
        match place_of(&self.rows, Key::new(link, id, kind)) {
            Ok(at) => self.weight_of_others(at, link, id, kind),
            Err(_) => self.held,
        }
    }

    // what all but the row at the place weigh, which has this key
    fn weight_of_others(&self, at: usize, link: LinkNo, id: u32, kind: Kind) -> u64
        requires { IsAt key_cmp row_key self.now.rows (record { link = link.0; kind = id_kind kind; id = id }) at }
        ensures { result ≡ weight_of (undeclared self.now.rows (record { link = link.0; kind = id_kind kind; id = id })) + clients_weight self.now.clients }
    {
        let old = &self.rows[at];
        self.held - decl_weight(&old.decl)
    }

    // what stands at the place is replaced
    fn exchange(&mut self, at: usize, row: Row) -> Result<Changes, LocalError>
        requires { IsAt key_cmp row_key self.old.rows (row_key row) at }
        ensures gone { IfOk result (λ c. c.gone.items ≡ gone self.old.rows (declared self.old.rows row)) }
        ensures came { IfOk result (λ c. c.came.items ≡ came self.old.rows (declared self.old.rows row)) }
        ensures value { OnOk result (self.new ≡ record { rows = declared self.old.rows row; clients = self.old.clients }) }
        ensures refused { refuses_declare self.old row ≡ refusal result }
        ensures unchanged { OnErr result (self.new ≡ self.old) }
    {
        let held = self.weight_of_others(at, row.link, row.id, row.decl.kind);
        let more = decl_weight(&row.decl);
        within(held, more)?;
        Ok(self.exchange_within(at, row, held + more)?)
    }

    // what stands at the place is replaced, and all then weigh so much
    fn exchange_within(&mut self, at: usize, row: Row, held: u64) -> Result<Changes, AllocError>
        requires at { IsAt key_cmp row_key self.old.rows (row_key row) at }
        requires held { held ≡ weight_of (declared self.old.rows row) + clients_weight self.old.clients }
        ensures gone { IfOk result (λ c. c.gone.items ≡ gone self.old.rows (declared self.old.rows row)) }
        ensures came { IfOk result (λ c. c.came.items ≡ came self.old.rows (declared self.old.rows row)) }
        ensures value { OnOk result (self.new ≡ record { rows = declared self.old.rows row; clients = self.old.clients }) }
        ensures unchanged { OnErr result (self.new ≡ self.old) }
    {
        let alloc = *self.rows.allocator();
        let changes = difference(
            alloc,
            &self.owners,
            Some(&self.rows[at].decl),
            Some(&row.decl),
        )?;
        exchange(&mut self.rows, &mut self.owners, at, row)?;
        self.held = held;
        Ok(changes)
    }

    // nothing stood at the place
    fn insert(&mut self, at: usize, row: Row) -> Result<Changes, LocalError>
        requires { IsGap key_cmp row_key self.old.rows (row_key row) at }
        ensures gone { IfOk result (λ c. c.gone.items ≡ gone self.old.rows (declared self.old.rows row)) }
        ensures came { IfOk result (λ c. c.came.items ≡ came self.old.rows (declared self.old.rows row)) }
        ensures value { OnOk result (self.new ≡ record { rows = declared self.old.rows row; clients = self.old.clients }) }
        ensures refused { refuses_declare self.old row ≡ refusal result }
        ensures unchanged { OnErr result (self.new ≡ self.old) }
    {
        let more = decl_weight(&row.decl);
        within(self.held, more)?;
        let changes = difference(*self.rows.allocator(), &self.owners, None, Some(&row.decl))?;
        insert(&mut self.rows, &mut self.owners, at, row)?;
        self.held += more;
        Ok(changes)
    }

    fn remove(&mut self, at: usize, key: Key) -> Result<Changes, AllocError>
        requires { IsAt key_cmp row_key self.old.rows (record { link = key.link; kind = key.kind; id = key.id }) at }
        ensures gone { IfOk result (λ c. c.gone.items ≡ gone self.old.rows (undeclared self.old.rows (record { link = key.link; kind = key.kind; id = key.id }))) }
        ensures came { IfOk result (λ c. c.came.items ≡ came self.old.rows (undeclared self.old.rows (record { link = key.link; kind = key.kind; id = key.id }))) }
        ensures value { OnOk result (self.new ≡ record { rows = undeclared self.old.rows (record { link = key.link; kind = key.kind; id = key.id }); clients = self.old.clients }) }
        ensures unchanged { OnErr result (self.new ≡ self.old) }
    {
        let alloc = *self.rows.allocator();
        let row = &self.rows[at];
        let weight = decl_weight(&row.decl);
        let changes = difference(alloc, &self.owners, Some(&row.decl), None)?;
        self.held -= weight;
        remove(&mut self.rows, &mut self.owners, at);
        Ok(changes)
    }
}

// whether all may weigh so much
fn within(held: u64, more: u64) -> Result<(), LocalError>
    ensures { over_limit held more ≡ refusal result }
{
    match over_limit(held, more) {
        Some(refused) => Err(refused),
        None => Ok(()),
    }
}

fn over_limit(held: u64, more: u64) -> Option<LocalError>
    ensures { result ≡ over_limit held more }
{
    if is_over_limit(held, more) {
        return Some(LocalError::TextLimit { held, more });
    }
    None
}
