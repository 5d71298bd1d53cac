//! `Plain`: the messages themselves.

ghost use Rattle.std.specs.Prelude.{◌≡◌, ◌++◌, ◌∷◌, [], is_some, slice_get, OnOk, OnErr};
ghost use Rattle.zr_carrier.specs.Wire.{emptied, new_wire, with_message, without_oldest};

use crate::carrier::Carrier;
use std::alloc::{AllocError, Global};
use std::collections::{BTreeMap, VecDeque};
use std::marker::Model;
use zr_id::zid::Zid;
use zr_msg::msg::Msg;
use zr_msg::peer::Role;

/// A wire with its messages as they are.
#[derive(Drop)]
struct PlainWire {
    role: Role,
    waiting: VecDeque<(Msg, u64)>,
}

impl Model for PlainWire {
    ghost use Rattle.zr_carrier.specs.Wire.{Wire};

    ghost Value = { Wire };

    ghost view = { λ w. record { role = w.role; waiting = w.waiting.items } };
}

impl PlainWire {
    fn new(alloc: Global, role: Role) -> PlainWire
        ensures { result ≡ new_wire role }
    {
        PlainWire {
            role,
            waiting: VecDeque::new(alloc),
        }
    }

    /// Where memory runs out, what was on the wire is lost.
    fn send(&mut self, alloc: Global, msg: &Msg, tag: u64) -> Result<(), AllocError>
        ensures sent { OnOk result (self.new ≡ with_message self.old msg.now tag) }
        ensures err { OnErr result (self.new ≡ emptied self.old) }
    {
        let put = put(&mut self.waiting, alloc, msg, tag);
        if put.is_err() {
            self.waiting.clear();
        }
        put
    }

    fn receive(&mut self) -> Option<(Msg, u64)>
        ensures value { result ≡ slice_get self.old.waiting 0 }
        ensures rest { self.new ≡ without_oldest self.old }
    {
        self.waiting.pop_front()
    }

    fn waits(&self) -> bool
        ensures { result ≡ is_some (slice_get self.now.waiting 0) }
    {
        !self.waiting.is_empty()
    }
}

// A copy of a message comes behind those that wait.
fn put(
    waiting: &mut VecDeque<(Msg, u64)>,
    alloc: Global,
    msg: &Msg,
    tag: u64,
) -> Result<(), AllocError>
    ensures { OnOk result (waiting.new.items ≡ waiting.old.items ++ (msg.now, tag) ∷ []) }
{
    let copy = msg.copy(alloc)?;
    waiting.push_back((copy, tag))?;
    Ok(())
}

/// Wires with their messages as they are.
#[derive(Drop)]
pub struct Plain {
    alloc: Global,
    wires: BTreeMap<(Zid, Zid), PlainWire>,
}

impl Plain {
    ghost use Rattle.std.specs.Prelude.{None, Some, ℕ, List};
    ghost use Rattle.zr_carrier.specs.Wire.{AreSame, AreSameBut, Opens, Sets};
    ghost use Rattle.zr_carrier.specs.Kept.{wires_in};

    /// No wires.
    pub fn new(alloc: Global) -> Plain
        ensures { (from to : List ℕ) → wires_in result.wires from to ≡ None }
    {
        Plain {
            alloc,
            wires: BTreeMap::new(alloc),
        }
    }

    // The wires between a router and a neighbour of this role. Where memory runs out there may be one of them.
    fn put_wires(&mut self, router: Zid, neighbour: Zid, role: Role) -> Result<(), AllocError>
        ensures opened { OnOk result (Opens router neighbour role (wires_in self.old.wires) (wires_in self.new.wires)) }
        ensures others { OnErr result (AreSameBut router neighbour (wires_in self.old.wires) (wires_in self.new.wires)) }
    {
        self.put_wire(neighbour, router, role)?;
        match role {
            Role::Client => Ok(()),
            Role::Router => self.put_wire(router, neighbour, role),
        }
    }

    fn put_wire(&mut self, from: Zid, to: Zid, role: Role) -> Result<(), AllocError>
        ensures put { OnOk result (Sets from to (Some (new_wire role)) (wires_in self.old.wires) (wires_in self.new.wires)) }
        ensures err { OnErr result (AreSame (wires_in self.old.wires) (wires_in self.new.wires)) }
    {
        drop(
            self.wires
                .insert((from, to), PlainWire::new(self.alloc, role))?,
        );
        Ok(())
    }
}

impl Carrier for Plain {
    ghost use Rattle.zr_carrier.specs.Kept.{wires_in};

    ghost wire = { λ c. wires_in c.wires };

    fn open(&mut self, router: Zid, neighbour: Zid, role: Role) -> Result<(), AllocError> {
        let put = self.put_wires(router, neighbour, role);
        if put.is_err() {
            self.close(router, neighbour);
        }
        put
    }

    fn close(&mut self, one: Zid, other: Zid) {
        drop(self.wires.remove(&(one, other)));
        drop(self.wires.remove(&(other, one)));
    }

    fn send(&mut self, from: Zid, to: Zid, msg: &Msg, tag: u64) -> Result<(), AllocError> {
        match self.wires.get_mut(&(from, to)) {
            Some(wire) => wire.send(self.alloc, msg, tag),
            None => Ok(()),
        }
    }

    fn waits(&self, from: Zid, to: Zid) -> bool {
        match self.wires.get(&(from, to)) {
            Some(wire) => wire.waits(),
            None => false,
        }
    }

    fn receive(&mut self, from: Zid, to: Zid) -> Result<Option<(Msg, u64)>, AllocError> {
        match self.wires.get_mut(&(from, to)) {
            Some(wire) => Ok(wire.receive()),
            None => Ok(None),
        }
    }
}
