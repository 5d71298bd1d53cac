//! `Batches`: messages as real batches, through real sessions.

ghost use Rattle.std.specs.Prelude.{◌≡◌, OnOk, OnErr, IfNone, IfSome, None, Some, map, ℕ, List};
ghost use Rattle.zr_carrier.specs.Wire.{AreSame, AreSameBut, Opens, Sets, Wire, new_wire};
ghost use Rattle.zr_netrun_batches.specs.Coming.{IsLeftOf};

use crate::opening::{between_routers, from_client};
use crate::scratch::Scratch;
use crate::way::Way;
use std::alloc::{AllocError, Global};
use std::collections::BTreeMap;
use zr_carrier::carrier::Carrier;
use zr_id::zid::Zid;
use zr_msg::msg::Msg;
use zr_msg::peer::Role;

/// Wires that carry bytes. Each message is packed by itself, and its receiver's session is fed pieces of 1 to 64 bytes.
#[derive(Drop)]
pub struct Batches {
    alloc: Global,
    ways: BTreeMap<(Zid, Zid), Way>,
    scratch: Scratch,
}

impl Batches {
    ghost use Rattle.zr_carrier.specs.Kept.{wires_in};

    /// No wires.
    pub fn new(alloc: Global) -> Batches
        ensures { (from to : List ℕ) → wires_in result.ways from to ≡ None }
    {
        Batches {
            alloc,
            ways: BTreeMap::new(alloc),
            scratch: Scratch::new(alloc),
        }
    }

    /// The bytes on the wire from one to another that were not read, batches behind their lengths. They come to the messages on it, but those that its
    /// session gave with the last bytes that it was fed. None where there is no wire.
    pub fn bytes(&self, from: Zid, to: Zid) -> Option<&[u8]>
        ensures some { IfSome result (λ b. (w : Wire) × (wires_in self.now.ways from to ≡ Some w) × IsLeftOf w.role (map (λ x. x.0) w.waiting) b.now) }
        ensures none { IfNone result (wires_in self.now.ways from to ≡ None) }
    {
        match self.ways.get(&(from, to)) {
            Some(way) => Some(way.bytes()),
            None => None,
        }
    }

    // The wires between a router and a neighbour of this role. Where memory runs out there may be one of them.
    fn put_ways(&mut self, router: Zid, neighbour: Zid, role: Role) -> Result<(), AllocError>
        ensures opened { OnOk result (Opens router neighbour role (wires_in self.old.ways) (wires_in self.new.ways)) }
        ensures others { OnErr result (AreSameBut router neighbour (wires_in self.old.ways) (wires_in self.new.ways)) }
    {
        match role {
            Role::Client => self.put_client(router, neighbour),
            Role::Router => {
                // The lesser of two routers dials.
                if router < neighbour {
                    self.put_routers(neighbour, router)
                } else {
                    self.put_routers(router, neighbour)
                }
            }
        }
    }

    fn put_client(&mut self, router: Zid, client: Zid) -> Result<(), AllocError>
        ensures opened { OnOk result (Sets client router (Some (new_wire Role.Client)) (wires_in self.old.ways) (wires_in self.new.ways)) }
        ensures err { OnErr result (AreSame (wires_in self.old.ways) (wires_in self.new.ways)) }
    {
        let line = from_client(self.alloc, router, client)?;
        self.put_way(client, router, Way::new(self.alloc, line))
    }

    fn put_routers(&mut self, accepting: Zid, dialling: Zid) -> Result<(), AllocError>
        ensures opened { OnOk result (Opens accepting dialling Role.Router (wires_in self.old.ways) (wires_in self.new.ways)) }
        ensures others { OnErr result (AreSameBut accepting dialling (wires_in self.old.ways) (wires_in self.new.ways)) }
    {
        let (to_accepting, to_dialling) = between_routers(self.alloc, accepting, dialling)?;
        self.put_way(dialling, accepting, Way::new(self.alloc, to_accepting))?;
        self.put_way(accepting, dialling, Way::new(self.alloc, to_dialling))
    }

    fn put_way(&mut self, from: Zid, to: Zid, way: Way) -> Result<(), AllocError>
        ensures put { OnOk result (Sets from to (Some way) (wires_in self.old.ways) (wires_in self.new.ways)) }
        ensures err { OnErr result (AreSame (wires_in self.old.ways) (wires_in self.new.ways)) }
    {
        drop(self.ways.insert((from, to), way)?);
        Ok(())
    }
}

impl Carrier for Batches {
    ghost use Rattle.zr_carrier.specs.Kept.{wires_in};

    ghost wire = { λ c. wires_in c.ways };

    fn open(&mut self, router: Zid, neighbour: Zid, role: Role) -> Result<(), AllocError> {
        let put = self.put_ways(router, neighbour, role);
        if put.is_err() {
            self.close(router, neighbour);
        }
        put
    }

    fn close(&mut self, one: Zid, other: Zid) {
        drop(self.ways.remove(&(one, other)));
        drop(self.ways.remove(&(other, one)));
    }

    fn send(&mut self, from: Zid, to: Zid, msg: &Msg, tag: u64) -> Result<(), AllocError> {
        match self.ways.get_mut(&(from, to)) {
            Some(way) => way.send(&mut self.scratch, msg, tag),
            None => Ok(()),
        }
    }

    fn waits(&self, from: Zid, to: Zid) -> bool {
        match self.ways.get(&(from, to)) {
            Some(way) => way.waits(),
            None => false,
        }
    }

    fn receive(&mut self, from: Zid, to: Zid) -> Result<Option<(Msg, u64)>, AllocError> {
        match self.ways.get_mut(&(from, to)) {
            Some(way) => way.receive(&mut self.scratch),
            None => Ok(None),
        }
    }
}
