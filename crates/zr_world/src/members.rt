//! Routers, clients and links come, come up, break and go down.

ghost use Rattle.std.specs.Prelude.{◌≡◌, Some};
ghost use Rattle.zr_world_spec.specs.World.{EndState, end_of};
ghost use Rattle.zr_world.specs.Steps.{Does};

use crate::client::Client;
use crate::router::WorldRouter;
use crate::settled::is_unbroken;
use crate::spread::spread;
use crate::tables::WorldTables;
use zr_carrier::carrier::Carrier;
use zr_id::zid::Zid;
use zr_msg::peer::{Peer, Role, Weight};
use zr_script_spec::error::ScriptError;
use zr_world_ends::ends::Ends;

/// How many routers a world has at most, all that ever came.
const MOST_ROUTERS: usize = 64;

/// How many clients a world has at most, all that ever came.
const MOST_CLIENTS: usize = 1024;

/// How many links between routers are in place at most.
const MOST_LINKS: usize = 512;

impl<C: Carrier> WorldTables<C> {
    ghost use Rattle.zr_world_spec.specs.Acts.{router_step, client_step, link_step, up_step, break_step, down_step};
    ghost use Rattle.zr_world_spec.specs.Sound.{IsSound};
    ghost use Rattle.zr_world.specs.State.{state_of};

    /// A router without links.
    #[tactic(auto, unfolding(zr_world_spec::specs::Acts::router_step))]
    pub fn router(&mut self, id: Zid) -> Result<(), ScriptError>
        ensures { Does result (router_step (state_of self.old) id) (state_of self.old) (state_of self.new) }
    {
        if self.is_taken(&id) {
            return Err(ScriptError::NameTaken);
        }
        if self.routers.len() >= MOST_ROUTERS {
            return Err(ScriptError::Limit);
        }
        let router = WorldRouter::new(self.alloc, id)?;
        drop(self.routers.insert(id, router)?); // none was there
        Ok(())
    }

    /// A client whose link is up at once.
    #[tactic(auto, using(std::proofs::lemmas::Map::Steps::set_value_same), unfolding(zr_world_spec::specs::Acts::client_step))]
    pub fn client(&mut self, line: u64, id: Zid, router: Zid) -> Result<(), ScriptError>
        requires { IsSound (state_of self.old) }
        ensures { Does result (client_step (state_of self.old) line id router) (state_of self.old) (state_of self.new) }
    {
        let is_taken = self.is_taken(&id);
        let count = self.clients.len();
        let Some(r) = self.routers.get_mut(&router) else {
            return Err(ScriptError::UnknownName);
        };
        if is_taken {
            return Err(ScriptError::NameTaken);
        }
        if count >= MOST_CLIENTS {
            return Err(ScriptError::Limit);
        }
        let peer = Peer {
            id,
            role: Role::Client,
            weight: 1,
        };
        r.hear_up(self.alloc, peer, &mut self.out)?;
        self.ends.put_client(self.alloc, router, id)?;
        spread(r, router, &mut self.ends, &mut self.out, line)?;
        drop(self.clients.insert(id, Client::new(self.alloc, router))?); // none was there
        Ok(())
    }

    /// A link of this weight between two routers, up at neither end.
    #[tactic(auto, unfolding(zr_world_spec::specs::Acts::link_step))]
    pub fn link(&mut self, one: Zid, other: Zid, weight: Weight) -> Result<(), ScriptError>
        ensures { Does result (link_step (state_of self.old) one other weight) (state_of self.old) (state_of self.new) }
    {
        if one == other {
            return Err(ScriptError::BadWords);
        }
        if !self.is_router(&one) || !self.is_router(&other) {
            return Err(ScriptError::UnknownName);
        }
        if self.is_in_place(one, other) {
            return Err(ScriptError::AlreadyLinked);
        }
        if self.links_in_place() >= MOST_LINKS {
            return Err(ScriptError::Limit);
        }
        self.ends.put_link(self.alloc, one, other, weight)?;
        Ok(())
    }

    /// A router's end comes up.
    #[tactic(auto, using(std::proofs::lemmas::Map::Steps::set_value_same), unfolding(zr_world_spec::specs::Acts::up_step))]
    pub fn up(&mut self, line: u64, router: Zid, neighbour: Zid) -> Result<(), ScriptError>
        requires { IsSound (state_of self.old) }
        ensures { Does result (up_step (state_of self.old) line router neighbour) (state_of self.old) (state_of self.new) }
    {
        let is_known = self.is_taken(&neighbour);
        let weight = weight_at(&self.ends, (router, neighbour));
        let peer = self.peer_of(neighbour, weight);
        let Some(r) = self.routers.get_mut(&router) else {
            return Err(ScriptError::UnknownName);
        };
        if !is_known {
            return Err(ScriptError::UnknownName);
        }
        let Some(end) = self.ends.get((router, neighbour)) else {
            return Err(ScriptError::NotLinked);
        };
        if !end.is_unbroken() {
            return Err(ScriptError::NotLinked);
        }
        if end.is_up() {
            return Err(ScriptError::AlreadyLinked);
        }
        r.hear_up(self.alloc, peer, &mut self.out)?;
        self.ends.lift((router, neighbour));
        spread(r, router, &mut self.ends, &mut self.out, line)?;
        Ok(())
    }

    /// A link breaks, and what is on its wires is lost.
    #[tactic(auto, unfolding(zr_world_spec::specs::Acts::break_step))]
    pub fn break_link(&mut self, router: Zid, neighbour: Zid) -> Result<(), ScriptError>
        ensures { Does result (break_step (state_of self.old) router neighbour) (state_of self.old) (state_of self.new) }
    {
        if !self.is_router(&router) || !self.is_taken(&neighbour) {
            return Err(ScriptError::UnknownName);
        }
        if !is_unbroken(&self.ends, (router, neighbour)) {
            return Err(ScriptError::NotLinked);
        }
        self.ends.break_link(router, neighbour);
        Ok(())
    }

    /// A router notices that a link is broken, and what it has queued there is lost.
    #[tactic(auto, using(std::proofs::lemmas::Map::Steps::set_value_same), unfolding(zr_world_spec::specs::Acts::down_step))]
    pub fn down(&mut self, line: u64, router: Zid, neighbour: Zid) -> Result<(), ScriptError>
        requires { IsSound (state_of self.old) }
        ensures { Does result (down_step (state_of self.old) line router neighbour) (state_of self.old) (state_of self.new) }
    {
        let is_known = self.is_taken(&neighbour);
        let Some(r) = self.routers.get_mut(&router) else {
            return Err(ScriptError::UnknownName);
        };
        if !is_known {
            return Err(ScriptError::UnknownName);
        }
        let Some(end) = self.ends.get((router, neighbour)) else {
            return Err(ScriptError::NotLinked);
        };
        if !end.is_up() || end.is_unbroken() {
            return Err(ScriptError::NotLinked);
        }
        let Some(link) = r.link_to(&neighbour) else {
            return Err(ScriptError::NotLinked);
        };
        r.hear_down(self.alloc, link, &mut self.out)?;
        spread(r, router, &mut self.ends, &mut self.out, line)?;
        self.ends.lower((router, neighbour));
        Ok(())
    }
}

// What the link of an end weighs for its router, where the end is there.
fn weight_at<C: Carrier>(ends: &Ends<C>, at: (Zid, Zid)) -> Weight
    ensures { (s : EndState) → end_of ends.now at ≡ Some s → result ≡ s.weight }
{
    match ends.get(at) {
        Some(end) => end.weight(),
        None => Weight::one(),
    }
}
