//! What clients ask, reply and end.

ghost use Rattle.std.specs.Prelude.{◌≡◌, None, IfOk};
ghost use Rattle.zr_msg.specs.Extras.{no_extras};
ghost use Rattle.zr_world.specs.Steps.{Does};

use crate::sending::send;
use crate::settled::is_unbroken;
use crate::tables::WorldTables;
use std::alloc::{AllocError, Global};
use zr_carrier::carrier::Carrier;
use zr_id::zid::Zid;
use zr_msg::content::Content;
use zr_msg::extras::Extras;
use zr_msg::msg::{Msg, Target};
use zr_msg::shared::Shared;
use zr_script_spec::error::ScriptError;

impl<C: Carrier> WorldTables<C> {
    ghost use Rattle.zr_world_spec.specs.Acts.{get_step, reply_step, end_step};
    ghost use Rattle.zr_law_sent.specs.Passing.{MayPass};
    ghost use Rattle.zr_msg.specs.declared.peer.Role.TheVariants.{Client};
    ghost use Rattle.zr_world.specs.Led.{IsLed};
    ghost use Rattle.zr_world.specs.State.{state_of};

    /// A client asks a query under a number that is none of its open ones. On its link no tree is named.
    #[tactic(auto, using(std::proofs::lemmas::Map::Steps::set_value_same), unfolding(zr_world_spec::specs::Acts::get_step, zr_world_spec::specs::Acts::client_sends))]
    pub fn get(
        &mut self,
        line: u64,
        client: Zid,
        number: u32,
        target: Target,
        content: Content,
    ) -> Result<(), ScriptError>
        requires led { IsLed (state_of self.old) }
        requires may { MayPass Client (Msg.Request None number target content) }
        ensures { Does result (get_step (state_of self.old) line client number target content) (state_of self.old) (state_of self.new) }
    {
        let Some(c) = self.clients.get_mut(&client) else {
            return Err(ScriptError::UnknownName);
        };
        if c.has_open(number) {
            return Err(ScriptError::NameTaken);
        }
        if !is_unbroken(&self.ends, (c.router(), client)) {
            return Err(ScriptError::NotLinked);
        }
        if c.is_full() {
            return Err(ScriptError::Limit);
        }
        let msg = request(number, target, content);
        send(&mut self.ends, (c.router(), client), &msg, line)?;
        c.ask(number)?;
        Ok(())
    }

    /// A client replies to a request that it was sent and has not ended.
    #[tactic(auto, unfolding(zr_world_spec::specs::Acts::reply_step, zr_world_spec::specs::Acts::client_sends))]
    pub fn reply(
        &mut self,
        line: u64,
        client: Zid,
        number: u32,
        content: Content,
    ) -> Result<(), ScriptError>
        requires led { IsLed (state_of self.old) }
        requires may { MayPass Client (Msg.Response number content) }
        ensures { Does result (reply_step (state_of self.old) line client number content) (state_of self.old) (state_of self.new) }
    {
        let Some(c) = self.clients.get(&client) else {
            return Err(ScriptError::UnknownName);
        };
        let router = c.router();
        if !is_unbroken(&self.ends, (router, client)) {
            return Err(ScriptError::NotLinked);
        }
        if !c.is_asked(number) {
            return Err(ScriptError::NotAsked);
        }
        let msg = response(number, content);
        send(&mut self.ends, (router, client), &msg, line)?;
        Ok(())
    }

    /// A client ends a request that it was sent and has not ended.
    #[tactic(auto, using(std::proofs::lemmas::Map::Steps::set_value_same), unfolding(zr_world_spec::specs::Acts::end_step, zr_world_spec::specs::Acts::client_sends))]
    pub fn end(&mut self, line: u64, client: Zid, number: u32) -> Result<(), ScriptError>
        requires led { IsLed (state_of self.old) }
        requires may { MayPass Client (Msg.Final number no_extras) }
        ensures { Does result (end_step (state_of self.old) line client number) (state_of self.old) (state_of self.new) }
    {
        let Some(c) = self.clients.get_mut(&client) else {
            return Err(ScriptError::UnknownName);
        };
        if !is_unbroken(&self.ends, (c.router(), client)) {
            return Err(ScriptError::NotLinked);
        }
        if !c.is_asked(number) {
            return Err(ScriptError::NotAsked);
        }
        let msg = final_of(self.alloc, number)?;
        send(&mut self.ends, (c.router(), client), &msg, line)?;
        c.end(number);
        Ok(())
    }
}

// The message by which a client asks. On its link no tree is named.
fn request(id: u32, target: Target, content: Content) -> Msg
    ensures { result ≡ Msg.Request None id target content }
{
    Msg::Request {
        tree: None,
        id,
        target,
        content,
    }
}

// The message by which a client replies.
fn response(id: u32, content: Content) -> Msg
    ensures { result ≡ Msg.Response id content }
{
    Msg::Response { id, content }
}

// The message by which a client ends a request.
fn final_of(alloc: Global, id: u32) -> Result<Msg, AllocError>
    ensures { IfOk result (λ msg. msg ≡ Msg.Final id no_extras) }
{
    Ok(Msg::Final {
        id,
        extras: Shared::new(alloc, Extras::none())?,
    })
}
