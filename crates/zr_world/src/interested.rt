//! What clients ask to be told of others' declarations.

ghost use Rattle.std.specs.Prelude.{◌≡◌, [], unwrap_or};
ghost use Rattle.zr_script_spec.specs.Mode.{is_current, is_future};
ghost use Rattle.zr_world.specs.Steps.{Does};

use crate::declared::weigh;
use crate::sending::send;
use crate::settled::is_unbroken;
use crate::tables::WorldTables;
use zr_carrier::carrier::Carrier;
use zr_id::zid::Zid;
use zr_key::key::KeyExpr;
use zr_msg::msg::{Kinds, Msg};
use zr_script_spec::command::Mode;
use zr_script_spec::error::ScriptError;

impl<C: Carrier> WorldTables<C> {
    ghost use Rattle.zr_world_spec.specs.Acts.{interest_step, uninterest_step};
    ghost use Rattle.zr_law_sent.specs.Passing.{MayPass};
    ghost use Rattle.zr_msg.specs.declared.peer.Role.TheVariants.{Client};
    ghost use Rattle.zr_world.specs.Led.{IsLed};
    ghost use Rattle.zr_world.specs.State.{state_of};

    /// A client asks to be told what others declare, under an id that none of its interests has. One in what is declared later goes on, and
    /// weighs on its router.
    #[tactic(auto, using(std::proofs::lemmas::Map::Steps::set_value_same), unfolding(zr_world_spec::specs::Acts::interest_step, zr_world_spec::specs::Acts::client_sends))]
    pub fn interest(
        &mut self,
        line: u64,
        client: Zid,
        id: u32,
        mode: Mode,
        kinds: Kinds,
        key: Option<KeyExpr>,
        aggregate: bool,
    ) -> Result<(), ScriptError>
        requires led { IsLed (state_of self.old) }
        requires may { MayPass Client (Msg.Interest id (is_current mode) (is_future mode) kinds key aggregate) }
        ensures { Does result (interest_step (state_of self.old) line client id mode kinds key aggregate) (state_of self.old) (state_of self.new) }
    {
        let Some(c) = self.clients.get_mut(&client) else {
            return Err(ScriptError::UnknownName);
        };
        if c.has_interest(id) {
            return Err(ScriptError::NameTaken);
        }
        if !is_unbroken(&self.ends, (c.router(), client)) {
            return Err(ScriptError::NotLinked);
        }
        if mode.is_future() {
            weigh(&mut self.routers, &c.router(), text_of(&key))?;
            let msg = asks(id, mode, kinds, key, aggregate);
            send(&mut self.ends, (c.router(), client), &msg, line)?;
            c.want(id)?;
            return Ok(());
        }
        let msg = asks(id, mode, kinds, key, aggregate);
        send(&mut self.ends, (c.router(), client), &msg, line)?;
        Ok(())
    }

    /// A client ends its interest of an id.
    #[tactic(auto, using(std::proofs::lemmas::Map::Steps::set_value_same), unfolding(zr_world_spec::specs::Acts::uninterest_step, zr_world_spec::specs::Acts::client_sends))]
    pub fn uninterest(&mut self, line: u64, client: Zid, id: u32) -> Result<(), ScriptError>
        requires led { IsLed (state_of self.old) }
        requires may { MayPass Client (Msg.EndInterest id) }
        ensures { Does result (uninterest_step (state_of self.old) line client id) (state_of self.old) (state_of self.new) }
    {
        let Some(c) = self.clients.get_mut(&client) else {
            return Err(ScriptError::UnknownName);
        };
        if !c.has_interest(id) {
            return Err(ScriptError::UnknownName);
        }
        if !is_unbroken(&self.ends, (c.router(), client)) {
            return Err(ScriptError::NotLinked);
        }
        let msg = Msg::EndInterest { id };
        send(&mut self.ends, (c.router(), client), &msg, line)?;
        c.unwant(id);
        Ok(())
    }
}

// The text of an interest's key. One without a key weighs as much as one without a text.
fn text_of(key: &Option<KeyExpr>) -> &[u8]
    ensures { result.now ≡ unwrap_or key.now [] }
{
    match key {
        Some(key) => key.text().as_bytes(),
        None => &[],
    }
}

// The message by which a client asks.
fn asks(id: u32, mode: Mode, kinds: Kinds, key: Option<KeyExpr>, aggregate: bool) -> Msg
    ensures { result ≡ Msg.Interest id (is_current mode) (is_future mode) kinds key aggregate }
{
    Msg::Interest {
        id,
        current: mode.is_current(),
        future: mode.is_future(),
        kinds,
        key,
        aggregate,
    }
}
