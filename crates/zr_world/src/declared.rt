//! What clients declare and publish.

ghost use Rattle.std.specs.Prelude.{◌≡◌};
ghost use Rattle.zr_world_spec.specs.World.{router_of};
ghost use Rattle.zr_world_spec.specs.Acts.{weighed};
ghost use Rattle.zr_node_spec.specs.Table.{able_kind};
ghost use Rattle.zr_world.specs.Messages.{declaration, withdrawal};
ghost use Rattle.zr_world.specs.Steps.{Changes, Does};

use crate::router::WorldRouter;
use crate::sending::send;
use crate::settled::is_unbroken;
use crate::tables::WorldTables;
use std::collections::BTreeMap;
use zr_carrier::carrier::Carrier;
use zr_id::zid::Zid;
use zr_key::key::KeyExpr;
use zr_msg::content::Content;
use zr_msg::decl::Kind;
use zr_msg::msg::Msg;
use zr_script_spec::error::ScriptError;

impl<C: Carrier> WorldTables<C> {
    ghost use Rattle.zr_world_spec.specs.World.{is_unbroken};
    ghost use Rattle.zr_world_spec.specs.Acts.{declare_step, undeclare_step, publish_step};
    ghost use Rattle.std.specs.Prelude.{None};
    ghost use Rattle.zr_law_sent.specs.Passing.{MayPass};
    ghost use Rattle.zr_msg.specs.declared.peer.Role.TheVariants.{Client};
    ghost use Rattle.zr_world.specs.Led.{IsLed};
    ghost use Rattle.zr_world.specs.State.{state_of};

    /// A client declares something under an id that is new in its sort.
    #[tactic(auto, using(std::proofs::lemmas::Map::Steps::set_value_same), unfolding(zr_world_spec::specs::Acts::declare_step, zr_world_spec::specs::Acts::client_sends))]
    pub fn declare(
        &mut self,
        line: u64,
        client: Zid,
        kind: Kind,
        id: u32,
        key: KeyExpr,
    ) -> Result<(), ScriptError>
        requires led { IsLed (state_of self.old) }
        requires may { MayPass Client (declaration kind id key) }
        ensures { Does result (declare_step (state_of self.old) line client kind id key (declaration kind id key)) (state_of self.old) (state_of self.new) }
    {
        let Some(c) = self.clients.get_mut(&client) else {
            return Err(ScriptError::UnknownName);
        };
        if c.has(kind, id) {
            return Err(ScriptError::NameTaken);
        }
        if !is_unbroken(&self.ends, (c.router(), client)) {
            return Err(ScriptError::NotLinked);
        }
        weigh(&mut self.routers, &c.router(), key.text().as_bytes())?;
        let msg = declaration(kind, id, key);
        send(&mut self.ends, (c.router(), client), &msg, line)?;
        c.declare(kind, id)?;
        Ok(())
    }

    /// A client declares a queryable, complete or not.
    pub fn able(
        &mut self,
        line: u64,
        client: Zid,
        id: u32,
        key: KeyExpr,
        complete: bool,
    ) -> Result<(), ScriptError>
        requires led { IsLed (state_of self.old) }
        requires may { MayPass Client (Msg.Able id key complete) }
        ensures { Does result (declare_step (state_of self.old) line client (able_kind complete) id key (Msg.Able id key complete)) (state_of self.old) (state_of self.new) }
    {
        let kind = if complete { Kind::Full } else { Kind::Able };
        self.declare(line, client, kind, id, key)
    }

    /// A client takes back what it declared of a sort under an id.
    #[tactic(auto, using(std::proofs::lemmas::Map::Steps::set_value_same), unfolding(zr_world_spec::specs::Acts::undeclare_step, zr_world_spec::specs::Acts::client_sends))]
    pub fn undeclare(
        &mut self,
        line: u64,
        client: Zid,
        kind: Kind,
        id: u32,
    ) -> Result<(), ScriptError>
        requires led { IsLed (state_of self.old) }
        requires may { MayPass Client (withdrawal kind id) }
        ensures { Does result (undeclare_step (state_of self.old) line client kind id (withdrawal kind id)) (state_of self.old) (state_of self.new) }
    {
        let Some(c) = self.clients.get_mut(&client) else {
            return Err(ScriptError::UnknownName);
        };
        if !c.has(kind, id) {
            return Err(ScriptError::UnknownName);
        }
        if !is_unbroken(&self.ends, (c.router(), client)) {
            return Err(ScriptError::NotLinked);
        }
        let msg = withdrawal(kind, id);
        send(&mut self.ends, (c.router(), client), &msg, line)?;
        c.undeclare(kind, id);
        Ok(())
    }

    /// A client publishes a sample. On its link no tree is named.
    #[tactic(auto, unfolding(zr_world_spec::specs::Acts::publish_step, zr_world_spec::specs::Acts::client_sends))]
    pub fn publish(&mut self, line: u64, client: Zid, content: Content) -> Result<(), ScriptError>
        requires led { IsLed (state_of self.old) }
        requires may { MayPass Client (Msg.Push None content) }
        ensures { Does result (publish_step (state_of self.old) line client content) (state_of self.old) (state_of self.new) }
    {
        let Some(c) = self.clients.get(&client) else {
            return Err(ScriptError::UnknownName);
        };
        let router = c.router();
        if !is_unbroken(&self.ends, (router, client)) {
            return Err(ScriptError::NotLinked);
        }
        let msg = Msg::Push {
            tree: None,
            content,
        };
        send(&mut self.ends, (router, client), &msg, line)?;
        Ok(())
    }
}

/// What has this text as its key weighs on its router, if there is room for it.
#[tactic(auto, using(std::proofs::lemmas::Map::Steps::set_value_same))]
pub(crate) fn weigh(
    routers: &mut BTreeMap<Zid, WorldRouter>,
    name: &Zid,
    text: &[u8],
) -> Result<(), ScriptError>
    ensures { Changes result (weighed routers.old.entries name.now text.now (router_of routers.old.entries name.now)) routers.old.entries routers.new.entries }
{
    let Some(router) = routers.get_mut(name) else {
        return Err(ScriptError::UnknownName);
    };
    if !router.has_room(text) {
        return Err(ScriptError::Limit);
    }
    router.weigh(text);
    Ok(())
}

// The message by which a client declares something.
fn declaration(kind: Kind, id: u32, key: KeyExpr) -> Msg
    ensures { result ≡ declaration kind id key }
{
    match kind {
        Kind::Sub => Msg::Sub { id, key },
        Kind::Able => Msg::Able {
            id,
            key,
            complete: false,
        },
        Kind::Full => Msg::Able {
            id,
            key,
            complete: true,
        },
        Kind::Token => Msg::Token { id, key },
    }
}

// The message by which a client takes back what it declared.
fn withdrawal(kind: Kind, id: u32) -> Msg
    ensures { result ≡ withdrawal kind id }
{
    match kind {
        Kind::Sub => Msg::Unsub { id },
        Kind::Able | Kind::Full => Msg::Unable { id },
        Kind::Token => Msg::Untoken { id },
    }
}
