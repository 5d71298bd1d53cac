//! The calls that a host in memory tells.

ghost use Rattle.std.specs.Prelude.{◌≡◌, None, Some, []};
ghost use Rattle.zr_outside.specs.declared.host.Call.TheVariants as call;
ghost use Rattle.zr_outside.specs.Host.{Records};

use std::alloc::Global;
use std::marker::Model;
use zr_outside::host::{Address, Answer, Call};

/// A list of calls, as long as there is memory for it, and then none any more. Contracts see it as an `Option` of a list.
#[derive(Drop)]
pub struct Calls {
    list: Option<Vec<Call>>,
}

impl Model for Calls {
    ghost use Rattle.std.specs.Prelude.{List, Option};
    ghost use Rattle.zr_outside.specs.declared.host.Call.{Call};
    ghost use Rattle.zr_outside_mem.specs.Calls.{items_of};

    ghost Value = { Option (List Call) };

    ghost view = { λ c. items_of c.list };
}

impl Calls {
    /// No call yet.
    pub fn new(alloc: Global) -> Calls
        ensures { result ≡ Some [] }
    {
        Calls {
            list: Some(Vec::new(alloc)),
        }
    }

    /// How many calls there were, where they are told.
    pub fn get(&self) -> Option<&[Call]> {
        match &self.list {
            Some(calls) => Some(calls.as_slice()),
            None => None,
        }
    }

    /// One more call of `listen`.
    #[tactic(auto, using(crate::proofs::Recording::records_none))]
    pub fn listened(&mut self, alloc: Global, address: &str, is_listening: bool)
        ensures { Records (call.Listen address.now is_listening) self.old self.new }
    {
        match Address::new(alloc, address) {
            Ok(address) => self.add(Call::Listen {
                address,
                is_listening,
            }),
            Err(_) => self.stop(),
        }
    }

    /// One more call of `dial`.
    #[tactic(auto, using(crate::proofs::Recording::records_none))]
    pub fn dialled(&mut self, alloc: Global, address: &str, is_link: bool)
        ensures { Records (call.Dial address.now is_link) self.old self.new }
    {
        match Address::new(alloc, address) {
            Ok(address) => self.add(Call::Dial { address, is_link }),
            Err(_) => self.stop(),
        }
    }

    /// One more call of `accept`.
    pub fn accepted(&mut self, answer: Answer)
        ensures { Records (call.Accept answer) self.old self.new }
    {
        self.add(Call::Accept { answer });
    }

    #[tactic(auto, using(crate::proofs::Recording::records_none))]
    fn add(&mut self, call: Call)
        ensures { Records call self.old self.new }
    {
        let is_told = match &mut self.list {
            Some(calls) => calls.push(call).is_ok(),
            None => false,
        };
        if !is_told {
            self.stop();
        }
    }

    // Nothing is told any more.
    fn stop(&mut self)
        ensures { self.new ≡ None }
    {
        self.list = None;
    }
}
