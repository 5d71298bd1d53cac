//! `Host`: where links, clocks and random words come from.

ghost use Rattle.std.specs.Prelude.{◌≡◌, ℕ, List, false, true, is_some, is_none, IfOk};
ghost use Rattle.std.specs.declared.option.Option.{Option};
ghost use Rattle.zr_outside.specs.Counts.{Counted};
ghost use Rattle.zr_outside.specs.declared.host.Call.{Call};
ghost use Rattle.zr_outside.specs.declared.host.Call.TheVariants as call;
ghost use Rattle.rand_core.specs.Stream.{Stream};
ghost use Rattle.zr_outside.specs.Host.{Draws, Records, IsLost, IsIdle, IsOver, answer_of};

use crate::clock::Clock;
use crate::log::Log;
use crate::sink::Sink;
use crate::source::Source;
use rand_core::Rng;
use std::alloc::{AllocError, Global};
use std::marker::Model;

/// What an accept gave.
#[derive(Drop)]
pub enum Accepted<S, K> {
    /// A link: where its bytes come from and where they go.
    Link(S, K),
    /// No link has come yet.
    Quiet,
    /// No more links come.
    End,
    /// The outside has failed.
    Failed,
}

/// What an accept gave, without the link.
#[derive(Clone, Copy)]
pub enum Answer {
    Link,
    Quiet,
    End,
    Failed,
}

/// An address as a host was given it. Contracts see its bytes.
#[derive(Drop)]
pub struct Address {
    bytes: Vec<u8>,
}

impl Model for Address {
    ghost use Rattle.std.specs.Prelude.{List, ℕ};

    ghost Value = { List ℕ };

    ghost view = { λ a. a.bytes.items };
}

impl Address {
    /// The address of this text.
    pub fn new(alloc: Global, text: &str) -> Result<Address, AllocError>
        ensures { IfOk result (λ a. a ≡ text.now) }
    {
        Ok(Address {
            bytes: text.as_bytes().to_vec(alloc)?,
        })
    }

    /// Its bytes.
    pub fn bytes(&self) -> &[u8]
        ensures { result.now ≡ self.now }
    {
        self.bytes.as_slice()
    }
}

/// A call of a host with its answer: whether it listens at the address, or has given a link.
#[derive(Drop)]
pub enum Call {
    Listen {
        address: Address,
        is_listening: bool,
    },
    Dial {
        address: Address,
        is_link: bool,
    },
    Accept {
        answer: Answer,
    },
}

/// Where links come from. Each of its counts rises by one where that answer came, and only there: that of faults where listening, accepting or the
/// random words failed, that of lost dials where a dial gave no link.
pub trait Host {
    type In: Source + Send + Drop;

    type Out: Sink + Send + Drop;

    type Time: Clock + Send + Drop;

    type Log: Log + Send + Drop;

    type Words: Rng + Drop;

    ghost faults: { Self → ℕ };

    ghost quiets: { Self → ℕ };

    ghost ends: { Self → ℕ };

    ghost lost_dials: { Self → ℕ };

    // its calls of `listen`, `dial` and `accept`, where it tells them
    ghost calls: { Self → Option (List Call) };

    // the generators that it has left, by their streams, where it tells them
    ghost generators: { Self → Option (List Stream) };

    /// Begins to listen at an address; false where that can't be.
    fn listen(&mut self, address: &str) -> bool
        ensures failed { Counted (faults self.old) (faults self.new) (result ≡ false) }
        ensures others { (quiets self.new ≡ quiets self.old) × (ends self.new ≡ ends self.old) × (lost_dials self.new ≡ lost_dials self.old) }
        ensures told { Records (call.Listen address.now result) (calls self.old) (calls self.new) }
        ensures undrawn { generators self.new ≡ generators self.old };

    /// The next link that comes.
    fn accept(&mut self) -> Accepted<Self::In, Self::Out>
        ensures failed { Counted (faults self.old) (faults self.new) (IsLost result) }
        ensures quiet { Counted (quiets self.old) (quiets self.new) (IsIdle result) }
        ensures ended { Counted (ends self.old) (ends self.new) (IsOver result) }
        ensures others { lost_dials self.new ≡ lost_dials self.old }
        ensures told { Records (call.Accept (answer_of result)) (calls self.old) (calls self.new) }
        ensures undrawn { generators self.new ≡ generators self.old };

    /// A link to an address; none where that can't be.
    fn dial(&mut self, address: &str) -> Option<(Self::In, Self::Out)>
        ensures lost { Counted (lost_dials self.old) (lost_dials self.new) (is_none result ≡ true) }
        ensures others { (faults self.new ≡ faults self.old) × (quiets self.new ≡ quiets self.old) × (ends self.new ≡ ends self.old) }
        ensures told { Records (call.Dial address.now (is_some result)) (calls self.old) (calls self.new) }
        ensures undrawn { generators self.new ≡ generators self.old };

    /// A clock for one more thread.
    fn time(&mut self) -> Self::Time
        ensures counts { (faults self.new ≡ faults self.old) × (quiets self.new ≡ quiets self.old) × (ends self.new ≡ ends self.old) × (lost_dials self.new ≡ lost_dials self.old) }
        ensures told { calls self.new ≡ calls self.old }
        ensures undrawn { generators self.new ≡ generators self.old };

    /// A log for one more thread of a link, by the link's reading end.
    fn log(&mut self, alloc: Global, link: &Self::In) -> Self::Log
        ensures counts { (faults self.new ≡ faults self.old) × (quiets self.new ≡ quiets self.old) × (ends self.new ≡ ends self.old) × (lost_dials self.new ≡ lost_dials self.old) }
        ensures told { calls self.new ≡ calls self.old }
        ensures undrawn { generators self.new ≡ generators self.old };

    /// A generator of random words, to be asked for once; none where the system gives none.
    fn words(&mut self) -> Option<Self::Words>
        ensures failed { Counted (faults self.old) (faults self.new) (is_none result ≡ true) }
        ensures others { (quiets self.new ≡ quiets self.old) × (ends self.new ≡ ends self.old) × (lost_dials self.new ≡ lost_dials self.old) }
        ensures told { calls self.new ≡ calls self.old }
        ensures drawn { Draws (λ w. Self.Words.stream w) result (generators self.old) (generators self.new) };
}
