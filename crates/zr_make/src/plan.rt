//! What a script is made of.

ghost use Rattle.std.specs.Prelude.{◌≡◌};
ghost use Rattle.zr_make.specs.Plan.{is_in_range};

/// What a script is made of: the number from which it is drawn, and how many routers, clients and samples it has.
#[derive(Clone, Copy, Debug, PartialEq, Eq)]
pub struct MakePlan {
    /// Any number. Two scripts of one number differ in nothing but what the other values make differ.
    pub number: u64,
    /// How many routers, 1 to 64.
    pub routers: u32,
    /// How many clients, up to 1,024.
    pub clients: u32,
    /// How many samples, up to 2,000, and none where there are no clients.
    pub messages: u32,
}

/// The most routers of a script that is made, which is the most that a script may have.
const MOST_ROUTERS: u32 = 64;

/// The most clients of a script that is made, which is the most that a script may have.
const MOST_CLIENTS: u32 = 1_024;

/// The most samples of a script that is made.
const MOST_MESSAGES: u32 = 2_000;

impl MakePlan {
    /// Whether a script can be made of it.
    pub fn is_in_range(&self) -> bool
        ensures { result ≡ is_in_range self.now.routers self.now.clients self.now.messages }
    {
        1 <= self.routers
            && self.routers <= MOST_ROUTERS
            && self.clients <= MOST_CLIENTS
            && self.messages <= MOST_MESSAGES
            && (self.clients > 0 || self.messages == 0)
    }
}
