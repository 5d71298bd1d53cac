//! What is sought of declarations on the way of a sample or a request.

ghost use Rattle.std.specs.Prelude.{◌≡◌};
ghost use Rattle.zr_push_sought.specs.Sought.{sought_by, sought_number};

use zr_msg::msg::Target;

/// What is sought: a sample seeks subscribers, and a request queryables, or complete ones alone.
#[derive(Clone, Copy)]
pub enum Sought {
    /// Subscribers to an expression that meets the key.
    Subscribers,
    /// Queryables of an expression that meets the key.
    Queryables,
    /// Complete queryables of an expression that covers the key.
    Complete,
}

impl Sought {
    /// A number by which it is told apart.
    pub fn number(self) -> u8
        ensures { result ≡ sought_number self }
    {
        match self {
            Sought::Subscribers => 0,
            Sought::Queryables => 1,
            Sought::Complete => 2,
        }
    }
}

/// What a request with this target seeks.
pub fn sought_by(target: Target) -> Sought
    ensures { result ≡ sought_by target }
{
    match target {
        Target::Best | Target::All => Sought::Queryables,
        Target::Complete => Sought::Complete,
    }
}
