//! `Owner`: who declared a token.

ghost use Rattle.std.specs.Prelude.{◌≡◌};
ghost use Rattle.zr_token.specs.Tally.{is_owner};

use zr_id::link::LinkNo;
use zr_id::zid::Zid;

/// Who declared a token, as a router sees it.
#[derive(Clone, Copy)]
pub enum Owner {
    /// The client of one of its links.
    Client(LinkNo),
    /// A client of another router.
    Source(Zid),
}

impl Owner {
    /// Whether it is the client of the same link, or the same router.
    pub fn is(self, other: Owner) -> bool
        ensures { result ≡ is_owner self other }
    {
        match self {
            Owner::Client(link) => other.is_client(link),
            Owner::Source(source) => other.is_source(source),
        }
    }

    fn is_client(self, link: LinkNo) -> bool
        ensures { result ≡ is_owner (Owner.Client link) self }
    {
        match self {
            Owner::Client(own) => link.0 == own.0,
            Owner::Source(_) => false,
        }
    }

    fn is_source(self, source: Zid) -> bool
        ensures { result ≡ is_owner (Owner.Source source) self }
    {
        match self {
            Owner::Client(_) => false,
            Owner::Source(own) => source == own,
        }
    }
}
