//! How a session ends.

ghost use Rattle.std.specs.Prelude.{◌≡◌};
ghost use Rattle.zr_session.specs.Session.{fate_of};

use zr_open::Reason;

/// How a session ended.
#[derive(Clone, Copy)]
pub enum End {
    /// This end closed it.
    Closed(Reason),
    /// A CLOSE was read, with this reason.
    Peer(u8),
}

/// What each call of a session answers.
#[derive(Clone, Copy, Debug, PartialEq, Eq)]
pub enum Fate {
    Going,
    /// This end has closed the session.
    Closed(Reason),
    /// A CLOSE was read, with this reason.
    Peer(u8),
}

impl End {
    pub(crate) fn fate(self) -> Fate
        ensures { result ≡ fate_of self }
    {
        match self {
            End::Closed(reason) => Fate::Closed(reason),
            End::Peer(reason) => Fate::Peer(reason),
        }
    }
}
