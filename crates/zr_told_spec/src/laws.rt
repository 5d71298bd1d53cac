//! Laws of what clients are told, for the proofs of the crates above.

ghost use Rattle.zr_told_spec.specs.Laws.{WantedIsListed, ChangesKeep, InterestsKeep, ToldIsWanted, NothingIsTold, ChangesTouch, ItsOwnIsTold, StartAgrees, HeardOn, NothingWithout, FewAreWanted, TellsEach, NotedIsLive, HubKeeps, HubIsAsWanted, HubForgets};

/// The list of what is wanted gives what is wanted at each place.
pub fn wanted_is_listed()
    ensures { WantedIsListed }
{}

/// Of what a client was told is what the messages on its link leave, also after a change of declarations.
pub fn changes_keep()
    ensures { ChangesKeep }
{}

/// So it is after an interest of the client.
pub fn interests_keep()
    ensures { InterestsKeep }
{}

/// After each event a client was told of what is wanted.
pub fn told_is_wanted()
    ensures { ToldIsWanted }
{}

/// Where a client was told of what is wanted, it is told nothing.
pub fn nothing_is_told()
    ensures { NothingIsTold }
{}

/// Where declarations changed at some places alone, all is as wanted where none of them touches.
pub fn changes_touch()
    ensures { ChangesTouch }
{}

/// An interest in what is declared later is told what it wants, and nothing else.
pub fn its_own_is_told()
    ensures { ItsOwnIsTold }
{}

/// A client that was told nothing has heard nothing.
pub fn start_agrees()
    ensures { StartAgrees }
{}

/// Messages are heard one after another.
pub fn heard_on()
    ensures { HeardOn }
{}

/// A client without interests was told of nothing.
pub fn nothing_without()
    ensures { NothingWithout }
{}

/// No more places are wanted than there are declarations, and two for each interest.
pub fn few_are_wanted()
    ensures { FewAreWanted }
{}

/// What all clients are told is, on each link, what its client is told.
pub fn tells_each()
    ensures { TellsEach }
{}

/// A client's interest has been noted once its live interests are those that it leaves.
pub fn noted_is_live()
    ensures { NotedIsLive }
{}

/// After each event of a router, of what a client was told is what the messages on its link leave.
pub fn hub_keeps()
    ensures { HubKeeps }
{}

/// After each event of a router, each client was told of what is wanted.
pub fn hub_is_as_wanted()
    ensures { HubIsAsWanted }
{}

/// Nothing is kept of what was told on a link that leads to no client any more.
pub fn hub_forgets()
    ensures { HubForgets }
{}
