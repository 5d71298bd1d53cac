//! One directed link and the numbers of its requests, whatever the requests are for: they carry a `Q`, replies say an `R`, and who asked is a `P`.

ghost use Rattle.zr_law_queries.specs.Numbers.{EventsKeepHops, TrafficShowsHops, FrontsAreRight};

/// Each event on a link changes what its own number stands for, as it is said there, and no other.
pub fn events_keep_hops<Q, P, R>()
    ensures { EventsKeepHops Q P R }
{}

/// Whatever has happened on a link since it came up, each number is free, asked, or open with some replies and perhaps the final behind them.
pub fn traffic_shows_hops<Q, P, R>()
    ensures { TrafficShowsHops Q P R }
{}

/// The oldest request on a link has a number that the lower end keeps no request of. The oldest answer has a number that the upper end has pending, and
/// a final is the last under its number.
pub fn fronts_are_right<Q, P, R>()
    ensures { FrontsAreRight Q P R }
{}
