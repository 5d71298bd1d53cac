//! Scripts of several routers, and of links that come and go, worked out from their bytes.

ghost use Rattle.zr_law_rows.specs.Networks.{ApartIsNotJoined, BrokenIsNotLinked, BrokenIsNotSettled, DownIsTold, RecordsGoOn, RoutersTell, SamplesCross, SnapshotsMend};

/// Two routers whose link comes up tell each other of it: their network is settled and joined, and each has both records.
pub fn routers_tell()
    ensures { RoutersTell }
{}

/// A record that is new goes on to the routers behind, and to no one twice.
pub fn records_go_on()
    ensures { RecordsGoOn }
{}

/// A network with a broken link that its routers have not noticed is not settled.
pub fn broken_is_not_settled()
    ensures { BrokenIsNotSettled }
{}

/// A network without links is settled, and not joined.
pub fn apart_is_not_joined()
    ensures { ApartIsNotJoined }
{}

/// A router that has noticed that its link is broken has a record without it; what was queued is lost.
pub fn down_is_told()
    ensures { DownIsTold }
{}

/// A client whose link is broken sends nothing more, and its router forgets its declarations.
pub fn broken_is_not_linked()
    ensures { BrokenIsNotLinked }
{}

/// A subscriber of one router is sent what a client of another publishes, once, and the sample names its tree between the routers.
pub fn samples_cross()
    ensures { SamplesCross }
{}

/// A declaration that was lost with a link, and taken back while it was down, is mended by a snapshot when the link is up again.
pub fn snapshots_mend()
    ensures { SnapshotsMend }
{}
