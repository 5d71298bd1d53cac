//! Laws on what replies weigh: each the `ensures` of a function without parameters and with an empty body.
//! Who needs a law calls its function.
#![tactic(auto)]

ghost use Rattle.zr_law_held.specs.Weights.{RepliesWeigh, RepliesHaveRoom};
ghost use Rattle.zr_law_held.specs.Lines.{LinesFit, LinesAreWithin};

/// At each moment all replies that wait or are held weigh no more together than all that clients have replied.
pub fn replies_weigh()
    ensures { RepliesWeigh }
{}

/// So where that is no more than a router may hold, it has room for each reply.
pub fn replies_have_room()
    ensures { RepliesHaveRoom }
{}

/// The replies of a script are such: each is a REPLY, and together they weigh less than the script.
pub fn lines_fit()
    ensures { LinesFit }
{}

/// The lines of a script have no more bytes than the script.
pub fn lines_are_within()
    ensures { LinesAreWithin }
{}
