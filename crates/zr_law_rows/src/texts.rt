//! The texts of messages worked out, as a reader of the definitions works them out.

ghost use Rattle.zr_law_rows.specs.Texts.{ContentsAreTold, DeclarationsAreTold, InterestsAreTold, RoutersAreTold};

/// What clients declare, and the end of it.
pub fn declarations_are_told()
    ensures { DeclarationsAreTold }
{}

/// Interests, and what is told of them.
pub fn interests_are_told()
    ensures { InterestsAreTold }
{}

/// Samples, requests and their replies.
pub fn contents_are_told()
    ensures { ContentsAreTold }
{}

/// What routers tell each other.
pub fn routers_are_told()
    ensures { RoutersAreTold }
{}
