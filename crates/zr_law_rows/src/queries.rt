//! Queries worked out from a script's bytes: who is asked, and which replies and finals come.

ghost use Rattle.zr_law_rows.specs.Queries.{NobodyIsAsked, QueriesCross, OneFinalComes, CompleteIsAsked, DownEnds, OpenNumberIsTaken, NotSentIsNotAsked, NumberComesAgain, BothAreAnswered};

/// A query that nobody can answer has its final at once.
pub fn nobody_is_asked()
    ensures { NobodyIsAsked }
{}

/// Samples and a query of one client come to another in one order along three routers, and the reply and the final go back.
pub fn queries_cross()
    ensures { QueriesCross }
{}

/// Two queryables at two routers are asked, and one final comes once both have ended.
pub fn one_final_comes()
    ensures { OneFinalComes }
{}

/// Where complete queryables are asked, one that only meets the key is not.
pub fn complete_is_asked()
    ensures { CompleteIsAsked }
{}

/// The request of a client whose link goes down has ended.
pub fn down_ends()
    ensures { DownEnds }
{}

/// The number of a query whose final was not sent is not asked under again.
pub fn open_number_is_taken()
    ensures { OpenNumberIsTaken }
{}

/// A client can't answer a request that it was not sent.
pub fn not_sent_is_not_asked()
    ensures { NotSentIsNotAsked }
{}

/// A number may be asked under again once its final was sent: the next query has requests, replies and a final of its own.
pub fn number_comes_again()
    ensures { NumberComesAgain }
{}

/// Of two queries under one number the one broker says which replies are due to each, which is finished, and which has its final.
pub fn both_are_answered()
    ensures { BothAreAnswered }
{}
