//! One query on its way along a tree, whatever else is under way: any nodes `N`, and replies that say an `R`.

ghost use Rattle.zr_law_queries.specs.Courses.{MovesKeepSound, MovesBring, FinalsAreLast, QueriesAreAnswered, QueriesAreGathered, ChainsAreWays};
ghost use Rattle.zr_law_queries.specs.Worked.{QueryIsWorked};

/// Each move keeps the stages of a node and of its children together: nobody is reached before the node above has the request, and who passes on has
/// sent its final exactly where it has handled the finals of all its children.
pub fn moves_keep_sound<N, R>()
    ensures { MovesKeepSound N R }
{}

/// Each move keeps the replies of a replier along its way, and there alone: what a node has sent up is what it has taken from the next.
pub fn moves_bring<N, R, C>()
    ensures { MovesBring N R C }
{}

/// Behind its final the client that asks is sent nothing.
pub fn finals_are_last<N, R>()
    ensures { FinalsAreLast N R }
{}

/// After any moves the client that asks was sent a prefix of what each replier has said: the whole once it was sent the final, and the whole where
/// nothing is under way. It was sent the final once nothing is under way and all that were asked have ended.
pub fn queries_are_answered<N, R, C>()
    ensures { QueriesAreAnswered N R C }
{}

/// Where the router of the client that asks gathers, the client is sent nothing before that router has handled the finals of all, and then the best of all
/// that it has handled, which is the whole of what each replier has said.
pub fn queries_are_gathered<N, R, C>()
    ensures { QueriesAreGathered N R C }
{}

/// A chain of nodes from the root to a client that is asked, each a child of the one before, is a way.
pub fn chains_are_ways<N, R>()
    ensures { ChainsAreWays N R }
{}

/// A query worked out: two routers, a client that is asked at each, and what the client that asks was sent in the end.
pub fn query_is_worked()
    ensures { QueryIsWorked }
{}
