//! Laws of several routers that run each on its own: their run is the run of a script's world, so all that is proved of scripts is so of it.
//!
//! A run is a list of what routers hear of, one event after another, in an order of real time. What is asked of it stands
//! in `specs/Allowed`, each premise by itself:
//!
//! - of the routers: no two have one identifier, and each refuses none of its events;
//! - of their links: a router hears of another one's messages in the order in which they were queued, with none left out, while both ends are up and
//!   none has gone down since; both ends of a link between routers bring one weight; and a link comes up anew only once it is down at both ends. Such
//!   is a connection that loses nothing, but for what is on it as one end goes down: a script's link loses that too;
//! - of clients: each comes under a name of its own, and says what a client of a script may say;
//! - of numbers: a script's world has room for 64 routers, for 1,024 clients that come, for 512 links in place at a time, for what declarations weigh and
//!   for queries.
//!
//! What a router does depends neither on its clients' identifiers nor on the trees that they name (`zr_law_names`). So a client that comes again may have
//! another name in the run, and there its samples and queries name no tree, whatever they named.
//!
//! Each law is the `ensures` of a function without parameters and with an empty body. Who needs a law calls its function.
#![tactic(auto)]

ghost use Rattle.zr_law_running.specs.Example.{ExampleIsARun};
ghost use Rattle.zr_law_running.specs.Laws.{RunsAreOfAWorld, RunsHavePhases};

/// Each run of several routers is the run of a script's world: acts that are all accepted lead to it, and by them clients come, part and say just what they
/// do in the run. What routers heard of may be a run but for what changes nothing: events without effect, clients' names, and trees that they name. There
/// each router has come to its tables by its own part alone. What is queued for a router waits until it is heard of, and a client was sent all that was
/// queued for it.
pub fn runs_are_of_a_world()
    ensures { RunsAreOfAWorld }
{}

/// Where that world is settled and its routers are joined, all that follows without a change of links or declarations is a phase of it. So what was
/// queued for each client of samples and requests is, publisher by publisher, a prefix of what one broker sends it.
pub fn runs_have_phases()
    ensures { RunsHavePhases }
{}

/// A small run of two routers and two clients is one, also where the client that publishes has named a tree.
pub fn example_is_a_run()
    ensures { ExampleIsARun }
{}
