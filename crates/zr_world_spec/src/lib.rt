//! Definitions of a script's network: the world, what each act does to it, runs, moments and accepted acts.
//! How lines are read stands below, what clients are promised above. No code stands here.
#![tactic(auto)]
