//! Definitions of what a network promises its clients: the phase of a mark, the one broker, what a client was sent, and that the
//! network refines the one broker. No code stands here.
#![tactic(auto)]
