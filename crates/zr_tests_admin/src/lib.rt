//! Tests of the administration space: a client asks for pages of a router, whose inner client steps on the test's own thread.
//! There is no code here but theirs.
#![tactic(auto)]

#[cfg(test)]
mod asking;
#[cfg(test)]
mod space;
#[cfg(test)]
mod telling;
