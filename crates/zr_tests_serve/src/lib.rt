//! Tests of what runs in threads around a router: sessions, crews, hosts, the serving of links, and gangs of a fan; what only a run shows.
//! There is no code here but theirs.
#![tactic(auto)]

#[cfg(test)]
mod crews;
#[cfg(test)]
mod fans;
#[cfg(test)]
mod hosts;
#[cfg(test)]
mod serving;
#[cfg(test)]
mod sessions;
#[cfg(test)]
mod shared_sink;
