//! Tests of what links of one router share: the counted history, the ring, writers and the shared router; what only a run shows. There is no
//! code here but theirs.
#![tactic(auto)]

#[cfg(test)]
mod calls;
#[cfg(test)]
mod desk;
#[cfg(test)]
mod giving;
#[cfg(test)]
mod note;
#[cfg(test)]
mod routers;
#[cfg(test)]
mod sharing;
#[cfg(test)]
mod tests;
#[cfg(test)]
mod threads;
#[cfg(test)]
mod turns;
#[cfg(test)]
mod writers;
