//! Tests of links, of serving and of scripts whose outside fails, by the forms in memory, and of two clients at once, of one router and of two that are
//! linked. There is no code here but theirs.
#![tactic(auto)]

#[cfg(test)]
mod across;
#[cfg(test)]
mod failing;
#[cfg(test)]
mod link_sink;
#[cfg(test)]
mod links;
#[cfg(test)]
mod moving_clock;
#[cfg(test)]
mod networks;
#[cfg(test)]
mod pipe;
#[cfg(test)]
mod routers;
#[cfg(test)]
mod seen;
#[cfg(test)]
mod serving;
#[cfg(test)]
mod silent;
#[cfg(test)]
mod talking;
#[cfg(test)]
mod tests;
#[cfg(test)]
mod wire;
