//! Tests of a router, of the judge of reports, of scripts that come in pieces, and of the bytes that a script's world sends.
//! Each file tests one crate, as rows of a table, but for `row`, which has what rows are made of, and `latest`, which has rows for the judge. What the contracts say for all inputs is not tested.
#![tactic(auto)]

#[cfg(test)]
mod judges;
#[cfg(test)]
mod latest;
#[cfg(test)]
mod nodes;
#[cfg(test)]
mod pieces;
#[cfg(test)]
mod row;
#[cfg(test)]
mod worlds;
