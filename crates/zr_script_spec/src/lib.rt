//! Scripts: commands, report lines and refusals as plain data, and the language as definitions: lines, words, the commands that they
//! spell, and the texts of reports and refusals. What a command does to a network stands above.
#![tactic(auto)]

pub mod command;
pub mod error;
pub mod report;
