//! The script language: a line to its command, a report line and a refusal to their texts.
//! What a command does stands in the world's crate.
#![tactic(auto)]

mod args;
pub mod body;
pub mod line;
pub mod message;
pub mod part;
pub mod text;
pub mod word;
