//! One router, as definitions: its state, and what each event sends, leaves and is refused for, link by link. The code is the loan of a
//! router's tables to the crates that send, the list of messages, each with its link, that a router has sent so far, and two tests of kinds.
#![tactic(auto)]

pub mod kinds;
pub mod tables;
pub mod tell;
