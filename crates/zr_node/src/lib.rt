//! One router as a pure state machine: an event in, messages for links out.
//! What an event means is the table of the definitions; threads, clocks and bytes are not known here.
#![tactic(auto)]

mod asked;
mod asking;
mod failure;
mod holding;
mod interests;
mod kept;
mod links;
pub mod node;
mod own;
