//! The world of a script as code: routers and clients in ordered maps, and the ends of links beside them.
//! What an act does is the step of the definitions; runs, lines, texts and bytes are not known here.
#![tactic(auto)]

mod asked;
mod client;
mod declared;
mod fan;
mod interested;
mod joined;
mod marks;
mod members;
mod router;
mod sending;
mod settled;
mod spread;
mod steps;
mod tables;
pub mod world;
