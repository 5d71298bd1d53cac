//! Key expressions: what users address, such as `robot/7/pose` or `fleet/**`, read into their canonical form.
//! How expressions are compared stands above, and so does who wants which key.
#![tactic(auto)]

mod canonical;
mod faults;
pub mod key;
pub mod laws;
