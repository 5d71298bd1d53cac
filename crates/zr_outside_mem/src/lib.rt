//! The outside in memory: sources, sinks, clocks, logs and hosts that keep their contents and fail where they are told to, for tests.
#![tactic(auto)]

pub mod gate;
pub mod mem_calls;
pub mod mem_clock;
pub mod mem_host;
pub mod mem_log;
pub mod mem_sink;
pub mod mem_source;
