//! The outside over TCP: links and their log, a listener, a clock, and random words of the operating system. What sockets give and take isn't told; what fails is
//! counted.
#![tactic(auto)]

mod address;
mod clock;
mod door;
mod grace;
mod host;
mod line;
mod log;
mod place;
mod porch;
mod queue;
mod random;
mod reason;
mod refusals;
mod stream;

pub use clock::SystemClock;
pub use host::TcpHost;
pub use log::ErrorLog;
pub use random::SystemRandom;
pub use stream::{TcpSink, TcpSource};
