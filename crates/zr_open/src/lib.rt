//! How a session opens, at both ends: what is expected, what is refused and why, and what is answered. Bytes are not known
//! here, but those of the cookie.
#![tactic(auto)]

mod cookie;
mod error;
mod expected;
mod greeting;
mod laws;
mod opening;
mod sizes;
mod table;

pub use error::{OpenError, Reason};
pub use expected::{Expected, Opened, Progress};
pub use laws::{clients_open, routers_open_with_each_other};
pub use opening::Opening;
