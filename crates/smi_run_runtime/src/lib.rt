//! Runs in threads: sessions that post, workers that serve, devices that answer, and the report at the end.
//! (docs/ARCHITECTURE.md, "Threads".)
#![tactic(auto)]

mod closing;
mod errors;
mod opening;
mod posting;
mod runtime;
mod seats;
mod session;

pub use errors::{FinishError, KillError, OpenError, PostError};
pub use opening::{Config, MAX_WORKERS};
pub use runtime::Runtime;
pub use session::{Closed, Session};
