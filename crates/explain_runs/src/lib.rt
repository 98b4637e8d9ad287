//! Why a run went as it did, for people: lines of devices that do nothing, devices that failed, requests that were
//! skipped, objects that wait for others, and lines of sessions that were refused. Nothing here decides anything, and
//! what it says is not promised.
#![tactic(auto)]

mod awaited;
mod devices;
mod lengths;
mod reasons;
mod refusals;
mod waits;
mod walk;

pub use awaited::tell_awaited;
pub use devices::tell_device_lines;
pub use lengths::tell_length;
pub use reasons::tell_reasons;
pub use refusals::{tell_dead, tell_full};
