//! What workers and sessions share under one lock, and the devices that workers ask. (docs/ARCHITECTURE.md,
//! "Threads".)
#![tactic(auto)]

mod crew;
mod device;
mod ending;
mod job;
mod progress;
mod resting;
mod shared;

pub use crew::{Crew, Notify, Trip, Watch, first_slowness};
pub use device::{Device, DeviceFault};
pub use ending::ServeEnd;
pub use job::{Job, make_moves};
pub use progress::{Progress, Tally};
pub use resting::Pause;
pub use shared::Shared;
