//! Scripts are read: what the sessions of a run do, and what the devices of its objects answer.
//! (docs/FORMATS.md, "Scripts".)
#![tactic(auto)]

mod answers;
mod device;
mod draft;
mod error;
mod lines;
mod names;
mod plan;
mod room;

pub use device::ScriptDevice;
pub use error::ScriptError;
pub use plan::{LONGEST_SCRIPT, Plan, read_script};
