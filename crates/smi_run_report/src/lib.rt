//! What a run shows at its end: its journal, what sessions were told, and what is left. (docs/ARCHITECTURE.md,
//! "Threads".)
#![tactic(auto)]

mod closing;
mod report;
mod rest;
mod told;

pub use report::Report;
pub use told::{Accepted, Receipt, add_unmet};
