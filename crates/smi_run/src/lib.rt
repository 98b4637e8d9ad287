//! Runs by scripts: a thread for each worker and for each session, up to the report. (docs/ARCHITECTURE.md,
//! "Threads".)
#![tactic(auto)]

mod player;
mod running;
mod script;
mod watch;
mod workers;

pub use player::Refusals;
pub use running::{run_scripts, run_watched};
pub use script::{Line, Script};
pub use smi_journal_entries::Args;
pub use smi_run_report::{Accepted, Receipt, Report, add_unmet};
pub use smi_run_runtime::{
    Closed, Config, FinishError, KillError, MAX_WORKERS, OpenError, PostError, Runtime, Session,
};
pub use smi_run_shared::{Device, DeviceFault, Progress, ServeEnd, Tally};
pub use watch::{Unwatched, Watch, Wish};
