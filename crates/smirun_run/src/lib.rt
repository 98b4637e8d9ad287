//! The command `run`: a domain and a script go in, a run in threads is made, and its summary comes out.
//! (docs/FORMATS.md, "Scripts".)
#![tactic(auto)]

mod checking;
mod command;
mod host;
mod options;
mod outcome;
mod planning;
mod progress;
mod running;
mod summary;

pub use checking::{CheckOptions, run_check_lines};
pub use command::run_run;
pub use host::Host;
pub use options::RunOptions;
pub use outcome::{Outcome, tell_outcome, write_kept_journal};
pub use planning::plan_of_bytes;
pub use running::{RunError, RunNumbers, run_plan};
pub use smi_run::{MAX_WORKERS, Receipt, Unwatched, Watch};
pub use smi_run_plan::LONGEST_SCRIPT;
pub use summary::summary_of;
